//! Each instruction in one space is the twin of the same in another, with places further up by a base.
//!
//! So a board in user mode does what a guest does, call by call, up to the first call that it refuses.
//! `proofs/` has a law for each row, of a few lines, a module a family; a further row adds its own, and a
//! line where its family is put together. The clauses here say it of each instruction and of whole
//! attempts, by their trees of calls.
#![tactic(auto)]

ghost use Rattle.law_twins.specs.Twins.{RowsAreTwins, AttemptsAreTwins};

/// An instruction, and a whole attempt, in two spaces.
pub fn rows_are_twins()
    ensures rows { RowsAreTwins }
    ensures attempts { AttemptsAreTwins }
{}
