//! What a refused call tells of each instruction: its end and its registers say what was left to do.
//!
//! A board in user mode refuses the accesses that its guest may not have made for it, by a fault. Whoever
//! finds the end then carries on for the guest: after a refused read the instruction begins again, after a
//! refused write the pieces that are named are written, and a MOVEM goes on from the refused transfer.
//! `proofs/` has the law of each part that instructions share, and of each row, of a few lines, a module a
//! family; a further row adds its own, and a line where its family is put together.
#![tactic(auto)]

ghost use Rattle.law_tells.specs.Laws.{RowsTell, AttemptsTell, RestsResume};

/// An instruction, and a whole attempt, over every bus that refuses calls.
pub fn rows_tell<S>()
    ensures rows { RowsTell S }
    ensures attempts { AttemptsTell S }
{}

/// What is left of a MOVEM is the MOVEM from the refused transfer on: over every bus where the pieces
/// before the refused one can be read or written again.
pub fn rests_resume<S, A>()
    ensures { RestsResume S A }
{}
