//! The instructions that move, over any bus, one small function a row.
//!
//! Each function does what its routine of `def_instructions` does, whatever the bus.
#![tactic(auto)]

mod codes;
mod lines;
mod movem;
mod moves;
mod performing;
mod peripheral;
mod registers;
mod stack;
mod transfers;

pub use moves::moveq;
pub use performing::{perform_move, perform_move_in_place};
