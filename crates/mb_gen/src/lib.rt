//! Sessions made from a number: large valid inputs, to compare speed by.
//!
//! A guest computes with its data registers and 32 KiB of its memory in a hundred laps of 2,000 instructions, which a
//! generator of numbers picks; it sends a byte after each lap, and switches itself off. The same seed makes the same
//! session: `generated` of `specs/Sessions`. That the words of a program are instructions is a law
//! ([`programs_are_read`]).
#![tactic(auto)]

mod draws;
mod laws;
mod program;
mod session;

pub use laws::programs_are_read;
pub use session::make_session;
