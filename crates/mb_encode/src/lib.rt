//! From instructions to words.
//!
//! The table of `mb_instr`, written from left to right: `table` has one line for each row, `shapes`
//! what the rows have in common, and `writing` makes the words of what the line says.
#![tactic(auto)]

mod front;
mod shapes;
mod spelling;
mod table;
mod writing;

pub use front::encode;
pub use writing::{Unencodable, Words};
