//! Which one instruction of the table a statement of the assembler's language means.
//!
//! `table` has one line for each name and form: the name, the sizes that it may have, its operands, and the bits of its
//! words that belong to no field. Everything else is said once: `sizes`, `range`, `modes` and `reading`. A statement
//! means the instruction that its words are decoded as. The table is one of values, so that it can be read the other
//! way.
#![tactic(auto)]

mod endings;
mod fault;
mod front;
pub mod laws;
mod line;
mod modes;
mod pattern;
mod range;
mod reading;
mod sizes;
mod table;

pub use endings::{NameOf, ending_name};
pub use fault::MeansFault;
pub use front::{instruction_of, length_of, words_of};
pub use line::{Ending, Line, Patterns, Stem};
pub use pattern::{Pattern, Place};
pub use range::{Range, number};
pub use reading::operand_words;
pub use sizes::{SizeField, Sizes};
pub use table::lines;
