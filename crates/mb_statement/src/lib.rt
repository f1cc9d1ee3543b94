//! The statement that a line of the table of mnemonics makes of words, and its text.
//!
//! `specs/Statements` reads the patterns of a line from words, and `specs/Texts` says how a statement is written. A
//! line may make a statement that says other words: who lists it tests what it means.
#![tactic(auto)]

pub mod laws;
mod modes;
mod numbers;
mod operands;
mod reading;
mod statement;
mod text;
mod written;

pub use numbers::{LineText, push_number};
pub use reading::{has_bits, statement_by};
pub use statement::{Name, Operands, Statement};
pub use text::{push_bytes, push_statement};
pub use written::have_texts;
