//! The syntax of a line of the assembler's language: its words, and the statement that they make.
//!
//! `specs/Words` says what the words of a line are, `specs/Names` which names are registers, and
//! `specs/Sums`, `specs/Modes`, `specs/Operands` and `specs/Statements` are the grammar.
#![tactic(auto)]

mod expression;
mod fault;
mod mode;
mod mode_reading;
mod naming;
mod operand;
mod operand_reading;
mod register;
mod statement;
mod statement_reading;
mod sum;
mod table;
mod word;
mod wording;

pub use expression::{Expression, SignedTerm, Term};
pub use fault::SyntaxFault;
pub use mode::{Base, Displacement, FullForm, Index, Indirection, Mode, Scale, Width};
pub use operand::{BitField, FieldNumber, Operand};
pub use register::Register;
pub use statement::{Operation, SizeLetter, Statement};
pub use statement_reading::parse;
pub use table::found_in;
pub use word::{Name, Word};
