//! The assembler: from a text to an image.
//!
//! `specs/Values` says what expressions are worth, `specs/Extents` how far a statement reaches, `specs/Bytes` what it
//! writes, `specs/Layouts` where the statements stand and what the symbols are, `specs/Judged` what is wrong with a
//! line, and `specs/Texts` what the image is. The words of an instruction are those of the table of instructions.
#![tactic(auto)]

mod addresses;
mod assembling;
mod chunks;
mod directive;
mod evaluation;
mod extent;
mod fault;
mod filling;
mod gathering;
mod judging;
mod laid;
pub mod laws;
mod laying;
mod layout;
mod lookup;
mod refusal;
mod symbol;
mod value;
mod writing;

pub use assembling::assemble;
pub use fault::{AsmFault, AsmKind};
