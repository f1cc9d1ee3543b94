//! The tokens of a line of the assembler's language.
//!
//! `specs/Kinds` says which bytes are a token of which kind, and `specs/Cut` what the cut of a line is:
//! from the left, at each place the longest token that begins there.
#![tactic(auto)]

mod class;
mod fault;
mod laws;
mod lexing;
mod longest;
mod run;
mod token;

pub use fault::LexFault;
pub use laws::{one_cut, tokens_of_a_line};
pub use lexing::lex;
pub use token::{Token, TokenKind, Tokens};
