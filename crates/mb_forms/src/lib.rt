//! Forms of commands, read by `clap`.
//!
//! A part: it knows no command. A form is a command's name, its positional words in their order and its
//! options with one value each. `specs/Forms` is the grammar of its words; [`forms_are_read`] says once
//! for every form that the test of the hyphens and then `clap` read exactly these. [`parse`] reads words by a
//! [`Form`], and gives their [`Uses`].
#![tactic(auto)]

mod arguments;
mod fault;
mod form;
mod laws;
mod parsing;
mod uses;

pub use fault::WordsFault;
pub use form::{Form, FormOption};
pub use laws::forms_are_read;
pub use parsing::parse;
pub use uses::Uses;
