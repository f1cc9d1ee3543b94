//! From words to instructions.
//!
//! The inverse of the table of spellings in `mb_instr`, read from left to right: what the words that
//! have been fetched so far begin with. It stands on `mb_instr` alone and knows no bus.
#![tactic(auto)]

mod caches;
mod front;
mod immediates;
mod miscellaneous;
mod moves;
mod quick;
mod reading;
mod registers;
mod rows;
mod shifts;

pub use front::{Decoded, Decoding, decode, decode_into, spellings};
