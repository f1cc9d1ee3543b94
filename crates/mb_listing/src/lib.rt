//! The listing of a memory: each line an address, words, and the statement of the assembler that says just these words
//! there, or the first word as a number. `specs/Listing` says what a line is; that its text, assembled at its address,
//! gives its words is a law.
#![tactic(auto)]

mod laws;
mod line;
mod listing;

pub use laws::each_line_gives_its_words;
pub use listing::list_memory;
