//! How many words there are.

/// How many first words there are.
pub const FIRST_WORDS: usize = 65_536;

/// The most words of an instruction: the first, and five for each of two places.
pub const MOST_WORDS: usize = 11;
