//! A line.

/// A line that has characters.
#[derive(Clone, Copy, Debug, PartialEq, Eq)]
pub struct Line<'a> {
    /// Lines count from 1, those without characters too.
    pub number: u32,
    /// Without the end of the line.
    pub characters: &'a [u8],
}
