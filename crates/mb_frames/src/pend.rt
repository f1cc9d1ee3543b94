//! Pending writes.

/// A piece of an operand that is still to be written.
#[derive(Clone, Copy, Debug, Default, PartialEq, Eq)]
pub struct Pend {
    /// The logical address of the first byte.
    pub at: u32,
    /// How many bytes: 1, 2 or 4.
    pub len: u8,
    /// What is written: its low `len` bytes.
    pub value: u32,
}
