//! The instruction stream.

use mb_port::Space;

/// A place in the instruction stream, and the address space of all accesses of the instruction there.
#[derive(Clone, Copy, PartialEq, Eq)]
pub struct Stream {
    /// Where the instruction stands or, of an operand, its first extension word.
    pub at: u32,
    pub space: Space,
}
