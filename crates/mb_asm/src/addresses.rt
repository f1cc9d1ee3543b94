//! The end of all addresses.

/// The end of the last byte.
pub const END: u64 = 0x1_0000_0000;

/// Stands for all addresses past the end of the last byte.
pub const PAST: u64 = END + 1;
