//! How much is saved.

/// The RAM of a guest is a multiple of so many bytes.
pub const RAM_UNIT: u32 = 65_536;

/// The bytes of RAM that a guest has at most.
pub const MOST_RAM: u32 = 16_777_216;

/// The bytes of a line of RAM.
pub const LINE_BYTES: u32 = 16;

/// How many received bytes are queued at most.
pub const MOST_QUEUED: usize = 16;

/// How many sent bytes the console keeps at most.
pub const MOST_SENT: usize = 65_536;
