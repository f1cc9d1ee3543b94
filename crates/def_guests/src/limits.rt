//! What the monitor keeps for itself, and how often it tries a step again.

/// The bytes of the board for the monitor itself, at the board's beginning.
pub const MONITOR_BYTES: u32 = 0x1_0000;

/// How often a step is begun again at most: no attempt reads so many pages.
pub const MOST_REFILLS: u32 = 31;
