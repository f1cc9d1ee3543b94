//! The sizes that machines and boards can have, in KiB, and how many guests a board can have.

/// The least RAM of a machine.
pub const LEAST_RAM: u32 = 64;

/// The greatest RAM of a machine.
pub const MOST_RAM: u32 = 16_384;

/// The least memory of a board.
pub const LEAST_BOARD: u32 = 128;

/// The greatest memory of a board.
pub const MOST_BOARD: u32 = 65_536;

/// Each size is a multiple of this.
pub const SIZE_UNIT: u32 = 64;

/// The most blocks of a disk.
pub const MOST_BLOCKS: u32 = 32_768;

/// The most guests of a board.
pub const MOST_GUESTS: usize = 16;
