//! How many translations are kept.

/// The classes of a side on the board, by a page's number modulo this.
pub const SIDE_CLASSES: u32 = 16;

/// The classes of both sides on the board.
pub const CLASSES: usize = 32;

/// How many translations a class of the board keeps.
pub const CAPACITY: usize = 4;

/// How many translations a guest keeps, of both sides together.
pub const GUEST_CAPACITY: u32 = 256;
