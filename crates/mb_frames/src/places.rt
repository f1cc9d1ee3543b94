//! Where the parts of a frame stand, and how many bytes the longest has.

/// Where SR stands in every frame.
pub const SR_PLACE: u32 = 0x00;

/// Where PC stands in every frame.
pub const PC_PLACE: u32 = 0x02;

/// Where the word with format and vector offset stands in every frame.
pub const FORMAT_PLACE: u32 = 0x06;

/// Where the fields of its format stand.
pub const FIELDS_PLACE: u32 = 0x08;

/// The bytes of the longest frame, which is that of an access error.
pub const LONGEST: usize = 60;

/// The longs behind its format word.
pub const LONGS: usize = LONGEST / 4 - 2;
