//! The fields of the special status word and of the status of a writeback. A field of more than one bit is named by its
//! lowest bit. TM has the low three bits; CP 15, CU 14 and X 7 stay clear.

/// A trace was due. The fields of an access error have it clear: whoever makes the frame sets it.
pub const CT: u16 = 1 << 13;

/// A transfer of a MOVEM was refused.
pub const CM: u16 = 1 << 12;

/// The refused piece is on another page than the operand's first byte.
pub const MA: u16 = 1 << 11;

/// Refused by the translation.
pub const ATC: u16 = 1 << 10;

/// A locked check.
pub const LK: u16 = 1 << 9;

/// A read.
pub const RW: u16 = 1 << 8;

/// V of a writeback: it is still to be made.
pub const V: u16 = 1 << 7;

/// SIZE, bits 6 and 5: 0 for a long, 1 for a byte, 2 for a word, 3 for a line.
pub const SIZE: u16 = 1 << 5;

/// TT, bits 4 and 3: 1 for a line of MOVE16, 0 for any other access.
pub const TT: u16 = 1 << 3;
