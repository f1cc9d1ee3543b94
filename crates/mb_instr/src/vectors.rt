//! The vectors of exceptions.

/// An access error.
pub const ACCESS_ERROR: u8 = 2;

/// An odd PC.
pub const ODD_COUNTER: u8 = 3;

/// No instruction stands there.
pub const ILLEGAL: u8 = 4;

/// A division by zero.
pub const ZERO_DIVIDE: u8 = 5;

/// A value out of the bounds of CHK or CHK2.
pub const OUT_OF_BOUNDS: u8 = 6;

/// TRAPcc and TRAPV.
pub const CONDITION_MET: u8 = 7;

/// A privilege violation.
pub const PRIVILEGED: u8 = 8;

/// A trace.
pub const TRACE: u8 = 9;

/// A word of line A.
pub const LINE_A: u8 = 10;

/// A word of line F that is no instruction.
pub const LINE_F: u8 = 11;

/// A frame that RTE does not take.
pub const FORMAT_ERROR: u8 = 14;

/// An interrupt, less its level.
pub const INTERRUPT: u8 = 24;

/// `TRAP #0`, which those of the other fifteen numbers follow.
pub const FIRST_TRAP: u8 = 32;
