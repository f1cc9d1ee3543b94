//! The fields of the registers of translation. A field of more than one bit is named by its lowest bit, so that a value
//! of it stands at so many times that bit.

/// E of TC and of a transparent register: it is on.
pub const E: u32 = 1 << 15;

/// P of TC: pages of 8 KiB.
pub const P: u32 = 1 << 14;

/// The base of a transparent register, bits 31 to 24: those of the addresses.
pub const BASE: u32 = 1 << 24;

/// The mask of a transparent register, bits 23 to 16: those bits of the addresses that do not matter.
pub const MASK: u32 = 1 << 16;

/// The S field of a transparent register, bits 14 and 13: 0 for user space, 1 for supervisor space, 2 and 3 for both.
pub const S: u32 = 1 << 13;

/// W of a transparent register: writes are refused.
pub const W: u32 = 1 << 2;
