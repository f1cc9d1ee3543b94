//! The bits of the status register above the condition codes.

/// T1: a trace after each instruction.
pub const T1: u16 = 1 << 15;

/// T0: a trace after each change of the flow of control.
pub const T0: u16 = 1 << 14;

/// S: supervisor mode.
pub const S: u16 = 1 << 13;

/// M: the master stack.
pub const M: u16 = 1 << 12;

/// The interrupt mask, bits 10 to 8: its lowest bit, so that a level stands at so many times this.
pub const I: u16 = 1 << 8;

/// How many levels the interrupt mask can have.
pub const LEVELS: u16 = 8;
