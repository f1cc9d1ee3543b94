//! Exceptions: what one is entered with, and what its entry comes to.

use mb_frames::Access;
use mb_port::Fault;

/// Why an exception is entered.
#[derive(Clone, Copy, PartialEq, Eq)]
pub struct Cause {
    pub vector: u8,
    /// The PC that is stacked.
    pub pc: u32,
    /// The address in a frame of format $2.
    pub address: u32,
    /// The fields of an access error; none of any other exception.
    pub access: Option<Access>,
    /// The level of an interrupt; 0 of any other exception.
    pub level: u8,
}

/// What an entry comes to.
#[derive(Clone, Copy, PartialEq, Eq)]
pub enum Entered {
    Done,
    /// A piece of the frame can't be written, and nothing was. All registers are as before.
    Faulted(Fault),
    /// The frame of an access error can't be written, or the vector can't be read: the processor halts.
    DoubleFault,
}
