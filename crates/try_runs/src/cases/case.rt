//! A case.

use crate::cases::chunk::{Chunk, UnsaidBits};
use crate::cases::registers::{COUNT, Registers};
use std::alloc::Global;

/// A machine before one instruction or a few, and the machine after them as another machine had it.
#[derive(Drop)]
pub struct Case {
    /// The number of its line.
    pub line: u32,
    /// What stands in RAM at first, later chunks over earlier ones. Code that stands there too gives the machine its
    /// registers.
    pub image: Vec<Chunk>,
    /// How many steps are taken: those of that code, and then the case's own.
    pub steps: u32,
    /// The timer asks for an interrupt, before the case's own steps and after them.
    pub interrupted: bool,
    /// The registers after it.
    pub after: Registers,
    /// The bits of them that may be either.
    pub unsaid: Registers,
    /// What has changed in RAM after it.
    pub changes: Vec<Chunk>,
    /// The bits of RAM that may be either.
    pub unsaid_bits: Vec<UnsaidBits>,
}

impl Case {
    /// A case of which nothing has been read.
    pub fn new(alloc: Global, line: u32) -> Case {
        Case {
            line,
            image: Vec::new(alloc),
            steps: 0,
            interrupted: false,
            after: [0; COUNT],
            unsaid: [0; COUNT],
            changes: Vec::new(alloc),
            unsaid_bits: Vec::new(alloc),
        }
    }
}

/// The period of the timer where it asks for an interrupt.
pub const PERIOD: u32 = 40;
