//! What is shown of a machine.

use crate::processor::Cpu;
use arrayvec::ArrayVec;
use mb_port::Mmu;

/// What a machine does at its next step.
#[derive(Clone, Copy, Debug, PartialEq, Eq)]
pub enum RunState {
    Running,
    /// STOP waits for an interrupt.
    Stopped,
    /// A fault left no way to go on. It takes no step.
    Halted,
    /// Switched off. It takes no step.
    Off,
}

/// What the outcome text shows of a machine.
#[derive(Drop)]
pub struct Outcome<'a> {
    pub cpu: &'a Cpu,
    pub mmu: &'a Mmu,
    /// The bytes sent to the console that it keeps.
    pub console: &'a [u8],
    /// How many bytes were sent that the console does not keep.
    pub lost: u64,
    /// The bytes received and not read yet, the oldest first.
    pub queue: ArrayVec<u8, 16>,
    /// The serial line's control register.
    pub ctrl: u32,
    /// The serial line's status register.
    pub status: u32,
    /// The timer's period in steps; 0 where it stands still.
    pub period: u32,
    /// The steps that are left of the period.
    pub count: u32,
    /// 1 where the timer asks for an interrupt, else 0.
    pub pending: u32,
    /// How many steps were taken.
    pub steps: u32,
    pub state: RunState,
    pub ram: &'a [u8],
}
