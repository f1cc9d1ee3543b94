//! Why a step is carried out as it is.

/// The class of a step of a guest: it is retired, or the monitor assists it for exactly one of the other causes.
#[derive(Clone, Copy, PartialEq, Eq)]
pub enum Class {
    /// The entry of an interrupt.
    Entered,
    /// STOP holds the processor.
    Idle,
    /// A trace bit is set.
    Traced,
    /// An odd PC, or no instruction that user mode carries out.
    Privileged,
    /// An access that the shadow does not allow.
    Denied,
    /// The instruction traps.
    Trapped,
    /// The board carries it out.
    Retired,
}
