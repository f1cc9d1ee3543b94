//! What arrives by a script.

/// What arrives at a step.
#[derive(Clone, Copy, Debug, PartialEq, Eq)]
pub enum Input {
    /// A byte, at the terminal.
    Byte(u8),
    /// The abort key: it raises interrupt level 7 for the step.
    Abort,
}
