//! Why words are not read.

/// Why words give no command.
#[derive(Clone, Copy, Debug, PartialEq, Eq)]
pub enum WordsFault {
    /// Memory ran out before it was known whether the words are good.
    Memory,
    /// The words are none that the command takes.
    Refused,
}
