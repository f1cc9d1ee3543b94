//! An entry of a script.

use crate::input::Input;

/// What arrives, and before which step.
#[derive(Clone, Copy, Debug, PartialEq, Eq)]
pub struct Entry {
    /// The step before which it arrives, from 1.
    pub step: u32,
    /// What arrives.
    pub input: Input,
}
