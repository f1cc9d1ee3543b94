//! A turn that a session names.

/// Which guest takes the turn, and how many steps at most. Guests are numbered from 1.
#[derive(Clone, Copy, PartialEq, Eq)]
pub struct Turn {
    pub guest: u8,
    pub steps: u32,
}
