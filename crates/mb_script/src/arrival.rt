//! What a line of a script lets arrive.

ghost use Rattle.std.specs.Prelude.{◌≤◌};

/// What a line lets arrive.
#[derive(Drop)]
pub(crate) enum Due<'a> {
    /// The bytes that pairs of hexadecimal digits spell.
    Spelled(Vec<u8>),
    /// Bytes of the line itself.
    Text(&'a [u8]),
    /// Bytes of the line itself, with a LF behind them.
    WithLineFeed(&'a [u8]),
    Abort,
}

/// What arrives at a step.
#[derive(Drop)]
pub(crate) struct Arrival<'a> {
    pub(crate) step: u32,
    pub(crate) due: Due<'a>,
    ghost from_one: { 1 ≤ step },
}
