//! The command `gen`.

ghost use Rattle.std.specs.Prelude.{◌≤◌};
ghost use Rattle.mb_script.specs.declared.sizes.TheConstants.{MOST_GUESTS};

/// `gen`: a session that is made from a number.
#[derive(Clone, Copy, Drop)]
pub struct Generate {
    pub seed: u32,
    /// How many guests: 1 to 16.
    pub guests: u8,
    pub ghost in_range: { (1 ≤ guests) × (guests ≤ MOST_GUESTS) },
}
