//! What a search finds.

ghost use Rattle.std.specs.Prelude.{◌≡◌};
ghost use Rattle.mb_walk.specs.Search.{status_of};

use mb_model::Kept;

/// How a search through the translation tables ends.
#[derive(Clone, Copy, Debug, PartialEq, Eq)]
pub enum Found {
    /// A resident page: what is kept of it, and MMUSR for it.
    Entry(Kept, u32),
    /// A descriptor on the way is invalid.
    Invalid,
    /// A descriptor on the way is outside memory.
    BusError,
}

impl Found {
    /// MMUSR after a test of the page: 0 where it is invalid, and bit 11 alone (B) where the bus
    /// refused a descriptor.
    pub fn status(self) -> u32
        ensures { result ≡ status_of self }
    {
        match self {
            Found::Entry(_, status) => status,
            Found::Invalid => 0,
            Found::BusError => 0x800,
        }
    }
}
