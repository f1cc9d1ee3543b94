//! The transparent translation registers.

ghost use Rattle.std.specs.Prelude.{◌≡◌};
ghost use Rattle.mb_model.specs.Pages.{page_of};
ghost use Rattle.mb_walk.specs.Transparent.{transparent_register, transparent_of, matches as does_match};

use mb_port::translation::{BASE, E, MASK, S, W};
use mb_port::{Space, long_has};

/// A transparent translation register.
#[derive(Clone, Copy, Debug, PartialEq, Eq)]
struct TransparentRegister {
    /// E, bit 15.
    enabled: bool,
    /// The S-field, bits 14 and 13: 0 for user space, 1 for supervisor space, 2 and 3 for both.
    spaces: u32,
    /// Bits 31 to 24 of the addresses.
    base: u32,
    /// Those of them that do not matter, in bits 23 to 16.
    ignored: u32,
    /// W, bit 2: writes are refused.
    protected: bool,
}

impl TransparentRegister {
    /// The register in a long.
    #[inline(always)]
    fn of(long: u32) -> TransparentRegister
        ensures { result ≡ transparent_register long }
    {
        TransparentRegister {
            enabled: long_has(long, E),
            spaces: long / S % 4,
            base: long / BASE,
            ignored: long / MASK % 256,
            protected: long_has(long, W),
        }
    }

    /// Whether it matches an address of a space.
    #[inline(always)]
    fn matches(self, space: Space, at: u32) -> bool
        ensures { result ≡ does_match self space (page_of at) }
    {
        let admitted = match space {
            Space::User => self.spaces != 1,
            Space::Super => self.spaces != 0,
        };
        self.enabled && admitted && at >> 24 | self.ignored == self.base | self.ignored
    }
}

/// The write protection of the first of two transparent registers that matches an address of a space. `None` where
/// neither does.
#[inline(always)]
pub fn transparent(tt0: u32, tt1: u32, space: Space, at: u32) -> Option<bool>
    ensures { result ≡ transparent_of tt0 tt1 space (page_of at) }
{
    let first = TransparentRegister::of(tt0);
    let second = TransparentRegister::of(tt1);
    if first.matches(space, at) {
        Some(first.protected)
    } else if second.matches(space, at) {
        Some(second.protected)
    } else {
        None
    }
}
