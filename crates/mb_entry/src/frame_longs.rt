//! The fields of an access error in the longs that RTE reads.

ghost use Rattle.std.specs.Prelude.{◌≡◌, length};
ghost use Rattle.mb_frames.specs.declared.places.TheConstants.{LONGS};
ghost use Rattle.def_processor.specs.Return.{access_of_longs, high, low, long_among, word_among};

use mb_frames::{Access, FIELDS_PLACE, FieldSource, LONGS, access_by};

/// The upper half of a long.
pub(crate) fn high(long: u32) -> u16
    ensures { result ≡ high long }
{
    (long >> 16) as u16
}

/// The lower half of a long.
pub(crate) fn low(long: u32) -> u16
    ensures { result ≡ low long }
{
    (long & 0xffff) as u16
}

/// The longs behind the format word of an access error's frame.
#[derive(Clone, Copy)]
struct Longs<'a> {
    longs: &'a [u32],
    ghost whole: { length longs.now ≡ LONGS },
}

impl FieldSource for Longs<'_> {
    ghost words = { λ s. word_among s.longs.now };

    ghost longs = { λ s. long_among s.longs.now };

    fn word(&self, place: usize) -> u16 {
        let long = self.longs[(place - FIELDS_PLACE as usize) / 4];
        if place % 4 == 0 {
            high(long)
        } else {
            low(long)
        }
    }

    fn long(&self, place: usize) -> u32 {
        self.longs[(place - FIELDS_PLACE as usize) / 4]
    }
}

/// The fields of an access error in their longs.
#[tactic(auto, unfolding(def_processor::specs::Return::access_of_longs))]
pub(crate) fn access_from(longs: &[u32]) -> Access
    requires { length longs.now ≡ LONGS }
    ensures { result ≡ access_of_longs longs.now }
{
    access_by(&Longs { longs })
}
