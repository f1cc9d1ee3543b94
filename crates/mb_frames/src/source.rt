//! The fields of an access error, read from wherever they stand.

ghost use Rattle.std.specs.Prelude.{◌≡◌, ℕ, ◌+◌, ◌%◌, ◌≤◌};
ghost use Rattle.mb_frames.specs.Reading.{access_by};

use crate::frame::{Access, access_fields};
use crate::places::{FIELDS_PLACE, LONGEST};

/// Where the fields of an access error stand. Each is found by its place in the frame.
pub trait FieldSource {
    /// The word at a place.
    ghost words: { Self → ℕ → ℕ };

    /// The long at a place.
    ghost longs: { Self → ℕ → ℕ };

    /// The word at a place of the frame behind the format word, a multiple of 2.
    fn word(&self, place: usize) -> u16
        requires aligned { place % 2 ≡ 0 }
        requires behind { FIELDS_PLACE ≤ place }
        requires inside { place + 2 ≤ LONGEST }
        ensures { result ≡ words self.now place };

    /// The long at a place of the frame behind the format word, a multiple of 4.
    fn long(&self, place: usize) -> u32
        requires aligned { place % 4 ≡ 0 }
        requires behind { FIELDS_PLACE ≤ place }
        requires inside { place + 4 ≤ LONGEST }
        ensures { result ≡ longs self.now place };
}

/// Each field, read at its place.
macro_rules! read_each {
    ($source:ident; $($name:ident: $size:ident at $place:literal,)*) => {
        Access { $($name: $source.$size($place)),* }
    };
}

/// The fields of an access error, by what the word and the long at each place of its frame are.
pub fn access_by<S: FieldSource>(source: &S) -> Access
    ensures { result ≡ access_by (S.words source.now) (S.longs source.now) }
{
    access_fields!(read_each, source)
}
