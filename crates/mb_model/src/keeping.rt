//! Entries in the list of a class.

ghost use Rattle.std.specs.Prelude.{◌≡◌};
ghost use Rattle.std.specs.List.{position};
ghost use Rattle.mb_model.specs.Keeping.{is_of, entry_in as entry};

use crate::kept::Kept;
use mb_port::Space;

/// The place of the entry of a page of a space in a class. `None` exactly where there is none.
#[inline(always)]
pub fn place_in(kept: &[Kept], space: Space, page: u32) -> Option<usize>
    ensures { result ≡ position (is_of space page) kept.now }
{
    kept.iter().position(|k| k.is_of(space, page))
}

/// The entry of a page of a space in a class. `None` exactly where there is none.
#[inline(always)]
#[tactic(auto, using(crate::proofs::KeepingLemmas::entries))]
pub fn entry_in(kept: &[Kept], space: Space, page: u32) -> Option<Kept>
    ensures { result ≡ entry space page kept.now }
{
    let place = place_in(kept, space, page)?;
    Some(kept[place])
}
