//! What is found once a class is filled or flushed.

ghost use Rattle.mb_model.specs.Laws.{FillsAreFound, FillsLeaveOthers, FillsDropTheirPage, FlushesDrop, FlushesLeaveOthers};

/// The entry of a fill's page is the new one, in place of an older one; all other pages have the entries that they
/// had, but for the one that the fill drops.
pub fn found_after_a_fill()
    ensures new { FillsAreFound }
    ensures others { FillsLeaveOthers }
    ensures dropped { FillsDropTheirPage }
{}

/// What a flush covers is not found after it, and all else is.
pub fn found_after_a_flush()
    ensures covered { FlushesDrop }
    ensures others { FlushesLeaveOthers }
{}
