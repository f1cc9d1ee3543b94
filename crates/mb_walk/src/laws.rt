//! What a search leaves, and what one after it finds; and what a write of memory leaves.

ghost use Rattle.mb_walk.specs.Laws.{SearchesMark, SearchesRepeat, SearchesStayInside, SearchesChangeWhatTheyMeet};
ghost use Rattle.mb_walk.specs.Laws.{SearchesNameTheirPage};
ghost use Rattle.mb_walk.specs.Parts.{PartsHaveNumbers, PartsTakeBytes, WritesLeaveBelow, WritesLeaveAbove};
ghost use Rattle.mb_walk.specs.Parts.{WritesRepeat, WritesStand, WritesSplit, NumbersHaveTheirBytes};

/// A search changes used and modified bits alone. The same one again, or one for no write, changes nothing and finds
/// the same.
pub fn searches_repeat()
    ensures marks { SearchesMark }
    ensures again { SearchesRepeat }
{}

/// A search changes the descriptors that it meets and no other long, and reads and writes below the size of memory
/// alone, or a bus error ends it.
pub fn searches_stay_inside()
    ensures met { SearchesChangeWhatTheyMeet }
    ensures inside { SearchesStayInside }
{}

/// What a search finds is of the space and the page that it was for.
pub fn searches_name_their_page()
    ensures { SearchesNameTheirPage }
{}

/// Numbers of a part of memory, and bytes that are written within it.
pub fn parts_of_memory()
    ensures numbers { PartsHaveNumbers }
    ensures bytes { PartsTakeBytes }
{}

/// What a write of bytes leaves, when it makes no difference, and that a number has the bytes that it was read from.
pub fn writes_of_memory()
    ensures below { WritesLeaveBelow }
    ensures above { WritesLeaveAbove }
    ensures again { WritesRepeat }
    ensures beside { WritesStand }
    ensures split { WritesSplit }
    ensures back { NumbersHaveTheirBytes }
{}
