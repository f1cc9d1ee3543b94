//! What the lines of a listing are.

ghost use Rattle.mb_listing.specs.Laws.{EachLineGives};

/// Each line of a listing has a text that gives just its words where it is assembled at its address: a statement, or
/// `DC.W` and the word.
pub fn each_line_gives_its_words()
    ensures { EachLineGives }
{}
