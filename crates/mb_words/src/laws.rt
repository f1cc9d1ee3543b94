//! What holds of plain words.

ghost use Rattle.mb_words.specs.Plain.{CompareAsks, HostAsks};

/// A command that has one positional word and no option is asked for by its name and that word, where the word is not
/// empty and begins with no hyphen.
pub fn plain_words_ask()
    ensures host { HostAsks }
    ensures compare { CompareAsks }
{}
