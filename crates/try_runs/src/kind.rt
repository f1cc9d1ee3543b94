//! Lines by their first words.

/// What the text behind a line is.
#[derive(Clone, Copy)]
pub enum OfText {
    /// All that out took.
    Out,
    /// What out begins with.
    First,
    /// What out has somewhere.
    Has,
    /// All that diag took.
    Diag,
}

/// What a file is.
#[derive(Clone, Copy)]
pub enum OfFile {
    /// All that out took.
    Same,
    /// That of which out took a first part, or all.
    Cut,
}

/// What a number is.
#[derive(Clone, Copy)]
pub enum OfNumber {
    /// How many bytes out took.
    Length,
    /// How many steps of guests boards carried out.
    Retired,
    /// How many exceptions boards took for guests.
    Exceptions,
    /// The trail of those steps.
    Trail,
}

/// What a line of words says.
#[derive(Clone, Copy)]
pub enum Kind {
    File,
    Run,
    Unfailing,
    Fails,
    Text(OfText),
    Named(OfFile),
    Within,
    Counted(OfNumber),
    AnyDiag,
    Keep,
    Status,
}

/// Each kind by its first word.
#[rattlefmt::skip]
static KINDS: [(&[u8], Kind); 18] = [
    (b"file", Kind::File),
    (b"run", Kind::Run),
    (b"unfailing", Kind::Unfailing),
    (b"fails", Kind::Fails),
    (b"out", Kind::Text(OfText::Out)),
    (b"first", Kind::Text(OfText::First)),
    (b"has", Kind::Text(OfText::Has)),
    (b"same", Kind::Named(OfFile::Same)),
    (b"cut", Kind::Named(OfFile::Cut)),
    (b"within", Kind::Within),
    (b"length", Kind::Counted(OfNumber::Length)),
    (b"diag", Kind::Text(OfText::Diag)),
    (b"any-diag", Kind::AnyDiag),
    (b"retired", Kind::Counted(OfNumber::Retired)),
    (b"exceptions", Kind::Counted(OfNumber::Exceptions)),
    (b"trail", Kind::Counted(OfNumber::Trail)),
    (b"keep", Kind::Keep),
    (b"status", Kind::Status),
];

/// The kind of lines that begin with a word.
pub fn kind_of(word: &[u8]) -> Option<Kind> {
    for &(first, kind) in &KINDS {
        if word == first {
            return Some(kind);
        }
    }
    None
}
