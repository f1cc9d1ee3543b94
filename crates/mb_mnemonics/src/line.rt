//! Lines of the table.

ghost use Rattle.std.specs.Prelude.{◌≡◌, ◌≤◌, ◌∷◌, IfSome, None, [], length};
ghost use Rattle.mb_mnemonics.specs.Lines.{patterns_of, stem_of};

use crate::pattern::Pattern;
use crate::sizes::Sizes;

/// A name without its ending, in capital letters.
#[derive(Clone, Copy)]
pub struct Stem {
    pub(crate) length: usize,
    /// Zeros behind the letters.
    pub(crate) letters: [u8; 8],
}

macro_rules! stem {
    ($stem:literal) => {
        stem!($stem; 0 1 2 3 4 5 6 7)
    };
    ($stem:literal; $($place:literal)*) => {
        Stem {
            length: $stem.len(),
            letters: [$(if $place < $stem.len() { $stem[$place] } else { 0 }),*],
        }
    };
}

pub(crate) use stem;

/// What stands behind the stem of a name.
#[derive(Clone, Copy, Debug, PartialEq, Eq)]
pub enum Ending {
    /// Nothing.
    Plain,
    /// A condition, `T` to `LE`.
    Condition,
    /// A condition of a branch, where T is `RA` and F is `SR`.
    Branch,
}

/// The operands of a line, in the order in which they are written. Their words stand in the same order.
#[derive(Clone, Copy)]
pub enum Patterns {
    Nothing,
    One(Pattern),
    Two(Pattern, Pattern),
    Three(Pattern, Pattern, Pattern),
}

/// One line of the table.
#[derive(Clone, Copy)]
pub struct Line {
    pub stem: Stem,
    pub ending: Ending,
    pub sizes: Sizes,
    pub operands: Patterns,
    /// How many words stand between the first word and those of the operands.
    pub words: u8,
    /// The first word, with zeros in its fields.
    pub first: u16,
    /// The bits of the first word that belong to no field.
    pub fixed: u16,
    /// The bits of the word behind the first that belong to no field.
    pub second: u16,
}

impl Stem {
    pub fn letters(&self) -> &[u8]
        ensures { result.now ≡ stem_of self.now }
    {
        &self.letters[..self.length.min(8)]
    }
}

impl Patterns {
    /// The first, and the rest.
    pub fn split_first(self) -> Option<(Pattern, Patterns)>
        ensures some { IfSome result (λ s. patterns_of self ≡ s.0 ∷ patterns_of s.1) }
        ensures few { IfSome result (λ s. length (patterns_of s.1) ≤ 2) }
        ensures none { result ≡ None → patterns_of self ≡ [] }
    {
        match self {
            Patterns::Nothing => None,
            Patterns::One(first) => Some((first, Patterns::Nothing)),
            Patterns::Two(first, second) => Some((first, Patterns::One(second))),
            Patterns::Three(first, second, third) => Some((first, Patterns::Two(second, third))),
        }
    }
}
