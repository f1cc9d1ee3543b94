//! What expressions are read with.

ghost use Rattle.std.specs.Prelude.{◌≤◌};
ghost use Rattle.std.specs.Option.{ForSome};
ghost use Rattle.mb_asm.specs.declared.addresses.TheConstants.{PAST};

use crate::symbol::Symbols;

/// What may be wrong with an expression whatever it is used for.
#[derive(Clone, Copy)]
pub(crate) enum Flaw {
    /// A symbol that no line has.
    Nameless,
    /// A number wider than 32 bits.
    Wide,
    /// A value that is not known.
    Unknown,
}

/// Symbols, the line that an expression stands in, and the address of its statement, if it is known.
#[derive(Clone, Copy)]
pub(crate) struct Scope<'s> {
    pub(crate) symbols: &'s Symbols<'s>,
    pub(crate) line: &'s [u8],
    pub(crate) at: Option<u64>,
    ghost at_most: { ForSome at (λ known. known ≤ PAST) },
}
