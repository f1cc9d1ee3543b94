//! Symbols.

ghost use Rattle.std.specs.Prelude.{pos, negsuc, ◌≤ℤ◌};
ghost use Rattle.std.specs.Option.{ForSome};
ghost use Rattle.mb_asm.specs.declared.addresses.TheConstants.{PAST};

use indexmap::IndexMap;

/// The value of a symbol, if it is known: an address from 0 to 2^32 + 1, or a number of 32 bits with or without a
/// sign.
#[derive(Clone, Copy, Drop)]
pub(crate) struct SymbolValue {
    pub(crate) number: Option<i64>,
    ghost least: { ForSome number (λ value. negsuc 2147483647 ≤ℤ value) },
    ghost greatest: { ForSome number (λ value. value ≤ℤ pos PAST) },
}

/// Symbols by their names, in the order of their lines.
pub(crate) type Symbols<'t> = IndexMap<&'t [u8], SymbolValue>;
