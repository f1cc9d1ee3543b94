//! Where the statements of a text stand, and its symbols.

ghost use Rattle.std.specs.Prelude.{◌≤◌};
ghost use Rattle.std.specs.Option.{ForSome};
ghost use Rattle.mb_asm.specs.declared.addresses.TheConstants.{PAST};

use crate::symbol::Symbols;

/// The address that is reached, if it is known, and the symbols so far.
#[derive(Drop)]
pub(crate) struct Layout<'t> {
    pub(crate) at: Option<u64>,
    pub(crate) symbols: Symbols<'t>,
    ghost at_most: { ForSome at (λ known. known ≤ PAST) },
}
