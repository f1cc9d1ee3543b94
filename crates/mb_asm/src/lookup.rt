//! Looks symbols up.

ghost use Rattle.std.specs.Prelude.{◌≡◌, ◌≤ℤ◌, IfSome, OnOk, negsuc, pos};
ghost use Rattle.mb_asm.specs.Symbols.{value_in, with_symbol};
ghost use Rattle.mb_asm.specs.Said.{symbols_said};
ghost use Rattle.mb_asm.specs.declared.addresses.TheConstants.{PAST};

use crate::symbol::{SymbolValue, Symbols};
use std::alloc::AllocError;

/// The value of the symbol of the name, if there is one.
#[tactic(auto, using(crate::proofs::Lookups::found))]
pub(crate) fn value_in(symbols: &Symbols, name: &[u8]) -> Option<Option<i64>>
    ensures given { result ≡ value_in (symbols_said symbols.now) name.now }
    ensures least { IfSome result (λ found. IfSome found (λ value. negsuc 2147483647 ≤ℤ value)) }
    ensures greatest { IfSome result (λ found. IfSome found (λ value. value ≤ℤ pos PAST)) }
{
    match symbols.get(&name) {
        Some(value) => Some(value.number),
        None => None,
    }
}

/// Adds a symbol, unless there is one of the name.
#[tactic(auto, using(crate::proofs::Lookups::found))]
pub(crate) fn add_symbol<'t>(
    symbols: &mut Symbols<'t>,
    name: &'t [u8],
    value: SymbolValue,
) -> Result<(), AllocError>
    ensures { OnOk result (symbols_said symbols.new
        ≡ with_symbol (symbols_said symbols.old) (record { name = name.entry.now; value = value.number })) }
{
    if !symbols.contains_key(&name) {
        symbols.insert(name, value)?;
    }
    Ok(())
}
