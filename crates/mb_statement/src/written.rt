//! Operands of words that no text is read as.

ghost use Rattle.std.specs.Prelude.{◌≡◌};
ghost use Rattle.std.specs.List.{list_all};
ghost use Rattle.mb_statement.specs.Written.{has_text, says_full};

use crate::text::{asks_full, is_left_out};
use mb_syntax::{FullForm, Indirection, Mode, Operand};

/// Whether something of it says that it is the full form, and brackets where it has them.
fn says_full(form: &FullForm<i64>) -> bool
    ensures { result ≡ says_full form.now }
{
    match form.indirection {
        Indirection::Direct => (asks_full(form) || form.index.is_dropped) && form.outer.is_none(),
        Indirection::PreIndexed => true,
        Indirection::PostIndexed => !is_left_out(form),
    }
}

fn has_text(operand: &Operand<i64>) -> bool
    ensures { result ≡ has_text operand.now }
{
    match operand {
        Operand::Mode(Mode::Full(form))
        | Operand::Field {
            mode: Mode::Full(form),
            ..
        } => says_full(form),
        Operand::List(mask) => mask.count_ones() > 1,
        _ => true,
    }
}

/// Whether each of the operands that a line makes of words has a text that is read as it: a full form does where
/// something says that it is one, and a list where it has two registers or more.
pub fn have_texts(operands: &[Operand<i64>]) -> bool
    ensures { result ≡ list_all has_text operands.now }
{
    operands.iter().all(|operand| has_text(operand))
}
