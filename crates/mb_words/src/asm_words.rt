//! The words of the command `asm`.

ghost use Rattle.std.specs.Prelude.{◌≡◌, map, option_map, string_bytes};
ghost use Rattle.mb_forms.specs.Said.{ReadsAs};
ghost use Rattle.mb_words.specs.Words.{asm_asked, asm_source, source_said};

use crate::asm::Asm;
use crate::values::name;
use mb_forms::{Form, Uses, WordsFault, parse};
use std::alloc::Global;

/// `asm SOURCE`.
const FORM: Form = Form {
    name: "asm",
    positionals: &["SOURCE"],
    options: &[],
};

/// The source that these values name.
fn source_of<'a>(uses: &Uses<'a>) -> Option<Asm<'a>>
    ensures { option_map source_said result ≡ asm_source uses.now }
{
    let source = name(uses.get("SOURCE")?)?;
    Some(Asm { source })
}

/// Reads the words behind `asm`.
#[tactic(auto, unfolding(crate::specs::Words::asm_asked))]
pub(crate) fn read_asm<'a>(alloc: Global, words: &'a [String]) -> Result<Asm<'a>, WordsFault>
    ensures { ReadsAs source_said (asm_asked (map string_bytes words.entry.now)) result }
{
    let uses = parse(alloc, &FORM, words)?;
    source_of(&uses).ok_or(WordsFault::Refused)
}
