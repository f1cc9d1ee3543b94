//! Reading words by a form.

ghost use Rattle.std.specs.Prelude.{◌≡◌, map, string_bytes};
ghost use Rattle.mb_forms.specs.Forms.{dashes_ok, read};
ghost use Rattle.mb_forms.specs.Said.{ReadsAs, form_said};

use crate::arguments::command_of;
use crate::fault::WordsFault;
use crate::form::Form;
use crate::uses::Uses;
use clap::error::ErrorKind;
use std::alloc::Global;

/// Before `--`, no word begins with one hyphen alone.
fn dashes_ok(words: &[String]) -> bool
    ensures { result ≡ dashes_ok (map string_bytes words.now) }
{
    for word in words {
        match word.as_bytes() {
            [b'-', b'-'] => return true,
            [b'-', b'-', ..] => {}
            [b'-', ..] => return false,
            _ => {}
        }
    }
    true
}

fn fault_of(kind: ErrorKind) -> WordsFault
    ensures { result ≡ WordsFault.Refused → kind ≡ ErrorKind.OutOfMemory → ⊥ }
{
    match kind {
        ErrorKind::OutOfMemory => WordsFault::Memory,
        _ => WordsFault::Refused,
    }
}

/// Reads the words behind a command's name by its form.
pub fn parse<'a>(
    alloc: Global,
    form: &Form<'a>,
    words: &'a [String],
) -> Result<Uses<'a>, WordsFault>
    ensures reads { ReadsAs (λ uses. uses) (read (form_said form.now) (map string_bytes words.entry.now)) result }
{
    if !dashes_ok(words) {
        return Err(WordsFault::Refused);
    }
    let Ok(command) = command_of(alloc, form) else {
        return Err(WordsFault::Memory);
    };
    match command.try_get_matches_from(words) {
        Ok(matches) => Ok(Uses { matches }),
        Err(error) => Err(fault_of(error.kind())),
    }
}
