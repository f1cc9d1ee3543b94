//! The words of the command `debug`.

ghost use Rattle.std.specs.Prelude.{◌≡◌, map, option_map, string_bytes};
ghost use Rattle.mb_forms.specs.Said.{ReadsAs};
ghost use Rattle.mb_words.specs.Words.{debug_asked, debugged_guest, debugged_said};

use crate::debug_guest::DebugGuest;
use crate::values::{guests, name};
use mb_forms::{Form, FormOption, Uses, WordsFault, parse};
use std::alloc::Global;

/// `debug SESSION COMMANDS --guest I`.
const FORM: Form = Form {
    name: "debug",
    positionals: &["SESSION", "COMMANDS"],
    options: &[FormOption {
        name: "guest",
        required: true,
    }],
};

/// The guest that these values ask for.
fn guest_of<'a>(uses: &Uses<'a>) -> Option<DebugGuest<'a>>
    ensures { option_map debugged_said result ≡ debugged_guest uses.now }
{
    let session = name(uses.get("SESSION")?)?;
    let commands = name(uses.get("COMMANDS")?)?;
    let guest = guests(uses.get("guest")?)?;
    Some(DebugGuest {
        session,
        commands,
        guest,
    })
}

/// Reads the words behind `debug`.
#[tactic(auto, unfolding(crate::specs::Words::debug_asked))]
pub(crate) fn read_debug<'a>(
    alloc: Global,
    words: &'a [String],
) -> Result<DebugGuest<'a>, WordsFault>
    ensures { ReadsAs debugged_said (debug_asked (map string_bytes words.entry.now)) result }
{
    let uses = parse(alloc, &FORM, words)?;
    guest_of(&uses).ok_or(WordsFault::Refused)
}
