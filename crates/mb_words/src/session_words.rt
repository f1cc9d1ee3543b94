//! The words of the commands on a session.

ghost use Rattle.std.specs.Prelude.{◌≡◌, map, option_map, string_bytes};
ghost use Rattle.mb_forms.specs.Said.{ReadsAs};
ghost use Rattle.mb_words.specs.Words.{compare_asked, host_asked, session_named, session_said};

use crate::session::SessionFile;
use crate::values::name;
use mb_forms::{Form, Uses, WordsFault, parse};
use std::alloc::Global;

/// `host SESSION`.
const HOST: Form = Form {
    name: "host",
    positionals: &["SESSION"],
    options: &[],
};

/// `compare SESSION`.
const COMPARE: Form = Form {
    name: "compare",
    positionals: &["SESSION"],
    options: &[],
};

/// The session that these values name.
fn session_of<'a>(uses: &Uses<'a>) -> Option<SessionFile<'a>>
    ensures { option_map session_said result ≡ session_named uses.now }
{
    let name = name(uses.get("SESSION")?)?;
    Some(SessionFile { name })
}

/// Reads the words behind `host`.
#[tactic(auto, unfolding(crate::specs::Words::host_asked))]
pub(crate) fn read_host<'a>(
    alloc: Global,
    words: &'a [String],
) -> Result<SessionFile<'a>, WordsFault>
    ensures { ReadsAs session_said (host_asked (map string_bytes words.entry.now)) result }
{
    let uses = parse(alloc, &HOST, words)?;
    session_of(&uses).ok_or(WordsFault::Refused)
}

/// Reads the words behind `compare`.
#[tactic(auto, unfolding(crate::specs::Words::compare_asked))]
pub(crate) fn read_compare<'a>(
    alloc: Global,
    words: &'a [String],
) -> Result<SessionFile<'a>, WordsFault>
    ensures { ReadsAs session_said (compare_asked (map string_bytes words.entry.now)) result }
{
    let uses = parse(alloc, &COMPARE, words)?;
    session_of(&uses).ok_or(WordsFault::Refused)
}
