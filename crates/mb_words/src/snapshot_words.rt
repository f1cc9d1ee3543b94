//! The words of the commands on snapshots.

ghost use Rattle.std.specs.Prelude.{◌≡◌, map, option_map, string_bytes};
ghost use Rattle.mb_forms.specs.Said.{ReadsAs};
ghost use Rattle.mb_words.specs.Words.{resume_asked, resumed_snapshot, resumption_said};
ghost use Rattle.mb_words.specs.Words.{save_asked, saved_session, saving_said};

use crate::snapshot::{ResumeSnapshot, SaveSession};
use crate::values::{name, ranged};
use mb_forms::{Form, FormOption, Uses, WordsFault, parse};
use std::alloc::Global;

/// `save SESSION --steps M`.
const SAVE: Form = Form {
    name: "save",
    positionals: &["SESSION"],
    options: &[FormOption {
        name: "steps",
        required: true,
    }],
};

/// `resume FILE --steps N`.
const RESUME: Form = Form {
    name: "resume",
    positionals: &["FILE"],
    options: &[FormOption {
        name: "steps",
        required: true,
    }],
};

/// The session that these values name, and the steps.
fn session_of<'a>(uses: &Uses<'a>) -> Option<SaveSession<'a>>
    ensures { option_map saving_said result ≡ saved_session uses.now }
{
    let session = name(uses.get("SESSION")?)?;
    let steps = ranged(0, 4_294_967_295, uses.get("steps")?)?;
    Some(SaveSession { session, steps })
}

/// The snapshot that these values name, and the steps.
fn snapshot_of<'a>(uses: &Uses<'a>) -> Option<ResumeSnapshot<'a>>
    ensures { option_map resumption_said result ≡ resumed_snapshot uses.now }
{
    let snapshot = name(uses.get("FILE")?)?;
    let steps = ranged(0, 4_294_967_295, uses.get("steps")?)?;
    Some(ResumeSnapshot { snapshot, steps })
}

/// Reads the words behind `save`.
#[tactic(auto, unfolding(crate::specs::Words::save_asked))]
pub(crate) fn read_save<'a>(
    alloc: Global,
    words: &'a [String],
) -> Result<SaveSession<'a>, WordsFault>
    ensures { ReadsAs saving_said (save_asked (map string_bytes words.entry.now)) result }
{
    let uses = parse(alloc, &SAVE, words)?;
    session_of(&uses).ok_or(WordsFault::Refused)
}

/// Reads the words behind `resume`.
#[tactic(auto, unfolding(crate::specs::Words::resume_asked))]
pub(crate) fn read_resume<'a>(
    alloc: Global,
    words: &'a [String],
) -> Result<ResumeSnapshot<'a>, WordsFault>
    ensures { ReadsAs resumption_said (resume_asked (map string_bytes words.entry.now)) result }
{
    let uses = parse(alloc, &RESUME, words)?;
    snapshot_of(&uses).ok_or(WordsFault::Refused)
}
