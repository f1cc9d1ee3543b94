//! The words of the command `bare`.

ghost use Rattle.std.specs.Prelude.{◌≡◌, map, option_map, string_bytes};
ghost use Rattle.mb_forms.specs.Said.{ReadsAs};
ghost use Rattle.mb_words.specs.Words.{bare_asked, bare_disk, bare_run, disk_said, run_said};

use crate::bare::{Bare, BareDisk};
use crate::values::{blocks_if_given, name, name_if_given, ram, ranged};
use mb_forms::{Form, FormOption, Uses, WordsFault, parse};
use std::alloc::Global;

/// `bare IMAGE --ram KIB --steps N [--script FILE] [--disk BLOCKS [--contents FILE]]`.
const FORM: Form = Form {
    name: "bare",
    positionals: &["IMAGE"],
    options: &[
        FormOption {
            name: "ram",
            required: true,
        },
        FormOption {
            name: "steps",
            required: true,
        },
        FormOption {
            name: "script",
            required: false,
        },
        FormOption {
            name: "disk",
            required: false,
        },
        FormOption {
            name: "contents",
            required: false,
        },
    ],
};

/// The disk that these values ask for: contents are those of a disk alone.
fn disk_of<'a>(uses: &Uses<'a>) -> Option<Option<BareDisk<'a>>>
    ensures { option_map (λ disk. option_map disk_said disk) result ≡ bare_disk uses.now }
{
    let blocks = blocks_if_given(uses.get("disk"))?;
    let contents = name_if_given(uses.get("contents"))?;
    match (blocks, contents) {
        (Some(blocks), contents) => Some(Some(BareDisk { blocks, contents })),
        (None, None) => Some(None),
        (None, Some(_)) => None,
    }
}

/// The run that these values ask for.
fn run_of<'a>(uses: &Uses<'a>) -> Option<Bare<'a>>
    ensures { option_map run_said result ≡ bare_run uses.now }
{
    let image = name(uses.get("IMAGE")?)?;
    let ram = ram(uses.get("ram")?)?;
    let steps = ranged(0, 4_294_967_295, uses.get("steps")?)?;
    let script = name_if_given(uses.get("script"))?;
    let disk = disk_of(uses)?;
    Some(Bare {
        image,
        ram,
        steps,
        script,
        disk,
    })
}

/// Reads the words behind `bare`.
#[tactic(auto, unfolding(crate::specs::Words::bare_asked))]
pub(crate) fn read_bare<'a>(alloc: Global, words: &'a [String]) -> Result<Bare<'a>, WordsFault>
    ensures { ReadsAs run_said (bare_asked (map string_bytes words.entry.now)) result }
{
    let uses = parse(alloc, &FORM, words)?;
    run_of(&uses).ok_or(WordsFault::Refused)
}
