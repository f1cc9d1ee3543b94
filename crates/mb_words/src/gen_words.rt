//! The words of the command `gen`.

ghost use Rattle.std.specs.Prelude.{◌≡◌, map, option_map, string_bytes};
ghost use Rattle.mb_forms.specs.Said.{ReadsAs};
ghost use Rattle.mb_words.specs.Words.{gen_asked, gen_workload, workload_said};

use crate::generate::Generate;
use crate::values::{guests, ranged};
use mb_forms::{Form, FormOption, Uses, WordsFault, parse};
use std::alloc::Global;

/// `gen --seed N --guests N`.
const FORM: Form = Form {
    name: "gen",
    positionals: &[],
    options: &[
        FormOption {
            name: "seed",
            required: true,
        },
        FormOption {
            name: "guests",
            required: true,
        },
    ],
};

/// The session that these values ask for.
fn workload_of(uses: &Uses) -> Option<Generate>
    ensures { option_map workload_said result ≡ gen_workload uses.now }
{
    let seed = ranged(0, 4_294_967_295, uses.get("seed")?)?;
    let guests = guests(uses.get("guests")?)?;
    Some(Generate { seed, guests })
}

/// Reads the words behind `gen`.
#[tactic(auto, unfolding(crate::specs::Words::gen_asked))]
pub(crate) fn read_gen(alloc: Global, words: &[String]) -> Result<Generate, WordsFault>
    ensures { ReadsAs workload_said (gen_asked (map string_bytes words.entry.now)) result }
{
    let uses = parse(alloc, &FORM, words)?;
    workload_of(&uses).ok_or(WordsFault::Refused)
}
