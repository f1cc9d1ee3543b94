//! The words of the command `dis`.

ghost use Rattle.std.specs.Prelude.{◌≡◌, map, option_map, string_bytes};
ghost use Rattle.mb_forms.specs.Said.{ReadsAs};
ghost use Rattle.mb_words.specs.Words.{dis_asked, dis_excerpt, excerpt_said};

use crate::dis::Dis;
use crate::values::{name, ram, ranged, word_address};
use mb_forms::{Form, FormOption, Uses, WordsFault, parse};
use std::alloc::Global;

/// `dis IMAGE --ram KIB --at HEX --count N`.
const FORM: Form = Form {
    name: "dis",
    positionals: &["IMAGE"],
    options: &[
        FormOption {
            name: "ram",
            required: true,
        },
        FormOption {
            name: "at",
            required: true,
        },
        FormOption {
            name: "count",
            required: true,
        },
    ],
};

/// The excerpt that these values ask for.
fn excerpt_of<'a>(uses: &Uses<'a>) -> Option<Dis<'a>>
    ensures { option_map excerpt_said result ≡ dis_excerpt uses.now }
{
    let image = name(uses.get("IMAGE")?)?;
    let ram = ram(uses.get("ram")?)?;
    let at = word_address(uses.get("at")?)?;
    let count = ranged(1, 1_000_000, uses.get("count")?)?;
    Some(Dis {
        image,
        ram,
        at,
        count,
    })
}

/// Reads the words behind `dis`.
#[tactic(auto, unfolding(crate::specs::Words::dis_asked))]
pub(crate) fn read_dis<'a>(alloc: Global, words: &'a [String]) -> Result<Dis<'a>, WordsFault>
    ensures { ReadsAs excerpt_said (dis_asked (map string_bytes words.entry.now)) result }
{
    let uses = parse(alloc, &FORM, words)?;
    excerpt_of(&uses).ok_or(WordsFault::Refused)
}
