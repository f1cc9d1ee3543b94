//! What stands behind the stem of a name, and the condition that it says.

ghost use Rattle.std.specs.Prelude.{◌≡◌, ◌≤◌, length};
ghost use Rattle.mb_mnemonics.specs.Code.{most_ending};
ghost use Rattle.mb_mnemonics.specs.Lines.{condition_by, condition_in, ending_name, endings, same_letters};

use crate::line::{Ending, Line, Stem, stem};
use mb_instr::Condition;

/// A condition's name, in capital letters.
#[derive(Clone, Copy)]
pub struct NameOf {
    pub(crate) name: Stem,
    pub(crate) condition: Condition,
}

macro_rules! names {
    ($($name:literal $condition:ident),*) => {
        [$(NameOf { name: stem!($name), condition: Condition::$condition }),*]
    };
}

const PLAIN: [NameOf; 1] = names![b"" True];

#[rattlefmt::skip]
const CONDITIONS: [NameOf; 16] = names![
    b"T" True, b"F" False, b"HI" High, b"LS" LowOrSame, b"CC" CarryClear, b"CS" CarrySet, b"NE" NotEqual, b"EQ" Equal,
    b"VC" OverflowClear, b"VS" OverflowSet, b"PL" Plus, b"MI" Minus, b"GE" GreaterOrEqual, b"LT" LessThan,
    b"GT" GreaterThan, b"LE" LessOrEqual
];

/// A branch always is BRA, and one never goes on as BSR.
#[rattlefmt::skip]
const BRANCHES: [NameOf; 16] = names![
    b"RA" True, b"SR" False, b"HI" High, b"LS" LowOrSame, b"CC" CarryClear, b"CS" CarrySet, b"NE" NotEqual, b"EQ" Equal,
    b"VC" OverflowClear, b"VS" OverflowSet, b"PL" Plus, b"MI" Minus, b"GE" GreaterOrEqual, b"LT" LessThan,
    b"GT" GreaterThan, b"LE" LessOrEqual
];

/// The endings of a line's name, each with the condition that it says.
fn endings(ending: Ending) -> &'static [NameOf]
    ensures { result.now ≡ endings ending }
{
    match ending {
        Ending::Plain => &PLAIN,
        Ending::Condition => &CONDITIONS,
        Ending::Branch => &BRANCHES,
    }
}

/// Whether two texts are the same but for the case of their letters.
fn same_letters(text: &[u8], other: &[u8]) -> bool
    ensures { result ≡ same_letters text.now other.now }
{
    text.eq_ignore_ascii_case(other)
}

/// The condition that a name's end says, in either case.
fn condition_in(names: &[NameOf], text: &[u8]) -> Option<Condition>
    ensures { result ≡ condition_in names.now text.now }
{
    match names {
        [] => None,
        [name, names @ ..] => if same_letters(name.name.letters(), text) {
            Some(name.condition)
        } else {
            condition_in(names, text)
        },
    }
}

/// The condition that a name says by a line, where it is the line's: its stem and one of its endings, in either case.
/// A name without a condition says T.
pub(crate) fn condition_by(line: &Line, name: &[u8]) -> Option<Condition>
    ensures { result ≡ condition_by line.now name.now }
{
    let stem = line.stem.letters();
    if name.len() < stem.len() {
        return None;
    }
    let (front, back) = name.split_at(stem.len());
    if same_letters(stem, front) {
        condition_in(endings(line.ending), back)
    } else {
        None
    }
}

/// The ending with the condition of the number, among endings.
fn ending_among(names: &'static [NameOf], number: u8) -> &'static [u8]
    ensures { result.now ≡ ending_name names.now number }
{
    match names {
        [] => b"",
        [name, names @ ..] => if name.condition.bits() == number {
            name.name.letters()
        } else {
            ending_among(names, number)
        },
    }
}

/// The ending of a name with the condition of the number; a name without a condition has none.
#[tactic(auto, using(crate::proofs::ShortEndings::short_ending))]
pub fn ending_name(ending: Ending, number: u8) -> &'static [u8]
    ensures name { result.now ≡ ending_name (endings ending) number }
    ensures short { length result.now ≤ most_ending ending }
{
    ending_among(endings(ending), number)
}
