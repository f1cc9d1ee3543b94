//! What a machine shows, against what a case says.

ghost use Rattle.std.specs.Prelude.{◌≡◌, ◌↔◌, IsNone};
ghost use Rattle.mb_model.specs.Seen.{seen_of};
ghost use Rattle.try_runs.specs.Cases.{settled, HasRegisters};

use crate::cases::case::Case;
use crate::cases::registers::{COUNT, NAMES, Registers};
use mb_model::Outcome;
use mb_report::same;
use std::fmt;

/// What of a machine is first found to be another than its case says.
#[derive(Drop)]
pub enum Difference {
    Register {
        name: &'static str,
        got: u32,
        said: u32,
    },
    Byte {
        at: usize,
        got: u8,
        said: u8,
    },
    Other(&'static str),
}

impl fmt::Display for Difference {
    fn fmt<W: fmt::Write>(&self, f: &mut fmt::Formatter<W>) -> fmt::Result {
        match self {
            Difference::Register { name, got, said } => {
                write!(f, "{name} is {got:08X}, not {said:08X}")
            }
            Difference::Byte { at, got, said } => write!(
                f,
                "{at:05X} is {got:02X}, not {said:02X}"
            ),
            Difference::Other(what) => write!(f, "{what} another"),
        }
    }
}

/// A number whose unsaid bits are those of the machine.
fn settled(unsaid: u32, said: u32, got: u32) -> u32
    ensures { result ≡ settled unsaid said got }
{
    said ^ ((said ^ got) & unsaid)
}

/// The first register that is another than the case says.
pub fn first_register(case: &Case, got: &Registers) -> Option<Difference>
    ensures { IsNone result ↔ HasRegisters case.now got.now }
{
    for place in 0..COUNT {
        let said = settled(case.unsaid[place], case.after[place], got[place]);
        if got[place] != said {
            return Some(Difference::Register {
                name: NAMES[place],
                got: got[place],
                said,
            });
        }
    }
    None
}

/// The first byte of RAM that is another.
fn byte_difference(got: &[u8], said: &[u8]) -> Option<Difference> {
    for at in 0..got.len().min(said.len()) {
        if got[at] != said[at] {
            return Some(Difference::Byte {
                at,
                got: got[at],
                said: said[at],
            });
        }
    }
    None
}

/// What is first found, where something is another.
fn find_difference(got: &Outcome, said: &Outcome) -> Difference {
    if got.state != said.state {
        return Difference::Other("the state is");
    }
    if got.steps != said.steps {
        return Difference::Other("the number of steps is");
    }
    if let Some(found) = byte_difference(got.ram, said.ram) {
        return found;
    }
    if got.console != said.console || got.queue != said.queue {
        return Difference::Other("the console or the queue is");
    }
    Difference::Other("STOP or a device is")
}

/// `None` exactly where a machine shows in all what is said.
pub fn first_difference(got: &Outcome, said: &Outcome) -> Option<Difference>
    ensures { IsNone result ↔ (seen_of got.now ≡ seen_of said.now) }
{
    if same(got, said) {
        None
    } else {
        Some(find_difference(got, said))
    }
}
