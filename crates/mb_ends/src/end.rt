//! How a run ends.

ghost use Rattle.std.specs.Prelude.{◌≡◌};
ghost use Rattle.mb_ends.specs.Lines.{end_by, unopened};

use mb_files::{FileFault, FileWhy};
use vm_slices::{Host, OpenFault};

/// How a run ended, each way with its status and its line for diag.
#[derive(Drop)]
pub enum End {
    /// The text was written.
    Done,
    /// The outcomes of all guests were written; how many steps of each class each of them took is still to be said.
    Counts(Host),
    /// The text was written, and it says that some guest differs.
    Differs,
    /// The words ask for nothing.
    Words,
    /// A file is refused.
    Refused(String, FileWhy),
    /// The guests and the monitor need more bytes than the board has.
    Oversize { need: u32, have: u32 },
    /// A file could not be read.
    Unread(String),
    /// A sink failed before it had the whole text.
    Output,
    /// Memory ran out before the text was begun.
    Memory,
}

impl From<FileFault> for End {
    ghost from_gives = { λ given end. end ≡ end_by given };

    fn from(fault: FileFault) -> End {
        match fault {
            FileFault::Refused(name, why) => End::Refused(name, why),
            FileFault::Unread(name) => End::Unread(name),
            FileFault::Memory => End::Memory,
        }
    }
}

impl From<OpenFault> for End {
    ghost from_gives = { λ given end. end ≡ unopened given };

    fn from(fault: OpenFault) -> End {
        match fault {
            OpenFault::Memory => End::Memory,
            OpenFault::Oversize { need, have } => End::Oversize { need, have },
        }
    }
}
