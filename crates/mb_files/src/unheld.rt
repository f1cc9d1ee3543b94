//! Why bytes are not what a file is read as.

ghost use Rattle.std.specs.Prelude.{◌≡◌};
ghost use Rattle.mb_files.specs.Reads.{unheld_image, unheld_lines, unheld_snapshot, unheld_source};

use crate::fault::{FileWhy, Reason};
use mb_asm::AsmFault;
use mb_script::LineFault;
use mb_srec::ImageFault;
use vm_snapshot::SnapFault;

/// Why bytes are not what the file is read as.
#[derive(Clone, Copy)]
pub(crate) enum Unheld {
    /// Memory ran out.
    Memory,
    Why(FileWhy),
}

impl From<ImageFault> for Unheld {
    ghost from_gives = { λ given fault. fault ≡ unheld_image given };

    fn from(fault: ImageFault) -> Unheld {
        match fault {
            ImageFault::Memory => Unheld::Memory,
            ImageFault::Line { number, why } => Unheld::Why(FileWhy::Line {
                number,
                why: Reason::Record(why),
            }),
            ImageFault::Outside { at } => Unheld::Why(FileWhy::Outside { at }),
            ImageFault::NoEnd => Unheld::Why(FileWhy::NoEnd),
        }
    }
}

impl From<LineFault> for Unheld {
    ghost from_gives = { λ given fault. fault ≡ unheld_lines given };

    fn from(fault: LineFault) -> Unheld {
        match fault {
            LineFault::Memory => Unheld::Memory,
            LineFault::Line { number, why } => Unheld::Why(FileWhy::Line {
                number,
                why: Reason::Words(why),
            }),
        }
    }
}

impl From<AsmFault> for Unheld {
    ghost from_gives = { λ given fault. fault ≡ unheld_source given };

    fn from(fault: AsmFault) -> Unheld {
        match fault {
            AsmFault::Memory => Unheld::Memory,
            AsmFault::Line { number, kind } => Unheld::Why(FileWhy::Line {
                number,
                why: Reason::Source(kind),
            }),
        }
    }
}

impl From<SnapFault> for Unheld {
    ghost from_gives = { λ given fault. fault ≡ unheld_snapshot given };

    fn from(fault: SnapFault) -> Unheld {
        match fault {
            SnapFault::Memory => Unheld::Memory,
            SnapFault::Line { number } => Unheld::Why(FileWhy::Line {
                number,
                why: Reason::Snapshot,
            }),
        }
    }
}
