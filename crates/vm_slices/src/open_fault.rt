//! Why a session has no host.

ghost use Rattle.std.specs.Prelude.{◌≡◌};
ghost use Rattle.vm_slices.specs.declared.open_fault.OpenFault.TheVariants as open_fault;

use mb_outside::Memory;
use thiserror::Error;

/// Want of memory, or a board that is too small.
#[derive(Clone, Copy, Debug, PartialEq, Eq, Error)]
pub enum OpenFault {
    #[error("no memory")]
    Memory,
    /// The bytes that the session needs on its board, and those of the board.
    #[error("oversize need {need} have {have}")]
    Oversize { need: u32, have: u32 },
}

impl From<Memory> for OpenFault {
    ghost from_gives = { λ _ fault. fault ≡ open_fault.Memory };

    fn from(_: Memory) -> OpenFault {
        OpenFault::Memory
    }
}
