//! What is wrong with a line whose number is not known.

ghost use Rattle.std.specs.Prelude.{◌≡◌};
ghost use Rattle.mb_asm.specs.declared.refusal.Refusal.TheVariants as refusal;

use crate::fault::{AsmFault, AsmKind};
use std::alloc::{AllocError, AllocFailed};

#[derive(Clone, Copy)]
pub(crate) enum Refusal {
    Memory,
    Kind(AsmKind),
}

impl Refusal {
    ghost use Rattle.mb_asm.specs.Answers.{fault_at};

    /// The fault in the line with this number.
    pub(crate) fn at(self, number: u32) -> AsmFault
        ensures { result ≡ fault_at number self }
    {
        match self {
            Refusal::Memory => AsmFault::Memory,
            Refusal::Kind(kind) => AsmFault::Line { number, kind },
        }
    }
}

impl From<AsmKind> for Refusal {
    ghost from_gives = { λ kind fault. fault ≡ refusal.Kind kind };

    fn from(kind: AsmKind) -> Refusal {
        Refusal::Kind(kind)
    }
}

impl From<AllocError> for Refusal {
    ghost from_gives = { λ _ fault. fault ≡ refusal.Memory };

    fn from(_: AllocError) -> Refusal {
        Refusal::Memory
    }
}

impl<T: Drop> From<AllocFailed<T>> for Refusal {
    ghost from_gives = { λ _ fault. fault ≡ refusal.Memory };

    fn from(_: AllocFailed<T>) -> Refusal {
        Refusal::Memory
    }
}
