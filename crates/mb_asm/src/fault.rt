//! Why a text is no program.

ghost use Rattle.std.specs.Prelude.{◌≡◌};
ghost use Rattle.mb_asm.specs.declared.fault.AsmFault.TheVariants as asm_fault;

use mb_mnemonics::MeansFault;
use std::alloc::{AllocError, AllocFailed};
use thiserror::Error;

/// What is wrong with a line, in the order in which the kinds are looked for.
#[derive(Clone, Copy, Debug, PartialEq, Eq, Error)]
pub enum AsmKind {
    /// No statement of the grammar, or an EQU without a label.
    #[error("syntax")]
    Syntax,
    /// No such operation or symbol, or in ORG, EQU and DS none in an earlier line.
    #[error("name")]
    Name,
    /// A symbol that an earlier line has.
    #[error("twice")]
    Twice,
    /// No such size or operands.
    #[error("operand")]
    Operand,
    /// A number out of its range.
    #[error("range")]
    Range,
    /// An instruction at an odd address, or an address past 2^32 - 1.
    #[error("place")]
    Place,
}

/// Why there is no image: want of memory, or the first faulty line.
#[derive(Clone, Copy, Debug, PartialEq, Eq, Error)]
pub enum AsmFault {
    #[error("no memory")]
    Memory,
    /// Lines are counted from 1, those without characters too.
    #[error("line {number}: {kind}")]
    Line { number: u32, kind: AsmKind },
}

impl From<MeansFault> for AsmKind {
    ghost use Rattle.mb_asm.specs.Kinds.{kind_of};

    ghost from_gives = { λ fault kind. kind ≡ kind_of fault };

    fn from(fault: MeansFault) -> AsmKind {
        match fault {
            MeansFault::Name => AsmKind::Name,
            MeansFault::Operand => AsmKind::Operand,
            MeansFault::Range => AsmKind::Range,
        }
    }
}

impl From<AllocError> for AsmFault {
    ghost from_gives = { λ _ fault. fault ≡ asm_fault.Memory };

    fn from(_: AllocError) -> AsmFault {
        AsmFault::Memory
    }
}

impl<T: Drop> From<AllocFailed<T>> for AsmFault {
    ghost from_gives = { λ _ fault. fault ≡ asm_fault.Memory };

    fn from(_: AllocFailed<T>) -> AsmFault {
        AsmFault::Memory
    }
}
