//! Why a line has no tokens.

ghost use Rattle.std.specs.Prelude.{◌≡◌};
ghost use Rattle.mb_asm_text.specs.declared.fault.LexFault.TheVariants as lex_fault;

use std::alloc::{AllocError, AllocFailed};
use thiserror::Error;

/// Why a line is not cut into tokens.
#[derive(Clone, Copy, Debug, PartialEq, Eq, Error)]
pub enum LexFault {
    #[error("no memory")]
    Memory,
    /// The place that the cut reaches and at which no token begins. Places count from 0.
    #[error("no token at {0}")]
    At(u32),
}

impl From<AllocError> for LexFault {
    ghost from_gives = { λ _ fault. fault ≡ lex_fault.Memory };

    fn from(_: AllocError) -> LexFault {
        LexFault::Memory
    }
}

impl<T: Drop> From<AllocFailed<T>> for LexFault {
    ghost from_gives = { λ _ fault. fault ≡ lex_fault.Memory };

    fn from(_: AllocFailed<T>) -> LexFault {
        LexFault::Memory
    }
}
