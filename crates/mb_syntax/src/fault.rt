//! Why a line is no statement.

ghost use Rattle.std.specs.Prelude.{◌≡◌};
ghost use Rattle.mb_syntax.specs.declared.fault.SyntaxFault.TheVariants as syntax_fault;

use std::alloc::{AllocError, AllocFailed};
use thiserror::Error;

/// Why a line is no statement.
#[derive(Clone, Copy, Debug, PartialEq, Eq, Error)]
pub enum SyntaxFault {
    #[error("no memory")]
    Memory,
    /// A place at which no token begins, or words that are no statement.
    #[error("syntax")]
    Syntax,
}

impl From<AllocError> for SyntaxFault {
    ghost from_gives = { λ _ fault. fault ≡ syntax_fault.Memory };

    fn from(_: AllocError) -> SyntaxFault {
        SyntaxFault::Memory
    }
}

impl<T: Drop> From<AllocFailed<T>> for SyntaxFault {
    ghost from_gives = { λ _ fault. fault ≡ syntax_fault.Memory };

    fn from(_: AllocFailed<T>) -> SyntaxFault {
        SyntaxFault::Memory
    }
}
