//! Why a text is no script or no session.

ghost use Rattle.std.specs.Prelude.{◌≡◌};
ghost use Rattle.mb_script.specs.declared.fault.LineFault.TheVariants as line_fault;
ghost use Rattle.mb_script.specs.declared.fault.Refusal.TheVariants as refusal;

use std::alloc::{AllocError, AllocFailed};
use thiserror::Error;

/// Why a line does not stand, in the order in which the reasons are looked for.
#[derive(Clone, Copy, Debug, PartialEq, Eq, Error)]
pub enum LineWhy {
    /// A wrong, missing or further word.
    #[error("word")]
    Word,
    /// No decimal number, or one out of its range.
    #[error("number")]
    Number,
    /// No list of pairs of hexadecimal digits, or a text with a byte outside $20 to $7E.
    #[error("digits")]
    Digits,
    /// A smaller step than that of the line before.
    #[error("order")]
    Order,
    /// A guest beyond the sixteenth.
    #[error("many")]
    Many,
}

/// Why there is no script or session: want of memory, or the first line that does not stand.
#[derive(Clone, Copy, Debug, PartialEq, Eq, Error)]
pub enum LineFault {
    #[error("no memory")]
    Memory,
    /// Lines are counted from 1, those that are passed over too.
    #[error("line {number}: {why}")]
    Line { number: u32, why: LineWhy },
}

/// The same for a line whose number is not known.
#[derive(Clone, Copy)]
pub(crate) enum Refusal {
    Memory,
    Why(LineWhy),
}

impl Refusal {
    ghost use Rattle.mb_script.specs.Answers.{fault_at};

    /// The fault in the line with this number.
    pub(crate) fn at(self, number: u32) -> LineFault
        ensures { result ≡ fault_at number self }
    {
        match self {
            Refusal::Memory => LineFault::Memory,
            Refusal::Why(why) => LineFault::Line { number, why },
        }
    }
}

impl From<AllocError> for LineFault {
    ghost from_gives = { λ _ fault. fault ≡ line_fault.Memory };

    fn from(_: AllocError) -> LineFault {
        LineFault::Memory
    }
}

impl<T: Drop> From<AllocFailed<T>> for LineFault {
    ghost from_gives = { λ _ fault. fault ≡ line_fault.Memory };

    fn from(_: AllocFailed<T>) -> LineFault {
        LineFault::Memory
    }
}

impl From<AllocError> for Refusal {
    ghost from_gives = { λ _ fault. fault ≡ refusal.Memory };

    fn from(_: AllocError) -> Refusal {
        Refusal::Memory
    }
}

impl<T: Drop> From<AllocFailed<T>> for Refusal {
    ghost from_gives = { λ _ fault. fault ≡ refusal.Memory };

    fn from(_: AllocFailed<T>) -> Refusal {
        Refusal::Memory
    }
}
