//! Why a text is no image.

ghost use Rattle.std.specs.Prelude.{◌≡◌};
ghost use Rattle.mb_srec.specs.declared.fault.ImageFault.TheVariants.{Memory};

use std::alloc::{AllocError, AllocFailed};
use thiserror::Error;

/// Why a line does not stand, in the order in which the reasons are looked for.
#[derive(Clone, Copy, Debug, PartialEq, Eq, Error)]
pub enum RecordWhy {
    /// The line does not begin with `S` and a digit of 0 to 3 or 5 to 9.
    #[error("kind")]
    Kind,
    /// What follows is no list of pairs of hexadecimal digits.
    #[error("digits")]
    Digits,
    /// The count differs from the bytes that follow it, or leaves no room for the address and the
    /// checksum, or a count or an end has data.
    #[error("length")]
    Length,
    /// The last byte is not the ones' complement of the low byte of the sum of the others.
    #[error("sum")]
    Sum,
    /// A count is not the number of data records before it.
    #[error("count")]
    Count,
    /// The line comes after the end.
    #[error("after")]
    After,
}

/// Why there is no image: want of memory, or the first fault in the text.
#[derive(Clone, Copy, Debug, PartialEq, Eq, Error)]
pub enum ImageFault {
    #[error("no memory")]
    Memory,
    /// Lines are counted from 1, those without characters too.
    #[error("line {number}: {why}")]
    Line { number: u32, why: RecordWhy },
    /// The first address of data that is not in RAM.
    #[error("outside {at:08X}")]
    Outside { at: u32 },
    #[error("no end")]
    NoEnd,
}

impl From<AllocError> for ImageFault {
    ghost from_gives = { λ _ fault. fault ≡ Memory };

    fn from(_: AllocError) -> ImageFault {
        ImageFault::Memory
    }
}

impl<T: Drop> From<AllocFailed<T>> for ImageFault {
    ghost from_gives = { λ _ fault. fault ≡ Memory };

    fn from(_: AllocFailed<T>) -> ImageFault {
        ImageFault::Memory
    }
}
