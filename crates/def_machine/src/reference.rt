//! References to memory, and what is known of where they lead.

ghost use Rattle.std.specs.Prelude.{◌≡◌};
ghost use Rattle.def_machine.specs.Bus.{fault_of, fetching_of as fetches, reading_of as reads, writing_of as writes};

use mb_port::{Fault, Space};

/// A reference to memory: what an access is to its translation.
#[derive(Clone, Copy, PartialEq, Eq)]
pub struct Reference {
    /// It fetches an instruction word: the side of code, else the side of data.
    pub code: bool,
    pub space: Space,
    /// The logical address.
    pub at: u32,
    /// It writes, or checks for writing.
    pub write: bool,
}

/// What is known of where a reference leads, before any table is searched.
#[derive(Clone, Copy, PartialEq, Eq)]
pub enum Settled {
    /// It leads to this physical address.
    To(u32),
    /// It is refused.
    Refused,
    /// Only a search can tell.
    Unsettled,
}

impl Reference {
    /// A reference that fetches.
    #[inline(always)]
    pub fn fetching(space: Space, at: u32) -> Reference
        ensures { result ≡ fetches space at }
    {
        Reference {
            code: true,
            space,
            at,
            write: false,
        }
    }

    /// A reference that reads an operand.
    #[inline(always)]
    pub fn reading(space: Space, at: u32) -> Reference
        ensures { result ≡ reads space at }
    {
        Reference {
            code: false,
            space,
            at,
            write: false,
        }
    }

    /// A reference that writes an operand, or checks it for writing.
    #[inline(always)]
    pub fn writing(space: Space, at: u32) -> Reference
        ensures { result ≡ writes space at }
    {
        Reference {
            code: false,
            space,
            at,
            write: true,
        }
    }

    /// The fault where it, to so many bytes, is refused: by its translation, or, with ATC clear, since nothing stands
    /// at its place.
    pub fn refused(self, len: u8, atc: bool) -> Fault
        ensures { result ≡ fault_of self len atc }
    {
        Fault {
            at: self.at,
            len,
            space: self.space,
            code: self.code,
            write: self.write,
            atc,
        }
    }
}
