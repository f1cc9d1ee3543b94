//! Lines that are none of a table.

use std::alloc::{AllocError, AllocFailed};
use std::fmt;
use std::num::ParseIntError;

/// Why a line is none.
#[derive(Clone, Copy)]
pub enum Fault {
    /// It has no form of a line's, or stands where it says nothing.
    Form,
    Memory,
}

impl Fault {
    /// What is told of it.
    fn text(self) -> &'static str {
        match self {
            Fault::Form => "no line of a table",
            Fault::Memory => "no memory",
        }
    }
}

impl fmt::Display for Fault {
    fn fmt<W: fmt::Write>(&self, f: &mut fmt::Formatter<W>) -> fmt::Result {
        f.write_str(self.text())
    }
}

impl From<ParseIntError> for Fault {
    fn from(_: ParseIntError) -> Fault {
        Fault::Form
    }
}

impl From<AllocError> for Fault {
    fn from(_: AllocError) -> Fault {
        Fault::Memory
    }
}

impl<T: Drop> From<AllocFailed<T>> for Fault {
    fn from(_: AllocFailed<T>) -> Fault {
        Fault::Memory
    }
}
