//! Lines that are no case.

use std::fmt;

/// Why a line is no case.
#[derive(Clone, Copy)]
pub enum CaseFault {
    Text,
    Parts,
    Before,
    After,
    Changes,
}

impl CaseFault {
    /// What is told of it.
    fn text(self) -> &'static str {
        match self {
            CaseFault::Text => "it has bytes that are no text",
            CaseFault::Parts => "it does not have four parts",
            CaseFault::Before => "its first two parts are none, or memory ran out",
            CaseFault::After => "its third part is none",
            CaseFault::Changes => "its fourth part is none, or memory ran out",
        }
    }
}

impl fmt::Display for CaseFault {
    fn fmt<W: fmt::Write>(&self, f: &mut fmt::Formatter<W>) -> fmt::Result {
        f.write_str(self.text())
    }
}
