//! What rows say of runs.

use crate::files::Files;
use crate::kind::{OfFile, OfNumber, OfText};
use crate::ran::Ran;
use std::fmt;

/// What a line asks of a run.
#[derive(Drop)]
pub enum Wanted {
    Text(OfText, Vec<u8>),
    /// By the name of a file.
    Named(OfFile, String),
    /// The file of this name has this line, and behind it what out took behind its own first line.
    Within(String, String),
    Counted(OfNumber, u64),
    /// Diag may have taken anything.
    AnyDiag,
}

/// What of a run is another than its row says.
#[derive(Clone, Copy)]
pub enum Difference {
    Status(u8),
    /// What the line of this number asks.
    Line(u32),
    /// Something is on out, of which the row says nothing.
    Out,
    /// Something is on diag, of which the row says nothing.
    Diag,
}

impl fmt::Display for Difference {
    fn fmt<W: fmt::Write>(&self, f: &mut fmt::Formatter<W>) -> fmt::Result {
        match self {
            Difference::Status(status) => write!(f, "status {status}"),
            Difference::Line(number) => write!(f, "not as line {number} says"),
            Difference::Out => f.write_str("something on out"),
            Difference::Diag => f.write_str("something on diag"),
        }
    }
}

/// Whether a text has a part.
fn contains(text: &[u8], part: &[u8]) -> bool {
    text.windows(part.len().max(1)).any(|window| window == part)
}

/// What stands behind the first line of a text.
fn behind_first_line(text: &[u8]) -> &[u8] {
    match text.iter().position(|byte| *byte == b'\n') {
        Some(end) => text.get(end..).unwrap_or(b""),
        None => b"",
    }
}

/// Whether a text has a line, and behind it what another has behind its first line.
fn has_within(text: &[u8], line: &[u8], other: &[u8]) -> bool {
    let shown = behind_first_line(other);
    !shown.is_empty()
        && text
            .windows(line.len().max(1).saturating_add(shown.len()))
            .any(|window| { window.starts_with(line) && window.ends_with(shown) })
}

/// Whether a run took a text so.
fn is_text(of: OfText, text: &[u8], ran: &Ran) -> bool {
    match of {
        OfText::Out => ran.out.bytes() == text,
        OfText::First => ran.out.bytes().starts_with(text),
        OfText::Has => contains(ran.out.bytes(), text),
        OfText::Diag => ran.diag.bytes() == text,
    }
}

/// Whether out took what a file has so.
fn is_named(of: OfFile, file: &[u8], out: &[u8]) -> bool {
    match of {
        OfFile::Same => file == out,
        OfFile::Cut => file.starts_with(out),
    }
}

/// The number that a run has.
fn counted(of: OfNumber, ran: &Ran) -> u64 {
    match of {
        OfNumber::Length => ran.out.bytes().len() as u64,
        OfNumber::Retired => ran.native.retired(),
        OfNumber::Exceptions => ran.native.exceptions(),
        OfNumber::Trail => ran.native.trail(),
    }
}

impl Wanted {
    /// Whether it is said of diag.
    pub fn is_of_diag(&self) -> bool {
        matches!(self, Wanted::Text(OfText::Diag, _) | Wanted::AnyDiag)
    }

    /// Whether it is said of out.
    pub fn is_of_out(&self) -> bool {
        !self.is_of_diag() && !matches!(self, Wanted::Counted(..))
    }

    /// Whether a run came to it.
    pub fn is_met(&self, files: &Files, ran: &Ran) -> bool {
        match self {
            Wanted::Text(of, text) => is_text(*of, text, ran),
            Wanted::Named(of, name) => is_named(*of, files.bytes_of(name), ran.out.bytes()),
            Wanted::Within(name, line) => {
                has_within(files.bytes_of(name), line.as_bytes(), ran.out.bytes())
            }
            Wanted::Counted(of, number) => counted(*of, ran) == *number,
            Wanted::AnyDiag => true,
        }
    }
}
