//! A file as cases.

ghost use Rattle.std.specs.Prelude.{◌≡◌, ◌+◌, ◌<◌, ◌^◌, length, vec_len, IfOk};
ghost use Rattle.try_runs.specs.Files.{count_of, is_case};

use crate::cases::case::Case;
use crate::cases::fault::CaseFault;
use crate::cases::reading::{Form, read_case};
use mb_lines::{Line, Lines};
use std::alloc::{AllocError, Global};

/// A line that is no case, though it is no comment.
#[derive(Clone, Copy)]
pub struct BadLine {
    pub number: u32,
    pub fault: CaseFault,
}

/// What a file has: its cases, and the lines that are none.
#[derive(Drop)]
pub struct CaseFile {
    pub cases: Vec<Case>,
    pub bad: Vec<BadLine>,
}

/// Whether a line has a case: comments begin with `#`.
fn is_case(characters: &[u8]) -> bool
    ensures { result ≡ is_case characters.now }
{
    !matches!(characters, [b'#', ..])
}

fn read_line(alloc: Global, form: Form, line: Line<'_>) -> Result<Case, CaseFault> {
    match std::str::from_utf8(line.characters) {
        Ok(text) => read_case(alloc, form, line.number, text),
        Err(_) => Err(CaseFault::Text),
    }
}

impl CaseFile {
    /// Adds a line, as a case or as none.
    fn add_line(&mut self, alloc: Global, form: Form, line: Line<'_>) -> Result<(), AllocError>
        ensures { IfOk result (λ _. vec_len self.new.cases + vec_len self.new.bad
            ≡ vec_len self.old.cases + vec_len self.old.bad + 1) }
    {
        match read_line(alloc, form, line) {
            Ok(case) => self.cases.push(case)?,
            Err(fault) => self.bad.push(BadLine {
                number: line.number,
                fault,
            })?,
        }
        Ok(())
    }
}

/// Reads a file of cases: each line that is no comment and has characters is a case, or one of those that are none.
pub fn read_file(alloc: Global, form: Form, text: &[u8]) -> Result<CaseFile, AllocError>
    requires { length text.now < 2 ^ 31 }
    ensures counted { IfOk result (λ file. vec_len file.cases + vec_len file.bad ≡ count_of text.now) }
{
    let mut file = CaseFile {
        cases: Vec::new(alloc),
        bad: Vec::new(alloc),
    };
    let mut lines = Lines::new(text);
    while let Some(line) = lines.next_line() {
        if is_case(line.characters) {
            file.add_line(alloc, form, line)?;
        }
    }
    Ok(file)
}
