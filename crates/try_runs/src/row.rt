//! Rows.

use crate::failing::Failing;
use crate::fault::Fault;
use crate::files::Files;
use crate::ran::{Ran, run, run_in_silence};
use crate::wanted::{Difference, Wanted};
use std::alloc::Global;

/// Words to be run.
#[derive(Drop)]
pub struct Run {
    /// The line that has them.
    pub number: u32,
    pub words: Vec<String>,
    /// Nothing outside can fail.
    pub unfailing: bool,
}

/// What a line asks, with its number.
#[derive(Drop)]
pub struct Asked {
    pub number: u32,
    pub wanted: Wanted,
}

/// Words, and what comes of each of them over each of the outsides.
#[derive(Drop)]
pub struct Row {
    pub runs: Vec<Run>,
    pub failing: Vec<Failing>,
    pub asked: Vec<Asked>,
    /// The file that out becomes.
    pub keep: Option<String>,
    pub status: u8,
}

/// Whether a row says nothing of out or of diag, which then took nothing.
fn said_of_nothing(asked: &[Asked], ran: &Ran) -> Option<Difference> {
    if !ran.out.bytes().is_empty() && !asked.iter().any(|it| it.wanted.is_of_out()) {
        return Some(Difference::Out);
    }
    if !ran.diag.bytes().is_empty() && !asked.iter().any(|it| it.wanted.is_of_diag()) {
        return Some(Difference::Diag);
    }
    None
}

/// Makes what out took a file.
fn keep_out(alloc: Global, files: &mut Files, name: &str, ran: &Ran) -> Result<(), Fault> {
    let bytes = Vec::from_slice(alloc, ran.out.bytes())?;
    files.put(String::from_str(alloc, name)?, bytes)
}

impl Row {
    /// A row with nothing.
    pub fn new(alloc: Global) -> Row {
        Row {
            runs: Vec::new(alloc),
            failing: Vec::new(alloc),
            asked: Vec::new(alloc),
            keep: None,
            status: 0,
        }
    }

    /// What of a run is first found to be another than the row says.
    fn difference(&self, files: &Files, ran: &Ran) -> Option<Difference> {
        if ran.status != self.status {
            return Some(Difference::Status(ran.status));
        }
        for asked in &self.asked {
            if !asked.wanted.is_met(files, ran) {
                return Some(Difference::Line(asked.number));
            }
        }
        said_of_nothing(&self.asked, ran)
    }

    /// Runs words: what is first found to be another than the row says.
    pub fn try_run(
        &self,
        alloc: Global,
        files: &mut Files,
        words: &Run,
        failing: Failing,
    ) -> Result<Option<Difference>, Fault> {
        let ran = if words.unfailing {
            run_in_silence(alloc, &words.words, files)?
        } else {
            run(alloc, &words.words, files, failing)?
        };
        let found = self.difference(files, &ran);
        if let Some(name) = &self.keep {
            keep_out(alloc, files, name, &ran)?;
        }
        Ok(found)
    }
}
