//! Runs of the program.

use crate::failing::Failing;
use crate::fault::Fault;
use crate::files::Files;
use mb_board::Native;
use mb_outside::{MemShelf, MemSink, Memory};
use mb_program::{run_program, run_unfailing};
use std::alloc::Global;

/// What a run left: its status, what out and diag took, and what boards counted in user mode.
#[derive(Drop)]
pub struct Ran {
    pub status: u8,
    pub out: MemSink,
    pub diag: MemSink,
    pub native: Native,
}

/// How many bytes diag has room for.
const DIAG_ROOM: usize = 4000;

/// A sink with so much room, which fails at one call.
fn sink(alloc: Global, room: usize, fails: u64) -> Result<MemSink, Fault> {
    let fails = Vec::from_slice(alloc, &[fails])?;
    MemSink::new(alloc, room, fails).map_err(|_: Memory| Fault::Memory)
}

/// A shelf with these files, which fails at one call.
fn shelf(alloc: Global, files: &Files, fails: u64) -> Result<MemShelf, Fault> {
    let fails = Vec::from_slice(alloc, &[fails])?;
    Ok(MemShelf::new(files.copies(alloc)?, fails))
}

/// A run of words.
fn run_over(
    alloc: Global,
    words: &[String],
    shelf: &mut MemShelf,
    out: MemSink,
    diag: MemSink,
) -> Ran {
    let (mut out, mut diag) = (out, diag);
    let mut native = Native::new();
    let status = run_program(alloc, words, shelf, &mut out, &mut diag, &mut native);
    Ran {
        status,
        out,
        diag,
        native,
    }
}

/// A run of words over these files.
pub fn run(alloc: Global, words: &[String], files: &Files, failing: Failing) -> Result<Ran, Fault> {
    let mut shelf = shelf(alloc, files, failing.shelf)?;
    let out = sink(alloc, failing.room, failing.out)?;
    let diag = sink(alloc, DIAG_ROOM, failing.diag)?;
    Ok(run_over(alloc, words, &mut shelf, out, diag))
}

/// A run of words over these files where nothing outside can fail, which leaves its status alone.
pub fn run_in_silence(alloc: Global, words: &[String], files: &Files) -> Result<Ran, Fault> {
    let status = run_unfailing(alloc, words, files.copies(alloc)?);
    Ok(Ran {
        status,
        out: sink(alloc, 0, 0)?,
        diag: sink(alloc, 0, 0)?,
        native: Native::new(),
    })
}
