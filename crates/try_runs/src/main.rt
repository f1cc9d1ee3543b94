//! What is run and compared with what others say of it: single instructions that other machines ran, and whole runs of
//! the program in memory, over a shelf of files and sinks, by words that tables have, each with all that comes of it.
//!
//! Each file of rows is told with how many of its runs come to what its rows say, and how many do not; and so is each
//! run that does not, with what is first found to be another. The crate's README has the form of the rows.
#![tactic(auto)]

mod cases;
mod failing;
mod fault;
mod files;
mod kind;
mod ran;
mod row;
mod table;
mod wanted;

use anyhow::{anyhow, ensure};
use fault::Fault;
use files::Files;
use mb_lines::Lines;
use row::{Row, Run};
use std::{fs, io, rt};
use table::Table;
use wanted::Difference;

/// The files of rows.
#[rattlefmt::skip]
static TABLES: [(&str, &str); 18] = [
    ("machines", "machines.txt"),
    ("boards", "boards.txt"),
    ("words", "words.txt"),
    ("files", "files.txt"),
    ("scripts", "scripts.txt"),
    ("session_files", "session_files.txt"),
    ("commands", "commands.txt"),
    ("listing", "listing.txt"),
    ("sessions", "sessions.txt"),
    ("disks", "disks.txt"),
    ("snapshots", "snapshots.txt"),
    ("relays", "relays.txt"),
    ("texts_of_snapshots", "texts_of_snapshots.txt"),
    ("debugs", "debugs.txt"),
    ("commands_of_a_debugger", "commands_of_a_debugger.txt"),
    ("outsides", "outsides.txt"),
    ("unfailing", "unfailing.txt"),
    ("wars", "wars.txt"),
];

/// How many runs come to what their rows say, and how many do not.
#[derive(Clone, Copy)]
struct Tally {
    passed: u64,
    failed: u64,
}

/// Counts a run, and tells what is another.
fn count(
    rt: &impl Print,
    name: &str,
    run: &Run,
    found: Option<Difference>,
    tally: &mut Tally,
) -> io::Result<()> {
    match found {
        None => tally.passed = tally.passed.saturating_add(1),
        Some(found) => {
            tally.failed = tally.failed.saturating_add(1);
            println!(rt; "{name} line {}: {found}", run.number)?;
        }
    }
    Ok(())
}

/// A line that is none of a table.
fn bad_line(name: &str, number: u32, fault: Fault) -> anyhow::Error {
    anyhow!("{name} line {number}: {fault}")
}

/// Runs the words of a row, over outsides that fail as it says.
fn run_words(
    rt: &(impl Print + AllocGlobal),
    name: &str,
    files: &mut Files,
    row: &Row,
    run: &Run,
    tally: &mut Tally,
) -> anyhow::Result<()> {
    for failing in &row.failing {
        match row.try_run(rt.alloc(), files, run, *failing) {
            Ok(found) => count(rt, name, run, found, tally)?,
            Err(fault) => return Err(bad_line(name, run.number, fault)),
        }
    }
    Ok(())
}

/// Runs all words of a row.
fn run_row(
    rt: &(impl Print + AllocGlobal),
    name: &str,
    files: &mut Files,
    row: &Row,
    tally: &mut Tally,
) -> anyhow::Result<()> {
    for run in &row.runs {
        run_words(rt, name, files, row, run, tally)?;
    }
    Ok(())
}

/// Runs the rows of a table, each as soon as its last line is read.
fn run_table(rt: &(impl Print + AllocGlobal), name: &str, text: &[u8]) -> anyhow::Result<Tally> {
    ensure!(text.len() < 1 << 31, "{name} is too long");
    let mut table = Table::new(rt.alloc());
    let mut tally = Tally {
        passed: 0,
        failed: 0,
    };
    let mut lines = Lines::new(text);
    while let Some(line) = lines.next_line() {
        match table.read_line(line.number, line.characters) {
            Ok(None) => {}
            Ok(Some(row)) => run_row(rt, name, &mut table.files, &row, &mut tally)?,
            Err(fault) => return Err(bad_line(name, line.number, fault)),
        }
    }
    ensure!(table.is_at_end(), "{name} ends in a row");
    Ok(tally)
}

/// Runs a file of rows, and tells how many of its runs come to what it says.
fn run_file(
    rt: &(impl rt::Files + Print + AllocGlobal),
    name: &str,
    path: &str,
) -> anyhow::Result<u64> {
    let text = fs::read(rt, path)?;
    let tally = run_table(rt, name, &text)?;
    println!(rt; "{name}: {} passed, {} failed", tally.passed, tally.failed)?;
    Ok(tally.failed)
}

fn main(rt: HostRuntime) -> anyhow::Result<()> {
    let mut failed = cases::run_all(&rt)?;
    for &(name, path) in &TABLES {
        failed = failed.saturating_add(run_file(&rt, name, path)?);
    }
    ensure!(failed == 0, "{failed} failed");
    Ok(())
}
