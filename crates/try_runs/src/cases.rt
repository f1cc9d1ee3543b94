//! Single instructions, and a few after one another, that two other machines ran: all that those show afterwards.
//!
//! A case is a line of `plain.txt`, `traps.txt` or `system.txt`, and each passes exactly where the machine of the
//! definition shows what the case says: every register, all of RAM, the console, the queue, the steps and the state.
//! Each case that does not pass is told, with what is first found to be another, and so is each line that is no case.

ghost use Rattle.std.specs.Prelude.{◌≤◌, length, IfOk};
ghost use Rattle.try_runs.specs.Passed.{Passed};

mod bench;
mod case;
mod chunk;
mod difference;
mod fault;
mod file;
mod machine;
mod memory;
mod reading;
mod registers;
mod single;
mod system;
mod words;

use crate::cases::bench::Bench;
use crate::cases::case::Case;
use crate::cases::file::{BadLine, CaseFile, read_file};
use crate::cases::reading::Form;
use anyhow::{anyhow, ensure};
use std::rt::Files;
use std::{fmt, fs, io};

/// Tells of a line of a file what is wrong with it.
fn tell(rt: &impl Print, file: &str, line: u32, what: &impl fmt::Display) -> io::Result<()> {
    println!(rt; "{file} line {line}: {what}")
}

/// Runs cases one after the other, and tells of those that do not pass what is first found to be another: how many
/// pass.
fn run_cases(rt: &impl Print, file: &str, bench: &mut Bench, cases: &[Case]) -> io::Result<usize>
    ensures passed { IfOk result (Passed cases.now) }
    ensures among { IfOk result (λ passed. passed ≤ length cases.now) }
{
    let mut passed = 0;
    for case in cases {
        match bench.try_case(case) {
            None => passed += 1,
            Some(found) => tell(rt, file, case.line, &found)?,
        }
    }
    Ok(passed)
}

/// Tells the lines of a file that are no case.
fn tell_bad(rt: &impl Print, file: &str, lines: &[BadLine]) -> io::Result<()> {
    for line in lines {
        tell(rt, file, line.number, &line.fault)?;
    }
    Ok(())
}

/// How many of a file's cases pass, and how many of its lines do not: cases, and lines that are none.
#[derive(Clone, Copy)]
struct Tally {
    passed: usize,
    failed: usize,
}

/// Runs the cases of a file, and tells what does not pass.
fn run_file(rt: &impl Print, name: &str, file: &CaseFile, bench: &mut Bench) -> io::Result<Tally> {
    tell_bad(rt, name, &file.bad)?;
    let passed = run_cases(rt, name, bench, &file.cases)?;
    println!(rt; "{name}: {passed} passed")?;
    let failed = (file.cases.len() - passed).saturating_add(file.bad.len());
    Ok(Tally { passed, failed })
}

/// What a file has.
fn contents_of(
    rt: &(impl Files + AllocGlobal),
    path: &str,
    form: Form,
) -> anyhow::Result<CaseFile> {
    let text = fs::read(rt, path)?;
    ensure!(text.len() < 1 << 31, "{path} is too long");
    Ok(read_file(rt.alloc(), form, &text)?)
}

/// The files of cases: their names, where they are, and how their lines are written.
static FILES: [(&str, &str, Form); 3] = [
    ("plain", "plain.txt", Form::Single),
    ("traps", "traps.txt", Form::Single),
    ("system", "system.txt", Form::System),
];

/// Runs the cases of all files.
fn run_files(rt: &(impl Files + Print + AllocGlobal), bench: &mut Bench) -> anyhow::Result<Tally> {
    let mut all = Tally {
        passed: 0,
        failed: 0,
    };
    for &(name, path, form) in &FILES {
        let file = contents_of(rt, path, form)?;
        let tally = run_file(rt, name, &file, bench)?;
        all.passed = all.passed.saturating_add(tally.passed);
        all.failed = all.failed.saturating_add(tally.failed);
    }
    Ok(all)
}

/// Runs all cases, and tells how many pass: how many do not.
pub fn run_all(rt: &(impl Files + Print + AllocGlobal)) -> anyhow::Result<u64> {
    let mut bench = Bench::new(rt.alloc()).map_err(|_| anyhow!("memory ran out"))?;
    let all = run_files(rt, &mut bench)?;
    println!(rt; "{} passed", all.passed)?;
    Ok(all.failed as u64)
}
