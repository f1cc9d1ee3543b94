//! A text as a script.

ghost use Rattle.std.specs.Prelude.{◌≡◌, ◌<◌, ◌≤◌, ◌^◌, ◌+◌, ◌++◌, [], IfErr, IfOk, Ok, OnOk, length};
ghost use Rattle.mb_lines.specs.Answers.{line_said};
ghost use Rattle.mb_script.specs.Lines.{read_by};
ghost use Rattle.mb_script.specs.Runs.{AreKept, kept};
ghost use Rattle.mb_script.specs.Script.{IsInOrder, IsScript};
ghost use Rattle.mb_script.specs.Scripts.{arrival_after, at_step, script_of};
ghost use Rattle.mb_script.specs.Answers.{Faults, Gives, arrival_said, due_said};

use crate::arrival::{Arrival, Due};
use crate::fault::{LineFault, LineWhy, Refusal};
use crate::runs::Runs;
use crate::script::Script;
use crate::script_line::{arrival_of, entries_in};
use crate::statement::next_statement;
use mb_lines::{Line, Lines};
use std::alloc::{AllocError, Global};

/// Reads a script of input: lines `at STEP hex PAIRS`, `at STEP text REST`, `at STEP line REST` and
/// `at STEP abort`, with single spaces between the words.
///
/// What a line says arrives at the beginning of the step STEP, which is 1 to 4,294,967,295 and not smaller
/// than that of the line before: bytes at the terminal, or the abort key. The bytes are PAIRS, pairs of
/// hexadecimal digits, or REST, all that is left of the line, of bytes from $20 to $7E; `line` adds a LF.
/// Empty lines and lines that begin with `#` are passed over, but counted. Of the faults only the first in
/// order of lines is told, and of one line the first in the order of [`LineWhy`].
pub fn read_script(alloc: Global, text: &[u8]) -> Result<Script, LineFault>
    requires { length text.now < 2 ^ 31 }
    ensures script { IfOk result (λ script. script_of text.now ≡ Ok script) }
    ensures fault { IfErr result (λ fault. Faults fault (script_of text.now)) }
{
    Ok(Script::of_runs(runs_of(alloc, text)?))
}

/// The entries of all lines.
fn runs_of(alloc: Global, text: &[u8]) -> Result<Runs, LineFault>
    requires { length text.now < 2 ^ 31 }
    ensures given { Gives kept result (script_of text.now) }
    ensures lawful { IfOk result (λ runs. IsScript (kept runs)) }
    ensures kept { IfOk result AreKept }
{
    let mut runs = room_for(alloc, text)?;
    let mut last = 0;
    let mut lines = Lines::new(text);
    while let Some(line) = next_statement(&mut lines) {
        let arrival = arrival_after(alloc, last, line)?;
        last = arrival.step;
        push_due(&mut runs, arrival.step, &arrival.due)?;
    }
    Ok(runs)
}

/// No entries, with room for those of a text, so that nothing is taken twice while it grows.
fn room_for(alloc: Global, text: &[u8]) -> Result<Runs, AllocError>
    requires { length text.now < 2 ^ 31 }
    ensures kept { IfOk result AreKept }
    ensures none { IfOk result (λ runs. kept runs ≡ []) }
{
    let mut entries: usize = 0;
    let mut runs: usize = 0;
    let mut lines = Lines::new(text);
    while let Some(line) = next_statement(&mut lines) {
        if let Some(more) = entries_in(line.characters) {
            entries = entries.saturating_add(more);
            runs = runs.saturating_add(1);
        }
    }
    Runs::with_room(alloc, entries, runs)
}

/// What a line says behind a line of the step `last`.
fn arrival_after<'a>(alloc: Global, last: u32, line: Line<'a>) -> Result<Arrival<'a>, LineFault>
    ensures given { Gives arrival_said result (read_by (arrival_after last) (line_said line.entry)) }
    ensures later { IfOk result (λ arrival. last ≤ arrival.step) }
    ensures short { IfOk result (λ arrival. length (due_said arrival.due) ≤ length line.entry.characters.now) }
{
    match arrival_of(alloc, line.characters) {
        Ok(arrival) if arrival.step < last => Err(Refusal::Why(LineWhy::Order).at(line.number)),
        Ok(arrival) => Ok(arrival),
        Err(refusal) => Err(refusal.at(line.number)),
    }
}

/// Adds what is due at a step.
fn push_due(runs: &mut Runs, step: u32, due: &Due) -> Result<(), AllocError>
    requires from_one { 1 ≤ step }
    requires in_order { IsInOrder step (kept runs.old) }
    requires few { length (kept runs.old) + length (due_said due.now) < 2 ^ 32 }
    requires kept { AreKept runs.old }
    ensures entries { OnOk result (kept runs.new ≡ kept runs.old ++ at_step step (due_said due.now)) }
    ensures in_order { OnOk result (IsInOrder step (kept runs.new)) }
    ensures kept { OnOk result (AreKept runs.new) }
{
    match due {
        Due::Spelled(bytes) => runs.push_bytes(step, bytes, &[]),
        Due::Text(text) => runs.push_bytes(step, text, &[]),
        Due::WithLineFeed(text) => runs.push_bytes(step, text, b"\n"),
        Due::Abort => runs.push_abort(step),
    }
}
