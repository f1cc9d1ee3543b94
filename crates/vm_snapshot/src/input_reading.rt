//! Lines of input.

ghost use Rattle.std.specs.Prelude.{◌≡◌, ◌+◌, ◌<◌, ◌≤◌, ◌++◌, length, map, IfOk, IfErr};
ghost use Rattle.mb_spelling.specs.Admits.{range_of};
ghost use Rattle.mb_spelling.specs.Decimals.{ranged};
ghost use Rattle.mb_spelling.specs.Spelling.{mapped};
ghost use Rattle.mb_spelling.specs.Lists.{read_until};
ghost use Rattle.mb_spelling.specs.Reads.{Reads, lines_to};
ghost use Rattle.vm_snapshot.specs.Inputs.{MOST as most, Abort, any_due as any_due_of, are_bytes as are_bytes_of, behind_line, due_of, entries_in, input_line as line_of, input_lines, inputs, pairs, some_pairs, steps_from as steps_behind};
ghost use Rattle.vm_snapshot.specs.Runs.{due_entries, entries_of, entry_of, lines_of};
ghost use Rattle.vm_snapshot.specs.Views.{ReadsOr, due_seen, line_seen, so_far_seen};
ghost use Rattle.vm_snapshot.specs.declared.refusal.Refusal.TheVariants as refusal;

use crate::dump_reading::byte;
use crate::line;
use crate::refusal::Refusal;
use mb_script::{Entry, Input, Script};
use mb_spelling::{Numerals, Reader, Stop};
use std::alloc::Global;

/// The greatest step, and how many entries a script has at most.
const MOST: u64 = 4_294_967_295;

/// What arrives by a line.
#[derive(Drop)]
pub(crate) enum Due {
    Bytes(Vec<u8>),
    Abort,
}

/// A line of input.
#[derive(Drop)]
pub(crate) struct InputLine {
    pub(crate) step: u32,
    pub(crate) due: Due,
}

/// What came before a line.
#[derive(Clone, Copy)]
pub(crate) struct SoFar {
    /// The last step; 0 before the first line.
    pub(crate) last: u32,
    /// Whether its line had bytes.
    pub(crate) bytes: bool,
    /// How many entries there were.
    pub(crate) total: u64,
}

/// Reads bytes, at most so many, and the end of the line.
fn more_bytes(reader: &mut Reader, bytes: &mut Vec<u8>, most: u64) -> Result<(), Refusal>
    ensures reads { ReadsOr (λ _. bytes.new.items) result reader.new.left
        (mapped (λ later. bytes.old.items ++ later) (read_until pairs most tt reader.old.left)) }
    ensures few { IfOk result (λ _. length bytes.new.items ≤ length bytes.old.items + most) }
    ensures lines { lines_to reader.new ≡ lines_to reader.old }
{
    let mut more = most;
    while more > 0 && !reader.is_at(b'\n') {
        let next = byte(reader)?;
        bytes.push(next)?;
        more -= 1;
    }
    reader.word(b"\n")?;
    Ok(())
}

/// Reads one byte or more, at most so many, and the end of the line.
fn some_bytes(alloc: Global, reader: &mut Reader, room: u64) -> Result<Vec<u8>, Refusal>
    requires { 0 < room }
    ensures reads { ReadsOr (λ bytes. bytes.items) result reader.new.left ((some_pairs room).read reader.old.left) }
    ensures few { IfOk result (λ bytes. length bytes.items ≤ room) }
    ensures lines { lines_to reader.new ≡ lines_to reader.old }
{
    let mut bytes = Vec::new(alloc);
    let first = byte(reader)?;
    bytes.push(first)?;
    more_bytes(reader, &mut bytes, room - 1)?;
    Ok(bytes)
}

/// Reads what is due by a line that may stand for so many entries.
fn any_due(alloc: Global, reader: &mut Reader, room: u64) -> Result<Due, Refusal>
    requires { 0 < room }
    ensures reads { ReadsOr due_seen result reader.new.left ((any_due_of room).read reader.old.left) }
    ensures few { IfOk result (λ due. entries_in (due_seen due) ≤ room) }
    ensures lines { lines_to reader.new ≡ lines_to reader.old }
{
    if reader.is_at(b'a') {
        reader.word(b"abort\n")?;
        return Ok(Due::Abort);
    }
    reader.word(b"hex ")?;
    let bytes = some_bytes(alloc, reader, room)?;
    Ok(Due::Bytes(bytes))
}

/// The same; behind bytes of the same step there is nothing but an abort.
fn read_due(alloc: Global, reader: &mut Reader, room: u64, only_abort: bool) -> Result<Due, Refusal>
    requires { 0 < room }
    ensures reads { ReadsOr due_seen result reader.new.left ((due_of room only_abort).read reader.old.left) }
    ensures few { IfOk result (λ due. entries_in (due_seen due) ≤ room) }
    ensures lines { lines_to reader.new ≡ lines_to reader.old }
{
    if !only_abort {
        return any_due(alloc, reader, room);
    }
    reader.word(b"abort\n")?;
    Ok(Due::Abort)
}

/// The steps that a line can have.
fn steps_from(so_far: SoFar) -> Numerals
    ensures range { range_of result ≡ steps_behind (so_far_seen so_far) }
    ensures small { result.most ≤ most }
    ensures unit { result.unit ≡ 1 }
{
    Numerals::from_to(u64::from(1.max(so_far.last)), MOST)
}

/// Reads the step of a line, and the space behind it.
fn step(reader: &mut Reader, so_far: SoFar) -> Result<u32, Stop>
    ensures reads { Reads (λ step. step) result reader.new.left
        ((ranged (steps_behind (so_far_seen so_far)) 32).read reader.old.left) }
    ensures lines { lines_to reader.new ≡ lines_to reader.old }
{
    let step = reader.decimal(&steps_from(so_far), b' ')?;
    Ok(step as u32)
}

/// Reads a line that may stand for so many entries.
fn input_line(
    alloc: Global,
    reader: &mut Reader,
    room: u64,
    so_far: SoFar,
) -> Result<InputLine, Refusal>
    requires { 0 < room }
    ensures reads { ReadsOr line_seen result reader.new.left
        ((line_of room (so_far_seen so_far)).read reader.old.left) }
    ensures few { IfOk result (λ line. entries_in (due_seen line.due) ≤ room) }
    ensures lines { lines_to reader.new ≡ lines_to reader.old }
{
    reader.word(b"at ")?;
    let step = step(reader, so_far)?;
    let only_abort = step == so_far.last && so_far.bytes;
    let due = read_due(alloc, reader, room, only_abort)?;
    Ok(InputLine { step, due })
}

impl Due {
    fn are_bytes(&self) -> bool
        ensures { result ≡ are_bytes_of (due_seen self.now) }
    {
        match self {
            Due::Bytes(_) => true,
            Due::Abort => false,
        }
    }

    /// How many entries of a script it stands for.
    fn count(&self) -> u64
        ensures { result ≡ entries_in (due_seen self.now) }
    {
        match self {
            Due::Bytes(bytes) => bytes.len() as u64,
            Due::Abort => 1,
        }
    }
}

/// What came before the next line.
fn behind(so_far: SoFar, line: &InputLine) -> SoFar
    requires { so_far.total + entries_in (due_seen line.now.due) ≤ most }
    ensures { so_far_seen result ≡ behind_line (so_far_seen so_far) (line_seen line.now) }
{
    SoFar {
        last: line.step,
        bytes: line.due.are_bytes(),
        total: so_far.total + line.due.count(),
    }
}

/// Adds bytes that arrive at a step.
fn push_bytes(entries: &mut Vec<Entry>, step: u32, bytes: &[u8]) -> Result<(), Refusal>
    ensures added { IfOk result (λ _. entries.new.items ≡ entries.old.items ++ map (entry_of step) bytes.now) }
    ensures refused { IfErr result (λ e. e ≡ refusal.Memory) }
{
    for &byte in bytes {
        entries.push(Entry {
            step,
            input: Input::Byte(byte),
        })?;
    }
    Ok(())
}

/// Adds an abort at a step.
fn push_abort(entries: &mut Vec<Entry>, step: u32) -> Result<(), Refusal>
    ensures added { IfOk result (λ _. entries.new.items ≡ entries.old.items ++ due_entries step Abort) }
    ensures refused { IfErr result (λ e. e ≡ refusal.Memory) }
{
    entries.push(Entry {
        step,
        input: Input::Abort,
    })?;
    Ok(())
}

/// Adds the entries of a line.
fn push_entries(entries: &mut Vec<Entry>, line: &InputLine) -> Result<(), Refusal>
    ensures added { IfOk result (λ _. entries.new.items
        ≡ entries.old.items ++ due_entries line.now.step (due_seen line.now.due)) }
    ensures refused { IfErr result (λ e. e ≡ refusal.Memory) }
{
    match &line.due {
        Due::Bytes(bytes) => push_bytes(entries, line.step, bytes),
        Due::Abort => push_abort(entries, line.step),
    }
}

/// Reads so many lines, and gives the entries that they stand for.
fn entries(alloc: Global, reader: &mut Reader, count: u64) -> Result<Vec<Entry>, Refusal>
    requires { count ≤ most }
    ensures reads { ReadsOr (λ entries. entries.items) result reader.new.left
        (mapped entries_of ((input_lines count).read reader.old.left)) }
    ensures lines { lines_to reader.new ≡ lines_to reader.old }
{
    let mut entries = Vec::new(alloc);
    let mut so_far = SoFar {
        last: 0,
        bytes: false,
        total: 0,
    };
    let mut left = count;
    while left > 0 {
        left -= 1;
        let line = input_line(alloc, reader, MOST - so_far.total - left, so_far)?;
        push_entries(&mut entries, &line)?;
        so_far = behind(so_far, &line);
    }
    Ok(entries)
}

/// Reads how many lines there are, and the lines.
pub(crate) fn input(alloc: Global, reader: &mut Reader) -> Result<Script, Refusal>
    ensures reads { ReadsOr (λ script. lines_of script) result reader.new.left (inputs.read reader.old.left) }
    ensures lines { lines_to reader.new ≡ lines_to reader.old }
{
    let count = line::between(reader, b"input ", 0, MOST)?;
    let entries = entries(alloc, reader, count)?;
    Ok(Script::new(entries))
}
