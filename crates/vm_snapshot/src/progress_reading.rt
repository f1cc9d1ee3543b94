//! The lines of what a machine has done.

ghost use Rattle.std.specs.Prelude.{◌≡◌, ◌≤◌, ◌++◌, length, codes, decimal, IfOk};
ghost use Rattle.mb_spelling.specs.Spelling.{behind};
ghost use Rattle.mb_spelling.specs.Decimals.{from_to};
ghost use Rattle.mb_spelling.specs.Lists.{listed};
ghost use Rattle.mb_spelling.specs.Admits.{range_of};
ghost use Rattle.mb_spelling.specs.Reads.{Reads, lines_to};
ghost use Rattle.vm_snapshot.specs.Guests.{named, progress as progress_of, states, steps_below as steps_before};
ghost use Rattle.vm_snapshot.specs.Memory.{dump as dump_of};
ghost use Rattle.vm_snapshot.specs.Runs.{lines_of};
ghost use Rattle.vm_snapshot.specs.Views.{ReadsOr, progress_seen};

use crate::dump_reading::dump;
use crate::line;
use crate::refusal::Refusal;
use arrayvec::ArrayVec;
use mb_model::RunState;
use mb_saved::{MOST_QUEUED, MOST_SENT};
use mb_script::Script;
use mb_spelling::{Numerals, Reader, Stop};
use std::alloc::Global;

/// What a machine has done, and its terminal.
#[derive(Drop)]
pub(crate) struct Progress {
    pub(crate) state: RunState,
    pub(crate) steps: u32,
    pub(crate) console: Vec<u8>,
    pub(crate) lost: u64,
    pub(crate) queue: ArrayVec<u8, 16>,
}

/// Reads what the machine does at its next step, and the end of the line.
fn state(reader: &mut Reader) -> Result<RunState, Stop>
    ensures reads { Reads (λ state. state) result reader.new.left (states.read reader.old.left) }
    ensures lines { lines_to reader.new ≡ lines_to reader.old }
{
    if reader.is_at(b'r') {
        reader.word(b"running\n")?;
        return Ok(RunState::Running);
    }
    if reader.is_at(b's') {
        reader.word(b"stopped\n")?;
        return Ok(RunState::Stopped);
    }
    if reader.is_at(b'h') {
        reader.word(b"halted\n")?;
        return Ok(RunState::Halted);
    }
    reader.word(b"off\n")?;
    Ok(RunState::Off)
}

/// Reads the number of the guest, and its state.
fn heading(reader: &mut Reader, guest: u8) -> Result<RunState, Stop>
    ensures reads { Reads (λ state. state) result reader.new.left
        ((behind (codes "guest " ++ (decimal guest ++ codes "\nstate ")) states).read reader.old.left) }
    ensures lines { lines_to reader.new ≡ lines_to reader.old }
{
    line::numbered(reader, b"guest ", guest, b"\nstate ")?;
    state(reader)
}

/// The steps that can have been taken where such input is still to come.
#[tactic(auto, using(crate::proofs::Entered::below_first, crate::proofs::Entered::below_none))]
fn steps_below(script: &Script) -> Numerals
    ensures range { range_of result ≡ steps_before (lines_of script.now) }
    ensures small { result.most ≤ 4294967295 }
    ensures unit { result.unit ≡ 1 }
{
    match script.entry(0) {
        None => Numerals::from_to(0, 4_294_967_295),
        Some(first) => Numerals::from_to(0, u64::from(first.step.saturating_sub(1))),
    }
}

/// Reads the steps that were taken, with such input still to come.
fn steps(reader: &mut Reader, script: &Script) -> Result<u32, Stop>
    ensures reads { Reads (λ steps. steps) result reader.new.left
        ((named (codes "steps") (steps_before (lines_of script.now))).read reader.old.left) }
    ensures lines { lines_to reader.new ≡ lines_to reader.old }
{
    let steps = line::named(reader, b"steps ", &steps_below(script))?;
    Ok(steps as u32)
}

/// Reads how many bytes there are, at most so many, and the bytes.
fn dumped(alloc: Global, reader: &mut Reader, name: &[u8], most: usize) -> Result<Vec<u8>, Refusal>
    ensures reads { ReadsOr (λ bytes. bytes.items) result reader.new.left
        ((behind name.now (listed (from_to 0 most) 10 dump_of)).read reader.old.left) }
    ensures few { IfOk result (λ bytes. length bytes.items ≤ most) }
    ensures lines { lines_to reader.new ≡ lines_to reader.old }
{
    let count = line::between(reader, name, 0, most as u64)?;
    dump(alloc, reader, count)
}

/// Reads the queue.
fn queued(alloc: Global, reader: &mut Reader) -> Result<ArrayVec<u8, 16>, Refusal>
    ensures reads { ReadsOr (λ queue. queue.items) result reader.new.left
        ((behind (codes "queue ") (listed (from_to 0 16) 10 dump_of)).read reader.old.left) }
    ensures lines { lines_to reader.new ≡ lines_to reader.old }
{
    let bytes = dumped(alloc, reader, b"queue ", MOST_QUEUED)?;
    let mut queue = ArrayVec::new();
    let _fits = queue.try_extend_from_slice(&bytes);
    Ok(queue)
}

/// Reads the lines from `guest` to the queue.
pub(crate) fn read_progress(
    alloc: Global,
    reader: &mut Reader,
    guest: u8,
    script: &Script,
) -> Result<Progress, Refusal>
    ensures reads { ReadsOr progress_seen result reader.new.left
        ((progress_of guest (lines_of script.now)).read reader.old.left) }
    ensures lines { lines_to reader.new ≡ lines_to reader.old }
{
    let state = heading(reader, guest)?;
    let steps = steps(reader, script)?;
    let console = dumped(alloc, reader, b"console ", MOST_SENT)?;
    let lost = line::between(reader, b"lost ", 0, u64::MAX)?;
    let queue = queued(alloc, reader)?;
    Ok(Progress {
        state,
        steps,
        console,
        lost,
        queue,
    })
}
