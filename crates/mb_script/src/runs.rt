//! The entries of a text, in little memory: a byte for each, and what the entries of a line have in common once.

ghost use Rattle.std.specs.Prelude.{◌≡◌, ◌+◌, ◌*◌, ◌<◌, ◌≤◌, ◌^◌, ◌++◌, ◌∷◌, All, IfOk, OnOk, [], length, map};
ghost use Rattle.mb_script.specs.Runs.{AreStarts};

use crate::entry::Entry;
use crate::input::Input;
use std::alloc::{AllocError, Global};

/// So many places have one start.
const STRETCH: usize = 16;

/// Entries of one line.
#[derive(Clone, Copy, Debug)]
pub(crate) struct Run {
    /// The step of each.
    step: u32,
    /// The place behind the last.
    end: u32,
    /// They are the abort key, and their bytes say nothing.
    aborts: bool,
}

/// Entries in runs.
#[derive(Debug, Drop)]
pub(crate) struct Runs {
    bytes: Vec<u8>,
    runs: Vec<Run>,
    /// For each stretch of places the run from which on they are looked for.
    starts: Vec<usize>,
}

impl Run {
    ghost use Rattle.mb_script.specs.Runs.{entry_in};

    /// The entry of a byte.
    fn entry(self, byte: u8) -> Entry
        ensures { result ≡ entry_in self byte }
    {
        let input = if self.aborts {
            Input::Abort
        } else {
            Input::Byte(byte)
        };
        Entry {
            step: self.step,
            input,
        }
    }
}

impl Runs {
    ghost use Rattle.std.specs.Prelude.{slice_get, true, false};
    ghost use Rattle.mb_script.specs.Runs.{AreKept, entry_by, kept, run_at};
    ghost use Rattle.mb_script.specs.Scripts.{at_step, typed};
    ghost use Rattle.mb_script.specs.declared.input.Input.TheVariants.{Abort};

    /// No entries, with room for so many, in so many runs.
    #[tactic(auto, using(crate::proofs::InRuns::none_kept, crate::proofs::InRuns::none_there))]
    pub(crate) fn with_room(alloc: Global, entries: usize, runs: usize) -> Result<Runs, AllocError>
        ensures kept { IfOk result AreKept }
        ensures none { IfOk result (λ runs. kept runs ≡ []) }
    {
        Ok(Runs {
            bytes: Vec::with_capacity(alloc, entries)?,
            runs: Vec::with_capacity(alloc, runs)?,
            starts: Vec::with_capacity(alloc, entries / STRETCH + 1)?,
        })
    }

    /// The number of entries.
    #[tactic(auto, using(crate::proofs::InRuns::counted))]
    pub(crate) fn count(&self) -> usize
        ensures { result ≡ length (kept self.now) }
    {
        self.bytes.len()
    }

    /// The byte of the entry at a place.
    fn byte(&self, place: u32) -> Option<u8>
        ensures { result ≡ slice_get self.now.bytes.items place }
    {
        self.bytes.get(place as usize).copied()
    }

    /// The entry at a place.
    pub(crate) fn entry(&self, place: u32) -> Option<Entry>
        requires { AreKept self.now }
        ensures { result ≡ slice_get (kept self.now) place }
    {
        match self.byte(place) {
            None => None,
            Some(byte) => Some(self.run_at(place).entry(byte)),
        }
    }

    /// The run of the entry at a place.
    fn run_at(&self, place: u32) -> Run
        requires kept { AreKept self.now }
        requires within { place < length self.now.bytes.items }
        ensures { result ≡ run_at place self.now.runs.items }
    {
        let mut at = self.starts[place as usize / STRETCH];
        while self.runs[at].end <= place {
            at += 1;
        }
        self.runs[at]
    }

    /// Adds bytes that arrive at a step, and those behind them.
    #[tactic(auto, using(crate::proofs::InRuns::at_step_mapped))]
    pub(crate) fn push_bytes(
        &mut self,
        step: u32,
        bytes: &[u8],
        behind: &[u8],
    ) -> Result<(), AllocError>
        requires kept { AreKept self.old }
        requires few { length (kept self.old) + length bytes.now + length behind.now < 2 ^ 32 }
        ensures kept { OnOk result (AreKept self.new) }
        ensures entries { OnOk result
            (kept self.new ≡ kept self.old ++ at_step step (typed (bytes.now ++ behind.now))) }
    {
        self.push(step, false, bytes, behind)
    }

    /// Adds the abort key.
    pub(crate) fn push_abort(&mut self, step: u32) -> Result<(), AllocError>
        requires kept { AreKept self.old }
        requires few { length (kept self.old) + 1 < 2 ^ 32 }
        ensures kept { OnOk result (AreKept self.new) }
        ensures entries { OnOk result (kept self.new ≡ kept self.old ++ at_step step (Abort ∷ [])) }
    {
        self.push(step, true, &[0], &[])
    }

    /// Adds a run of the bytes, unless there are none.
    #[tactic(auto, using(crate::proofs::InRuns::counted))]
    fn push(
        &mut self,
        step: u32,
        aborts: bool,
        bytes: &[u8],
        behind: &[u8],
    ) -> Result<(), AllocError>
        requires kept { AreKept self.old }
        requires few { length (kept self.old) + length bytes.now + length behind.now < 2 ^ 32 }
        ensures kept { OnOk result (AreKept self.new) }
        ensures entries { OnOk result
            (kept self.new ≡ kept self.old ++ map (entry_by step aborts) (bytes.now ++ behind.now)) }
    {
        let count = self.bytes.len() + bytes.len() + behind.len();
        if count == self.bytes.len() {
            return Ok(());
        }
        serve(&mut self.starts, &self.runs, count)?;
        self.bytes.extend_from_slice(bytes)?;
        self.bytes.extend_from_slice(behind)?;
        self.runs.push(Run {
            step,
            end: count as u32,
            aborts,
        })?;
        Ok(())
    }
}

/// Gives each stretch of so many places a start; places behind all runs start behind the last.
fn serve(starts: &mut Vec<usize>, runs: &[Run], count: usize) -> Result<(), AllocError>
    requires ended { All (λ run. run.end ≤ 16 * length starts.old.items) runs.now }
    requires started { AreStarts runs.now starts.old.items }
    ensures started { OnOk result (AreStarts runs.now starts.new.items) }
    ensures served { OnOk result (count ≤ 16 * length starts.new.items) }
{
    while starts.len() < count.div_ceil(STRETCH) {
        starts.push(runs.len())?;
    }
    Ok(())
}
