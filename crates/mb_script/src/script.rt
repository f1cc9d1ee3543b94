//! Input by steps.

ghost use Rattle.std.specs.Prelude.{◌≡◌, slice_get};

use crate::entry::Entry;
use crate::runs::Runs;
use std::marker::Model;

/// How the entries are kept.
#[derive(Debug, Drop)]
pub(crate) enum Kept {
    /// As they were handed in.
    Whole(Vec<Entry>),
    /// As they were read from a text.
    InRuns(Runs),
}

/// What arrives, and before which step: a list of entries.
///
/// Steps count from 1 and never fall, and there are fewer than 2^32 entries.
#[derive(Debug, Drop)]
pub struct Script {
    kept: Kept,
}

impl Model for Script {
    ghost use Rattle.mb_script.specs.Script.{Entries};

    ghost Value = { Entries };

    ghost use Rattle.mb_script.specs.Kept.{IsKept, shown};

    ghost view = { λ script. shown script.kept };

    ghost invariant = { λ script. IsKept script.kept };
}

impl Script {
    ghost use Rattle.std.specs.Prelude.{length};
    ghost use Rattle.mb_script.specs.Runs.{AreKept, kept};
    ghost use Rattle.mb_script.specs.Script.{IsScript};

    pub fn new(entries: Vec<Entry>) -> Script
        requires { IsScript entries.items }
        ensures { result ≡ entries.items }
    {
        Script {
            kept: Kept::Whole(entries),
        }
    }

    /// The entries of runs.
    pub(crate) fn of_runs(runs: Runs) -> Script
        requires lawful { IsScript (kept runs) }
        requires kept { AreKept runs }
        ensures { result ≡ kept runs }
    {
        Script {
            kept: Kept::InRuns(runs),
        }
    }

    /// The number of entries.
    pub fn count(&self) -> u32
        ensures counted { result ≡ length self.now }
        ensures lawful { IsScript self.now }
    {
        let count = match &self.kept {
            Kept::Whole(entries) => entries.len(),
            Kept::InRuns(runs) => runs.count(),
        };
        count as u32
    }

    /// The entry at a place. Places count from 0.
    pub fn entry(&self, place: u32) -> Option<Entry>
        ensures { result ≡ slice_get self.now place }
    {
        match &self.kept {
            Kept::Whole(entries) => entries.get(place as usize).copied(),
            Kept::InRuns(runs) => runs.entry(place),
        }
    }
}
