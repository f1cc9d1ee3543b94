//! Snapshots.
#![tactic(auto)]

ghost use Rattle.vm_snapshot.specs.Laws.{FaultsAreOne, SnapshotsAreRead};
ghost use Rattle.vm_snapshot.specs.Runs.{LinesSayEntries, LinesAreRuns, RunsAreLines};
ghost use Rattle.vm_snapshot.specs.Dumps.{DumpsAreRows};
ghost use Rattle.vm_snapshot.specs.Fronts.{DisksAreWritten, FrontsAreWritten};
ghost use Rattle.vm_snapshot.specs.Scripts.{InputsAreScripts};
ghost use Rattle.vm_snapshot.specs.Shown.{GuestsAreTold, TextsSayOnePlan};
ghost use Rattle.vm_snapshot.specs.Memories.{LinesAreMemory};
ghost use Rattle.vm_snapshot.specs.Outcomes.{OutcomesAreWritten};

mod counts;
mod device_reading;
mod disk_reading;
mod dump_reading;
mod free_pages;
mod guest_reading;
mod guest_writing;
mod input_reading;
mod input_writing;
mod kept_reading;
mod line;
mod memory_reading;
mod plan;
mod progress_reading;
mod reading;
mod refusal;
mod register_reading;
mod told;
mod widths;

pub use guest_writing::{write_guest, write_head};
pub use plan::{SnapFault, SnapGuest, SnapPlan};
pub use reading::read_snapshot;

/// A snapshot's text is read back, and of every other text the first line is told up to which it begins none.
pub fn snapshots_are_read()
    ensures read { SnapshotsAreRead }
    ensures faults { FaultsAreOne }
{}

/// The lines of input that are written for entries of a script say these entries, and no other lines do.
pub fn lines_are_one_spelling()
    ensures says { LinesSayEntries }
    ensures runs { LinesAreRuns }
    ensures back { RunsAreLines }
    ensures lawful { InputsAreScripts }
{}

/// What the grammar writes for a guest are the lines that are written for it: bytes, memories, what comes before an
/// outcome, the outcome text, and a disk's.
pub fn texts_are_the_same()
    ensures dumps { DumpsAreRows }
    ensures memory { LinesAreMemory }
    ensures outcomes { OutcomesAreWritten }
    ensures fronts { FrontsAreWritten }
    ensures disks { DisksAreWritten }
{}

/// What is written of guests of which a snapshot can be written is one, which says just these; and a text says one plan
/// alone.
pub fn guests_are_told()
    ensures told { GuestsAreTold }
    ensures once { TextsSayOnePlan }
{}
