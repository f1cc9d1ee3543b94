//! What is saved of a guest's machine, but for its disk.
//!
//! A term crate: a [`SavedGuest`] has what a snapshot tells, and `specs/Saved` says which are lawful. `specs/Lines` has
//! the lines of a memory, and the memory of lines.
#![tactic(auto)]

ghost use Rattle.mb_saved.specs.Lines.{LinesAscend, LinesLieInMemory, MemoryIsGivenBack};

mod lawful;
mod line;
mod rooms;
mod saved;

pub use line::RamLine;
pub use rooms::{LINE_BYTES, MOST_QUEUED, MOST_RAM, MOST_SENT, RAM_UNIT};
pub use saved::SavedGuest;

/// Memory is told by its lines.
pub fn lines_tell_memory()
    ensures back { MemoryIsGivenBack }
    ensures inside { LinesLieInMemory }
    ensures in_order { LinesAscend }
{}
