//! The machine: its state, its bus by a rule of keeping, its start from an image and a disk, its steps and its runs, in
//! definitions.
//!
//! Whatever the program prints is said of [`specs/Machine`]; the board above carries it out. `specs/Access` has where
//! a reference to memory leads, one stage a definition, and `specs/Bus` the calls of the bus. The code has the words
//! for a reference, and the laws of the bus and of runs.
#![tactic(auto)]

mod laws;
mod lines;
mod places;
mod reference;
mod registers;
mod settling;

pub use laws::{
    accesses_stand_beneath, devices_keep_their_build, entries_are_stacked, memory_keeps_its_size,
    memory_stays_bytes, refused_accesses,
};
pub use lines::{store_line, take_line};
pub use places::{in_ram, store, take, takes_writes};
pub use reference::{Reference, Settled};
pub use registers::{MMU_AT_RESET, MMUSR_MATCHED};
pub use settling::{admits, by_entry, marks, root, through, untranslated};
