//! Files read whole, by what they are, one after the other.
//!
//! A *reading* (`specs/Reading`) is data: it gives something, refuses a file with a reason, or reads a file and goes on
//! by its bytes; so what is read by several files is a do-block of them. `end_of` is what it comes to where each of its
//! files is told, and `Comes` of `specs/Comes` what it comes to by bytes that they may have. Each call here reads a
//! file of one kind and says `IsRead` of `specs/Reads`: what was read is what the reading comes to, or why it was not
//! read.
//! The layers above put readings together, by the laws of `proofs/ReadingLemmas`.
#![tactic(auto)]

mod fault;
mod files;
mod laws;
mod unheld;

pub use fault::{FileFault, FileWhy, Reason};
pub use files::{
    MOST_SNAPSHOT_BYTES, commands_file, image_file, image_if_named, script_if_named, session_file,
    session_file_with, snapshot_file, source_file,
};
pub use laws::readings_follow;
