//! What the program reads from and writes to: shelves of files, and sinks for bytes.
//!
//! A term crate. A shelf may tell its files and a sink the bytes that it took; contracts above speak
//! of those, and of the counts of faults. `MemShelf` and `MemSink` tell all; `NoFailShelf` and
//! `NoFailSink` never fail; `FileShelf` and `StdSink` are the real ones, tell nothing and are trusted.
//! On them stand `load`, which reads a whole file, and `put_all` and `put_more`, which write whole texts.
#![tactic(auto)]

mod files;
mod loads;
mod memory;
mod print;
mod quiet;
mod shelf;
mod sink;
mod streams;

pub use files::FileShelf;
pub use loads::{LoadFault, load};
pub use memory::{MemShelf, MemSink, Memory};
pub use print::{SinkFault, put_all, put_more};
pub use quiet::{NoFailShelf, NoFailSink};
pub use shelf::{Shelf, ShelfFault};
pub use sink::{Failed, Sink};
pub use streams::StdSink;
