//! Motorola S-records: a text with data at addresses, as a program to be loaded comes.
//!
//! [`read_image`] stands between a file and a memory: it knows neither, and the layers above load
//! the chunks of its [`Image`]. The grammar is the definition `records_of` of `specs/Records`, by
//! lines and records; [`write_records`] gives the text that `specs/Written` defines, which reads back
//! as the same bytes.
#![tactic(auto)]

mod fault;
mod image;
mod kind;
mod loading;
mod reading;
mod record;
mod writing;

pub use fault::{ImageFault, RecordWhy};
pub use image::{Chunk, Image};
pub use loading::put_chunks;
pub use reading::read_image;
pub use writing::{write_records, written_reads_back};
