//! Translation of pages: the transparent registers, and the search through the tables in memory.
//!
//! The board and each guest's bus stand on it.
#![tactic(auto)]

mod descriptors;
mod found;
mod laws;
mod longs;
mod numbers;
mod quiet;
mod ram;
mod searching;
mod transparency;

pub use descriptors::{PageDescriptor, TableDescriptor};
pub use found::Found;
pub use laws::{
    parts_of_memory, searches_name_their_page, searches_repeat, searches_stay_inside,
    writes_of_memory,
};
pub use longs::{long_at, set_long_at, size_of};
pub use numbers::{number_at, overwrite, set_number_at};
pub use quiet::quiet_search;
pub use ram::Ram;
pub use searching::{TABLE_BYTES, search};
pub use transparency::transparent;
