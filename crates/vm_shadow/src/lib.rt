//! A guest's shadow: translation tables in the board's memory, which map what the guest may use there by itself.
//!
//! A guest's bus stands on it.
#![tactic(auto)]

mod area;
mod laws;
mod nodes;
mod shadow;
mod table;

pub use area::AREA_BYTES;
pub use laws::{
    entries_are_listed, searches_find_entries, tables_are_needed, tables_are_of_the_area,
};
pub use shadow::Shadow;
pub use table::Table;
