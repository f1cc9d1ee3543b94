//! The state of a machine, as its outcome shows it.
//!
//! A term crate: the definition of the machine, the board and the texts stand on it.
#![tactic(auto)]

mod keeping;
mod kept;
mod laws;
mod outcome;
mod pages;
mod processor;
mod rules;
mod status;

pub use keeping::{entry_in, place_in};
pub use kept::Kept;
pub use laws::{found_after_a_fill, found_after_a_flush};
pub use outcome::{Outcome, RunState};
pub use pages::{PAGE_SIZE, has_big_pages, other_half, page_of, page_size_by};
pub use processor::Cpu;
pub use rules::{CAPACITY, CLASSES, GUEST_CAPACITY, SIDE_CLASSES};
pub use status::{NON_MASKABLE, STATUS_BITS, kept_status};
