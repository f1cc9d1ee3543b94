//! Exceptions: their entry, the return from them, and what the frame of an access error holds.
//!
//! Each function does what its routine of `def_processor` or its definition of `mb_frames` says, whatever the bus.
#![tactic(auto)]

mod entering;
mod fields;
mod frame_longs;
mod places;
mod returning;
mod stacking;
mod status;
mod taking;

pub use def_processor::{Cause, Entered};
pub use entering::enter;
pub use fields::{check_fields, line_fields, movem_fields, read_fields, write_fields};
pub use returning::{return_from, return_held};
pub use taking::continues;
