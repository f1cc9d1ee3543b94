//! Exception frames: what each holds, and its bytes on the stack.
//!
//! A term crate over `mb_port`. Entry stacks frames and the return from exception reads them; the
//! definitions of a frame's bytes and of the fields of an access error stand in specs/.
#![tactic(auto)]

mod bytes;
mod frame;
mod laws;
mod pend;
mod places;
mod source;
mod status_bits;

pub use bytes::{from_bytes, to_bytes};
pub use frame::{Access, Frame};
pub use laws::{no_trace_bit, worked_frames};
pub use pend::Pend;
pub use places::{FIELDS_PLACE, FORMAT_PLACE, LONGEST, LONGS, PC_PLACE, SR_PLACE};
pub use source::{FieldSource, access_by};
pub use status_bits::{ATC, CM, CT, LK, MA, RW, SIZE, TT, V};
