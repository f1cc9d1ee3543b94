//! One step of the processor, over any bus: the entry of an interrupt, an idle tick, or an instruction with the
//! exceptions that it causes.
//!
//! Each function here does what its routine of `def_processor` does, whatever the bus. A [`Processor`] keeps the
//! registers that user mode sees where instructions work on them. An instruction is carried out where it was decoded,
//! on these registers in place; those before it stand beside, the only copy that a step makes. Exceptions are entered,
//! and returned from, with the processor put together, in functions that stand outside the way of a step that has none.
#![tactic(auto)]

mod apart;
mod decoder;
mod executing;
mod fetching;
mod finishing;
mod performing;
mod processor;
mod raising;
mod returning;
mod stepping;

pub use decoder::Decoder;
pub use def_processor::{Finish, StepEnd};
pub use mb_short::{Follower, Nobody};
pub use performing::perform;
pub use processor::Processor;
pub use raising::{access_error, unchecked};
pub use stepping::{rank, step, step_at_once, step_by_row, step_in_place, step_to_finish};
