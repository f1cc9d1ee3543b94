//! The privileged instructions over any bus, one small function a row; RTE is not among them.
//!
//! Each function does what its routine of `def_processor` does, whatever the bus. The rows work on the whole processor.
#![tactic(auto)]

mod control;
mod finishing;
mod performing;
mod spaces;
mod status;

pub use performing::perform_system;
