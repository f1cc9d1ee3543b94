//! The instructions that go elsewhere, over any bus, one small function a row.
//!
//! Each function does what its routine of `def_instructions` does, whatever the bus.
#![tactic(auto)]

mod bounds;
mod branches;
mod jumps;
mod loops;
mod performing;
mod returns;
mod traps;

pub use branches::{go_if_met, is_call, target};
pub use loops::dbcc;
pub use performing::{perform_flow, perform_flow_in_place};
