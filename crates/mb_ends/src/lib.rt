//! How a run ends: its status, and what it says on diag.
#![tactic(auto)]

mod diagnosis;
mod end;

pub use diagnosis::{status, tell};
pub use end::End;
