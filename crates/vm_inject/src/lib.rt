//! The rest of a step that a board began for a guest, over any port: what the board's frame says of the step, and what
//! follows from the point that it came to.
//!
//! Knows neither board nor shadow. Each finish does what its routine of `def_runs` does, whatever the bus.
#![tactic(auto)]

mod causes;
mod finishing;
mod leaving;

pub use causes::cause_of;
pub use def_runs::LeftOver;
pub use finishing::{finish_line, finish_movem, finish_trap, finish_writes};
pub use leaving::left_in;
