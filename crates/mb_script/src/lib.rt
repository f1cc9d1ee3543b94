//! The texts that a user writes for a run: scripts of input and session files.
//!
//! Both readers stand between a file and the machines and know neither. Each grammar is a definition,
//! by lines and words: `script_of` of `specs/Scripts` gives what arrives at which step, and
//! `session_of` of `specs/Sessions` the plan of a board and its guests. `specs/Lines` says what they
//! share: comments, and how a line's fault is told. The lines of a text are those of `mb_lines`.
#![tactic(auto)]

mod arrival;
mod entry;
mod fault;
mod input;
mod number;
mod plan;
mod runs;
mod script;
mod script_line;
mod script_reading;
mod session_line;
mod session_reading;
mod sizes;
mod statement;
mod turn;

pub use entry::Entry;
pub use fault::{LineFault, LineWhy};
pub use input::Input;
pub use plan::{DiskPlan, GuestPlan, SessionPlan};
pub use script::Script;
pub use script_reading::read_script;
pub use session_reading::read_session;
pub use sizes::{
    LEAST_BOARD, LEAST_RAM, MOST_BLOCKS, MOST_BOARD, MOST_GUESTS, MOST_RAM, SIZE_UNIT,
};
pub use turn::Turn;
