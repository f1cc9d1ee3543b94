//! The board: a machine that carries out its steps.
//!
//! It is the definition of `def_machine` in code, by the board's own rule of keeping: [`Board`] is seen as that
//! machine, and its calls are that machine's start, steps and runs. Its bus holds RAM, the registers of the memory
//! management unit, the devices and the kept translations; one small function there is one stage of the definition of
//! an access.
#![tactic(auto)]

mod bare;
mod board;
mod board_port;
mod bus;
mod bus_port;
mod calm_bus;
mod following;
mod lending;
mod native;
mod ram;
mod receiving;
mod running;
mod spelling;
mod states;
mod translating;

pub use bare::{before_entry, before_tick};
pub use board::Board;
pub use bus::MOST_BOARD_BYTES;
pub use def_runs::RunEnd;
pub use native::Native;
pub use receiving::{Arrival, place_behind, receive};
pub use states::{state_after, takes_steps};
