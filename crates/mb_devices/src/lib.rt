//! The devices of the board: the serial line with its receive queue and its console, the timer, the
//! power switch, the size of memory, and the disk, where one is attached.
//!
//! A part: it knows neither processor nor memory. A board asks it for the register at a physical place,
//! tells it each step and each received byte, and reads the level of the interrupt that it asks for.
//! `specs/Devices` says what happens to the devices, `specs/Registers` has the table of their registers.
#![tactic(auto)]

mod devices;
mod disk_slot;
mod laws;
mod register;

pub use devices::{CONSOLE_ROOM, Devices, QUEUE_ROOM};
pub use laws::ticks_pass;
pub use register::Register;
