//! A guest's bus in code: what each access of a guest does, over the guest's part of a board's memory, its devices, its
//! registers of translation and what it keeps, and what the access makes of the guest's shadow.
//!
//! [`GuestPort`] is the guest's bus of `def_guests`, call by call. It stands over any memory, and knows no board.
#![tactic(auto)]

mod bus_port;
mod flushing;
mod memory;
mod port;
mod refilling;
mod translating;

pub use memory::GuestMemory;
pub use port::GuestPort;
