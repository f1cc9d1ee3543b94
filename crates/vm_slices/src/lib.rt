//! All guests of a session on one board.
//!
//! [`Host`] holds the board and the guests, each on its own part of the board's memory behind the monitor's. Its
//! clauses speak of the guests as the members of a session of `def_guests`, each with its own machine and shadow, and
//! not of the board or the places on it. Rounds of turns are those that are defined there.
#![tactic(auto)]

mod adopting;
mod fit;
mod host;
mod host_guest;
mod lending;
mod open_fault;
mod rounds;

pub use fit::judge_fit;
pub use host::Host;
pub use open_fault::OpenFault;
pub use vm_guest::{Session, SessionDisk, SessionGuest};
