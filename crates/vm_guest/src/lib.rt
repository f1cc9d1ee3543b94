//! One guest on a board.
//!
//! [`Guest`] holds a guest's processor, its registers of translation, its devices, what it keeps, and which tables of
//! its shadow stand; the board holds its RAM and the tables behind it. Its model is the guest of `def_guests` on a
//! board, and a turn takes the steps that are defined there. The board's processor carries out every step that is
//! retired; what it leaves, and what it has no part in, the monitor carries out, over the guest's bus of `vm_port`.
#![tactic(auto)]

mod adopting;
mod classes;
mod counts;
mod direct;
mod guest;
mod lending;
mod loading;
mod readying;
mod refilling;
mod rest;
mod session;
mod stepping;
mod turn_end;
mod turns;

ghost use Rattle.vm_guest.specs.Joining.{GuestsJoin};

pub use counts::Counts;
pub use guest::Guest;
pub use session::{Session, SessionDisk, SessionGuest};
pub use turn_end::TurnEnd;

/// A guest that is prepared apart from all others leaves them seated and as they were.
pub fn guests_join()
    ensures { GuestsJoin }
{}
