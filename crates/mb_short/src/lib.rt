//! Instructions in short, carried out at once.
//!
//! Each form of [`mb_table::Short`] has an arm here, which does what the row of its instruction does, where that asks
//! nothing of the bus but what is known at once. Where it is not, nothing has changed, and the row is carried out as
//! any other. So this is no second meaning of instructions: every arm has the equation of a row, and whoever leaves
//! all arms out has the same machine.
#![tactic(auto)]

mod addresses;
mod branches;
mod changed;
mod changing;
mod copying;
mod exchanging;
mod following;
mod performing;
mod places;
mod products;
mod putting;
mod registers;
mod stack;
mod taking;
mod updating;

pub use following::{Follower, Nobody};
pub use performing::perform_short;
