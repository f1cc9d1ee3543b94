//! The arithmetic of the processor: sums, logic, shifts, products and quotients, each with its
//! condition codes.
//!
//! It stands on the sizes of operands and the kinds of shifts alone. The definitions are over whole
//! numbers; the code works with masked machine words.
#![tactic(auto)]

mod bits;
mod bitwise;
mod conditions;
mod extension;
mod products;
mod quotients;
mod shifts;
mod sums;
mod whole;
mod width;

pub use bitwise::{LogicKind, logic};
pub use conditions::{Conditions, Flagged};
pub use extension::extend;
pub use products::{Product, mul};
pub use quotients::{Divided, div};
pub use shifts::shift;
pub use sums::{add, compare, sub};
pub use width::Width;
