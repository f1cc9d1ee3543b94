//! Parts of operands: decimal digits, packed digits and bit fields.
//!
//! It stands beside the arithmetic of whole operands. A byte of decimal arithmetic holds two digits,
//! the tens in its high half; a bit field is a part of the big-endian number that its bytes spell.
#![tactic(auto)]

mod decimals;
mod fields;
mod packing;

pub use decimals::{abcd, nbcd, sbcd};
pub use fields::{field_first, field_get, field_put};
pub use packing::{pack, unpk};
