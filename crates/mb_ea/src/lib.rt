//! Operands: where an addressing mode leads, and what stands there in memory.
//!
//! Whatever reads an operand does so by the calls of this crate. Instructions stand on it, and on the
//! crate that writes operands.
#![tactic(auto)]

mod addresses;
mod reading;
mod resolving;

pub use addresses::{Target, index};
pub use reading::{ReadFault, join, read_operand, read_value};
pub use resolving::{find_target, resolve};
