//! The instructions that compute, over any bus, one small function a row.
//!
//! Each function does what its routine of `def_instructions` does, whatever the bus.
#![tactic(auto)]

mod bit_fields;
mod bits;
mod bounds;
mod decimals;
mod direct;
mod groups;
mod locked;
mod modifying;
mod operations;
mod pairs;
mod performing;
mod products;
mod quick;
mod shifts;
mod taking;
mod unary;

pub use direct::{combine_into, combine_registers, compare_with};
pub use operations::{Operation, Sum};
pub use performing::{perform_arith, perform_arith_in_place};
pub use products::{divided_long, multiply_long, multiply_word, put_quotient};
pub use unary::put_in_register;
