//! Operands as instructions use them, the sixteen conditions, and comparisons with bounds.
//!
//! What reads, writes and pushes operands is here once, for the instructions of all families. Each function does
//! what its routine of `def_instructions` does, whatever the bus.
#![tactic(auto)]

mod bounds;
mod conditions;
mod endings;
mod memory;
mod operands;
mod stream;

pub use bounds::compare_bounds;
pub use conditions::is_met;
pub use endings::{Undone, left_undone, put_back, refused, trapped, unread, unwritten};
pub use memory::{read_at_once, read_memory, write_at_once};
pub use operands::{
    Operand, behind, fetch_operand, find_address, finish_with, named_register, place, push,
    with_low,
};
pub use stream::Stream;
