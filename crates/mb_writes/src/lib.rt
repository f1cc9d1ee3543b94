//! Writes of operands in their order, places that are checked first, the transfers of MOVEM, and how an instruction
//! ends.
//!
//! Whatever writes an operand does so by the calls of this crate. A refused write says what is left of
//! it, so that whoever handles the fault can complete it.
#![tactic(auto)]

mod checked;
mod ends;
mod laws;
mod movem;
mod transfers;
mod writing;

pub use checked::{get_operand, probe_operand, put_operand};
pub use ends::{Ended, MovemFault, WriteFault};
pub use laws::writes_complete;
pub use movem::{continue_movem, transfer};
pub use transfers::{Movem, MovemMode, Transfer, count};
pub use writing::{complete, part, write_apart, write_operand, write_pieces, write_value};
