//! The values that instructions, operands and registers are, and the table of their spellings.
//!
//! A term crate: decoder, encoder, assembler and the meaning of instructions stand on it. The table
//! itself is `specs/Rows`: one line for each row of the manual's encodings.
#![tactic(auto)]

mod control;
mod counts;
mod instruction;
mod kinds;
mod laws;
mod opcode;
mod operand;
mod registers;
mod rule;
mod size;
pub mod status;
pub mod vectors;

pub use control::ControlRegister;
pub use counts::{FIRST_WORDS, MOST_WORDS};
pub use instruction::{Arith, Family, Flow, Instr, Move, System, family_of, is_privileged};
pub use kinds::{
    BitKind, Branch, CacheScope, Caches, Condition, Exchange, FieldKind, FlushKind, LineMove,
    ShiftKind, TrapOperand,
};
pub use laws::operands_stand;
pub use opcode::Opcode;
pub use operand::{Ea, Ext, OperandClass, is_full};
pub use registers::{Plain, Regs};
pub use rule::WordRule;
pub use size::Size;
