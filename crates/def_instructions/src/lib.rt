//! What each instruction does, as routines over a bus: its operands, its row, how it ends, and the attempt.
//!
//! This crate and `def_processor`, which says what the processor does around an instruction, are the manual in
//! definitions. It has no code.
#![tactic(auto)]
