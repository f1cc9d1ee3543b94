//! The board's memory management unit: its registers, the translations that it keeps, and a micro-TLB before them.
//!
//! The board's bus stands on it.
#![tactic(auto)]

mod micro_tlb;
mod modes;
mod translator;

pub use translator::Translator;
