//! A guest's kept translations: 256 of both sides together.
//!
//! A guest's bus stands on it.
#![tactic(auto)]

mod nodes;
mod tlb;

pub use tlb::Tlb;
