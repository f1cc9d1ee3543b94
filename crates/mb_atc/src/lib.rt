//! The board's kept translations: four for each side and page modulo 16.
//!
//! The board stands on it.
#![tactic(auto)]

mod atc;

pub use atc::Atc;
