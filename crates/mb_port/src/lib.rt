//! The bus as the processor sees it: its words, its calls, and the routines that make them.
//!
//! The lowest layer. Whoever reads or writes memory, devices or translations does so by a [`Port`].
#![tactic(auto)]

mod bits;
mod bus;
mod longs;
mod pieces;
pub mod translation;
mod types;

pub use bits::{long_has, word_has};
pub use bus::Port;
pub use longs::{lay, unlay};
pub use pieces::{first_piece, split};
pub use types::{Fault, Flush, LINE, Mmu, MmuReg, Piece, Place, Space};
