//! What words decode to, remembered.
//!
//! A processor that decodes at every step decodes the same words again and again. Here each first word is decoded when
//! it first comes, and what two words begin with and each instruction of three are kept by their words; later they are
//! looked up. All answers are those of `mb_decode`, whatever is remembered, so this is no part of a machine. It stands
//! on `mb_decode` alone and knows no bus.
#![tactic(auto)]

mod finding;
mod first_words;
mod forms;
mod longer_words;
mod operands;
mod placed_shorts;
mod short;
mod shorts;
mod three_words;

pub use first_words::FirstWords;
pub use forms::{Change, Place, Putting, Register, Taking, Update};
pub use longer_words::LongerWords;
pub use placed_shorts::PlacedShorts;
pub use short::{Short, is_brief, is_pair};
pub use shorts::Shorts;
pub use three_words::ThreeWords;
