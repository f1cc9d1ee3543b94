//! The text of a machine's outcome and of its parts, exact to the byte and written with no memory taken.
//!
//! It stands below the devices, on the sinks and on what an outcome shows, so that a disk and all above print with it.
//! The text is defined in `specs/Text`, its digits in `specs/Digits`, a kept translation's line in `specs/Kept`.
#![tactic(auto)]

mod buffered;
mod comparison;
mod digits;
mod dump;
mod kept;
mod outcome;

pub use buffered::Buffered;
pub use comparison::same;
pub use digits::{hex2, hex8, push_digits};
pub use dump::{write_dump, write_memory, write_row};
pub use kept::write_kept;
pub use outcome::{state_word, write_outcome, write_registers, write_word};
