//! A disk: blocks of 512 bytes behind a buffer, and the registers at which a machine reads and writes it.
//!
//! A part, below the devices: it knows neither processor nor board. `specs/Disk` says what happens to a disk,
//! `specs/Registers` has the table of its registers, and `specs/Laws` what a block holds after whatever accesses.
#![tactic(auto)]

mod bytes;
mod comparison;
mod disk;
mod laws;
mod register;
mod text;

pub use comparison::same_disk;
pub use disk::{BLOCK_BYTES, Disk, MOST_BLOCKS};
pub use laws::{blocks_hold_what_was_stored, disks_keep_their_shape};
pub use register::DiskRegister;
pub use text::write_disk;
