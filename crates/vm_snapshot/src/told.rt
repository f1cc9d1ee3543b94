//! What the lines of a guest tell.

ghost use Rattle.std.specs.Prelude.{◌≡◌, ◌+◌, ◌*◌, ◌%◌, ◌<◌, ◌≤◌, length, All};
ghost use Rattle.vm_disk.specs.declared.disk.TheConstants.{BLOCK_BYTES, MOST_BLOCKS};

use crate::device_reading::Devices;
use crate::progress_reading::Progress;
use crate::register_reading::Registers;
use mb_model::Kept;
use mb_saved::RamLine;
use mb_script::Script;

/// What comes before a guest's outcome.
#[derive(Drop)]
pub(crate) struct Front {
    /// RAM in KiB.
    pub(crate) ram: u32,
    pub(crate) kept: Vec<Kept>,
    pub(crate) script: Script,
    ghost few: { ram ≤ 16384 },
}

/// What an outcome tells.
#[derive(Drop)]
pub(crate) struct Told {
    pub(crate) progress: Progress,
    pub(crate) registers: Registers,
    pub(crate) devices: Devices,
    /// RAM.
    pub(crate) lines: Vec<RamLine>,
}

/// What the lines of a disk tell.
#[derive(Drop)]
pub(crate) struct DiskLines {
    pub(crate) blocks: u32,
    pub(crate) block: u32,
    pub(crate) outcome: u32,
    pub(crate) position: u32,
    pub(crate) buffer: Vec<u8>,
    pub(crate) lines: Vec<RamLine>,
    ghost some: { (1 ≤ blocks) × (blocks ≤ MOST_BLOCKS) },
    ghost is_bit: { outcome ≤ 1 },
    ghost is_place: { (position % 4 ≡ 0) × (position < BLOCK_BYTES) },
    ghost whole: { length buffer.items ≡ BLOCK_BYTES },
    ghost inside: { All (λ line. line.at + 16 ≤ BLOCK_BYTES * blocks) lines.items },
}
