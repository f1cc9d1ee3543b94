//! What a snapshot says.

use mb_saved::SavedGuest;
use mb_script::Script;
use vm_disk::Disk;

/// A guest of a snapshot.
#[derive(Drop)]
pub struct SnapGuest {
    pub saved: SavedGuest,
    /// What is still to come by its script.
    pub script: Script,
    pub disk: Option<Disk>,
}

/// What a snapshot says.
#[derive(Drop)]
pub struct SnapPlan {
    /// The board's memory in KiB.
    pub board: u32,
    /// The steps of a turn.
    pub slice: u32,
    pub guests: Vec<SnapGuest>,
}

/// Why a snapshot was not read.
#[derive(Clone, Copy, Debug, PartialEq, Eq)]
pub enum SnapFault {
    /// Memory ran out.
    Memory,
    /// The first line up to which the text begins no snapshot; for a text that ends too early the line after its last.
    Line { number: u32 },
}
