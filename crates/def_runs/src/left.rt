//! What an access error leaves to do.

use arrayvec::ArrayVec;
use mb_frames::Pend;

/// What was left to do of a step that an access error ended.
#[derive(PartialEq, Eq, Drop)]
pub enum LeftOver {
    /// The step begins again: a fetch, a read, a locked check, or the first byte of a long that MOVEP stores was
    /// refused. All registers are as before it.
    Again,
    /// These pieces are to be written, of an operand whose first byte is at the logical address `first`. The
    /// instruction is otherwise complete.
    Writes {
        pending: ArrayVec<Pend, 3>,
        first: u32,
    },
    /// These four longs are to be written at the logical address `at`. The MOVE16 is otherwise complete.
    Line {
        at: u32,
        line: [u32; 4],
    },
    /// A MOVEM goes on with a transfer.
    Movem {
        /// The operation word in the high half, the mask in the low half.
        words: u32,
        /// The logical address of the first transfer.
        ea: u32,
        /// How many whole transfers were done.
        done: u8,
        /// The address of the next instruction.
        next: u32,
    },
}
