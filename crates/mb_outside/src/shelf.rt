//! Where files come from.

ghost use Rattle.std.specs.Prelude.{◌≡◌, ℕ, List, Bool, true, is_some, Option, IsErrOf};
ghost use Rattle.mb_outside.specs.declared.shelf.ShelfFault.TheVariants.{Failed};
ghost use Rattle.mb_outside.specs.Shelf.{GivesPiece, ShelfCause};

use std::alloc::Global;

/// Why a shelf gave no piece of a file.
#[derive(Clone, Copy, Debug, PartialEq, Eq)]
pub enum ShelfFault {
    /// Memory ran out. The shelf's count of faults stands.
    Memory,
    /// The file cannot be read, or there is none of this name. Counted.
    Failed,
}

/// Files by their names.
pub trait Shelf {
    /// The bytes of a file, where the shelf tells them.
    ghost told: { Self → List ℕ → Option (List ℕ) };

    /// No call for a file that is told fails.
    ghost whole: { Self → Bool };

    /// How often a call has failed, up to 2^64 - 1. It is 0 in a new shelf.
    ghost faults: { Self → ℕ };

    /// Reads bytes of the file from the byte `at` on into the buffer's beginning, and says how many:
    /// as many as the shelf likes, and none into a buffer that has room only at the file's end. What
    /// else the buffer holds afterwards is not said. The allocator is for what a shelf keeps of an open file.
    fn piece(
        &mut self,
        alloc: Global,
        name: &str,
        at: u64,
        buf: &mut [u8],
    ) -> Result<usize, ShelfFault>
        ensures told { told self.new ≡ told self.old }
        ensures same { whole self.new ≡ whole self.old }
        ensures piece { GivesPiece (told self.old name.now) at buf.new result }
        ensures cause { ShelfCause (faults self.old) (faults self.new) result }
        ensures whole { whole self.old ≡ true → is_some (told self.old name.now) ≡ true
            → IsErrOf result Failed → ⊥ };
}
