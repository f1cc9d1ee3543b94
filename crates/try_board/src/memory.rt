//! Plain memory: that of searches, of shadow tables and of a guest's bus.

ghost use Rattle.std.specs.Prelude.{◌≡◌, length};

use mb_port::{Place, Space};
use mb_walk::{Ram, number_at, set_number_at, size_of};
use std::alloc::Global;

/// How many bytes it has.
pub(crate) const SIZE: u32 = 0x3_0000;

/// Both spaces.
pub(crate) static SPACES: [Space; 2] = [Space::User, Space::Super];

#[derive(Drop)]
pub(crate) struct Bytes {
    pub(crate) memory: Vec<u8>,
    ghost size: { length memory.items ≡ 0x30000 },
}

impl Bytes {
    /// Memory that has this byte everywhere.
    pub(crate) fn filled(alloc: Global, byte: u8) -> Option<Bytes> {
        let memory = vec![in alloc; byte; SIZE as usize].ok()?;
        Some(Bytes { memory })
    }
}

impl Ram for Bytes {
    ghost bytes = { λ b. b.memory.items };

    ghost Rest = { Unit {0} };

    ghost rest = { λ b. tt };

    fn size(&self) -> u32 {
        size_of(&self.memory)
    }

    fn number(&self, place: Place) -> u32 {
        number_at(&self.memory, place.at as usize, place.len)
    }

    #[tactic(auto, using(mb_walk::proofs::MemoryLemmas::lengths))]
    fn set_number(&mut self, place: Place, value: u32) {
        set_number_at(&mut self.memory, place.at as usize, place.len, value);
    }
}
