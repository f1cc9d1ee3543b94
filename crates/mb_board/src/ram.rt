//! RAM, from address 0 on.

ghost use Rattle.std.specs.Prelude.{◌≤◌, vec_len};
ghost use Rattle.mb_board.specs.declared.bus.TheConstants.{MOST_BOARD_BYTES};

use mb_port::Place;
use mb_walk::{Ram, number_at, set_number_at, size_of};

/// The bytes of RAM.
#[derive(Drop)]
pub(crate) struct BoardRam {
    pub(crate) bytes: Vec<u8>,
    ghost most: { vec_len bytes ≤ MOST_BOARD_BYTES },
}

impl Ram for BoardRam {
    ghost bytes = { λ r. r.bytes.items };

    ghost Rest = { Unit {0} };

    ghost rest = { λ r. tt };

    #[inline(always)]
    fn size(&self) -> u32 {
        size_of(&self.bytes)
    }

    #[inline(always)]
    fn number(&self, place: Place) -> u32 {
        number_at(&self.bytes, place.at as usize, place.len)
    }

    #[inline(always)]
    fn set_number(&mut self, place: Place, value: u32) {
        set_number_at(&mut self.bytes, place.at as usize, place.len, value);
    }
}
