//! What a MOVEM moves, and where.

ghost use Rattle.std.specs.Prelude.{◌≡◌, ◌<◌, ◌≤◌, length};
ghost use Rattle.mb_instr.specs.Sizes.{bytes_of};
ghost use Rattle.mb_writes.specs.Transfers.{movem_in, transfers_of, transfer_step, number_of, count_of, IsMode, AreTransfers};
ghost use Rattle.mb_writes.specs.Transfers.{transfer_at, StandsBehind};

use arrayvec::ArrayVec;
use mb_instr::Size;

/// Where a MOVEM's operand stands, as far as it concerns the address register.
#[derive(Clone, Copy, Debug, PartialEq, Eq)]
pub enum MovemMode {
    /// The register stays.
    Control,
    /// `(An)+`: the register goes past the last transfer.
    Post(u8),
    /// `-(An)`: the transfers go down, and the register ends at the last one.
    Pre(u8),
}

/// What a MOVEM moves.
#[derive(Clone, Copy, Debug, PartialEq, Eq)]
pub struct Movem {
    /// To registers.
    pub is_load: bool,
    /// Words or longs.
    pub size: Size,
    pub mode: MovemMode,
    /// One bit a register: from D0 in bit 0 to A7 in bit 15, for `-(An)` from A7 to D0.
    pub mask: u16,
}

/// One register, 0 to 7 for D0 to D7 and 8 to 15 for A0 to A7, and the logical address of its bytes.
#[derive(Clone, Copy, Default, PartialEq, Eq)]
pub struct Transfer {
    pub register: u8,
    pub at: u32,
}

/// How many bits a mask has, one a register.
const REGISTERS: u8 = 16;

impl Movem {
    /// What the operation word and the mask word say, in the high and the low half of `words`.
    pub fn of(words: u32) -> Movem
        ensures value { result ≡ movem_in words }
        ensures mode { IsMode result.mode }
    {
        let operation = words >> 16;
        let register = (operation & 7) as u8;
        let mode = match operation >> 3 & 7 {
            3 => MovemMode::Post(register),
            4 => MovemMode::Pre(register),
            _ => MovemMode::Control,
        };
        Movem {
            is_load: operation >> 10 & 1 == 1,
            size: if operation >> 6 & 1 == 1 {
                Size::Long
            } else {
                Size::Word
            },
            mode,
            mask: (words & 0xffff) as u16,
        }
    }

    /// From one transfer's address to the next one's.
    fn step(&self) -> u32
        ensures { result ≡ transfer_step self.now.mode (bytes_of self.now.size) }
    {
        let bytes = u32::from(self.size.bytes());
        match self.mode {
            MovemMode::Pre(_) => 0u32.wrapping_sub(bytes),
            MovemMode::Control | MovemMode::Post(_) => bytes,
        }
    }

    /// The address of the transfer behind the first `done`, where the first of all is at `ea`.
    pub fn transfer_at(&self, ea: u32, done: u8) -> u32
        ensures value { result ≡ transfer_at self.now ea done }
        ensures stands { StandsBehind self.now ea done result }
    {
        ea.wrapping_add(u32::from(done).wrapping_mul(self.step()))
    }

    /// The register that a bit of the mask names.
    fn number(&self, bit: u8) -> u8
        requires { bit < 16 }
        ensures value { result ≡ number_of self.now.mode bit }
        ensures range { result < 16 }
    {
        match self.mode {
            MovemMode::Pre(_) => 15 - bit,
            MovemMode::Control | MovemMode::Post(_) => bit,
        }
    }

    /// The transfers in their order, the first at `ea`.
    pub(crate) fn transfers(&self, ea: u32) -> ArrayVec<Transfer, 16>
        ensures value { result.items ≡ transfers_of self.now ea }
        ensures registers { AreTransfers result.items }
        ensures count { length result.items ≡ count_of self.now.mask }
        ensures few { length result.items ≤ 16 }
    {
        let mut transfers = ArrayVec::new();
        let mut at = ea;
        for bit in 0..REGISTERS {
            if self.mask >> bit & 1 == 0 {
                continue;
            }
            transfers.push(Transfer {
                register: self.number(bit),
                at,
            });
            at = at.wrapping_add(self.step());
        }
        transfers
    }
}

/// How many registers a mask names.
pub fn count(mask: u16) -> u8
    ensures { result ≡ count_of mask }
{
    let mut named = 0;
    for bit in 0..REGISTERS {
        named += (mask >> bit & 1) as u8;
    }
    named
}
