//! Refused writes and transfers by hand, and how they are completed.

ghost use Rattle.std.specs.Prelude.{IsTrue, ◌≤◌, length};
ghost use Rattle.mb_port.specs.Pieces.{IsPiece};
ghost use Rattle.mb_frames.specs.AccessFields.{piece_of};
ghost use Rattle.mb_writes.specs.Writing.{ArePending};

use crate::vector::port_of;
use Write::{Apart, Operand};
use mb_frames::Pend;
use mb_instr::{Plain, Size};
use mb_port::Space;
use mb_writes::{
    Movem, WriteFault, complete, continue_movem, count, transfer, write_apart, write_operand,
};
use std::alloc::{AllocError, Global};
use std::process::Abort;
use try_vector::VectorPort;

/// Whether it has the place and length of a piece.
fn is_pending(pend: &Pend) -> bool
    ensures { IsTrue result → IsPiece (piece_of pend.now) }
{
    match pend.len {
        1 => true,
        2 => pend.at % 2 == 0,
        4 => pend.at % 4 == 0,
        _ => false,
    }
}

/// Whether they are at most three pieces.
fn are_pending(pending: &[Pend]) -> bool
    ensures few { IsTrue result → length pending.now ≤ 3 }
    ensures pieces { IsTrue result → ArePending pending.now }
{
    match pending {
        [] => true,
        [one] => is_pending(one),
        [one, two] => is_pending(one) && is_pending(two),
        [one, two, three] => is_pending(one) && is_pending(two) && is_pending(three),
        _ => false,
    }
}

/// What is written.
#[derive(Clone, Copy)]
enum Write {
    /// So many low bytes of $EE1122334455.
    Operand(u8),
    /// $22334455 in bytes apart.
    Apart(Size),
}

/// A write that is refused: its address, the byte that refuses, the address and length of the piece with that byte, the
/// two longs of memory then, the address, length and value of each piece that is left, and the longs when they are
/// written.
struct RefusedWrite {
    at: u32,
    write: Write,
    hole: u32,
    fault: (u32, u8),
    then: [u32; 2],
    rest: &'static [(u32, u8, u32)],
    whole: [u32; 2],
}

#[rattlefmt::skip]
static REFUSED_WRITES: [RefusedWrite; 25] = [
    RefusedWrite { at: 0, write: Operand(4), hole: 3, fault: (0, 4), then: [0, 0], rest: &[(0, 4, 0x2233_4455)],
        whole: [0x2233_4455, 0] },
    RefusedWrite { at: 1, write: Operand(4), hole: 1, fault: (1, 1), then: [0, 0],
        rest: &[(1, 1, 0x22), (2, 2, 0x3344), (4, 1, 0x55)], whole: [0x0022_3344, 0x5500_0000] },
    RefusedWrite { at: 1, write: Operand(4), hole: 3, fault: (2, 2), then: [0x0022_0000, 0],
        rest: &[(2, 2, 0x3344), (4, 1, 0x55)], whole: [0x0022_3344, 0x5500_0000] },
    RefusedWrite { at: 1, write: Operand(4), hole: 4, fault: (4, 1), then: [0x0022_3344, 0], rest: &[(4, 1, 0x55)],
        whole: [0x0022_3344, 0x5500_0000] },
    RefusedWrite { at: 2, write: Operand(4), hole: 3, fault: (2, 2), then: [0, 0],
        rest: &[(2, 2, 0x2233), (4, 2, 0x4455)], whole: [0x2233, 0x4455_0000] },
    RefusedWrite { at: 2, write: Operand(4), hole: 5, fault: (4, 2), then: [0x2233, 0], rest: &[(4, 2, 0x4455)],
        whole: [0x2233, 0x4455_0000] },
    RefusedWrite { at: 3, write: Operand(4), hole: 3, fault: (3, 1), then: [0, 0],
        rest: &[(3, 1, 0x22), (4, 2, 0x3344), (6, 1, 0x55)], whole: [0x22, 0x3344_5500] },
    RefusedWrite { at: 3, write: Operand(4), hole: 5, fault: (4, 2), then: [0x22, 0],
        rest: &[(4, 2, 0x3344), (6, 1, 0x55)], whole: [0x22, 0x3344_5500] },
    RefusedWrite { at: 3, write: Operand(4), hole: 6, fault: (6, 1), then: [0x22, 0x3344_0000], rest: &[(6, 1, 0x55)],
        whole: [0x22, 0x3344_5500] },
    RefusedWrite { at: 0, write: Operand(5), hole: 3, fault: (0, 4), then: [0, 0],
        rest: &[(0, 4, 0x1122_3344), (4, 1, 0x55)], whole: [0x1122_3344, 0x5500_0000] },
    RefusedWrite { at: 0, write: Operand(5), hole: 4, fault: (4, 1), then: [0x1122_3344, 0], rest: &[(4, 1, 0x55)],
        whole: [0x1122_3344, 0x5500_0000] },
    RefusedWrite { at: 1, write: Operand(5), hole: 1, fault: (1, 1), then: [0, 0],
        rest: &[(1, 1, 0x11), (2, 2, 0x2233), (4, 2, 0x4455)], whole: [0x0011_2233, 0x4455_0000] },
    RefusedWrite { at: 1, write: Operand(5), hole: 3, fault: (2, 2), then: [0x0011_0000, 0],
        rest: &[(2, 2, 0x2233), (4, 2, 0x4455)], whole: [0x0011_2233, 0x4455_0000] },
    RefusedWrite { at: 1, write: Operand(5), hole: 5, fault: (4, 2), then: [0x0011_2233, 0], rest: &[(4, 2, 0x4455)],
        whole: [0x0011_2233, 0x4455_0000] },
    RefusedWrite { at: 2, write: Operand(5), hole: 3, fault: (2, 2), then: [0, 0],
        rest: &[(2, 2, 0x1122), (4, 2, 0x3344), (6, 1, 0x55)], whole: [0x1122, 0x3344_5500] },
    RefusedWrite { at: 2, write: Operand(5), hole: 5, fault: (4, 2), then: [0x1122, 0],
        rest: &[(4, 2, 0x3344), (6, 1, 0x55)], whole: [0x1122, 0x3344_5500] },
    RefusedWrite { at: 2, write: Operand(5), hole: 6, fault: (6, 1), then: [0x1122, 0x3344_0000], rest: &[(6, 1, 0x55)],
        whole: [0x1122, 0x3344_5500] },
    RefusedWrite { at: 3, write: Operand(5), hole: 3, fault: (3, 1), then: [0, 0],
        rest: &[(3, 1, 0x11), (4, 4, 0x2233_4455)], whole: [0x11, 0x2233_4455] },
    RefusedWrite { at: 3, write: Operand(5), hole: 7, fault: (4, 4), then: [0x11, 0], rest: &[(4, 4, 0x2233_4455)],
        whole: [0x11, 0x2233_4455] },
    RefusedWrite { at: 1, write: Apart(Size::Word), hole: 1, fault: (1, 1), then: [0, 0],
        rest: &[(1, 1, 0x44), (3, 1, 0x55)], whole: [0x0044_0055, 0] },
    RefusedWrite { at: 1, write: Apart(Size::Word), hole: 3, fault: (3, 1), then: [0x0044_0000, 0],
        rest: &[(3, 1, 0x55)], whole: [0x0044_0055, 0] },
    RefusedWrite { at: 1, write: Apart(Size::Long), hole: 1, fault: (1, 1), then: [0, 0], rest: &[], whole: [0, 0] },
    RefusedWrite { at: 1, write: Apart(Size::Long), hole: 3, fault: (3, 1), then: [0x0022_0000, 0],
        rest: &[(3, 1, 0x33), (5, 1, 0x44), (7, 1, 0x55)], whole: [0x0022_0033, 0x0044_0055] },
    RefusedWrite { at: 1, write: Apart(Size::Long), hole: 5, fault: (5, 1), then: [0x0022_0033, 0],
        rest: &[(5, 1, 0x44), (7, 1, 0x55)], whole: [0x0022_0033, 0x0044_0055] },
    RefusedWrite { at: 1, write: Apart(Size::Long), hole: 7, fault: (7, 1), then: [0x0022_0033, 0x0044_0000],
        rest: &[(7, 1, 0x55)], whole: [0x0022_0033, 0x0044_0055] },
];

/// Whether these pieces are left, with these values.
fn are_left(left: &[Pend], wanted: &[(u32, u8, u32)]) -> bool {
    for (pend, piece) in left.iter().zip(wanted) {
        if (pend.at, pend.len, pend.value) != *piece {
            return false;
        }
    }
    left.len() == wanted.len()
}

/// Whether what is left can be written.
fn completes(left: &[Pend], port: &mut VectorPort) -> bool {
    are_pending(left) && complete(left, Space::User, port).is_ok()
}

impl RefusedWrite {
    /// Writes, and answers why that is refused; nothing of an operand that has not 1 to 5 bytes.
    fn refusal(&self, port: &mut VectorPort) -> Option<WriteFault> {
        match self.write {
            Operand(len) if 1 <= len && len <= 5 => {
                write_operand(Space::User, self.at, len, 0xEE11_2233_4455, port).err()
            }
            Operand(_) => None,
            Apart(size) => write_apart(Space::User, self.at, size, 0x2233_4455, port).err(),
        }
    }

    /// Whether it is refused with what should be left.
    fn leaves(&self, refused: &WriteFault) -> bool {
        refused.first == self.at
            && (refused.fault.at, refused.fault.len) == self.fault
            && are_left(refused.rest.as_slice(), self.rest)
    }

    /// Whether it is refused as it should be, and then completed.
    fn passes(&self, port: &mut VectorPort) -> bool {
        let Some(refused) = self.refusal(port) else {
            return false;
        };
        let then = port.longs.as_slice() == self.then.as_slice();
        port.hole = u32::MAX;
        then && self.leaves(&refused)
            && completes(refused.rest.as_slice(), port)
            && port.longs.as_slice() == self.whole.as_slice()
    }
}

#[test]
fn refused_writes(rt: HostRuntime) -> Result<(), AllocError> {
    for row in &REFUSED_WRITES {
        let mut port = VectorPort::new(rt.alloc(), 2, row.hole)?;
        assert!(rt; row.passes(&mut port), "at {}, byte {}", row.at, row.hole);
    }
    Ok(())
}

/// D1, A2 and A3 as they are before a transfer, but for the address register A2.
const D1: u32 = 0x1111_8111;

const A3: u32 = 0x3333_8333;

/// Memory before a transfer.
const LONGS: [u32; 4] = [0x0A0B_0C0D, 0x8001_7002, 0x9003_6004, 0xA005_5006];

/// The other registers.
const D: u32 = 0xDDDD_DDDD;

const A: u32 = 0xAAAA_AAAA;

/// Registers with D1, A2 and A3.
fn registers(named: [u32; 3]) -> Plain {
    Plain {
        d: [D, named[0], D, D, D, D, D, D],
        a: [A, A, named[1], named[2], A, A, A, A],
        pc: 0,
        ccr: 0,
    }
}

/// A MOVEM of D1, A2 and A3 by A2: its two words, the first address, and A2 before; D1, A2, A3 and the longs from
/// address 4 on afterwards.
struct Transfer {
    words: u32,
    ea: u32,
    base: u32,
    after: [u32; 3],
    longs: [u32; 3],
    refusals: &'static [Refusal],
}

/// A byte that refuses, the address of the refused transfer, and how many are done; D1, A2, A3 and the longs from
/// address 4 on then.
struct Refusal {
    hole: u32,
    at: u32,
    done: u8,
    then: [u32; 3],
    longs: [u32; 3],
}

#[rattlefmt::skip]
static TRANSFERS: [Transfer; 8] = [
    Transfer {
        words: 0x4C92_0C02,
        ea: 4,
        base: 4,
        after: [0xFFFF_8001, 0x7002, 0xFFFF_9003],
        longs: [LONGS[1], LONGS[2], LONGS[3]],
        refusals: &[
            Refusal { hole: 5, at: 4, done: 0, then: [D1, 4, A3], longs: [LONGS[1], LONGS[2], LONGS[3]] },
            Refusal { hole: 7, at: 6, done: 1, then: [0xFFFF_8001, 4, A3], longs: [LONGS[1], LONGS[2], LONGS[3]] },
            Refusal { hole: 9, at: 8, done: 2, then: [0xFFFF_8001, 0x7002, A3], longs: [LONGS[1], LONGS[2], LONGS[3]] },
        ],
    },
    Transfer {
        words: 0x4CD2_0C02,
        ea: 4,
        base: 4,
        after: [0x8001_7002, 0x9003_6004, 0xA005_5006],
        longs: [LONGS[1], LONGS[2], LONGS[3]],
        refusals: &[
            Refusal { hole: 7, at: 4, done: 0, then: [D1, 4, A3], longs: [LONGS[1], LONGS[2], LONGS[3]] },
            Refusal { hole: 9, at: 8, done: 1, then: [0x8001_7002, 4, A3], longs: [LONGS[1], LONGS[2], LONGS[3]] },
            Refusal { hole: 15, at: 12, done: 2, then: [0x8001_7002, 0x9003_6004, A3],
                longs: [LONGS[1], LONGS[2], LONGS[3]] },
        ],
    },
    Transfer {
        words: 0x4C9A_0C02,
        ea: 4,
        base: 4,
        after: [0xFFFF_8001, 10, 0xFFFF_9003],
        longs: [LONGS[1], LONGS[2], LONGS[3]],
        refusals: &[
            Refusal { hole: 5, at: 4, done: 0, then: [D1, 4, A3], longs: [LONGS[1], LONGS[2], LONGS[3]] },
            Refusal { hole: 7, at: 6, done: 1, then: [0xFFFF_8001, 4, A3], longs: [LONGS[1], LONGS[2], LONGS[3]] },
            Refusal { hole: 9, at: 8, done: 2, then: [0xFFFF_8001, 4, A3], longs: [LONGS[1], LONGS[2], LONGS[3]] },
        ],
    },
    Transfer {
        words: 0x4CDA_0C02,
        ea: 4,
        base: 4,
        after: [0x8001_7002, 16, 0xA005_5006],
        longs: [LONGS[1], LONGS[2], LONGS[3]],
        refusals: &[
            Refusal { hole: 7, at: 4, done: 0, then: [D1, 4, A3], longs: [LONGS[1], LONGS[2], LONGS[3]] },
            Refusal { hole: 9, at: 8, done: 1, then: [0x8001_7002, 4, A3], longs: [LONGS[1], LONGS[2], LONGS[3]] },
            Refusal { hole: 15, at: 12, done: 2, then: [0x8001_7002, 4, A3], longs: [LONGS[1], LONGS[2], LONGS[3]] },
        ],
    },
    Transfer {
        words: 0x4892_0C02,
        ea: 4,
        base: 4,
        after: [D1, 4, A3],
        longs: [0x8111_0004, 0x8333_6004, LONGS[3]],
        refusals: &[
            Refusal { hole: 5, at: 4, done: 0, then: [D1, 4, A3], longs: [LONGS[1], LONGS[2], LONGS[3]] },
            Refusal { hole: 7, at: 6, done: 1, then: [D1, 4, A3], longs: [0x8111_7002, LONGS[2], LONGS[3]] },
            Refusal { hole: 9, at: 8, done: 2, then: [D1, 4, A3], longs: [0x8111_0004, LONGS[2], LONGS[3]] },
        ],
    },
    Transfer {
        words: 0x48D2_0C02,
        ea: 4,
        base: 4,
        after: [D1, 4, A3],
        longs: [0x1111_8111, 4, 0x3333_8333],
        refusals: &[
            Refusal { hole: 7, at: 4, done: 0, then: [D1, 4, A3], longs: [LONGS[1], LONGS[2], LONGS[3]] },
            Refusal { hole: 9, at: 8, done: 1, then: [D1, 4, A3], longs: [0x1111_8111, LONGS[2], LONGS[3]] },
            Refusal { hole: 15, at: 12, done: 2, then: [D1, 4, A3], longs: [0x1111_8111, 4, LONGS[3]] },
        ],
    },
    Transfer {
        words: 0x48A2_4030,
        ea: 14,
        base: 16,
        after: [D1, 10, A3],
        longs: [LONGS[1], 0x9003_8111, 0x000E_8333],
        refusals: &[
            Refusal { hole: 15, at: 14, done: 0, then: [D1, 16, A3], longs: [LONGS[1], LONGS[2], LONGS[3]] },
            Refusal { hole: 13, at: 12, done: 1, then: [D1, 16, A3], longs: [LONGS[1], LONGS[2], 0xA005_8333] },
            Refusal { hole: 11, at: 10, done: 2, then: [D1, 16, A3], longs: [LONGS[1], LONGS[2], 0x000E_8333] },
        ],
    },
    Transfer {
        words: 0x48E2_4030,
        ea: 12,
        base: 16,
        after: [D1, 4, A3],
        longs: [0x1111_8111, 12, 0x3333_8333],
        refusals: &[
            Refusal { hole: 15, at: 12, done: 0, then: [D1, 16, A3], longs: [LONGS[1], LONGS[2], LONGS[3]] },
            Refusal { hole: 9, at: 8, done: 1, then: [D1, 16, A3], longs: [LONGS[1], LONGS[2], 0x3333_8333] },
            Refusal { hole: 7, at: 4, done: 2, then: [D1, 16, A3], longs: [LONGS[1], 12, 0x3333_8333] },
        ],
    },
];

/// Whether memory has these longs from address 4 on.
fn has_longs(port: &VectorPort, longs: [u32; 3]) -> bool {
    port.longs.as_slice() == [LONGS[0], longs[0], longs[1], longs[2]].as_slice()
}

impl Transfer {
    /// Whether all is transferred.
    fn passes(&self, port: &mut VectorPort) -> bool {
        let mut plain = registers([D1, self.base, A3]);
        let movem = Movem::of(self.words);
        transfer(&movem, self.ea, 0, &mut plain, Space::User, port).is_ok()
            && self.is_done(&plain, port)
    }

    /// Whether registers and memory are as they should be in the end.
    fn is_done(&self, plain: &Plain, port: &VectorPort) -> bool {
        *plain == registers(self.after) && has_longs(port, self.longs)
    }

    /// Whether a byte refuses it as it should.
    fn is_refused(&self, refusal: &Refusal, plain: &mut Plain, port: &mut VectorPort) -> bool {
        let movem = Movem::of(self.words);
        let Err(refused) = transfer(&movem, self.ea, 0, plain, Space::User, port) else {
            return false;
        };
        (refused.fault.at, refused.first, refused.done) == (refusal.at, self.ea, refusal.done)
            && *plain == registers(refusal.then)
            && has_longs(port, refusal.longs)
    }

    /// Whether it goes on to the same end.
    fn goes_on(&self, done: u8, plain: &mut Plain, port: &mut VectorPort) -> bool {
        port.hole = u32::MAX;
        done <= count(Movem::of(self.words).mask)
            && continue_movem(plain, self.words, self.ea, done, Space::User, port).is_ok()
            && self.is_done(plain, port)
    }
}

/// Each refusal of a MOVEM, and that it goes on to the same end.
fn check_refusals(rt: &impl Abort, alloc: Global, row: &Transfer) -> Result<(), AllocError> {
    for refusal in row.refusals {
        let mut port = port_of(alloc, &LONGS, refusal.hole)?;
        let mut plain = registers([D1, row.base, A3]);
        let refused = row.is_refused(refusal, &mut plain, &mut port);
        assert!(rt; refused, "{:x}, byte {}", row.words, refusal.hole);
        let goes_on = row.goes_on(refusal.done, &mut plain, &mut port);
        assert!(rt; goes_on, "{:x}, byte {}", row.words, refusal.hole);
    }
    Ok(())
}

#[test]
fn transfers(rt: HostRuntime) -> Result<(), AllocError> {
    for row in &TRANSFERS {
        let mut port = port_of(rt.alloc(), &LONGS, u32::MAX)?;
        assert!(rt; row.passes(&mut port), "{:x}", row.words);
        check_refusals(&rt, rt.alloc(), row)?;
    }
    Ok(())
}
