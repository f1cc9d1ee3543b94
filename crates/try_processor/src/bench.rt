//! Rows of tables, and what they are tried with.

use mb_port::{Piece, Port, Space};
use mb_step::Decoder;
use std::alloc::Global;
use std::process::Abort;
use try_vector::VectorPort;

/// How many longs of memory there are: 64 KiB.
const LONGS: usize = 0x4000;

/// No byte is refused by a hole.
pub(crate) const NO_HOLE: u32 = u32::MAX;

/// Where the code stands.
pub(crate) const CODE: u32 = 0x400;

/// RTE, where the handler of level 6 stands.
pub(crate) const RTE: u16 = 0x4E73;

/// Vectors and the handlers that they name: of access errors, odd PCs, zero divides, privilege violations, traces,
/// interrupts of level 6 and TRAP #0.
static HANDLERS: [(u32, u32); 7] = [
    (0x08, 0x500),
    (0x0C, 0x500),
    (0x14, 0x440),
    (0x20, 0x420),
    (0x24, 0x500),
    (0x78, 0x700),
    (0x80, 0x600),
];

/// A memory of zeros, and another one to compare it with.
#[derive(Drop)]
pub(crate) struct Bench {
    pub(crate) decoder: Decoder,
    pub(crate) port: VectorPort,
    pub(crate) other: VectorPort,
}

impl Bench {
    fn new(alloc: Global) -> Option<Bench> {
        Some(Bench {
            decoder: Decoder::new(alloc).ok()?,
            port: VectorPort::new(alloc, LONGS, NO_HOLE).ok()?,
            other: VectorPort::new(alloc, LONGS, NO_HOLE).ok()?,
        })
    }
}

/// A row of a table.
pub(crate) trait Trial {
    /// Whether it comes to what it should.
    fn passes(&self, bench: &mut Bench) -> bool;
}

/// Tries all rows of a table, each with a bench of its own.
pub(crate) fn check<R: Trial>(rt: &impl Abort, alloc: Global, rows: &[R]) {
    for (number, row) in rows.iter().enumerate() {
        let mut bench = Bench::new(alloc).expect(rt, "ample memory");
        assert!(rt; row.passes(&mut bench), "row {number}");
    }
}

/// Puts the vectors into memory, a handler that returns, and this code, and makes it refuse one byte.
pub(crate) fn start(port: &mut VectorPort, hole: u32, code: &[u16]) {
    for &(vector, handler) in &HANDLERS {
        put(port, vector, 4, handler);
    }
    put(port, 0x700, 2, u32::from(RTE));
    let mut at = CODE;
    for word in code {
        put(port, at, 2, u32::from(*word));
        at = at.wrapping_add(2);
    }
    port.hole = hole;
}

/// A word or a long at an address that is a multiple of its length.
pub(crate) fn put(port: &mut VectorPort, at: u32, len: u8, value: u32) {
    let (at, len) = if len == 4 {
        (at / 4 * 4, 4)
    } else {
        (at / 2 * 2, 2)
    };
    let _written = port.write(Space::Super, Piece { at, len }, value);
}

/// Longs from an address on.
pub(crate) fn put_longs(port: &mut VectorPort, at: u32, longs: &[u32]) {
    let mut at = at;
    for long in longs {
        put(port, at, 4, *long);
        at = at.wrapping_add(4);
    }
}

/// Whether these longs stand from an address on.
pub(crate) fn stands(port: &VectorPort, at: u32, longs: &[u32]) -> bool {
    let mut at = (at / 4) as usize;
    for long in longs {
        if port.longs.get(at) != Some(long) {
            return false;
        }
        at = at.wrapping_add(1);
    }
    true
}
