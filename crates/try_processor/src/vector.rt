//! The calls of the port, by hand.

use mb_port::{Fault, Mmu, MmuReg, Piece, Port, Space};
use std::alloc::{AllocError, Global};
use try_vector::VectorPort;

/// The registers of translation after reset.
pub(crate) const NO_MMU: Mmu = Mmu {
    tc: 0,
    itt0: 0,
    itt1: 0,
    dtt0: 0,
    dtt1: 0,
    mmusr: 0,
    urp: 0,
    srp: 0,
};

/// A memory of these longs that refuses one byte.
pub(crate) fn port_of(alloc: Global, longs: &[u32], hole: u32) -> Result<VectorPort, AllocError> {
    Ok(VectorPort {
        longs: Vec::from_slice(alloc, longs)?,
        hole,
        mmu: NO_MMU,
        is_quick: false,
    })
}

/// Four longs.
const LONGS: [u32; 4] = [0x0011_2233, 0x4455_6677, 0x8899_AABB, 0xCCDD_EEFF];

/// Adds one to a byte, and answers what it was: generic code, which knows the port by its bound.
fn bump<P: Port>(port: &mut P, at: u32) -> Result<u32, Fault> {
    let byte = Piece { at, len: 1 };
    let old = port.read(Space::User, byte)?;
    port.write(Space::User, byte, old.wrapping_add(1))?;
    Ok(old)
}

/// Whether accesses are answered, where there is a hole in the last long.
fn accesses(port: &mut VectorPort) -> bool {
    port.fetch(Space::User, 6) == Ok(0x6677)
        && bump(port, 5) == Ok(0x55)
        && port.read(Space::User, Piece { at: 4, len: 4 }) == Ok(0x4456_6677)
        && bump(port, 13).is_err()
        && bump(port, 16).is_err()
}

/// Whether a place that was found before is read and written.
fn finds_a_place(port: &mut VectorPort) -> bool {
    let Ok(place) = port.probe(Space::Super, Piece { at: 2, len: 2 }) else {
        return false;
    };
    let value = port.get(place);
    port.put(place, 0xFFFF_ABCD);
    value == 0x2233 && port.read(Space::User, Piece { at: 0, len: 4 }) == Ok(0x0011_ABCD)
}

/// Whether lines are refused and taken, and a register is set.
fn takes_lines(port: &mut VectorPort) -> bool {
    let refused = port.read_line(Space::User, 0).is_err();
    port.hole = u32::MAX;
    port.set_mmu(MmuReg::Dtt1, 7);
    refused
        && port.write_line(Space::User, 0, [1, 2, 3, 4]).is_ok()
        && port.read_line(Space::User, 0) == Ok([1, 2, 3, 4])
        && port.mmu().dtt1 == 7
}

#[test]
fn calls_by_hand(rt: HostRuntime) -> Result<(), AllocError> {
    let mut port = port_of(rt.alloc(), &LONGS, 13)?;
    assert!(rt; accesses(&mut port) && finds_a_place(&mut port) && takes_lines(&mut port));
    Ok(())
}
