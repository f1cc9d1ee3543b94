//! Walks worked by hand, with each kind of descriptor.

use crate::memory::{Bytes, SIZE};
use Space::{Super, User};
use mb_model::Kept;
use mb_port::Space;
use mb_walk::{Found, PageDescriptor, Ram, TableDescriptor, search, transparent};
use std::alloc::Global;

/// Memory of zeros but for these longs.
fn memory(alloc: Global, longs: &[(u32, u32)]) -> Option<Bytes> {
    let mut bytes = Bytes::filled(alloc, 0)?;
    set(&mut bytes, longs);
    Some(bytes)
}

fn set(bytes: &mut Bytes, longs: &[(u32, u32)]) {
    for (at, value) in longs {
        if at % 4 == 0 && *at <= SIZE - 4 {
            bytes.set_long(*at, *value);
        }
    }
}

/// The address that the walks below search for, and its page: entry 1 of the root and of the pointer table, entry 3 of
/// the page table.
const AT: u32 = 0x0204_3ABC;

/// The tables' descriptors on the way, at $8004 and $8204, with the page table at $8400.
static TABLES: [(u32, u32); 2] = [(0x8004, 0x0000_8202), (0x8204, 0x0000_8403)];

/// The place of the page's entry.
const ENTRY: u32 = 0x840C;

/// What is kept of frame $123 in user space.
const KEPT: Kept = Kept {
    space: User,
    page: 0x2043,
    frame: 0x123,
    w: false,
    s: false,
    g: false,
    m: false,
};

/// A search: the space, a write, the longs that stand beside or in place of the tables' and those that hold something
/// else afterwards, and what is found.
type Walk = (
    Space,
    bool,
    &'static [(u32, u32)],
    &'static [(u32, u32)],
    Found,
);

#[rattlefmt::skip]
static WALKS: [Walk; 20] = [
    (User, false, &[(ENTRY, 0x0012_3001)], &[(ENTRY, 0x0012_3009)], Found::Entry(KEPT, 0x0012_3001)),
    (User, true, &[(ENTRY, 0x0012_3001)], &[(ENTRY, 0x0012_3019)],
     Found::Entry(Kept { m: true, ..KEPT }, 0x0012_3011)),
    // PDT 3, with G, U1, U0 and CM
    (Super, false, &[(ENTRY, 0x0012_3763)], &[(ENTRY, 0x0012_376B)],
     Found::Entry(Kept { space: Super, g: true, ..KEPT }, 0x0012_3761)),
    // used and modified before
    (User, false, &[(ENTRY, 0x0012_3019)], &[], Found::Entry(Kept { m: true, ..KEPT }, 0x0012_3011)),
    // W of the page, of the pointer table and of the page table; M stays as it was
    (User, true, &[(ENTRY, 0x0012_3005)], &[(ENTRY, 0x0012_300D)],
     Found::Entry(Kept { w: true, ..KEPT }, 0x0012_3005)),
    (User, true, &[(ENTRY, 0x0012_3015)], &[(ENTRY, 0x0012_301D)],
     Found::Entry(Kept { w: true, m: true, ..KEPT }, 0x0012_3015)),
    (User, true, &[(0x8004, 0x0000_8206), (ENTRY, 0x0012_3001)], &[(0x8004, 0x0000_820E), (ENTRY, 0x0012_3009)],
     Found::Entry(Kept { w: true, ..KEPT }, 0x0012_3005)),
    (User, true, &[(0x8204, 0x0000_8407), (ENTRY, 0x0012_3001)], &[(0x8204, 0x0000_840F), (ENTRY, 0x0012_3009)],
     Found::Entry(Kept { w: true, ..KEPT }, 0x0012_3005)),
    // S, from each space
    (User, true, &[(ENTRY, 0x0012_3081)], &[(ENTRY, 0x0012_3089)],
     Found::Entry(Kept { s: true, ..KEPT }, 0x0012_3081)),
    (Super, true, &[(ENTRY, 0x0012_3081)], &[(ENTRY, 0x0012_3099)],
     Found::Entry(Kept { space: Super, s: true, m: true, ..KEPT }, 0x0012_3091)),
    // bits 7 to 4 of a table's descriptor say nothing
    (User, true, &[(0x8204, 0x0000_84F3), (ENTRY, 0x0012_3001)], &[(0x8204, 0x0000_84FB), (ENTRY, 0x0012_3019)],
     Found::Entry(Kept { m: true, ..KEPT }, 0x0012_3011)),
    // indirect, once and twice, and outside memory
    (User, true, &[(ENTRY, 0x0000_8502), (0x8500, 0x0012_3001)], &[(0x8500, 0x0012_3019)],
     Found::Entry(Kept { m: true, ..KEPT }, 0x0012_3011)),
    (User, true, &[(ENTRY, 0x0000_8502), (0x8500, 0x0000_8602), (0x8600, 0x0012_3001)], &[], Found::Invalid),
    (User, true, &[(ENTRY, 0x0003_0002)], &[], Found::BusError),
    (User, true, &[(ENTRY, 0xFFFF_FFFE)], &[], Found::BusError),
    // invalid at each level
    (User, true, &[(ENTRY, 0x0012_3000)], &[], Found::Invalid),
    (User, true, &[(0x8204, 0x0000_8401)], &[(0x8204, 0x0000_8401)], Found::Invalid),
    (User, true, &[(0x8004, 0x0000_8201)], &[(0x8004, 0x0000_8201), (0x8204, 0x0000_8403)], Found::Invalid),
    // a table outside memory
    (User, true, &[(0x8004, 0x0003_0002)], &[(0x8004, 0x0003_000A), (0x8204, 0x0000_8403)], Found::BusError),
    (User, true, &[(0x8204, 0xFFFF_FF03)], &[(0x8204, 0xFFFF_FF0B)], Found::BusError),
];

/// The tables' descriptors afterwards: each is used.
static USED_TABLES: [(u32, u32); 2] = [(0x8004, 0x0000_820A), (0x8204, 0x0000_840B)];

/// Whether a search from the root at $8000 finds what it should, and leaves what it should.
fn finds(
    bytes: &mut Bytes,
    after: &Bytes,
    space: Space,
    at: u32,
    write: bool,
    big: bool,
    wanted: Found,
) -> bool {
    search(bytes, 0x8000, space, at, write, big) == wanted && bytes.memory == after.memory
}

/// Memory before the search of a walk.
fn before_walk(alloc: Global, longs: &[(u32, u32)]) -> Option<Bytes> {
    let mut bytes = memory(alloc, &TABLES)?;
    set(&mut bytes, longs);
    Some(bytes)
}

/// Memory after it.
fn after_walk(alloc: Global, longs: &[(u32, u32)], left: &[(u32, u32)]) -> Option<Bytes> {
    let mut bytes = before_walk(alloc, longs)?;
    set(&mut bytes, &USED_TABLES);
    set(&mut bytes, left);
    Some(bytes)
}

#[test]
fn walks_by_hand(rt: HostRuntime) {
    for &(space, write, longs, left, wanted) in &WALKS {
        let mut bytes = before_walk(rt.alloc(), longs).expect(&rt, "memory");
        let after = after_walk(rt.alloc(), longs, left).expect(&rt, "memory");
        let found = finds(&mut bytes, &after, space, AT, write, false, wanted);
        assert!(rt; found, "{wanted:?}");
    }
    // a root that is its own table, and one outside memory
    let mut bytes = memory(rt.alloc(), &[(0x8000, 0x0000_8002)]).expect(&rt, "memory");
    let after = memory(rt.alloc(), &[(0x8000, 0x0000_800A)]).expect(&rt, "memory");
    assert!(rt; finds(&mut bytes, &after, Super, 0, false, false, Found::Invalid));
    let outside = search(&mut bytes, 0x10_0000, Super, 0, false, false);
    assert!(rt; outside == Found::BusError);
}

/// An address, whether pages have 8 KiB, the page's descriptor, the page, its frame and MMUSR, where one is found, and
/// the descriptor afterwards.
#[rattlefmt::skip]
static BIG_WALKS: [(u32, bool, u32, Option<(u32, u32, u32)>, u32); 5] = [
    (0x3456, true, 0x0000_A001, Some((3, 0xB, 0x0000_A001)), 0x0000_A009),
    (0x2456, true, 0x0000_A001, Some((2, 0xA, 0x0000_A001)), 0x0000_A009),
    // bit 12 of the descriptor is none of the frame's, and MMUSR's is 0
    (0x2FFC, true, 0x0000_B001, Some((2, 0xA, 0x0000_A001)), 0x0000_B009),
    (0x3456, false, 0x0000_A001, None, 0x0000_A001),
    (0x1456, false, 0x0000_A001, Some((1, 0xA, 0x0000_A001)), 0x0000_A009),
];

/// The tables' descriptors on the way, with the page table at $8400, and afterwards: each is used.
static BIG_TABLES: [(u32, u32); 2] = [(0x8000, 0x0000_8202), (0x8200, 0x0000_8402)];

static USED_BIG_TABLES: [(u32, u32); 2] = [(0x8000, 0x0000_820A), (0x8200, 0x0000_840A)];

/// What is found of a page, its frame and MMUSR.
fn found_of(found: Option<(u32, u32, u32)>) -> Found {
    match found {
        Some((page, frame, status)) => {
            let kept = Kept {
                space: Super,
                page,
                frame,
                ..KEPT
            };
            Found::Entry(kept, status)
        }
        None => Found::Invalid,
    }
}

/// Memory of tables and a page's descriptor.
fn big_memory(alloc: Global, tables: &[(u32, u32)], long: u32) -> Option<Bytes> {
    let mut bytes = memory(alloc, tables)?;
    set(&mut bytes, &[(0x8404, long)]);
    Some(bytes)
}

#[test]
fn walks_through_pages_of_8_kib(rt: HostRuntime) {
    for &(at, big, long, found, left) in &BIG_WALKS {
        let mut bytes = big_memory(rt.alloc(), &BIG_TABLES, long).expect(&rt, "memory");
        let after = big_memory(rt.alloc(), &USED_BIG_TABLES, left).expect(&rt, "memory");
        let found = finds(&mut bytes, &after, Super, at, false, big, found_of(found));
        assert!(rt; found, "at {at:x}");
    }
}

/// The two registers, a space, an address, and the write protection of the one that matches.
#[rattlefmt::skip]
static TRANSPARENT: [(u32, u32, Space, u32, Option<bool>); 12] = [
    (0, 0, Super, 0, None),
    (0x00FF_A000, 0, Super, 0x1234_5678, Some(false)),
    (0x00FF_A000, 0, User, 0x1234_5678, None),
    (0x0100_8004, 0, User, 0x01AB_CDEF, Some(true)),
    (0x0100_8004, 0, User, 0x02AB_CDEF, None),
    (0x0100_8004, 0, Super, 0x01AB_CDEF, None),
    (0x0100_C000, 0, User, 0x0100_0000, Some(false)),
    (0x0100_E000, 0, Super, 0x01FF_FFFF, Some(false)),
    (0x120F_C000, 0, User, 0x1F00_0000, Some(false)),
    (0x120F_C000, 0, User, 0x2200_0000, None),
    (0x0100_4000, 0x00FF_C004, User, 0x0100_0000, Some(true)),
    (0x0100_C000, 0x00FF_C004, User, 0x0100_0000, Some(false)),
];

/// Whether two descriptors of tables have their parts.
fn tables_have_parts() -> bool {
    let table = TableDescriptor::of(0x0000_820E);
    table.resident && table.protected && table.used && !TableDescriptor::of(0x0000_8201).resident
}

/// Whether two descriptors of pages have their parts.
fn pages_have_parts() -> bool {
    let page = PageDescriptor::of(0x0012_3493);
    (page.resident && !page.indirect && !page.protected && !page.used)
        && (page.modified && page.supervisor && page.global && page.frame == 0x123)
        && PageDescriptor::of(0x0000_8502).indirect
}

#[test]
#[rattlefmt::skip]
fn registers_descriptors_and_results_by_hand(rt: HostRuntime) {
    for &(tt0, tt1, space, at, wanted) in &TRANSPARENT {
        assert!(rt; transparent(tt0, tt1, space, at) == wanted, "{tt0:x} {tt1:x} at {at:x}");
    }
    assert!(rt; tables_have_parts() && pages_have_parts());
    assert!(rt; Found::Entry(KEPT, 0x0012_3001).status() == 0x0012_3001);
    assert!(rt; Found::Invalid.status() == 0 && Found::BusError.status() == 0x800);
}
