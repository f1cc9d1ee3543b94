//! Fills by hand.

ghost use Rattle.std.specs.Prelude.{◌<◌, ◌^◌};
ghost use Rattle.vm_shadow.specs.Area.{Maps};

use crate::memory::{Bytes, SIZE, SPACES};
use Act::{Fill, Find, IsFull};
use Space::{Super, User};
use mb_model::{Kept, PAGE_SIZE};
use mb_port::Space;
use mb_walk::{Found, Ram, search};
use std::alloc::Global;
use vm_shadow::Shadow;

/// The area is the second of the memory's three parts.
const AREA: u32 = 0x1_0000;

/// Memory with a shadow in it.
#[derive(Drop)]
struct Guest {
    ram: Bytes,
    shadow: Shadow,
    ghost tables: { Maps shadow ram.memory.items },
}

impl Guest {
    /// An empty shadow in memory of other bytes.
    fn new(alloc: Global) -> Option<Guest> {
        let mut ram = Bytes::filled(alloc, 7)?;
        let mut shadow = Shadow::new(alloc, AREA).ok()?;
        shadow.clear(&mut ram);
        Some(Guest { ram, shadow })
    }

    fn fill(&mut self, space: Space, page: u32, frame: u32, writable: bool) -> bool
        requires page { page < 2 ^ 20 }
        requires frame { frame < 2 ^ 20 }
    {
        self.shadow
            .fill(&mut self.ram, space, page, frame, writable)
    }

    fn is_full_for(&self, space: Space, page: u32) -> bool
        requires { page < 2 ^ 20 }
    {
        self.shadow.is_full_for(&self.ram, space, page)
    }

    fn drop_page(&mut self, space: Space, page: u32)
        requires { page < 2 ^ 20 }
    {
        self.shadow.drop_page(&mut self.ram, space, page);
    }

    /// Drops a page, where there can be one.
    fn has_dropped(&mut self, space: Space, page: u32) -> bool {
        if page >= 0x10_0000 {
            return false;
        }
        self.drop_page(space, page);
        true
    }

    fn find(&self, space: Space, page: u32) -> Option<(u32, bool)>
        requires { page < 2 ^ 20 }
    {
        self.shadow.find(&self.ram, space, page)
    }
}

/// What is done to a shadow or asked of it, in one space, and what comes of it.
enum Act {
    /// Fills a page with a frame that takes writes or not, which clears the area or not.
    Fill(u32, u32, bool, bool),
    Drop(u32),
    Find(u32, Option<(u32, bool)>),
    IsFull(u32, bool),
}

impl Act {
    /// Whether it comes to what it should.
    fn holds(&self, guest: &mut Guest, space: Space) -> bool {
        match *self {
            Fill(page, frame, writable, clears) => {
                page < 0x10_0000
                    && frame < 0x10_0000
                    && guest.fill(space, page, frame, writable) == clears
            }
            Act::Drop(page) => guest.has_dropped(space, page),
            Find(page, found) => page < 0x10_0000 && guest.find(space, page) == found,
            IsFull(page, full) => page < 0x10_0000 && guest.is_full_for(space, page) == full,
        }
    }
}

/// Whether all of these come to what they should.
fn carry_out(guest: &mut Guest, space: Space, acts: &[Act]) -> bool {
    for act in acts {
        if !act.holds(guest, space) {
            return false;
        }
    }
    true
}

/// Fills 125 pages, each with a page table of its own. Whether none cleared the area.
fn fills_all(guest: &mut Guest, space: Space) -> bool {
    for k in 0..125u32 {
        if guest.fill(space, 64 * k, k, true) {
            return false;
        }
    }
    true
}

/// Whether all of them are found but that of number 3.
fn finds_all_but_one(guest: &Guest, space: Space) -> bool {
    for k in 0..125u32 {
        if k != 3 && guest.find(space, 64 * k) != Some((k, true)) {
            return false;
        }
    }
    true
}

/// Whether none of them is found.
fn finds_none(guest: &Guest, space: Space) -> bool {
    for k in 0..125u32 {
        if guest.find(space, 64 * k).is_some() {
            return false;
        }
    }
    true
}

/// One table is freed, and another one takes its place.
#[rattlefmt::skip]
static FREES: [Act; 8] = [
    Find(64 * 124, Some((124, true))), IsFull(64 * 124 + 63, false), IsFull(64 * 125, true),
    Act::Drop(192), IsFull(8000, false), Fill(8000, 1, true, false), Find(192, None), Find(8000, Some((1, true))),
];

/// The first takes its place again, and a further one clears the area.
#[rattlefmt::skip]
static CLEARS: [Act; 4] = [
    Act::Drop(8000), Fill(192, 3, true, false), Fill(64 * 125, 0xF_FFFF, false, true),
    Find(64 * 125, Some((0xF_FFFF, false))),
];

/// An area is full with 125 page tables below as many entries of one pointer table: one that is empty is freed, and a
/// further one clears the area whole.
#[test]
fn a_full_area_is_cleared_whole(rt: HostRuntime) {
    for &space in &SPACES {
        let mut guest = Guest::new(rt.alloc()).expect(&rt, "memory");
        assert!(rt; fills_all(&mut guest, space) && carry_out(&mut guest, space, &FREES));
        assert!(rt; finds_all_but_one(&guest, space));
        assert!(rt; carry_out(&mut guest, space, &CLEARS) && finds_none(&guest, space));
        // nothing below the area
        assert!(rt; guest.ram.long(AREA - 4) == 0x0707_0707);
    }
}

/// Two entries of one table, one of them filled twice.
#[rattlefmt::skip]
static TWO: [Act; 8] = [
    Fill(5, 1, true, false), Fill(6, 2, true, false), Fill(6, 3, false, false), Act::Drop(5), Find(5, None),
    Find(6, Some((3, false))), Act::Drop(6), Act::Drop(6),
];

/// Fills 63 pages, each with a page table and a pointer table of its own. Whether none cleared the area.
fn fills_slots(guest: &mut Guest, round: u32) -> bool
    requires { round < 3 }
{
    for k in 0..63u32 {
        if guest.fill(Super, 8192 * k, 100 * round + k, true) {
            return false;
        }
    }
    true
}

/// Whether all slots are taken.
fn is_full(guest: &Guest) -> bool {
    guest.is_full_for(Super, 64) && guest.is_full_for(User, 0) && !guest.is_full_for(Super, 63)
}

/// Drops those pages. Whether each was found.
fn frees_slots(guest: &mut Guest, round: u32) -> bool
    requires { round < 3 }
{
    for k in 0..63u32 {
        if guest.find(Super, 8192 * k) != Some((100 * round + k, true)) {
            return false;
        }
        guest.drop_page(Super, 8192 * k);
    }
    true
}

/// Whether no entry stands in the area.
fn is_empty(ram: &Bytes) -> bool {
    for index in 0..0x1_0000u32 / 4 {
        if ram.long(AREA + 4 * index) != 0 {
            return false;
        }
    }
    true
}

#[test]
fn slots_are_taken_and_freed(rt: HostRuntime) {
    let mut guest = Guest::new(rt.alloc()).expect(&rt, "memory");
    assert!(rt; carry_out(&mut guest, User, &TWO));
    assert!(rt; guest.ram.long(AREA) == 0 && guest.ram.long(AREA + 0x400) == 0);
    // all slots are taken, again and again
    for round in 0..3u32 {
        assert!(rt; fills_slots(&mut guest, round) && is_full(&guest));
        assert!(rt; frees_slots(&mut guest, round));
    }
    assert!(rt; is_empty(&guest.ram));
}

/// The space, the page, the frame, and whether it takes writes.
static ENTRIES: [(Space, u32, u32, bool); 4] = [
    (User, 0, 0x123, true),
    (Super, 0, 0x124, false),
    (Super, 0xF_FFFF, 0xF_FFFF, true),
    (User, 0x2043, 0, false),
];

/// The root's entries and those of the tables below, in the order in which they came to stand: each is resident and
/// used, a page's is modified, and it is write-protected where the page takes no writes.
static LONGS: [(u32, u32); 6] = [
    (AREA, 0x0001_040A),
    (AREA + 0x400, 0x0001_060A),
    (AREA + 0x600, 0x0012_3019),
    (AREA + 0x200, 0x0001_080A),
    (AREA + 0x800, 0x0001_0A0A),
    (AREA + 0xA00, 0x0012_401D),
];

/// Fills those entries. Whether each is found then, and none cleared the area.
fn fills_entries(guest: &mut Guest) -> bool {
    for &(space, page, frame, writable) in &ENTRIES {
        if page >= 0x10_0000
            || frame >= 0x10_0000
            || guest.fill(space, page, frame, writable)
            || guest.find(space, page) != Some((frame, writable))
        {
            return false;
        }
    }
    true
}

/// Whether those longs stand in memory.
fn has_longs(ram: &Bytes) -> bool {
    for &(at, long) in &LONGS {
        if at % 4 != 0 || at > SIZE - 4 || ram.long(at) != long {
            return false;
        }
    }
    true
}

/// What a search from a root for a write to a page finds.
fn search_page(ram: &mut Bytes, root: u32, page: u32) -> Option<Kept> {
    let at = page.wrapping_mul(PAGE_SIZE);
    match search(ram, root, User, at, true, false) {
        Found::Entry(kept, _) => Some(kept),
        _ => None,
    }
}

/// Whether a search finds each entry.
fn searches_find(ram: &mut Bytes, shadow: &Shadow) -> bool {
    for &(space, page, frame, writable) in &ENTRIES {
        let wanted = Kept {
            space: User,
            page,
            frame,
            w: !writable,
            s: false,
            g: false,
            m: true,
        };
        if search_page(ram, shadow.root(space), page) != Some(wanted) {
            return false;
        }
    }
    true
}

#[test]
fn a_search_finds_the_entries(rt: HostRuntime) {
    let mut guest = Guest::new(rt.alloc()).expect(&rt, "memory");
    assert!(rt; guest.shadow.root(User) == AREA && guest.shadow.root(Super) == AREA + 512);
    assert!(rt; !guest.fill(User, 0, 9, false) && fills_entries(&mut guest));
    let Guest { mut ram, shadow } = guest;
    assert!(rt; has_longs(&ram) && searches_find(&mut ram, &shadow));
    let root = shadow.root(Super);
    assert!(rt; search(&mut ram, root, Super, 0x204_3000, false, false) == Found::Invalid);
}
