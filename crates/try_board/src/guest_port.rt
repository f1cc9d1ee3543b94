//! A guest's bus over plain memory, worked by hand.

ghost use Rattle.std.specs.Prelude.{◌≡◌, ◌%◌, ◌<◌, ◌^◌, IsTrue};
ghost use Rattle.mb_port.specs.Flushes.{NamesPage};
ghost use Rattle.vm_shadow.specs.Area.{Maps};
ghost use Rattle.vm_shadow.specs.Mapped.{shadowed};
ghost use Rattle.vm_port.specs.Own.{IsPlaced};

use crate::memory::{Bytes, SPACES};
use Act::{Fetch, Find, Read, Set, SetMmu, Test, Write};
use Space::{Super, User};
use mb_devices::Devices;
use mb_model::Cpu;
use mb_port::{Flush, Mmu, MmuReg, Piece, Place, Port, Space};
use mb_step::{Decoder, StepEnd, step};
use mb_walk::Ram;
use std::alloc::Global;
use vm_port::{GuestMemory, GuestPort};
use vm_shadow::Shadow;
use vm_tlb::Tlb;

/// Where the guest's RAM begins, and its bytes: 16 pages from frame 16 on. Its area stands behind it.
const BASE: u32 = 0x1_0000;

const SIZE: u32 = 0x1_0000;

/// The guest's own tables: the root, one pointer table, and one page table, to which each pointer leads.
const ROOT: u32 = 0xC000;

const POINTERS: u32 = 0xC200;

const PAGES: u32 = 0xC400;

/// What an expression comes to over the bus of a guest, which it names.
macro_rules! on_bus {
    ($guest:expr, $bus:ident => $act:expr) => {{
        let ram = &mut $guest.ram;
        let memory = GuestMemory::new(ram, BASE, SIZE, &mut $guest.shadow);
        let mut $bus = GuestPort::new(memory, &mut $guest.devices, &mut $guest.mmu, &mut $guest.tlb);
        let result = $act;
        let _ = ram.size();
        result
    }};
}

/// What a guest's bus borrows.
#[derive(Drop)]
struct Guest {
    ram: Bytes,
    devices: Devices,
    mmu: Mmu,
    tlb: Tlb,
    shadow: Shadow,
    ghost area: { shadow.area ≡ 0x20000 },
    ghost maps: { Maps shadow ram.memory.items },
    ghost placed: { IsPlaced 0x10000 (shadowed shadow ram.memory.items) },
}

impl Guest {
    /// A guest with zeros in its RAM and nothing kept, whose translation is off.
    fn new(alloc: Global) -> Option<Guest> {
        let mut ram = Bytes::filled(alloc, 0)?;
        let devices = Devices::new(alloc, SIZE).ok()?;
        let tlb = Tlb::new(alloc).ok()?;
        let mut shadow = Shadow::new(alloc, BASE + SIZE).ok()?;
        shadow.clear(&mut ram);
        Some(Guest {
            ram,
            devices,
            mmu: Mmu {
                tc: 0,
                itt0: 0,
                itt1: 0,
                dtt0: 0,
                dtt1: 0,
                mmusr: 0,
                urp: 0,
                srp: 0,
            },
            tlb,
            shadow,
        })
    }

    /// A guest whose pages are translated to themselves, as are those 64 pages further, and so on.
    fn translated(alloc: Global) -> Option<Guest> {
        let mut guest = Guest::new(alloc)?;
        guest.set(ROOT, POINTERS + 2);
        for index in 0..128u32 {
            guest.set(POINTERS + 4 * index, PAGES + 2);
        }
        for page in 0..16u32 {
            guest.set(PAGES + 4 * page, page * 0x1000 + 1);
        }
        guest.set_mmu(MmuReg::Urp, ROOT);
        guest.set_mmu(MmuReg::Srp, ROOT);
        guest.set_mmu(MmuReg::Tc, 0x8000);
        Some(guest)
    }

    /// Sets a long of its RAM.
    fn set(&mut self, at: u32, value: u32)
        requires { at % 4 ≡ 0 }
    {
        on_bus!(self, bus => bus.put(Place { at, len: 4 }, value));
    }

    /// Sets a long of its RAM, where there is one.
    fn has_set(&mut self, at: u32, value: u32) -> bool {
        if at % 4 != 0 || at >= SIZE {
            return false;
        }
        self.set(at, value);
        true
    }

    /// Flushes, where a page is named that there can be.
    fn has_flushed(&mut self, what: Flush) -> bool {
        if !names_page(what) {
            return false;
        }
        self.flush(what);
        true
    }

    fn fetch(&mut self, space: Space, at: u32) -> Option<u16>
        requires { at % 2 ≡ 0 }
    {
        on_bus!(self, bus => bus.fetch(space, at).ok())
    }

    /// Reads a long.
    fn read(&mut self, space: Space, at: u32) -> Option<u32>
        requires { at % 4 ≡ 0 }
    {
        on_bus!(self, bus => bus.read(space, Piece { at, len: 4 }).ok())
    }

    /// Writes a long.
    fn write(&mut self, space: Space, at: u32, value: u32) -> Option<()>
        requires { at % 4 ≡ 0 }
    {
        on_bus!(self, bus => bus.write(space, Piece { at, len: 4 }, value).ok())
    }

    fn set_mmu(&mut self, which: MmuReg, value: u32) {
        on_bus!(self, bus => bus.set_mmu(which, value));
    }

    fn flush(&mut self, what: Flush)
        requires { NamesPage what }
    {
        on_bus!(self, bus => bus.flush(what));
    }

    fn test(&mut self, space: Space, at: u32) -> u32 {
        on_bus!(self, bus => bus.test(space, at, false))
    }

    fn step(&mut self, decoder: &mut Decoder, cpu: &mut Cpu) -> StepEnd {
        on_bus!(self, bus => step(decoder, cpu, &mut bus, 0))
    }

    /// What its shadow has of a page: a frame of memory, and whether it takes writes.
    fn find(&self, space: Space, page: u32) -> Option<(u32, bool)>
        requires { page < 2 ^ 20 }
    {
        self.shadow.find(&self.ram, space, page)
    }
}

/// What is done to a guest's bus or asked of it, and what comes of it.
enum Act {
    /// Sets a long of its RAM.
    Set(u32, u32),
    /// Fetches a word, 0.
    Fetch(Space, u32),
    /// Reads a long.
    Read(Space, u32, u32),
    /// Writes a long, or is refused.
    Write(Space, u32, u32, bool),
    SetMmu(MmuReg, u32),
    Flush(Flush),
    /// What a test of a page answers.
    Test(Space, u32, u32),
    /// What the shadow has of a page.
    Find(Space, u32, Option<(u32, bool)>),
}

impl Act {
    /// Whether it comes to what it should.
    fn holds(&self, guest: &mut Guest) -> bool {
        match *self {
            Set(at, value) => guest.has_set(at, value),
            Fetch(space, at) => at % 2 == 0 && guest.fetch(space, at) == Some(0),
            Read(space, at, value) => at % 4 == 0 && guest.read(space, at) == Some(value),
            Write(space, at, value, taken) => {
                at % 4 == 0 && guest.write(space, at, value).is_some() == taken
            }
            SetMmu(which, value) => {
                guest.set_mmu(which, value);
                true
            }
            Act::Flush(what) => guest.has_flushed(what),
            Test(space, at, status) => guest.test(space, at) == status,
            Find(space, page, found) => page < 0x10_0000 && guest.find(space, page) == found,
        }
    }
}

/// Whether all of these come to what they should.
fn carry_out(guest: &mut Guest, acts: &[Act]) -> bool {
    for act in acts {
        if !act.holds(guest) {
            return false;
        }
    }
    true
}

/// Lists of acts of guests whose pages are translated to themselves.
#[rattlefmt::skip]
static TRANSLATED: [&[Act]; 3] = [
    // a changed descriptor counts after a flush
    &[
        Set(0x5000, 0x55), Set(0x6000, 0x66), Read(Super, 0x5000, 0x55), Find(Super, 5, Some((21, false))),
        Set(PAGES + 20, 0x6001), Read(Super, 0x5000, 0x55), Find(Super, 5, Some((21, false))),
        Act::Flush(Flush::Page(Super, 5)), Find(Super, 5, None), Read(Super, 0x5000, 0x66),
        Find(Super, 5, Some((22, false))), Find(User, 5, None),
    ],
    // a page that was read is put again as writable
    &[
        Read(Super, 0x5000, 0), Find(Super, 5, Some((21, false))), Read(Super, PAGES + 20, 0x5009),
        Write(Super, 0x5004, 7, true), Find(Super, 5, Some((21, true))), Read(Super, PAGES + 20, 0x5019),
        Read(Super, 0x5004, 7),
    ],
    // a test drops its page
    &[
        Read(User, 0x5000, 0), Read(Super, 0x5000, 0), Test(Super, 0x5FFC, 0x5001), Find(Super, 5, None),
        Find(User, 5, Some((21, false))),
    ],
];

/// Acts of a guest whose translation is off.
#[rattlefmt::skip]
static SPLIT: [Act; 13] = [
    // the low 16 MiB, of code alone
    SetMmu(MmuReg::Itt0, 0xC000), Fetch(Super, 0x5000), Read(Super, 0x5000, 0), Write(Super, 0x5000, 1, true),
    Find(Super, 5, None),
    // and of data too, where writes are refused
    SetMmu(MmuReg::Dtt0, 0xC004), Write(Super, 0x5000, 2, false), Find(Super, 5, None), Read(Super, 0x5000, 1),
    Find(Super, 5, Some((21, false))),
    SetMmu(MmuReg::Dtt0, 0xC000), Fetch(Super, 0x5000), Find(Super, 5, Some((21, true))),
];

#[test]
fn pages_are_put_and_dropped(rt: HostRuntime) {
    for (number, acts) in TRANSLATED.iter().enumerate() {
        let mut guest = Guest::translated(rt.alloc()).expect(&rt, "memory");
        assert!(rt; carry_out(&mut guest, acts), "list {number}");
    }
    let mut guest = Guest::new(rt.alloc()).expect(&rt, "memory");
    assert!(rt; carry_out(&mut guest, &SPLIT), "a split page is never put");
}

/// What is flushed, and which of the four entries it leaves: page 5 in user and supervisor space, and page 6, which is
/// global.
static FLUSHES: [(Flush, [bool; 4]); 6] = [
    (Flush::All, [false, false, false, false]),
    (Flush::AllLocal, [false, false, true, true]),
    (Flush::Page(User, 5), [false, true, true, true]),
    (Flush::Page(Super, 6), [true, true, true, false]),
    (Flush::PageLocal(Super, 5), [true, false, true, true]),
    (Flush::PageLocal(User, 6), [true, true, true, true]),
];

/// Whether a flush names a page, where it names one.
fn names_page(what: Flush) -> bool
    ensures { IsTrue result → NamesPage what }
{
    match what {
        Flush::All | Flush::AllLocal => true,
        Flush::Page(_, page) | Flush::PageLocal(_, page) => page < 0x10_0000,
    }
}

/// Each register that forgets, with the value that it has already; MMUSR does not.
static REGISTERS: [(MmuReg, u32, Option<(u32, bool)>); 8] = [
    (MmuReg::Tc, 0x8000, None),
    (MmuReg::Itt0, 0, None),
    (MmuReg::Itt1, 0, None),
    (MmuReg::Dtt0, 0, None),
    (MmuReg::Dtt1, 0, None),
    (MmuReg::Urp, ROOT, None),
    (MmuReg::Srp, ROOT, None),
    (MmuReg::Mmusr, 0xFFFF_FFFF, Some((21, false))),
];

/// Pages 5 and 6 are read in both spaces, page 6 as a global one.
#[rattlefmt::skip]
static READS: [Act; 5] = [
    Set(PAGES + 24, 0x6401), Read(User, 0x5000, 0), Read(User, 0x6000, 0), Read(Super, 0x5000, 0),
    Read(Super, 0x6000, 0),
];

/// Which of the four entries the shadow has.
fn has_four(guest: &Guest) -> [bool; 4] {
    [
        guest.find(User, 5).is_some(),
        guest.find(Super, 5).is_some(),
        guest.find(User, 6).is_some(),
        guest.find(Super, 6).is_some(),
    ]
}

/// Whether the shadow has this of page 5 in both spaces.
fn has_both(guest: &Guest, found: Option<(u32, bool)>) -> bool {
    guest.find(User, 5) == found && guest.find(Super, 5) == found
}

#[test]
fn flushes_and_written_registers_drop_pages(rt: HostRuntime) {
    for &(what, left) in &FLUSHES {
        let mut guest = Guest::translated(rt.alloc()).expect(&rt, "memory");
        let flushed = carry_out(&mut guest, &READS) && guest.has_flushed(what);
        assert!(rt; flushed && has_four(&guest) == left, "{what:?}");
    }
    for &(which, value, left) in &REGISTERS {
        let mut guest = Guest::translated(rt.alloc()).expect(&rt, "memory");
        assert!(rt; carry_out(&mut guest, &READS) && has_both(&guest, Some((21, false))));
        guest.set_mmu(which, value);
        assert!(rt; has_both(&guest, left), "{which:?}");
    }
}

/// A step of CMPM.L (A0)+,(A1)+ at $400, where (A0) is the descriptor of its own page. Whether PC and SR are then as
/// after equal longs.
fn compares(decoder: &mut Decoder, guest: &mut Guest) -> bool {
    let mut cpu = Cpu::at_reset(0x8000, 0x400);
    cpu.regs.a[0] = PAGES + 0x30;
    cpu.regs.a[1] = 0x3000;
    let end = guest.step(decoder, &mut cpu);
    end == StepEnd::Went && cpu.regs.pc == 0x402 && cpu.regs.sr == 0x2704
}

/// What stands before that step.
static BEFORE: [Act; 2] = [Set(0x400, 0xB388_4E71), Set(0x3000, 0xC009)];

/// What is found after it.
static AFTER: [Act; 3] = [
    Find(Super, 0xC, Some((28, false))),
    Find(Super, 3, Some((19, false))),
    Find(Super, 0, Some((16, false))),
];

#[test]
fn a_compare_reads_what_its_own_search_marks(rt: HostRuntime) {
    let mut decoder = Decoder::new(rt.alloc()).expect(&rt, "memory");
    let mut guest = Guest::translated(rt.alloc()).expect(&rt, "memory");
    assert!(rt; carry_out(&mut guest, &BEFORE));
    assert!(rt; compares(&mut decoder, &mut guest));
    assert!(rt; carry_out(&mut guest, &AFTER));
}

/// Whether 125 pages can be read, each below a page table of its own: 126 tables stand then, one of them of pointers.
fn fills_area(guest: &mut Guest, space: Space) -> bool {
    for index in 0..125u32 {
        if guest.read(space, 0x4_0000 * index) != Some(0) {
            return false;
        }
    }
    true
}

/// Frame 16, read alone.
const FIRST: Option<(u32, bool)> = Some((16, false));

/// Whether the shadow has this of the first page, of the last one and of a further one.
fn has_three(guest: &Guest, space: Space, wanted: &[Option<(u32, bool)>; 3]) -> bool {
    guest.find(space, 0) == wanted[0]
        && guest.find(space, 64 * 124) == wanted[1]
        && guest.find(space, 64 * 125) == wanted[2]
}

#[test]
fn a_full_area_goes_whole(rt: HostRuntime) {
    for &space in &SPACES {
        let mut guest = Guest::translated(rt.alloc()).expect(&rt, "memory");
        assert!(rt; fills_area(&mut guest, space));
        assert!(rt; has_three(&guest, space, &[FIRST, FIRST, None]));
        assert!(rt; guest.read(space, 0x4_0000 * 125) == Some(0));
        assert!(rt; has_three(&guest, space, &[None, None, FIRST]));
        // what is kept of a page is put again
        assert!(rt; guest.read(space, 0) == Some(0));
        assert!(rt; has_three(&guest, space, &[FIRST, None, FIRST]));
    }
}
