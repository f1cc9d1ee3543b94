//! Whole texts.

ghost use Rattle.std.specs.Prelude.{◌≡◌, []};
ghost use Rattle.mb_model.specs.Seen.{seen_of};

use arrayvec::ArrayVec;
use mb_model::{Cpu, Outcome, RunState};
use mb_outside::{MemSink, SinkFault};
use mb_port::Mmu;
use mb_report::{same, write_outcome};
use std::alloc::Global;

/// The registers of translation after reset.
const NO_MMU: Mmu = Mmu {
    tc: 0,
    itt0: 0,
    itt1: 0,
    dtt0: 0,
    dtt1: 0,
    mmusr: 0,
    urp: 0,
    srp: 0,
};

/// A machine without RAM that has nothing to show but its registers.
fn nothing<'a>(cpu: &'a Cpu, mmu: &'a Mmu) -> Outcome<'a>
    ensures { (seen_of result).ram ≡ [] }
{
    Outcome {
        cpu,
        mmu,
        console: b"",
        lost: 0,
        queue: ArrayVec::new(),
        ctrl: 0,
        status: 2,
        period: 0,
        count: 0,
        pending: 0,
        steps: 0,
        state: RunState::Running,
        ram: b"",
    }
}

/// A receive queue with these bytes, or the first sixteen of them.
fn queue_of(bytes: &[u8]) -> ArrayVec<u8, 16> {
    let mut queue = ArrayVec::new();
    for byte in bytes {
        let _taken = queue.try_push(*byte);
    }
    queue
}

fn zeros(alloc: Global, count: usize) -> Option<Vec<u8>> {
    vec![in alloc; 0u8; count].ok()
}

const WORKED: &str = "guest 1\nstate off\nsteps 3\nconsole 1\n41\nlost 0\nqueue 0\n\
D0 00000041\nD1 00000000\nD2 00000000\nD3 00000000\nD4 00000000\nD5 00000000\nD6 00000000\nD7 00000000\n\
A0 00000000\nA1 00000000\nA2 00000000\nA3 00000000\nA4 00000000\nA5 00000000\nA6 00000000\n\
USP 00000000\nISP 00010000\nMSP 00000000\nPC 00000412\nSR 00002700\n\
VBR 00000000\nSFC 00000000\nDFC 00000000\nCACR 00000000\n\
TC 00000000\nITT0 00000000\nITT1 00000000\nDTT0 00000000\nDTT1 00000000\nMMUSR 00000000\nURP 00000000\nSRP 00000000\n\
CTRL 00000000\nSTATUS 00000002\nPERIOD 00000000\nCOUNT 00000000\nPENDING 00000000\n\
00000000 00010000000004000000000000000000\n\
00000400 704113C0FFF0000023FC00000001FFF0\n\
00000410 00200000000000000000000000000000\n\
end\n";

/// The room of a sink, and what it takes.
static ROOMS: [(usize, Result<(), SinkFault>); 3] = [
    (100, Err(SinkFault)),
    (666, Err(SinkFault)),
    (667, Ok(())),
];

/// The program, which prints one character and switches the machine off.
static PROGRAM: [u8; 18] = [
    0x70, 0x41, 0x13, 0xc0, 0xff, 0xf0, 0, 0, 0x23, 0xfc, 0, 0, 0, 1, 0xff, 0xf0, 0, 0x20,
];

/// RAM with the program behind its vectors.
fn program_ram(alloc: Global) -> Option<Vec<u8>> {
    let mut ram = zeros(alloc, 0x1_0000)?;
    if ram.len() != 0x1_0000 {
        return None;
    }
    ram[..8].copy_from_slice(&[0, 1, 0, 0, 0, 0, 4, 0]);
    ram[0x400..0x412].copy_from_slice(&PROGRAM);
    Some(ram)
}

/// A sink with so much room.
fn sink(alloc: Global, room: usize) -> Option<MemSink> {
    MemSink::new(alloc, room, Vec::new(alloc)).ok()
}

/// Whether the text of the program's end is written, as far as there is room.
fn is_written(alloc: Global, ram: &[u8], room: usize, want: Result<(), SinkFault>) -> Option<bool> {
    if ram.len() != 0x1_0000 {
        return None;
    }
    let mut cpu = Cpu::at_reset(0x1_0000, 0x412);
    cpu.regs.d[0] = 0x41;
    let outcome = Outcome {
        console: b"A",
        steps: 3,
        state: RunState::Off,
        ram,
        ..nothing(&cpu, &NO_MMU)
    };
    let mut out = sink(alloc, room)?;
    let written = write_outcome(1, &outcome, &mut out) == want;
    Some(written && Some(out.bytes()) == WORKED.as_bytes().get(..room.min(667)))
}

/// The machine's outcome after its three steps.
#[test]
fn writes_a_program_that_ended(rt: HostRuntime) {
    let ram = program_ram(rt.alloc()).expect(&rt, "ample memory");
    assert!(rt; WORKED.len() == 667);
    for &(room, want) in &ROOMS {
        assert!(rt;
            is_written(rt.alloc(), &ram, room, want) == Some(true),
            "room {room}"
        );
    }
}

const FULL: &str = "guest 16\nstate running\nsteps 4294967295\nconsole 33\n\
000102030405060708090A0B0C0D0E0F101112131415161718191A1B1C1D1EFF\n20\n\
lost 18446744073709551615\nqueue 3\n0D0A7F\n\
D0 00000001\nD1 00000020\nD2 00000300\nD3 00004000\nD4 00050000\nD5 00600000\nD6 07000000\nD7 89ABCDEF\n\
A0 00000010\nA1 00000011\nA2 00000012\nA3 00000013\nA4 00000014\nA5 00000015\nA6 00000016\n\
USP 00000020\nISP FFFFFFFE\nMSP 00000021\nPC 00000000\nSR 0000001F\n\
VBR 00000022\nSFC 00000001\nDFC 00000005\nCACR 80008000\n\
TC 00008000\nITT0 00000031\nITT1 00000032\nDTT0 00000033\nDTT1 00000034\nMMUSR 00000035\nURP 00000036\nSRP 00000037\n\
CTRL 00000001\nSTATUS 00000007\nPERIOD 00000040\nCOUNT 00000041\nPENDING 00000001\n\
00000010 00000000000000000000000000000001\n\
00000030 F0000000000000000000000000000000\n\
end\n";

/// Each digit's place, of the registers and of those of translation.
#[rattlefmt::skip]
fn full_processor() -> Cpu {
    let mut cpu = Cpu::at_reset(0xffff_fffe, 0);
    let d = [1, 0x20, 0x300, 0x4000, 0x5_0000, 0x60_0000, 0x700_0000, 0x89ab_cdef];
    let a = [0x10, 0x11, 0x12, 0x13, 0x14, 0x15, 0x16];
    cpu.regs.d = d;
    cpu.regs.a = a;
    cpu.regs.usp = 0x20;
    cpu.regs.msp = 0x21;
    cpu.regs.sr = 0x1f;
    cpu.vbr = 0x22;
    cpu.sfc = 1;
    cpu.dfc = 5;
    cpu.cacr = 0x8000_8000;
    cpu
}

const FULL_MMU: Mmu = Mmu {
    tc: 0x8000,
    itt0: 0x31,
    itt1: 0x32,
    dtt0: 0x33,
    dtt1: 0x34,
    mmusr: 0x35,
    urp: 0x36,
    srp: 0x37,
};

/// A byte more than a row of the console has.
#[rattlefmt::skip]
static CONSOLE: [u8; 33] = [
    0, 1, 2, 3, 4, 5, 6, 7, 8, 9, 10, 11, 12, 13, 14, 15, 16, 17, 18, 19, 20, 21, 22, 23, 24, 25, 26, 27, 28, 29, 30,
    0xff, 32,
];

/// Four lines of RAM, of which two are left out.
static LINES: [u8; 0x40] = [
    0, 0, 0, 0, 0, 0, 0, 0, 0, 0, 0, 0, 0, 0, 0, 0, 0, 0, 0, 0, 0, 0, 0, 0, 0, 0, 0, 0, 0, 0, 0, 1,
    0, 0, 0, 0, 0, 0, 0, 0, 0, 0, 0, 0, 0, 0, 0, 0, 0xf0, 0, 0, 0, 0, 0, 0, 0, 0, 0, 0, 0, 0, 0, 0,
    0,
];

/// The text of an outcome in which each digit's place is filled.
fn full_text(alloc: Global) -> Option<MemSink> {
    let cpu = full_processor();
    let outcome = Outcome {
        console: &CONSOLE,
        lost: u64::MAX,
        queue: queue_of(&[13, 10, 127]),
        ctrl: 1,
        status: 7,
        period: 0x40,
        count: 0x41,
        pending: 1,
        steps: 4_294_967_295,
        ram: &LINES,
        ..nothing(&cpu, &FULL_MMU)
    };
    let mut out = sink(alloc, 1_000)?;
    write_outcome(16, &outcome, &mut out).ok()?;
    Some(out)
}

/// Each digit's place, rows of the console, and lines of RAM that are left out.
#[test]
fn writes_every_place(rt: HostRuntime) {
    let out = full_text(rt.alloc()).expect(&rt, "ample memory");
    assert!(rt; out.bytes() == FULL.as_bytes());
}

static STATES: [(RunState, &str); 2] = [
    (RunState::Stopped, "stopped"),
    (RunState::Halted, "halted"),
];

/// The text of a machine that has nothing to show but its state.
fn text_of(alloc: Global, state: RunState) -> Option<MemSink> {
    let cpu = Cpu::at_reset(0, 0);
    let outcome = Outcome {
        state,
        ..nothing(&cpu, &NO_MMU)
    };
    let mut out = sink(alloc, 1_000)?;
    write_outcome(2, &outcome, &mut out).ok()?;
    Some(out)
}

/// Whether a text tells of a state, and ends.
fn tells(text: &[u8], state: &str) -> bool {
    match text.strip_prefix(b"guest 2\nstate ") {
        Some(rest) => rest.starts_with(state.as_bytes())
            && rest.ends_with(b"\nPENDING 00000000\nend\n"),
        None => false,
    }
}

/// The other states.
#[test]
fn writes_states(rt: HostRuntime) {
    for &(state, want) in &STATES {
        let out = text_of(rt.alloc(), state).expect(&rt, "ample memory");
        assert!(rt; tells(out.bytes(), want), "{want}");
    }
}

/// How many things there are in which outcomes can differ.
const DIFFERENCES: usize = 13;

/// An outcome that differs from that of such a processor in one thing.
fn changed<'a>(place: usize, cpu: &'a Cpu, other: &'a Cpu, mmu: &'a Mmu) -> Outcome<'a> {
    let mut outcome = nothing(cpu, &NO_MMU);
    match place {
        0 => outcome.cpu = other,
        1 => outcome.mmu = mmu,
        2 => outcome.console = b"A",
        3 => outcome.lost = 1,
        4 => outcome.queue = queue_of(&[0]),
        5 => outcome.ctrl = 1,
        6 => outcome.status = 3,
        7 => outcome.period = 1,
        8 => outcome.count = 1,
        9 => outcome.pending = 1,
        10 => outcome.steps = 1,
        11 => outcome.state = RunState::Off,
        _ => outcome.ram = &[0; 16],
    }
    outcome
}

/// Two outcomes that differ in one thing, whichever it is, are not the same.
#[test]
fn tells_outcomes_apart(rt: HostRuntime) {
    let cpu = Cpu::at_reset(8, 4);
    let other = Cpu { dfc: 1, ..cpu };
    let mmu = Mmu {
        srp: 0x200,
        ..NO_MMU
    };
    let first = nothing(&cpu, &NO_MMU);
    assert!(rt; same(&first, &nothing(&Cpu::at_reset(8, 4), &NO_MMU)));
    for place in 0..DIFFERENCES {
        assert!(rt;
            !same(&first, &changed(place, &cpu, &other, &mmu)),
            "{place}"
        );
    }
}
