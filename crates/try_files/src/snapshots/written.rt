//! What is written.

ghost use Rattle.std.specs.Prelude.{◌≡◌};
ghost use Rattle.mb_model.specs.Seen.{seen_of};

use arrayvec::ArrayVec;
use mb_model::{Cpu, Kept, Outcome, RunState};
use mb_outside::{MemSink, SinkFault};
use mb_port::{Mmu, Space};
use mb_script::read_script;
use std::alloc::Global;
use vm_snapshot::write_guest;

/// The registers of translation after reset.
const NO_MMU: Mmu = Mmu {
    tc: 0,
    itt0: 0,
    itt1: 0,
    dtt0: 0,
    dtt1: 0,
    mmusr: 0,
    urp: 0,
    srp: 0,
};

const OUTCOME: &str = "guest 2\nstate running\nsteps 2\nconsole 1\n41\nlost 0\nqueue 0\n\
D0 00000000\nD1 00000000\nD2 00000000\nD3 00000000\nD4 00000000\nD5 00000000\nD6 00000000\nD7 00000000\n\
A0 00000000\nA1 00000000\nA2 00000000\nA3 00000000\nA4 00000000\nA5 00000000\nA6 00000000\n\
USP 00000000\nISP 00010000\nMSP 00000000\nPC 00000408\nSR 00002700\n\
VBR 00000000\nSFC 00000000\nDFC 00000000\nCACR 00000000\n\
TC 00000000\nITT0 00000000\nITT1 00000000\nDTT0 00000000\nDTT1 00000000\nMMUSR 00000000\nURP 00000000\nSRP 00000000\n\
CTRL 00000000\nSTATUS 00000002\nPERIOD 00000000\nCOUNT 00000000\nPENDING 00000000\n\
00000010 00000000000000000000000000000001\n\
end\n";

const FRONT: &str = "ram 64\nkept 2\nS 00012 FFFFF 9\nU 00012 00001 6\ninput 6\n\
at 3 hex 4142\nat 3 abort\nat 3 abort\nat 3 hex 43\nat 4 hex 44\nat 4294967295 abort\n";

/// Its first two entries have arrived already, and bytes of one step stand in one line.
const SCRIPT: &str =
    "at 1 hex 01\nat 2 abort\nat 3 hex 41\nat 3 text B\nat 3 abort\nat 3 abort\nat 3 hex 43\n\
at 4 hex 44\nat 4294967295 abort\n";

static KEPT: [Kept; 2] = [
    Kept {
        space: Space::Super,
        page: 0x12,
        frame: 0xf_ffff,
        w: true,
        s: false,
        g: false,
        m: true,
    },
    Kept {
        space: Space::User,
        page: 0x12,
        frame: 1,
        w: false,
        s: true,
        g: true,
        m: false,
    },
];

/// A machine of 64 KiB after two steps, with one row of RAM that is not all zero.
fn outcome<'a>(cpu: &'a Cpu, ram: &'a [u8]) -> Outcome<'a>
    ensures { (seen_of result).ram ≡ ram.now }
{
    Outcome {
        cpu,
        mmu: &NO_MMU,
        console: b"A",
        lost: 0,
        queue: ArrayVec::new(),
        ctrl: 0,
        status: 2,
        period: 0,
        count: 0,
        pending: 0,
        steps: 2,
        state: RunState::Running,
        ram,
    }
}

/// A guest's lines in a sink with this room.
fn written(alloc: Global, room: usize) -> Option<(Result<(), SinkFault>, MemSink)> {
    let mut ram = vec![in alloc; 0u8; 0x1_0000].ok()?;
    let text = SCRIPT.as_bytes();
    if ram.len() != 0x1_0000 || text.len() >= 1000 {
        return None;
    }
    ram[0x1f] = 1;
    let script = read_script(alloc, text).ok()?;
    let cpu = Cpu::at_reset(0x1_0000, 0x408);
    let mut out = MemSink::new(alloc, room, Vec::new(alloc)).ok()?;
    let answer = write_guest(
        2,
        0x1_0000,
        &KEPT,
        &script,
        &outcome(&cpu, &ram),
        None,
        &mut out,
    );
    Some((answer, out))
}

/// Each form of a line before the outcome's; entries at steps that were taken are left out, and a sink that fails has
/// taken a first part.
#[test]
fn writes_a_guest(rt: HostRuntime) {
    let alloc: Global = rt.alloc();
    let front = FRONT.as_bytes();
    let (answer, out) = written(alloc, 0).expect(&rt, "ample memory");
    assert!(rt; answer == Err(SinkFault) && out.bytes().is_empty());
    let (answer, out) = written(alloc, front.len()).expect(&rt, "ample memory");
    assert!(rt; answer == Err(SinkFault) && out.bytes() == front);
    let (answer, out) = written(alloc, 10_000).expect(&rt, "ample memory");
    assert!(rt; answer == Ok(()));
    assert!(rt; out.bytes().strip_prefix(front) == Some(OUTCOME.as_bytes()));
}
