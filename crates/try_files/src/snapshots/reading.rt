//! What is read.

use mb_model::{Kept, RunState};
use mb_port::Space;
use mb_saved::{RamLine, SavedGuest};
use mb_script::{Entry, Input, Script};
use std::alloc::Global;
use vm_snapshot::{SnapFault, SnapGuest, SnapPlan, read_snapshot};

/// A guest of 64 KiB after two steps.
const TEXT: &str =
    "snapshot 1\nboard 192\nslice 1000\nguests 1\nram 64\nkept 0\ninput 0\nguest 1\nstate running\nsteps 2\n\
console 1\n41\nlost 0\nqueue 0\nD0 00000041\nD1 00000000\nD2 00000000\nD3 00000000\nD4 00000000\nD5 00000000\n\
D6 00000000\nD7 00000000\nA0 00000000\nA1 00000000\nA2 00000000\nA3 00000000\nA4 00000000\nA5 00000000\n\
A6 00000000\nUSP 00000000\nISP 00010000\nMSP 00000000\nPC 00000408\nSR 00002700\nVBR 00000000\nSFC 00000000\n\
DFC 00000000\nCACR 00000000\nTC 00000000\nITT0 00000000\nITT1 00000000\nDTT0 00000000\nDTT1 00000000\n\
MMUSR 00000000\nURP 00000000\nSRP 00000000\nCTRL 00000000\nSTATUS 00000002\nPERIOD 00000000\nCOUNT 00000000\n\
PENDING 00000000\n00000000 00010000000004000000000000000000\n00000400 704113C0FFF0000023FC00000001FFF0\n\
00000410 00200000000000000000000000000000\nend\n";

/// Lines of what is kept, and of what is still to come.
const KEPT: &str = "kept 1\nU 00012 FFFFF 9\ninput 2\nat 3 hex 4142\nat 4 abort\n";

static KEPT_ENTRIES: [Kept; 1] = [Kept {
    space: Space::User,
    page: 0x12,
    frame: 0xf_ffff,
    w: true,
    s: false,
    g: false,
    m: true,
}];

const FIRST_LINE: RamLine = RamLine {
    at: 0,
    bytes: [0, 1, 0, 0, 0, 0, 4, 0, 0, 0, 0, 0, 0, 0, 0, 0],
};

/// A disk of a block.
const DISK: &str = "disk 1 blocks 1\nBLOCK 00000007\nRESULT 00000001\nPOSITION 000001FC\n\
AB00000000000000000000000000000000000000000000000000000000000000\n\
0000000000000000000000000000000000000000000000000000000000000000\n\
0000000000000000000000000000000000000000000000000000000000000000\n\
0000000000000000000000000000000000000000000000000000000000000000\n\
0000000000000000000000000000000000000000000000000000000000000000\n\
0000000000000000000000000000000000000000000000000000000000000000\n\
0000000000000000000000000000000000000000000000000000000000000000\n\
0000000000000000000000000000000000000000000000000000000000000000\n\
0000000000000000000000000000000000000000000000000000000000000000\n\
0000000000000000000000000000000000000000000000000000000000000000\n\
0000000000000000000000000000000000000000000000000000000000000000\n\
0000000000000000000000000000000000000000000000000000000000000000\n\
0000000000000000000000000000000000000000000000000000000000000000\n\
0000000000000000000000000000000000000000000000000000000000000000\n\
0000000000000000000000000000000000000000000000000000000000000000\n\
0000000000000000000000000000000000000000000000000000000000000000\n\
000001F0 00000000000000000000000000000001\nend\n";

/// The plan of a text, or its first fault.
fn plan(alloc: Global, text: &[u8]) -> Option<Result<SnapPlan, SnapFault>> {
    if text.len() >= 10_000 {
        return None;
    }
    Some(read_snapshot(alloc, text))
}

/// Parts one behind the other.
fn whole(alloc: Global, parts: &[&str]) -> Option<Vec<u8>> {
    let mut text = Vec::new(alloc);
    for part in parts {
        text.extend_from_slice(part.as_bytes()).ok()?;
    }
    Some(text)
}

/// Whether a guest's machine is as the text has it.
fn is_saved(saved: &SavedGuest) -> bool {
    let regs = &saved.cpu().regs;
    (saved.ram(), saved.steps(), saved.state()) == (0x1_0000, 2, RunState::Running)
        && (regs.pc, regs.sr, regs.isp) == (0x408, 0x2700, 0x1_0000)
        && saved.kept() == KEPT_ENTRIES.as_slice()
        && saved.console() == b"A".as_slice()
        && saved.lines().len() == 3
        && saved.lines().first() == Some(&FIRST_LINE)
}

/// Whether what is still to come is as the text has it.
fn is_to_come(script: &Script) -> bool {
    let byte = Entry {
        step: 3,
        input: Input::Byte(0x42),
    };
    let abort = Entry {
        step: 4,
        input: Input::Abort,
    };
    script.count() == 3 && script.entry(1) == Some(byte) && script.entry(2) == Some(abort)
}

/// Whether a guest's disk is as the text has it.
fn has_disk(guest: &SnapGuest) -> bool {
    let Some(disk) = &guest.disk else {
        return false;
    };
    let bytes = disk.bytes();
    (disk.blocks(), disk.block(), disk.outcome(), disk.position()) == (1, 7, 1, 0x1fc)
        && disk.buffer().first() == Some(&0xab)
        && bytes.get(0x1f0) == Some(&0)
        && bytes.get(0x1ff) == Some(&1)
}

/// Whether a plan is as the text has it.
fn is_plan(plan: &SnapPlan) -> bool {
    match plan.guests.as_slice() {
        [guest] => {
            (plan.board, plan.slice) == (192, 1000)
                && is_saved(&guest.saved)
                && is_to_come(&guest.script)
                && has_disk(guest)
        }
        _ => false,
    }
}

/// The text of a guest with a disk, which keeps entries.
fn text_with_disk(alloc: Global) -> Option<Vec<u8>> {
    let (front, back) = TEXT.split_once("kept 0\ninput 0\n")?;
    whole(alloc, &[front, KEPT, back, DISK])
}

/// What is kept, what is still to come, the machine, and its disk.
#[test]
fn reads_a_guest(rt: HostRuntime) {
    let text = text_with_disk(rt.alloc()).expect(&rt, "a text");
    let plan = plan(rt.alloc(), &text).expect(&rt, "a short text");
    assert!(rt; is_plan(&plan.ok().expect(&rt, "a snapshot")));
}
