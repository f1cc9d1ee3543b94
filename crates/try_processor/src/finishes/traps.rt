//! Traps, and causes from frames.

ghost use Rattle.std.specs.Prelude.{◌<◌};

use super::{GUEST, NO_VECTORS, Row};
use crate::bench::{Bench, CODE, NO_HOLE, Trial, check};
use crate::steps::processor;
use mb_entry::Cause;
use mb_frames::Frame;
use mb_step::StepEnd::{Halted, Went};
use try_vector::VectorPort;
use vm_inject::{cause_of, finish_trap};

/// The finish of a zero divide.
struct Trapped(Row<'static>);

#[rattlefmt::skip]
static TRAPPED: [Trapped; 6] = [
    // zero divide
    Trapped(Row { hole: NO_HOLE, isp: 0x8000, vbr: 0, end: Went, after: (0x2015, 0x440, 0x7FF4),
        longs: &[], frame: &[0x0015_0000, 0x0404_2014, 0x0400] }),
    // first piece of the frame
    Trapped(Row { hole: 0x7FF4, isp: 0x8000, vbr: 0, end: Halted,
        after: (0x0004, 0x400, 0x8000), longs: &[], frame: &[] }),
    // second piece of the frame
    Trapped(Row { hole: 0x7FFB, isp: 0x8000, vbr: 0, end: Halted,
        after: (0x0004, 0x400, 0x8000), longs: &[], frame: &[] }),
    // third piece of the frame
    Trapped(Row { hole: 0x7FFC, isp: 0x8000, vbr: 0, end: Halted,
        after: (0x0004, 0x400, 0x8000), longs: &[], frame: &[] }),
    // frame without a place
    Trapped(Row { hole: NO_HOLE, isp: 0x1_0040, vbr: 0, end: Halted,
        after: (0x0004, 0x400, 0x1_0040), longs: &[], frame: &[] }),
    // no vector
    Trapped(Row { hole: NO_HOLE, isp: 0x8000, vbr: NO_VECTORS, end: Halted, after: (0x2015, 0x404, 0x7FF4),
        longs: &[], frame: &[0x0015_0000, 0x0404_2014, 0x0400] }),
];

/// A zero divide at the code.
fn zero_divide() -> Cause
    ensures { result.level < 8 }
{
    Cause {
        vector: 5,
        pc: 0x404,
        address: CODE,
        access: None,
        level: 0,
    }
}

/// Whether the finish of a zero divide comes to what it should.
fn divides(row: &Row, port: &mut VectorPort) -> bool {
    let mut cpu = row.processor(0x404);
    let after = cpu.regs.d;
    let mut before = cpu.regs.plain();
    before.pc = CODE;
    before.ccr = 4;
    before.d[1] = 0x0B0B_0B0B;
    let end = finish_trap(&zero_divide(), &before, &mut cpu, port);
    let left = if row.frame.is_empty() {
        before.d
    } else {
        after
    };
    cpu.regs.d == left && row.is_met(end, &cpu, 0, port)
}

impl Trial for Trapped {
    fn passes(&self, bench: &mut Bench) -> bool {
        self.0.begin(&mut bench.port);
        divides(&self.0, &mut bench.port)
    }
}

#[test]
fn zero_divides(rt: HostRuntime) {
    check(&rt, rt.alloc(), &TRAPPED);
}

/// A frame, the exit that it is of, and the address of the instruction.
#[rattlefmt::skip]
static FRAMES: [(Frame, u8, u32); 9] = [
    (Frame::Address { sr: 0x0700, pc: 0x401, offset: 0x0C, address: 0x400 }, 3, 0x400),
    (Frame::Short { sr: 0x0700, pc: 0x400, offset: 0x10 }, 4, 0x400),
    (Frame::Address { sr: 0x0700, pc: 0x406, offset: 0x18, address: 0x402 }, 6, 0x402),
    (Frame::Short { sr: 0x0700, pc: 0x400, offset: 0x20 }, 8, 0x400),
    (Frame::Short { sr: 0x0700, pc: 0x400, offset: 0x28 }, 10, 0x400),
    (Frame::Short { sr: 0x0700, pc: 0x400, offset: 0x2C }, 11, 0x400),
    (Frame::Short { sr: 0x0700, pc: 0x402, offset: 0x80 }, 32, 0x400),
    (Frame::Short { sr: 0x0700, pc: 0x402, offset: 0xBC }, 47, 0x400),
    (Frame::Short { sr: 0x0700, pc: 0, offset: 0x84 }, 33, 0xFFFF_FFFE),
];

/// Whether the cause that a frame tells of is what it should be.
fn has_cause(frame: &Frame, exit: u8, address: u32) -> bool {
    let guest = processor(GUEST);
    if guest.regs.is_supervisor() {
        return false;
    }
    let cause = cause_of(frame, exit, &guest);
    let pc = match frame {
        Frame::Short { pc, .. } | Frame::Address { pc, .. } => Some(*pc),
        _ => None,
    };
    (cause.vector, cause.address, cause.level) == (exit, address, 0)
        && cause.access.is_none()
        && Some(cause.pc) == pc
}

#[test]
fn causes(rt: HostRuntime) {
    for (frame, exit, address) in &FRAMES {
        assert!(rt; has_cause(frame, *exit, *address), "{}", *exit);
    }
}
