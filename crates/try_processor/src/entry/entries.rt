//! Entries.

use super::{ACCESS_ERROR, ILLEGAL, TIMER, processor};
use crate::bench::{Bench, NO_HOLE, Trial, check, put_longs, stands};
use mb_entry::{Cause, Entered, enter};
use mb_model::Cpu;
use mb_port::{Fault, Space};

/// The check of a long of a frame is refused.
const REFUSED: Fault = Fault {
    at: 0x7FFC,
    len: 4,
    space: Space::Super,
    code: false,
    write: true,
    atc: false,
};

/// A cause, and what its entry comes to.
struct Case {
    /// SR, the interrupt stack pointer and the vector base before it.
    before: (u16, u32, u32),
    hole: u32,
    /// Longs of memory before it, with the address of the first: a vector.
    vector: (u32, &'static [u32]),
    cause: Cause,
    end: Entered,
    /// SR, PC, the interrupt stack pointer and the master stack pointer then. All else is as before.
    after: (u16, u32, u32, u32),
    /// Longs of the interrupt stack then, with the address of the first.
    frame: (u32, &'static [u32]),
    /// The two longs below $9000 then, where the master stack is at first.
    master: &'static [u32; 2],
}

/// Each begins in the stopped state, which the entry ends.
#[rattlefmt::skip]
static CASES: [Case; 13] = [
    // a trap has a short frame
    Case {
        before: (0xA71F, 0x8000, 0), hole: NO_HOLE, vector: (0x80, &[0x600]),
        cause: Cause { vector: 32, pc: 0x406, ..ILLEGAL },
        end: Entered::Done, after: (0x271F, 0x600, 0x7FF8, 0x9000),
        frame: (0x7FF8, &[0xA71F_0000, 0x0406_0080]), master: &[0, 0],
    },
    // a trace has an address
    Case {
        before: (0xA700, 0x8000, 0), hole: NO_HOLE, vector: (0x24, &[0x500]),
        cause: Cause { vector: 9, pc: 0x406, address: 0x404, ..ILLEGAL },
        end: Entered::Done, after: (0x2700, 0x500, 0x7FF4, 0x9000),
        frame: (0x7FF4, &[0xA700_0000, 0x0406_2024, 0x0000_0404]), master: &[0, 0],
    },
    // user mode enters the master stack
    Case {
        before: (0x1000, 0x8000, 0), hole: NO_HOLE, vector: (0x20, &[0x420]),
        cause: Cause { vector: 8, pc: 0x406, ..ILLEGAL },
        end: Entered::Done, after: (0x3000, 0x420, 0x8000, 0x8FF8),
        frame: (0x7FF8, &[0, 0]), master: &[0x1000_0000, 0x0406_0020],
    },
    // an interrupt goes to both stacks
    Case {
        before: (0x3000, 0x8000, 0), hole: NO_HOLE, vector: (0x78, &[0x700]), cause: TIMER,
        end: Entered::Done, after: (0x2600, 0x700, 0x7FF8, 0x8FF8),
        frame: (0x7FF8, &[0x3000_0000, 0x0400_1078]), master: &[0x3000_0000, 0x0400_0078],
    },
    // the throwaway frame of an interrupt in user mode has a supervisor's status
    Case {
        before: (0xD105, 0x8000, 0), hole: NO_HOLE, vector: (0, &[]), cause: Cause { vector: 28, level: 4, ..ILLEGAL },
        end: Entered::Done, after: (0x2405, 0, 0x7FF8, 0x8FF8),
        frame: (0x7FF8, &[0xF105_0000, 0x0400_1070]), master: &[0xD105_0000, 0x0400_0070],
    },
    // an interrupt with one stack
    Case {
        before: (0x2000, 0x8000, 0), hole: NO_HOLE, vector: (0x78, &[0x700]), cause: TIMER,
        end: Entered::Done, after: (0x2600, 0x700, 0x7FF8, 0x9000),
        frame: (0x7FF8, &[0x2000_0000, 0x0400_0078]), master: &[0, 0],
    },
    // both frames are checked before one is written
    Case {
        before: (0x3000, 0x8000, 0), hole: 0x7FFF, vector: (0, &[]), cause: TIMER,
        end: Entered::Faulted(REFUSED), after: (0x3000, 0x400, 0x8000, 0x9000),
        frame: (0x7FF8, &[0, 0]), master: &[0, 0],
    },
    // a frame at an odd place is cut
    Case {
        before: (0x2711, 0x7FFD, 0), hole: NO_HOLE, vector: (0, &[]), cause: Cause { pc: 0x1122_3344, ..ILLEGAL },
        end: Entered::Done, after: (0x2711, 0, 0x7FF5, 0x9000),
        frame: (0x7FF4, &[0x0027_1111, 0x2233_4400, 0x1000_0000]), master: &[0, 0],
    },
    // the last byte of such a frame is refused
    Case {
        before: (0x2711, 0x7FFD, 0), hole: 0x7FFC, vector: (0, &[]), cause: ILLEGAL,
        end: Entered::Faulted(Fault { len: 1, ..REFUSED }), after: (0x2711, 0x400, 0x7FFD, 0x9000),
        frame: (0x7FF4, &[0, 0, 0]), master: &[0, 0],
    },
    // an access error stacks its fields
    Case {
        before: (0x2700, 0x8000, 0), hole: NO_HOLE, vector: (8, &[0x500]), cause: Cause { pc: 0x40A, ..ACCESS_ERROR },
        end: Entered::Done, after: (0x2700, 0x500, 0x7FC4, 0x9000),
        frame: (0x7FC4, &[
            0x2700_0000, 0x040A_7008, 0x0102_0304, 0x0C45_00E1, 0x00E2_00E3, 0x1112_1314, 0x2122_2324, 0x3132_3334,
            0x4142_4344, 0x5152_5354, 0x6162_6364, 0x7172_7374, 0x8182_8384, 0x9192_9394, 0xA1A2_A3A4,
        ]),
        master: &[0, 0],
    },
    // an access error without a stack halts
    Case {
        before: (0x2701, 0x10004, 0), hole: NO_HOLE, vector: (0, &[]), cause: Cause { pc: 0x404, ..ACCESS_ERROR },
        end: Entered::DoubleFault, after: (0x2701, 0x404, 0x10004, 0x9000),
        frame: (0xFFFC, &[0]), master: &[0, 0],
    },
    // a vector that can not be read halts
    Case {
        before: (0xA700, 0x8000, 0x1000_0000), hole: NO_HOLE, vector: (0, &[]),
        cause: Cause { vector: 32, pc: 0x406, ..ILLEGAL },
        end: Entered::DoubleFault, after: (0x2700, 0x406, 0x7FF8, 0x9000),
        frame: (0x7FF8, &[0xA700_0000, 0x0406_0080]), master: &[0, 0],
    },
    // a vector at an odd place
    Case {
        before: (0x2700, 0x8000, 0x1001), hole: NO_HOLE, vector: (0x1080, &[0x0011_2233, 0x4400_0000]),
        cause: Cause { vector: 32, pc: 0x406, ..ILLEGAL },
        end: Entered::Done, after: (0x2700, 0x1122_3344, 0x7FF8, 0x9000),
        frame: (0x7FF8, &[0x2700_0000, 0x0406_0080]), master: &[0, 0],
    },
];

impl Case {
    /// The processor before the entry, but for the stopped state.
    fn before(&self) -> Cpu {
        let (sr, isp, vbr) = self.before;
        let mut cpu = processor(sr);
        cpu.regs.isp = isp;
        cpu.vbr = vbr;
        cpu
    }

    /// The processor after it.
    fn after(&self) -> Cpu {
        let (sr, pc, isp, msp) = self.after;
        let mut cpu = self.before();
        cpu.regs.sr = sr;
        cpu.regs.pc = pc;
        cpu.regs.isp = isp;
        cpu.regs.msp = msp;
        cpu
    }
}

impl Trial for Case {
    fn passes(&self, bench: &mut Bench) -> bool {
        let port = &mut bench.port;
        put_longs(port, self.vector.0, self.vector.1);
        port.hole = self.hole;
        let mut cpu = self.before();
        cpu.stopped = true;
        let master = self.master;
        self.cause.level < 8
            && enter(&mut cpu, port, &self.cause) == self.end
            && cpu == self.after()
            && stands(port, self.frame.0, self.frame.1)
            && stands(port, 0x8FF8, master)
    }
}

#[test]
fn entries(rt: HostRuntime) {
    check(&rt, rt.alloc(), &CASES);
}
