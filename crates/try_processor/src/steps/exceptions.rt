//! Exceptions of instructions.

use super::{processor, steps};
use crate::bench::{Bench, NO_HOLE, Trial, check, stands, start};
use Done::{A, D, Long};
use mb_model::Cpu;
use mb_step::StepEnd;
use try_vector::VectorPort;

/// What was done before an exception.
enum Done {
    D(usize, u32),
    A(usize, u32),
    /// A long of memory, with its address.
    Long(u32, u32),
}

impl Done {
    fn stands(&self, cpu: &Cpu, port: &VectorPort) -> bool {
        match self {
            D(number, long) => cpu.regs.d.get(*number) == Some(long),
            A(number, long) => cpu.regs.a.get(*number) == Some(long),
            Long(at, long) => stands(port, *at, &[*long]),
        }
    }
}

/// Code, and what it leads to from a status register and an interrupt stack.
struct Row {
    sr: u16,
    isp: u32,
    hole: u32,
    code: &'static [u16],
    steps: u32,
    /// SR, PC and the stack pointer by S and M then, where the frame begins.
    after: (u16, u32, u32),
    frame: &'static [u32],
    done: &'static [Done],
}

#[rattlefmt::skip]
static ROWS: [Row; 19] = [
    // privilege
    Row { sr: 0x2700, isp: 0x10000, hole: NO_HOLE,
        code: &[0x46FC, 0x0000, 0x42C1, 0x40C0], steps: 3,
        after: (0x2000, 0x420, 0xFFF8), frame: &[0x0000_0000, 0x0406_0020], done: &[] },
    // trace
    Row { sr: 0x2700, isp: 0x10000, hole: NO_HOLE, code: &[0x46FC, 0xA700, 0x4E71], steps: 2,
        after: (0x2700, 0x500, 0xFFF4), frame: &[0xA700_0000, 0x0406_2024, 0x0000_0404], done: &[] },
    // trap and trace
    Row { sr: 0x2700, isp: 0x10000, hole: NO_HOLE, code: &[0x46FC, 0xA700, 0x4E40],
        steps: 2, after: (0x2700, 0x500, 0xFFEC),
        frame: &[0x2700_0000, 0x0600_2024, 0x0000_0404, 0xA700_0000, 0x0406_0080], done: &[] },
    // no trace after a refusal
    Row { sr: 0x8000, isp: 0x8000, hole: NO_HOLE, code: &[0x4E73], steps: 1,
        after: (0x2000, 0x420, 0x7FF8), frame: &[0x8000_0000, 0x0400_0020], done: &[] },
    // T0 and no change of flow
    Row { sr: 0x6700, isp: 0x8000, hole: NO_HOLE, code: &[0x4E71, 0x6002],
        steps: 2, after: (0x2700, 0x500, 0x7FF4), frame: &[0x6700_0000, 0x0406_2024, 0x0000_0402], done: &[] },
    // T0 and a trap
    Row { sr: 0x6700, isp: 0x8000, hole: NO_HOLE, code: &[0x4E40], steps: 1,
        after: (0x2700, 0x600, 0x7FF8), frame: &[0x6700_0000, 0x0402_0080], done: &[] },
    // zero divide
    Row { sr: 0x2700, isp: 0x8000, hole: NO_HOLE, code: &[0x80FC, 0x0000], steps: 1,
        after: (0x2700, 0x440, 0x7FF4), frame: &[0x2700_0000, 0x0404_2014, 0x0000_0400], done: &[] },
    // odd PC
    Row { sr: 0x2700, isp: 0x10000, hole: NO_HOLE, code: &[0x4EF8, 0x0401], steps: 2,
        after: (0x2700, 0x500, 0xFFF4), frame: &[0x2700_0000, 0x0401_200C, 0x0000_0400], done: &[] },
    // long that is written beyond memory
    Row { sr: 0x2700, isp: 0x8000, hole: NO_HOLE,
        code: &[0x23FC, 0x1122, 0x3344, 0x0000, 0xFFFF], steps: 1, after: (0x2700, 0x500, 0x7FC4),
        frame: &[0x2700_0000, 0x040A_7008, 0x0000_FFFF, 0x0045_0000, 0x00A5_00C5, 0x0001_0000, 0, 0,
            0x0001_0002, 0x0000_0044, 0x0001_0000, 0x2233_0000, 0, 0, 0], done: &[Long(0xFFFC, 0x11)] },
    // the same with a trace due
    Row { sr: 0xA700, isp: 0x8000, hole: NO_HOLE,
        code: &[0x23FC, 0x1122, 0x3344, 0x0000, 0xFFFF], steps: 1, after: (0x2700, 0x500, 0x7FC4),
        frame: &[0xA700_0000, 0x040A_7008, 0x0000_FFFF, 0x2045_0000, 0x00A5_00C5, 0x0001_0000], done: &[] },
    // TAS beyond memory
    Row { sr: 0x2700, isp: 0x8000, hole: NO_HOLE, code: &[0x4AF9, 0x0001, 0x0000],
        steps: 1, after: (0x2700, 0x500, 0x7FC4),
        frame: &[0x2700_0000, 0x0400_7008, 0x0001_0000, 0x0325_0000, 0, 0x0001_0000, 0, 0, 0, 0, 0, 0, 0, 0, 0],
        done: &[] },
    // fetch
    Row { sr: 0xA700, isp: 0x8000, hole: 0x402, code: &[0x46FC], steps: 1,
        after: (0x2700, 0x500, 0x7FC4),
        frame: &[0xA700_0000, 0x0400_7008, 0x0000_0402, 0x0146_0000, 0, 0x0000_0402], done: &[] },
    // push of BSR with T0
    Row { sr: 0x4000, isp: 0x8000, hole: 0x3001, code: &[0x6104], steps: 1,
        after: (0x2000, 0x500, 0x7FC4),
        frame: &[0x4000_0000, 0x0406_7008, 0x0000_3000, 0x2001_0000, 0x0000_0081, 0x0000_3000, 0, 0, 0, 0,
            0x0000_3000, 0x0000_0402, 0, 0, 0], done: &[] },
    // push of PEA with T0
    Row { sr: 0x4000, isp: 0x8000, hole: 0x3001, code: &[0x4850], steps: 1,
        after: (0x2000, 0x500, 0x7FC4),
        frame: &[0x4000_0000, 0x0402_7008, 0x0000_3000, 0x0001_0000, 0x0000_0081, 0x0000_3000], done: &[] },
    // MOVEM that stores
    Row { sr: 0xA700, isp: 0x8000, hole: 0x1008, code: &[0x48D0, 0x000F], steps: 1,
        after: (0x2700, 0x500, 0x7FC4),
        frame: &[0xA700_0000, 0x0400_7008, 0x0000_1000, 0x3005_0000, 0, 0x0000_1008, 0, 0, 0, 0, 0, 0,
            0x0000_0404, 0x48D0_000F, 2], done: &[] },
    // MOVEM that loads
    Row { sr: 0xA700, isp: 0x8000, hole: 0x1008, code: &[0x4CD0, 0x00F0], steps: 1,
        after: (0x2700, 0x500, 0x7FC4),
        frame: &[0xA700_0000, 0x0400_7008, 0x0000_1000, 0x1105_0000, 0, 0x0000_1008, 0, 0, 0, 0, 0, 0,
            0x0000_0404, 0x4CD0_00F0, 2], done: &[] },
    // MOVEM that keeps what it loaded
    Row { sr: 0x2700, isp: 0x8000, hole: 0x1008, code: &[0x4CD8, 0x00F0],
        steps: 1, after: (0x2700, 0x500, 0x7FC4), frame: &[], done: &[D(4, 0), D(5, 0), D(6, 6), A(0, 0x1000)] },
    // line
    Row { sr: 0x2700, isp: 0x8000, hole: 0x2004, code: &[0xF620, 0x9000], steps: 1,
        after: (0x2700, 0x500, 0x7FC4),
        frame: &[0x2700_0000, 0x0404_7008, 0x0000_2000, 0x006D_0000, 0x0000_00ED, 0x0000_2000, 0, 0, 0, 0,
            0x0000_2000, 0, 0, 0, 0], done: &[A(0, 0x1010), A(1, 0x2010)] },
    // first byte of MOVEP.L
    Row { sr: 0xA700, isp: 0x8000, hole: 0x2000, code: &[0x01C9, 0x0000], steps: 1,
        after: (0x2700, 0x500, 0x7FC4),
        frame: &[0xA700_0000, 0x0400_7008, 0x0000_2000, 0x0025_0000, 0, 0x0000_2000, 0, 0, 0, 0, 0, 0, 0, 0, 0],
        done: &[] },
];

impl Row {
    /// Whether all was done that was to be done before the exception.
    fn is_done(&self, cpu: &Cpu, port: &VectorPort) -> bool {
        for done in self.done {
            if !done.stands(cpu, port) {
                return false;
            }
        }
        true
    }
}

impl Trial for Row {
    fn passes(&self, bench: &mut Bench) -> bool {
        start(&mut bench.port, self.hole, self.code);
        let mut cpu = processor(self.sr);
        cpu.regs.isp = self.isp;
        steps(bench, self.steps, &mut cpu) == StepEnd::Went
            && (cpu.regs.sr, cpu.regs.pc, cpu.regs.isp) == self.after
            && stands(&bench.port, cpu.regs.isp, self.frame)
            && !cpu.stopped
            && self.is_done(&cpu, &bench.port)
    }
}

/// How the processor halts.
enum Halt {
    /// A memory of ORI.B #0,D0 alone is run to its end, where the frame of the fetch has no place.
    AtTheEnd,
    /// The frame of a zero divide has no place, and that of the access error none either: all is as before it.
    InItsEntry,
}

static HALTS: [Halt; 2] = [Halt::AtTheEnd, Halt::InItsEntry];

/// MOVE #1,CCR and DIVU.W #0,D0.
static DIVIDES: [u16; 4] = [0x44FC, 0x0001, 0x80FC, 0x0000];

fn halts_at_the_end(bench: &mut Bench) -> bool {
    let mut cpu = processor(0x2700);
    cpu.regs.pc = 0;
    cpu.regs.isp = 0;
    cpu.regs.d[0] = 0;
    steps(bench, 16_385, &mut cpu) == StepEnd::Halted
        && (cpu.regs.sr, cpu.regs.pc, cpu.regs.isp) == (0x2704, 0x10000, 0)
}

fn halts_in_its_entry(bench: &mut Bench) -> bool {
    start(&mut bench.port, NO_HOLE, &DIVIDES);
    let mut cpu = processor(0x2700);
    cpu.regs.isp = 0xFFF0_0008;
    steps(bench, 2, &mut cpu) == StepEnd::Halted
        && (cpu.regs.sr, cpu.regs.pc, cpu.regs.isp) == (0x2701, 0x404, 0xFFF0_0008)
}

impl Trial for Halt {
    fn passes(&self, bench: &mut Bench) -> bool {
        match self {
            Halt::AtTheEnd => halts_at_the_end(bench),
            Halt::InItsEntry => halts_in_its_entry(bench),
        }
    }
}

#[test]
fn exceptions(rt: HostRuntime) {
    check(&rt, rt.alloc(), &ROWS);
    check(&rt, rt.alloc(), &HALTS);
}
