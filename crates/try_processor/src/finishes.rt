//! The rest of a step that a board began, by hand. The guest is in user mode.

mod movems;
mod steps;
mod traps;
mod writes;

ghost use Rattle.std.specs.Prelude.{IsTrue, ◌≤◌};
ghost use Rattle.mb_writes.specs.Transfers.{count_of, mask_in};

use crate::bench::{stands, start};
use crate::steps::processor;
use mb_model::Cpu;
use mb_step::StepEnd;
use mb_writes::count;
use try_vector::VectorPort;

/// The guest's status register: user mode, with X, Z and C.
const GUEST: u16 = 0x0015;

/// Vectors beyond memory.
const NO_VECTORS: u32 = 0x1_0000;

/// A finish: the byte that memory refuses, the interrupt stack pointer and the vector base before it, and what it comes
/// to.
struct Row<'a> {
    hole: u32,
    isp: u32,
    vbr: u32,
    end: StepEnd,
    /// SR, PC and the interrupt stack pointer then.
    after: (u16, u32, u32),
    /// The longs of memory then, where the finish writes.
    longs: &'a [u32],
    /// The frame where the interrupt stack pointer is then; of none nothing.
    frame: &'a [u32],
}

impl Row<'_> {
    fn begin(&self, port: &mut VectorPort) {
        start(port, self.hole, &[]);
    }

    fn processor(&self, pc: u32) -> Cpu {
        let mut cpu = processor(GUEST);
        cpu.regs.pc = pc;
        cpu.regs.isp = self.isp;
        cpu.vbr = self.vbr;
        cpu
    }

    /// Whether the finish came to what it should; `at` is where it writes.
    fn is_met(&self, end: StepEnd, cpu: &Cpu, at: u32, port: &VectorPort) -> bool {
        end == self.end
            && (cpu.regs.sr, cpu.regs.pc, cpu.regs.isp) == self.after
            && stands(port, at, self.longs)
            && stands(port, cpu.regs.isp, self.frame)
    }
}

/// Whether a MOVEM of these words has so many transfers.
fn has_transfers(words: u32, done: u32) -> bool
    ensures { IsTrue result → done ≤ count_of (mask_in words) }
{
    done <= u32::from(count((words % 0x1_0000) as u16))
}
