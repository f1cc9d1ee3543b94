//! RTE, with its traces and the continuation of a MOVEM.

use super::{processor, take_step};
use crate::bench::{Bench, NO_HOLE, RTE, Trial, check, put, put_longs, stands, start};
use mb_model::Cpu;
use mb_step::StepEnd;
use try_vector::VectorPort;

/// An RTE by a frame at $8000.
struct Row {
    sr: u16,
    /// The frame up to its SSW.
    frame: [u32; 4],
    /// SR, PC and the interrupt stack pointer then.
    after: (u16, u32, u32),
    /// The frame of an exception that follows, where the interrupt stack pointer is then.
    stacked: &'static [u32],
}

#[rattlefmt::skip]
static ROWS: [Row; 8] = [
    // no trace
    Row { sr: 0x2700, frame: [0x2000_0000, 0x0600_0020, 0, 0],
        after: (0x2000, 0x600, 0x8008), stacked: &[] },
    // a trace is due of the next instruction
    Row { sr: 0x2700, frame: [0xA000_0000, 0x0600_0020, 0, 0],
        after: (0xA000, 0x600, 0x8008), stacked: &[] },
    // T1
    Row { sr: 0xA700, frame: [0x2000_0000, 0x0600_0020, 0, 0],
        after: (0x2000, 0x500, 0x7FFC), stacked: &[0x2000_0000, 0x0600_2024, 0x400] },
    // T0
    Row { sr: 0x6700, frame: [0x2000_0000, 0x0600_0020, 0, 0],
        after: (0x2000, 0x500, 0x7FFC), stacked: &[0x2000_0000, 0x0600_2024, 0x400] },
    // CT
    Row { sr: 0x2700, frame: [0x2000_0000, 0x0600_7008, 0, 0x2000_0000],
        after: (0x2000, 0x500, 0x8030), stacked: &[0x2000_0000, 0x0600_2024, 0x600] },
    // T1 and CT
    Row { sr: 0xA700, frame: [0x2000_0000, 0x0600_7008, 0, 0x2000_0000],
        after: (0x2000, 0x500, 0x8030), stacked: &[0x2000_0000, 0x0600_2024, 0x400] },
    // an access error without CT
    Row { sr: 0x2700, frame: [0xA000_0000, 0x0600_7008, 0, 0],
        after: (0xA000, 0x600, 0x803C), stacked: &[] },
    // a format error with T1
    Row { sr: 0xA700, frame: [0, 0x0000_3000, 0, 0],
        after: (0x2700, 0x660, 0x7FF8), stacked: &[0xA700_0000, 0x0400_0038] },
];

impl Trial for Row {
    fn passes(&self, bench: &mut Bench) -> bool {
        start(&mut bench.port, NO_HOLE, &[RTE]);
        // The vector of format errors.
        put(&mut bench.port, 0x38, 4, 0x660);
        put_longs(&mut bench.port, 0x8000, &self.frame);
        let mut cpu = processor(self.sr);
        take_step(bench, &mut cpu) == StepEnd::Went
            && (cpu.regs.sr, cpu.regs.pc, cpu.regs.isp) == self.after
            && stands(&bench.port, cpu.regs.isp, self.stacked)
    }
}

/// One step, after which SR, PC and the interrupt stack pointer are these, and these longs stand in memory.
struct Continued {
    hole: u32,
    after: (u16, u32, u32),
    longs: &'static [(u32, &'static [u32])],
}

/// MOVEM.L D0-D3,(A0) with T1, refused at its third transfer; the handler at $500 returns.
#[rattlefmt::skip]
static CONTINUED: [[Continued; 3]; 1] = [[
    Continued { hole: 0x1008, after: (0x2700, 0x500, 0x7FC4), longs: &[] },
    // Refused again: the frame is the same.
    Continued {
        hole: 0x1008, after: (0x2700, 0x500, 0x7FC4),
        longs: &[
            (0x7FC4, &[0xA700_0000, 0x0400_7008, 0x1000, 0x3005_0000, 0, 0x1008]), (0x7FF4, &[0x0404, 0x48D0_000F, 2]),
        ],
    },
    // Done: the trace has the frame's PC.
    Continued {
        hole: NO_HOLE, after: (0x2700, 0x500, 0x7FF4),
        longs: &[
            (0x7FF4, &[0xA700_0000, 0x0404_2024, 0x400]),
            (0x1000, &[0xD0D0_D0D0, 0xD1D1_D1D1, 0xD2D2_D2D2, 0xD3D3_D3D3]),
        ],
    },
]];

/// Whether all of these longs stand.
fn all_stand(port: &VectorPort, all: &[(u32, &[u32])]) -> bool {
    for (at, longs) in all {
        if !stands(port, *at, longs) {
            return false;
        }
    }
    true
}

impl Continued {
    /// Whether the step comes to what it should.
    fn is_met(&self, bench: &mut Bench, cpu: &mut Cpu) -> bool {
        bench.port.hole = self.hole;
        take_step(bench, cpu) == StepEnd::Went
            && (cpu.regs.sr, cpu.regs.pc, cpu.regs.isp) == self.after
            && all_stand(&bench.port, self.longs)
    }
}

impl Trial for [Continued; 3] {
    fn passes(&self, bench: &mut Bench) -> bool {
        start(&mut bench.port, NO_HOLE, &[0x48D0, 0x000F]);
        put(&mut bench.port, 0x500, 2, u32::from(RTE));
        let mut cpu = processor(0xA700);
        for step in self {
            if !step.is_met(bench, &mut cpu) {
                return false;
            }
        }
        true
    }
}

#[test]
fn returns(rt: HostRuntime) {
    check(&rt, rt.alloc(), &ROWS);
    check(&rt, rt.alloc(), &CONTINUED);
}
