//! Steps over a memory of longs, by hand.

mod exceptions;
mod returns;
mod shorts;
mod turns;

use crate::bench::{Bench, CODE};
use mb_instr::Regs;
use mb_model::Cpu;
use mb_step::{Decoder, StepEnd, step};
use try_vector::VectorPort;

/// A processor at the code, with A0 at $1000, A1 at $2000 and stacks at $3004, $8000 and $9000.
pub(crate) fn processor(sr: u16) -> Cpu {
    Cpu {
        regs: Regs {
            d: [
                0xD0D0_D0D0,
                0xD1D1_D1D1,
                0xD2D2_D2D2,
                0xD3D3_D3D3,
                4,
                5,
                6,
                7,
            ],
            a: [0x1000, 0x2000, 0xA2, 0xA3, 0xA4, 0xA5, 0xA6],
            usp: 0x3004,
            isp: 0x8000,
            msp: 0x9000,
            pc: CODE,
            sr,
        },
        vbr: 0,
        sfc: 0,
        dfc: 0,
        cacr: 0,
        stopped: false,
    }
}

/// One step, with no interrupt.
pub(crate) fn take_step(bench: &mut Bench, cpu: &mut Cpu) -> StepEnd {
    step_over(&mut bench.decoder, cpu, &mut bench.port, Line::Calm)
}

/// What asks for an interrupt.
#[derive(Clone, Copy)]
pub(crate) enum Line {
    Calm,
    /// Level 5.
    Lower,
    /// Level 6.
    Timer,
}

/// One step, with an interrupt that is asked for.
pub(crate) fn step_over(
    decoder: &mut Decoder,
    cpu: &mut Cpu,
    port: &mut VectorPort,
    line: Line,
) -> StepEnd {
    let level = match line {
        Line::Calm => 0,
        Line::Lower => 5,
        Line::Timer => 6,
    };
    step(decoder, cpu, port, level)
}

/// How so many steps end, each of which but the last goes on.
fn steps(bench: &mut Bench, count: u32, cpu: &mut Cpu) -> StepEnd {
    for _ in 1..count {
        if take_step(bench, cpu) != StepEnd::Went {
            return StepEnd::Halted;
        }
    }
    take_step(bench, cpu)
}
