//! Interrupts, and the stopped state.

use super::{Line, processor, step_over, take_step};
use crate::bench::{Bench, NO_HOLE, Trial, check, stands, start};
use Turn::{Both, One, Stops, Traced};
use mb_model::Cpu;
use mb_step::StepEnd::{self, Idle, Went};

/// What becomes of an interrupt, and of STOP.
enum Turn {
    /// An interrupt of level 6 goes to the master stack and the interrupt stack, and the handler returns, since an
    /// equal mask holds the next one.
    Both,
    /// The interrupt stack refuses its frame: an access error is entered on the master stack.
    One,
    /// The processor stops, an interrupt of level 5 leaves it so, and one of level 6 is entered.
    Stops,
    /// A trace is due by a status register, and is entered: the processor does not stop.
    Traced(u16),
}

static TURNS: [Turn; 5] = [Both, One, Stops, Traced(0xA700), Traced(0x6700)];

/// STOP #$2500.
static STOP: [u16; 2] = [0x4E72, 0x2500];

/// NOP.
static NOP: [u16; 1] = [0x4E71];

/// The frame of an access error where the interrupt stack refuses a frame, up to its third writeback.
#[rattlefmt::skip]
static FRAME: [u32; 8] = [0x3000_0000, 0x0400_7008, 0x7FFC, 0x0005_0000, 0, 0x7FFC, 0, 0];

/// One step, with an interrupt that is asked for.
fn interrupted(bench: &mut Bench, cpu: &mut Cpu, line: Line) -> StepEnd {
    step_over(&mut bench.decoder, cpu, &mut bench.port, line)
}

/// Whether SR and PC are these, and the processor is not stopped.
fn is_at(cpu: &Cpu, sr: u16, pc: u32) -> bool {
    cpu.regs.sr == sr && cpu.regs.pc == pc && !cpu.stopped
}

fn goes_to_both(bench: &mut Bench) -> bool {
    start(&mut bench.port, NO_HOLE, &NOP);
    let mut cpu = processor(0x3000);
    interrupted(bench, &mut cpu, Line::Timer) == Went
        && is_at(&cpu, 0x2600, 0x700)
        && (cpu.regs.msp, cpu.regs.isp) == (0x8FF8, 0x7FF8)
        && stands(&bench.port, 0x8FF8, &[0x3000_0000, 0x0400_0078])
        && stands(&bench.port, 0x7FF8, &[0x3000_0000, 0x0400_1078])
        && interrupted(bench, &mut cpu, Line::Timer) == Went
        && cpu == processor(0x3000)
}

fn goes_to_one(bench: &mut Bench) -> bool {
    start(&mut bench.port, 0x7FFC, &NOP);
    let mut cpu = processor(0x3000);
    cpu.stopped = true;
    interrupted(bench, &mut cpu, Line::Timer) == Went
        && is_at(&cpu, 0x3000, 0x500)
        && (cpu.regs.msp, cpu.regs.isp) == (0x8FC4, 0x8000)
        && stands(&bench.port, 0x8FC4, &FRAME)
        && stands(&bench.port, 0x7FF8, &[0, 0])
}

/// The processor after STOP.
fn stopped() -> Cpu {
    let mut cpu = processor(0x2500);
    cpu.regs.pc = 0x404;
    cpu.stopped = true;
    cpu
}

fn stops(bench: &mut Bench) -> bool {
    start(&mut bench.port, NO_HOLE, &STOP);
    let mut cpu = processor(0x2700);
    take_step(bench, &mut cpu) == Went
        && cpu == stopped()
        && interrupted(bench, &mut cpu, Line::Lower) == Idle
        && cpu == stopped()
        && interrupted(bench, &mut cpu, Line::Timer) == Went
        && is_at(&cpu, 0x2600, 0x700)
        && stands(&bench.port, 0x7FF8, &[0x2500_0000, 0x0404_0078])
}

fn is_traced(bench: &mut Bench, sr: u16) -> bool {
    start(&mut bench.port, NO_HOLE, &STOP);
    let mut cpu = processor(sr);
    take_step(bench, &mut cpu) == Went
        && is_at(&cpu, 0x2500, 0x500)
        && stands(&bench.port, 0x7FF4, &[0x2500_0000, 0x0404_2024, 0x400])
}

impl Trial for Turn {
    fn passes(&self, bench: &mut Bench) -> bool {
        match self {
            Both => goes_to_both(bench),
            One => goes_to_one(bench),
            Stops => stops(bench),
            Traced(sr) => is_traced(bench, *sr),
        }
    }
}

#[test]
fn interrupts_and_stops(rt: HostRuntime) {
    check(&rt, rt.alloc(), &TURNS);
}
