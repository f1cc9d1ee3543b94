//! Boards that run in user mode: what a run counts, and by what it ends.

use crate::boards::{board_with, state_of};
use RunEnd::{Counted, Exit, Gone};
use mb_board::{Board, Native, RunEnd};
use mb_model::{Cpu, RunState};
use mb_outside::Memory;
use mb_port::{Piece, Port, Space};
use std::alloc::Global;

/// A board with this code at PC 0, with this status register and ISP, and with 0 in every other register.
fn board_at(alloc: Global, code: &[u8], sr: u16, isp: u32) -> Result<Board, Memory> {
    let mut board = board_with(alloc, &[(0, code)])?;
    let mut cpu = Cpu::at_reset(isp, 0);
    cpu.regs.sr = sr;
    board.set_cpu(&cpu);
    Ok(board)
}

/// Runs where the board runs in user mode, and little was counted so far.
fn run(board: &mut Board, limit: u32, native: &mut Native) -> Option<RunEnd> {
    let few = native.retired() < 1000 && native.exceptions() < 1000;
    if few && !board.cpu().regs.is_supervisor() && matches!(state_of(board), RunState::Running) {
        Some(board.run(limit, native))
    } else {
        None
    }
}

/// The limits of runs one behind the other, and what is counted after each: the retired steps, the exceptions and the
/// trail, and the PC and D3 at the beginning of the last step.
struct Runs {
    name: &'static str,
    code: &'static [u8],
    runs: &'static [(u32, (u64, u64, u64), (u32, u32))],
}

#[rattlefmt::skip]
static COUNTS: [Runs; 4] = [
    Runs { name: "NOP leads to PC 2", code: &[0x4E, 0x71], runs: &[(1, (1, 0, 62), (0, 0))] },
    Runs {
        name: "MOVE #$1F,CCR leads to PC 4 and the condition codes $1F",
        code: &[0x44, 0xFC, 0, 0x1F],
        runs: &[(1, (1, 0, 155), (0, 0))],
    },
    Runs { name: "no step leads to nothing", code: &[0x4E, 0x71], runs: &[(0, (0, 0, 0), (0, 0))] },
    Runs {
        name: "a loop of MOVEQ #5,D3 and BRA back to it: the trail is as another program sums it",
        code: &[0x76, 5, 0x60, 0xFC],
        runs: &[(3, (3, 0, 256_721_248_896_225_299), (0, 5)), (1, (4, 0, 10_930_215_216_108_088_987), (2, 5))],
    },
];

/// Takes the runs of a case. Whether each is counted as it says.
fn counts(board: &mut Board, case: &Runs) -> bool {
    let mut native = Native::new();
    for (limit, numbers, began) in case.runs {
        let end = run(board, *limit, &mut native);
        let counted = (native.retired(), native.exceptions(), native.trail());
        if end != Some(Counted) || counted != *numbers || at_last_step(board) != *began {
            return false;
        }
    }
    board.outcome().steps == 0
}

/// The PC and D3 at the beginning of the last step.
fn at_last_step(board: &Board) -> (u32, u32) {
    let before = board.before();
    (before.pc, before.d[3])
}

#[test]
fn runs_are_counted_one_behind_the_other(rt: HostRuntime) {
    for case in &COUNTS {
        let mut board = board_at(rt.alloc(), case.code, 0, 0).expect(&rt, "ample memory");
        assert!(rt; counts(&mut board, case), "{}", case.name);
    }
}

/// A run from PC 0, and by what it ends: the board's state, the retired steps and the exceptions, and the PC at which
/// the last step began.
#[derive(Clone, Copy)]
struct Ending {
    name: &'static str,
    code: &'static [u8],
    sr: u16,
    isp: u32,
    /// The timer's.
    period: u32,
    end: RunEnd,
    state: RunState,
    counted: (u64, u64),
    pc: u32,
}

/// NOP, and an exception at the next step.
const AT_THE_SECOND: Ending = Ending {
    name: "",
    code: &[],
    sr: 0,
    isp: 0x8000,
    period: 0,
    end: Exit(0),
    state: RunState::Running,
    counted: (1, 1),
    pc: 2,
};

/// An exception at the first step.
const AT_THE_FIRST: Ending = Ending {
    counted: (0, 1),
    pc: 0,
    ..AT_THE_SECOND
};

/// Of an exit the vector is that of the last exception that the step entered. A board that halts is no exit, and
/// neither is one that is switched off, by a step that is carried out.
#[rattlefmt::skip]
static ENDINGS: [Ending; 16] = [
    Ending {
        name: "MOVE.L $20000,D0", code: &[0x4E, 0x71, 0x20, 0x39, 0, 2, 0, 0], end: Exit(2), ..AT_THE_SECOND
    },
    Ending {
        name: "BRA to an odd address", code: &[0x4E, 0x71, 0x60, 0xFF, 0, 0, 0, 1], end: Exit(3), counted: (2, 1),
        pc: 5, ..AT_THE_SECOND
    },
    Ending { name: "ILLEGAL", code: &[0x4E, 0x71, 0x4A, 0xFC], end: Exit(4), ..AT_THE_SECOND },
    Ending { name: "DIVU #0,D0", code: &[0x4E, 0x71, 0x80, 0xFC, 0, 0], end: Exit(5), ..AT_THE_SECOND },
    Ending { name: "CHK #-1,D0", code: &[0x4E, 0x71, 0x41, 0xBC, 0xFF, 0xFF], end: Exit(6), ..AT_THE_SECOND },
    Ending { name: "TRAPT", code: &[0x4E, 0x71, 0x50, 0xFC], end: Exit(7), ..AT_THE_SECOND },
    Ending { name: "MOVE SR,D0", code: &[0x4E, 0x71, 0x40, 0xC0], end: Exit(8), ..AT_THE_SECOND },
    Ending { name: "line A", code: &[0x4E, 0x71, 0xA0, 0], end: Exit(10), ..AT_THE_SECOND },
    Ending { name: "line F", code: &[0x4E, 0x71, 0xF2, 0x80, 0, 0], end: Exit(11), ..AT_THE_SECOND },
    Ending { name: "TRAP #3", code: &[0x4E, 0x71, 0x4E, 0x43], end: Exit(35), ..AT_THE_SECOND },
    Ending { name: "NOP is traced", code: &[0x4E, 0x71], sr: 0x8000, end: Exit(9), ..AT_THE_FIRST },
    Ending { name: "TRAP #3 is traced", code: &[0x4E, 0x43], sr: 0x8000, end: Exit(9), ..AT_THE_FIRST },
    Ending {
        name: "BRA is traced as a change of flow", code: &[0x4E, 0x71, 0x60, 0xFE], sr: 0x4000, end: Exit(9),
        ..AT_THE_SECOND
    },
    Ending {
        name: "the timer interrupts at the third step", code: &[0x4E, 0x71, 0x4E, 0x71, 0x4E, 0x71], period: 3,
        end: Exit(30), counted: (2, 1), pc: 4, ..AT_THE_SECOND
    },
    Ending {
        name: "TRAP #0 halts, since its stack is nowhere", code: &[0x4E, 0x71, 0x4E, 0x40], isp: 0xFFF0_0008,
        end: Gone, state: RunState::Halted, counted: (1, 0), ..AT_THE_SECOND
    },
    Ending {
        name: "MOVE.L #1,$FFF00020 switches off", code: &[0x23, 0xFC, 0, 0, 0, 1, 0xFF, 0xF0, 0, 0x20],
        end: Gone, state: RunState::Off, counted: (1, 0), pc: 0, ..AT_THE_SECOND
    },
];

/// Whether the timer has this period from now on.
fn set_period(board: &mut Board, steps: u32) -> bool {
    let period = Piece {
        at: 0xFFF0_0010,
        len: 4,
    };
    board.write(Space::Super, period, steps) == Ok(())
}

/// Takes the run of a case. Whether it ends as it says.
fn ends(board: &mut Board, case: &Ending) -> bool {
    let mut native = Native::new();
    let end = run(board, 10, &mut native);
    end == Some(case.end)
        && state_of(board) == case.state
        && (native.retired(), native.exceptions()) == case.counted
        && at_last_step(board).0 == case.pc
        && (board.cpu().regs.is_supervisor() || !matches!(case.end, Exit(_)))
}

#[test]
fn a_run_ends_by_its_last_step(rt: HostRuntime) {
    for case in &ENDINGS {
        let board = board_at(rt.alloc(), case.code, case.sr, case.isp);
        let mut board = board.expect(&rt, "ample memory");
        assert!(rt; set_period(&mut board, case.period), "{}", case.name);
        assert!(rt; ends(&mut board, case), "{}", case.name);
    }
}
