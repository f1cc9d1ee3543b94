//! Steps that a board began in user mode and left by an exception, finished for the guest by the frame, beside the same
//! steps as the guest takes them.

ghost use Rattle.std.specs.Prelude.{IsTrue, ◌≤◌, length};
ghost use Rattle.mb_port.specs.Pieces.{IsPiece};
ghost use Rattle.mb_frames.specs.AccessFields.{piece_of};
ghost use Rattle.mb_writes.specs.Writing.{ArePending};

use super::{GUEST, has_transfers};
use crate::bench::{Bench, CODE, NO_HOLE, Trial, check, put, stands, start};
use crate::steps::{Line, processor, step_over, take_step};
use arrayvec::ArrayVec;
use mb_entry::continues;
use mb_frames::{Access, Frame, Pend, from_bytes};
use mb_model::Cpu;
use mb_step::StepEnd;
use try_vector::VectorPort;
use vm_inject::{
    LeftOver, cause_of, finish_line, finish_movem, finish_trap, finish_writes, left_in,
};

/// The board's status register: user mode, no interrupt below level 7, and the guest's condition codes.
const BOARD: u16 = 0x0715;

/// The guest's interrupt stack, which is not the board's.
const GUEST_STACK: u32 = 0x6000;

/// Whether it has the place and length of a piece.
fn is_pending(pend: &Pend) -> bool
    ensures { IsTrue result → IsPiece (piece_of pend.now) }
{
    match pend.len {
        1 => true,
        2 => pend.at % 2 == 0,
        4 => pend.at % 4 == 0,
        _ => false,
    }
}

/// Whether they are at most three pieces.
fn are_pending(pending: &[Pend]) -> bool
    ensures few { IsTrue result → length pending.now ≤ 3 }
    ensures pieces { IsTrue result → ArePending pending.now }
{
    match pending {
        [] => true,
        [one] => is_pending(one),
        [one, two] => is_pending(one) && is_pending(two),
        [one, two, three] => is_pending(one) && is_pending(two) && is_pending(three),
        _ => false,
    }
}

/// What the frame says was left to do, where it has no more transfers than the MOVEM.
fn left(access: &Access) -> Option<LeftOver> {
    if continues(access) && !has_transfers(access.pd2, access.pd3) {
        return None;
    }
    Some(left_in(access))
}

/// The frame that the board stacked, which is taken out of memory.
fn take_frame(port: &mut VectorPort, at: u32) -> Option<Frame> {
    let mut bytes: ArrayVec<u8, 60> = ArrayVec::new();
    let mut place = at;
    for _ in 0..15 {
        let long = port.longs.get((place / 4) as usize)?.to_be_bytes();
        bytes.try_extend_from_slice(&long).ok()?;
        put(port, place, 4, 0);
        place = place.wrapping_add(4);
    }
    from_bytes(bytes.as_slice())
}

/// The guest before the step.
fn guest() -> Cpu {
    let mut cpu = processor(GUEST);
    cpu.regs.isp = GUEST_STACK;
    cpu
}

/// The guest with the registers that the board left: PC and the condition codes are the frame's.
fn handed(board: &Cpu, pc: u32, sr: u16) -> Cpu {
    let mut cpu = guest();
    let (d, a) = (board.regs.d, board.regs.a);
    cpu.regs.d = d;
    cpu.regs.a = a;
    cpu.regs.usp = board.regs.usp;
    cpu.regs.pc = pc;
    cpu.regs.sr = cpu.regs.sr / 32 * 32 + sr % 32;
    cpu
}

/// Does what was left.
fn go_on(bench: &mut Bench, access: &Access, cpu: &mut Cpu) -> Option<StepEnd> {
    let port = &mut bench.port;
    match left(access)? {
        LeftOver::Again => {
            *cpu = guest();
            Some(take_step(bench, cpu))
        }
        LeftOver::Writes { pending, first } => {
            let pending = pending.as_slice();
            if !are_pending(pending) {
                return None;
            }
            Some(finish_writes(pending, first, cpu, port))
        }
        LeftOver::Line { at, line } => {
            if at % 16 != 0 {
                return None;
            }
            Some(finish_line(at, line, cpu, port))
        }
        LeftOver::Movem {
            words,
            ea,
            done,
            next,
        } => {
            if !has_transfers(words, u32::from(done)) {
                return None;
            }
            Some(finish_movem(words, ea, done, next, cpu, port))
        }
    }
}

/// How a step of the guest ended, with its processor then.
#[derive(Drop)]
struct Finished {
    end: StepEnd,
    cpu: Cpu,
}

/// Whether a step of the guest by itself, of this code, ends so and leaves this processor and this memory.
fn is_own(code: &[u16], finished: &Finished, bench: &mut Bench) -> bool {
    start(&mut bench.other, NO_HOLE, code);
    let mut own = guest();
    let end = step_over(&mut bench.decoder, &mut own, &mut bench.other, Line::Calm);
    finished.end == end && finished.cpu == own && bench.port.longs == bench.other.longs
}

/// Code, and the byte that is refused at first.
struct Denied {
    code: &'static [u16],
    hole: u32,
}

#[rattlefmt::skip]
static DENIED: [Denied; 17] = [
    // long, first piece
    Denied { code: &[0x23FC, 0x1122, 0x3344, 0x0000, 0x2001], hole: 0x2001 },
    // long, second piece
    Denied { code: &[0x23FC, 0x1122, 0x3344, 0x0000, 0x2001], hole: 0x2002 },
    // long, third piece
    Denied { code: &[0x23FC, 0x1122, 0x3344, 0x0000, 0x2001], hole: 0x2004 },
    // push of BSR
    Denied { code: &[0x6104], hole: 0x3001 },
    // line that is written
    Denied { code: &[0xF620, 0x9000], hole: 0x2004 },
    // line that is read
    Denied { code: &[0xF620, 0x9000], hole: 0x1004 },
    // MOVEM to memory, first transfer
    Denied { code: &[0x48D0, 0x000F], hole: 0x1000 },
    // MOVEM to memory, third transfer
    Denied { code: &[0x48D0, 0x000F], hole: 0x1008 },
    // MOVEM down, second transfer
    Denied { code: &[0x48E0, 0xF000], hole: 0x0FF8 },
    // MOVEM to registers, third transfer
    Denied { code: &[0x4CD8, 0x00F0], hole: 0x1008 },
    // MOVEP, first byte
    Denied { code: &[0x01C9, 0x0000], hole: 0x2000 },
    // MOVEP, second byte
    Denied { code: &[0x01C9, 0x0000], hole: 0x2002 },
    // MOVEP, fourth byte
    Denied { code: &[0x01C9, 0x0000], hole: 0x2006 },
    // read
    Denied { code: &[0x2018], hole: 0x1001 },
    // locked check
    Denied { code: &[0x4AD0], hole: 0x1000 },
    // first fetch
    Denied { code: &[0x23FC, 0x1122, 0x3344, 0x0000, 0x2001], hole: 0x0400 },
    // third fetch
    Denied { code: &[0x23FC, 0x1122, 0x3344, 0x0000, 0x2001], hole: 0x0405 },
];

/// A step of the board that is refused, and what was left of it.
fn finish_denied(row: &Denied, bench: &mut Bench) -> Option<Finished> {
    let mut board = processor(BOARD);
    bench.port.hole = row.hole;
    let end = take_step(bench, &mut board);
    bench.port.hole = NO_HOLE;
    if end != StepEnd::Went {
        return None;
    }
    let Frame::Access { sr, pc, access, .. } = take_frame(&mut bench.port, board.regs.isp)? else {
        return None;
    };
    let mut cpu = handed(&board, pc, sr);
    let end = go_on(bench, &access, &mut cpu)?;
    Some(Finished { end, cpu })
}

impl Trial for Denied {
    fn passes(&self, bench: &mut Bench) -> bool {
        start(&mut bench.port, NO_HOLE, self.code);
        match finish_denied(self, bench) {
            Some(finished) => is_own(self.code, &finished, bench),
            None => false,
        }
    }
}

/// Code that traps, and its exit.
struct Trap {
    code: &'static [u16],
    exit: u8,
}

#[rattlefmt::skip]
static TRAPS: [Trap; 5] = [
    Trap { code: &[0x4E40], exit: 32 },
    Trap { code: &[0x4E4F], exit: 47 },
    Trap { code: &[0x80FC, 0x0000], exit: 5 },
    Trap { code: &[0x41BC, 0x0000], exit: 6 },
    Trap { code: &[0x50FC], exit: 7 },
];

/// A step of the board that traps, which is then entered for the guest.
fn finish_trapped(exit: u8, bench: &mut Bench) -> Option<Finished> {
    let mut board = processor(BOARD);
    if take_step(bench, &mut board) != StepEnd::Went {
        return None;
    }
    let frame = take_frame(&mut bench.port, board.regs.isp)?;
    let (Frame::Short { sr, pc, .. } | Frame::Address { sr, pc, .. }) = frame else {
        return None;
    };
    let mut cpu = handed(&board, pc, sr);
    let end = enter_trap(&frame, exit, &mut cpu, &mut bench.port)?;
    Some(Finished { end, cpu })
}

/// Enters the trap that a frame tells of, of the instruction at the code.
fn enter_trap(frame: &Frame, exit: u8, cpu: &mut Cpu, port: &mut VectorPort) -> Option<StepEnd> {
    let before = guest();
    if before.regs.is_supervisor() {
        return None;
    }
    let cause = cause_of(frame, exit, &before);
    if cause.address != CODE {
        return None;
    }
    Some(finish_trap(&cause, &before.regs.plain(), cpu, port))
}

impl Trial for Trap {
    fn passes(&self, bench: &mut Bench) -> bool {
        start(&mut bench.port, NO_HOLE, self.code);
        match finish_trapped(self.exit, bench) {
            Some(finished) => is_own(self.code, &finished, bench),
            None => false,
        }
    }
}

/// What MOVEM.L D0-D3,(A0) at $400 to $3F8 leaves after its third transfer.
const THREE_DONE: LeftOver = LeftOver::Movem {
    words: 0x48D0_000F,
    ea: 0x3F8,
    done: 3,
    next: 0x404,
};

/// The board's step, whose third transfer is over its words and whose fourth is refused: its processor and frame.
fn begin_movem(bench: &mut Bench) -> Option<(Cpu, Frame)> {
    let mut board = processor(BOARD);
    board.regs.a[0] = 0x3F8;
    let end = take_step(bench, &mut board);
    bench.port.hole = NO_HOLE;
    if end != StepEnd::Went || !stands(&bench.port, CODE, &[0xD2D2_D2D2, 0]) {
        return None;
    }
    Some((board, take_frame(&mut bench.port, board.regs.isp)?))
}

/// Whether the guest ends it.
fn ends_movem(bench: &mut Bench) -> Option<bool> {
    let (board, frame) = begin_movem(bench)?;
    let Frame::Access { sr, pc, access, .. } = frame else {
        return None;
    };
    let mut cpu = handed(&board, pc, sr);
    let was_left = left(&access) == Some(THREE_DONE);
    let end = go_on(bench, &access, &mut cpu)?;
    let ends = end == StepEnd::Went && (cpu.regs.sr, cpu.regs.pc) == (GUEST, 0x404);
    Some(was_left && ends && stands(&bench.port, 0x3F8, &STORED))
}

/// What it stores.
static STORED: [u32; 4] = [0xD0D0_D0D0, 0xD1D1_D1D1, 0xD2D2_D2D2, 0xD3D3_D3D3];

/// A MOVEM whose words are gone when it goes on.
struct OverItself;

static OVER_ITSELF: [OverItself; 1] = [OverItself];

impl Trial for OverItself {
    fn passes(&self, bench: &mut Bench) -> bool {
        start(&mut bench.port, 0x404, &[0x48D0, 0x000F]);
        ends_movem(bench) == Some(true)
    }
}

#[test]
fn steps_of_a_board(rt: HostRuntime) {
    check(&rt, rt.alloc(), &DENIED);
    check(&rt, rt.alloc(), &TRAPS);
    check(&rt, rt.alloc(), &OVER_ITSELF);
}
