//! Plain instructions, each by the call of its family, over a vector of longs.

use crate::bench::{Bench, CODE, NO_HOLE, Trial, check, stands, start};
use crate::steps::processor;
use End::{Done, Flows, Trapped, Unread, Unwritten};
use mb_decode::{Decoded, decode};
use mb_instr::{Instr, Plain};
use mb_operands::Stream;
use mb_ops_arith::perform_arith;
use mb_ops_flow::perform_flow;
use mb_ops_move::perform_move;
use mb_port::Space;
use mb_writes::Ended;
use try_vector::VectorPort;

/// How an instruction ended, in short.
#[derive(Clone, Copy, PartialEq)]
enum End {
    Done,
    /// Done, and T0 asks for a trace after it.
    Flows,
    Trapped(u8),
    Unread,
    Unwritten,
    /// What no row has.
    Otherwise,
}

fn end_of(ended: &Ended) -> End {
    match ended {
        Ended::Done { flow: false } => Done,
        Ended::Done { flow: true } => Flows,
        Ended::Trap(vector) => Trapped(*vector),
        Ended::ReadFault(_) => Unread,
        Ended::WriteFault(_) => Unwritten,
        _ => End::Otherwise,
    }
}

/// Carries out the plain instruction that the words are; `None` where they are none.
fn performed(words: &[u16], plain: &mut Plain, port: &mut VectorPort) -> Option<End> {
    let Decoded::Whole(instruction, length) = &decode(words) else {
        return None;
    };
    let stream = Stream {
        at: CODE,
        space: Space::User,
    };
    plain.pc = CODE.wrapping_add(2 * u32::from(*length));
    let ended = match instruction {
        Instr::Move(instruction) => perform_move(instruction, stream, plain, port),
        Instr::Arith(instruction) => perform_arith(instruction, stream, plain, port),
        Instr::Flow(instruction) => perform_flow(instruction, stream, plain, port),
        Instr::System(_) => return None,
    };
    Some(end_of(&ended))
}

/// An instruction, the byte that refuses, how it ends, and then D0, A0, A7, PC, the condition codes, and a long of
/// memory with its address.
struct Row {
    words: &'static [u16],
    hole: u32,
    end: End,
    d0: u32,
    a0: u32,
    a7: u32,
    pc: u32,
    ccr: u8,
    long: (u32, u32),
}

#[rattlefmt::skip]
static ROWS: [Row; 13] = [
    // MOVEQ, MOVE.L (A0)+,D0 and MOVE.L D0,(A0)+, each also refused
    Row { words: &[0x7005], hole: NO_HOLE, end: Done, d0: 5, a0: 0x1000, a7: 0x3004, pc: 0x402, ccr: 0,
        long: (0x1000, 0) },
    Row { words: &[0x2018], hole: NO_HOLE, end: Done, d0: 0, a0: 0x1004, a7: 0x3004, pc: 0x402, ccr: 4,
        long: (0x1000, 0) },
    Row { words: &[0x2018], hole: 0x1003, end: Unread, d0: 0xD0D0_D0D0, a0: 0x1000, a7: 0x3004, pc: 0x402, ccr: 0,
        long: (0x1000, 0) },
    Row { words: &[0x20C0], hole: NO_HOLE, end: Done, d0: 0xD0D0_D0D0, a0: 0x1004, a7: 0x3004, pc: 0x402, ccr: 8,
        long: (0x1000, 0xD0D0_D0D0) },
    Row { words: &[0x20C0], hole: 0x1003, end: Unwritten, d0: 0xD0D0_D0D0, a0: 0x1004, a7: 0x3004, pc: 0x402, ccr: 8,
        long: (0x1000, 0) },
    // ADDQ.L #1,D0 and ADDQ.L #1,(A0), which is also refused, and DIVU.W #0,D0
    Row { words: &[0x5280], hole: NO_HOLE, end: Done, d0: 0xD0D0_D0D1, a0: 0x1000, a7: 0x3004, pc: 0x402, ccr: 8,
        long: (0x1000, 0) },
    Row { words: &[0x5290], hole: NO_HOLE, end: Done, d0: 0xD0D0_D0D0, a0: 0x1000, a7: 0x3004, pc: 0x402, ccr: 0,
        long: (0x1000, 1) },
    Row { words: &[0x5290], hole: 0x1000, end: Unread, d0: 0xD0D0_D0D0, a0: 0x1000, a7: 0x3004, pc: 0x402, ccr: 0,
        long: (0x1000, 0) },
    Row { words: &[0x80FC, 0], hole: NO_HOLE, end: Trapped(5), d0: 0xD0D0_D0D0, a0: 0x1000, a7: 0x3004, pc: 0x404,
        ccr: 0, long: (0x1000, 0) },
    // BRA.B, JSR (A0), which is also refused, and TRAP #1
    Row { words: &[0x6006], hole: NO_HOLE, end: Flows, d0: 0xD0D0_D0D0, a0: 0x1000, a7: 0x3004, pc: 0x408, ccr: 0,
        long: (0x1000, 0) },
    Row { words: &[0x4E90], hole: NO_HOLE, end: Flows, d0: 0xD0D0_D0D0, a0: 0x1000, a7: 0x3000, pc: 0x1000, ccr: 0,
        long: (0x3000, 0x402) },
    Row { words: &[0x4E90], hole: 0x3000, end: Unwritten, d0: 0xD0D0_D0D0, a0: 0x1000, a7: 0x3000, pc: 0x1000, ccr: 0,
        long: (0x3000, 0) },
    Row { words: &[0x4E41], hole: NO_HOLE, end: Trapped(33), d0: 0xD0D0_D0D0, a0: 0x1000, a7: 0x3004, pc: 0x402, ccr: 0,
        long: (0x3000, 0) },
];

impl Row {
    /// The registers after the instruction.
    fn wanted(&self) -> Plain {
        let mut plain = processor(0).regs.plain();
        plain.d[0] = self.d0;
        plain.a[0] = self.a0;
        plain.a[7] = self.a7;
        plain.pc = self.pc;
        plain.ccr = self.ccr;
        plain
    }
}

impl Trial for Row {
    fn passes(&self, bench: &mut Bench) -> bool {
        let port = &mut bench.port;
        start(port, self.hole, self.words);
        let mut plain = processor(0).regs.plain();
        let (at, long) = self.long;
        performed(self.words, &mut plain, port) == Some(self.end)
            && plain == self.wanted()
            && stands(port, at, &[long])
    }
}

#[test]
fn each_family_by_its_call(rt: HostRuntime) {
    check(&rt, rt.alloc(), &ROWS);
}
