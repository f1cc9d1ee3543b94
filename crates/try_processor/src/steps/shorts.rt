//! Instructions in short beside the general way.

use super::{Line, processor, step_over};
use crate::bench::{Bench, CODE, NO_HOLE, Trial, check, put, start};
use mb_model::Cpu;
use mb_step::{Decoder, StepEnd};
use try_vector::VectorPort;

/// A byte of the operands, for steps in which it is refused.
const HOLE: u32 = 0x1109;

/// Instructions of one word that have a short form, a few of each kind.
static ALONE: [u16; 68] = [
    0x70F9, // MOVEQ #-7,D0
    0x2401, // MOVE.L D1,D2
    0xD481, // ADD.L D1,D2
    0x9481, // SUB.L D1,D2
    0xC481, // AND.L D1,D2
    0x8481, // OR.L D1,D2
    0xB382, // EOR.L D1,D2
    0xB481, // CMP.L D1,D2
    0xC4C1, // MULU.W D1,D2
    0xC5C1, // MULS.W D1,D2
    0xE68A, // LSR.L #3,D2
    0x5A82, // ADDQ.L #5,D2
    0x5B82, // SUBQ.L #5,D2
    0x4A82, // TST.L D2
    0x2419, // MOVE.L (A1)+,D2
    0x22C2, // MOVE.L D2,(A1)+
    0x6606, // BNE.B
    0x6706, // BEQ.B
    0x4842, // SWAP D2
    0x48C2, // EXT.L D2
    0x5889, // ADDQ.L #4,A1
    0x5949, // SUBQ.W #4,A1
    0x3401, // MOVE.W D1,D2
    0x2409, // MOVE.L A1,D2
    0x3441, // MOVEA.W D1,A2
    0x9401, // SUB.B D1,D2
    0xC441, // AND.W D1,D2
    0xB401, // CMP.B D1,D2
    0xD5C1, // ADDA.L D1,A2
    0x94C9, // SUBA.W A1,A2
    0xB5C9, // CMPA.L A1,A2
    0x4A42, // TST.W D2
    0x1419, // MOVE.B (A1)+,D2
    0x3411, // MOVE.W (A1),D2
    0x2421, // MOVE.L -(A1),D2
    0x1427, // MOVE.B -(A7),D2
    0xB411, // CMP.B (A1),D2
    0x2259, // MOVEA.L (A1)+,A1
    0x8491, // OR.L (A1),D2
    0x1282, // MOVE.B D2,(A1)
    0x32C2, // MOVE.W D2,(A1)+
    0x2309, // MOVE.L A1,-(A1)
    0x1F02, // MOVE.B D2,-(A7)
    0x4299, // CLR.L (A1)+
    0xD391, // ADD.L D1,(A1)
    0x5B19, // SUBQ.B #5,(A1)+
    0xB361, // EOR.W D1,-(A1)
    0x4491, // NEG.L (A1)
    0x4242, // CLR.W D2
    0x4482, // NEG.L D2
    0x4602, // NOT.B D2
    0x5A42, // ADDQ.W #5,D2
    0x5B02, // SUBQ.B #5,D2
    0xB342, // EOR.W D1,D2
    0xD581, // ADDX.L D1,D2
    0x9541, // SUBX.W D1,D2
    0xE78A, // LSL.L #3,D2
    0xE60A, // LSR.B #3,D2
    0xE742, // ASL.W #3,D2
    0xE682, // ASR.L #3,D2
    0xE75A, // ROL.W #3,D2
    0xE69A, // ROR.L #3,D2
    0xC342, // EXG D1,D2
    0x56C2, // SNE D2
    0x4E75, // RTS
    0x6106, // BSR.B
    0x4E59, // UNLK A1
    0x4E5F, // UNLK A7
];

/// First words that have a short form with any second one.
static WITH_ANOTHER: [u16; 24] = [
    0x2429, // MOVE.L (d16,A1),D2
    0x2342, // MOVE.L D2,(d16,A1)
    0x6600, // BNE.W
    0x51C9, // DBF D1
    0x1429, // MOVE.B (d16,A1),D2
    0x3469, // MOVEA.W (d16,A1),A2
    0xD4A9, // ADD.L (d16,A1),D2
    0xB469, // CMP.W (d16,A1),D2
    0x4AA9, // TST.L (d16,A1)
    0x3342, // MOVE.W D2,(d16,A1)
    0x4229, // CLR.B (d16,A1)
    0x5269, // ADDQ.W #1,(d16,A1)
    0x9569, // SUB.W D2,(d16,A1)
    0x45E9, // LEA (d16,A1),A2
    0x6100, // BSR.W
    0x4E55, // LINK A5
    0x4E57, // LINK A7
    0x343C, // MOVE.W #second,D2
    0xD4FC, // ADDA.W #second,A2
    0x0602, // ADDI.B #second,D2
    0x0C42, // CMPI.W #second,D2
    0x45FA, // LEA (d16,PC),A2
    0x2351, // MOVE.L (A1),(d16,A1)
    0x0802, // BTST #second,D2
];

/// Instructions of three words, each once and once more with another third word.
static OF_THREE_WORDS: [[u16; 3]; 16] = [
    [0x0682, 0x0000, 0x1001], // ADDI.L #$1001,D2
    [0x0682, 0x0000, 0x1002],
    [0x0C82, 0x8000, 0x0000], // CMPI.L #$80000000,D2
    [0x0C82, 0x8000, 0x0001],
    [0x2439, 0x0000, 0x1108], // MOVE.L $1108,D2
    [0x2439, 0x0000, 0x110C],
    [0x23C2, 0x0000, 0x1108], // MOVE.L D2,$1108
    [0x23C2, 0x0000, 0x110C],
    [0xB5FC, 0x8000, 0x0000], // CMPA.L #$80000000,A2
    [0xB5FC, 0x8000, 0x0001],
    [0x42B9, 0x0000, 0x1108], // CLR.L $1108
    [0x42B9, 0x0000, 0x110C],
    [0x45F9, 0x0000, 0x1108], // LEA $1108,A2
    [0x45F9, 0x0000, 0x110C],
    [0x0069, 0x1234, 0x0000], // ORI.W #$1234,(0,A1)
    [0x0069, 0x1234, 0x0002],
];

/// First words that have a short form with any brief extension word, each with one.
static INDEXED: [[u16; 2]; 24] = [
    [0x2431, 0x40FC], // MOVE.L (-4,A1,D4.W),D2
    [0x1431, 0x48FD], // MOVE.B (-3,A1,D4.L),D2
    [0x2437, 0x4000], // MOVE.L (0,A7,D4.W),D2
    [0x3471, 0x6200], // MOVEA.W (0,A1,D6.W*2),A2
    [0x2671, 0x5803], // MOVEA.L (3,A1,D5.L),A3
    [0xD4B1, 0x4400], // ADD.L (0,A1,D4.W*4),D2
    [0x9471, 0x42FE], // SUB.W (-2,A1,D4.W*2),D2
    [0xC431, 0x5001], // AND.B (1,A1,D5.W),D2
    [0x84B1, 0x4CF0], // OR.L (-16,A1,D4.L*4),D2
    [0xB471, 0x6000], // CMP.W (0,A1,D6.W),D2
    [0xD5F1, 0x4E08], // ADDA.L (8,A1,D4.L*8),A2
    [0x94F1, 0x7205], // SUBA.W (5,A1,D7.W*2),A2
    [0xB5F1, 0xA080], // CMPA.L (-128,A1,A2.W),A2
    [0x4AB1, 0x4000], // TST.L (0,A1,D4.W)
    [0x4A71, 0x9200], // TST.W (0,A1,A1.W*2)
    [0x2382, 0x40FC], // MOVE.L D2,(-4,A1,D4.W)
    [0x1382, 0x5000], // MOVE.B D2,(0,A1,D5.W)
    [0x338A, 0x6400], // MOVE.W A2,(0,A1,D6.W*4)
    [0x2F84, 0x4804], // MOVE.L D4,(4,A7,D4.L)
    [0x4231, 0x48FD], // CLR.B (-3,A1,D4.L)
    [0x42B1, 0x4000], // CLR.L (0,A1,D4.W)
    [0x45F1, 0x0E80], // LEA (-128,A1,D0.L*8),A2
    [0x43F1, 0x9000], // LEA (0,A1,A1.W),A1
    [0x4BF7, 0xF87F], // LEA (127,A7,A7.L),A5
];

/// First words that have a short form with any word that names the registers of a product or a quotient, each with one.
static PAIRED: [[u16; 2]; 12] = [
    [0x4C40, 0x1001], // DIVU.L D0,D1
    [0x4C41, 0x0002], // DIVUL.L D1,D2:D0
    [0x4C42, 0x5C03], // DIVS.L D2,D3:D5
    [0x4C43, 0x0801], // DIVSL.L D3,D1:D0
    [0x4C45, 0x1404], // DIVU.L D5,D4:D1
    [0x4C46, 0x6C06], // DIVS.L D6,D6:D6
    [0x4C47, 0x0401], // DIVU.L D7,D1:D0
    [0x4C00, 0x1000], // MULU.L D0,D1
    [0x4C01, 0x4800], // MULS.L D1,D4
    [0x4C02, 0x3400], // MULU.L D2,D0:D3
    [0x4C03, 0x3C03], // MULS.L D3,D3:D3
    [0x4C04, 0x4C05], // MULS.L D4,D5:D4
];

/// What a step is taken from: the status register, the byte that is refused, and whether the bus answers quick calls.
struct Setting {
    sr: u16,
    hole: u32,
    is_quick: bool,
}

/// In user mode and traced, and with a refused operand; with a bus that knows all at once, and with one that does not.
static SETTINGS: [Setting; 4] = [
    Setting {
        sr: 0x0015,
        hole: NO_HOLE,
        is_quick: true,
    },
    Setting {
        sr: 0x8004,
        hole: NO_HOLE,
        is_quick: true,
    },
    Setting {
        sr: 0x0000,
        hole: HOLE,
        is_quick: true,
    },
    Setting {
        sr: 0x0015,
        hole: NO_HOLE,
        is_quick: false,
    },
];

/// How a step ended, with the processor then.
#[derive(Drop, PartialEq)]
struct Stepped {
    end: StepEnd,
    cpu: Cpu,
}

impl Setting {
    /// Makes a memory with operands that are numbers of their own.
    fn put_operands(&self, port: &mut VectorPort) {
        start(port, self.hole, &[]);
        port.is_quick = self.is_quick;
        let mut operand = 0x8123_4567_u32;
        for place in 0..16 {
            put(port, 0x1100 + 4 * place, 4, operand);
            operand = operand.wrapping_mul(5);
        }
    }

    /// One step of these words.
    fn step(&self, words: [u16; 3], decoder: &mut Decoder, port: &mut VectorPort) -> Stepped {
        put(port, CODE, 2, u32::from(words[0]));
        put(port, CODE + 2, 2, u32::from(words[1]));
        put(port, CODE + 4, 2, u32::from(words[2]));
        let mut cpu = processor(self.sr);
        cpu.regs.a[1] = 0x1108;
        cpu.regs.usp = 0x1110;
        let end = step_over(decoder, &mut cpu, port, Line::Calm);
        Stepped { end, cpu }
    }

    /// Whether two steps of the same words, each over a memory of its own, end the same and leave the same processor.
    fn is_as_general(&self, words: [u16; 3], bench: &mut Bench) -> bool {
        let general = self.step(words, &mut bench.decoder, &mut bench.port);
        let short = self.step(words, &mut bench.decoder, &mut bench.other);
        short == general
    }
}

/// Whether the second step of each first word, with this one behind it, is as its first.
fn are_as_general(setting: &Setting, all: &[u16], second: u16, bench: &mut Bench) -> bool {
    for first in all {
        if !setting.is_as_general([*first, second, 0x4E71], bench) {
            return false;
        }
    }
    true
}

/// Whether the second step of each two words is as its first.
fn are_pairs_as_general(setting: &Setting, all: &[[u16; 2]], bench: &mut Bench) -> bool {
    for [first, second] in all {
        if !setting.is_as_general([*first, *second, 0x4E71], bench) {
            return false;
        }
    }
    true
}

/// Whether the second step of each three words is as its first.
fn are_found_again(setting: &Setting, bench: &mut Bench) -> bool {
    for words in &OF_THREE_WORDS {
        if !setting.is_as_general(*words, bench) {
            return false;
        }
    }
    true
}

impl Trial for Setting {
    /// The first step of a first word goes the general way, and the next one of the same words in short, or, of three
    /// words, is found again.
    fn passes(&self, bench: &mut Bench) -> bool {
        self.put_operands(&mut bench.port);
        self.put_operands(&mut bench.other);
        are_as_general(self, &ALONE, 0x4E71, bench)
            && are_as_general(self, &WITH_ANOTHER, 0x0004, bench)
            && are_pairs_as_general(self, &INDEXED, bench)
            && are_pairs_as_general(self, &PAIRED, bench)
            && are_found_again(self, bench)
            && bench.other.longs == bench.port.longs
    }
}

/// Third words, one step after the other: MOVE.L #third,D2.
static THIRDS: [[u16; 5]; 1] = [[0x1001, 0x1001, 0x1002, 0x1002, 0x1001]];

/// Whether MOVE.L #third,D2 is carried out.
fn moves(third: u16, bench: &mut Bench) -> bool {
    let stepped = SETTINGS[0].step([0x243C, 0, third], &mut bench.decoder, &mut bench.port);
    stepped.cpu.regs.d[2] == u32::from(third) && stepped.cpu.regs.pc == CODE + 6
}

impl Trial for [u16; 5] {
    /// An instruction of three words is found again where its words came before, and never in place of another one.
    fn passes(&self, bench: &mut Bench) -> bool {
        SETTINGS[0].put_operands(&mut bench.port);
        for third in self {
            if !moves(*third, bench) {
                return false;
            }
        }
        true
    }
}

/// LEA (d8,A1,Xn),A2 by the words behind the first, with A2 and PC after it.
struct Index {
    words: [u16; 2],
    address: u32,
    pc: u32,
}

/// Brief extension words, and full ones, which spell other displacements or leave base or index out.
#[rattlefmt::skip]
static INDICES: [Index; 16] = [
    Index { words: [0x4000, 0x4E71], address: 0x110C, pc: CODE + 4 }, // (0,A1,D4.W)
    Index { words: [0x4800, 0x4E71], address: 0x110C, pc: CODE + 4 }, // (0,A1,D4.L)
    Index { words: [0x4200, 0x4E71], address: 0x1110, pc: CODE + 4 }, // (0,A1,D4.W*2)
    Index { words: [0x4400, 0x4E71], address: 0x1118, pc: CODE + 4 }, // (0,A1,D4.W*4)
    Index { words: [0x4600, 0x4E71], address: 0x1128, pc: CODE + 4 }, // (0,A1,D4.W*8)
    Index { words: [0x407F, 0x4E71], address: 0x118B, pc: CODE + 4 }, // (127,A1,D4.W)
    Index { words: [0x4080, 0x4E71], address: 0x108C, pc: CODE + 4 }, // (-128,A1,D4.W)
    Index { words: [0x0000, 0x4E71], address: 0xFFFF_E1D8, pc: CODE + 4 }, // (0,A1,D0.W)
    Index { words: [0x0800, 0x4E71], address: 0xD0D0_E1D8, pc: CODE + 4 }, // (0,A1,D0.L)
    Index { words: [0x0E00, 0x4E71], address: 0x8686_9788, pc: CODE + 4 }, // (0,A1,D0.L*8)
    Index { words: [0xA000, 0x4E71], address: 0x11AA, pc: CODE + 4 }, // (0,A1,A2.W)
    Index { words: [0xF800, 0x4E71], address: 0x2218, pc: CODE + 4 }, // (0,A1,A7.L)
    Index { words: [0x4110, 0x4E71], address: 0x110C, pc: CODE + 4 }, // full, no displacement
    Index { words: [0x4120, 0x0010], address: 0x111C, pc: CODE + 6 }, // full, a displacement of a word
    Index { words: [0x4150, 0x4E71], address: 0x1108, pc: CODE + 4 }, // full, no index
    Index { words: [0x4190, 0x4E71], address: 0x0004, pc: CODE + 4 }, // full, no base
];

impl Trial for Index {
    /// Once LEA came with a brief extension word it comes to the address that any other extension word spells.
    fn passes(&self, bench: &mut Bench) -> bool {
        let [second, third] = self.words;
        SETTINGS[0].put_operands(&mut bench.port);
        let _learnt = SETTINGS[0].step(
            [0x45F1, 0x4000, 0x4E71],
            &mut bench.decoder,
            &mut bench.port,
        );
        let stepped = SETTINGS[0].step(
            [0x45F1, second, third],
            &mut bench.decoder,
            &mut bench.port,
        );
        stepped.cpu.regs.a[2] == self.address && stepped.cpu.regs.pc == self.pc
    }
}

/// A division by D5 or a multiplication by D2 with the word behind it, and the registers which that names for the low
/// long or the quotient and for the high long or the remainder, after it; whether it is an instruction.
struct Pair {
    words: [u16; 2],
    low: u32,
    high: u32,
    is_legal: bool,
}

/// Words that name other registers, numbers without a sign or with one, of 32 bits or of 64, and words that name none.
#[rattlefmt::skip]
static PAIRS: [Pair; 18] = [
    Pair { words: [0x4C45, 0x0000], low: 0x29C3_5CF6, high: 0x29C3_5CF6, is_legal: true }, // DIVU.L D5,D0
    Pair { words: [0x4C45, 0x0006], low: 0x29C3_5CF6, high: 0x0000_0002, is_legal: true }, // DIVUL.L D5,D6:D0
    Pair { words: [0x4C45, 0x0800], low: 0xF690_29C4, high: 0xF690_29C4, is_legal: true }, // DIVS.L D5,D0
    Pair { words: [0x4C45, 0x1802], low: 0xF6C3_905D, high: 0x0000_0000, is_legal: true }, // DIVSL.L D5,D2:D1
    Pair { words: [0x4C45, 0x1404], low: 0xF6C3_905D, high: 0x0000_0000, is_legal: true }, // DIVU.L D5,D4:D1
    Pair { words: [0x4C45, 0x5C00], low: 0x0000_0005, high: 0xD0D0_D0D0, is_legal: true }, // DIVS.L D5,D0:D5
    Pair { words: [0x4C45, 0x0401], low: 0xD0D0_D0D0, high: 0xD1D1_D1D1, is_legal: true }, // DIVU.L D5,D1:D0
    Pair { words: [0x4C45, 0x4807], low: 0x0000_0000, high: 0x0000_0004, is_legal: true }, // DIVSL.L D5,D7:D4
    Pair { words: [0x4C45, 0x8000], low: 0xD0D0_D0D0, high: 0xD0D0_D0D0, is_legal: false },
    Pair { words: [0x4C45, 0x0008], low: 0xD0D0_D0D0, high: 0xD0D0_D0D0, is_legal: false },
    Pair { words: [0x4C02, 0x0000], low: 0x8135_EAA0, high: 0x8135_EAA0, is_legal: true }, // MULU.L D2,D0
    Pair { words: [0x4C02, 0x0401], low: 0x8135_EAA0, high: 0xABF7_428C, is_legal: true }, // MULU.L D2,D1:D0
    Pair { words: [0x4C02, 0x0C01], low: 0x8135_EAA0, high: 0x0853_9EEA, is_legal: true }, // MULS.L D2,D1:D0
    Pair { words: [0x4C02, 0x0C00], low: 0x0853_9EEA, high: 0x0853_9EEA, is_legal: true }, // MULS.L D2,D0:D0
    Pair { words: [0x4C02, 0x5800], low: 0x1E1E_1E1A, high: 0xD0D0_D0D0, is_legal: true }, // MULS.L D2,D5
    Pair { words: [0x4C02, 0x5400], low: 0x1E1E_1E1A, high: 0x0000_0004, is_legal: true }, // MULU.L D2,D0:D5
    Pair { words: [0x4C02, 0x8000], low: 0xD0D0_D0D0, high: 0xD0D0_D0D0, is_legal: false },
    Pair { words: [0x4C02, 0x0200], low: 0xD0D0_D0D0, high: 0xD0D0_D0D0, is_legal: false },
];

impl Trial for Pair {
    /// Once the first word came with one that names registers it is right with any other.
    fn passes(&self, bench: &mut Bench) -> bool {
        let [first, second] = self.words;
        SETTINGS[0].put_operands(&mut bench.port);
        let _learnt = SETTINGS[0].step(
            [first, 0x3000, 0x4E71],
            &mut bench.decoder,
            &mut bench.port,
        );
        let stepped = SETTINGS[0].step(
            [first, second, 0x4E71],
            &mut bench.decoder,
            &mut bench.port,
        );
        let regs = &stepped.cpu.regs;
        regs.d[(second >> 12 & 7) as usize] == self.low
            && regs.d[(second & 7) as usize] == self.high
            && (regs.pc == CODE + 4) == self.is_legal
    }
}

#[test]
fn short_forms(rt: HostRuntime) {
    check(&rt, rt.alloc(), &SETTINGS);
    check(&rt, rt.alloc(), &THIRDS);
    check(&rt, rt.alloc(), &INDICES);
    check(&rt, rt.alloc(), &PAIRS);
}
