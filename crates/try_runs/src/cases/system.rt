//! What gives the machine of a case of the system its registers.

use crate::cases::case::{Case, PERIOD};
use crate::cases::chunk::{Chunk, RAM_SIZE};
use crate::cases::memory::{add, add_longs, add_words, halves, put_longs, put_words};
use crate::cases::registers::{
    A0, CACR, D0, DFC, DTT0, DTT1, ISP, ITT0, ITT1, MMUSR, MSP, PC, Registers, SFC, SR, SRP, TC,
    URP, USP, VBR,
};
use crate::cases::words::{next_long, next_longs};
use mb_instr::status::M;
use std::alloc::Global;
use std::str::SplitWhitespace;

/// How many steps give all registers.
const SET_UP_STEPS: u32 = 47;

/// Where the stack of the reset begins, which nothing uses.
const RESET_STACK: u32 = 0x800;

/// Code that gives all registers, and ends with an RTE to the case's own instructions.
#[derive(Clone, Copy)]
pub struct System {
    /// Where the code begins.
    start: u32,
    /// Where the frame of its RTE stands.
    frame: u32,
}

/// A register's value, with the words before it and behind it.
struct Piece {
    words: &'static [u16],
    place: usize,
    behind: &'static [u16],
}

/// `MOVE.L #value,D0` and `MOVEC D0,register`, for all but TC; and `MOVE.L #value` to D1 to A6.
#[rattlefmt::skip]
static REGISTERS: [Piece; 26] = [
    Piece { words: &[0x203C], place: VBR, behind: &[0x4E7B, 0x801] },
    Piece { words: &[0x203C], place: SFC, behind: &[0x4E7B, 0] },
    Piece { words: &[0x203C], place: DFC, behind: &[0x4E7B, 1] },
    Piece { words: &[0x203C], place: CACR, behind: &[0x4E7B, 2] },
    Piece { words: &[0x203C], place: URP, behind: &[0x4E7B, 0x806] },
    Piece { words: &[0x203C], place: SRP, behind: &[0x4E7B, 0x807] },
    Piece { words: &[0x203C], place: ITT0, behind: &[0x4E7B, 4] },
    Piece { words: &[0x203C], place: ITT1, behind: &[0x4E7B, 5] },
    Piece { words: &[0x203C], place: DTT0, behind: &[0x4E7B, 6] },
    Piece { words: &[0x203C], place: DTT1, behind: &[0x4E7B, 7] },
    Piece { words: &[0x203C], place: MMUSR, behind: &[0x4E7B, 0x805] },
    Piece { words: &[0x203C], place: USP, behind: &[0x4E7B, 0x800] },
    Piece { words: &[0x223C], place: D0 + 1, behind: &[] },
    Piece { words: &[0x243C], place: D0 + 2, behind: &[] },
    Piece { words: &[0x263C], place: D0 + 3, behind: &[] },
    Piece { words: &[0x283C], place: D0 + 4, behind: &[] },
    Piece { words: &[0x2A3C], place: D0 + 5, behind: &[] },
    Piece { words: &[0x2C3C], place: D0 + 6, behind: &[] },
    Piece { words: &[0x2E3C], place: D0 + 7, behind: &[] },
    Piece { words: &[0x207C], place: A0, behind: &[] },
    Piece { words: &[0x227C], place: A0 + 1, behind: &[] },
    Piece { words: &[0x247C], place: A0 + 2, behind: &[] },
    Piece { words: &[0x267C], place: A0 + 3, behind: &[] },
    Piece { words: &[0x287C], place: A0 + 4, behind: &[] },
    Piece { words: &[0x2A7C], place: A0 + 5, behind: &[] },
    Piece { words: &[0x2C7C], place: A0 + 6, behind: &[] },
];

/// `MOVE #status,SR` and `MOVEA.L #top,A7`: the stack that M does not choose, and then the one that it does.
#[rattlefmt::skip]
static MSP_ISP: [Piece; 2] = [
    Piece { words: &[0x46FC, 0x3700, 0x2E7C], place: MSP, behind: &[] },
    Piece { words: &[0x46FC, 0x2700, 0x2E7C], place: ISP, behind: &[] },
];

#[rattlefmt::skip]
static ISP_MSP: [Piece; 2] = [
    Piece { words: &[0x46FC, 0x2700, 0x2E7C], place: ISP, behind: &[] },
    Piece { words: &[0x46FC, 0x3700, 0x2E7C], place: MSP, behind: &[] },
];

/// TC, `PFLUSHA`, D0 and the RTE.
#[rattlefmt::skip]
static END: [Piece; 2] = [
    Piece { words: &[0x203C], place: TC, behind: &[0x4E7B, 3, 0xF518] },
    Piece { words: &[0x203C], place: D0, behind: &[0x4E73] },
];

/// `MOVE.L #PERIOD` to the timer's period.
static TIMER: [u16; 5] = [0x23FC, 0, PERIOD as u16, 0xFFF0, 0x10];

/// Pieces of code, with the values of these registers.
fn put_pieces(code: &mut Vec<u8>, pieces: &[Piece], registers: &Registers) -> Option<()> {
    for piece in pieces {
        put_words(code, piece.words)?;
        put_longs(code, &[*registers.get(piece.place)?])?;
        put_words(code, piece.behind)?;
    }
    Some(())
}

/// The stacks. The one that M chooses has the frame of the RTE, of 8 bytes.
fn put_stacks(code: &mut Vec<u8>, before: &Registers) -> Option<()> {
    let mut tops = *before;
    if before[SR] & u32::from(M) == 0 {
        tops[ISP] = before[ISP].wrapping_sub(8);
        put_pieces(code, &MSP_ISP, &tops)
    } else {
        tops[MSP] = before[MSP].wrapping_sub(8);
        put_pieces(code, &ISP_MSP, &tops)
    }
}

/// The code.
fn put_code(code: &mut Vec<u8>, interrupted: bool, before: &Registers) -> Option<()> {
    if interrupted {
        put_words(code, &TIMER)?;
    }
    put_pieces(code, &REGISTERS, before)?;
    put_stacks(code, before)?;
    put_pieces(code, &END, before)
}

/// The vectors 2 to 63: an address for each, at which no instruction is carried out.
fn put_vectors(bytes: &mut Vec<u8>) -> Option<()> {
    for n in 2..64 {
        let handler: u32 = 0x00D0_1000 + 32 * n;
        put_longs(bytes, &[handler])?;
    }
    Some(())
}

/// Adds the vectors, where RAM has them. They stand below the case's own stretches.
pub fn add_vectors(alloc: Global, image: &mut Vec<Chunk>, vbr: u32) -> Option<()> {
    if vbr < RAM_SIZE {
        let mut bytes = Vec::new(alloc);
        put_vectors(&mut bytes)?;
        add(image, vbr.saturating_add(8), bytes)?;
    }
    Some(())
}

/// `PC SR VBR,SFC,DFC,CACR TC,URP,SRP ITT0,ITT1,DTT0,DTT1,MMUSR USP,ISP,MSP D0,..,D7 A0,..,A6`
fn read_registers(words: &mut SplitWhitespace<'_>, before: &mut Registers) -> Option<()> {
    before[PC] = next_long(words)?;
    before[SR] = next_long(words)?;
    next_longs(words, &mut before[VBR..TC])?;
    next_longs(words, &mut before[TC..ITT0])?;
    next_longs(words, &mut before[ITT0..])?;
    next_longs(words, &mut before[USP..PC])?;
    next_longs(words, &mut before[..A0])?;
    next_longs(words, &mut before[A0..USP])
}

/// `IRQ`, or no word.
fn read_interrupted(word: Option<&str>) -> Option<bool> {
    let Some(word) = word else {
        return Some(false);
    };
    match word.as_bytes() {
        b"IRQ" => Some(true),
        _ => None,
    }
}

impl System {
    /// What stands behind the words of the instructions: `STEPS START FRAME`, the registers, and for some `IRQ`.
    pub fn read(words: &mut SplitWhitespace<'_>, case: &mut Case) -> Option<System> {
        let steps = next_long(words)?;
        let start = next_long(words)?;
        let frame = next_long(words)?;
        read_registers(words, &mut case.after)?;
        case.interrupted = read_interrupted(words.next())?;
        case.steps = steps.saturating_add(SET_UP_STEPS + u32::from(case.interrupted));
        Some(System { start, frame })
    }

    /// Adds what runs the case: the frame of SR, PC and format 0, the code, and the two longs of the reset.
    pub fn add_to(&self, alloc: Global, case: &mut Case) -> Option<()> {
        let [_, sr] = halves(case.after[SR]);
        let [high, low] = halves(case.after[PC]);
        add_words(alloc, &mut case.image, self.frame, &[sr, high, low, 0])?;
        let mut code = Vec::new(alloc);
        put_code(&mut code, case.interrupted, &case.after)?;
        add(&mut case.image, self.start, code)?;
        add_longs(alloc, &mut case.image, 0, &[RESET_STACK, self.start])
    }
}
