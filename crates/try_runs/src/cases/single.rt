//! What gives the machine of a single instruction its registers.

use crate::cases::case::Case;
use crate::cases::chunk::Chunk;
use crate::cases::memory::{add, add_longs, add_words, halves};
use crate::cases::registers::{A0, ISP, PC, Registers, SR, USP};
use crate::cases::words::{next_long, next_longs, read_bytes, read_long};
use mb_instr::status::S;
use std::alloc::Global;
use std::str::SplitWhitespace;

/// How many steps give the registers and the condition codes.
const SET_UP_STEPS: u32 = 2;

/// How many bytes the instructions have that do so.
const SET_UP_BYTES: u32 = 12;

/// Two instructions that stand before the case's own.
#[derive(Clone, Copy)]
pub struct Single {
    /// Where the values of D0 to D7 and A0 to A6 stand in RAM.
    table: u32,
    /// Of a trap, where its vector stands and the address that it holds.
    vector: Option<(u32, u32)>,
}

/// `VECTOR:HANDLER`, the vector's number in decimal.
fn read_vector(word: &str) -> Option<(u32, u32)> {
    let (number, handler) = word.split_once(':')?;
    let number: u8 = number.parse().ok()?;
    Some((4 * u32::from(number), read_long(handler)?))
}

/// `PC SR ISP TABLE D0,..,D7 A0,..,A6`: the registers, and where the table stands.
fn read_registers(words: &mut SplitWhitespace<'_>, before: &mut Registers) -> Option<u32> {
    before[PC] = next_long(words)?;
    before[SR] = next_long(words)?;
    before[ISP] = next_long(words)?;
    let table = next_long(words)?;
    next_longs(words, &mut before[..A0])?;
    next_longs(words, &mut before[A0..USP])?;
    Some(table)
}

/// `MOVEM.L TABLE,D0-D7/A0-A6`, and `MOVE #n,SR` where the case is in user mode, or `MOVE #n,CCR`.
fn code_of(table: u32, sr: u32) -> [u16; 6] {
    let [high, low] = halves(table);
    let [_, status] = halves(sr);
    if status & S == 0 {
        [0x4CF9, 0x7FFF, high, low, 0x46FC, status]
    } else {
        [0x4CF9, 0x7FFF, high, low, 0x44FC, status % 32]
    }
}

impl Single {
    /// What stands behind the words of the instruction: the registers, and of a trap `VECTOR:HANDLER`.
    pub fn read(words: &mut SplitWhitespace<'_>, before: &mut Registers) -> Option<Single> {
        let table = read_registers(words, before)?;
        let vector = match words.next() {
            Some(word) => Some(read_vector(word)?),
            None => None,
        };
        Some(Single { table, vector })
    }

    /// Whether the status register is stacked, with bits that may be either.
    pub fn traps(&self) -> bool {
        self.vector.is_some()
    }

    /// Adds the vector, and the two longs of the reset, which lead to the code.
    fn add_vectors(
        &self,
        alloc: Global,
        image: &mut Vec<Chunk>,
        isp: u32,
        start: u32,
    ) -> Option<()> {
        if let Some((at, handler)) = self.vector {
            add_longs(alloc, image, at, &[handler])?;
        }
        add_longs(alloc, image, 0, &[isp, start])
    }

    /// Adds what runs the case: the vectors, the code, the instruction, and the values of the registers.
    pub fn add_to(&self, alloc: Global, case: &mut Case, words: &str) -> Option<()> {
        let before = &case.after;
        let start = before[PC].checked_sub(SET_UP_BYTES)?;
        self.add_vectors(alloc, &mut case.image, before[ISP], start)?;
        add_words(
            alloc,
            &mut case.image,
            start,
            &code_of(self.table, before[SR]),
        )?;
        add(&mut case.image, before[PC], read_bytes(alloc, words)?)?;
        case.steps = SET_UP_STEPS + 1;
        add_longs(alloc, &mut case.image, self.table, &before[..USP])
    }
}
