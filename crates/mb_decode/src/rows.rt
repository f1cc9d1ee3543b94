//! The row of a first word.

ghost use Rattle.std.specs.Prelude.{◌<◌};
ghost use Rattle.mb_instr.specs.Opcodes.{IsOpcode};
ghost use Rattle.mb_decode.specs.Reading.{Gives};
ghost use Rattle.mb_decode.specs.RowReading.{low_line, high_line, row_at};

use crate::caches::line_15;
use crate::immediates::line_0;
use crate::miscellaneous::line_4;
use crate::moves::line_move;
use crate::quick::{line_5, line_6, line_7};
use crate::reading::{Reading, Stop};
use crate::registers::{line_8, line_9, line_11};
use crate::shifts::line_14;
use mb_instr::{Instr, Opcode};

/// Lines 0 to 7.
#[inline(always)]
#[tactic(auto, unfolding(crate::specs::Reading::reads_then, crate::specs::RowReading::low_line))]
fn low_line(op: Opcode, words: &[u16]) -> Reading<'_, Instr>
    requires { IsOpcode op }
    ensures { Gives result (low_line op words.now) }
{
    match op.line {
        0 => line_0(op, words),
        1..=3 => line_move(op, words),
        4 => line_4(op, words),
        5 => line_5(op, words),
        6 => line_6(op, words),
        _ => line_7(op, words),
    }
}

/// Lines 8 to 15.
#[inline(always)]
#[tactic(auto, unfolding(crate::specs::Reading::reads_then, crate::specs::RowReading::high_line))]
fn high_line(op: Opcode, words: &[u16]) -> Reading<'_, Instr>
    requires { IsOpcode op }
    ensures { Gives result (high_line op words.now) }
{
    match op.line {
        8 | 12 => line_8(op, words),
        9 | 13 => line_9(op, words),
        11 => line_11(op, words),
        14 => line_14(op, words),
        15 => line_15(op, words),
        _ => Err(Stop::Illegal),
    }
}

/// The row of a first word.
#[inline(always)]
#[tactic(auto, unfolding(crate::specs::Reading::reads_then, crate::specs::RowReading::row_at))]
pub fn row(op: Opcode, words: &[u16]) -> Reading<'_, Instr>
    requires { IsOpcode op }
    ensures { Gives result (row_at op words.now) }
{
    if op.line < 8 {
        low_line(op, words)
    } else {
        high_line(op, words)
    }
}
