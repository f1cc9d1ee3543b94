//! Lines 1 to 3: MOVE and MOVEA.
#![tactic(auto, unfolding(crate::specs::Reading::reads_then))]

ghost use Rattle.std.specs.Prelude.{◌≡◌, ◌<◌};
ghost use Rattle.mb_instr.specs.Opcodes.{IsOpcode};
ghost use Rattle.mb_decode.specs.Reading.{Gives};
ghost use Rattle.mb_decode.specs.RowReading.{move_at, movea_at, line_move, move_mode, allows_move};

use crate::reading::{Reading, Stop, ea, operand};
use mb_instr::{Instr, Move, Opcode, OperandClass, Size};

/// The mode of MOVE's destination, which stands in bits 8 to 6.
fn move_mode(op: Opcode) -> u8
    requires { IsOpcode op }
    ensures { result ≡ move_mode op }
{
    op.bit * 4 + op.size
}

/// Whether MOVE has both operands.
fn allows_move(size: Size, op: Opcode) -> bool
    requires { IsOpcode op }
    ensures { result ≡ allows_move size op }
{
    OperandClass::All.allows(size, op.mode, op.lower)
        && OperandClass::DataAlterable.allows(size, move_mode(op), op.upper)
}

/// MOVE: the source's words stand before the destination's.
fn move_row(size: Size, op: Opcode, words: &[u16]) -> Reading<'_, Instr>
    requires { IsOpcode op }
    ensures { Gives result (move_at size op words.now) }
{
    if !allows_move(size, op) {
        return Err(Stop::Illegal);
    }
    let (source, rest) = operand(size, op.mode, op.lower, words)?;
    let (destination, rest) = operand(size, move_mode(op), op.upper, rest)?;
    let moved = Move::Move {
        size,
        destination,
        source,
    };
    Ok((Instr::Move(moved), rest))
}

/// MOVEA.
fn movea(size: Size, op: Opcode, words: &[u16]) -> Reading<'_, Instr>
    requires { IsOpcode op }
    ensures { Gives result (movea_at size op words.now) }
{
    if !size.is_not_byte() {
        return Err(Stop::Illegal);
    }
    let (source, rest) = ea(OperandClass::All, size, op, words)?;
    let movea = Move::Movea {
        size,
        register: op.upper,
        source,
    };
    Ok((Instr::Move(movea), rest))
}

/// The rows of lines 1 to 3.
pub fn line_move(op: Opcode, words: &[u16]) -> Reading<'_, Instr>
    requires { IsOpcode op }
    ensures { Gives result (line_move op words.now) }
{
    let size = Size::of_move(op.line);
    if move_mode(op) == 1 {
        movea(size, op, words)
    } else {
        move_row(size, op, words)
    }
}
