//! Lines 5 to 7: quick values, conditions and branches.
#![tactic(auto, unfolding(crate::specs::Reading::reads_then))]

ghost use Rattle.std.specs.Prelude.{◌≡◌, ◌<◌};
ghost use Rattle.mb_instr.specs.Opcodes.{IsOpcode};
ghost use Rattle.mb_decode.specs.Reading.{Gives};
ghost use Rattle.mb_decode.specs.RowReading.{conditional_5, quick_5, line_5, line_6, line_7, low_byte, quick_value};
ghost use Rattle.mb_decode.specs.RowReading.{quick_instr};

use crate::reading::{Reading, Stop, branch, ea, sized, trap_operand, word};
use mb_instr::{Arith, Condition, Ea, Flow, Instr, Move, Opcode, OperandClass, Size};

/// Bits 7 to 0 of the first word.
fn low_byte(op: Opcode) -> u8
    requires { IsOpcode op }
    ensures { result ≡ low_byte op }
{
    op.size * 64 + op.mode * 8 + op.lower
}

/// The value 1 to 8 of a quick field.
pub fn quick_value(field: u8) -> u8
    ensures { result ≡ quick_value field }
{
    if field == 0 { 8 } else { field }
}

/// Scc, DBcc and TRAPcc.
#[tactic(auto, unfolding(crate::specs::Reading::reads_then, crate::specs::RowReading::conditional_5))]
fn conditional(condition: Condition, op: Opcode, words: &[u16]) -> Reading<'_, Instr>
    requires { IsOpcode op }
    ensures { Gives result (conditional_5 condition op words.now) }
{
    match (op.mode, op.lower) {
        (1, register) => {
            let (displacement, rest) = word(words)?;
            let dbcc = Flow::Dbcc {
                condition,
                register,
                displacement,
            };
            Ok((Instr::Flow(dbcc), rest))
        }
        (7, 2..) => {
            let (operand, rest) = trap_operand(op.lower, words)?;
            Ok((Instr::Flow(Flow::Trapcc { condition, operand }), rest))
        }
        _ => {
            let (ea, rest) = ea(OperandClass::DataAlterable, Size::Byte, op, words)?;
            Ok((Instr::Move(Move::Scc { condition, ea }), rest))
        }
    }
}

fn quick_instr(bit: u8, quick: u8, size: Size, ea: Ea) -> Instr
    ensures { result ≡ quick_instr bit quick size ea }
{
    if bit == 0 {
        Instr::Arith(Arith::Addq { quick, size, ea })
    } else {
        Instr::Arith(Arith::Subq { quick, size, ea })
    }
}

/// ADDQ and SUBQ.
fn quick(op: Opcode, words: &[u16]) -> Reading<'_, Instr>
    requires { IsOpcode op }
    ensures { Gives result (quick_5 op words.now) }
{
    let ((size, ea), rest) = sized(OperandClass::Alterable, op, words)?;
    Ok((quick_instr(op.bit, quick_value(op.upper), size, ea), rest))
}

/// The rows of line 5.
pub fn line_5(op: Opcode, words: &[u16]) -> Reading<'_, Instr>
    requires { IsOpcode op }
    ensures { Gives result (line_5 op words.now) }
{
    if op.size == 3 {
        conditional(Condition::of(op.upper, op.bit), op, words)
    } else {
        quick(op, words)
    }
}

/// Bcc.
pub fn line_6(op: Opcode, words: &[u16]) -> Reading<'_, Instr>
    requires { IsOpcode op }
    ensures { Gives result (line_6 op words.now) }
{
    let (displacement, rest) = branch(low_byte(op), words)?;
    let bcc = Flow::Bcc {
        condition: Condition::of(op.upper, op.bit),
        displacement,
    };
    Ok((Instr::Flow(bcc), rest))
}

/// MOVEQ.
pub fn line_7(op: Opcode, words: &[u16]) -> Reading<'_, Instr>
    requires { IsOpcode op }
    ensures { Gives result (line_7 op words.now) }
{
    if op.bit != 0 {
        return Err(Stop::Illegal);
    }
    let moveq = Move::Moveq {
        register: op.upper,
        immediate: low_byte(op),
    };
    Ok((Instr::Move(moveq), words))
}
