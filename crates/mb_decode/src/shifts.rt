//! Line 14: shifts, rotates and bit fields.
#![tactic(auto, unfolding(crate::specs::Reading::reads_then))]

ghost use Rattle.std.specs.Prelude.{◌≡◌, ◌<◌};
ghost use Rattle.mb_instr.specs.Opcodes.{IsOpcode};
ghost use Rattle.mb_decode.specs.Reading.{Gives};
ghost use Rattle.mb_decode.specs.RowReading.{shift_14, shift_mem_14, field_14, line_14, shift_count, field_kind_in};

use crate::quick::quick_value;
use crate::reading::{Reading, Stop, ea, word_ea};
use mb_instr::{Arith, FieldKind, Instr, Opcode, OperandClass, ShiftKind, Size};

/// The count of a shift: a register, or 1 to 8.
fn shift_count(by_register: bool, field: u8) -> u8
    ensures { result ≡ shift_count by_register field }
{
    if by_register {
        field
    } else {
        quick_value(field)
    }
}

/// The shifts of a register.
fn shift(op: Opcode, words: &[u16]) -> Reading<'_, Instr>
    requires { IsOpcode op }
    ensures { Gives result (shift_14 op words.now) }
{
    let Some(size) = Size::of(op.size) else {
        return Err(Stop::Illegal);
    };
    let by_register = op.mode > 3;
    let shift = Arith::ShiftReg {
        count: shift_count(by_register, op.upper),
        is_left: op.bit == 1,
        size,
        by_register,
        kind: ShiftKind::of(op.mode % 4),
        register: op.lower,
    };
    Ok((Instr::Arith(shift), words))
}

/// The shifts of a word in memory.
fn shift_memory(op: Opcode, words: &[u16]) -> Reading<'_, Instr>
    requires { IsOpcode op }
    ensures { Gives result (shift_mem_14 op words.now) }
{
    let (ea, rest) = ea(OperandClass::MemoryAlterable, Size::Word, op, words)?;
    let (kind, is_left) = (ShiftKind::of(op.upper), op.bit == 1);
    Ok((Instr::Arith(Arith::ShiftMem { kind, is_left, ea }), rest))
}

/// What a bit field instruction does, which stands in bits 10 to 8.
fn field_kind_in(op: Opcode) -> FieldKind
    requires { IsOpcode op }
    ensures { result ≡ field_kind_in op }
{
    FieldKind::of(op.upper % 4 * 2 + op.bit)
}

/// The bit fields.
fn field(op: Opcode, words: &[u16]) -> Reading<'_, Instr>
    requires { IsOpcode op }
    ensures { Gives result (field_14 op words.now) }
{
    let kind = field_kind_in(op);
    let ((word, ea), rest) = word_ea(kind.rule(), kind.class(), Size::Long, op, words)?;
    Ok((Instr::Arith(Arith::Field { kind, ea, word }), rest))
}

/// The rows of line 14.
pub fn line_14(op: Opcode, words: &[u16]) -> Reading<'_, Instr>
    requires { IsOpcode op }
    ensures { Gives result (line_14 op words.now) }
{
    match (op.size, op.upper) {
        (3, 0..=3) => shift_memory(op, words),
        (3, _) => field(op, words),
        _ => shift(op, words),
    }
}
