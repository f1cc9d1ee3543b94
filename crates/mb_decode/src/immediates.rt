//! Line 0: immediates, single bits, MOVEP, MOVES, and CMP2, CHK2, CAS, CAS2.
#![tactic(auto, unfolding(crate::specs::Reading::reads_then))]

ghost use Rattle.std.specs.Prelude.{◌≡◌, ◌<◌};
ghost use Rattle.mb_instr.specs.Opcodes.{IsOpcode};
ghost use Rattle.mb_decode.specs.Reading.{Gives};
ghost use Rattle.mb_decode.specs.RowReading.{movep_0, bit_register_0, bounds_0, cas2_0, cas_0, status_0};
ghost use Rattle.mb_decode.specs.RowReading.{immediate_0, cmpi_0, moves_0, bit_0, odd_0, even_0, line_0, bounds_instr};
ghost use Rattle.mb_decode.specs.RowReading.{cas_size, is_immediate_field, immediate_instr, to_ccr_instr, to_sr_instr};

use crate::reading::{Reading, Stop, ea, immediate_ea, ruled, word, word_ea};
use mb_instr::{
    Arith, BitKind, Ea, Flow, Instr, Move, Opcode, OperandClass, Size, System, WordRule,
};

/// MOVEP.
fn movep(op: Opcode, words: &[u16]) -> Reading<'_, Instr>
    requires { IsOpcode op }
    ensures { Gives result (movep_0 op words.now) }
{
    let (displacement, rest) = word(words)?;
    let movep = Move::Movep {
        register: op.upper,
        is_store: op.size > 1,
        size: Size::of_bit(op.size % 2),
        address: op.lower,
        displacement,
    };
    Ok((Instr::Move(movep), rest))
}

/// The bit instructions with the number in a register.
fn bit_register(op: Opcode, words: &[u16]) -> Reading<'_, Instr>
    requires { IsOpcode op }
    ensures { Gives result (bit_register_0 op words.now) }
{
    let kind = BitKind::of(op.size);
    let (ea, rest) = ea(kind.class(), Size::Byte, op, words)?;
    let register = op.upper;
    Ok((Instr::Arith(Arith::BitReg { register, kind, ea }), rest))
}

/// Bit 11 of the word tells CMP2 from CHK2.
fn bounds_instr(size: Size, word: u16, ea: Ea) -> Instr
    ensures { result ≡ bounds_instr size word ea }
{
    if word >> 11 & 1 == 0 {
        Instr::Arith(Arith::Cmp2 { size, ea, word })
    } else {
        Instr::Flow(Flow::Chk2 { size, ea, word })
    }
}

/// CMP2 and CHK2.
fn bounds(op: Opcode, words: &[u16]) -> Reading<'_, Instr>
    requires { IsOpcode op }
    ensures { Gives result (bounds_0 op words.now) }
{
    let Some(size) = Size::of(op.upper) else {
        return Err(Stop::Illegal);
    };
    let ((word, ea), rest) = word_ea(
        WordRule::RegisterAndBit,
        OperandClass::Control,
        size,
        op,
        words,
    )?;
    Ok((bounds_instr(size, word, ea), rest))
}

fn cas_size(upper: u8) -> Size
    ensures { result ≡ cas_size upper }
{
    match upper {
        5 => Size::Byte,
        6 => Size::Word,
        _ => Size::Long,
    }
}

/// Whether an immediate stands in place of the operand.
fn is_immediate_field(op: Opcode) -> bool
    ensures { result ≡ is_immediate_field op }
{
    op.mode == 7 && op.lower == 4
}

/// CAS2.
#[tactic(auto, unfolding(crate::specs::Reading::reads_then, crate::specs::RowReading::cas2_0))]
fn cas2(size: Size, words: &[u16]) -> Reading<'_, Instr>
    ensures { Gives result (cas2_0 size words.now) }
{
    if !size.is_not_byte() {
        return Err(Stop::Illegal);
    }
    let (first, rest) = ruled(WordRule::SwapPair, words)?;
    let (second, rest) = ruled(WordRule::SwapPair, rest)?;
    let cas2 = Arith::Cas2 {
        size,
        first,
        second,
    };
    Ok((Instr::Arith(cas2), rest))
}

/// CAS and CAS2.
fn cas(op: Opcode, words: &[u16]) -> Reading<'_, Instr>
    requires { IsOpcode op }
    ensures { Gives result (cas_0 op words.now) }
{
    let size = cas_size(op.upper);
    if is_immediate_field(op) {
        return cas2(size, words);
    }
    let class = OperandClass::MemoryAlterable;
    let ((word, ea), rest) = word_ea(WordRule::Swap, class, size, op, words)?;
    Ok((Instr::Arith(Arith::Cas { size, ea, word }), rest))
}

/// The rows that bits 11 to 9 tell apart.
fn immediate_instr(upper: u8, size: Size, immediate: u32, ea: Ea) -> Instr
    ensures { result ≡ immediate_instr upper size immediate ea }
{
    let arith = match upper {
        0 => Arith::Ori {
            size,
            ea,
            immediate,
        },
        1 => Arith::Andi {
            size,
            ea,
            immediate,
        },
        2 => Arith::Subi {
            size,
            ea,
            immediate,
        },
        3 => Arith::Addi {
            size,
            ea,
            immediate,
        },
        _ => Arith::Eori {
            size,
            ea,
            immediate,
        },
    };
    Instr::Arith(arith)
}

fn to_ccr_instr(upper: u8, word: u16) -> Instr
    ensures { result ≡ to_ccr_instr upper word }
{
    let arith = match upper {
        0 => Arith::OriCcr { word },
        1 => Arith::AndiCcr { word },
        _ => Arith::EoriCcr { word },
    };
    Instr::Arith(arith)
}

fn to_sr_instr(upper: u8, word: u16) -> Instr
    ensures { result ≡ to_sr_instr upper word }
{
    let system = match upper {
        0 => System::OriSr { word },
        1 => System::AndiSr { word },
        _ => System::EoriSr { word },
    };
    Instr::System(system)
}

/// ORI, ANDI and EORI to CCR and SR.
fn status(op: Opcode, words: &[u16]) -> Reading<'_, Instr>
    requires { IsOpcode op }
    ensures { Gives result (status_0 op words.now) }
{
    match (op.upper, op.size) {
        (2 | 3, _) => Err(Stop::Illegal),
        (_, 0) => {
            let (word, rest) = word(words)?;
            Ok((to_ccr_instr(op.upper, word), rest))
        }
        (_, 1) => {
            let (word, rest) = word(words)?;
            Ok((to_sr_instr(op.upper, word), rest))
        }
        _ => Err(Stop::Illegal),
    }
}

/// ORI, ANDI, SUBI, ADDI and EORI.
fn immediate(op: Opcode, words: &[u16]) -> Reading<'_, Instr>
    requires { IsOpcode op }
    ensures { Gives result (immediate_0 op words.now) }
{
    if is_immediate_field(op) {
        return status(op, words);
    }
    let ((size, immediate, ea), rest) = immediate_ea(OperandClass::DataAlterable, op, words)?;
    Ok((immediate_instr(op.upper, size, immediate, ea), rest))
}

/// CMPI.
fn cmpi(op: Opcode, words: &[u16]) -> Reading<'_, Instr>
    requires { IsOpcode op }
    ensures { Gives result (cmpi_0 op words.now) }
{
    let ((size, immediate, ea), rest) = immediate_ea(OperandClass::DataAlterableOrPc, op, words)?;
    let cmpi = Arith::Cmpi {
        size,
        ea,
        immediate,
    };
    Ok((Instr::Arith(cmpi), rest))
}

/// MOVES.
fn moves(op: Opcode, words: &[u16]) -> Reading<'_, Instr>
    requires { IsOpcode op }
    ensures { Gives result (moves_0 op words.now) }
{
    let Some(size) = Size::of(op.size) else {
        return Err(Stop::Illegal);
    };
    let class = OperandClass::MemoryAlterable;
    let ((word, ea), rest) = word_ea(WordRule::RegisterAndBit, class, size, op, words)?;
    Ok((Instr::System(System::Moves { size, ea, word }), rest))
}

/// The bit instructions with the number in a word.
fn bit_immediate(op: Opcode, words: &[u16]) -> Reading<'_, Instr>
    requires { IsOpcode op }
    ensures { Gives result (bit_0 op words.now) }
{
    let kind = BitKind::of(op.size);
    let ((word, ea), rest) = word_ea(WordRule::Any, kind.class_immediate(), Size::Byte, op, words)?;
    Ok((Instr::Arith(Arith::BitImm { kind, ea, word }), rest))
}

/// Bit 8 set.
fn odd(op: Opcode, words: &[u16]) -> Reading<'_, Instr>
    requires { IsOpcode op }
    ensures { Gives result (odd_0 op words.now) }
{
    if op.mode == 1 {
        movep(op, words)
    } else {
        bit_register(op, words)
    }
}

/// Bit 8 clear.
fn even(op: Opcode, words: &[u16]) -> Reading<'_, Instr>
    requires { IsOpcode op }
    ensures { Gives result (even_0 op words.now) }
{
    match (op.upper, op.size) {
        (4, _) => bit_immediate(op, words),
        (0..=3, 3) => bounds(op, words),
        (_, 3) => cas(op, words),
        (6, _) => cmpi(op, words),
        (7, _) => moves(op, words),
        _ => immediate(op, words),
    }
}

/// The rows of line 0.
pub fn line_0(op: Opcode, words: &[u16]) -> Reading<'_, Instr>
    requires { IsOpcode op }
    ensures { Gives result (line_0 op words.now) }
{
    if op.bit == 1 {
        odd(op, words)
    } else {
        even(op, words)
    }
}
