//! Lines 8, 9, 11, 12 and 13: a register and an operand, or two registers.
#![tactic(auto, unfolding(crate::specs::Reading::reads_then))]

ghost use Rattle.std.specs.Prelude.{◌≡◌, ◌<◌};
ghost use Rattle.mb_instr.specs.Opcodes.{IsOpcode};
ghost use Rattle.mb_decode.specs.Reading.{Gives};
ghost use Rattle.mb_decode.specs.RowReading.{binary_at, address_at, extended_at, product_at, packed_8, exchange_12};
ghost use Rattle.mb_decode.specs.RowReading.{pair_8, line_8, line_9, cmp_11, eor_11, line_11, source_class};
ghost use Rattle.mb_decode.specs.RowReading.{binary_instr, address_instr, extended_instr, product_instr, decimal_instr, packed_instr};
ghost use Rattle.mb_decode.specs.RowReading.{has_registers};

use crate::reading::{Reading, Stop, ea, sized, word};
use mb_instr::{Arith, Ea, Exchange, Instr, Move, Opcode, OperandClass, Size};

/// What OR and AND, SUB and ADD take as a source.
fn source_class(line: u8) -> OperandClass
    ensures { result ≡ source_class line }
{
    if line == 8 || line == 12 {
        OperandClass::Data
    } else {
        OperandClass::All
    }
}

fn binary_instr(line: u8, register: u8, to_memory: bool, size: Size, ea: Ea) -> Instr
    ensures { result ≡ binary_instr line register to_memory size ea }
{
    let arith = match line {
        8 => Arith::Or {
            register,
            to_memory,
            size,
            ea,
        },
        9 => Arith::Sub {
            register,
            to_memory,
            size,
            ea,
        },
        12 => Arith::And {
            register,
            to_memory,
            size,
            ea,
        },
        _ => Arith::Add {
            register,
            to_memory,
            size,
            ea,
        },
    };
    Instr::Arith(arith)
}

/// OR, SUB, AND and ADD.
fn binary(op: Opcode, words: &[u16]) -> Reading<'_, Instr>
    requires { IsOpcode op }
    ensures { Gives result (binary_at op words.now) }
{
    let to_memory = op.bit == 1;
    let class = source_class(op.line).side(to_memory);
    let ((size, ea), rest) = sized(class, op, words)?;
    Ok((binary_instr(op.line, op.upper, to_memory, size, ea), rest))
}

fn address_instr(line: u8, register: u8, size: Size, ea: Ea) -> Instr
    ensures { result ≡ address_instr line register size ea }
{
    let arith = match line {
        9 => Arith::Suba { register, size, ea },
        11 => Arith::Cmpa { register, size, ea },
        _ => Arith::Adda { register, size, ea },
    };
    Instr::Arith(arith)
}

/// SUBA, CMPA and ADDA.
fn address(op: Opcode, words: &[u16]) -> Reading<'_, Instr>
    requires { IsOpcode op }
    ensures { Gives result (address_at op words.now) }
{
    let size = Size::of_bit(op.bit);
    let (ea, rest) = ea(OperandClass::All, size, op, words)?;
    Ok((address_instr(op.line, op.upper, size, ea), rest))
}

fn extended_instr(line: u8, x: u8, size: Size, in_memory: bool, y: u8) -> Instr
    ensures { result ≡ extended_instr line x size in_memory y }
{
    if line == 9 {
        Instr::Arith(Arith::Subx {
            x,
            size,
            in_memory,
            y,
        })
    } else {
        Instr::Arith(Arith::Addx {
            x,
            size,
            in_memory,
            y,
        })
    }
}

/// SUBX and ADDX.
fn extended(op: Opcode, words: &[u16]) -> Reading<'_, Instr>
    requires { IsOpcode op }
    ensures { Gives result (extended_at op words.now) }
{
    let Some(size) = Size::of(op.size) else {
        return Err(Stop::Illegal);
    };
    let instruction = extended_instr(op.line, op.upper, size, op.mode == 1, op.lower);
    Ok((instruction, words))
}

fn product_instr(line: u8, register: u8, is_signed: bool, ea: Ea) -> Instr
    ensures { result ≡ product_instr line register is_signed ea }
{
    if line == 8 {
        Instr::Arith(Arith::DivW {
            register,
            is_signed,
            ea,
        })
    } else {
        Instr::Arith(Arith::MulW {
            register,
            is_signed,
            ea,
        })
    }
}

/// DIVU, DIVS, MULU and MULS of words.
fn product(op: Opcode, words: &[u16]) -> Reading<'_, Instr>
    requires { IsOpcode op }
    ensures { Gives result (product_at op words.now) }
{
    let (ea, rest) = ea(OperandClass::Data, Size::Word, op, words)?;
    Ok((product_instr(op.line, op.upper, op.bit == 1, ea), rest))
}

/// SBCD and ABCD.
fn decimal_instr(line: u8, x: u8, in_memory: bool, y: u8) -> Instr
    ensures { result ≡ decimal_instr line x in_memory y }
{
    if line == 8 {
        Instr::Arith(Arith::Sbcd { x, in_memory, y })
    } else {
        Instr::Arith(Arith::Abcd { x, in_memory, y })
    }
}

fn packed_instr(field: u8, x: u8, in_memory: bool, y: u8, word: u16) -> Instr
    ensures { result ≡ packed_instr field x in_memory y word }
{
    if field == 1 {
        Instr::Arith(Arith::Pack {
            x,
            in_memory,
            y,
            word,
        })
    } else {
        Instr::Arith(Arith::Unpk {
            x,
            in_memory,
            y,
            word,
        })
    }
}

/// PACK and UNPK.
fn packed(op: Opcode, words: &[u16]) -> Reading<'_, Instr>
    requires { IsOpcode op }
    ensures { Gives result (packed_8 op words.now) }
{
    let (word, rest) = word(words)?;
    let instruction = packed_instr(op.size, op.upper, op.mode == 1, op.lower, word);
    Ok((instruction, rest))
}

/// EXG.
fn exchange(op: Opcode, words: &[u16]) -> Reading<'_, Instr>
    requires { IsOpcode op }
    ensures { Gives result (exchange_12 op words.now) }
{
    let kind = match (op.size, op.mode) {
        (1, 0) => Exchange::Data,
        (1, 1) => Exchange::Address,
        (2, 1) => Exchange::DataAddress,
        _ => return Err(Stop::Illegal),
    };
    let (x, y) = (op.upper, op.lower);
    Ok((Instr::Move(Move::Exg { x, kind, y }), words))
}

/// Whether two registers stand where an operand in memory would have one.
fn has_registers(op: Opcode) -> bool
    ensures { result ≡ has_registers op }
{
    op.bit == 1 && op.mode < 2
}

/// Two registers, in lines 8 and 12.
fn pair(op: Opcode, words: &[u16]) -> Reading<'_, Instr>
    requires { IsOpcode op }
    ensures { Gives result (pair_8 op words.now) }
{
    match (op.size, op.line) {
        (0, line) => Ok((decimal_instr(line, op.upper, op.mode == 1, op.lower), words)),
        (_, 8) => packed(op, words),
        _ => exchange(op, words),
    }
}

/// The rows of lines 8 and 12.
pub fn line_8(op: Opcode, words: &[u16]) -> Reading<'_, Instr>
    requires { IsOpcode op }
    ensures { Gives result (line_8 op words.now) }
{
    if op.size == 3 {
        product(op, words)
    } else if has_registers(op) {
        pair(op, words)
    } else {
        binary(op, words)
    }
}

/// The rows of lines 9 and 13.
pub fn line_9(op: Opcode, words: &[u16]) -> Reading<'_, Instr>
    requires { IsOpcode op }
    ensures { Gives result (line_9 op words.now) }
{
    if op.size == 3 {
        address(op, words)
    } else if has_registers(op) {
        extended(op, words)
    } else {
        binary(op, words)
    }
}

/// CMP.
fn cmp(op: Opcode, words: &[u16]) -> Reading<'_, Instr>
    requires { IsOpcode op }
    ensures { Gives result (cmp_11 op words.now) }
{
    let ((size, ea), rest) = sized(OperandClass::All, op, words)?;
    let register = op.upper;
    Ok((Instr::Arith(Arith::Cmp { register, size, ea }), rest))
}

/// EOR and CMPM.
fn eor(op: Opcode, words: &[u16]) -> Reading<'_, Instr>
    requires { IsOpcode op }
    ensures { Gives result (eor_11 op words.now) }
{
    if op.mode == 1 {
        let Some(size) = Size::of(op.size) else {
            return Err(Stop::Illegal);
        };
        let (x, y) = (op.upper, op.lower);
        return Ok((Instr::Arith(Arith::Cmpm { x, size, y }), words));
    }
    let ((size, ea), rest) = sized(OperandClass::DataAlterable, op, words)?;
    let register = op.upper;
    Ok((Instr::Arith(Arith::Eor { register, size, ea }), rest))
}

/// The rows of line 11.
pub fn line_11(op: Opcode, words: &[u16]) -> Reading<'_, Instr>
    requires { IsOpcode op }
    ensures { Gives result (line_11 op words.now) }
{
    match (op.size, op.bit) {
        (3, _) => address(op, words),
        (_, 0) => cmp(op, words),
        _ => eor(op, words),
    }
}
