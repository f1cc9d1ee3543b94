//! Readers of what stands behind the first word.
#![tactic(auto, unfolding(crate::specs::Reading::reads_then))]

ghost use Rattle.mb_decode.specs.Reading.{Gives, word_at, long_at, wide_at, full_at, ext_at, immediate_at, operand_at};
ghost use Rattle.mb_decode.specs.Reading.{ruled_at, ea_at, sized_at, word_ea_at, immediate_ea_at};
ghost use Rattle.mb_decode.specs.Reading.{branch_at, trap_operand_at};

use mb_instr::{Branch, Ea, Ext, Opcode, OperandClass, Size, TrapOperand, WordRule, is_full};

/// Why no instruction was read.
#[derive(Clone, Copy)]
pub enum Stop {
    /// The words ended, and others can complete the instruction.
    More,
    /// No row has these words.
    Illegal,
}

/// A value, and the words behind what was read.
pub type Reading<'a, T> = Result<(T, &'a [u16]), Stop>;

#[inline(always)]
#[tactic(auto, unfolding(crate::specs::Reading::word_at))]
pub fn word(words: &[u16]) -> Reading<'_, u16>
    ensures { Gives result (word_at words.now) }
{
    match words {
        [] => Err(Stop::More),
        [first, rest @ ..] => Ok((*first, rest)),
    }
}

/// Two words, the high one first.
#[inline(always)]
#[tactic(auto, unfolding(crate::specs::Reading::reads_then, crate::specs::Reading::long_at))]
pub fn long(words: &[u16]) -> Reading<'_, u32>
    ensures { Gives result (long_at words.now) }
{
    let (high, rest) = word(words)?;
    let (low, rest) = word(rest)?;
    Ok((u32::from(high) << 16 | u32::from(low), rest))
}

/// A word as a number of 32 bits, not sign-extended.
#[inline(always)]
fn wide_word(words: &[u16]) -> Reading<'_, u32>
    ensures { Gives result (word_at words.now) }
{
    let (value, rest) = word(words)?;
    Ok((u32::from(value), rest))
}

/// A displacement of the full format, whose size field is 2 for a word, 3 for a long.
#[tactic(auto, unfolding(crate::specs::Reading::wide_at))]
fn wide(width: u16, words: &[u16]) -> Reading<'_, u32>
    ensures { Gives result (wide_at width words.now) }
{
    match width {
        2 => wide_word(words),
        3 => long(words),
        _ => Ok((0, words)),
    }
}

/// The displacements behind a full extension word.
#[tactic(auto, unfolding(crate::specs::Reading::reads_then, crate::specs::Reading::full_at))]
fn full(first: u16, words: &[u16]) -> Reading<'_, Ext>
    ensures { Gives result (full_at first words.now) }
{
    let (bd, rest) = wide((first >> 4) & 3, words)?;
    let (od, rest) = wide(first & 3, rest)?;
    let extension = Ext::Full {
        word: first,
        bd,
        od,
    };
    Ok((extension, rest))
}

#[inline(always)]
fn extension(words: &[u16]) -> Reading<'_, Ext>
    ensures { Gives result (ext_at words.now) }
{
    let (first, rest) = word(words)?;
    if (first >> 8) & 1 == 0 {
        Ok((Ext::Brief(first), rest))
    } else if is_full(first) {
        full(first, rest)
    } else {
        Err(Stop::Illegal)
    }
}

#[inline(always)]
fn immediate(size: Size, words: &[u16]) -> Reading<'_, u32>
    ensures { Gives result (immediate_at size words.now) }
{
    match size {
        Size::Byte | Size::Word => wide_word(words),
        Size::Long => long(words),
    }
}

/// The operand whose mode and register field stand in the first word. Its class has been tested.
#[inline(always)]
#[tactic(auto, unfolding(crate::specs::Reading::reads_then, crate::specs::Reading::operand_at))]
pub fn operand(size: Size, mode: u8, lower: u8, words: &[u16]) -> Reading<'_, Ea>
    ensures { Gives result (operand_at size mode lower words.now) }
{
    match mode {
        0 => Ok((Ea::Dn(lower), words)),
        1 => Ok((Ea::An(lower), words)),
        2 => Ok((Ea::Ind(lower), words)),
        3 => Ok((Ea::Post(lower), words)),
        4 => Ok((Ea::Pre(lower), words)),
        5 => {
            let (displacement, rest) = word(words)?;
            Ok((Ea::Disp(lower, displacement), rest))
        }
        6 => {
            let (index, rest) = extension(words)?;
            Ok((Ea::Index(lower, index), rest))
        }
        _ => match lower {
            0 => {
                let (address, rest) = word(words)?;
                Ok((Ea::AbsW(address), rest))
            }
            1 => {
                let (address, rest) = long(words)?;
                Ok((Ea::AbsL(address), rest))
            }
            2 => {
                let (displacement, rest) = word(words)?;
                Ok((Ea::PcDisp(displacement), rest))
            }
            3 => {
                let (index, rest) = extension(words)?;
                Ok((Ea::PcIndex(index), rest))
            }
            _ => {
                let (value, rest) = immediate(size, words)?;
                Ok((Ea::Imm(value), rest))
            }
        },
    }
}

/// A word that the rule allows.
#[inline(always)]
#[tactic(auto, unfolding(crate::specs::Reading::reads_then, crate::specs::Reading::ruled_at))]
pub fn ruled(rule: WordRule, words: &[u16]) -> Reading<'_, u16>
    ensures { Gives result (ruled_at rule words.now) }
{
    let (word, rest) = word(words)?;
    if !rule.allows(word) {
        return Err(Stop::Illegal);
    }
    Ok((word, rest))
}

/// An operand of the class in the low six bits.
#[inline(always)]
#[tactic(auto, unfolding(crate::specs::Reading::ea_at))]
pub fn ea(class: OperandClass, size: Size, op: Opcode, words: &[u16]) -> Reading<'_, Ea>
    ensures { Gives result (ea_at class size op words.now) }
{
    if !class.allows(size, op.mode, op.lower) {
        return Err(Stop::Illegal);
    }
    operand(size, op.mode, op.lower, words)
}

/// An operand of the class, whose size stands in the size field.
#[inline(always)]
#[tactic(auto, unfolding(crate::specs::Reading::reads_then, crate::specs::Reading::sized_at))]
pub fn sized(class: OperandClass, op: Opcode, words: &[u16]) -> Reading<'_, (Size, Ea)>
    ensures { Gives result (sized_at class op words.now) }
{
    let Some(size) = Size::of(op.size) else {
        return Err(Stop::Illegal);
    };
    let (ea, rest) = ea(class, size, op, words)?;
    Ok(((size, ea), rest))
}

/// A word that the rule allows, and then the words of an operand of the class.
#[inline(always)]
pub fn word_ea(
    rule: WordRule,
    class: OperandClass,
    size: Size,
    op: Opcode,
    words: &[u16],
) -> Reading<'_, (u16, Ea)>
    ensures { Gives result (word_ea_at rule class size op words.now) }
{
    if !class.allows(size, op.mode, op.lower) {
        return Err(Stop::Illegal);
    }
    let (word, rest) = ruled(rule, words)?;
    let (ea, rest) = operand(size, op.mode, op.lower, rest)?;
    Ok(((word, ea), rest))
}

/// An immediate and an operand of the class, both of the size in the size field.
#[inline(always)]
pub fn immediate_ea(class: OperandClass, op: Opcode, words: &[u16]) -> Reading<'_, (Size, u32, Ea)>
    ensures { Gives result (immediate_ea_at class op words.now) }
{
    let Some(size) = Size::of(op.size) else {
        return Err(Stop::Illegal);
    };
    if !class.allows(size, op.mode, op.lower) {
        return Err(Stop::Illegal);
    }
    let (value, rest) = immediate(size, words)?;
    let (ea, rest) = operand(size, op.mode, op.lower, rest)?;
    Ok(((size, value, ea), rest))
}

/// The displacement that a branch's displacement byte says.
#[inline(always)]
#[tactic(auto, unfolding(crate::specs::Reading::reads_then, crate::specs::Reading::branch_at))]
pub fn branch(byte: u8, words: &[u16]) -> Reading<'_, Branch>
    ensures { Gives result (branch_at byte words.now) }
{
    match byte {
        0 => {
            let (displacement, rest) = word(words)?;
            Ok((Branch::Word(displacement), rest))
        }
        0xff => {
            let (displacement, rest) = long(words)?;
            Ok((Branch::Long(displacement), rest))
        }
        _ => Ok((Branch::Byte(byte), words)),
    }
}

/// What stands behind TRAPcc.
#[inline(always)]
#[tactic(auto, unfolding(crate::specs::Reading::reads_then, crate::specs::Reading::trap_operand_at))]
pub fn trap_operand(lower: u8, words: &[u16]) -> Reading<'_, TrapOperand>
    ensures { Gives result (trap_operand_at lower words.now) }
{
    match lower {
        2 => {
            let (value, rest) = word(words)?;
            Ok((TrapOperand::Word(value), rest))
        }
        3 => {
            let (value, rest) = long(words)?;
            Ok((TrapOperand::Long(value), rest))
        }
        4 => Ok((TrapOperand::Nothing, words)),
        _ => Err(Stop::Illegal),
    }
}
