//! Instructions that compute, by groups of the table, each by its row.

ghost use Rattle.std.specs.Prelude.{◌≡◌, true};
ghost use Rattle.mb_port.specs.Routine.{run};
ghost use Rattle.mb_instr.specs.Codes.{IsInstr};
ghost use Rattle.mb_instr.specs.Shapes.{operands_at};
ghost use Rattle.mb_instr.specs.Rows.{arith_row};
ghost use Rattle.mb_instr.specs.declared.instruction.Instr.TheVariants as instr;
ghost use Rattle.def_instructions.specs.Rows.{perform_arith_of};
ghost use Rattle.mb_operands.specs.Endings.{carried_by};
ghost use Rattle.mb_ops_arith.specs.Groups.{is_pair, is_immediate, is_comparison, is_register_result, is_single};
ghost use Rattle.mb_ops_arith.specs.Groups.{is_bits, is_decimal, is_locked};

use crate::bit_fields::bit_field;
use crate::bits::bit_row;
use crate::bounds::cmp2;
use crate::decimals::{DecimalKind, PackingKind, decimal, repack};
use crate::locked::{cas, cas2, tas};
use crate::modifying::modify;
use crate::operations::{Change, Operation, Sum};
use crate::pairs::{
    chain, combine_either_way, combine_immediate, compare_immediate, compare_pair,
    compare_with_register,
};
use crate::quick::combine_quick;
use crate::shifts::shift_register;
use crate::taking::{Effect, take};
use crate::unary::{clr, combine_with_ccr, ext};
use mb_alu::LogicKind;
use mb_instr::{Arith, Ea, Plain, Size};
use mb_operands::{Stream, Undone};
use mb_port::Port;
use mb_writes::Ended;

const ADD: Operation = Operation::Sum(Sum::Add);

const SUB: Operation = Operation::Sum(Sum::Subtract);

const ADDX: Operation = Operation::Extended(Sum::Add);

const SUBX: Operation = Operation::Extended(Sum::Subtract);

const AND: Operation = Operation::Logic(LogicKind::And);

const OR: Operation = Operation::Logic(LogicKind::Or);

const EOR: Operation = Operation::Logic(LogicKind::Eor);

/// Two operands are combined.
#[rattlefmt::skip]
#[inline(always)]
pub(crate) fn pair_row<P: Port>(
    instruction: &Arith,
    stream: Stream,
    plain: &mut Plain,
    port: &mut P,
    ended: &mut Ended,
) -> Result<(), Undone>
    requires row { IsInstr (instr.Arith instruction.now) }
    requires group { is_pair instruction.now ≡ true }
    ensures means { run P.bus
        (perform_arith_of instruction.now (operands_at (arith_row instruction.now) stream.at) stream.space plain.old)
        (P.world port.old) ≡ (carried_by result ended.new plain.new, P.world port.new) }
    ensures rest { P.rest port.new ≡ P.rest port.old }
{
    let first_word = Stream { at: stream.at.wrapping_add(2), ..stream };
    match *instruction {
        Arith::Add { register, to_memory, size, ref ea } =>
            combine_either_way(ADD, register, to_memory, size, ea, first_word, plain, port, ended),
        Arith::Sub { register, to_memory, size, ref ea } =>
            combine_either_way(SUB, register, to_memory, size, ea, first_word, plain, port, ended),
        Arith::And { register, to_memory, size, ref ea } =>
            combine_either_way(AND, register, to_memory, size, ea, first_word, plain, port, ended),
        Arith::Or { register, to_memory, size, ref ea } =>
            combine_either_way(OR, register, to_memory, size, ea, first_word, plain, port, ended),
        Arith::Eor { register, size, ref ea } =>
            combine_either_way(EOR, register, true, size, ea, first_word, plain, port, ended),
        Arith::Addx { x, size, in_memory, y } =>
            chain(ADDX, size, in_memory, y, x, first_word, plain, port, ended),
        Arith::Subx { x, size, in_memory, y } =>
            chain(SUBX, size, in_memory, y, x, first_word, plain, port, ended),
        _ => unreachable!(),
    }
}

/// A number in the instruction is combined with an operand, or with the condition codes.
#[rattlefmt::skip]
#[inline(always)]
pub(crate) fn immediate_row<P: Port>(
    instruction: &Arith,
    stream: Stream,
    plain: &mut Plain,
    port: &mut P,
    ended: &mut Ended,
) -> Result<(), Undone>
    requires row { IsInstr (instr.Arith instruction.now) }
    requires group { is_immediate instruction.now ≡ true }
    ensures means { run P.bus
        (perform_arith_of instruction.now (operands_at (arith_row instruction.now) stream.at) stream.space plain.old)
        (P.world port.old) ≡ (carried_by result ended.new plain.new, P.world port.new) }
    ensures rest { P.rest port.new ≡ P.rest port.old }
{
    let first_word = Stream { at: stream.at.wrapping_add(2), ..stream };
    match *instruction {
        Arith::Addi { size, ref ea, immediate } =>
            return combine_immediate(ADD, immediate, size, ea, first_word, plain, port, ended),
        Arith::Subi { size, ref ea, immediate } =>
            return combine_immediate(SUB, immediate, size, ea, first_word, plain, port, ended),
        Arith::Andi { size, ref ea, immediate } =>
            return combine_immediate(AND, immediate, size, ea, first_word, plain, port, ended),
        Arith::Ori { size, ref ea, immediate } =>
            return combine_immediate(OR, immediate, size, ea, first_word, plain, port, ended),
        Arith::Eori { size, ref ea, immediate } =>
            return combine_immediate(EOR, immediate, size, ea, first_word, plain, port, ended),
        Arith::Addq { quick, size, ref ea } =>
            return combine_quick(Sum::Add, quick, size, ea, first_word, plain, port, ended),
        Arith::Subq { quick, size, ref ea } =>
            return combine_quick(Sum::Subtract, quick, size, ea, first_word, plain, port, ended),
        Arith::OriCcr { word } => combine_with_ccr(LogicKind::Or, word, plain),
        Arith::AndiCcr { word } => combine_with_ccr(LogicKind::And, word, plain),
        Arith::EoriCcr { word } => combine_with_ccr(LogicKind::Eor, word, plain),
        _ => unreachable!(),
    }
    Ok(())
}

/// Operands are compared, and only the condition codes change.
#[rattlefmt::skip]
#[inline(always)]
pub(crate) fn comparison_row<P: Port>(
    instruction: &Arith,
    stream: Stream,
    plain: &mut Plain,
    port: &mut P,
    ended: &mut Ended,
) -> Result<(), Undone>
    requires row { IsInstr (instr.Arith instruction.now) }
    requires group { is_comparison instruction.now ≡ true }
    ensures means { run P.bus
        (perform_arith_of instruction.now (operands_at (arith_row instruction.now) stream.at) stream.space plain.old)
        (P.world port.old) ≡ (carried_by result ended.new plain.new, P.world port.new) }
    ensures rest { P.rest port.new ≡ P.rest port.old }
{
    let first_word = Stream { at: stream.at.wrapping_add(2), ..stream };
    let second_word = Stream { at: stream.at.wrapping_add(4), ..stream };
    match *instruction {
        Arith::Cmp { register, size, ref ea } =>
            compare_with_register(size, ea, register, first_word, plain, port, ended),
        Arith::Cmpi { size, ref ea, immediate } =>
            compare_immediate(size, immediate, ea, first_word, plain, port, ended),
        Arith::Cmpm { x, size, y } =>
            compare_pair(size, &Ea::Post(y), &Ea::Post(x), first_word, plain, port, ended),
        Arith::Cmp2 { size, ref ea, word } =>
            cmp2(size, ea, word, second_word, plain, port, ended),
        Arith::Cmpa { register, size, ref ea } =>
            take(Effect::CompareAddress(register), size, ea, first_word, plain, port, ended),
        Arith::Tst { size, ref ea } => take(Effect::Test, size, ea, first_word, plain, port, ended),
        _ => unreachable!(),
    }
}

/// An operand is read, and the result goes to a register.
#[rattlefmt::skip]
#[inline(always)]
pub(crate) fn register_result_row<P: Port>(
    instruction: &Arith,
    stream: Stream,
    plain: &mut Plain,
    port: &mut P,
    ended: &mut Ended,
) -> Result<(), Undone>
    requires row { IsInstr (instr.Arith instruction.now) }
    requires group { is_register_result instruction.now ≡ true }
    ensures means { run P.bus
        (perform_arith_of instruction.now (operands_at (arith_row instruction.now) stream.at) stream.space plain.old)
        (P.world port.old) ≡ (carried_by result ended.new plain.new, P.world port.new) }
    ensures rest { P.rest port.new ≡ P.rest port.old }
{
    let first_word = Stream { at: stream.at.wrapping_add(2), ..stream };
    let second_word = Stream { at: stream.at.wrapping_add(4), ..stream };
    match *instruction {
        Arith::Adda { register, size, ref ea } =>
            take(Effect::MoveAddress(Sum::Add, register), size, ea, first_word, plain, port, ended),
        Arith::Suba { register, size, ref ea } =>
            take(Effect::MoveAddress(Sum::Subtract, register), size, ea, first_word, plain, port, ended),
        Arith::MulW { register, is_signed, ref ea } =>
            take(Effect::MultiplyWord { is_signed, register }, Size::Word, ea, first_word, plain, port, ended),
        Arith::MulL { ref ea, word } =>
            take(Effect::MultiplyLong(word), Size::Long, ea, second_word, plain, port, ended),
        Arith::DivW { register, is_signed, ref ea } =>
            take(Effect::DivideWord { is_signed, register }, Size::Word, ea, first_word, plain, port, ended),
        Arith::DivL { ref ea, word } =>
            take(Effect::DivideLong(word), Size::Long, ea, second_word, plain, port, ended),
        _ => unreachable!(),
    }
}

/// One operand is changed.
#[rattlefmt::skip]
#[inline(always)]
pub(crate) fn single_row<P: Port>(
    instruction: &Arith,
    stream: Stream,
    plain: &mut Plain,
    port: &mut P,
    ended: &mut Ended,
) -> Result<(), Undone>
    requires row { IsInstr (instr.Arith instruction.now) }
    requires group { is_single instruction.now ≡ true }
    ensures means { run P.bus
        (perform_arith_of instruction.now (operands_at (arith_row instruction.now) stream.at) stream.space plain.old)
        (P.world port.old) ≡ (carried_by result ended.new plain.new, P.world port.new) }
    ensures rest { P.rest port.new ≡ P.rest port.old }
{
    let first_word = Stream { at: stream.at.wrapping_add(2), ..stream };
    match *instruction {
        Arith::Neg { size, ref ea } => return modify(Change::Negate, size, ea, first_word, plain, port, ended),
        Arith::Negx { size, ref ea } =>
            return modify(Change::NegateExtended, size, ea, first_word, plain, port, ended),
        Arith::Not { size, ref ea } =>
            return modify(Change::Complement, size, ea, first_word, plain, port, ended),
        Arith::Clr { size, ref ea } => return clr(size, ea, first_word, plain, port, ended),
        Arith::ShiftMem { kind, is_left, ref ea } =>
            return modify(Change::ShiftWord { kind, is_left }, Size::Word, ea, first_word, plain, port, ended),
        Arith::Nbcd { ref ea } =>
            return modify(Change::NegateDecimal, Size::Byte, ea, first_word, plain, port, ended),
        Arith::ExtW { register } => ext(Size::Byte, Size::Word, register, plain),
        Arith::ExtL { register } => ext(Size::Word, Size::Long, register, plain),
        Arith::ExtbL { register } => ext(Size::Byte, Size::Long, register, plain),
        Arith::ShiftReg { count, is_left, size, by_register, kind, register } =>
            shift_register(kind, is_left, size, by_register, count, register, plain),
        _ => unreachable!(),
    }
    Ok(())
}

/// A bit, or a field of bits.
#[rattlefmt::skip]
#[inline(always)]
pub(crate) fn bits_row<P: Port>(
    instruction: &Arith,
    stream: Stream,
    plain: &mut Plain,
    port: &mut P,
    ended: &mut Ended,
) -> Result<(), Undone>
    requires row { IsInstr (instr.Arith instruction.now) }
    requires group { is_bits instruction.now ≡ true }
    ensures means { run P.bus
        (perform_arith_of instruction.now (operands_at (arith_row instruction.now) stream.at) stream.space plain.old)
        (P.world port.old) ≡ (carried_by result ended.new plain.new, P.world port.new) }
    ensures rest { P.rest port.new ≡ P.rest port.old }
{
    let first_word = Stream { at: stream.at.wrapping_add(2), ..stream };
    let second_word = Stream { at: stream.at.wrapping_add(4), ..stream };
    match *instruction {
        Arith::BitReg { register, kind, ref ea } =>
            bit_row(kind, plain.d[register as usize], ea, first_word, plain, port, ended),
        Arith::BitImm { kind, ref ea, word } =>
            bit_row(kind, u32::from(word), ea, second_word, plain, port, ended),
        Arith::Field { kind, ref ea, word } => bit_field(kind, ea, word, second_word, plain, port, ended),
        _ => unreachable!(),
    }
}

/// Two operands of decimal digits.
#[rattlefmt::skip]
#[inline(always)]
pub(crate) fn decimal_row<P: Port>(
    instruction: &Arith,
    stream: Stream,
    plain: &mut Plain,
    port: &mut P,
    ended: &mut Ended,
) -> Result<(), Undone>
    requires row { IsInstr (instr.Arith instruction.now) }
    requires group { is_decimal instruction.now ≡ true }
    ensures means { run P.bus
        (perform_arith_of instruction.now (operands_at (arith_row instruction.now) stream.at) stream.space plain.old)
        (P.world port.old) ≡ (carried_by result ended.new plain.new, P.world port.new) }
    ensures rest { P.rest port.new ≡ P.rest port.old }
{
    let first_word = Stream { at: stream.at.wrapping_add(2), ..stream };
    match *instruction {
        Arith::Abcd { x, in_memory, y } =>
            decimal(DecimalKind::Add, x, in_memory, y, first_word, plain, port, ended),
        Arith::Sbcd { x, in_memory, y } =>
            decimal(DecimalKind::Subtract, x, in_memory, y, first_word, plain, port, ended),
        Arith::Pack { x, in_memory, y, word } =>
            repack(PackingKind::Pack, x, in_memory, y, word, first_word, plain, port, ended),
        Arith::Unpk { x, in_memory, y, word } =>
            repack(PackingKind::Unpack, x, in_memory, y, word, first_word, plain, port, ended),
        _ => unreachable!(),
    }
}

/// Operands are read and written in one.
#[rattlefmt::skip]
#[inline(always)]
pub(crate) fn locked_row<P: Port>(
    instruction: &Arith,
    stream: Stream,
    plain: &mut Plain,
    port: &mut P,
    ended: &mut Ended,
) -> Result<(), Undone>
    requires row { IsInstr (instr.Arith instruction.now) }
    requires group { is_locked instruction.now ≡ true }
    ensures means { run P.bus
        (perform_arith_of instruction.now (operands_at (arith_row instruction.now) stream.at) stream.space plain.old)
        (P.world port.old) ≡ (carried_by result ended.new plain.new, P.world port.new) }
    ensures rest { P.rest port.new ≡ P.rest port.old }
{
    let first_word = Stream { at: stream.at.wrapping_add(2), ..stream };
    let second_word = Stream { at: stream.at.wrapping_add(4), ..stream };
    match *instruction {
        Arith::Tas { ref ea } => tas(ea, first_word, plain, port, ended),
        Arith::Cas { size, ref ea, word } => cas(size, ea, word, second_word, plain, port, ended),
        Arith::Cas2 { size, first, second } => cas2(size, first, second, stream.space, plain, port, ended),
        _ => unreachable!(),
    }
}
