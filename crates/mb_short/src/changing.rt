//! Data registers that change by themselves, by a number in the instruction, or by another data register.

ghost use Rattle.std.specs.Prelude.{◌≡◌, ◌<◌, false};
ghost use Rattle.mb_port.specs.Routine.{run};
ghost use Rattle.mb_instr.specs.Codes.{IsInstr};
ghost use Rattle.mb_instr.specs.declared.size.Size.TheVariants.{Byte};
ghost use Rattle.mb_instr.specs.Registers.{data_register, with_data_register};
ghost use Rattle.mb_instr.specs.Sizes.{low_of};
ghost use Rattle.mb_alu.specs.Shifts.{shift_of};
ghost use Rattle.def_instructions.specs.Conditions.{is_met};
ghost use Rattle.def_instructions.specs.Ends.{carried};
ghost use Rattle.def_instructions.specs.Moves.{condition_byte};
ghost use Rattle.def_instructions.specs.Operands.{with_low};
ghost use Rattle.def_instructions.specs.Rows.{row_of};
ghost use Rattle.def_instructions.specs.Unary.{put_in_register_of, negated, complemented};
ghost use Rattle.mb_table.specs.Forms.{change_of};
ghost use Rattle.mb_short.specs.declared.changed.Changed.TheVariants.{Data};
ghost use Rattle.mb_short.specs.Changed.{Differ};
ghost use Rattle.mb_short.specs.Taken.{Goes};

use crate::places::pass_one;
use crate::registers::{ADD, EXCLUSIVE_OR, SUBTRACT, move_to};
use mb_alu::{LogicKind, logic, shift, sub};
use mb_instr::{Condition, Plain, ShiftKind, Size};
use mb_operands::{is_met, with_low};
use mb_ops_arith::{Operation, Sum, combine_into, combine_registers, put_in_register};
use mb_port::{Port, Space};
use mb_table::Change;

const ADD_EXTENDED: Operation = Operation::Extended(Sum::Add);

const SUBTRACT_EXTENDED: Operation = Operation::Extended(Sum::Subtract);

/// A shift by a count.
#[inline(always)]
pub(crate) fn shift_by(
    kind: ShiftKind,
    is_left: bool,
    size: Size,
    count: u8,
    register: u8,
    plain: &mut Plain,
)
    requires register { register < 8 }
    requires count { count < 64 }
    ensures { plain.new ≡ put_in_register_of register size
        (shift_of kind is_left size count (data_register plain.old register) plain.old.ccr) plain.old }
{
    let value = plain.d[register as usize];
    let shifted = shift(kind, is_left, size, count, value, plain.ccr);
    put_in_register(register, size, shifted, plain);
}

/// NEG.
#[inline(always)]
fn negate(size: Size, register: u8, plain: &mut Plain)
    requires { register < 8 }
    ensures { plain.new ≡ put_in_register_of register size
        (negated size (low_of size (data_register plain.old register)) plain.old.ccr) plain.old }
{
    let value = size.low(plain.d[register as usize]);
    put_in_register(register, size, sub(size, value, 0, plain.ccr, false), plain);
}

/// NOT.
#[inline(always)]
fn complement(size: Size, register: u8, plain: &mut Plain)
    requires { register < 8 }
    ensures { plain.new ≡ put_in_register_of register size
        (complemented size (low_of size (data_register plain.old register)) plain.old.ccr) plain.old }
{
    let value = size.low(plain.d[register as usize]);
    put_in_register(
        register,
        size,
        logic(LogicKind::Not, size, value, 0, plain.ccr),
        plain,
    );
}

/// Scc.
#[inline(always)]
fn set(condition: Condition, register: u8, plain: &mut Plain)
    requires { register < 8 }
    ensures { plain.new ≡ with_data_register plain.old register
        (with_low Byte (data_register plain.old register) (condition_byte (is_met condition plain.old.ccr))) }
{
    let byte = if is_met(condition, plain.ccr) {
        0xff
    } else {
        0
    };
    plain.d[register as usize] = with_low(Size::Byte, plain.d[register as usize], byte);
}

/// Carries out the row of the instruction. PC is past its word already.
#[rattlefmt::skip]
#[inline(always)]
#[tactic(auto, using(crate::proofs::Moves::rows, crate::proofs::Changes::changes), unfolding(
    def_instructions::specs::Arithmetic::combine_quick_of,
    def_instructions::specs::Arithmetic::combine_either_way_of,
    def_instructions::specs::Arithmetic::chain_of,
))]
fn carry_out<P: Port>(change: Change, size: Size, n: u8, at: u32, space: Space, plain: &mut Plain, port: &P)
    requires { IsInstr (change_of change size n) }
    ensures means { run P.bus (row_of (change_of change size n) at space plain.old) (P.world port.now)
        ≡ (carried plain.new, P.world port.now) }
    ensures differ { Differ (Data n) plain.old plain.new }
{
    match change {
        Change::Clear => move_to(n, size, 0, plain),
        Change::Negate => negate(size, n, plain),
        Change::Complement => complement(size, n, plain),
        Change::AddQuick(quick) => combine_into(ADD, size, u32::from(quick), n, plain),
        Change::SubtractQuick(quick) => combine_into(SUBTRACT, size, u32::from(quick), n, plain),
        Change::Set(condition) => set(condition, n, plain),
        Change::ExclusiveOr(m) => combine_registers(EXCLUSIVE_OR, size, m, n, plain),
        Change::AddExtended(m) => combine_registers(ADD_EXTENDED, size, m, n, plain),
        Change::SubtractExtended(m) => combine_registers(SUBTRACT_EXTENDED, size, m, n, plain),
        Change::ShiftLeft(count) => shift_by(ShiftKind::Logical, true, size, count, n, plain),
        Change::ShiftRight(count) => shift_by(ShiftKind::Logical, false, size, count, n, plain),
        Change::ArithmeticLeft(count) => shift_by(ShiftKind::Arithmetic, true, size, count, n, plain),
        Change::ArithmeticRight(count) => shift_by(ShiftKind::Arithmetic, false, size, count, n, plain),
        Change::RotateLeft(count) => shift_by(ShiftKind::Rotate, true, size, count, n, plain),
        Change::RotateRight(count) => shift_by(ShiftKind::Rotate, false, size, count, n, plain),
    }
}

/// An instruction at PC that changes a data register.
#[inline(always)]
#[tactic(auto, using(crate::proofs::Goings::goings))]
pub(crate) fn change_register<P: Port>(
    change: Change,
    size: Size,
    register: u8,
    space: Space,
    plain: &mut Plain,
    port: &P,
)
    requires { IsInstr (change_of change size register) }
    ensures means { Goes P.bus (change_of change size register) 1 space plain.old (P.world port.now) false plain.new
        (P.world port.now) }
    ensures differ { Differ (Data register) plain.old plain.new }
{
    let at = plain.pc;
    pass_one(plain);
    carry_out(change, size, register, at, space, plain, port);
}
