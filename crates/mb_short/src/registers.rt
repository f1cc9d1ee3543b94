//! Forms of one word with names of their own, whose operands are registers or stand in the word.

ghost use Rattle.std.specs.Prelude.{◌≡◌, ◌<◌, is_some, slice_index_or, IfSome, IfNone};
ghost use Rattle.mb_instr.specs.Codes.{IsInstr};
ghost use Rattle.def_instructions.specs.Moves.{move_flags, swap_of};
ghost use Rattle.def_instructions.specs.Unary.{ext_of};
ghost use Rattle.mb_table.specs.Short.{meaning};
ghost use Rattle.mb_short.specs.Always.{is_between_data, is_in_address, is_in_data};
ghost use Rattle.mb_short.specs.Changed.{Follows};
ghost use Rattle.mb_short.specs.Moved.{moved_to};
ghost use Rattle.def_instructions.specs.Attempt.{past};
ghost use Rattle.mb_short.specs.Taken.{GoesBy};

use crate::changing::shift_by;
use crate::following::Follower;
use crate::places::pass_one;
use mb_alu::{LogicKind, extend, logic};
use mb_instr::{Plain, ShiftKind, Size};
use mb_operands::with_low;
use mb_ops_arith::{
    Operation, Sum, combine_into, combine_registers, compare_with, multiply_word, put_in_register,
};
use mb_ops_move::moveq;
use mb_port::{Port, Space};
use mb_table::Short;

pub(crate) const ADD: Operation = Operation::Sum(Sum::Add);

pub(crate) const SUBTRACT: Operation = Operation::Sum(Sum::Subtract);

pub(crate) const AND: Operation = Operation::Logic(LogicKind::And);

pub(crate) const OR: Operation = Operation::Logic(LogicKind::Or);

pub(crate) const EXCLUSIVE_OR: Operation = Operation::Logic(LogicKind::Eor);

/// The condition codes of a value that is moved.
#[inline(always)]
pub(crate) fn test(size: Size, value: u32, plain: &mut Plain)
    ensures { plain.new ≡ move_flags size value plain.old }
{
    plain.ccr = logic(LogicKind::Pass, size, value, 0, plain.ccr).ccr;
}

/// A value of a size moves to a data register.
#[inline(always)]
pub(crate) fn move_to(register: u8, size: Size, value: u32, plain: &mut Plain)
    requires { register < 8 }
    ensures { plain.new ≡ moved_to register size value plain.old }
{
    let n = register as usize;
    test(size, value, plain);
    plain.d[n] = with_low(size, plain.d[n], value);
}

/// The halves of a data register change places.
#[inline(always)]
fn swap(register: u8, plain: &mut Plain)
    requires { register < 8 }
    ensures { plain.new ≡ swap_of register plain.old }
{
    let n = register as usize;
    let value = plain.d[n];
    let swapped = value % 0x1_0000 * 0x1_0000 + value / 0x1_0000;
    plain.d[n] = swapped;
    test(Size::Long, swapped, plain);
}

/// The low word of a data register is extended to all of it.
#[inline(always)]
fn extend_word(register: u8, plain: &mut Plain)
    requires { register < 8 }
    ensures { plain.new ≡ ext_of Size.Word Size.Long register plain.old }
{
    let extended = extend(
        Size::Word,
        Size::Long,
        plain.d[register as usize],
        plain.ccr,
    );
    put_in_register(register, Size::Long, extended, plain);
}

/// PC goes past the only word of an instruction, whose data register is this yet.
#[inline(always)]
fn enter(register: u8, plain: &mut Plain) -> u32
    requires { register < 8 }
    ensures before { result ≡ slice_index_or plain.old.d register 0 }
    ensures past { plain.new ≡ past 1 plain.old }
{
    pass_one(plain);
    plain.d[register as usize]
}

/// Carries out the instruction that stands at PC, where its form has a name of its own for two data registers.
#[rattlefmt::skip]
#[inline(always)]
#[tactic(auto, using(
    crate::proofs::Moves::rows,
    crate::proofs::Changes::changes,
    crate::proofs::Goings::goings,
    crate::proofs::Followings::followings,
), unfolding(
    def_instructions::specs::Arithmetic::combine_quick_of,
    def_instructions::specs::Arithmetic::combine_either_way_of,
))]
pub(crate) fn perform_between_data<P: Port, F: Follower, Loop>(
    short: &Short,
    space: Space,
    plain: &mut Plain,
    port: &P,
    follower: &mut F,
) -> Option<bool>
    requires { IfSome (meaning short.now) IsInstr }
    ensures done { IfSome result (λ flow. GoesBy P.bus (meaning short.now) 1 space plain.old (P.world port.now) flow
        plain.new (P.world port.now)) }
    ensures follows { Follows F.follows follower.old plain.old → Follows F.follows follower.new plain.new }
    ensures undone { IfNone result (plain.new ≡ plain.old) }
    ensures always { is_some result ≡ is_between_data short.now }
{
    match *short {
        Short::CopyLong { register, source } => {
            let before = enter(register, plain);
            move_to(register, Size::Long, plain.d[source as usize], plain);
            follower.data(register, before, plain);
        }
        Short::AddLong { register, source } => {
            let before = enter(register, plain);
            combine_registers(ADD, Size::Long, source, register, plain);
            follower.data(register, before, plain);
        }
        Short::SubtractLong { register, source } => {
            let before = enter(register, plain);
            combine_registers(SUBTRACT, Size::Long, source, register, plain);
            follower.data(register, before, plain);
        }
        Short::AndLong { register, source } => {
            let before = enter(register, plain);
            combine_registers(AND, Size::Long, source, register, plain);
            follower.data(register, before, plain);
        }
        Short::OrLong { register, source } => {
            let before = enter(register, plain);
            combine_registers(OR, Size::Long, source, register, plain);
            follower.data(register, before, plain);
        }
        Short::ExclusiveOrLong { register, source } => {
            let before = enter(register, plain);
            combine_registers(EXCLUSIVE_OR, Size::Long, source, register, plain);
            follower.data(register, before, plain);
        }
        Short::CompareLong { register, source } => {
            pass_one(plain);
            compare_with(Size::Long, plain.d[source as usize], register, plain);
        }
        Short::MultiplyUnsigned { register, source } => {
            let before = enter(register, plain);
            multiply_word(false, register, Size::Word.low(plain.d[source as usize]), plain);
            follower.data(register, before, plain);
        }
        Short::MultiplySigned { register, source } => {
            let before = enter(register, plain);
            multiply_word(true, register, Size::Word.low(plain.d[source as usize]), plain);
            follower.data(register, before, plain);
        }
        _ => return None,
    }
    Some(false)
}

/// Carries out the instruction that stands at PC, where its form has a name of its own for one data register.
#[rattlefmt::skip]
#[inline(always)]
#[tactic(auto, using(
    crate::proofs::Moves::rows,
    crate::proofs::Changes::changes,
    crate::proofs::Goings::goings,
    crate::proofs::Followings::followings,
), unfolding(
    def_instructions::specs::Arithmetic::combine_quick_of,
    def_instructions::specs::Arithmetic::combine_either_way_of,
))]
pub(crate) fn perform_in_data<P: Port, F: Follower, Loop>(
    short: &Short,
    space: Space,
    plain: &mut Plain,
    port: &P,
    follower: &mut F,
) -> Option<bool>
    requires { IfSome (meaning short.now) IsInstr }
    ensures done { IfSome result (λ flow. GoesBy P.bus (meaning short.now) 1 space plain.old (P.world port.now) flow
        plain.new (P.world port.now)) }
    ensures follows { Follows F.follows follower.old plain.old → Follows F.follows follower.new plain.new }
    ensures undone { IfNone result (plain.new ≡ plain.old) }
    ensures always { is_some result ≡ is_in_data short.now }
{
    match *short {
        Short::MoveQuick { register, immediate } => {
            let before = enter(register, plain);
            moveq(register, immediate, plain);
            follower.data(register, before, plain);
        }
        Short::ShiftRightLong { register, count } => {
            let before = enter(register, plain);
            shift_by(ShiftKind::Logical, false, Size::Long, count, register, plain);
            follower.data(register, before, plain);
        }
        Short::AddQuickLong { register, quick } => {
            let before = enter(register, plain);
            combine_into(ADD, Size::Long, u32::from(quick), register, plain);
            follower.data(register, before, plain);
        }
        Short::SubtractQuickLong { register, quick } => {
            let before = enter(register, plain);
            combine_into(SUBTRACT, Size::Long, u32::from(quick), register, plain);
            follower.data(register, before, plain);
        }
        Short::TestLong { register } => {
            pass_one(plain);
            test(Size::Long, plain.d[register as usize], plain);
        }
        Short::Swap { register } => {
            let before = enter(register, plain);
            swap(register, plain);
            follower.data(register, before, plain);
        }
        Short::ExtendWord { register } => {
            let before = enter(register, plain);
            extend_word(register, plain);
            follower.data(register, before, plain);
        }
        _ => return None,
    }
    Some(false)
}

/// Carries out the instruction that stands at PC, where its form has a name of its own for an address register.
#[rattlefmt::skip]
#[inline(always)]
#[tactic(auto, using(
    crate::proofs::Moves::rows,
    crate::proofs::Changes::changes,
    crate::proofs::Goings::goings,
    crate::proofs::Followings::followings,
), unfolding(
    def_instructions::specs::Arithmetic::combine_quick_of,
    def_instructions::specs::Arithmetic::combine_either_way_of,
))]
pub(crate) fn perform_in_address<P: Port, F: Follower>(
    short: &Short,
    space: Space,
    plain: &mut Plain,
    port: &P,
    follower: &mut F,
) -> Option<bool>
    requires { IfSome (meaning short.now) IsInstr }
    ensures done { IfSome result (λ flow. GoesBy P.bus (meaning short.now) 1 space plain.old (P.world port.now) flow
        plain.new (P.world port.now)) }
    ensures follows { Follows F.follows follower.old plain.old → Follows F.follows follower.new plain.new }
    ensures undone { IfNone result (plain.new ≡ plain.old) }
    ensures always { is_some result ≡ is_in_address short.now }
{
    match *short {
        Short::RaiseAddress { register, quick, .. } => {
            let before = plain.a[register as usize];
            pass_one(plain);
            plain.a[register as usize] = before.wrapping_add(u32::from(quick));
            follower.address(register, before, plain);
        }
        Short::LowerAddress { register, quick, .. } => {
            let before = plain.a[register as usize];
            pass_one(plain);
            plain.a[register as usize] = before.wrapping_sub(u32::from(quick));
            follower.address(register, before, plain);
        }
        _ => return None,
    }
    Some(false)
}
