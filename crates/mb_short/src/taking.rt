//! Operands that are only read.

ghost use Rattle.std.specs.Prelude.{◌≡◌, ◌<◌, false, IfSome, IfNone};
ghost use Rattle.mb_instr.specs.declared.operand.Ea.TheVariants.{Disp, Index, AbsL};
ghost use Rattle.mb_instr.specs.declared.operand.Ext.TheVariants.{Brief};
ghost use Rattle.mb_instr.specs.declared.size.Size.TheVariants.{Long};
ghost use Rattle.mb_instr.specs.Codes.{IsInstr};
ghost use Rattle.mb_instr.specs.Operands.{lower};
ghost use Rattle.mb_table.specs.Forms.{taking_of, immediate_of, register_ea, place_ea};
ghost use Rattle.mb_short.specs.Changed.{taken_in, with_step, Differ};
ghost use Rattle.mb_short.specs.Operands.{HasRegister, taken_by, register_value};
ghost use Rattle.mb_short.specs.Taken.{Goes};

use crate::places::{address, indexed, near, pass_one, pass_three, pass_two, step_over};
use crate::registers::{ADD, AND, OR, SUBTRACT, move_to, test};
use mb_alu::compare;
use mb_instr::{Plain, Size};
use mb_operands::read_at_once;
use mb_ops_arith::{combine_into, compare_with};
use mb_port::{Port, Space};
use mb_table::{Place, Register, Taking};

/// What becomes of a value that was read.
#[rattlefmt::skip]
#[inline(always)]
fn take(taking: Taking, size: Size, value: u32, plain: &mut Plain)
    requires { HasRegister taking }
    ensures { plain.new ≡ taken_by taking size value plain.old }
{
    match taking {
        Taking::Move(n) => move_to(n, size, value, plain),
        Taking::MoveAddress(n) => plain.a[n as usize] = size.sign_extend(value),
        Taking::Add(n) => combine_into(ADD, size, value, n, plain),
        Taking::Subtract(n) => combine_into(SUBTRACT, size, value, n, plain),
        Taking::And(n) => combine_into(AND, size, value, n, plain),
        Taking::Or(n) => combine_into(OR, size, value, n, plain),
        Taking::Compare(n) => compare_with(size, value, n, plain),
        Taking::AddAddress(n) => plain.a[n as usize] = plain.a[n as usize].wrapping_add(size.sign_extend(value)),
        Taking::SubtractAddress(n) => plain.a[n as usize] = plain.a[n as usize].wrapping_sub(size.sign_extend(value)),
        Taking::CompareAddress(n) =>
            plain.ccr = compare(Size::Long, size.sign_extend(value), plain.a[n as usize], plain.ccr),
        Taking::Test => test(size, value, plain),
    }
}

/// All of a register.
#[inline(always)]
fn value_of(register: Register, plain: &Plain) -> u32
    requires { lower (register_ea register) < 8 }
    ensures { result ≡ register_value register plain.now }
{
    match register {
        Register::Data(n) => plain.d[n as usize],
        Register::Address(n) => plain.a[n as usize],
    }
}

/// An instruction at PC that reads a register.
#[inline(always)]
#[tactic(auto, using(crate::proofs::Operands::operands, crate::proofs::Changes::changes))]
pub(crate) fn take_register<P: Port>(
    taking: Taking,
    size: Size,
    register: Register,
    space: Space,
    plain: &mut Plain,
    port: &P,
)
    requires { IsInstr (taking_of taking size (register_ea register)) }
    ensures means { Goes P.bus (taking_of taking size (register_ea register)) 1 space plain.old (P.world port.now)
        false plain.new (P.world port.now) }
    ensures differ { Differ (taken_in taking) plain.old plain.new }
{
    let value = size.low(value_of(register, plain));
    pass_one(plain);
    take(taking, size, value, plain);
}

/// An instruction at PC that reads memory, where the operand is known at once. Else nothing has changed.
#[inline(always)]
#[tactic(auto, using(crate::proofs::Operands::operands, crate::proofs::Changes::changes))]
pub(crate) fn take_memory<P: Port>(
    taking: Taking,
    size: Size,
    place: Place,
    space: Space,
    plain: &mut Plain,
    port: &P,
) -> Option<bool>
    requires { IsInstr (taking_of taking size (place_ea place)) }
    ensures done { IfSome result (λ flow. Goes P.bus (taking_of taking size (place_ea place)) 1 space plain.old
        (P.world port.now) flow plain.new (P.world port.now)) }
    ensures differ { IfSome result (λ flow. Differ (with_step place (taken_in taking)) plain.old plain.new) }
    ensures undone { IfNone result (plain.new ≡ plain.old) }
{
    let value = read_at_once(space, address(place, size, plain), size, port)?;
    pass_one(plain);
    step_over(place, size, plain);
    take(taking, size, value, plain);
    Some(false)
}

/// The same with an operand (d16,An), whose displacement is the second word.
#[inline(always)]
#[tactic(auto, using(crate::proofs::Operands::operands, crate::proofs::Changes::changes))]
pub(crate) fn take_near<P: Port>(
    taking: Taking,
    size: Size,
    base: u8,
    displacement: u16,
    space: Space,
    plain: &mut Plain,
    port: &P,
) -> Option<bool>
    requires { IsInstr (taking_of taking size (Disp base displacement)) }
    ensures done { IfSome result (λ flow. Goes P.bus (taking_of taking size (Disp base displacement)) 2 space plain.old
        (P.world port.now) flow plain.new (P.world port.now)) }
    ensures differ { IfSome result (λ flow. Differ (taken_in taking) plain.old plain.new) }
    ensures undone { IfNone result (plain.new ≡ plain.old) }
{
    let value = read_at_once(space, near(base, displacement, plain), size, port)?;
    pass_two(plain);
    take(taking, size, value, plain);
    Some(false)
}

/// The same with an operand (d8,An,Xn), whose brief extension word is the second word.
#[inline(always)]
#[tactic(auto, using(crate::proofs::Operands::operands, crate::proofs::Changes::changes))]
pub(crate) fn take_indexed<P: Port>(
    taking: Taking,
    size: Size,
    base: u8,
    word: u16,
    space: Space,
    plain: &mut Plain,
    port: &P,
) -> Option<bool>
    requires { IsInstr (taking_of taking size (Index base (Brief word))) }
    ensures done { IfSome result (λ flow. Goes P.bus (taking_of taking size (Index base (Brief word))) 2 space plain.old
        (P.world port.now) flow plain.new (P.world port.now)) }
    ensures differ { IfSome result (λ flow. Differ (taken_in taking) plain.old plain.new) }
    ensures undone { IfNone result (plain.new ≡ plain.old) }
{
    let value = read_at_once(space, indexed(base, word, plain), size, port)?;
    pass_two(plain);
    take(taking, size, value, plain);
    Some(false)
}

/// An instruction at PC that reads an immediate of a byte or a word, which is the second word.
#[inline(always)]
#[tactic(auto, using(crate::proofs::Immediates::immediates, crate::proofs::Changes::changes))]
pub(crate) fn take_immediate<P: Port>(
    taking: Taking,
    size: Size,
    immediate: u16,
    space: Space,
    plain: &mut Plain,
    port: &P,
)
    requires { IsInstr (immediate_of taking size immediate) }
    ensures means { Goes P.bus (immediate_of taking size immediate) 2 space plain.old (P.world port.now) false plain.new
        (P.world port.now) }
    ensures differ { Differ (taken_in taking) plain.old plain.new }
{
    pass_two(plain);
    take(taking, size, size.low(u32::from(immediate)), plain);
}

/// The same with a long, which the second word and the third are.
#[inline(always)]
#[tactic(auto, using(crate::proofs::Immediates::immediates, crate::proofs::Changes::changes))]
pub(crate) fn take_long<P: Port>(
    taking: Taking,
    immediate: u32,
    space: Space,
    plain: &mut Plain,
    port: &P,
)
    requires { IsInstr (immediate_of taking Long immediate) }
    ensures means { Goes P.bus (immediate_of taking Long immediate) 3 space plain.old (P.world port.now) false plain.new
        (P.world port.now) }
    ensures differ { Differ (taken_in taking) plain.old plain.new }
{
    pass_three(plain);
    take(taking, Size::Long, Size::Long.low(immediate), plain);
}

/// An instruction at PC that reads memory at an absolute address, which the second word and the third are, where the
/// operand is known at once. Else nothing has changed.
#[inline(always)]
#[tactic(auto, using(crate::proofs::Operands::operands, crate::proofs::Changes::changes))]
pub(crate) fn take_absolute<P: Port>(
    taking: Taking,
    size: Size,
    at: u32,
    space: Space,
    plain: &mut Plain,
    port: &P,
) -> Option<bool>
    requires { IsInstr (taking_of taking size (AbsL at)) }
    ensures done { IfSome result (λ flow. Goes P.bus (taking_of taking size (AbsL at)) 3 space plain.old
        (P.world port.now) flow plain.new (P.world port.now)) }
    ensures differ { IfSome result (λ flow. Differ (taken_in taking) plain.old plain.new) }
    ensures undone { IfNone result (plain.new ≡ plain.old) }
{
    let value = read_at_once(space, at, size, port)?;
    pass_three(plain);
    take(taking, size, value, plain);
    Some(false)
}
