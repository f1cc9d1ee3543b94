//! Operands that are written and not read.

ghost use Rattle.std.specs.Prelude.{◌≡◌, IfSome, IfNone};
ghost use Rattle.mb_instr.specs.declared.operand.Ea.TheVariants.{Disp, Index, AbsL};
ghost use Rattle.mb_instr.specs.declared.operand.Ext.TheVariants.{Brief};
ghost use Rattle.mb_instr.specs.Codes.{IsInstr};
ghost use Rattle.mb_table.specs.Forms.{putting_of, place_ea};
ghost use Rattle.mb_short.specs.declared.changed.Changed.TheVariants.{Nothing};
ghost use Rattle.mb_short.specs.Changed.{with_step, Differ};
ghost use Rattle.mb_short.specs.Operands.{HasSource, put_value};
ghost use Rattle.mb_short.specs.Taken.{Goes};

use crate::places::{address, indexed, near, pass_one, pass_three, pass_two, step_over};
use crate::registers::test;
use mb_instr::{Plain, Size};
use mb_operands::write_at_once;
use mb_port::{Port, Space};
use mb_table::{Place, Putting};

/// What is written.
#[inline(always)]
fn value_of(putting: Putting, size: Size, plain: &Plain) -> u32
    requires { HasSource putting }
    ensures { result ≡ put_value putting size plain.now }
{
    match putting {
        Putting::Data(n) => size.low(plain.d[n as usize]),
        Putting::Address(n) => size.low(plain.a[n as usize]),
        Putting::Zero => 0,
    }
}

/// An instruction at PC that writes to memory, where that is done at once. Else nothing has changed.
#[inline(always)]
#[tactic(auto, using(crate::proofs::Operands::operands, crate::proofs::Changes::steps))]
pub(crate) fn put_memory<P: Port>(
    putting: Putting,
    size: Size,
    place: Place,
    space: Space,
    plain: &mut Plain,
    port: &mut P,
) -> Option<bool>
    requires { IsInstr (putting_of putting size (place_ea place)) }
    ensures done { IfSome result (λ flow. Goes P.bus (putting_of putting size (place_ea place)) 1 space plain.old
        (P.world port.old) flow plain.new (P.world port.new)) }
    ensures differ { IfSome result (λ flow. Differ (with_step place Nothing) plain.old plain.new) }
    ensures undone { IfNone result (plain.new ≡ plain.old) }
    ensures same { IfNone result (P.world port.new ≡ P.world port.old) }
    ensures still { P.still (P.world port.new) ≡ P.still (P.world port.old) }
    ensures rest { P.rest port.new ≡ P.rest port.old }
{
    let value = value_of(putting, size, plain);
    if write_at_once(space, address(place, size, plain), size, value, port) {
        pass_one(plain);
        step_over(place, size, plain);
        test(size, value, plain);
        Some(false)
    } else {
        None
    }
}

/// The same with an operand (d16,An), whose displacement is the second word.
#[inline(always)]
#[tactic(auto, using(crate::proofs::Operands::operands))]
pub(crate) fn put_near<P: Port>(
    putting: Putting,
    size: Size,
    base: u8,
    displacement: u16,
    space: Space,
    plain: &mut Plain,
    port: &mut P,
) -> Option<bool>
    requires { IsInstr (putting_of putting size (Disp base displacement)) }
    ensures done { IfSome result (λ flow. Goes P.bus (putting_of putting size (Disp base displacement)) 2 space
        plain.old (P.world port.old) flow plain.new (P.world port.new)) }
    ensures differ { IfSome result (λ flow. Differ Nothing plain.old plain.new) }
    ensures undone { IfNone result (plain.new ≡ plain.old) }
    ensures same { IfNone result (P.world port.new ≡ P.world port.old) }
    ensures still { P.still (P.world port.new) ≡ P.still (P.world port.old) }
    ensures rest { P.rest port.new ≡ P.rest port.old }
{
    let value = value_of(putting, size, plain);
    if write_at_once(space, near(base, displacement, plain), size, value, port) {
        pass_two(plain);
        test(size, value, plain);
        Some(false)
    } else {
        None
    }
}

/// The same with an operand (d8,An,Xn), whose brief extension word is the second word.
#[inline(always)]
#[tactic(auto, using(crate::proofs::Operands::operands))]
pub(crate) fn put_indexed<P: Port>(
    putting: Putting,
    size: Size,
    base: u8,
    word: u16,
    space: Space,
    plain: &mut Plain,
    port: &mut P,
) -> Option<bool>
    requires { IsInstr (putting_of putting size (Index base (Brief word))) }
    ensures done { IfSome result (λ flow. Goes P.bus (putting_of putting size (Index base (Brief word))) 2 space
        plain.old (P.world port.old) flow plain.new (P.world port.new)) }
    ensures differ { IfSome result (λ flow. Differ Nothing plain.old plain.new) }
    ensures undone { IfNone result (plain.new ≡ plain.old) }
    ensures same { IfNone result (P.world port.new ≡ P.world port.old) }
    ensures still { P.still (P.world port.new) ≡ P.still (P.world port.old) }
    ensures rest { P.rest port.new ≡ P.rest port.old }
{
    let value = value_of(putting, size, plain);
    if write_at_once(space, indexed(base, word, plain), size, value, port) {
        pass_two(plain);
        test(size, value, plain);
        Some(false)
    } else {
        None
    }
}

/// The same with an operand at an absolute address, which the second word and the third are.
#[inline(always)]
#[tactic(auto, using(crate::proofs::Operands::operands))]
pub(crate) fn put_absolute<P: Port>(
    putting: Putting,
    size: Size,
    at: u32,
    space: Space,
    plain: &mut Plain,
    port: &mut P,
) -> Option<bool>
    requires { IsInstr (putting_of putting size (AbsL at)) }
    ensures done { IfSome result (λ flow. Goes P.bus (putting_of putting size (AbsL at)) 3 space plain.old
        (P.world port.old) flow plain.new (P.world port.new)) }
    ensures differ { IfSome result (λ flow. Differ Nothing plain.old plain.new) }
    ensures undone { IfNone result (plain.new ≡ plain.old) }
    ensures same { IfNone result (P.world port.new ≡ P.world port.old) }
    ensures still { P.still (P.world port.new) ≡ P.still (P.world port.old) }
    ensures rest { P.rest port.new ≡ P.rest port.old }
{
    let value = value_of(putting, size, plain);
    if write_at_once(space, at, size, value, port) {
        pass_three(plain);
        test(size, value, plain);
        Some(false)
    } else {
        None
    }
}
