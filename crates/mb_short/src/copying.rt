//! Operands in memory that are moved to others in memory.

ghost use Rattle.std.specs.Prelude.{◌≡◌, IfSome, IfNone};
ghost use Rattle.mb_instr.specs.declared.operand.Ea.TheVariants.{Ind, Disp};
ghost use Rattle.mb_instr.specs.Codes.{IsInstr};
ghost use Rattle.mb_table.specs.Forms.{copy_of, place_ea};
ghost use Rattle.mb_short.specs.declared.changed.Changed.TheVariants.{Nothing};
ghost use Rattle.mb_short.specs.Changed.{with_step, Differ};
ghost use Rattle.mb_short.specs.Taken.{Goes};

use crate::places::{address, near, pass_two, step_over};
use crate::registers::test;
use mb_instr::{Plain, Size};
use mb_operands::{read_at_once, write_at_once};
use mb_port::{Port, Space};
use mb_table::Place;

/// A MOVE at PC of an operand (d16,An), whose displacement is the second word, where both are known at once. Else
/// nothing has changed.
#[inline(always)]
#[tactic(auto, using(crate::proofs::Copies::copying, crate::proofs::Changes::steps))]
pub(crate) fn copy_near<P: Port>(
    size: Size,
    base: u8,
    place: Place,
    displacement: u16,
    space: Space,
    plain: &mut Plain,
    port: &mut P,
) -> Option<bool>
    requires { IsInstr (copy_of size (place_ea place) (Disp base displacement)) }
    ensures done { IfSome result (λ flow. Goes P.bus (copy_of size (place_ea place) (Disp base displacement)) 2 space
        plain.old (P.world port.old) flow plain.new (P.world port.new)) }
    ensures differ { IfSome result (λ flow. Differ (with_step place Nothing) plain.old plain.new) }
    ensures undone { IfNone result (plain.new ≡ plain.old) }
    ensures same { IfNone result (P.world port.new ≡ P.world port.old) }
    ensures still { P.still (P.world port.new) ≡ P.still (P.world port.old) }
    ensures rest { P.rest port.new ≡ P.rest port.old }
{
    let value = read_at_once(space, near(base, displacement, plain), size, port)?;
    if write_at_once(space, address(place, size, plain), size, value, port) {
        pass_two(plain);
        step_over(place, size, plain);
        test(size, value, plain);
        Some(false)
    } else {
        None
    }
}

/// A MOVE at PC of an operand (An) to one (d16,An), whose displacement is the second word, where both are known at
/// once. Else nothing has changed.
#[inline(always)]
#[tactic(auto, using(crate::proofs::Copies::copying))]
pub(crate) fn copy_to_near<P: Port>(
    size: Size,
    source: u8,
    base: u8,
    displacement: u16,
    space: Space,
    plain: &mut Plain,
    port: &mut P,
) -> Option<bool>
    requires { IsInstr (copy_of size (Disp base displacement) (Ind source)) }
    ensures done { IfSome result (λ flow. Goes P.bus (copy_of size (Disp base displacement) (Ind source)) 2 space
        plain.old (P.world port.old) flow plain.new (P.world port.new)) }
    ensures differ { IfSome result (λ flow. Differ Nothing plain.old plain.new) }
    ensures undone { IfNone result (plain.new ≡ plain.old) }
    ensures same { IfNone result (P.world port.new ≡ P.world port.old) }
    ensures still { P.still (P.world port.new) ≡ P.still (P.world port.old) }
    ensures rest { P.rest port.new ≡ P.rest port.old }
{
    let value = read_at_once(space, plain.a[source as usize], size, port)?;
    if write_at_once(space, near(base, displacement, plain), size, value, port) {
        pass_two(plain);
        test(size, value, plain);
        Some(false)
    } else {
        None
    }
}
