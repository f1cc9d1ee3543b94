//! Operands in memory that are read, changed and written back.

ghost use Rattle.std.specs.Prelude.{◌≡◌, ◌<◌, IfSome, IfNone};
ghost use Rattle.mb_instr.specs.declared.operand.Ea.TheVariants.{Disp};
ghost use Rattle.mb_instr.specs.Codes.{IsInstr};
ghost use Rattle.mb_instr.specs.Registers.{data_register};
ghost use Rattle.mb_instr.specs.Sizes.{low_of};
ghost use Rattle.mb_table.specs.Forms.{update_of, place_ea};
ghost use Rattle.mb_short.specs.declared.changed.Changed.TheVariants.{Nothing};
ghost use Rattle.mb_short.specs.Changed.{with_step, Differ};
ghost use Rattle.mb_short.specs.Updates.{HasData, updated_by};
ghost use Rattle.mb_short.specs.Taken.{Goes};

use crate::places::{address, near, pass_one, pass_two, step_over};
use mb_alu::{Flagged, LogicKind, add, logic, sub};
use mb_instr::{Plain, Size};
use mb_operands::{read_at_once, write_at_once};
use mb_port::{Port, Space};
use mb_table::{Place, Update};

/// The low bytes of a data register.
#[inline(always)]
fn data(register: u8, size: Size, plain: &Plain) -> u32
    requires { register < 8 }
    ensures { result ≡ low_of size (data_register plain.now register) }
{
    size.low(plain.d[register as usize])
}

/// What becomes of an operand's value, with the condition codes after it.
#[rattlefmt::skip]
#[inline(always)]
fn updated(update: Update, size: Size, value: u32, plain: &Plain) -> Flagged
    requires { HasData update }
    ensures { result ≡ updated_by update size value plain.now }
{
    match update {
        Update::Add(n) => add(size, data(n, size, plain), value, plain.ccr, false),
        Update::Subtract(n) => sub(size, data(n, size, plain), value, plain.ccr, false),
        Update::And(n) => logic(LogicKind::And, size, data(n, size, plain), value, plain.ccr),
        Update::Or(n) => logic(LogicKind::Or, size, data(n, size, plain), value, plain.ccr),
        Update::ExclusiveOr(n) => logic(LogicKind::Eor, size, data(n, size, plain), value, plain.ccr),
        Update::AddQuick(quick) => add(size, u32::from(quick), value, plain.ccr, false),
        Update::SubtractQuick(quick) => sub(size, u32::from(quick), value, plain.ccr, false),
        Update::Negate => sub(size, value, 0, plain.ccr, false),
        Update::Complement => logic(LogicKind::Not, size, value, 0, plain.ccr),
    }
}

/// An instruction at PC that changes memory, where that is done at once. Else nothing has changed.
#[inline(always)]
#[tactic(auto, using(crate::proofs::Updates::updating, crate::proofs::Changes::steps))]
pub(crate) fn update_memory<P: Port>(
    update: Update,
    size: Size,
    place: Place,
    space: Space,
    plain: &mut Plain,
    port: &mut P,
) -> Option<bool>
    requires { IsInstr (update_of update size (place_ea place)) }
    ensures done { IfSome result (λ flow. Goes P.bus (update_of update size (place_ea place)) 1 space plain.old
        (P.world port.old) flow plain.new (P.world port.new)) }
    ensures differ { IfSome result (λ flow. Differ (with_step place Nothing) plain.old plain.new) }
    ensures undone { IfNone result (plain.new ≡ plain.old) }
    ensures same { IfNone result (P.world port.new ≡ P.world port.old) }
    ensures still { P.still (P.world port.new) ≡ P.still (P.world port.old) }
    ensures rest { P.rest port.new ≡ P.rest port.old }
{
    let at = address(place, size, plain);
    let value = read_at_once(space, at, size, port)?;
    let result = updated(update, size, value, plain);
    if write_at_once(space, at, size, result.value, port) {
        pass_one(plain);
        step_over(place, size, plain);
        plain.ccr = result.ccr;
        Some(false)
    } else {
        None
    }
}

/// The same with an operand (d16,An), whose displacement is the second word.
#[inline(always)]
#[tactic(auto, using(crate::proofs::Updates::updating))]
pub(crate) fn update_near<P: Port>(
    update: Update,
    size: Size,
    base: u8,
    displacement: u16,
    space: Space,
    plain: &mut Plain,
    port: &mut P,
) -> Option<bool>
    requires { IsInstr (update_of update size (Disp base displacement)) }
    ensures done { IfSome result (λ flow. Goes P.bus (update_of update size (Disp base displacement)) 2 space plain.old
        (P.world port.old) flow plain.new (P.world port.new)) }
    ensures differ { IfSome result (λ flow. Differ Nothing plain.old plain.new) }
    ensures undone { IfNone result (plain.new ≡ plain.old) }
    ensures same { IfNone result (P.world port.new ≡ P.world port.old) }
    ensures still { P.still (P.world port.new) ≡ P.still (P.world port.old) }
    ensures rest { P.rest port.new ≡ P.rest port.old }
{
    let at = near(base, displacement, plain);
    let value = read_at_once(space, at, size, port)?;
    let result = updated(update, size, value, plain);
    if write_at_once(space, at, size, result.value, port) {
        pass_two(plain);
        plain.ccr = result.ccr;
        Some(false)
    } else {
        None
    }
}
