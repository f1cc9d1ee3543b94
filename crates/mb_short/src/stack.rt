//! Calls and returns, and frames on the stack.

ghost use Rattle.std.specs.Prelude.{◌≡◌, ◌<◌, IfSome, IfNone};
ghost use Rattle.mb_port.specs.Routine.{run};
ghost use Rattle.mb_instr.specs.declared.kinds.Branch.TheVariants as displacement_in;
ghost use Rattle.mb_instr.specs.declared.kinds.Condition.TheVariants as condition;
ghost use Rattle.mb_instr.specs.declared.instruction.Instr.TheVariants as instr;
ghost use Rattle.mb_instr.specs.declared.instruction.Flow.TheVariants as flow_row;
ghost use Rattle.mb_instr.specs.declared.instruction.Move.TheVariants as move_row;
ghost use Rattle.def_instructions.specs.Ends.{went};
ghost use Rattle.def_instructions.specs.Flow.{call_of};
ghost use Rattle.def_instructions.specs.Stack.{link_of};
ghost use Rattle.mb_short.specs.declared.changed.Changed.TheVariants.{Address};
ghost use Rattle.mb_short.specs.Changed.{Differ};
ghost use Rattle.mb_short.specs.Taken.{Goes};

use crate::places::{pass_one, pass_two};
use mb_instr::{Branch, Plain, Size};
use mb_operands::{read_at_once, write_at_once};
use mb_ops_flow::target;
use mb_port::{Port, Space};

/// Pushes the next instruction's address, at which PC is in `after`, and goes to the target, where that is done at
/// once. Else nothing has changed.
#[inline(always)]
#[tactic(auto, using(crate::proofs::Changes::changes))]
fn call<P: Port>(
    target: u32,
    after: Plain,
    space: Space,
    plain: &mut Plain,
    port: &mut P,
) -> Option<bool>
    ensures done { IfSome result (λ flow. run P.bus (call_of target space after) (P.world port.old)
        ≡ (went flow plain.new, P.world port.new)) }
    ensures differ { IfSome result (λ flow. Differ (Address 7) after plain.new) }
    ensures undone { IfNone result (plain.new ≡ plain.old) }
    ensures same { IfNone result (P.world port.new ≡ P.world port.old) }
    ensures still { P.still (P.world port.new) ≡ P.still (P.world port.old) }
    ensures rest { P.rest port.new ≡ P.rest port.old }
{
    let mut after = after;
    let next = after.pc;
    after.a[7] = after.a[7].wrapping_sub(4);
    after.pc = target;
    if write_at_once(space, after.a[7], Size::Long, next, port) {
        *plain = after;
        Some(true)
    } else {
        None
    }
}

/// BSR at PC with its displacement in the first word.
#[inline(always)]
#[tactic(auto, using(crate::proofs::Flows::flows))]
pub(crate) fn call_near<P: Port>(
    displacement: u8,
    space: Space,
    plain: &mut Plain,
    port: &mut P,
) -> Option<bool>
    ensures done { IfSome result (λ flow.
        Goes P.bus (instr.Flow (flow_row.Bcc condition.False (displacement_in.Byte displacement))) 1 space plain.old
        (P.world port.old) flow plain.new (P.world port.new)) }
    ensures differ { IfSome result (λ flow. Differ (Address 7) plain.old plain.new) }
    ensures undone { IfNone result (plain.new ≡ plain.old) }
    ensures same { IfNone result (P.world port.new ≡ P.world port.old) }
    ensures still { P.still (P.world port.new) ≡ P.still (P.world port.old) }
    ensures rest { P.rest port.new ≡ P.rest port.old }
{
    let target = target(plain.pc.wrapping_add(2), Branch::Byte(displacement));
    let mut after = *plain;
    pass_one(&mut after);
    call(target, after, space, plain, port)
}

/// BSR at PC with its displacement in the second word.
#[inline(always)]
#[tactic(auto, using(crate::proofs::Flows::flows))]
pub(crate) fn call_far<P: Port>(
    displacement: u16,
    space: Space,
    plain: &mut Plain,
    port: &mut P,
) -> Option<bool>
    ensures done { IfSome result (λ flow.
        Goes P.bus (instr.Flow (flow_row.Bcc condition.False (displacement_in.Word displacement))) 2 space plain.old
        (P.world port.old) flow plain.new (P.world port.new)) }
    ensures differ { IfSome result (λ flow. Differ (Address 7) plain.old plain.new) }
    ensures undone { IfNone result (plain.new ≡ plain.old) }
    ensures same { IfNone result (P.world port.new ≡ P.world port.old) }
    ensures still { P.still (P.world port.new) ≡ P.still (P.world port.old) }
    ensures rest { P.rest port.new ≡ P.rest port.old }
{
    let target = target(plain.pc.wrapping_add(2), Branch::Word(displacement));
    let mut after = *plain;
    pass_two(&mut after);
    call(target, after, space, plain, port)
}

/// RTS at PC.
#[inline(always)]
#[tactic(auto, using(crate::proofs::Flows::flows, crate::proofs::Changes::changes))]
pub(crate) fn return_from<P: Port>(space: Space, plain: &mut Plain, port: &P) -> Option<bool>
    ensures done { IfSome result (λ flow. Goes P.bus (instr.Flow flow_row.Rts) 1 space plain.old (P.world port.now)
        flow plain.new (P.world port.now)) }
    ensures differ { IfSome result (λ flow. Differ (Address 7) plain.old plain.new) }
    ensures undone { IfNone result (plain.new ≡ plain.old) }
{
    let target = read_at_once(space, plain.a[7], Size::Long, port)?;
    plain.a[7] = plain.a[7].wrapping_add(4);
    plain.pc = target;
    Some(true)
}

/// Pushes a register and makes it the frame, from the registers in `after`, where that is done at once. Else nothing
/// has changed.
#[inline(always)]
fn push_frame<P: Port>(
    register: u8,
    displacement: u32,
    after: Plain,
    space: Space,
    plain: &mut Plain,
    port: &mut P,
) -> Option<bool>
    requires { register < 8 }
    ensures done { IfSome result (λ flow. run P.bus (link_of register displacement space after) (P.world port.old)
        ≡ (went flow plain.new, P.world port.new)) }
    ensures undone { IfNone result (plain.new ≡ plain.old) }
    ensures same { IfNone result (P.world port.new ≡ P.world port.old) }
    ensures still { P.still (P.world port.new) ≡ P.still (P.world port.old) }
    ensures rest { P.rest port.new ≡ P.rest port.old }
{
    let n = register as usize;
    let mut after = after;
    let frame = after.a[7].wrapping_sub(4);
    after.a[7] = frame;
    let pushed = after.a[n];
    after.a[n] = frame;
    after.a[7] = frame.wrapping_add(displacement);
    if write_at_once(space, frame, Size::Long, pushed, port) {
        *plain = after;
        Some(false)
    } else {
        None
    }
}

/// LINK at PC.
#[inline(always)]
#[tactic(auto, using(crate::proofs::Flows::flows))]
pub(crate) fn link<P: Port>(
    register: u8,
    displacement: u16,
    space: Space,
    plain: &mut Plain,
    port: &mut P,
) -> Option<bool>
    requires { register < 8 }
    ensures done { IfSome result (λ flow. Goes P.bus (instr.Move (move_row.LinkW register displacement)) 2 space
        plain.old (P.world port.old) flow plain.new (P.world port.new)) }
    ensures undone { IfNone result (plain.new ≡ plain.old) }
    ensures same { IfNone result (P.world port.new ≡ P.world port.old) }
    ensures still { P.still (P.world port.new) ≡ P.still (P.world port.old) }
    ensures rest { P.rest port.new ≡ P.rest port.old }
{
    let offset = Size::Word.sign_extend(u32::from(displacement));
    let mut after = *plain;
    pass_two(&mut after);
    push_frame(register, offset, after, space, plain, port)
}

/// UNLK at PC.
#[inline(always)]
#[tactic(auto, using(crate::proofs::Flows::flows))]
pub(crate) fn unlink<P: Port>(
    register: u8,
    space: Space,
    plain: &mut Plain,
    port: &P,
) -> Option<bool>
    requires { register < 8 }
    ensures done { IfSome result (λ flow. Goes P.bus (instr.Move (move_row.Unlk register)) 1 space plain.old
        (P.world port.now) flow plain.new (P.world port.now)) }
    ensures undone { IfNone result (plain.new ≡ plain.old) }
{
    let n = register as usize;
    let frame = plain.a[n];
    let value = read_at_once(space, frame, Size::Long, port)?;
    pass_one(plain);
    plain.a[7] = frame.wrapping_add(4);
    plain.a[n] = value;
    Some(false)
}
