//! BRA, BSR and Bcc.

ghost use Rattle.std.specs.Prelude.{◌≡◌, ◌<◌};
ghost use Rattle.mb_port.specs.Routine.{run};
ghost use Rattle.def_instructions.specs.Ends.{went};
ghost use Rattle.def_instructions.specs.Flow.{branch_displacement_of, target_of, is_call, call_of, go_if_met_of, branch_of};
ghost use Rattle.mb_operands.specs.Endings.{performed_by};

use mb_instr::{Branch, Condition, Plain, Size};
use mb_operands::{Stream, Undone, is_met, push};
use mb_port::{Port, Space};
use mb_writes::Ended;

/// A displacement as a signed long.
#[inline(always)]
fn branch_displacement(branch: Branch) -> u32
    ensures { result ≡ branch_displacement_of branch }
{
    match branch {
        Branch::Byte(byte) => Size::Byte.sign_extend(u32::from(byte)),
        Branch::Word(word) => Size::Word.sign_extend(u32::from(word)),
        Branch::Long(long) => long,
    }
}

/// Where a branch at `at` goes.
#[inline(always)]
pub fn target(word_at: u32, branch: Branch) -> u32
    ensures { result ≡ target_of word_at branch }
{
    word_at.wrapping_add(branch_displacement(branch))
}

/// Whether it is the condition F, which BSR has in a branch.
#[inline(always)]
pub fn is_call(condition: Condition) -> bool
    ensures { result ≡ is_call condition }
{
    match condition {
        Condition::False => true,
        Condition::True
        | Condition::High
        | Condition::LowOrSame
        | Condition::CarryClear
        | Condition::CarrySet
        | Condition::NotEqual
        | Condition::Equal
        | Condition::OverflowClear
        | Condition::OverflowSet
        | Condition::Plus
        | Condition::Minus
        | Condition::GreaterOrEqual
        | Condition::LessThan
        | Condition::GreaterThan
        | Condition::LessOrEqual => false,
    }
}

/// Pushes the next instruction's address and goes to the target.
#[inline(always)]
pub(crate) fn call<P: Port>(
    target: u32,
    space: Space,
    plain: &mut Plain,
    port: &mut P,
    ended: &mut Ended,
) -> Result<bool, Undone>
    ensures means { run P.bus (call_of target space plain.old) (P.world port.old)
        ≡ (performed_by result ended.new plain.new, P.world port.new) }
    ensures rest { P.rest port.new ≡ P.rest port.old }
{
    let next = plain.pc;
    plain.a[7] = plain.a[7].wrapping_sub(4);
    plain.pc = target;
    push(next, plain.a[7], space, plain, port, ended)?;
    Ok(true)
}

/// Goes to the target where the condition is met. The answer is whether it does.
#[inline(always)]
pub fn go_if_met(condition: Condition, target: u32, plain: &mut Plain) -> bool
    ensures { went result plain.new ≡ go_if_met_of condition target plain.old }
{
    let met = is_met(condition, plain.ccr);
    if met {
        plain.pc = target;
    }
    met
}

/// Bcc, with BRA for the condition T and BSR for F. The answer is whether it changed the flow of control.
#[inline(always)]
pub fn branch<P: Port>(
    condition: Condition,
    branch: Branch,
    stream: Stream,
    plain: &mut Plain,
    port: &mut P,
    ended: &mut Ended,
) -> Result<bool, Undone>
    ensures means { run P.bus (branch_of condition branch stream.at stream.space plain.old) (P.world port.old)
        ≡ (performed_by result ended.new plain.new, P.world port.new) }
    ensures rest { P.rest port.new ≡ P.rest port.old }
{
    let target = target(stream.at, branch);
    if is_call(condition) {
        call(target, stream.space, plain, port, ended)
    } else {
        Ok(go_if_met(condition, target, plain))
    }
}
