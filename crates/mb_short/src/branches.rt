//! Branches and loops.

ghost use Rattle.std.specs.Prelude.{◌≡◌, ◌<◌, not, is_some, IfSome, IfNone};
ghost use Rattle.mb_instr.specs.declared.kinds.Branch.TheVariants as displacement_in;
ghost use Rattle.mb_instr.specs.declared.instruction.Instr.TheVariants as instr;
ghost use Rattle.mb_instr.specs.declared.instruction.Flow.TheVariants as flow_row;
ghost use Rattle.def_instructions.specs.Flow.{is_call};
ghost use Rattle.mb_short.specs.declared.changed.Changed.TheVariants.{Nothing, Data};
ghost use Rattle.mb_short.specs.Changed.{Differ};
ghost use Rattle.mb_short.specs.Taken.{Goes};

use mb_instr::{Branch, Condition, Plain};
use mb_ops_flow::{dbcc, go_if_met, is_call, target};
use mb_port::{Port, Space};

/// A branch that stands at PC with its displacement in the first word. BSR is left to its row.
#[inline(always)]
#[tactic(auto, using(crate::proofs::Flows::flows, crate::proofs::Changes::turns))]
pub(crate) fn branch<P: Port>(
    condition: Condition,
    displacement: u8,
    space: Space,
    plain: &mut Plain,
    port: &P,
) -> Option<bool>
    ensures done { IfSome result (λ flow.
        Goes P.bus (instr.Flow (flow_row.Bcc condition (displacement_in.Byte displacement))) 1 space plain.old
        (P.world port.now) flow plain.new (P.world port.now)) }
    ensures differ { IfSome result (λ flow. Differ Nothing plain.old plain.new) }
    ensures undone { IfNone result (plain.new ≡ plain.old) }
    ensures always { is_some result ≡ not (is_call condition) }
{
    if is_call(condition) {
        return None;
    }
    let word_at = plain.pc.wrapping_add(2);
    plain.pc = word_at;
    let target = target(word_at, Branch::Byte(displacement));
    Some(go_if_met(condition, target, plain))
}

/// The same with its displacement in the second word.
#[inline(always)]
#[tactic(auto, using(crate::proofs::Flows::flows, crate::proofs::Changes::turns))]
pub(crate) fn branch_far<P: Port>(
    condition: Condition,
    displacement: u16,
    space: Space,
    plain: &mut Plain,
    port: &P,
) -> Option<bool>
    ensures done { IfSome result (λ flow.
        Goes P.bus (instr.Flow (flow_row.Bcc condition (displacement_in.Word displacement))) 2 space plain.old
        (P.world port.now) flow plain.new (P.world port.now)) }
    ensures differ { IfSome result (λ flow. Differ Nothing plain.old plain.new) }
    ensures undone { IfNone result (plain.new ≡ plain.old) }
    ensures always { is_some result ≡ not (is_call condition) }
{
    if is_call(condition) {
        return None;
    }
    let word_at = plain.pc.wrapping_add(2);
    plain.pc = plain.pc.wrapping_add(4);
    let target = target(word_at, Branch::Word(displacement));
    Some(go_if_met(condition, target, plain))
}

/// DBcc that stands at PC.
#[inline(always)]
#[tactic(auto, using(crate::proofs::Flows::flows, crate::proofs::Changes::turns))]
pub(crate) fn turn<P: Port>(
    condition: Condition,
    register: u8,
    displacement: u16,
    space: Space,
    plain: &mut Plain,
    port: &P,
) -> bool
    requires { register < 8 }
    ensures means { Goes P.bus (instr.Flow (flow_row.Dbcc condition register displacement)) 2
        space plain.old (P.world port.now) result plain.new (P.world port.now) }
    ensures differ { Differ (Data register) plain.old plain.new }
{
    let word_at = plain.pc.wrapping_add(2);
    plain.pc = plain.pc.wrapping_add(4);
    dbcc(condition, register, displacement, word_at, plain)
}
