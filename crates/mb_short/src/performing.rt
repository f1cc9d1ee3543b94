//! The instruction of a short form, carried out at once.

ghost use Rattle.std.specs.Prelude.{◌≡◌, ◌%◌, ◌^◌, ◌<◌, true, IsSome, IfSome, IfNone};
ghost use Rattle.mb_instr.specs.Codes.{IsInstr};
ghost use Rattle.mb_table.specs.Short.{meaning, meaning_with, meaning_with_long};
ghost use Rattle.mb_short.specs.Always.{asks_nothing, is_of_registers_by_parts};
ghost use Rattle.mb_short.specs.Changed.{changed_of, Differ, Follows};
ghost use Rattle.mb_short.specs.Taken.{Comes, LongComes, IsDone};

use crate::addresses::{load_absolute, load_from_counter, load_indexed, load_near};
use crate::branches::{branch, branch_far, turn};
use crate::changed::changed_by;
use crate::changing::change_register;
use crate::copying::{copy_near, copy_to_near};
use crate::exchanging::{exchange_data, test_bit};
use crate::following::{Follower, follow, values_of};
use crate::products::{divide_long, multiply_long};
use crate::putting::{put_absolute, put_indexed, put_memory, put_near};
use crate::registers::{perform_between_data, perform_in_address, perform_in_data};
use crate::stack::{call_far, call_near, link, return_from, unlink};
use crate::taking::{
    take_absolute, take_immediate, take_indexed, take_long, take_memory, take_near, take_register,
};
use crate::updating::{update_memory, update_near};
use mb_instr::{Plain, Size};
use mb_port::{Port, Space};
use mb_table::{Place, Putting, Short, Taking, is_brief, is_pair};

/// The word behind the first, where it is known at once.
#[inline(always)]
fn second_word<P: Port>(space: Space, plain: &Plain, port: &P) -> Option<u16>
    requires { plain.now.pc % 2 ≡ 0 }
    ensures comes { IfSome result (Comes P.bus space plain.now (P.world port.now)) }
    ensures range { IfSome result (λ word. word < 2 ^ 16) }
{
    port.quick_fetch(space, plain.pc.wrapping_add(2))
}

/// The long that stands behind the first word, where it is known at once.
#[inline(always)]
fn long_behind<P: Port>(space: Space, plain: &Plain, port: &P) -> Option<u32>
    requires { plain.now.pc % 2 ≡ 0 }
    ensures comes { IfSome result (LongComes P.bus space plain.now (P.world port.now)) }
    ensures range { IfSome result (λ value. value < 2 ^ 32) }
{
    let at = plain.pc.wrapping_add(2);
    let high = port.quick_fetch(space, at)?;
    let low = port.quick_fetch(space, at.wrapping_add(2))?;
    Some(u32::from(high) << 16 | u32::from(low))
}

/// What `perform_short` does, for the forms of three words.
#[rattlefmt::skip]
#[tactic(auto, using(crate::proofs::Goings::endings))]
#[inline(always)]
fn perform_triple<P: Port>(short: &Short, space: Space, plain: &mut Plain, port: &mut P) -> Option<bool>
    requires even { plain.old.pc % 2 ≡ 0 }
    requires valid { (value : _) → value < 2 ^ 32 → IfSome (meaning_with_long value short.now) IsInstr }
    ensures done { IfSome result (λ flow.
        IsDone P.bus short.now space plain.old (P.world port.old) flow plain.new (P.world port.new)) }
    ensures differ { IfSome result (λ flow. Differ (changed_of short.now) plain.old plain.new) }
    ensures undone { IfNone result (plain.new ≡ plain.old) }
    ensures same { IfNone result (P.world port.new ≡ P.world port.old) }
    ensures still { P.still (P.world port.new) ≡ P.still (P.world port.old) }
    ensures rest { P.rest port.new ≡ P.rest port.old }
{
    let value = long_behind(space, plain, port)?;
    match *short {
        Short::TakeImmediate { taking, size: Size::Long } => {
            take_long(taking, value, space, plain, port);
            Some(false)
        }
        Short::TakeAbsolute { taking, size } => take_absolute(taking, size, value, space, plain, port),
        Short::PutAbsolute { putting, size } => put_absolute(putting, size, value, space, plain, port),
        Short::AddressAbsolute { register } => {
            load_absolute(register, value, space, plain, port);
            Some(false)
        }
        _ => None,
    }
}

/// What `perform_short` does, for the forms of two words that come less often.
#[rattlefmt::skip]
#[tactic(auto, using(crate::proofs::Goings::endings))]
#[inline(always)]
fn perform_pair<P: Port>(short: &Short, space: Space, plain: &mut Plain, port: &mut P) -> Option<bool>
    requires even { plain.old.pc % 2 ≡ 0 }
    requires valid_with { (word : _) → word < 2 ^ 16 → IfSome (meaning_with word short.now) IsInstr }
    ensures done { IfSome result (λ flow.
        IsDone P.bus short.now space plain.old (P.world port.old) flow plain.new (P.world port.new)) }
    ensures differ { IfSome result (λ flow. Differ (changed_of short.now) plain.old plain.new) }
    ensures undone { IfNone result (plain.new ≡ plain.old) }
    ensures same { IfNone result (P.world port.new ≡ P.world port.old) }
    ensures still { P.still (P.world port.new) ≡ P.still (P.world port.old) }
    ensures rest { P.rest port.new ≡ P.rest port.old }
{
    let word = second_word(space, plain, port)?;
    match *short {
        Short::TakeNear { taking, size, base } => take_near(taking, size, base, word, space, plain, port),
        Short::TakeIndexed { taking, size, base } if is_brief(word) =>
            take_indexed(taking, size, base, word, space, plain, port),
        Short::PutIndexed { putting, size, base } if is_brief(word) =>
            put_indexed(putting, size, base, word, space, plain, port),
        Short::AddressIndexed { register, base } if is_brief(word) => {
            load_indexed(register, base, word, space, plain, port);
            Some(false)
        }
        Short::TakeImmediate { taking, size: Size::Byte } => {
            take_immediate(taking, Size::Byte, word, space, plain, port);
            Some(false)
        }
        Short::TakeImmediate { taking, size: Size::Word } => {
            take_immediate(taking, Size::Word, word, space, plain, port);
            Some(false)
        }
        Short::PutNear { putting, size, base } => put_near(putting, size, base, word, space, plain, port),
        Short::UpdateNear { update, size, base } => update_near(update, size, base, word, space, plain, port),
        Short::CopyNear { size, base, place } => copy_near(size, base, place, word, space, plain, port),
        Short::CopyToNear { size, source, base } => copy_to_near(size, source, base, word, space, plain, port),
        Short::DivideLong { source } if is_pair(word) => divide_long(source, word, space, plain, port),
        Short::MultiplyLong { source } if is_pair(word) => {
            multiply_long(source, word, space, plain, port);
            Some(false)
        }
        Short::TestBit { register } => {
            test_bit(register, word, space, plain, port);
            Some(false)
        }
        Short::AddressFromCounter { register } => {
            load_from_counter(register, word, space, plain, port);
            Some(false)
        }
        Short::AddressNear { register, base } => {
            load_near(register, base, word, space, plain, port);
            Some(false)
        }
        Short::CallFar => call_far(word, space, plain, port),
        Short::Link { register } => link(register, word, space, plain, port),
        _ => None,
    }
}

/// What `perform_short` does, for the forms that come less often.
#[rattlefmt::skip]
#[tactic(auto, using(crate::proofs::Goings::endings))]
#[inline(never)]
fn perform_rarer<P: Port>(short: &Short, space: Space, plain: &mut Plain, port: &mut P) -> Option<bool>
    requires even { plain.old.pc % 2 ≡ 0 }
    requires valid { IfSome (meaning short.now) IsInstr }
    requires valid_with { (word : _) → word < 2 ^ 16 → IfSome (meaning_with word short.now) IsInstr }
    requires valid_long { (value : _) → value < 2 ^ 32 → IfSome (meaning_with_long value short.now) IsInstr }
    ensures done { IfSome result (λ flow.
        IsDone P.bus short.now space plain.old (P.world port.old) flow plain.new (P.world port.new)) }
    ensures differ { IfSome result (λ flow. Differ (changed_of short.now) plain.old plain.new) }
    ensures undone { IfNone result (plain.new ≡ plain.old) }
    ensures same { IfNone result (P.world port.new ≡ P.world port.old) }
    ensures always { is_of_registers_by_parts short.now ≡ true → IsSome result }
    ensures still { P.still (P.world port.new) ≡ P.still (P.world port.old) }
    ensures rest { P.rest port.new ≡ P.rest port.old }
{
    match *short {
        Short::TakeRegister { taking, size, register } => {
            take_register(taking, size, register, space, plain, port);
            Some(false)
        }
        Short::TakeMemory { taking, size, place } => take_memory(taking, size, place, space, plain, port),
        Short::PutMemory { putting, size, place } => put_memory(putting, size, place, space, plain, port),
        Short::UpdateMemory { update, size, place } => update_memory(update, size, place, space, plain, port),
        Short::Change { change, size, register } => {
            change_register(change, size, register, space, plain, port);
            Some(false)
        }
        Short::ExchangeData { register, other } => {
            exchange_data(register, other, space, plain, port);
            Some(false)
        }
        Short::Return => return_from(space, plain, port),
        Short::Call { displacement } => call_near(displacement, space, plain, port),
        Short::Unlink { register } => unlink(register, space, plain, port),
        Short::TakeImmediate { size: Size::Long, .. } | Short::TakeAbsolute { .. } | Short::PutAbsolute { .. }
        | Short::AddressAbsolute { .. } => perform_triple(short, space, plain, port),
        _ => perform_pair(short, space, plain, port),
    }
}

/// The same, of which the follower is told.
#[inline(always)]
fn perform_followed<P: Port, F: Follower>(
    short: &Short,
    space: Space,
    plain: &mut Plain,
    port: &mut P,
    follower: &mut F,
) -> Option<bool>
    requires even { plain.old.pc % 2 ≡ 0 }
    requires valid { IfSome (meaning short.now) IsInstr }
    requires valid_with { (word : _) → word < 2 ^ 16 → IfSome (meaning_with word short.now) IsInstr }
    requires valid_long { (value : _) → value < 2 ^ 32 → IfSome (meaning_with_long value short.now) IsInstr }
    ensures done { IfSome result (λ flow.
        IsDone P.bus short.now space plain.old (P.world port.old) flow plain.new (P.world port.new)) }
    ensures follows { Follows F.follows follower.old plain.old → Follows F.follows follower.new plain.new }
    ensures undone { IfNone result (plain.new ≡ plain.old) }
    ensures same { IfNone result (P.world port.new ≡ P.world port.old) }
    ensures always { is_of_registers_by_parts short.now ≡ true → IsSome result }
    ensures still { P.still (P.world port.new) ≡ P.still (P.world port.old) }
    ensures rest { P.rest port.new ≡ P.rest port.old }
{
    let changed = changed_by(short);
    let before = values_of(changed, plain);
    let flow = perform_rarer(short, space, plain, port)?;
    follow(changed, before, plain, follower);
    Some(flow)
}

/// Carries out the instruction of a short form that stands at PC, where that is done at once: then the answer is
/// whether it changed the flow of control, and the follower was told what it changed. Else nothing has changed.
///
/// `Loop` names the place that calls it: the most frequent forms are compiled into it, where no other names the same.
#[rattlefmt::skip]
#[tactic(auto, using(crate::proofs::Goings::endings, crate::proofs::Followings::followings))]
#[inline(always)]
pub fn perform_short<P: Port, F: Follower, Loop>(
    short: &Short,
    space: Space,
    plain: &mut Plain,
    port: &mut P,
    follower: &mut F,
) -> Option<bool>
    requires even { plain.old.pc % 2 ≡ 0 }
    requires valid { IfSome (meaning short.now) IsInstr }
    requires valid_with { (word : _) → word < 2 ^ 16 → IfSome (meaning_with word short.now) IsInstr }
    requires valid_long { (value : _) → value < 2 ^ 32 → IfSome (meaning_with_long value short.now) IsInstr }
    ensures done { IfSome result (λ flow.
        IsDone P.bus short.now space plain.old (P.world port.old) flow plain.new (P.world port.new)) }
    ensures follows { Follows F.follows follower.old plain.old → Follows F.follows follower.new plain.new }
    ensures undone { IfNone result (plain.new ≡ plain.old) }
    ensures same { IfNone result (P.world port.new ≡ P.world port.old) }
    ensures always { asks_nothing short.now ≡ true → IsSome result }
    ensures still { P.still (P.world port.new) ≡ P.still (P.world port.old) }
    ensures rest { P.rest port.new ≡ P.rest port.old }
{
    match *short {
        Short::Unknown | Short::Other => None,
        Short::CopyLong { .. } | Short::AddLong { .. } | Short::SubtractLong { .. } | Short::AndLong { .. }
        | Short::OrLong { .. } | Short::ExclusiveOrLong { .. } | Short::CompareLong { .. }
        | Short::MultiplyUnsigned { .. } | Short::MultiplySigned { .. } =>
            perform_between_data::<_, _, Loop>(short, space, plain, port, follower),
        Short::MoveQuick { .. } | Short::ShiftRightLong { .. } | Short::AddQuickLong { .. }
        | Short::SubtractQuickLong { .. } | Short::TestLong { .. } | Short::Swap { .. } | Short::ExtendWord { .. } =>
            perform_in_data::<_, _, Loop>(short, space, plain, port, follower),
        Short::RaiseAddress { .. } | Short::LowerAddress { .. } =>
            perform_in_address(short, space, plain, port, follower),
        Short::LoadLong { register, base } => {
            let word = second_word(space, plain, port)?;
            let before = plain.d[register as usize];
            let flow = take_near(Taking::Move(register), Size::Long, base, word, space, plain, port)?;
            follower.data(register, before, plain);
            Some(flow)
        }
        Short::StoreLong { register, base } => {
            let word = second_word(space, plain, port)?;
            put_near(Putting::Data(register), Size::Long, base, word, space, plain, port)
        }
        Short::LoadLongUp { register, base } => {
            let (data, address) = (plain.d[register as usize], plain.a[base as usize]);
            let flow = take_memory(Taking::Move(register), Size::Long, Place::Up(base), space, plain, port)?;
            follower.data(register, data, plain);
            follower.address(base, address, plain);
            Some(flow)
        }
        Short::StoreLongUp { register, base } => {
            let before = plain.a[base as usize];
            let flow = put_memory(Putting::Data(register), Size::Long, Place::Up(base), space, plain, port)?;
            follower.address(base, before, plain);
            Some(flow)
        }
        Short::Branch { condition, displacement } => branch(condition, displacement, space, plain, port),
        Short::BranchFar { condition } => {
            let word = second_word(space, plain, port)?;
            branch_far(condition, word, space, plain, port)
        }
        Short::Loop { condition, register } => {
            let word = second_word(space, plain, port)?;
            let before = plain.d[register as usize];
            let flow = turn(condition, register, word, space, plain, port);
            follower.data(register, before, plain);
            Some(flow)
        }
        _ => perform_followed(short, space, plain, port, follower),
    }
}
