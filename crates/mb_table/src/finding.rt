//! The short form of an instruction.

ghost use Rattle.std.specs.Prelude.{◌≡◌, IfSome};
ghost use Rattle.mb_instr.specs.declared.instruction.Instr.TheVariants as instr;
ghost use Rattle.mb_decode.specs.declared.front.Decoded.TheVariants.{Whole};
ghost use Rattle.mb_table.specs.Forms.{taking_of, putting_of, update_of};
ghost use Rattle.mb_table.specs.Short.{meaning, meaning_with, meaning_with_long};
ghost use Rattle.mb_table.specs.Short.{IsOfOneWord, IsOfTwoWords, IsOfThreeWords};

use crate::forms::{Change, Place, Register};
use crate::operands::{
    Changed, Immediate, Taken, Updated, Written, find_changed, find_immediate, find_taken,
    find_updated, find_written,
};
use crate::short::{Short, is_brief, is_pair};
use mb_decode::Decoded;
use mb_instr::{
    Arith, BitKind, Branch, Condition, Ea, Exchange, Ext, Flow, Instr, Move, ShiftKind, Size,
};

/// The form of what moves, where it has one of its own.
#[rattlefmt::skip]
fn short_move(instruction: &Move) -> Short
    ensures means { IfSome (meaning result) (λ i. instr.Move instruction.now ≡ i) }
    ensures alone { IsOfOneWord result }
{
    match *instruction {
        Move::Moveq { register, immediate } => Short::MoveQuick { register, immediate },
        Move::Move { size: Size::Long, destination: Ea::Dn(register), source: Ea::Dn(source) } =>
            Short::CopyLong { register, source },
        Move::Move { size: Size::Long, destination: Ea::Dn(register), source: Ea::Post(base) } =>
            Short::LoadLongUp { register, base },
        Move::Move { size: Size::Long, destination: Ea::Post(base), source: Ea::Dn(register) } =>
            Short::StoreLongUp { register, base },
        Move::Swap { register } => Short::Swap { register },
        Move::Exg { x: register, kind: Exchange::Data, y: other } => Short::ExchangeData { register, other },
        Move::Scc { condition, ea: Ea::Dn(register) } =>
            Short::Change { change: Change::Set(condition), size: Size::Byte, register },
        Move::Unlk { register } => Short::Unlink { register },
        _ => Short::Other,
    }
}

/// The form of what computes a long of two data registers, where it has one of its own.
#[rattlefmt::skip]
fn short_long(instruction: &Arith) -> Short
    ensures means { IfSome (meaning result) (λ i. instr.Arith instruction.now ≡ i) }
    ensures alone { IsOfOneWord result }
{
    match *instruction {
        Arith::Add { register, to_memory: false, size: Size::Long, ea: Ea::Dn(source) } =>
            Short::AddLong { register, source },
        Arith::Sub { register, to_memory: false, size: Size::Long, ea: Ea::Dn(source) } =>
            Short::SubtractLong { register, source },
        Arith::And { register, to_memory: false, size: Size::Long, ea: Ea::Dn(source) } =>
            Short::AndLong { register, source },
        Arith::Or { register, to_memory: false, size: Size::Long, ea: Ea::Dn(source) } =>
            Short::OrLong { register, source },
        Arith::Eor { register: source, size: Size::Long, ea: Ea::Dn(register) } =>
            Short::ExclusiveOrLong { register, source },
        Arith::Cmp { register, size: Size::Long, ea: Ea::Dn(source) } => Short::CompareLong { register, source },
        Arith::MulW { register, is_signed: false, ea: Ea::Dn(source) } =>
            Short::MultiplyUnsigned { register, source },
        Arith::MulW { register, is_signed: true, ea: Ea::Dn(source) } => Short::MultiplySigned { register, source },
        _ => Short::Other,
    }
}

/// The form of what changes or tests one register, where it has one of its own.
#[rattlefmt::skip]
fn short_unary(instruction: &Arith) -> Short
    ensures means { IfSome (meaning result) (λ i. instr.Arith instruction.now ≡ i) }
    ensures alone { IsOfOneWord result }
{
    match *instruction {
        Arith::ShiftReg {
            count, is_left: false, size: Size::Long, by_register: false, kind: ShiftKind::Logical, register,
        } => Short::ShiftRightLong { register, count },
        Arith::Addq { quick, size: Size::Long, ea: Ea::Dn(register) } => Short::AddQuickLong { register, quick },
        Arith::Subq { quick, size: Size::Long, ea: Ea::Dn(register) } => Short::SubtractQuickLong { register, quick },
        Arith::Addq { quick, size, ea: Ea::An(register) } => Short::RaiseAddress { size, register, quick },
        Arith::Subq { quick, size, ea: Ea::An(register) } => Short::LowerAddress { size, register, quick },
        Arith::Tst { size: Size::Long, ea: Ea::Dn(register) } => Short::TestLong { register },
        Arith::ExtL { register } => Short::ExtendWord { register },
        _ => Short::Other,
    }
}

/// The form of what computes.
fn short_arith(instruction: &Arith) -> Short
    ensures means { IfSome (meaning result) (λ i. instr.Arith instruction.now ≡ i) }
    ensures alone { IsOfOneWord result }
{
    match short_long(instruction) {
        Short::Other => {}
        found => return found,
    }
    match short_unary(instruction) {
        Short::Other => {}
        found => return found,
    }
    match find_changed(instruction) {
        Some(
            Changed {
                change,
                size,
                register,
            },
        ) => Short::Change {
            change,
            size,
            register,
        },
        None => Short::Other,
    }
}

/// The form of what goes elsewhere.
#[rattlefmt::skip]
fn short_flow(instruction: &Flow) -> Short
    ensures means { IfSome (meaning result) (λ i. instr.Flow instruction.now ≡ i) }
    ensures alone { IsOfOneWord result }
{
    match *instruction {
        Flow::Bcc { condition: Condition::False, displacement: Branch::Byte(displacement) } =>
            Short::Call { displacement },
        Flow::Bcc { condition, displacement: Branch::Byte(displacement) } => Short::Branch { condition, displacement },
        Flow::Rts => Short::Return,
        _ => Short::Other,
    }
}

/// The form of what reads an operand that needs no further word.
#[rattlefmt::skip]
fn take_alone(it: &Taken) -> Short
    ensures means { IfSome (meaning result) (λ i. taking_of it.now.taking it.now.size it.now.ea ≡ i) }
    ensures alone { IsOfOneWord result }
{
    let (taking, size) = (it.taking, it.size);
    match it.ea {
        Ea::Dn(n) => Short::TakeRegister { taking, size, register: Register::Data(n) },
        Ea::An(n) => Short::TakeRegister { taking, size, register: Register::Address(n) },
        Ea::Ind(n) => Short::TakeMemory { taking, size, place: Place::At(n) },
        Ea::Post(n) => Short::TakeMemory { taking, size, place: Place::Up(n) },
        Ea::Pre(n) => Short::TakeMemory { taking, size, place: Place::Down(n) },
        _ => Short::Other,
    }
}

/// The form of what writes to an operand that needs no further word.
#[rattlefmt::skip]
fn put_alone(it: &Written) -> Short
    ensures means { IfSome (meaning result) (λ i. putting_of it.now.putting it.now.size it.now.ea ≡ i) }
    ensures alone { IsOfOneWord result }
{
    let (putting, size) = (it.putting, it.size);
    match it.ea {
        Ea::Ind(n) => Short::PutMemory { putting, size, place: Place::At(n) },
        Ea::Post(n) => Short::PutMemory { putting, size, place: Place::Up(n) },
        Ea::Pre(n) => Short::PutMemory { putting, size, place: Place::Down(n) },
        _ => Short::Other,
    }
}

/// The form of what changes an operand that needs no further word.
#[rattlefmt::skip]
fn update_alone(it: &Updated) -> Short
    ensures means { IfSome (meaning result) (λ i. update_of it.now.update it.now.size it.now.ea ≡ i) }
    ensures alone { IsOfOneWord result }
{
    let (update, size) = (it.update, it.size);
    match it.ea {
        Ea::Ind(n) => Short::UpdateMemory { update, size, place: Place::At(n) },
        Ea::Post(n) => Short::UpdateMemory { update, size, place: Place::Up(n) },
        Ea::Pre(n) => Short::UpdateMemory { update, size, place: Place::Down(n) },
        _ => Short::Other,
    }
}

/// The form of an instruction that has none of its own, by its operand.
fn short_by_operand(instruction: &Instr) -> Short
    ensures means { IfSome (meaning result) (λ i. instruction.now ≡ i) }
    ensures alone { IsOfOneWord result }
{
    if let Some(it) = find_taken(instruction) {
        return take_alone(&it);
    }
    if let Some(it) = find_written(instruction) {
        return put_alone(&it);
    }
    match find_updated(instruction) {
        Some(it) => update_alone(&it),
        None => Short::Other,
    }
}

/// The form of an instruction, where it has one of its own or changes a register alone.
fn short_by_family(instruction: &Instr) -> Short
    ensures means { IfSome (meaning result) (λ i. instruction.now ≡ i) }
    ensures alone { IsOfOneWord result }
{
    match instruction {
        Instr::Move(it) => short_move(it),
        Instr::Arith(it) => short_arith(it),
        Instr::Flow(it) => short_flow(it),
        Instr::System(_) => Short::Other,
    }
}

/// The form of an instruction of one word.
fn short_alone(instruction: &Instr) -> Short
    ensures means { IfSome (meaning result) (λ i. instruction.now ≡ i) }
    ensures alone { IsOfOneWord result }
{
    match short_by_family(instruction) {
        Short::Other => short_by_operand(instruction),
        found => found,
    }
}

/// The short form of what a first word begins with by itself.
pub(crate) fn short_of(found: &Decoded) -> Short
    ensures means { IfSome (meaning result) (λ i. found.now ≡ Whole i 1) }
    ensures alone { IsOfOneWord result }
{
    match found {
        Decoded::Whole(instruction, 1) => short_alone(instruction),
        _ => Short::Other,
    }
}

/// The form of what has one of its own with each second word.
#[rattlefmt::skip]
fn short_pair(second: u16, instruction: &Instr) -> Short
    ensures with { IfSome (meaning_with second result) (λ i. instruction.now ≡ i) }
    ensures pair { IsOfTwoWords second result }
{
    match *instruction {
        Instr::Move(Move::Move { size: Size::Long, destination: Ea::Dn(register), source: Ea::Disp(base, d) })
            if d == second => Short::LoadLong { register, base },
        Instr::Move(Move::Move { size: Size::Long, destination: Ea::Disp(base, d), source: Ea::Dn(register) })
            if d == second => Short::StoreLong { register, base },
        Instr::Move(Move::Lea { register, ea: Ea::Disp(base, d) })
            if d == second => Short::AddressNear { register, base },
        Instr::Move(Move::Lea { register, ea: Ea::PcDisp(d) }) if d == second => Short::AddressFromCounter { register },
        Instr::Move(Move::Move { size, destination: Ea::Disp(base, d), source: Ea::Ind(source) })
            if d == second => Short::CopyToNear { size, source, base },
        Instr::Arith(Arith::BitImm { kind: BitKind::Test, ea: Ea::Dn(register), word })
            if word == second => Short::TestBit { register },
        Instr::Arith(Arith::DivL { ea: Ea::Dn(source), word })
            if word == second && is_pair(second) => Short::DivideLong { source },
        Instr::Arith(Arith::MulL { ea: Ea::Dn(source), word })
            if word == second && is_pair(second) => Short::MultiplyLong { source },
        Instr::Move(Move::LinkW { register, displacement })
            if displacement == second => Short::Link { register },
        Instr::Flow(Flow::Bcc { condition: Condition::False, displacement: Branch::Word(d) })
            if d == second => Short::CallFar,
        Instr::Flow(Flow::Bcc { condition, displacement: Branch::Word(d) })
            if d == second => Short::BranchFar { condition },
        Instr::Flow(Flow::Dbcc { condition, register, displacement })
            if displacement == second => Short::Loop { condition, register },
        _ => Short::Other,
    }
}

/// The form of what moves an operand that the second word displaces to one that needs no further word.
#[rattlefmt::skip]
fn copy_near(second: u16, instruction: &Instr) -> Short
    ensures with { IfSome (meaning_with second result) (λ i. instruction.now ≡ i) }
    ensures pair { IsOfTwoWords second result }
{
    let Instr::Move(Move::Move { size, destination, source: Ea::Disp(base, d) }) = *instruction else {
        return Short::Other;
    };
    match destination {
        Ea::Ind(n) if d == second => Short::CopyNear { size, base, place: Place::At(n) },
        Ea::Post(n) if d == second => Short::CopyNear { size, base, place: Place::Up(n) },
        Ea::Pre(n) if d == second => Short::CopyNear { size, base, place: Place::Down(n) },
        _ => Short::Other,
    }
}

/// The form of what reads an immediate that the second word is.
#[rattlefmt::skip]
fn take_immediate(second: u16, instruction: &Instr) -> Short
    ensures with { IfSome (meaning_with second result) (λ i. instruction.now ≡ i) }
    ensures pair { IsOfTwoWords second result }
{
    match find_immediate(instruction) {
        Some(Immediate { taking, size: Size::Byte, value }) if value == u32::from(second) =>
            Short::TakeImmediate { taking, size: Size::Byte },
        Some(Immediate { taking, size: Size::Word, value }) if value == u32::from(second) =>
            Short::TakeImmediate { taking, size: Size::Word },
        _ => Short::Other,
    }
}

/// The form of an instruction that reads or writes an operand which the second word, a brief one, extends, or takes its
/// address.
#[rattlefmt::skip]
fn indexed_by_operand(second: u16, instruction: &Instr) -> Short
    ensures with { IfSome (meaning_with second result) (λ i. instruction.now ≡ i) }
    ensures pair { IsOfTwoWords second result }
{
    if !is_brief(second) {
        return Short::Other;
    }
    match *instruction {
        Instr::Move(Move::Lea { register, ea: Ea::Index(base, Ext::Brief(d)) }) if d == second =>
            return Short::AddressIndexed { register, base },
        _ => {}
    }
    match find_taken(instruction) {
        Some(Taken { taking, size, ea: Ea::Index(base, Ext::Brief(d)) }) if d == second =>
            return Short::TakeIndexed { taking, size, base },
        _ => {}
    }
    match find_written(instruction) {
        Some(Written { putting, size, ea: Ea::Index(base, Ext::Brief(d)) }) if d == second =>
            Short::PutIndexed { putting, size, base },
        _ => Short::Other,
    }
}

/// The form of an instruction that reads, writes or changes an operand which the second word displaces.
#[rattlefmt::skip]
fn near_by_operand(second: u16, instruction: &Instr) -> Short
    ensures with { IfSome (meaning_with second result) (λ i. instruction.now ≡ i) }
    ensures pair { IsOfTwoWords second result }
{
    match find_taken(instruction) {
        Some(Taken { taking, size, ea: Ea::Disp(base, d) }) if d == second =>
            return Short::TakeNear { taking, size, base },
        _ => {}
    }
    match find_written(instruction) {
        Some(Written { putting, size, ea: Ea::Disp(base, d) }) if d == second =>
            return Short::PutNear { putting, size, base },
        _ => {}
    }
    match find_updated(instruction) {
        Some(Updated { update, size, ea: Ea::Disp(base, d) }) if d == second =>
            Short::UpdateNear { update, size, base },
        _ => Short::Other,
    }
}

/// The short form of a first word that is this instruction with the second.
pub(crate) fn short_with(second: u16, instruction: &Instr) -> Short
    ensures with { IfSome (meaning_with second result) (λ i. instruction.now ≡ i) }
    ensures pair { IsOfTwoWords second result }
{
    match short_pair(second, instruction) {
        Short::Other => {}
        found => return found,
    }
    match copy_near(second, instruction) {
        Short::Other => {}
        found => return found,
    }
    match take_immediate(second, instruction) {
        Short::Other => {}
        found => return found,
    }
    match indexed_by_operand(second, instruction) {
        Short::Other => near_by_operand(second, instruction),
        found => found,
    }
}

/// The form of an instruction that reads or writes an operand at this absolute address.
#[rattlefmt::skip]
fn absolute_by_operand(address: u32, instruction: &Instr) -> Short
    ensures with { IfSome (meaning_with_long address result) (λ i. instruction.now ≡ i) }
    ensures triple { IsOfThreeWords result }
{
    match find_taken(instruction) {
        Some(Taken { taking, size, ea: Ea::AbsL(a) }) if a == address => return Short::TakeAbsolute { taking, size },
        _ => {}
    }
    match find_written(instruction) {
        Some(Written { putting, size, ea: Ea::AbsL(a) }) if a == address => Short::PutAbsolute { putting, size },
        _ => Short::Other,
    }
}

/// The short form of a first word that is this instruction with the long which the second word and the third are.
#[rattlefmt::skip]
pub(crate) fn short_with_long(value: u32, instruction: &Instr) -> Short
    ensures with { IfSome (meaning_with_long value result) (λ i. instruction.now ≡ i) }
    ensures triple { IsOfThreeWords result }
{
    match *instruction {
        Instr::Move(Move::Lea { register, ea: Ea::AbsL(a) }) if a == value =>
            return Short::AddressAbsolute { register },
        _ => {}
    }
    match find_immediate(instruction) {
        Some(Immediate { taking, size: Size::Long, value: found }) if found == value =>
            Short::TakeImmediate { taking, size: Size::Long },
        _ => absolute_by_operand(value, instruction),
    }
}
