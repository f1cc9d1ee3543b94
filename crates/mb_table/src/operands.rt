//! What an instruction in short reads, writes and changes.

ghost use Rattle.std.specs.Prelude.{◌≡◌, IfSome};
ghost use Rattle.mb_instr.specs.declared.instruction.Instr.TheVariants as instr;
ghost use Rattle.mb_table.specs.Forms.{taking_of, immediate_of, putting_of, update_of, change_of};

use crate::forms::{Change, Putting, Taking, Update};
use mb_instr::{Arith, Ea, Instr, Move, ShiftKind, Size};

/// An instruction that reads an operand.
#[derive(Clone, Copy)]
pub(crate) struct Taken {
    pub(crate) taking: Taking,
    pub(crate) size: Size,
    pub(crate) ea: Ea,
}

/// An instruction that reads an immediate.
#[derive(Clone, Copy)]
pub(crate) struct Immediate {
    pub(crate) taking: Taking,
    pub(crate) size: Size,
    pub(crate) value: u32,
}

/// An instruction that writes to an operand which it does not read.
#[derive(Clone, Copy)]
pub(crate) struct Written {
    pub(crate) putting: Putting,
    pub(crate) size: Size,
    pub(crate) ea: Ea,
}

/// An instruction that reads an operand, changes it and writes it back.
#[derive(Clone, Copy)]
pub(crate) struct Updated {
    pub(crate) update: Update,
    pub(crate) size: Size,
    pub(crate) ea: Ea,
}

/// An instruction that changes a data register.
#[derive(Clone, Copy)]
pub(crate) struct Changed {
    pub(crate) change: Change,
    pub(crate) size: Size,
    pub(crate) register: u8,
}

/// The operand that an instruction reads, where it does so by itself.
#[rattlefmt::skip]
pub(crate) fn find_taken(instruction: &Instr) -> Option<Taken>
    ensures { IfSome result (λ it. instruction.now ≡ taking_of it.taking it.size it.ea) }
{
    match *instruction {
        Instr::Move(Move::Move { size, destination: Ea::Dn(n), source: ea }) =>
            Some(Taken { taking: Taking::Move(n), size, ea }),
        Instr::Move(Move::Movea { size, register: n, source: ea }) =>
            Some(Taken { taking: Taking::MoveAddress(n), size, ea }),
        Instr::Arith(Arith::Add { register: n, to_memory: false, size, ea }) =>
            Some(Taken { taking: Taking::Add(n), size, ea }),
        Instr::Arith(Arith::Sub { register: n, to_memory: false, size, ea }) =>
            Some(Taken { taking: Taking::Subtract(n), size, ea }),
        Instr::Arith(Arith::And { register: n, to_memory: false, size, ea }) =>
            Some(Taken { taking: Taking::And(n), size, ea }),
        Instr::Arith(Arith::Or { register: n, to_memory: false, size, ea }) =>
            Some(Taken { taking: Taking::Or(n), size, ea }),
        Instr::Arith(Arith::Cmp { register: n, size, ea }) => Some(Taken { taking: Taking::Compare(n), size, ea }),
        Instr::Arith(Arith::Adda { register: n, size, ea }) => Some(Taken { taking: Taking::AddAddress(n), size, ea }),
        Instr::Arith(Arith::Suba { register: n, size, ea }) =>
            Some(Taken { taking: Taking::SubtractAddress(n), size, ea }),
        Instr::Arith(Arith::Cmpa { register: n, size, ea }) =>
            Some(Taken { taking: Taking::CompareAddress(n), size, ea }),
        Instr::Arith(Arith::Tst { size, ea }) => Some(Taken { taking: Taking::Test, size, ea }),
        _ => None,
    }
}

/// The immediate that an instruction reads.
#[rattlefmt::skip]
pub(crate) fn find_immediate(instruction: &Instr) -> Option<Immediate>
    ensures { IfSome result (λ it. instruction.now ≡ immediate_of it.taking it.size it.value) }
{
    match *instruction {
        Instr::Move(Move::Move { size, destination: Ea::Dn(n), source: Ea::Imm(value) }) =>
            Some(Immediate { taking: Taking::Move(n), size, value }),
        Instr::Move(Move::Movea { size, register: n, source: Ea::Imm(value) }) =>
            Some(Immediate { taking: Taking::MoveAddress(n), size, value }),
        Instr::Arith(Arith::Addi { size, ea: Ea::Dn(n), immediate: value }) =>
            Some(Immediate { taking: Taking::Add(n), size, value }),
        Instr::Arith(Arith::Subi { size, ea: Ea::Dn(n), immediate: value }) =>
            Some(Immediate { taking: Taking::Subtract(n), size, value }),
        Instr::Arith(Arith::Andi { size, ea: Ea::Dn(n), immediate: value }) =>
            Some(Immediate { taking: Taking::And(n), size, value }),
        Instr::Arith(Arith::Ori { size, ea: Ea::Dn(n), immediate: value }) =>
            Some(Immediate { taking: Taking::Or(n), size, value }),
        Instr::Arith(Arith::Cmpi { size, ea: Ea::Dn(n), immediate: value }) =>
            Some(Immediate { taking: Taking::Compare(n), size, value }),
        Instr::Arith(Arith::Adda { register: n, size, ea: Ea::Imm(value) }) =>
            Some(Immediate { taking: Taking::AddAddress(n), size, value }),
        Instr::Arith(Arith::Suba { register: n, size, ea: Ea::Imm(value) }) =>
            Some(Immediate { taking: Taking::SubtractAddress(n), size, value }),
        Instr::Arith(Arith::Cmpa { register: n, size, ea: Ea::Imm(value) }) =>
            Some(Immediate { taking: Taking::CompareAddress(n), size, value }),
        _ => None,
    }
}

/// The operand that an instruction writes, where it does not read it.
#[rattlefmt::skip]
pub(crate) fn find_written(instruction: &Instr) -> Option<Written>
    ensures { IfSome result (λ it. instruction.now ≡ putting_of it.putting it.size it.ea) }
{
    match *instruction {
        Instr::Move(Move::Move { size, destination: ea, source: Ea::Dn(n) }) =>
            Some(Written { putting: Putting::Data(n), size, ea }),
        Instr::Move(Move::Move { size, destination: ea, source: Ea::An(n) }) =>
            Some(Written { putting: Putting::Address(n), size, ea }),
        Instr::Arith(Arith::Clr { size, ea }) => Some(Written { putting: Putting::Zero, size, ea }),
        _ => None,
    }
}

/// The operand that an instruction reads, changes and writes back.
#[rattlefmt::skip]
pub(crate) fn find_updated(instruction: &Instr) -> Option<Updated>
    ensures { IfSome result (λ it. instruction.now ≡ update_of it.update it.size it.ea) }
{
    match *instruction {
        Instr::Arith(Arith::Add { register: n, to_memory: true, size, ea }) =>
            Some(Updated { update: Update::Add(n), size, ea }),
        Instr::Arith(Arith::Sub { register: n, to_memory: true, size, ea }) =>
            Some(Updated { update: Update::Subtract(n), size, ea }),
        Instr::Arith(Arith::And { register: n, to_memory: true, size, ea }) =>
            Some(Updated { update: Update::And(n), size, ea }),
        Instr::Arith(Arith::Or { register: n, to_memory: true, size, ea }) =>
            Some(Updated { update: Update::Or(n), size, ea }),
        Instr::Arith(Arith::Eor { register: n, size, ea }) =>
            Some(Updated { update: Update::ExclusiveOr(n), size, ea }),
        Instr::Arith(Arith::Addq { quick, size, ea }) => Some(Updated { update: Update::AddQuick(quick), size, ea }),
        Instr::Arith(Arith::Subq { quick, size, ea }) =>
            Some(Updated { update: Update::SubtractQuick(quick), size, ea }),
        Instr::Arith(Arith::Neg { size, ea }) => Some(Updated { update: Update::Negate, size, ea }),
        Instr::Arith(Arith::Not { size, ea }) => Some(Updated { update: Update::Complement, size, ea }),
        _ => None,
    }
}

/// The data register that a shift or rotate by a count changes.
#[rattlefmt::skip]
fn find_shifted(instruction: &Arith) -> Option<Changed>
    ensures { IfSome result (λ it. instr.Arith instruction.now ≡ change_of it.change it.size it.register) }
{
    match *instruction {
        Arith::ShiftReg { count, is_left: true, size, by_register: false, kind: ShiftKind::Logical, register } =>
            Some(Changed { change: Change::ShiftLeft(count), size, register }),
        Arith::ShiftReg { count, is_left: false, size, by_register: false, kind: ShiftKind::Logical, register } =>
            Some(Changed { change: Change::ShiftRight(count), size, register }),
        Arith::ShiftReg { count, is_left: true, size, by_register: false, kind: ShiftKind::Arithmetic, register } =>
            Some(Changed { change: Change::ArithmeticLeft(count), size, register }),
        Arith::ShiftReg { count, is_left: false, size, by_register: false, kind: ShiftKind::Arithmetic, register } =>
            Some(Changed { change: Change::ArithmeticRight(count), size, register }),
        Arith::ShiftReg { count, is_left: true, size, by_register: false, kind: ShiftKind::Rotate, register } =>
            Some(Changed { change: Change::RotateLeft(count), size, register }),
        Arith::ShiftReg { count, is_left: false, size, by_register: false, kind: ShiftKind::Rotate, register } =>
            Some(Changed { change: Change::RotateRight(count), size, register }),
        _ => None,
    }
}

/// The data register that an instruction changes, where it does nothing else.
#[rattlefmt::skip]
pub(crate) fn find_changed(instruction: &Arith) -> Option<Changed>
    ensures { IfSome result (λ it. instr.Arith instruction.now ≡ change_of it.change it.size it.register) }
{
    match *instruction {
        Arith::Clr { size, ea: Ea::Dn(register) } => Some(Changed { change: Change::Clear, size, register }),
        Arith::Neg { size, ea: Ea::Dn(register) } => Some(Changed { change: Change::Negate, size, register }),
        Arith::Not { size, ea: Ea::Dn(register) } => Some(Changed { change: Change::Complement, size, register }),
        Arith::Addq { quick, size, ea: Ea::Dn(register) } =>
            Some(Changed { change: Change::AddQuick(quick), size, register }),
        Arith::Subq { quick, size, ea: Ea::Dn(register) } =>
            Some(Changed { change: Change::SubtractQuick(quick), size, register }),
        Arith::Eor { register: source, size, ea: Ea::Dn(register) } =>
            Some(Changed { change: Change::ExclusiveOr(source), size, register }),
        Arith::Addx { x: register, size, in_memory: false, y } =>
            Some(Changed { change: Change::AddExtended(y), size, register }),
        Arith::Subx { x: register, size, in_memory: false, y } =>
            Some(Changed { change: Change::SubtractExtended(y), size, register }),
        _ => find_shifted(instruction),
    }
}
