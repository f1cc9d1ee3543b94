//! What operations make of values, and of the condition codes.

ghost use Rattle.std.specs.Prelude.{◌≡◌};
ghost use Rattle.mb_ops_arith.specs.Changes.{moved_of, sum_of, extended_of, operation_of, change_of};

use crate::bits::change_bit;
use crate::decimals::negate_decimal;
use crate::locked::test_and_set;
use mb_alu::{Flagged, LogicKind, add, logic, shift, sub};
use mb_instr::{BitKind, ShiftKind, Size};

/// A sum or a difference.
#[derive(Clone, Copy)]
pub enum Sum {
    Add,
    /// The destination less the source.
    Subtract,
}

impl Sum {
    /// An address moved up or down, without condition codes.
    #[inline(always)]
    pub(crate) fn moved(self, address: u32, by: u32) -> u32
        ensures { result ≡ moved_of self address by }
    {
        match self {
            Sum::Add => address.wrapping_add(by),
            Sum::Subtract => address.wrapping_sub(by),
        }
    }

    /// The result, with the condition codes after it.
    #[inline(always)]
    fn apply(self, size: Size, source: u32, destination: u32, ccr: u8) -> Flagged
        ensures { result ≡ sum_of self size source destination ccr }
    {
        match self {
            Sum::Add => add(size, source, destination, ccr, false),
            Sum::Subtract => sub(size, source, destination, ccr, false),
        }
    }

    /// The same with X; Z is only cleared.
    #[inline(always)]
    fn apply_extended(self, size: Size, source: u32, destination: u32, ccr: u8) -> Flagged
        ensures { result ≡ extended_of self size source destination ccr }
    {
        match self {
            Sum::Add => add(size, source, destination, ccr, true),
            Sum::Subtract => sub(size, source, destination, ccr, true),
        }
    }
}

/// An operation of a source and a destination.
#[derive(Clone, Copy)]
pub enum Operation {
    Sum(Sum),
    /// With X, as a part of a longer sum or difference.
    Extended(Sum),
    Logic(LogicKind),
}

impl Operation {
    /// The result, with the condition codes after it.
    #[inline(always)]
    pub(crate) fn apply(self, size: Size, source: u32, destination: u32, ccr: u8) -> Flagged
        ensures { result ≡ operation_of self size source destination ccr }
    {
        match self {
            Operation::Sum(sum) => sum.apply(size, source, destination, ccr),
            Operation::Extended(sum) => sum.apply_extended(size, source, destination, ccr),
            Operation::Logic(kind) => logic(kind, size, source, destination, ccr),
        }
    }
}

/// What becomes of an operand that is read and written back.
#[derive(Clone, Copy)]
pub(crate) enum Change {
    /// The operation of this source and the operand.
    By(Operation, u32),
    /// 0 less the operand.
    Negate,
    /// 0 less the operand and X.
    NegateExtended,
    Complement,
    /// A word shifted by one bit.
    ShiftWord { kind: ShiftKind, is_left: bool },
    /// 0 less the decimal digits of the byte and X.
    NegateDecimal,
    /// Bit 7 of the byte is set.
    TestAndSet,
    /// What the row does to the bit of that number.
    Bit(BitKind, u32),
}

impl Change {
    /// The changed value, with the condition codes after it.
    #[inline(always)]
    pub(crate) fn apply(self, size: Size, value: u32, ccr: u8) -> Flagged
        ensures { result ≡ change_of self size value ccr }
    {
        match self {
            Change::By(operation, source) => operation.apply(size, source, value, ccr),
            Change::Negate => sub(size, value, 0, ccr, false),
            Change::NegateExtended => sub(size, value, 0, ccr, true),
            Change::Complement => logic(LogicKind::Not, size, value, 0, ccr),
            Change::ShiftWord { kind, is_left } => shift(kind, is_left, Size::Word, 1, value, ccr),
            Change::NegateDecimal => negate_decimal(value, ccr),
            Change::TestAndSet => test_and_set(value, ccr),
            Change::Bit(kind, number) => change_bit(kind, number, size, value, ccr),
        }
    }
}
