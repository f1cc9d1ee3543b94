//! Shifts and rotates.
//!
//! An operand is shifted by all but the last bit at once, and then by one bit, so that the last bit
//! that leaves is seen.

ghost use Rattle.std.specs.Prelude.{◌≡◌, ◌<◌, ◌≤◌, ◌*◌, ◌/◌, ◌^◌, Bool, IsTrue};
ghost use Rattle.mb_instr.specs.Sizes.{bits_of, values_of, low_of};
ghost use Rattle.mb_alu.specs.AtOnce.{exchanged, turned, halved, has_room, rotates};
ghost use Rattle.mb_alu.specs.Shifts.{leaving, entering, by_one, extend_after, unshifted, shifted, shift_flagged, shift_of};

use crate::bits::{cut, half, low, sign};
use crate::conditions::{Conditions, Flagged};
use mb_instr::{ShiftKind, Size};

/// An operand under way.
#[derive(Clone, Copy)]
struct Shifting {
    value: u32,
    x: bool,
    /// The last bit that left.
    c: bool,
    /// Whether the sign has changed.
    v: bool,
}

#[inline(always)]
fn shifted_left(size: Size, value: u32, count: u8) -> u32
    requires { count < 64 }
    ensures { result ≡ low_of size (value * 2 ^ count) }
{
    if count < 32 {
        cut(size, u64::from(value) << count)
    } else {
        0
    }
}

#[inline(always)]
fn shifted_right(value: u32, count: u8) -> u32
    requires { count < 64 }
    ensures { result ≡ value / 2 ^ count }
{
    (u64::from(value) >> count) as u32
}

/// Shifted to the right, with the sign entering.
#[inline(always)]
fn shifted_right_signed(size: Size, value: u32, count: u8) -> u32
    requires counted { count < 64 }
    requires low { value < values_of size }
    ensures { result ≡ halved size count value }
{
    if sign(size, value) {
        let ones = low(size, u32::MAX);
        ones - shifted_right(ones - value, count)
    } else {
        shifted_right(value, count)
    }
}

/// A word of `bits` bits whose lowest `lower` bits change places with the others.
#[inline(always)]
fn exchange(word: u64, bits: u8, lower: u8) -> u64
    requires bits { bits ≤ 33 }
    requires lower { lower ≤ bits }
    requires word { word < 2 ^ bits }
    ensures value { result ≡ exchanged bits lower word }
    ensures bound { result < 2 ^ bits }
{
    let low = word & ((1 << lower) - 1);
    let high = word >> lower;
    low << (bits - lower) | high
}

/// A word of `bits` bits turned by `count` bits.
#[inline(always)]
fn turn(left: bool, word: u64, bits: u8, count: u8) -> u64
    requires some { 0 < bits }
    requires bits { bits ≤ 33 }
    requires word { word < 2 ^ bits }
    ensures value { result ≡ turned left bits count word }
    ensures bound { result < 2 ^ bits }
{
    if left {
        exchange(word, bits, bits - count % bits)
    } else {
        exchange(word, bits, count % bits)
    }
}

#[inline(always)]
fn bits(size: Size) -> u8
    ensures { result ≡ bits_of size }
{
    match size {
        Size::Byte => 8,
        Size::Word => 16,
        Size::Long => 32,
    }
}

#[inline(always)]
fn rotated(left: bool, size: Size, value: u32, count: u8) -> u32
    requires { value < values_of size }
    ensures { result ≡ turned left (bits_of size) count value }
{
    turn(left, u64::from(value), bits(size), count) as u32
}

/// The operand and X after they were turned as one word, with X on top.
#[inline(always)]
fn rotated_with_extend(left: bool, size: Size, value: u32, x: bool, count: u8) -> (u32, bool)
    requires { value < values_of size }
    ensures value { result.0 ≡ (shifted ShiftKind.RotateExtended left size count value x).value }
    ensures extend { result.1 ≡ (shifted ShiftKind.RotateExtended left size count value x).x }
{
    let word = u64::from(x) << bits(size) | u64::from(value);
    let turned = turn(left, word, bits(size) + 1, count);
    (cut(size, turned), turned >> bits(size) != 0)
}

/// The operand after so many shifts, and after a rotate X too.
#[inline(always)]
fn shifted_far(
    kind: ShiftKind,
    left: bool,
    size: Size,
    value: u32,
    x: bool,
    count: u8,
) -> (u32, bool)
    requires counted { count < 64 }
    requires low { value < values_of size }
    ensures value { result.0 ≡ (shifted kind left size count value x).value }
    ensures extend { IsTrue (rotates kind) → result.1 ≡ (shifted kind left size count value x).x }
{
    match kind {
        ShiftKind::Arithmetic if left => (shifted_left(size, value, count), x),
        ShiftKind::Arithmetic => (shifted_right_signed(size, value, count), x),
        ShiftKind::Logical if left => (shifted_left(size, value, count), x),
        ShiftKind::Logical => (shifted_right(value, count), x),
        ShiftKind::RotateExtended => rotated_with_extend(left, size, value, x, count),
        ShiftKind::Rotate => (rotated(left, size, value, count), x),
    }
}

/// Whether the signed operand times 2 to the power of `count` is in the signed range.
#[inline(always)]
fn has_room(size: Size, value: u32, count: u8) -> bool
    requires counted { count < 64 }
    requires low { value < values_of size }
    ensures { result ≡ has_room size count value }
{
    let half = u64::from(half(size));
    let value = u64::from(value);
    if value >= half {
        2 * half - value <= half >> count
    } else {
        value <= (half - 1) >> count
    }
}

/// V: an arithmetic shift to the left through which the sign changes.
#[inline(always)]
fn overflow(kind: ShiftKind, left: bool, size: Size, value: u32, count: u8) -> bool
    requires counted { count < 64 }
    requires low { value < values_of size }
    ensures { (x : Bool) → result ≡ (shifted kind left size count value x).v }
{
    match kind {
        ShiftKind::Arithmetic => left && !has_room(size, value, count),
        ShiftKind::Logical | ShiftKind::RotateExtended | ShiftKind::Rotate => false,
    }
}

#[inline(always)]
fn leaves(left: bool, size: Size, value: u32) -> bool
    ensures { result ≡ leaving left size value }
{
    if left {
        sign(size, value)
    } else {
        value & 1 == 1
    }
}

#[inline(always)]
fn enters(kind: ShiftKind, left: bool, size: Size, x: bool, value: u32) -> bool
    ensures { result ≡ entering kind left size x value }
{
    match kind {
        ShiftKind::Arithmetic => !left && sign(size, value),
        ShiftKind::Logical => false,
        ShiftKind::RotateExtended => x,
        ShiftKind::Rotate => leaves(left, size, value),
    }
}

#[inline(always)]
fn extend_after(kind: ShiftKind, x: bool, leaves: bool) -> bool
    ensures { result ≡ extend_after kind x leaves }
{
    match kind {
        ShiftKind::Rotate => x,
        ShiftKind::Arithmetic | ShiftKind::Logical | ShiftKind::RotateExtended => leaves,
    }
}

#[inline(always)]
fn shift_by_one(left: bool, size: Size, enters: bool, value: u32) -> u32
    requires { value < values_of size }
    ensures means { result ≡ by_one left size enters value }
    ensures bound { result < values_of size }
{
    if left {
        cut(size, 2 * u64::from(value) + u64::from(enters))
    } else {
        u32::from(enters) * half(size) + (value >> 1)
    }
}

impl Shifting {
    /// The operand before it is shifted.
    #[inline(always)]
    fn start(kind: ShiftKind, value: u32, x: bool) -> Shifting
        ensures { result ≡ unshifted kind value x }
    {
        Shifting {
            value,
            x,
            c: match kind {
                ShiftKind::RotateExtended => x,
                _ => false,
            },
            v: false,
        }
    }

    /// The operand after at least one shift.
    #[inline(always)]
    fn end(kind: ShiftKind, left: bool, size: Size, value: u32, x: bool, count: u8) -> Shifting
        requires some { 0 < count }
        requires counted { count < 64 }
        requires low { value < values_of size }
        ensures means { result ≡ shifted kind left size count value x }
        ensures bound { result.value < values_of size }
    {
        let (last, extend) = shifted_far(kind, left, size, value, x, count - 1);
        let carry = leaves(left, size, last);
        Shifting {
            value: shift_by_one(left, size, enters(kind, left, size, extend, last), last),
            x: extend_after(kind, extend, carry),
            c: carry,
            v: overflow(kind, left, size, value, count),
        }
    }

    #[inline(always)]
    fn flagged(self, size: Size) -> Flagged
        ensures { result ≡ shift_flagged size self }
    {
        let codes = Conditions {
            x: self.x,
            n: sign(size, self.value),
            z: low(size, self.value) == 0,
            v: self.v,
            c: self.c,
        };
        Flagged {
            value: self.value,
            ccr: codes.ccr(),
        }
    }
}

/// `x` shifted or rotated by `count` bits. C is the last bit that leaves; where none does it is 0, or X
/// for a rotate with X. V says that the sign changed on the way of an arithmetic shift to the left.
#[inline(always)]
pub fn shift(kind: ShiftKind, left: bool, size: Size, count: u8, x: u32, ccr: u8) -> Flagged
    requires { count < 64 }
    ensures means { result ≡ shift_of kind left size count x ccr }
    ensures bound { result.value < values_of size }
{
    let extend = Conditions::of(ccr).x;
    let value = low(size, x);
    if count == 0 {
        return Shifting::start(kind, value, extend).flagged(size);
    }
    Shifting::end(kind, left, size, value, extend, count).flagged(size)
}
