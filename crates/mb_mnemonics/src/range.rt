//! Numbers as operands have them, and how they are spelled.

ghost use Rattle.std.specs.Prelude.{◌≡◌, ◌<◌, ◌≤◌, ◌^◌, IfSome};
ghost use Rattle.mb_alu.specs.Signs.{modulo};
ghost use Rattle.mb_instr.specs.Sizes.{values_of};
ghost use Rattle.mb_mnemonics.specs.Ranges.{least, greatest, values, number, immediate_range, distance, displacement};
ghost use Rattle.mb_mnemonics.specs.Ranges.{is_reserved, branch};

use mb_instr::Size;

/// The numbers that an operand may have.
#[derive(Clone, Copy)]
pub enum Range {
    /// -128 to 255, in a word: -1 is `$FFFF`, 255 is `$00FF`.
    Byte,
    /// -32,768 to 65,535.
    Word,
    /// -2^31 to 2^32 - 1.
    Long,
    /// -128 to 127.
    Displacement8,
    /// -32,768 to 32,767.
    Displacement16,
    /// 1 to 8.
    Count,
    /// 0 to 15.
    Vector,
    /// A bit field's offset, 0 to 31.
    Offset,
    /// A bit field's width, 1 to 32, where 32 is spelled 0.
    Width,
}

impl Range {
    /// The least number.
    fn least(self) -> i64
        ensures { result ≡ least self }
    {
        match self {
            Range::Byte | Range::Displacement8 => -128,
            Range::Word | Range::Displacement16 => -0x8000,
            Range::Long => -0x8000_0000,
            Range::Count | Range::Width => 1,
            Range::Vector | Range::Offset => 0,
        }
    }

    /// The greatest number.
    fn greatest(self) -> i64
        ensures { result ≡ greatest self }
    {
        match self {
            Range::Byte => 0xff,
            Range::Word => 0xffff,
            Range::Long => 0xffff_ffff,
            Range::Displacement8 => 0x7f,
            Range::Displacement16 => 0x7fff,
            Range::Count => 8,
            Range::Vector => 15,
            Range::Offset => 31,
            Range::Width => 32,
        }
    }

    /// How many values its spelling has.
    fn values(self) -> u64
        ensures value { result ≡ values self }
        ensures some { 0 < result }
        ensures most { result ≤ 2 ^ 32 }
    {
        match self {
            Range::Displacement8 | Range::Count | Range::Vector => 1 << 8,
            Range::Byte | Range::Word | Range::Displacement16 => 1 << 16,
            Range::Long => 1 << 32,
            Range::Offset | Range::Width => 1 << 5,
        }
    }

    /// The range of an immediate of the size.
    pub(crate) fn of_immediate(size: Size) -> Range
        ensures { result ≡ immediate_range size }
    {
        match size {
            Size::Byte => Range::Byte,
            Size::Word => Range::Word,
            Size::Long => Range::Long,
        }
    }
}

/// The number below `values` that differs by a multiple of it.
fn modulo(values: u64, number: i64) -> u32
    requires some { 0 < values }
    requires most { values ≤ 2 ^ 32 }
    ensures value { result ≡ modulo values number }
    ensures small { result < values }
{
    number.rem_euclid(values as i64) as u32
}

/// A number of the range, as it is spelled: in two's complement, a byte in a whole word; none where it is out of the
/// range.
pub fn number(range: Range, value: i64) -> Option<u32>
    ensures value { result ≡ number range value }
    ensures small { IfSome result (λ n. n < values range) }
{
    if range.least() <= value && value <= range.greatest() {
        Some(modulo(range.values(), value))
    } else {
        None
    }
}

/// How far a target is behind a place, modulo 2^32.
fn distance(place: u32, target: i64) -> u32
    ensures { result ≡ distance place target }
{
    modulo(1 << 32, target).wrapping_sub(place)
}

/// A displacement of the size from the place to the target.
pub(crate) fn displacement(size: Size, place: u32, target: i64) -> Option<u32>
    ensures value { result ≡ displacement size place target }
    ensures small { IfSome result (λ d. d < values_of size) }
{
    let distance = distance(place, target);
    if size.sign_extend(distance) == distance {
        Some(size.low(distance))
    } else {
        None
    }
}

/// 0 and -1 in the first word of a branch say that words follow.
fn is_reserved(size: Size, displacement: u32) -> bool
    ensures { result ≡ is_reserved size displacement }
{
    size == Size::Byte && (displacement == 0 || displacement == 0xff)
}

/// The displacement of a branch whose first word stands at the address.
pub(crate) fn branch(size: Size, at: u32, target: i64) -> Option<u32>
    ensures value { result ≡ branch size at target }
    ensures small { IfSome result (λ d. d < values_of size) }
{
    let displacement = displacement(size, at.wrapping_add(2), target)?;
    if is_reserved(size, displacement) {
        None
    } else {
        Some(displacement)
    }
}
