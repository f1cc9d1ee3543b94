//! Addresses: steps, displacements and indices.

ghost use Rattle.std.specs.Prelude.{◌≡◌, ◌<◌};
ghost use Rattle.mb_ea.specs.Addresses.{increment_of, index_register, index_value, index_of, displacement_of};

use mb_instr::{Plain, Size};

/// Where an operand stands.
#[derive(Clone, Copy, Debug, PartialEq, Eq)]
pub enum Target {
    /// A register: 0 to 7 are D0 to D7, 8 to 15 are A0 to A7.
    Reg(u8),
    /// The logical address of the first byte.
    Memory(u32),
    /// The operand itself.
    Value(u32),
}

/// How far `(An)+` and `-(An)` step: A7 stays even.
#[inline(always)]
pub(crate) fn increment(size: Size, register: u8) -> u32
    ensures { result ≡ increment_of size register }
{
    if size == Size::Byte && register == 7 {
        2
    } else {
        u32::from(size.bytes())
    }
}

/// The index register that an extension word names.
#[inline(always)]
fn index_register(word: u16, plain: &Plain) -> u32
    ensures { result ≡ index_register word plain.now }
{
    let number = (word >> 12 & 7) as usize;
    if word >> 15 == 1 {
        plain.a[number]
    } else {
        plain.d[number]
    }
}

/// What of it counts.
#[inline(always)]
fn index_value(word: u16, plain: &Plain) -> u32
    ensures { result ≡ index_value word plain.now }
{
    let register = index_register(word, plain);
    if word >> 11 & 1 == 1 {
        register
    } else {
        Size::Word.sign_extend(register)
    }
}

/// The index that an extension word spells, scaled.
#[inline(always)]
pub fn index(word: u16, plain: &Plain) -> u32
    ensures { result ≡ index_of word plain.now }
{
    index_value(word, plain).wrapping_mul(1 << (word >> 9 & 3))
}

/// A full extension word's displacement as it counts, by the two bits that say its width.
#[inline(always)]
pub(crate) fn displacement(width: u16, value: u32) -> u32
    ensures { result ≡ displacement_of width value }
{
    if width == 2 {
        Size::Word.sign_extend(value)
    } else {
        value
    }
}
