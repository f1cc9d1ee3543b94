//! Operands as they are written, by the words that they have.

ghost use Rattle.std.specs.Prelude.{◌≡◌, ◌≤◌};
ghost use Rattle.mb_alu.specs.Signs.{signed_of};
ghost use Rattle.mb_statement.specs.Modes.{target_of, width_of, scale_of, index_of, address_base, pc_base};
ghost use Rattle.mb_statement.specs.Modes.{indirection_of, word_in, long_in, value_from, displacement_in, outer_place};
ghost use Rattle.mb_statement.specs.Modes.{place_of, full_in, number_in, indexed_in, pc_indexed_in, special_in};
ghost use Rattle.mb_statement.specs.Modes.{mode_in};

use mb_instr::Size;
use mb_syntax::{Base, Displacement, FullForm, Index, Indirection, Mode, Scale, Width};

/// The low bytes that count at the size, in two's complement.
pub(crate) fn signed_of(size: Size, value: u32) -> i64
    ensures { result ≡ signed_of size value }
{
    let low = i64::from(size.low(value));
    let values: i64 = match size {
        Size::Byte => 0x100,
        Size::Word => 0x1_0000,
        Size::Long => 0x1_0000_0000,
    };
    if low >= values / 2 { low - values } else { low }
}

/// Where a displacement of the size leads from a place.
pub(crate) fn target_of(size: Size, place: u32, displacement: u32) -> i64
    ensures { result ≡ target_of size place displacement }
{
    i64::from(place.wrapping_add(size.sign_extend(displacement)))
}

fn width_of(bit: u16) -> Width
    ensures { result ≡ width_of bit }
{
    if bit == 0 { Width::Word } else { Width::Long }
}

fn scale_of(bits: u16) -> Scale
    ensures { result ≡ scale_of bits }
{
    match bits {
        0 => Scale::One,
        1 => Scale::Two,
        2 => Scale::Four,
        _ => Scale::Eight,
    }
}

/// `rnnn lkk. .... ....`.
fn index_of(is_dropped: bool, word: u16) -> Index
    ensures { result ≡ index_of is_dropped word }
{
    Index {
        is_address: word >> 15 == 1,
        register: (word >> 12 & 7) as u8,
        is_dropped,
        width: width_of(word >> 11 & 1),
        scale: scale_of(word >> 9 & 3),
    }
}

/// Bit 7 drops the base.
fn address_base(word: u16, n: u8) -> Base
    ensures { result ≡ address_base word n }
{
    if word >> 7 & 1 == 1 {
        Base::NoAddress(n)
    } else {
        Base::Address(n)
    }
}

fn pc_base(word: u16) -> Base
    ensures { result ≡ pc_base word }
{
    if word >> 7 & 1 == 1 {
        Base::NoPc
    } else {
        Base::Pc
    }
}

/// An index that is dropped stands before the place where the address is read.
fn indirection_of(word: u16) -> Indirection
    ensures { result ≡ indirection_of word }
{
    match word & 7 {
        0 => Indirection::Direct,
        1..=3 => Indirection::PreIndexed,
        _ => Indirection::PostIndexed,
    }
}

/// The word behind so many, 0 where there is none.
#[tactic(auto, unfolding(crate::specs::Modes::word_in))]
pub(crate) fn word_in(n: u8, words: &[u16]) -> u16
    ensures { result ≡ word_in n words.now }
{
    match words {
        [] => 0,
        [word, words @ ..] => if n == 0 { *word } else { word_in(n - 1, words) },
    }
}

pub(crate) fn long_in(n: u8, words: &[u16]) -> u32
    requires { n ≤ 9 }
    ensures { result ≡ long_in n words.now }
{
    u32::from(word_in(n, words)) << 16 | u32::from(word_in(n + 1, words))
}

/// A number of the size, or where it leads from a place.
fn value_from(place: Option<u32>, size: Size, value: u32) -> i64
    ensures { result ≡ value_from place size value }
{
    match place {
        None => signed_of(size, value),
        Some(place) => target_of(size, place, value),
    }
}

/// A displacement behind so many words, with the width that a field says.
fn displacement_in(
    place: Option<u32>,
    field: u16,
    n: u8,
    words: &[u16],
) -> Option<Displacement<i64>>
    requires { n ≤ 9 }
    ensures { result ≡ displacement_in place field n words.now }
{
    match field {
        2 => Some(Displacement {
            value: value_from(place, Size::Word, u32::from(word_in(n, words))),
            width: Width::Word,
        }),
        3 => Some(Displacement {
            value: value_from(place, Size::Long, long_in(n, words)),
            width: Width::Long,
        }),
        _ => None,
    }
}

/// Where the outer displacement stands, by the field of the first one.
fn outer_place(field: u16) -> u8
    ensures place { result ≡ outer_place field }
    ensures few { result ≤ 3 }
{
    match field {
        2 => 2,
        3 => 3,
        _ => 1,
    }
}

/// A target counts from the place of the first extension word.
fn place_of(place: u32, base: Base) -> Option<u32>
    ensures { result ≡ place_of place base }
{
    match base {
        Base::Pc => Some(place),
        Base::Address(_) | Base::NoAddress(_) | Base::NoPc => None,
    }
}

/// `rnnn lkk1 BIbb 0iii` and its displacements at the front, of which the first word stands at the place.
fn full_in(place: u32, base: Base, words: &[u16]) -> FullForm<i64>
    ensures { result ≡ full_in place base words.now }
{
    let word = word_in(0, words);
    let field = word >> 4 & 3;
    FullForm {
        displacement: displacement_in(place_of(place, base), field, 1, words),
        base,
        index: index_of(word >> 6 & 1 == 1, word),
        indirection: indirection_of(word),
        outer: displacement_in(None, word & 3, outer_place(field), words),
    }
}

/// The number of an immediate of the size. A byte has a whole word, which is `$FF80` to `$FFFF` where it is negative.
pub(crate) fn number_in(size: Size, words: &[u16]) -> i64
    ensures { result ≡ number_in size words.now }
{
    let word = u32::from(word_in(0, words));
    match size {
        Size::Byte if word >= 0xff80 => signed_of(Size::Word, word),
        Size::Byte | Size::Word => i64::from(word),
        Size::Long => i64::from(long_in(0, words)),
    }
}

fn indexed_in(place: u32, n: u8, words: &[u16]) -> Mode<i64>
    ensures { result ≡ indexed_in place n words.now }
{
    let word = word_in(0, words);
    if word >> 8 & 1 == 0 {
        Mode::Indexed {
            register: n,
            displacement: signed_of(Size::Byte, u32::from(word)),
            index: index_of(false, word),
        }
    } else {
        Mode::Full(full_in(place, address_base(word, n), words))
    }
}

fn pc_indexed_in(place: u32, words: &[u16]) -> Mode<i64>
    ensures { result ≡ pc_indexed_in place words.now }
{
    let word = word_in(0, words);
    if word >> 8 & 1 == 0 {
        Mode::PcIndexed {
            target: target_of(Size::Byte, place, u32::from(word)),
            index: index_of(false, word),
        }
    } else {
        Mode::Full(full_in(place, pc_base(word), words))
    }
}

/// An operand of mode 7, where the register's field says which mode it is.
fn special_in(size: Size, place: u32, n: u8, words: &[u16]) -> Mode<i64>
    ensures { result ≡ special_in size place n words.now }
{
    match n {
        0 => Mode::Absolute {
            address: i64::from(word_in(0, words)),
            width: Some(Width::Word),
        },
        1 => Mode::Absolute {
            address: i64::from(long_in(0, words)),
            width: Some(Width::Long),
        },
        2 => Mode::PcDisplaced {
            target: target_of(Size::Word, place, u32::from(word_in(0, words))),
        },
        3 => pc_indexed_in(place, words),
        _ => Mode::Immediate(number_in(size, words)),
    }
}

/// The operand of the size with the kind of mode and the register, whose extension words are at the front and stand at
/// the place.
pub(crate) fn mode_in(size: Size, place: u32, kind: u8, n: u8, words: &[u16]) -> Mode<i64>
    ensures { result ≡ mode_in size place kind n words.now }
{
    match kind {
        0 => Mode::Data(n),
        1 => Mode::Address(n),
        2 => Mode::Indirect(n),
        3 => Mode::PostIncrement(n),
        4 => Mode::PreDecrement(n),
        5 => Mode::Displaced {
            register: n,
            displacement: signed_of(Size::Word, u32::from(word_in(0, words))),
        },
        6 => indexed_in(place, n, words),
        _ => special_in(size, place, n, words),
    }
}
