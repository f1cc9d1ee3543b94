//! Operands of words, by the patterns of the table.

ghost use Rattle.std.specs.Prelude.{◌≡◌, ◌≤◌};
ghost use Rattle.mb_instr.specs.Control.{control_of};
ghost use Rattle.mb_statement.specs.Statements as statements;
ghost use Rattle.mb_statement.specs.Answers.{front_said};

use crate::modes::{long_in, mode_in, number_in, signed_of, target_of, word_in};
use mb_instr::{Caches, ControlRegister, Size};
use mb_mnemonics::{Pattern, Place, Range};
use mb_syntax::{BitField, FieldNumber, Mode, Operand, Width};

fn data(n: u8) -> Operand<i64>
    ensures { result ≡ statements.data_operand n }
{
    Operand::Mode(Mode::Data(n))
}

fn address(n: u8) -> Operand<i64>
    ensures { result ≡ statements.address_operand n }
{
    Operand::Mode(Mode::Address(n))
}

/// 0 to 7 are D0 to D7, 8 to 15 are A0 to A7.
fn register(n: u8) -> Operand<i64>
    ensures { result ≡ statements.register n }
{
    if n < 8 { data(n) } else { address(n - 8) }
}

fn immediate(value: i64) -> Operand<i64>
    ensures { result ≡ statements.immediate value }
{
    Operand::Mode(Mode::Immediate(value))
}

/// A list of registers among the first `n`; one alone is no list.
#[tactic(auto, unfolding(crate::specs::Statements::one_among))]
fn one_among(mask: u16, n: u8) -> Operand<i64>
    requires { n ≤ 16 }
    ensures { result ≡ statements.one_among mask n }
{
    if n == 0 {
        Operand::List(mask)
    } else if mask == 1 << (n - 1) {
        register(n - 1)
    } else {
        one_among(mask, n - 1)
    }
}

fn field_number(is_register: bool, n: u8, value: u8) -> FieldNumber<i64>
    ensures { result ≡ statements.field_number is_register n value }
{
    if is_register {
        FieldNumber::Data(n)
    } else {
        FieldNumber::Number(i64::from(value))
    }
}

/// `0nnn Oooo ooWw wwww`; a width of 32 is spelled 0.
fn field_of(word: u16) -> BitField<i64>
    ensures { result ≡ statements.field_of word }
{
    let offset = (word >> 6 & 31) as u8;
    let width = (word & 31) as u8;
    BitField {
        offset: field_number(word >> 11 & 1 == 1, (word >> 6 & 7) as u8, offset),
        width: field_number(
            word >> 5 & 1 == 1,
            (word & 7) as u8,
            if width == 0 { 32 } else { width },
        ),
    }
}

/// The control register with a code. A code that no register has stands as a number.
fn control_operand(code: u16) -> Operand<i64>
    ensures { result ≡ statements.control_operand (control_of code) code }
{
    match ControlRegister::of(code) {
        Some(register) => Operand::Control(register),
        None => immediate(i64::from(code)),
    }
}

/// The first word and the two behind it.
#[derive(Clone, Copy)]
pub(crate) struct Front {
    pub(crate) first: u16,
    pub(crate) second: u16,
    pub(crate) third: u16,
}

pub(crate) fn front_of(words: &[u16]) -> Front
    ensures { front_said result ≡ statements.front_of words.now }
{
    Front {
        first: word_in(0, words),
        second: word_in(1, words),
        third: word_in(2, words),
    }
}

/// The number of a register at its place in the first word or in one behind it.
fn register_at(place: Place, first: u16, word: u16) -> u8
    ensures { result ≡ statements.register_at place first word }
{
    let bits = match place {
        Place::X => first >> 9,
        Place::Y => first,
        Place::Upper => word >> 12,
        Place::Middle => word >> 6,
        Place::Lower | Place::Both => word,
    };
    (bits & 7) as u8
}

/// A number in the first word: 8 is spelled 0, and a byte has its sign.
fn quick_in(range: Range, first: u16) -> i64
    ensures { result ≡ statements.quick_in range first }
{
    match range {
        Range::Count => match first >> 9 & 7 {
            0 => 8,
            count => i64::from(count),
        },
        Range::Byte => signed_of(Size::Byte, u32::from(first)),
        _ => i64::from(first & 15),
    }
}

/// A displacement of the size: in the first word, the word behind it, or in words of its own.
fn reach_in(size: Size, front: Front, own: &[u16]) -> u32
    ensures { result ≡ statements.reach_in size (front_said front) own.now }
{
    match size {
        Size::Byte => u32::from(front.first & 0xff),
        Size::Word => u32::from(front.second),
        Size::Long => long_in(0, own),
    }
}

/// The operand in bits 5 to 0 of the first word.
fn source_in(size: Size, here: u32, front: Front, own: &[u16]) -> Mode<i64>
    ensures { result ≡ statements.source_in size here (front_said front) own.now }
{
    let mode = (front.first >> 3 & 7) as u8;
    mode_in(size, here, mode, (front.first & 7) as u8, own)
}

/// MOVE's destination.
fn destination_in(size: Size, here: u32, front: Front, own: &[u16]) -> Mode<i64>
    ensures { result ≡ statements.destination_in size here (front_said front) own.now }
{
    let mode = (front.first >> 6 & 7) as u8;
    mode_in(size, here, mode, (front.first >> 9 & 7) as u8, own)
}

/// The operand of a pattern in an instruction at an address, by its front and by the words that are the operand's own,
/// which stand here.
#[rattlefmt::skip]
pub(crate) fn operand_in(
    pattern: Pattern, size: Size, at: u32, here: u32, front: Front, own: &[u16],
) -> Operand<i64>
    ensures { result ≡ statements.operand_in pattern size at here (front_said front) own.now }
{
    let Front { first, second, third } = front;
    match pattern {
        Pattern::Mode(_) | Pattern::Memory(_) | Pattern::DataMode =>
            Operand::Mode(source_in(size, here, front, own)),
        Pattern::Destination(_) => Operand::Mode(destination_in(size, here, front, own)),
        Pattern::FieldMode(_) =>
            Operand::Field { mode: source_in(size, here, front, own), field: field_of(second) },
        Pattern::Data(place) => data(register_at(place, first, second)),
        Pattern::Address(place) => address(register_at(place, first, second)),
        Pattern::Register(_) => register((second >> 12) as u8),
        Pattern::Indirect(place) => Operand::Mode(Mode::Indirect(register_at(place, first, second))),
        Pattern::PostIncrement(place) => Operand::Mode(Mode::PostIncrement(register_at(place, first, second))),
        Pattern::PreDecrement(place) => Operand::Mode(Mode::PreDecrement(register_at(place, first, second))),
        Pattern::Immediate => immediate(number_in(size, own)),
        Pattern::Quick(range) => immediate(quick_in(range, first)),
        Pattern::WordNumber => immediate(i64::from(second)),
        Pattern::Distance(reach) => immediate(signed_of(reach, reach_in(reach, front, own))),
        Pattern::Target(reach) => {
            let address = target_of(reach, at.wrapping_add(2), reach_in(reach, front, own));
            Operand::Mode(Mode::Absolute { address, width: None })
        }
        Pattern::RegisterList => one_among(second, 16),
        Pattern::ReversedList => one_among(second.reverse_bits(), 16),
        Pattern::Displaced => {
            let displacement = signed_of(Size::Word, u32::from(second));
            Operand::Mode(Mode::Displaced { register: (first & 7) as u8, displacement })
        }
        Pattern::Absolute => {
            Operand::Mode(Mode::Absolute { address: i64::from(long_in(0, own)), width: Some(Width::Long) })
        }
        Pattern::Sr => Operand::Sr,
        Pattern::Ccr => Operand::Ccr,
        Pattern::Usp => Operand::Control(ControlRegister::Usp),
        Pattern::Control => control_operand(second & 0xfff),
        Pattern::Pair(high, low) =>
            Operand::Pair(register_at(high, first, second), register_at(low, first, second)),
        Pattern::Pairs(place) => Operand::Pair(register_at(place, first, second), register_at(place, first, third)),
        Pattern::IndirectPairs => Operand::IndirectPair((second >> 12) as u8, (third >> 12) as u8),
        Pattern::Caches => Operand::Caches(Caches::of((first >> 6 & 3) as u8)),
    }
}
