//! Reads operands.

ghost use Rattle.std.specs.Prelude.{◌≡◌, ◌+◌, ◌-◌, ◌^◌, ◌<◌, ◌≤◌, IfSome, IsTrue, length, option_map};
ghost use Rattle.mb_syntax.specs.Code.{range_at, slash_at};
ghost use Rattle.mb_syntax.specs.Operands.{as_list, as_number, behind_mode, close_brace_at, colon_at, field_at};
ghost use Rattle.mb_syntax.specs.Operands.{field_number_at, general_of, behind_register, closed_register_at};
ghost use Rattle.mb_syntax.specs.Operands.{colon_open_at, indirect_pair_at, pair_behind, special_of};
ghost use Rattle.mb_syntax.specs.Operands.{special_or, is_end, is_range, list_at, mask_of, operand_among, operand_at};
ghost use Rattle.mb_syntax.specs.Operands.{operands_of, pair, place_at, range};
ghost use Rattle.mb_syntax.specs.Sums.{expression_at};
ghost use Rattle.mb_syntax.specs.Answers.{Gives, read_said, words_said};

use crate::expression::Expression;
use crate::fault::SyntaxFault;
use crate::mode::Mode;
use crate::mode_reading::mode_at;
use crate::operand::{BitField, FieldNumber, Operand};
use crate::register::Register;
use crate::sum::{comma_at, expression_at};
use crate::word::Word;
use std::alloc::Global;

/// D0 to D7 as 0 to 7, A0 to A7 as 8 to 15.
fn general_of(register: Register) -> Option<u8>
    ensures { result ≡ general_of register }
{
    match register {
        Register::Data(number) if number < 8 => Some(number),
        Register::Address(number) if number < 8 => Some(8 + number),
        _ => None,
    }
}

/// Ascending, and data or address registers alone.
fn is_range(from: u8, to: u8) -> bool
    ensures value { result ≡ is_range from to }
    ensures ascending { IsTrue result → from ≤ to }
    ensures few { IsTrue result → to < 16 }
{
    from <= to && (to < 8 || 8 <= from && to < 16)
}

/// A bit for each register of a range that ascends and has data or address registers alone.
fn mask_of(from: u8, to: u8) -> Option<u16>
    ensures { result ≡ mask_of from to }
{
    if !is_range(from, to) {
        return None;
    }
    Some(bits(from, to))
}

/// The bits `from` to `to`.
#[rattlefmt::skip]
#[tactic(auto, using(crate::proofs::Powers::range_below, crate::proofs::Powers::range_bits,
    crate::proofs::Powers::range_fits))]
fn bits(from: u8, to: u8) -> u16
    requires ascending { from ≤ to }
    requires few { to < 16 }
    ensures { result ≡ 2 ^ (to + 1) - 2 ^ from }
{
    ((2u32 << to) - (1u32 << from)) as u16
}

/// `Xn-Xm`.
fn range(first: Register, last: Register) -> Option<u16>
    ensures { result ≡ range first last }
{
    let from = general_of(first)?;
    let to = general_of(last)?;
    mask_of(from, to)
}

/// `Dn` or a number.
fn field_number_at(
    alloc: Global,
    words: &[Word],
) -> Result<(FieldNumber<Expression>, &[Word]), SyntaxFault>
    ensures { Gives read_said result (field_number_at words.now) }
{
    match words {
        [Word::Register(Register::Data(register), _), rest @ ..] => {
            Ok((FieldNumber::Data(*register), rest))
        }
        _ => number_at(alloc, words),
    }
}

fn number_at(
    alloc: Global,
    words: &[Word],
) -> Result<(FieldNumber<Expression>, &[Word]), SyntaxFault>
    ensures { Gives read_said result (option_map as_number (expression_at words.now)) }
{
    let (value, rest) = expression_at(alloc, words)?;
    Ok((FieldNumber::Number(value), rest))
}

fn colon_at(words: &[Word]) -> Option<&[Word]>
    ensures { option_map words_said result ≡ colon_at words.now }
{
    match words {
        [Word::Colon, rest @ ..] => Some(rest),
        _ => None,
    }
}

fn close_brace_at(words: &[Word]) -> Option<&[Word]>
    ensures { option_map words_said result ≡ close_brace_at words.now }
{
    match words {
        [Word::CloseBrace, rest @ ..] => Some(rest),
        _ => None,
    }
}

/// What stands behind `{`: `o:w}`.
fn field_at(alloc: Global, words: &[Word]) -> Result<(BitField<Expression>, &[Word]), SyntaxFault>
    ensures { Gives read_said result (field_at words.now) }
{
    let (offset, rest) = field_number_at(alloc, words)?;
    let Some(rest) = colon_at(rest) else {
        return Err(SyntaxFault::Syntax);
    };
    let (width, rest) = field_number_at(alloc, rest)?;
    let Some(rest) = close_brace_at(rest) else {
        return Err(SyntaxFault::Syntax);
    };
    Ok((BitField { offset, width }, rest))
}

/// `Dh:Dl`.
fn pair(first: Register, second: Register) -> Option<Operand<Expression>>
    ensures { result ≡ pair first second }
{
    match (first, second) {
        (Register::Data(first), Register::Data(second)) => Some(Operand::Pair(first, second)),
        _ => None,
    }
}

/// What stands behind `Dh:`.
fn pair_behind(first: Register, words: &[Word]) -> Option<(Operand<Expression>, &[Word])>
    ensures { option_map read_said result ≡ pair_behind first words.now }
{
    match words {
        [Word::Register(second, _), rest @ ..] => {
            let operand = pair(first, *second)?;
            Some((operand, rest))
        }
        _ => None,
    }
}

/// A register and `)`.
fn closed_register_at(words: &[Word]) -> Option<(u8, &[Word])>
    ensures { option_map read_said result ≡ closed_register_at words.now }
{
    match words {
        [Word::Register(register, _), Word::Close, rest @ ..] => {
            let number = general_of(*register)?;
            Some((number, rest))
        }
        _ => None,
    }
}

fn colon_open_at(words: &[Word]) -> Option<&[Word]>
    ensures { option_map words_said result ≡ colon_open_at words.now }
{
    match words {
        [Word::Colon, Word::Open, rest @ ..] => Some(rest),
        _ => None,
    }
}

/// What stands behind `(` in `(Rn):(Rn)`.
fn indirect_pair_at(words: &[Word]) -> Option<(Operand<Expression>, &[Word])>
    ensures { option_map read_said result ≡ indirect_pair_at words.now }
{
    let (first, rest) = closed_register_at(words)?;
    let rest = colon_open_at(rest)?;
    let (second, rest) = closed_register_at(rest)?;
    Some((Operand::IndirectPair(first, second), rest))
}

/// An addressing mode, or one with a bit field.
fn place_at(alloc: Global, words: &[Word]) -> Result<(Operand<Expression>, &[Word]), SyntaxFault>
    ensures { Gives read_said result (place_at words.now) }
{
    let (mode, rest) = mode_at(alloc, words)?;
    behind_mode(alloc, mode, rest)
}

/// A mode, and the bit field where one stands behind it.
fn behind_mode(
    alloc: Global,
    mode: Mode<Expression>,
    words: &[Word],
) -> Result<(Operand<Expression>, &[Word]), SyntaxFault>
    ensures { Gives read_said result (behind_mode (mode, words.now)) }
{
    match words {
        [Word::OpenBrace, rest @ ..] => {
            let (field, rest) = field_at(alloc, rest)?;
            Ok((Operand::Field { mode, field }, rest))
        }
        _ => Ok((Operand::Mode(mode), words)),
    }
}

/// An operand, and what stands behind it.
#[tactic(auto, unfolding(crate::specs::Operands::operand_at))]
fn operand_at(alloc: Global, words: &[Word]) -> Result<(Operand<Expression>, &[Word]), SyntaxFault>
    ensures { Gives read_said result (operand_at words.now) }
{
    match words {
        [Word::Text(text), rest @ ..] => Ok((Operand::Text(*text), rest)),
        [Word::Register(first, _), rest @ ..] => register_operand(alloc, words, *first, rest),
        [Word::Open, rest @ ..] => match indirect_pair_at(rest) {
            Some(found) => Ok(found),
            None => place_at(alloc, words),
        },
        _ => place_at(alloc, words),
    }
}

/// SR, CCR and the control registers.
fn special_of(register: Register) -> Option<Operand<Expression>>
    ensures { result ≡ special_of register }
{
    match register {
        Register::Sr => Some(Operand::Sr),
        Register::Ccr => Some(Operand::Ccr),
        Register::Control(control) => Some(Operand::Control(control)),
        _ => None,
    }
}

/// An operand that begins with a register, by all its words and those behind the register.
fn register_operand<'a>(
    alloc: Global,
    all: &'a [Word],
    first: Register,
    words: &'a [Word],
) -> Result<(Operand<Expression>, &'a [Word]), SyntaxFault>
    ensures { Gives read_said result (special_or (special_of first) all.entry.now first words.entry.now) }
{
    match special_of(first) {
        Some(operand) => Ok((operand, words)),
        None => behind_register(alloc, all, first, words),
    }
}

/// A pair, a register list or a mode.
fn behind_register<'a>(
    alloc: Global,
    all: &'a [Word],
    first: Register,
    words: &'a [Word],
) -> Result<(Operand<Expression>, &'a [Word]), SyntaxFault>
    ensures { Gives read_said result (behind_register all.entry.now first words.entry.now) }
{
    match words {
        [Word::Colon, rest @ ..] => match pair_behind(first, rest) {
            Some(found) => Ok(found),
            None => Err(SyntaxFault::Syntax),
        },
        [Word::Minus | Word::Slash, ..] => listed_at(all),
        _ => place_at(alloc, all),
    }
}

/// A register list.
fn listed_at(words: &[Word]) -> Result<(Operand<Expression>, &[Word]), SyntaxFault>
    ensures { Gives read_said result (option_map as_list (list_at words.now)) }
{
    let Some((mask, rest)) = list_at(words) else {
        return Err(SyntaxFault::Syntax);
    };
    Ok((Operand::List(mask), rest))
}

/// A range of registers, and what stands behind it.
fn range_at(words: &[Word]) -> Option<(u16, &[Word])>
    ensures given { option_map read_said result ≡ range_at words.now }
    ensures shorter { IfSome result (λ (_, behind). length behind.now < length words.now) }
{
    match words {
        [
            Word::Register(first, _),
            Word::Minus,
            Word::Register(last, _),
            rest @ ..,
        ] => {
            let mask = range(*first, *last)?;
            Some((mask, rest))
        }
        [Word::Register(only, _), rest @ ..] => {
            let mask = range(*only, *only)?;
            Some((mask, rest))
        }
        _ => None,
    }
}

fn slash_at(words: &[Word]) -> Option<&[Word]>
    ensures given { option_map words_said result ≡ slash_at words.now }
    ensures shorter { IfSome result (λ rest. length rest.now < length words.now) }
{
    match words {
        [Word::Slash, rest @ ..] => Some(rest),
        _ => None,
    }
}

/// Registers and ranges of registers, parted by `/`.
#[rattlefmt::skip]
#[tactic(auto, using(crate::proofs::Lists::list_more, crate::proofs::Lists::list_ends,
    crate::proofs::Lists::list_fails))]
fn list_at(mut words: &[Word]) -> Option<(u16, &[Word])>
    ensures { option_map read_said result ≡ list_at words.entry.now }
{
    let mut mask = 0;
    'lists: loop {
        let (more, rest) = range_at(words)?;
        mask |= more;
        match slash_at(rest) {
            Some(later) => words = later,
            None => return Some((mask, rest)),
        }
    }
}

/// In CINV and CPUSH an operand may be the name of caches.
fn operand_among(
    alloc: Global,
    takes_caches: bool,
    words: &[Word],
) -> Result<(Operand<Expression>, &[Word]), SyntaxFault>
    ensures { Gives read_said result (operand_among takes_caches words.now) }
{
    match words {
        [Word::Cache(caches, _), rest @ ..] if takes_caches => Ok((Operand::Caches(*caches), rest)),
        _ => operand_at(alloc, words),
    }
}

/// Nothing but a blank is left.
fn is_end(words: &[Word]) -> bool
    ensures { result ≡ is_end words.now }
{
    matches!(words, [] | [Word::Blank])
}

/// The operands up to the line's end, parted by commas.
#[rattlefmt::skip]
#[tactic(auto, using(crate::proofs::Lists::more_operands, crate::proofs::Lists::last_operand,
    crate::proofs::Lists::no_operand, crate::proofs::Lists::no_comma, crate::proofs::Lists::none_left))]
pub(crate) fn operands_of(
    alloc: Global,
    takes_caches: bool,
    mut words: &[Word],
) -> Result<Vec<Operand<Expression>>, SyntaxFault>
    ensures { Gives (λ operands. operands.items) result
        (operands_of (length words.entry.now) takes_caches words.entry.now) }
{
    let mut operands = Vec::new(alloc);
    let mut most = words.len();
    while most > 0 {
        let (operand, rest) = operand_among(alloc, takes_caches, words)?;
        operands.push(operand)?;
        if is_end(rest) {
            return Ok(operands);
        }
        let Some(place) = comma_at(rest) else {
            return Err(SyntaxFault::Syntax);
        };
        words = place;
        most -= 1;
    }
    Err(SyntaxFault::Syntax)
}
