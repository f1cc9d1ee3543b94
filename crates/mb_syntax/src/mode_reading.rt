//! Reads addressing modes.

ghost use Rattle.std.specs.Prelude.{◌≡◌, Some, option_map};
ghost use Rattle.mb_syntax.specs.Sums.{expression_at};
ghost use Rattle.mb_syntax.specs.Modes.{absolute, base_part, index_part, immediate, base_at, base_of, asks_full};
ghost use Rattle.mb_syntax.specs.Modes.{brief_of, close_at, close_square_at, direct_at, direct_mode, displacement_of};
ghost use Rattle.mb_syntax.specs.Modes.{full, group_at, index_at, index_behind, index_behind_brackets};
ghost use Rattle.mb_syntax.specs.Modes.{index_register, index_width, indirect_at, mode_at, optional, outer_at};
ghost use Rattle.mb_syntax.specs.Modes.{part_place, post_indexed, read_at, scale_at, scale_of, sized_at, stepped};
ghost use Rattle.mb_syntax.specs.Modes.{width_at};
ghost use Rattle.mb_syntax.specs.Answers.{Gives, read_said, words_said};

use crate::expression::Expression;
use crate::fault::SyntaxFault;
use crate::mode::{Base, Displacement, FullForm, Index, Indirection, Mode, Scale, Width};
use crate::register::Register;
use crate::statement::SizeLetter;
use crate::sum::{comma_at, expression_at};
use crate::word::Word;
use std::alloc::Global;

/// `e`, `e.W` or `e.L`.
#[derive(Drop)]
pub(crate) struct SizedSum {
    pub(crate) value: Expression,
    pub(crate) width: Option<Width>,
}

/// A register as an index.
#[derive(Clone, Copy)]
struct IndexRegister {
    is_address: bool,
    register: u8,
    is_dropped: bool,
}

/// The parts of a form in parentheses or brackets.
#[derive(Drop)]
struct Group {
    displacement: Option<SizedSum>,
    base: Option<Base>,
    index: Option<Index>,
}

/// A dropped register of number 0.
const NO_INDEX: Index = Index {
    is_address: false,
    register: 0,
    is_dropped: true,
    width: Width::Word,
    scale: Scale::One,
};

/// `.W` or `.L`.
fn width_at(words: &[Word]) -> Option<(Width, &[Word])>
    ensures { option_map read_said result ≡ width_at words.now }
{
    match words {
        [Word::Dot, Word::Letter(SizeLetter::Word, _), rest @ ..] => Some((Width::Word, rest)),
        [Word::Dot, Word::Letter(SizeLetter::Long, _), rest @ ..] => Some((Width::Long, rest)),
        _ => None,
    }
}

/// `e`, `e.W` or `e.L`.
pub(crate) fn sized_at(alloc: Global, words: &[Word]) -> Result<(SizedSum, &[Word]), SyntaxFault>
    ensures { Gives read_said result (sized_at words.now) }
{
    let (value, rest) = expression_at(alloc, words)?;
    match width_at(rest) {
        Some((width, rest)) => Ok((
            SizedSum {
                value,
                width: Some(width),
            },
            rest,
        )),
        None => Ok((SizedSum { value, width: None }, rest)),
    }
}

/// A long where it has no width of its own.
fn displacement_of(sized: SizedSum) -> Displacement<Expression>
    ensures { result ≡ displacement_of sized }
{
    Displacement {
        value: sized.value,
        width: sized.width.unwrap_or(Width::Long),
    }
}

fn scale_of(number: u32) -> Option<Scale>
    ensures { result ≡ scale_of number }
{
    match number {
        1 => Some(Scale::One),
        2 => Some(Scale::Two),
        4 => Some(Scale::Four),
        8 => Some(Scale::Eight),
        _ => None,
    }
}

/// `*k`, which may be left out.
fn scale_at(words: &[Word]) -> Option<(Scale, &[Word])>
    ensures { option_map read_said result ≡ scale_at words.now }
{
    match words {
        [Word::Star, Word::Number(number), rest @ ..] => {
            let scale = scale_of(*number)?;
            Some((scale, rest))
        }
        [Word::Star, ..] => None,
        _ => Some((Scale::One, words)),
    }
}

fn index_register(register: Register) -> Option<IndexRegister>
    ensures { result ≡ index_register register }
{
    let (is_address, register, is_dropped) = match register {
        Register::Data(register) => (false, register, false),
        Register::Address(register) => (true, register, false),
        Register::NoData(register) => (false, register, true),
        Register::NoAddress(register) => (true, register, true),
        _ => return None,
    };
    Some(IndexRegister {
        is_address,
        register,
        is_dropped,
    })
}

/// A register that is dropped may go without a width.
fn index_width(is_dropped: bool, words: &[Word]) -> Option<(Width, &[Word])>
    ensures { option_map read_said result ≡ index_width is_dropped words.now }
{
    match width_at(words) {
        Some(found) => Some(found),
        None if is_dropped => Some((Width::Word, words)),
        None => None,
    }
}

/// `Xn.W*k` or `Xn.L*k`.
fn index_at(words: &[Word]) -> Option<(Index, &[Word])>
    ensures { option_map read_said result ≡ index_at words.now }
{
    match words {
        [Word::Register(register, _), rest @ ..] => index_behind(*register, rest),
        _ => None,
    }
}

/// An index whose register stands before the words.
fn index_behind(register: Register, words: &[Word]) -> Option<(Index, &[Word])>
    ensures { option_map read_said result ≡ index_behind register words.now }
{
    let found = index_register(register)?;
    let (width, rest) = index_width(found.is_dropped, words)?;
    let (scale, rest) = scale_at(rest)?;
    let index = Index {
        is_address: found.is_address,
        register: found.register,
        is_dropped: found.is_dropped,
        width,
        scale,
    };
    Some((index, rest))
}

fn base_of(register: Register) -> Option<Base>
    ensures { result ≡ base_of register }
{
    match register {
        Register::Address(number) => Some(Base::Address(number)),
        Register::Pc => Some(Base::Pc),
        Register::NoAddress(number) => Some(Base::NoAddress(number)),
        Register::NoPc => Some(Base::NoPc),
        _ => None,
    }
}

/// A register without width and scale.
fn base_at(words: &[Word]) -> Option<(Base, &[Word])>
    ensures { option_map read_said result ≡ base_at words.now }
{
    match words {
        [Word::Register(..), Word::Dot | Word::Star, ..] => None,
        [Word::Register(register, _), rest @ ..] => {
            let base = base_of(*register)?;
            Some((base, rest))
        }
        _ => None,
    }
}

/// Where a part may stand: behind a comma, unless it is the first one.
fn part_place(is_first: bool, words: &[Word]) -> Option<&[Word]>
    ensures { option_map words_said result ≡ part_place is_first words.now }
{
    if is_first {
        Some(words)
    } else {
        comma_at(words)
    }
}

/// A displacement, unless none stands there.
fn displacement_part(
    alloc: Global,
    words: &[Word],
) -> Result<(Option<SizedSum>, &[Word]), SyntaxFault>
    ensures { Gives read_said result (Some (optional (sized_at words.now) words.now)) }
{
    match sized_at(alloc, words) {
        Ok((sized, rest)) => Ok((Some(sized), rest)),
        Err(SyntaxFault::Syntax) => Ok((None, words)),
        Err(SyntaxFault::Memory) => Err(SyntaxFault::Memory),
    }
}

/// A base, unless none stands there.
fn base_part(is_first: bool, words: &[Word]) -> (Option<Base>, &[Word])
    ensures { read_said result ≡ base_part is_first words.now }
{
    match part_place(is_first, words) {
        Some(place) => match base_at(place) {
            Some((base, rest)) => (Some(base), rest),
            None => (None, words),
        },
        None => (None, words),
    }
}

/// An index, unless none stands there.
fn index_part(is_first: bool, words: &[Word]) -> (Option<Index>, &[Word])
    ensures { read_said result ≡ index_part is_first words.now }
{
    match part_place(is_first, words) {
        Some(place) => match index_at(place) {
            Some((index, rest)) => (Some(index), rest),
            None => (None, words),
        },
        None => (None, words),
    }
}

/// A displacement, a base and an index, each of which may be left out.
fn group_at(alloc: Global, words: &[Word]) -> Result<(Group, &[Word]), SyntaxFault>
    ensures { Gives read_said result (Some (group_at words.now)) }
{
    let (displacement, rest) = displacement_part(alloc, words)?;
    let (base, rest) = base_part(displacement.is_none(), rest);
    let (index, rest) = index_part(displacement.is_none() && base.is_none(), rest);
    let group = Group {
        displacement,
        base,
        index,
    };
    Ok((group, rest))
}

/// A displacement with a width of its own and a dropped register ask for the full form.
fn asks_full(group: &Group) -> bool
    ensures { result ≡ asks_full group.now }
{
    matches!(group.displacement, Some(SizedSum { width: Some(_), .. }))
        || matches!(group.base, Some(Base::NoAddress(_) | Base::NoPc))
        || matches!(
            group.index,
            Some(Index {
                is_dropped: true,
                ..
            })
        )
}

fn full(group: Group, indirection: Indirection, outer: Option<SizedSum>) -> FullForm<Expression>
    ensures { result ≡ full group indirection outer }
{
    FullForm {
        displacement: optional_displacement(group.displacement),
        base: group.base.unwrap_or(Base::NoAddress(0)),
        index: group.index.unwrap_or(NO_INDEX),
        indirection,
        outer: optional_displacement(outer),
    }
}

fn optional_displacement(sized: Option<SizedSum>) -> Option<Displacement<Expression>>
    ensures { result ≡ option_map displacement_of sized }
{
    match sized {
        Some(sized) => Some(displacement_of(sized)),
        None => None,
    }
}

/// A form in parentheses that asks for no full form.
fn brief_of(group: Group) -> Option<Mode<Expression>>
    ensures { result ≡ brief_of group.displacement group.base group.index }
{
    match (group.displacement, group.base, group.index) {
        (None, Some(Base::Address(register)), None) => Some(Mode::Indirect(register)),
        (Some(e), Some(Base::Address(register)), None) => Some(Mode::Displaced {
            register,
            displacement: e.value,
        }),
        (Some(e), Some(Base::Address(register)), Some(index)) => Some(Mode::Indexed {
            register,
            displacement: e.value,
            index,
        }),
        (Some(e), Some(Base::Pc), None) => Some(Mode::PcDisplaced { target: e.value }),
        (Some(e), Some(Base::Pc), Some(index)) => Some(Mode::PcIndexed {
            target: e.value,
            index,
        }),
        _ => None,
    }
}

/// What a form in parentheses says.
fn direct_mode(group: Group) -> Option<Mode<Expression>>
    ensures { result ≡ direct_mode group }
{
    if asks_full(&group) {
        Some(Mode::Full(full(group, Indirection::Direct, None)))
    } else {
        brief_of(group)
    }
}

fn close_at(words: &[Word]) -> Option<&[Word]>
    ensures { option_map words_said result ≡ close_at words.now }
{
    match words {
        [Word::Close, rest @ ..] => Some(rest),
        _ => None,
    }
}

fn close_square_at(words: &[Word]) -> Option<&[Word]>
    ensures { option_map words_said result ≡ close_square_at words.now }
{
    match words {
        [Word::CloseSquare, rest @ ..] => Some(rest),
        _ => None,
    }
}

/// `(An)+`, where a `+` stands behind the form.
fn stepped(mode: Mode<Expression>, words: &[Word]) -> (Mode<Expression>, &[Word])
    ensures { read_said result ≡ stepped mode words.now }
{
    match (mode, words) {
        (Mode::Indirect(register), [Word::Plus, rest @ ..]) => {
            (Mode::PostIncrement(register), rest)
        }
        (mode, words) => (mode, words),
    }
}

/// What stands behind `(`, where no bracket follows.
fn direct_at(alloc: Global, words: &[Word]) -> Result<(Mode<Expression>, &[Word]), SyntaxFault>
    ensures { Gives read_said result (direct_at words.now) }
{
    let (group, rest) = group_at(alloc, words)?;
    let Some(rest) = close_at(rest) else {
        return Err(SyntaxFault::Syntax);
    };
    let Some(mode) = direct_mode(group) else {
        return Err(SyntaxFault::Syntax);
    };
    Ok(stepped(mode, rest))
}

/// The index behind the brackets, where there is none in them.
fn index_behind_brackets<'a>(group: &Group, words: &'a [Word]) -> (Option<Index>, &'a [Word])
    ensures { read_said result ≡ index_behind_brackets group.now words.entry.now }
{
    if group.index.is_some() {
        (None, words)
    } else {
        index_part(false, words)
    }
}

/// The outer displacement, unless none stands there.
fn outer_at(alloc: Global, words: &[Word]) -> Result<(Option<SizedSum>, &[Word]), SyntaxFault>
    ensures { Gives read_said result (Some (outer_at words.now)) }
{
    let Some(place) = comma_at(words) else {
        return Ok((None, words));
    };
    match sized_at(alloc, place) {
        Ok((sized, rest)) => Ok((Some(sized), rest)),
        Err(SyntaxFault::Syntax) => Ok((None, words)),
        Err(SyntaxFault::Memory) => Err(SyntaxFault::Memory),
    }
}

/// What stands behind `([`.
fn indirect_at(alloc: Global, words: &[Word]) -> Result<(Mode<Expression>, &[Word]), SyntaxFault>
    ensures { Gives read_said result (indirect_at words.now) }
{
    let (group, rest) = group_at(alloc, words)?;
    let Some(rest) = close_square_at(rest) else {
        return Err(SyntaxFault::Syntax);
    };
    let (index, rest) = index_behind_brackets(&group, rest);
    let (outer, rest) = outer_at(alloc, rest)?;
    let Some(rest) = close_at(rest) else {
        return Err(SyntaxFault::Syntax);
    };
    Ok((Mode::Full(bracketed(group, index, outer)), rest))
}

/// A form with brackets. An index behind them is added after the address is read.
fn bracketed(group: Group, index: Option<Index>, outer: Option<SizedSum>) -> FullForm<Expression>
    ensures { result ≡ full (post_indexed group index) (read_at index) outer }
{
    let Group {
        displacement,
        base,
        index: inner,
    } = group;
    let indirection = if index.is_some() {
        Indirection::PostIndexed
    } else {
        Indirection::PreIndexed
    };
    let group = Group {
        displacement,
        base,
        index: inner.or(index),
    };
    full(group, indirection, outer)
}

/// An addressing mode, and what stands behind it.
pub(crate) fn mode_at(
    alloc: Global,
    words: &[Word],
) -> Result<(Mode<Expression>, &[Word]), SyntaxFault>
    ensures { Gives read_said result (mode_at words.now) }
{
    match words {
        [Word::Register(Register::Data(register), _), rest @ ..] => Ok((
            Mode::Data(*register),
            rest,
        )),
        [Word::Register(Register::Address(register), _), rest @ ..] => Ok((
            Mode::Address(*register),
            rest,
        )),
        [Word::Hash, rest @ ..] => immediate_at(alloc, rest),
        [Word::Open, Word::OpenSquare, rest @ ..] => indirect_at(alloc, rest),
        [Word::Open, rest @ ..] => direct_at(alloc, rest),
        [
            Word::Minus,
            Word::Open,
            Word::Register(Register::Address(register), _),
            Word::Close,
            rest @ ..,
        ] => { Ok((Mode::PreDecrement(*register), rest)) }
        _ => absolute_at(alloc, words),
    }
}

fn immediate_at(alloc: Global, words: &[Word]) -> Result<(Mode<Expression>, &[Word]), SyntaxFault>
    ensures { Gives read_said result (option_map immediate (expression_at words.now)) }
{
    let (value, rest) = expression_at(alloc, words)?;
    Ok((Mode::Immediate(value), rest))
}

/// `e.W`, `e.L` or `e`.
fn absolute_at(alloc: Global, words: &[Word]) -> Result<(Mode<Expression>, &[Word]), SyntaxFault>
    ensures { Gives read_said result (option_map absolute (sized_at words.now)) }
{
    let (sized, rest) = sized_at(alloc, words)?;
    let mode = Mode::Absolute {
        address: sized.value,
        width: sized.width,
    };
    Ok((mode, rest))
}
