//! The operands that a line takes, and what they say.

ghost use Rattle.std.specs.Prelude.{◌≡◌, ◌+◌, ◌*◌, ◌<◌, ◌≤◌, IfSome, length, option_map};
ghost use Rattle.arrayvec.specs.ArrayVec.{array_vec_len};
ghost use Rattle.mb_mnemonics.specs.Code.{part_said, said_of};
ghost use Rattle.mb_mnemonics.specs.Lines.{patterns_of};
ghost use Rattle.mb_mnemonics.specs.Ranges.{values};
ghost use Rattle.mb_mnemonics.specs.Operands.{takes_mode, takes_field, takes_control, takes_operand};
ghost use Rattle.mb_mnemonics.specs.Operands.{takes_operands, operand_words, is_data, value_of};
ghost use Rattle.mb_mnemonics.specs.Operands.{in_first, in_second, in_both, in_own, together, place_bits, register_at};
ghost use Rattle.mb_mnemonics.specs.Operands.{general, field_part, field_bits, quick_bits, reach_said, source_bits};
ghost use Rattle.mb_mnemonics.specs.Operands.{destination_bits, ea_said, list_said, mode_said, pair_said};
ghost use Rattle.mb_mnemonics.specs.Operands.{operand_said, operands_said};

use crate::line::Patterns;
use crate::modes::{
    Own, extension_words, immediate, immediate_words, in_class, is_word, long, lower_of, mode_of,
    mode_words,
};
use crate::pattern::{Pattern, Place};
use crate::range::{Range, branch, number};
use arrayvec::ArrayVec;
use mb_instr::{ControlRegister, Size};
use mb_syntax::{BitField, FieldNumber, Mode, Operand};

/// `Dn`.
fn is_data(mode: &Mode<i64>) -> bool
    ensures { result ≡ is_data mode.now }
{
    matches!(mode, Mode::Data(_))
}

/// Whether a mode is of the pattern's form at the size.
fn takes_mode(pattern: Pattern, size: Size, mode: &Mode<i64>) -> bool
    ensures { result ≡ takes_mode pattern size mode.now }
{
    match pattern {
        Pattern::Mode(class) | Pattern::Destination(class) => in_class(class, size, mode),
        Pattern::Memory(class) => in_class(class, size, mode) && !is_data(mode),
        Pattern::DataMode | Pattern::Data(_) => is_data(mode),
        Pattern::Address(_) => matches!(mode, Mode::Address(_)),
        Pattern::Register(_) | Pattern::RegisterList | Pattern::ReversedList => {
            matches!(mode, Mode::Data(_) | Mode::Address(_))
        }
        Pattern::Indirect(_) => matches!(mode, Mode::Indirect(_)),
        Pattern::PostIncrement(_) => matches!(mode, Mode::PostIncrement(_)),
        Pattern::PreDecrement(_) => matches!(mode, Mode::PreDecrement(_)),
        Pattern::Immediate | Pattern::Quick(_) | Pattern::WordNumber | Pattern::Distance(_) => {
            matches!(mode, Mode::Immediate(_))
        }
        Pattern::Target(_) => matches!(mode, Mode::Absolute { width: None, .. }),
        Pattern::Displaced => matches!(mode, Mode::Displaced { .. }),
        Pattern::Absolute => match mode {
            Mode::Absolute { width, .. } => !is_word(*width),
            _ => false,
        },
        Pattern::FieldMode(_)
        | Pattern::Sr
        | Pattern::Ccr
        | Pattern::Usp
        | Pattern::Control
        | Pattern::Pair(_, _)
        | Pattern::Pairs(_)
        | Pattern::IndirectPairs
        | Pattern::Caches => false,
    }
}

fn takes_field(pattern: Pattern, size: Size, mode: &Mode<i64>) -> bool
    ensures { result ≡ takes_field pattern size mode.now }
{
    match pattern {
        Pattern::FieldMode(class) => in_class(class, size, mode),
        _ => false,
    }
}

fn takes_control(pattern: Pattern, register: ControlRegister) -> bool
    ensures { result ≡ takes_control pattern register }
{
    match pattern {
        Pattern::Control => true,
        Pattern::Usp => matches!(register, ControlRegister::Usp),
        _ => false,
    }
}

/// Whether an operand is of the pattern's form at the size. Numbers have no part in it.
pub(crate) fn takes_operand(pattern: Pattern, size: Size, operand: &Operand<i64>) -> bool
    ensures { result ≡ takes_operand pattern size operand.now }
{
    match operand {
        Operand::Mode(mode) => takes_mode(pattern, size, mode),
        Operand::Field { mode, .. } => takes_field(pattern, size, mode),
        Operand::Sr => matches!(pattern, Pattern::Sr),
        Operand::Ccr => matches!(pattern, Pattern::Ccr),
        Operand::Control(register) => takes_control(pattern, *register),
        Operand::List(_) => matches!(pattern, Pattern::RegisterList | Pattern::ReversedList),
        Operand::Pair(_, _) => matches!(pattern, Pattern::Pair(_, _) | Pattern::Pairs(_)),
        Operand::IndirectPair(_, _) => matches!(pattern, Pattern::IndirectPairs),
        Operand::Caches(_) => matches!(pattern, Pattern::Caches),
        Operand::Text(_) => false,
    }
}

/// Whether the operands are of the line's forms, as many as it has.
pub(crate) fn takes_operands(patterns: Patterns, size: Size, operands: &[Operand<i64>]) -> bool
    ensures { result ≡ takes_operands (patterns_of patterns) size operands.now }
{
    match (patterns.split_first(), operands) {
        (None, operands) => operands.is_empty(),
        (Some(_), []) => false,
        (Some((pattern, patterns)), [operand, operands @ ..]) => {
            takes_operand(pattern, size, operand) && takes_operands(patterns, size, operands)
        }
    }
}

/// How many words an operand of the pattern's form has of its own.
pub fn operand_words(pattern: Pattern, size: Size, operand: &Operand<i64>) -> u8
    ensures value { result ≡ operand_words pattern size operand.now }
    ensures few { result ≤ 5 }
{
    match (pattern, operand) {
        (Pattern::Mode(_) | Pattern::Destination(_) | Pattern::Memory(_), Operand::Mode(mode)) => {
            mode_words(size, mode)
        }
        (Pattern::FieldMode(_), Operand::Field { mode, .. }) => mode_words(size, mode),
        (Pattern::Immediate, _) => immediate_words(size),
        (Pattern::Distance(Size::Long) | Pattern::Target(Size::Long) | Pattern::Absolute, _) => 2,
        _ => 0,
    }
}

/// What operands say: bits of the first word and of the two behind it, and words of their own.
#[derive(Drop)]
pub(crate) struct Said {
    pub(crate) first: u16,
    pub(crate) second: u16,
    pub(crate) third: u16,
    pub(crate) own: ArrayVec<u16, 15>,
}

/// What an operand says.
#[derive(Drop)]
struct Part {
    first: u16,
    second: u16,
    third: u16,
    own: Own,
}

impl Part {
    fn new(first: u16, second: u16, third: u16, own: Own) -> Part
        ensures { part_said result ≡ record { first = first; second = second; third = third; own = own.items } }
    {
        Part {
            first,
            second,
            third,
            own,
        }
    }

    fn in_first(bits: u16) -> Part
        ensures { part_said result ≡ in_first bits }
    {
        Part::new(bits, 0, 0, Own::new())
    }

    fn in_second(bits: u16) -> Part
        ensures { part_said result ≡ in_second bits }
    {
        Part::new(0, bits, 0, Own::new())
    }

    fn in_both(bits: u16, more: u16) -> Part
        ensures { part_said result ≡ in_both bits more }
    {
        Part::new(0, bits, more, Own::new())
    }

    fn in_own(own: Own) -> Part
        ensures { part_said result ≡ in_own own.items }
    {
        Part::new(0, 0, 0, own)
    }
}

impl Said {
    /// Nothing.
    pub(crate) fn new() -> Said
        ensures said { said_of result ≡ in_first 0 }
        ensures none { array_vec_len result.own ≡ 0 }
    {
        Said {
            first: 0,
            second: 0,
            third: 0,
            own: ArrayVec::new(),
        }
    }

    /// With what an operand says.
    fn add(&mut self, part: &Part)
        requires { array_vec_len self.old.own + 5 ≤ 15 }
        ensures said { said_of self.new ≡ together (said_of self.old) (part_said part.now) }
        ensures few { array_vec_len self.new.own ≤ array_vec_len self.old.own + 5 }
    {
        self.first = self.first.wrapping_add(part.first);
        self.second = self.second.wrapping_add(part.second);
        self.third = self.third.wrapping_add(part.third);
        self.own.try_extend_from_slice(part.own.as_slice()).unwrap();
    }
}

/// A register's number at its place in a word behind the first.
fn place_bits(place: Place, n: u8) -> u16
    ensures { result ≡ place_bits place n }
{
    let low = u16::from(n % 8);
    match place {
        Place::Upper => u16::from(n % 16) * 0x1000,
        Place::Middle => low * 64,
        Place::Both => low * 0x1000 + low,
        Place::X | Place::Y | Place::Lower => low,
    }
}

/// A register's number at its place.
fn register_at(place: Place, n: u8) -> Part
    ensures { part_said result ≡ register_at place n }
{
    match place {
        Place::X => Part::in_first(u16::from(n % 8) * 512),
        Place::Y => Part::in_first(u16::from(n % 8)),
        Place::Upper | Place::Middle | Place::Lower | Place::Both => {
            Part::in_second(place_bits(place, n))
        }
    }
}

/// The number of the register that a mode names, where an address register has 8 added.
fn general(mode: &Mode<i64>) -> u8
    ensures value { result ≡ general mode.now }
    ensures small { result < 16 }
{
    lower_of(mode) % 8 + if is_data(mode) { 0 } else { 8 }
}

/// A bit field's offset or width, of the range: a register with bit 5, which says so, or a number.
fn field_part(range: Range, field: &FieldNumber<i64>) -> Option<u32>
    requires { values range ≤ 32 }
    ensures value { result ≡ field_part range field.now }
    ensures small { IfSome result (λ n. n < 64) }
{
    match field {
        FieldNumber::Data(n) => Some(32 + u32::from(n % 8)),
        FieldNumber::Number(value) => number(range, *value),
    }
}

/// `0000 Oooo ooWw wwww`.
fn field_bits(field: &BitField<i64>) -> Option<u16>
    ensures { result ≡ field_bits field.now }
{
    let offset = field_part(Range::Offset, &field.offset)?;
    let width = field_part(Range::Width, &field.width)?;
    Some((offset * 64 + width) as u16)
}

/// A number in the first word: 8 is spelled 0.
fn quick_bits(range: Range, value: u32) -> u16
    ensures { result ≡ quick_bits range value }
{
    match range {
        Range::Count => (value % 8) as u16 * 512,
        _ => (value % 256) as u16,
    }
}

/// A displacement of the size, where the length of its displacement has it.
fn reach_said(size: Size, displacement: u32) -> Part
    ensures { part_said result ≡ reach_said size displacement }
{
    match size {
        Size::Byte => Part::in_first((displacement % 256) as u16),
        Size::Word => Part::in_second((displacement % 0x1_0000) as u16),
        Size::Long => Part::in_own(long(displacement)),
    }
}

/// The number that a mode has.
fn value_of(mode: &Mode<i64>) -> i64
    ensures { result ≡ value_of mode.now }
{
    match mode {
        Mode::Immediate(value)
        | Mode::Absolute { address: value, .. }
        | Mode::Displaced {
            displacement: value,
            ..
        } => *value,
        Mode::Data(_)
        | Mode::Address(_)
        | Mode::Indirect(_)
        | Mode::PostIncrement(_)
        | Mode::PreDecrement(_)
        | Mode::Indexed { .. }
        | Mode::PcDisplaced { .. }
        | Mode::PcIndexed { .. }
        | Mode::Full(_) => 0,
    }
}

/// Bits 5 to 0 of the first word.
fn source_bits(mode: &Mode<i64>) -> u16
    ensures { result ≡ source_bits mode.now }
{
    u16::from(mode_of(mode)) * 8 + u16::from(lower_of(mode) % 8)
}

/// Bits 11 to 6 of it, for MOVE's destination.
fn destination_bits(mode: &Mode<i64>) -> u16
    ensures { result ≡ destination_bits mode.now }
{
    u16::from(lower_of(mode) % 8) * 512 + u16::from(mode_of(mode)) * 64
}

/// What an operand of the size says with these bits, whose words stand here.
fn ea_said(size: Size, here: u32, bits: u16, mode: &Mode<i64>) -> Option<Part>
    ensures { option_map part_said result ≡ ea_said size here bits mode.now }
{
    Some(Part::new(bits, 0, 0, extension_words(size, here, mode)?))
}

/// What a mode says by its pattern, in a statement at the address, where the mode's own words stand here.
#[rattlefmt::skip]
fn mode_said(pattern: Pattern, size: Size, at: u32, here: u32, mode: &Mode<i64>) -> Option<Part>
    ensures { option_map part_said result ≡ mode_said pattern size at here mode.now }
{
    let value = value_of(mode);
    Some(match pattern {
        Pattern::Mode(_) | Pattern::Memory(_) | Pattern::DataMode =>
            return ea_said(size, here, source_bits(mode), mode),
        Pattern::Destination(_) => return ea_said(size, here, destination_bits(mode), mode),
        Pattern::Data(place) | Pattern::Address(place) | Pattern::Register(place) | Pattern::Indirect(place)
        | Pattern::PostIncrement(place) | Pattern::PreDecrement(place) => register_at(place, general(mode)),
        Pattern::Immediate => Part::in_own(immediate(size, number(Range::of_immediate(size), value)?)),
        Pattern::Quick(range) => Part::in_first(quick_bits(range, number(range, value)?)),
        Pattern::WordNumber => Part::in_second(number(Range::Word, value)? as u16),
        Pattern::Distance(reach) => reach_said(reach, number(Range::of_immediate(reach), value)?),
        Pattern::Target(reach) => reach_said(reach, branch(reach, at, value)?),
        Pattern::RegisterList | Pattern::ReversedList => list_said(pattern, 1 << general(mode)),
        Pattern::Displaced => Part {
            first: u16::from(lower_of(mode) % 8),
            second: number(Range::Displacement16, value)? as u16,
            third: 0,
            own: Own::new(),
        },
        Pattern::Absolute => Part::in_own(long(number(Range::Long, value)?)),
        _ => Part::in_first(0),
    })
}

/// A list of registers.
fn list_said(pattern: Pattern, list: u16) -> Part
    ensures { part_said result ≡ list_said pattern list }
{
    match pattern {
        Pattern::ReversedList => Part::in_second(list.reverse_bits()),
        _ => Part::in_second(list),
    }
}

fn pair_said(pattern: Pattern, n: u8, m: u8) -> Part
    ensures { part_said result ≡ pair_said pattern n m }
{
    match pattern {
        Pattern::Pairs(place) => Part::in_both(place_bits(place, n), place_bits(place, m)),
        Pattern::Pair(high, low) => {
            Part::in_second(place_bits(high, n).wrapping_add(place_bits(low, m)))
        }
        _ => Part::in_first(0),
    }
}

/// What an operand of the pattern's form says in a statement at the address, where its own words stand here; none
/// where a number is out of its range.
fn operand_said(
    pattern: Pattern,
    size: Size,
    at: u32,
    here: u32,
    operand: &Operand<i64>,
) -> Option<Part>
    ensures { option_map part_said result ≡ operand_said pattern size at here operand.now }
{
    Some(match operand {
        Operand::Mode(mode) => return mode_said(pattern, size, at, here, mode),
        Operand::Field { mode, field } => {
            let second = field_bits(field)?;
            Part::new(
                source_bits(mode),
                second,
                0,
                extension_words(size, here, mode)?,
            )
        }
        Operand::Control(register) => Part::in_second(register.code()),
        Operand::List(list) => list_said(pattern, *list),
        Operand::Pair(n, m) => pair_said(pattern, *n, *m),
        Operand::IndirectPair(n, m) => {
            Part::in_both(place_bits(Place::Upper, *n), place_bits(Place::Upper, *m))
        }
        Operand::Caches(caches) => Part::in_first(u16::from(caches.bits()) * 64),
        Operand::Sr | Operand::Ccr | Operand::Text(_) => Part::in_first(0),
    })
}

/// Adds what the operands say, of which the first has its words here; none where a number is out of its range.
pub(crate) fn add_operands(
    patterns: Patterns,
    size: Size,
    at: u32,
    here: u32,
    operands: &[Operand<i64>],
    said: &mut Said,
) -> Option<()>
    requires { array_vec_len said.old.own + 5 * length (patterns_of patterns) ≤ 15 }
    ensures { option_map (λ _. said_of said.new) result
        ≡ operands_said (patterns_of patterns) size at here operands.now (said_of said.old) }
{
    match (patterns.split_first(), operands) {
        (Some((pattern, patterns)), [operand, operands @ ..]) => {
            said.add(&operand_said(pattern, size, at, here, operand)?);
            let words = u32::from(operand_words(pattern, size, operand));
            let there = here.wrapping_add(2 * words);
            add_operands(patterns, size, at, there, operands, said)
        }
        _ => Some(()),
    }
}
