//! Addressing modes as they are written, and their words.

ghost use Rattle.std.specs.Prelude.{◌≡◌, ◌<◌, ◌≤◌, ◌+◌, ◌∷◌, [], IfSome, length, option_map};
ghost use Rattle.mb_mnemonics.specs.Modes.{base_mode, mode_of, base_lower, is_word, lower_of, in_class};
ghost use Rattle.mb_mnemonics.specs.Modes.{displacement_words, immediate_words, outer_of, mode_words};
ghost use Rattle.mb_mnemonics.specs.Modes.{scale_bits, index_bits, brief, displacement_bits, is_dropped_base};
ghost use Rattle.mb_mnemonics.specs.Modes.{indirection_bits, full_word, plain, from_pc, base_displacement, full};
ghost use Rattle.mb_mnemonics.specs.Modes.{extension_words};
ghost use Rattle.mb_mnemonics.specs.Ranges.{values, immediate_range};
ghost use Rattle.mb_instr.specs.Operands.{immediate, long_words};
ghost use Rattle.arrayvec.specs.ArrayVec.{array_vec_len};

use crate::range::{Range, displacement, number};
use arrayvec::ArrayVec;
use mb_instr::{OperandClass, Size};
use mb_syntax::{Base, Displacement, FullForm, Index, Indirection, Mode, Scale, Width};

/// The mode that the first word has.
pub(crate) fn mode_of(mode: &Mode<i64>) -> u8
    ensures { result ≡ mode_of mode.now }
{
    match mode {
        Mode::Data(_) => 0,
        Mode::Address(_) => 1,
        Mode::Indirect(_) => 2,
        Mode::PostIncrement(_) => 3,
        Mode::PreDecrement(_) => 4,
        Mode::Displaced { .. } => 5,
        Mode::Indexed { .. } => 6,
        Mode::Full(form) => base_mode(form.base),
        Mode::Absolute { .. }
        | Mode::PcDisplaced { .. }
        | Mode::PcIndexed { .. }
        | Mode::Immediate(_) => 7,
    }
}

fn base_mode(base: Base) -> u8
    ensures { result ≡ base_mode base }
{
    match base {
        Base::Address(_) | Base::NoAddress(_) => 6,
        Base::Pc | Base::NoPc => 7,
    }
}

/// An absolute address is a long where it has no width.
pub(crate) fn is_word(width: Option<Width>) -> bool
    ensures { result ≡ is_word width }
{
    match width {
        Some(Width::Word) => true,
        None | Some(Width::Long) => false,
    }
}

/// The register that the first word has.
pub(crate) fn lower_of(mode: &Mode<i64>) -> u8
    ensures { result ≡ lower_of mode.now }
{
    match mode {
        Mode::Data(n)
        | Mode::Address(n)
        | Mode::Indirect(n)
        | Mode::PostIncrement(n)
        | Mode::PreDecrement(n)
        | Mode::Displaced { register: n, .. }
        | Mode::Indexed { register: n, .. } => *n,
        Mode::Absolute { width, .. } => if is_word(*width) { 0 } else { 1 },
        Mode::PcDisplaced { .. } => 2,
        Mode::PcIndexed { .. } => 3,
        Mode::Full(form) => base_lower(form.base),
        Mode::Immediate(_) => 4,
    }
}

fn base_lower(base: Base) -> u8
    ensures { result ≡ base_lower base }
{
    match base {
        Base::Address(n) | Base::NoAddress(n) => n,
        Base::Pc | Base::NoPc => 3,
    }
}

/// Whether the mode is of the class.
pub(crate) fn in_class(class: OperandClass, size: Size, mode: &Mode<i64>) -> bool
    ensures { result ≡ in_class class size mode.now }
{
    class.allows(size, mode_of(mode), lower_of(mode))
}

/// How many words a displacement of a full form has.
fn displacement_words(displacement: &Option<Displacement<i64>>) -> u8
    ensures value { result ≡ displacement_words displacement.now }
    ensures few { result ≤ 2 }
{
    match displacement {
        None => 0,
        Some(displacement) => match displacement.width {
            Width::Word => 1,
            Width::Long => 2,
        },
    }
}

/// How many words an immediate has.
pub(crate) fn immediate_words(size: Size) -> u8
    ensures value { result ≡ immediate_words size }
    ensures few { result ≤ 2 }
{
    match size {
        Size::Byte | Size::Word => 1,
        Size::Long => 2,
    }
}

/// How many words the outer displacement of a full form has; there is none where nothing is read from memory.
fn outer_words(form: &FullForm<i64>) -> u8
    ensures value { result ≡ displacement_words (outer_of form.now) }
    ensures few { result ≤ 2 }
{
    match form.indirection {
        Indirection::Direct => 0,
        Indirection::PreIndexed | Indirection::PostIndexed => displacement_words(&form.outer),
    }
}

/// How many words the mode has behind the first word.
#[tactic(auto, unfolding(crate::specs::Modes::mode_words))]
pub(crate) fn mode_words(size: Size, mode: &Mode<i64>) -> u8
    ensures value { result ≡ mode_words size mode.now }
    ensures few { result ≤ 5 }
{
    match mode {
        Mode::Data(_)
        | Mode::Address(_)
        | Mode::Indirect(_)
        | Mode::PostIncrement(_)
        | Mode::PreDecrement(_) => 0,
        Mode::Displaced { .. } | Mode::Indexed { .. } => 1,
        Mode::PcDisplaced { .. } | Mode::PcIndexed { .. } => 1,
        Mode::Absolute { width, .. } => if is_word(*width) { 1 } else { 2 },
        Mode::Full(form) => 1 + displacement_words(&form.displacement) + outer_words(form),
        Mode::Immediate(_) => immediate_words(size),
    }
}

fn scale_bits(scale: Scale) -> u8
    ensures value { result ≡ scale_bits scale }
    ensures small { result < 4 }
{
    match scale {
        Scale::One => 0,
        Scale::Two => 1,
        Scale::Four => 2,
        Scale::Eight => 3,
    }
}

/// An index in bits 15 to 9 of an extension word.
fn index_bits(index: &Index) -> u16
    ensures value { result ≡ index_bits index.now }
    ensures high { result ≤ 65024 }
{
    let register = u16::from(index.register % 8) * 0x1000;
    let scale = u16::from(scale_bits(index.scale)) * 0x200;
    let base: u16 = if index.is_address { 0x8000 } else { 0 };
    let long: u16 = match index.width {
        Width::Word => 0,
        Width::Long => 0x800,
    };
    base + register + long + scale
}

/// `rnnn lkk0 dddddddd`.
fn brief(index: &Index, displacement: u32) -> u16
    ensures { result ≡ brief index.now displacement }
{
    index_bits(index) + (displacement % 256) as u16
}

/// The field that says how long a displacement is: 1 for none, 2 for a word, 3 for a long.
fn displacement_bits(displacement: &Option<Displacement<i64>>) -> u8
    ensures value { result ≡ displacement_bits displacement.now }
    ensures small { result ≤ 3 }
{
    1 + displacement_words(displacement)
}

fn is_dropped_base(base: Base) -> bool
    ensures { result ≡ is_dropped_base base }
{
    matches!(base, Base::NoAddress(_) | Base::NoPc)
}

/// Where the address is read from memory: not, behind the index or before it, with the outer displacement's length.
fn indirection_bits(form: &FullForm<i64>) -> u8
    ensures value { result ≡ indirection_bits form.now }
    ensures small { result ≤ 7 }
{
    match form.indirection {
        Indirection::Direct => 0,
        Indirection::PreIndexed => displacement_bits(&form.outer),
        Indirection::PostIndexed if form.index.is_dropped => displacement_bits(&form.outer),
        Indirection::PostIndexed => 4 + displacement_bits(&form.outer),
    }
}

/// `rnnn lkk1 BIbb 0iii`.
fn full_word(form: &FullForm<i64>) -> u16
    ensures { result ≡ full_word form.now }
{
    let base: u16 = if is_dropped_base(form.base) { 0x80 } else { 0 };
    let index: u16 = if form.index.is_dropped { 0x40 } else { 0 };
    let length = u16::from(displacement_bits(&form.displacement)) * 16;
    index_bits(&form.index) + 0x100 + base + index + length + u16::from(indirection_bits(form))
}

/// The words of an operand, which are five at most.
pub(crate) type Own = ArrayVec<u16, 5>;

/// One word.
fn one(word: u32) -> Own
    requires { word < 65536 }
    ensures words { result.items ≡ word ∷ [] }
    ensures len { array_vec_len result ≡ 1 }
{
    let mut own = Own::new();
    own.push(word as u16);
    own
}

/// A long, the high word first.
pub(crate) fn long(value: u32) -> Own
    ensures words { result.items ≡ long_words value }
    ensures len { array_vec_len result ≡ 2 }
{
    let mut own = Own::new();
    own.push((value >> 16) as u16);
    own.push((value & 0xffff) as u16);
    own
}

/// An immediate of the size; a byte has a whole word.
pub(crate) fn immediate(size: Size, value: u32) -> Own
    requires { value < values (immediate_range size) }
    ensures words { result.items ≡ immediate size value }
    ensures few { array_vec_len result ≤ 2 }
{
    match size {
        Size::Byte | Size::Word => one(value),
        Size::Long => long(value),
    }
}

/// A displacement of a full form, where there is one.
fn plain(displacement: &Option<Displacement<i64>>) -> Option<Own>
    ensures words { option_map (λ own. own.items) result ≡ plain displacement.now }
    ensures few { IfSome result (λ own. array_vec_len own ≤ 2) }
{
    Some(match displacement {
        None => Own::new(),
        Some(displacement) => match displacement.width {
            Width::Word => one(number(Range::Displacement16, displacement.value)?),
            Width::Long => long(number(Range::Long, displacement.value)?),
        },
    })
}

/// The same, to a target.
fn from_pc(place: u32, target: &Option<Displacement<i64>>) -> Option<Own>
    ensures words { option_map (λ own. own.items) result ≡ from_pc place target.now }
    ensures few { IfSome result (λ own. array_vec_len own ≤ 2) }
{
    Some(match target {
        None => Own::new(),
        Some(target) => match target.width {
            Width::Word => one(displacement(Size::Word, place, target.value)?),
            Width::Long => long(displacement(Size::Long, place, target.value)?),
        },
    })
}

fn base_displacement(place: u32, form: &FullForm<i64>) -> Option<Own>
    ensures words { option_map (λ own. own.items) result ≡ base_displacement place form.now }
    ensures few { IfSome result (λ own. array_vec_len own ≤ 2) }
{
    match form.base {
        Base::Address(_) | Base::NoAddress(_) | Base::NoPc => plain(&form.displacement),
        Base::Pc => from_pc(place, &form.displacement),
    }
}

fn outer_displacement(form: &FullForm<i64>) -> Option<Own>
    ensures words { option_map (λ own. own.items) result ≡ plain (outer_of form.now) }
    ensures few { IfSome result (λ own. array_vec_len own ≤ 2) }
{
    match form.indirection {
        Indirection::Direct => Some(Own::new()),
        Indirection::PreIndexed | Indirection::PostIndexed => plain(&form.outer),
    }
}

/// The words of a full form of which the first stands at the place.
fn full(place: u32, form: &FullForm<i64>) -> Option<Own>
    ensures { option_map (λ own. own.items) result ≡ full place form.now }
{
    let base = base_displacement(place, form)?;
    let outer = outer_displacement(form)?;
    let mut own = Own::new();
    own.push(full_word(form));
    own.try_extend_from_slice(base.as_slice()).unwrap();
    own.try_extend_from_slice(outer.as_slice()).unwrap();
    Some(own)
}

/// The words of the mode behind the first word, for an operand of the size, where the first of them stands at the
/// place; none where a number is out of its range.
pub(crate) fn extension_words(size: Size, place: u32, mode: &Mode<i64>) -> Option<Own>
    ensures { option_map (λ own. own.items) result ≡ extension_words size place mode.now }
{
    Some(match mode {
        Mode::Data(_)
        | Mode::Address(_)
        | Mode::Indirect(_)
        | Mode::PostIncrement(_)
        | Mode::PreDecrement(_) => Own::new(),
        Mode::Displaced { displacement, .. } => one(number(Range::Displacement16, *displacement)?),
        Mode::Indexed {
            displacement,
            index,
            ..
        } => one(u32::from(brief(index, number(Range::Displacement8, *displacement)?))),
        Mode::Absolute { address, width } if is_word(*width) => one(number(Range::Word, *address)?),
        Mode::Absolute { address, .. } => long(number(Range::Long, *address)?),
        Mode::PcDisplaced { target } => one(displacement(Size::Word, place, *target)?),
        Mode::PcIndexed { target, index } => {
            one(u32::from(brief(index, displacement(Size::Byte, place, *target)?)))
        }
        Mode::Full(form) => full(place, form)?,
        Mode::Immediate(value) => immediate(size, number(Range::of_immediate(size), *value)?),
    })
}
