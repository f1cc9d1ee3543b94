//! The text of a statement.

ghost use Rattle.std.specs.Prelude.{◌≡◌, ◌+◌, ◌*◌, ◌≤◌, ◌++◌, length, true};
ghost use Rattle.arrayvec.specs.ArrayVec.{array_vec_len};
ghost use Rattle.mb_statement.specs.Texts.{numbered, general, caches_text, width_text};
ghost use Rattle.mb_statement.specs.Texts.{address_width_text, scale_text, index_text, base_text};
ghost use Rattle.mb_statement.specs.Texts.{displacement_text, first_text, outer_text};
ghost use Rattle.mb_statement.specs.Texts.{is_no_index, asks_full, is_left_out, behind_base_text, full_text, mode_text};
ghost use Rattle.mb_statement.specs.Texts.{field_number_text, field_text};
ghost use Rattle.mb_statement.specs.Texts.{has, begins, ends, listed, listed_below, list_text, operand_text, size_text};
ghost use Rattle.mb_statement.specs.Texts.{operands_behind, statement_text};
ghost use Rattle.mb_statement.specs.Answers.{statement_said};

use crate::numbers::{LineText, push_signed};
use crate::statement::Statement;
use mb_instr::Caches;
use mb_syntax::{
    Base, BitField, Displacement, FieldNumber, FullForm, Index, Indirection, Mode, Operand, Scale,
    SizeLetter, Width,
};

pub fn push_bytes(line: &mut LineText, bytes: &[u8])
    requires { array_vec_len line.old + length bytes.now ≤ 512 }
    ensures pushed { line.new.items ≡ line.old.items ++ bytes.now }
    ensures len { array_vec_len line.new ≡ array_vec_len line.old + length bytes.now }
{
    line.try_extend_from_slice(bytes).unwrap();
}

/// `Dn` or `An`.
fn push_numbered(line: &mut LineText, is_address: bool, n: u8)
    requires { array_vec_len line.old + 2 ≤ 512 }
    ensures pushed { line.new.items ≡ line.old.items ++ numbered is_address n }
    ensures len { array_vec_len line.new ≤ array_vec_len line.old + 2 }
{
    line.push(if is_address { b'A' } else { b'D' });
    line.push(b'0' + n % 8);
}

/// 0 to 7 are D0 to D7, 8 to 15 are A0 to A7.
fn push_general(line: &mut LineText, n: u8)
    requires { array_vec_len line.old + 2 ≤ 512 }
    ensures pushed { line.new.items ≡ line.old.items ++ general n }
    ensures len { array_vec_len line.new ≤ array_vec_len line.old + 2 }
{
    push_numbered(line, n >= 8, n);
}

fn caches_text(caches: Caches) -> &'static [u8]
    ensures text { result.now ≡ caches_text caches }
    ensures short { length result.now ≤ 2 }
{
    match caches {
        Caches::Neither => b"NC",
        Caches::Data => b"DC",
        Caches::Instruction => b"IC",
        Caches::Both => b"BC",
    }
}

fn width_text(width: Width) -> &'static [u8]
    ensures text { result.now ≡ width_text width }
    ensures short { length result.now ≤ 2 }
{
    match width {
        Width::Word => b".W",
        Width::Long => b".L",
    }
}

fn address_width_text(width: Option<Width>) -> &'static [u8]
    ensures text { result.now ≡ address_width_text width }
    ensures short { length result.now ≤ 2 }
{
    match width {
        None => b"",
        Some(width) => width_text(width),
    }
}

/// A scale of one is left out.
fn scale_text(scale: Scale) -> &'static [u8]
    ensures text { result.now ≡ scale_text scale }
    ensures short { length result.now ≤ 2 }
{
    match scale {
        Scale::One => b"",
        Scale::Two => b"*2",
        Scale::Four => b"*4",
        Scale::Eight => b"*8",
    }
}

fn push_index(line: &mut LineText, index: Index)
    requires { array_vec_len line.old + 7 ≤ 512 }
    ensures pushed { line.new.items ≡ line.old.items ++ index_text index }
    ensures len { array_vec_len line.new ≤ array_vec_len line.old + 7 }
{
    push_bytes(line, if index.is_dropped { b"Z" } else { b"" });
    push_numbered(line, index.is_address, index.register);
    push_bytes(line, width_text(index.width));
    push_bytes(line, scale_text(index.scale));
}

fn push_base(line: &mut LineText, base: Base)
    requires { array_vec_len line.old + 3 ≤ 512 }
    ensures pushed { line.new.items ≡ line.old.items ++ base_text base }
    ensures len { array_vec_len line.new ≤ array_vec_len line.old + 3 }
{
    match base {
        Base::Address(n) => push_numbered(line, true, n),
        Base::Pc => push_bytes(line, b"PC"),
        Base::NoAddress(n) => {
            line.push(b'Z');
            push_numbered(line, true, n);
        }
        Base::NoPc => push_bytes(line, b"ZPC"),
    }
}

fn push_displacement(line: &mut LineText, displacement: &Displacement<i64>)
    requires { array_vec_len line.old + 20 ≤ 512 }
    ensures pushed { line.new.items ≡ line.old.items ++ displacement_text displacement.now }
    ensures len { array_vec_len line.new ≤ array_vec_len line.old + 20 }
{
    push_signed(line, displacement.value);
    push_bytes(line, width_text(displacement.width));
}

/// A displacement before others.
fn push_first(line: &mut LineText, displacement: &Option<Displacement<i64>>)
    requires { array_vec_len line.old + 21 ≤ 512 }
    ensures pushed { line.new.items ≡ line.old.items ++ first_text displacement.now }
    ensures len { array_vec_len line.new ≤ array_vec_len line.old + 21 }
{
    if let Some(displacement) = displacement {
        push_displacement(line, displacement);
        line.push(b',');
    }
}

/// A displacement behind others.
fn push_outer(line: &mut LineText, displacement: &Option<Displacement<i64>>)
    requires { array_vec_len line.old + 21 ≤ 512 }
    ensures pushed { line.new.items ≡ line.old.items ++ outer_text displacement.now }
    ensures len { array_vec_len line.new ≤ array_vec_len line.old + 21 }
{
    if let Some(displacement) = displacement {
        line.push(b',');
        push_displacement(line, displacement);
    }
}

/// The index that a form has which has none.
fn is_no_index(index: Index) -> bool
    ensures { result ≡ is_no_index index }
{
    index.is_dropped
        && !index.is_address
        && index.register == 0
        && matches!(index.width, Width::Word)
        && matches!(index.scale, Scale::One)
}

/// Whether brackets, a base displacement with its width or a dropped base ask for the full form.
pub(crate) fn asks_full(form: &FullForm<i64>) -> bool
    ensures { result ≡ asks_full form.now }
{
    !matches!(form.indirection, Indirection::Direct)
        || form.displacement.is_some()
        || matches!(form.base, Base::NoAddress(_) | Base::NoPc)
}

/// An index that the form has anyway is left out, where something else asks for the full form.
pub(crate) fn is_left_out(form: &FullForm<i64>) -> bool
    ensures { result ≡ is_left_out form.now }
{
    is_no_index(form.index) && asks_full(form)
}

fn push_behind_base(line: &mut LineText, form: &FullForm<i64>)
    requires { array_vec_len line.old + 8 ≤ 512 }
    ensures pushed { line.new.items ≡ line.old.items ++ behind_base_text form.now }
    ensures len { array_vec_len line.new ≤ array_vec_len line.old + 8 }
{
    if !is_left_out(form) {
        line.push(b',');
        push_index(line, form.index);
    }
}

/// `(bd,An,Xn)`, `([bd,An,Xn],od)` or `([bd,An],Xn,od)`.
fn push_full(line: &mut LineText, form: &FullForm<i64>)
    requires { array_vec_len line.old + 57 ≤ 512 }
    ensures pushed { line.new.items ≡ line.old.items ++ full_text form.now }
    ensures len { array_vec_len line.new ≤ array_vec_len line.old + 57 }
{
    match form.indirection {
        Indirection::Direct => {
            push_bytes(line, b"(");
            push_first(line, &form.displacement);
            push_base(line, form.base);
            push_behind_base(line, form);
        }
        Indirection::PreIndexed => {
            push_bytes(line, b"([");
            push_first(line, &form.displacement);
            push_base(line, form.base);
            push_behind_base(line, form);
            push_bytes(line, b"]");
            push_outer(line, &form.outer);
        }
        Indirection::PostIndexed => {
            push_bytes(line, b"([");
            push_first(line, &form.displacement);
            push_base(line, form.base);
            push_bytes(line, b"]");
            push_behind_base(line, form);
            push_outer(line, &form.outer);
        }
    }
    push_bytes(line, b")");
}

/// A register between marks.
fn push_marked(line: &mut LineText, front: &[u8], n: u8, back: &[u8])
    requires front { length front.now ≤ 2 }
    requires back { length back.now ≤ 2 }
    requires room { array_vec_len line.old + 6 ≤ 512 }
    ensures pushed { line.new.items ≡ line.old.items ++ front.now ++ numbered true n ++ back.now }
    ensures len { array_vec_len line.new ≤ array_vec_len line.old + 6 }
{
    push_bytes(line, front);
    push_numbered(line, true, n);
    push_bytes(line, back);
}

/// `(d,An,Xn)`.
fn push_indexed(line: &mut LineText, register: u8, displacement: i64, index: Index)
    requires { array_vec_len line.old + 31 ≤ 512 }
    ensures pushed { line.new.items ≡ line.old.items ++ mode_text (Mode.Indexed register displacement index) }
    ensures len { array_vec_len line.new ≤ array_vec_len line.old + 31 }
{
    line.push(b'(');
    push_signed(line, displacement);
    push_marked(line, b",", register, b",");
    push_index(line, index);
    line.push(b')');
}

/// `(e,PC,Xn)`.
fn push_pc_indexed(line: &mut LineText, target: i64, index: Index)
    requires { array_vec_len line.old + 31 ≤ 512 }
    ensures pushed { line.new.items ≡ line.old.items ++ mode_text (Mode.PcIndexed target index) }
    ensures len { array_vec_len line.new ≤ array_vec_len line.old + 31 }
{
    line.push(b'(');
    push_signed(line, target);
    push_bytes(line, b",PC,");
    push_index(line, index);
    line.push(b')');
}

fn push_mode(line: &mut LineText, mode: &Mode<i64>)
    requires { array_vec_len line.old + 57 ≤ 512 }
    ensures pushed { line.new.items ≡ line.old.items ++ mode_text mode.now }
    ensures len { array_vec_len line.new ≤ array_vec_len line.old + 57 }
{
    match mode {
        Mode::Data(n) => push_numbered(line, false, *n),
        Mode::Address(n) => push_numbered(line, true, *n),
        Mode::Indirect(n) => push_marked(line, b"(", *n, b")"),
        Mode::PostIncrement(n) => push_marked(line, b"(", *n, b")+"),
        Mode::PreDecrement(n) => push_marked(line, b"-(", *n, b")"),
        Mode::Displaced {
            register,
            displacement,
        } => {
            line.push(b'(');
            push_signed(line, *displacement);
            push_marked(line, b",", *register, b")");
        }
        Mode::Indexed {
            register,
            displacement,
            index,
        } => push_indexed(line, *register, *displacement, *index),
        Mode::Absolute { address, width } => {
            push_signed(line, *address);
            push_bytes(line, address_width_text(*width));
        }
        Mode::PcDisplaced { target } => {
            line.push(b'(');
            push_signed(line, *target);
            push_bytes(line, b",PC)");
        }
        Mode::PcIndexed { target, index } => push_pc_indexed(line, *target, *index),
        Mode::Full(form) => push_full(line, form),
        Mode::Immediate(value) => {
            line.push(b'#');
            push_signed(line, *value);
        }
    }
}

fn push_field_number(line: &mut LineText, number: &FieldNumber<i64>)
    requires { array_vec_len line.old + 18 ≤ 512 }
    ensures pushed { line.new.items ≡ line.old.items ++ field_number_text number.now }
    ensures len { array_vec_len line.new ≤ array_vec_len line.old + 18 }
{
    match number {
        FieldNumber::Data(n) => push_numbered(line, false, *n),
        FieldNumber::Number(value) => push_signed(line, *value),
    }
}

/// `{o:w}`.
fn push_field(line: &mut LineText, field: &BitField<i64>)
    requires { array_vec_len line.old + 39 ≤ 512 }
    ensures pushed { line.new.items ≡ line.old.items ++ field_text field.now }
    ensures len { array_vec_len line.new ≤ array_vec_len line.old + 39 }
{
    line.push(b'{');
    push_field_number(line, &field.offset);
    line.push(b':');
    push_field_number(line, &field.width);
    line.push(b'}');
}

/// Whether a register stands in a list.
fn has(mask: u16, n: u8) -> bool
    requires { n ≤ 15 }
    ensures { result ≡ has mask n }
{
    mask >> n & 1 == 1
}

/// Whether a register is the first of a run, in which data and address registers stand apart.
fn begins(mask: u16, n: u8) -> bool
    requires { n ≤ 15 }
    ensures { result ≡ begins mask n }
{
    has(mask, n) && (n % 8 == 0 || !has(mask, n - 1))
}

fn ends(mask: u16, n: u8) -> bool
    requires { n ≤ 15 }
    ensures { result ≡ ends mask n }
{
    has(mask, n) && (n % 8 == 7 || !has(mask, n + 1))
}

/// What a register adds: the beginning of a run, or the end of one of two or more.
#[tactic(auto, unfolding(crate::specs::Texts::listed))]
fn push_listed(line: &mut LineText, mask: u16, n: u8)
    requires number { n ≤ 15 }
    requires room { array_vec_len line.old + 3 ≤ 512 }
    ensures pushed { line.new.items ≡ line.old.items ++ listed mask n }
    ensures len { array_vec_len line.new ≤ array_vec_len line.old + 3 }
{
    if begins(mask, n) {
        push_bytes(line, if mask % (1 << n) == 0 { b"" } else { b"/" });
        push_general(line, n);
    } else if ends(mask, n) {
        push_bytes(line, b"-");
        push_general(line, n);
    }
}

/// The first `n` registers of a list.
#[tactic(auto, unfolding(crate::specs::Texts::listed_below))]
fn push_listed_below(line: &mut LineText, mask: u16, n: u8)
    requires number { n ≤ 16 }
    requires room { array_vec_len line.old + 3 * n ≤ 512 }
    ensures pushed { line.new.items ≡ line.old.items ++ listed_below mask n }
    ensures len { array_vec_len line.new ≤ array_vec_len line.old + 3 * n }
{
    if n > 0 {
        push_listed_below(line, mask, n - 1);
        push_listed(line, mask, n - 1);
    }
}

fn push_list(line: &mut LineText, mask: u16)
    requires { array_vec_len line.old + 48 ≤ 512 }
    ensures pushed { line.new.items ≡ line.old.items ++ list_text mask }
    ensures len { array_vec_len line.new ≤ array_vec_len line.old + 48 }
{
    push_listed_below(line, mask, 16);
}

fn push_operand(line: &mut LineText, operand: &Operand<i64>)
    requires { array_vec_len line.old + 96 ≤ 512 }
    ensures pushed { line.new.items ≡ line.old.items ++ operand_text operand.now }
    ensures len { array_vec_len line.new ≤ array_vec_len line.old + 96 }
{
    match operand {
        Operand::Mode(mode) => push_mode(line, mode),
        Operand::Field { mode, field } => {
            push_mode(line, mode);
            push_field(line, field);
        }
        Operand::Sr => push_bytes(line, b"SR"),
        Operand::Ccr => push_bytes(line, b"CCR"),
        Operand::Control(register) => push_bytes(line, register.name()),
        Operand::List(mask) => push_list(line, *mask),
        Operand::Pair(n, m) => {
            push_numbered(line, false, *n);
            line.push(b':');
            push_numbered(line, false, *m);
        }
        Operand::IndirectPair(n, m) => {
            push_bytes(line, b"(");
            push_general(line, *n);
            push_bytes(line, b"):(");
            push_general(line, *m);
            push_bytes(line, b")");
        }
        Operand::Caches(caches) => push_bytes(line, caches_text(*caches)),
        Operand::Text(_) => {}
    }
}

fn size_text(size: Option<SizeLetter>) -> &'static [u8]
    ensures text { result.now ≡ size_text size }
    ensures short { length result.now ≤ 2 }
{
    match size {
        None => b"",
        Some(SizeLetter::Byte) => b".B",
        Some(SizeLetter::Short) => b".S",
        Some(SizeLetter::Word) => b".W",
        Some(SizeLetter::Long) => b".L",
    }
}

/// Operands, each behind a mark: this one before the first, and commas.
fn push_operands(line: &mut LineText, mark: u8, operands: &[Operand<i64>])
    requires { array_vec_len line.old + 97 * length operands.now ≤ 512 }
    ensures pushed { line.new.items ≡ line.old.items ++ operands_behind mark operands.now }
    ensures len { array_vec_len line.new ≤ array_vec_len line.old + 97 * length operands.now }
{
    match operands {
        [] => {}
        [operand, operands @ ..] => {
            line.push(mark);
            push_operand(line, operand);
            push_operands(line, b',', operands);
        }
    }
}

#[tactic(auto, unfolding(crate::specs::Texts::statement_text))]
pub fn push_statement(line: &mut LineText, statement: &Statement)
    requires name { length statement.now.name.items ≤ 8 }
    requires room { array_vec_len line.old + 301 ≤ 512 }
    ensures pushed { line.new.items ≡ line.old.items ++ statement_text (statement_said statement.now) }
    ensures len { array_vec_len line.new ≤ array_vec_len line.old + 301 }
{
    push_bytes(line, statement.name.as_slice());
    push_bytes(line, size_text(statement.size));
    push_operands(line, b' ', statement.operands.as_slice());
}
