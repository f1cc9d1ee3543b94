//! The instructions on bit fields.

ghost use Rattle.std.specs.Prelude.{◌≡◌, ◌<◌, ◌≤◌, ◌+◌, ◌-◌, ◌*◌, ◌%◌, ◌^◌};
ghost use Rattle.mb_port.specs.Routine.{run};
ghost use Rattle.mb_instr.specs.Operands.{IsEa, IsData};
ghost use Rattle.mb_instr.specs.FurtherWords.{field_word};
ghost use Rattle.def_instructions.specs.BitFields.{field_offset_of, width_bits, field_width_of, is_change, field_after};
ghost use Rattle.def_instructions.specs.BitFields.{field_flags, field_seen, field_signed, with_result, field_done};
ghost use Rattle.def_instructions.specs.BitFields.{field_in_register_of, field_in_memory_of, bytes_before, bytes_held};
ghost use Rattle.def_instructions.specs.BitFields.{bit_field_of};
ghost use Rattle.mb_operands.specs.Endings.{carried_by};

use mb_alu::Conditions;
use mb_ea::read_operand;
use mb_fields::{field_first, field_get, field_put};
use mb_instr::{Ea, FieldKind, Plain, Size};
use mb_operands::{Stream, Undone, find_address, unread, unwritten};
use mb_port::{Port, Space};
use mb_writes::{Ended, write_operand};

/// The number of the data register that the word names.
#[inline(always)]
fn field_register(word: u16) -> usize
    ensures value { result ≡ (field_word word).register }
    ensures range { result < 8 }
{
    (word >> 12 & 7) as usize
}

/// The offset of the field: a data register, or a number in the word.
#[inline(always)]
fn field_offset(word: u16, plain: &Plain) -> u32
    ensures { result ≡ field_offset_of word plain.now }
{
    let field = word >> 6;
    if word >> 11 & 1 == 1 {
        plain.d[(field & 7) as usize]
    } else {
        u32::from(field & 31)
    }
}

/// The width of the field modulo 32: of a data register, or a number in the word.
#[inline(always)]
fn width_bits(word: u16, plain: &Plain) -> u8
    ensures value { result ≡ width_bits word plain.now }
    ensures range { result < 32 }
{
    if word >> 5 & 1 == 1 {
        (plain.d[(word & 7) as usize] & 31) as u8
    } else {
        (word & 31) as u8
    }
}

/// The width of the field, 1 to 32.
#[inline(always)]
fn field_width(word: u16, plain: &Plain) -> u8
    ensures value { result ≡ field_width_of word plain.now }
    ensures some { 1 ≤ result }
    ensures range { result ≤ 32 }
{
    match width_bits(word, plain) {
        0 => 32,
        width => width,
    }
}

/// The greatest number of that width.
#[inline(always)]
fn ones(width: u8) -> u32
    requires { width ≤ 32 }
    ensures { result ≡ 2 ^ width - 1 }
{
    ((1u64 << width) - 1) as u32
}

/// The low bits of a value, as many as the width.
#[inline(always)]
#[tactic(auto, using(mb_port::proofs::Laid::masked))]
fn low(width: u8, value: u32) -> u32
    requires { width ≤ 32 }
    ensures value { result ≡ value % 2 ^ width }
    ensures range { result < 2 ^ width }
{
    value & ones(width)
}

/// Whether the row writes its field.
#[inline(always)]
fn is_change(kind: FieldKind) -> bool
    ensures { result ≡ is_change kind }
{
    match kind {
        FieldKind::Test
        | FieldKind::ExtractUnsigned
        | FieldKind::ExtractSigned
        | FieldKind::FindFirst => false,
        FieldKind::Change | FieldKind::Clear | FieldKind::Set | FieldKind::Insert => true,
    }
}

/// The field after the row; `value` is what BFINS inserts the low bits of.
#[inline(always)]
fn field_after(kind: FieldKind, width: u8, old: u32, value: u32) -> u32
    requires width { width ≤ 32 }
    requires old { old < 2 ^ width }
    ensures { result ≡ field_after kind width old value }
{
    match kind {
        FieldKind::Change => ones(width) - old,
        FieldKind::Clear => 0,
        FieldKind::Set => ones(width),
        FieldKind::Insert => low(width, value),
        FieldKind::Test
        | FieldKind::ExtractUnsigned
        | FieldKind::ExtractSigned
        | FieldKind::FindFirst => old,
    }
}

/// The field whose flags are set.
#[inline(always)]
fn field_seen(kind: FieldKind, width: u8, old: u32, value: u32) -> u32
    requires width { width ≤ 32 }
    requires old { old < 2 ^ width }
    ensures value { result ≡ field_seen kind width old value }
    ensures range { result < 2 ^ width }
{
    match kind {
        FieldKind::Insert => low(width, value),
        FieldKind::Test
        | FieldKind::ExtractUnsigned
        | FieldKind::Change
        | FieldKind::ExtractSigned
        | FieldKind::Clear
        | FieldKind::FindFirst
        | FieldKind::Set => old,
    }
}

/// N is a field's top bit, Z says that the field is 0, V and C are clear, X as it was.
#[inline(always)]
fn field_flags(width: u8, value: u32, ccr: u8) -> u8
    requires some { 1 ≤ width }
    requires width { width ≤ 32 }
    requires value { value < 2 ^ width }
    ensures { result ≡ field_flags width value ccr }
{
    let codes = Conditions {
        x: Conditions::of(ccr).x,
        n: value >> (width - 1) & 1 == 1,
        z: value == 0,
        v: false,
        c: false,
    };
    codes.ccr()
}

/// The field with its sign.
#[inline(always)]
fn field_signed(width: u8, old: u32) -> u32
    requires some { 1 ≤ width }
    requires width { width ≤ 32 }
    requires old { old < 2 ^ width }
    ensures { result ≡ field_signed width old }
{
    if old < 1 << (width - 1) {
        old
    } else {
        old + (u32::MAX - ones(width))
    }
}

/// What goes to register `n`: the field with zeros or its sign, or the offset of its first one.
#[inline(always)]
fn put_result(kind: FieldKind, n: usize, offset: u32, width: u8, old: u32, plain: &mut Plain)
    requires register { n < 8 }
    requires some { 1 ≤ width }
    requires width { width ≤ 32 }
    requires old { old < 2 ^ width }
    ensures { plain.new ≡ with_result kind n offset width old plain.old }
{
    match kind {
        FieldKind::ExtractUnsigned => plain.d[n] = old,
        FieldKind::ExtractSigned => plain.d[n] = field_signed(width, old),
        FieldKind::FindFirst => {
            plain.d[n] = offset.wrapping_add(u32::from(field_first(old, width)));
        }
        FieldKind::Test
        | FieldKind::Change
        | FieldKind::Clear
        | FieldKind::Set
        | FieldKind::Insert => {}
    }
}

/// What the row does with the registers, where this is its field.
#[inline(always)]
fn finish_field(kind: FieldKind, word: u16, old: u32, plain: &mut Plain)
    requires { old < 2 ^ field_width_of word plain.old }
    ensures { plain.new ≡ field_done kind word old plain.old }
{
    let n = field_register(word);
    let width = field_width(word, plain);
    let seen = field_seen(kind, width, old, plain.d[n]);
    let ccr = field_flags(width, seen, plain.ccr);
    put_result(kind, n, field_offset(word, plain), width, old, plain);
    plain.ccr = ccr;
}

/// A field in data register `n`, where it wraps round.
#[inline(always)]
fn field_in_register(kind: FieldKind, word: u16, n: u8, plain: &mut Plain)
    requires { n < 8 }
    ensures { plain.new ≡ field_in_register_of kind word n plain.old }
{
    let (offset, width) = (field_offset(word, plain), field_width(word, plain));
    let turned = u64::from(plain.d[n as usize].rotate_left(offset));
    let old = field_get(turned, 32, 0, width);
    let new = field_after(kind, width, old, plain.d[field_register(word)]);
    let changed = (field_put(turned, 32, 0, width, new) as u32).rotate_right(offset);
    finish_field(kind, word, old, plain);
    if is_change(kind) {
        plain.d[n as usize] = changed;
    }
}

/// The bytes from the operand's address to the field's first byte, by the signed offset.
#[inline(always)]
fn bytes_before(offset: u32) -> u32
    ensures { result ≡ bytes_before offset }
{
    if offset < 1 << 31 {
        offset / 8
    } else {
        offset / 8 + (7 << 29)
    }
}

/// How many bytes hold the field.
#[inline(always)]
fn bytes_held(offset: u32, width: u8) -> u8
    requires some { 1 ≤ width }
    requires width { width ≤ 32 }
    ensures value { result ≡ bytes_held offset width }
    ensures some { 1 ≤ result }
    ensures few { result ≤ 5 }
{
    ((offset % 8) as u8 + width + 7) / 8
}

/// A field in memory: exactly the bytes that hold it are read and, where the row changes it, written.
#[inline(always)]
fn field_in_memory<P: Port>(
    kind: FieldKind,
    word: u16,
    address: u32,
    space: Space,
    plain: &mut Plain,
    port: &mut P,
    ended: &mut Ended,
) -> Result<(), Undone>
    ensures means { run P.bus (field_in_memory_of kind word address space plain.old) (P.world port.old)
        ≡ (carried_by result ended.new plain.new, P.world port.new) }
    ensures rest { P.rest port.new ≡ P.rest port.old }
{
    let (offset, width) = (field_offset(word, plain), field_width(word, plain));
    let first = address.wrapping_add(bytes_before(offset));
    let held = bytes_held(offset, width);
    let bytes = match read_operand(space, first, held, port) {
        Ok(bytes) => bytes,
        Err(refused) => return Err(unread(&refused, ended)),
    };
    let bit = (offset % 8) as u8;
    let old = field_get(bytes, 8 * held, bit, width);
    let new = field_after(kind, width, old, plain.d[field_register(word)]);
    finish_field(kind, word, old, plain);
    if is_change(kind) {
        let changed = field_put(bytes, 8 * held, bit, width, new);
        match write_operand(space, first, held, changed, port) {
            Ok(()) => Ok(()),
            Err(refused) => Err(unwritten(refused, ended)),
        }
    } else {
        Ok(())
    }
}

/// BFTST, BFEXTU, BFCHG, BFEXTS, BFCLR, BFFFO, BFSET and BFINS.
#[inline(always)]
pub(crate) fn bit_field<P: Port>(
    kind: FieldKind,
    ea: &Ea,
    word: u16,
    stream: Stream,
    plain: &mut Plain,
    port: &mut P,
    ended: &mut Ended,
) -> Result<(), Undone>
    requires operand { IsEa Size.Long ea.now }
    requires place { IsData ea.now }
    ensures means { run P.bus (bit_field_of kind ea.now word stream.at stream.space plain.old) (P.world port.old)
        ≡ (carried_by result ended.new plain.new, P.world port.new) }
    ensures rest { P.rest port.new ≡ P.rest port.old }
{
    if let Ea::Dn(n) = *ea {
        field_in_register(kind, word, n, plain);
        return Ok(());
    }
    match find_address(Size::Long, ea, stream, plain, port) {
        Ok(address) => field_in_memory(kind, word, address, stream.space, plain, port, ended),
        Err(refused) => Err(unread(&refused, ended)),
    }
}
