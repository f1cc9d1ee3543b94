//! The words of a spelling.

ghost use Rattle.std.specs.Prelude.{◌≡◌, ◌+◌, ◌≤◌, ◌++◌, [], ◌∷◌, true};
ghost use Rattle.arrayvec.specs.ArrayVec.{array_vec_len};
ghost use Rattle.mb_instr.specs.Opcodes.{word_of, IsOpcode};
ghost use Rattle.mb_instr.specs.Operands.{mode, lower, long_words, ext, immediate, more, wide};
ghost use Rattle.mb_instr.specs.Operands.{is_spelled, is_immediate, fits_width, is_ext};
ghost use Rattle.mb_instr.specs.declared.operand.Ext.TheVariants.{Full};
ghost use Rattle.mb_encode.specs.Spellings.{row_of, has_words, further_words};
ghost use Rattle.mb_encode.specs.Encodes.{Gives, written};

use crate::spelling::{Further, Spelling};
use arrayvec::ArrayVec;
use mb_instr::{Ea, Ext, MOST_WORDS, Opcode, Size, is_full};

/// The words of an instruction.
pub type Words = ArrayVec<u16, MOST_WORDS>;

/// No row of the table has the value.
#[derive(Clone, Copy, Debug, PartialEq, Eq)]
pub struct Unencodable;

/// The mode that the first word has for an operand.
pub fn mode(ea: &Ea) -> u8
    ensures { result ≡ mode ea.now }
{
    match *ea {
        Ea::Dn(_) => 0,
        Ea::An(_) => 1,
        Ea::Ind(_) => 2,
        Ea::Post(_) => 3,
        Ea::Pre(_) => 4,
        Ea::Disp(_, _) => 5,
        Ea::Index(_, _) => 6,
        Ea::AbsW(_) | Ea::AbsL(_) | Ea::PcDisp(_) | Ea::PcIndex(_) | Ea::Imm(_) => 7,
    }
}

/// The register field that the first word has for an operand.
pub fn lower(ea: &Ea) -> u8
    ensures { result ≡ lower ea.now }
{
    match *ea {
        Ea::Dn(n)
        | Ea::An(n)
        | Ea::Ind(n)
        | Ea::Post(n)
        | Ea::Pre(n)
        | Ea::Disp(n, _)
        | Ea::Index(n, _) => n,
        Ea::AbsW(_) => 0,
        Ea::AbsL(_) => 1,
        Ea::PcDisp(_) => 2,
        Ea::PcIndex(_) => 3,
        Ea::Imm(_) => 4,
    }
}

fn fits(width: u16, value: u32) -> bool
    ensures { result ≡ fits_width width value }
{
    match width {
        2 => value < 65536,
        3 => true,
        _ => value == 0,
    }
}

fn is_extension(extension: &Ext) -> bool
    ensures { result ≡ is_ext extension.now }
{
    match *extension {
        Ext::Brief(word) => (word >> 8) & 1 == 0,
        Ext::Full { word, bd, od } => {
            (word >> 8) & 1 != 0 && is_full(word) && fits((word >> 4) & 3, bd) && fits(word & 3, od)
        }
    }
}

/// Whether an immediate fits the size; a byte has its whole word.
fn is_immediate(size: Size, value: u32) -> bool
    ensures { result ≡ is_immediate size value }
{
    match size {
        Size::Byte | Size::Word => value < 65536,
        Size::Long => true,
    }
}

/// Whether the operand has a spelling.
fn is_spelled(size: Size, ea: &Ea) -> bool
    ensures { result ≡ is_spelled size ea.now }
{
    match *ea {
        Ea::Index(_, extension) | Ea::PcIndex(extension) => is_extension(&extension),
        Ea::Imm(value) => is_immediate(size, value),
        _ => true,
    }
}

/// The first word.
fn start(op: Opcode) -> Words
    requires { IsOpcode op }
    ensures items { result.items ≡ word_of op ∷ [] }
    ensures len { array_vec_len result ≡ 1 }
{
    let mut out = Words::new();
    out.push(op.word());
    out
}

fn push_long(value: u32, out: &mut Words)
    requires { array_vec_len out.old + 2 ≤ MOST_WORDS }
    ensures items { out.new.items ≡ out.old.items ++ long_words value }
    ensures len { array_vec_len out.new ≡ array_vec_len out.old + 2 }
{
    out.push((value >> 16) as u16);
    out.push((value & 0xffff) as u16);
}

fn push_immediate(size: Size, value: u32, out: &mut Words)
    requires room { array_vec_len out.old + 2 ≤ MOST_WORDS }
    requires fits { is_immediate size value ≡ true }
    ensures items { out.new.items ≡ out.old.items ++ immediate size value }
    ensures len { array_vec_len out.new ≤ array_vec_len out.old + 2 }
{
    match size {
        Size::Byte | Size::Word => out.push(value as u16),
        Size::Long => push_long(value, out),
    }
}

fn push_wide(width: u16, value: u32, out: &mut Words)
    requires room { array_vec_len out.old + 2 ≤ MOST_WORDS }
    requires fits { fits_width width value ≡ true }
    ensures items { out.new.items ≡ out.old.items ++ wide width value }
    ensures len { array_vec_len out.new ≤ array_vec_len out.old + 2 }
{
    if width == 2 {
        out.push(value as u16);
    } else if width == 3 {
        push_long(value, out);
    }
}

fn push_full(word: u16, bd: u32, od: u32, out: &mut Words)
    requires room { array_vec_len out.old + 5 ≤ MOST_WORDS }
    requires legal { is_ext (Full word bd od) ≡ true }
    ensures items { out.new.items ≡ out.old.items ++ ext (Full word bd od) }
    ensures len { array_vec_len out.new ≤ array_vec_len out.old + 5 }
{
    out.push(word);
    push_wide((word >> 4) & 3, bd, out);
    push_wide(word & 3, od, out);
}

fn push_extension(extension: &Ext, out: &mut Words)
    requires room { array_vec_len out.old + 5 ≤ MOST_WORDS }
    requires legal { is_ext extension.now ≡ true }
    ensures items { out.new.items ≡ out.old.items ++ ext extension.now }
    ensures len { array_vec_len out.new ≤ array_vec_len out.old + 5 }
{
    match *extension {
        Ext::Brief(word) => out.push(word),
        Ext::Full { word, bd, od } => push_full(word, bd, od, out),
    }
}

/// An operand's words.
fn push_more(size: Size, ea: &Ea, out: &mut Words)
    requires room { array_vec_len out.old + 5 ≤ MOST_WORDS }
    requires legal { is_spelled size ea.now ≡ true }
    ensures items { out.new.items ≡ out.old.items ++ more size ea.now }
    ensures len { array_vec_len out.new ≤ array_vec_len out.old + 5 }
{
    match *ea {
        Ea::Disp(_, word) | Ea::AbsW(word) | Ea::PcDisp(word) => out.push(word),
        Ea::Index(_, extension) | Ea::PcIndex(extension) => push_extension(&extension, out),
        Ea::AbsL(address) => push_long(address, out),
        Ea::Imm(value) => push_immediate(size, value, out),
        _ => {}
    }
}

fn has_words(further: &Further) -> bool
    ensures { result ≡ has_words further.now }
{
    match *further {
        Further::Nothing | Further::Word(_) | Further::Words(_, _) | Further::Long(_) => true,
        Further::Operand(size, ea) | Further::WordOperand(_, size, ea) => is_spelled(size, &ea),
        Further::ImmediateOperand(immediate, size, ea) => is_immediate(size, immediate)
            && is_spelled(size, &ea),
        Further::Operands(size, first, second) => is_spelled(size, &first)
            && is_spelled(size, &second),
    }
}

fn push_further(further: &Further, out: &mut Words)
    requires room { array_vec_len out.old + 10 ≤ MOST_WORDS }
    requires legal { has_words further.now ≡ true }
    ensures { out.new.items ≡ out.old.items ++ further_words further.now }
{
    match *further {
        Further::Nothing => {}
        Further::Word(word) => out.push(word),
        Further::Words(first, second) => {
            out.push(first);
            out.push(second);
        }
        Further::Long(value) => push_long(value, out),
        Further::Operand(size, ea) => push_more(size, &ea, out),
        Further::WordOperand(word, size, ea) => {
            out.push(word);
            push_more(size, &ea, out);
        }
        Further::ImmediateOperand(immediate, size, ea) => {
            push_immediate(size, immediate, out);
            push_more(size, &ea, out);
        }
        Further::Operands(size, first, second) => {
            push_more(size, &first, out);
            push_more(size, &second, out);
        }
    }
}

/// The words, where the row has the values and they fit the bits.
pub fn write(spelling: &Spelling) -> Result<Words, Unencodable>
    ensures { Gives (λ v. v.items) result (written (row_of spelling.now)) }
{
    if !(spelling.is_legal && has_words(&spelling.further) && spelling.opcode.is_opcode()) {
        return Err(Unencodable);
    }
    let mut out = start(spelling.opcode);
    push_further(&spelling.further, &mut out);
    Ok(out)
}
