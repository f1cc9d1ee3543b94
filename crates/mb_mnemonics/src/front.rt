//! The instruction that a statement means, and its length.

ghost use Rattle.std.specs.Prelude.{◌≡◌, ◌*◌, ◌<◌, ◌≤◌, IfOk, IfSome, IsTrue, length, option_map};
ghost use Rattle.std.specs.List.{list_all};
ghost use Rattle.mb_instr.specs.Codes.{IsInstr};
ghost use Rattle.mb_mnemonics.specs.Code.{is_short, said_of};
ghost use Rattle.mb_mnemonics.specs.Lines.{patterns_of};
ghost use Rattle.mb_mnemonics.specs.Means.{form_said, said_form, form_by, form_among, is_named, form_of};
ghost use Rattle.mb_mnemonics.specs.Means.{first_word, words_said, said, meaning, words_by, length_by};
ghost use Rattle.mb_mnemonics.specs.Operands.{operands_words};

use crate::endings::condition_by;
use crate::fault::MeansFault;
use crate::line::{Line, Patterns};
use crate::reading::{Said, add_operands, operand_words, takes_operands};
use crate::table::lines;
use arrayvec::ArrayVec;
use mb_decode::{Decoded, decode};
use mb_instr::{Condition, Instr, Size};
use mb_syntax::{Operand, SizeLetter};

/// A line that a statement is written by, with the condition that the name says and the size.
#[derive(Clone, Copy)]
struct Form {
    line: &'static Line,
    condition: Condition,
    size: Size,
}

/// A statement by a line.
fn form_by(
    line: &'static Line,
    name: &[u8],
    letter: Option<SizeLetter>,
    operands: &[Operand<i64>],
) -> Option<Form>
    ensures form { option_map form_said result ≡ form_by line.now name.now letter operands.now }
    ensures line { IfSome result (λ f. f.line.now ≡ line.now) }
{
    let condition = condition_by(line, name)?;
    let size = line.sizes.size(letter)?;
    if takes_operands(line.operands, size, operands) {
        Some(Form {
            line,
            condition,
            size,
        })
    } else {
        None
    }
}

/// The first of the lines that a statement is written by.
fn form_among(
    lines: &'static [Line],
    name: &[u8],
    letter: Option<SizeLetter>,
    operands: &[Operand<i64>],
) -> Option<Form>
    requires { IsTrue (list_all is_short lines.now) }
    ensures form { option_map form_said result ≡ form_among lines.now name.now letter operands.now }
    ensures short { IfSome result (λ f. IsTrue (is_short f.line.now)) }
{
    for line in lines {
        if let Some(form) = form_by(line, name, letter, operands) {
            return Some(form);
        }
    }
    None
}

/// Whether one of the lines has the name.
fn is_named(lines: &[Line], name: &[u8]) -> bool
    ensures { result ≡ is_named lines.now name.now }
{
    match lines {
        [] => false,
        [line, lines @ ..] => condition_by(line, name).is_some() || is_named(lines, name),
    }
}

/// The form of a statement.
fn form_of(
    name: &[u8],
    letter: Option<SizeLetter>,
    operands: &[Operand<i64>],
) -> Result<Form, MeansFault>
    ensures form { said_form result ≡ form_of name.now letter operands.now }
    ensures short { IfOk result (λ f. IsTrue (is_short f.line.now)) }
{
    match form_among(lines(), name, letter, operands) {
        Some(form) => Ok(form),
        None if is_named(lines(), name) => Err(MeansFault::Operand),
        None => Err(MeansFault::Name),
    }
}

/// The words of a statement.
pub type Words = ArrayVec<u16, 18>;

/// The first word: the line's bits, the condition, the size and what the operands say.
fn first_word(form: &Form, said: &Said) -> u16
    ensures { result ≡ first_word (form_said form.now) (said_of said.now) }
{
    let line = form.line;
    line.first
        .wrapping_add(u16::from(form.condition.bits()) * 256)
        .wrapping_add(line.sizes.bits(form.size))
        .wrapping_add(said.first)
}

/// The words of a form whose operands say this.
fn words_said(form: &Form, said: &Said) -> Words
    requires { IsTrue (is_short form.now.line.now) }
    ensures { result.items ≡ words_said (form_said form.now) (said_of said.now) }
{
    let line = form.line;
    let mut words = Words::new();
    words.push(first_word(form, said));
    if line.words > 0 {
        words.push(line.second.wrapping_add(said.second));
    }
    if line.words > 1 {
        words.push(said.third);
    }
    words.try_extend_from_slice(said.own.as_slice()).unwrap();
    words
}

/// The words of a statement of the form at the address; none where a number is out of its range.
fn said(form: &Form, operands: &[Operand<i64>], at: u32) -> Option<Words>
    requires { IsTrue (is_short form.now.line.now) }
    ensures { option_map (λ words. words.items) result ≡ said (form_said form.now) operands.now at }
{
    let here = at.wrapping_add(2 + 2 * u32::from(form.line.words));
    let mut said = Said::new();
    add_operands(form.line.operands, form.size, at, here, operands, &mut said)?;
    Some(words_said(form, &said))
}

/// The words that the table has for a statement at the address, as [`instruction_of`] takes one; none where no line has
/// its form, or a number is out of its range. Whether they are an instruction is left open.
pub fn words_of(
    name: &[u8],
    size: Option<SizeLetter>,
    operands: &[Operand<i64>],
    at: u32,
) -> Option<Words>
    ensures { option_map (λ words. words.items) result ≡ words_by name.now size operands.now at }
{
    let form = form_among(lines(), name, size, operands)?;
    said(&form, operands, at)
}

/// The instruction that a statement at the address means, of an operation's name, which may be in either case, its size
/// and its operands. Targets of branches and of operands relative to the PC are addresses.
pub fn instruction_of(
    name: &[u8],
    size: Option<SizeLetter>,
    operands: &[Operand<i64>],
    at: u32,
) -> Result<Instr, MeansFault>
    ensures means { result ≡ meaning name.now size operands.now at }
    ensures row { IfOk result IsInstr }
{
    let form = form_of(name, size, operands)?;
    let words = said(&form, operands, at).ok_or(MeansFault::Range)?;
    match decode(words.as_slice()) {
        Decoded::Whole(instruction, length) if usize::from(length) == words.len() => Ok(
            instruction,
        ),
        _ => Err(MeansFault::Operand),
    }
}

/// How many words the operands have.
fn operands_words(patterns: Patterns, size: Size, operands: &[Operand<i64>]) -> u32
    ensures value { result ≡ operands_words (patterns_of patterns) size operands.now }
    ensures few { result ≤ 5 * length (patterns_of patterns) }
{
    match (patterns.split_first(), operands) {
        (Some((pattern, patterns)), [operand, operands @ ..]) => {
            u32::from(operand_words(pattern, size, operand))
                + operands_words(patterns, size, operands)
        }
        _ => 0,
    }
}

/// How many bytes the instruction of a statement has, whatever its numbers are.
pub fn length_of(
    name: &[u8],
    size: Option<SizeLetter>,
    operands: &[Operand<i64>],
) -> Result<u32, MeansFault>
    ensures { result ≡ length_by name.now size operands.now }
{
    let form = form_of(name, size, operands)?;
    let words = operands_words(form.line.operands, form.size, operands);
    Ok(2 * (1 + u32::from(form.line.words) + words))
}
