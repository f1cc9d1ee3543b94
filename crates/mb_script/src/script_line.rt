//! What one line of a script says by itself.

ghost use Rattle.std.specs.Prelude.{◌≡◌, ◌≤◌, ◌+◌, IfOk, IfSome, length, option_map, position};
ghost use Rattle.std.specs.List.{list_all};
ghost use Rattle.std.specs.Option.{ok_or};
ghost use Rattle.std.specs.Result.{result_ok};
ghost use Rattle.hex.specs.Hex.{decode_of};
ghost use Rattle.mb_script.specs.declared.fault.LineWhy.TheVariants as why;
ghost use Rattle.mb_script.specs.Words.{cut_at_space, is_space, is_word};
ghost use Rattle.mb_script.specs.Scripts.{arrival_of, inputs_of, is_printable, parts_of, printable, written_as};
ghost use Rattle.mb_script.specs.Answers.{GivesAlone, arrival_said, bytes_said, cut_said, due_said, parts_said, written_len, written_said};

use crate::arrival::{Arrival, Due};
use crate::fault::{LineWhy, Refusal};
use crate::number::positive_of;
use hex::FromHexError;
use std::alloc::Global;

/// How a line writes what arrives.
#[derive(Clone, Copy)]
enum Written<'a> {
    /// Bytes as pairs of hexadecimal digits.
    Hex(&'a [u8]),
    /// Bytes as they are.
    Text(&'a [u8]),
    /// As they are, with a LF behind them.
    WithLineFeed(&'a [u8]),
    /// The abort key, which writes no byte.
    Abort,
}

/// The words of a line.
#[derive(Clone, Copy)]
struct Parts<'a> {
    step: &'a [u8],
    written: Written<'a>,
}

/// What arrives by a line.
pub(crate) fn arrival_of<'a>(alloc: Global, line: &'a [u8]) -> Result<Arrival<'a>, Refusal>
    ensures given { GivesAlone arrival_said result (arrival_of line.entry.now) }
    ensures short { IfOk result (λ arrival. length (due_said arrival.due) ≤ length line.entry.now) }
{
    let Some(parts) = parts_of(line) else {
        return Err(Refusal::Why(LineWhy::Word));
    };
    let Some(step) = positive_of(parts.step) else {
        return Err(Refusal::Why(LineWhy::Number));
    };
    let due = due_of(alloc, parts.written)?;
    Ok(Arrival { step, due })
}

/// How many entries a line makes, where it has the words of one.
pub(crate) fn entries_in(line: &[u8]) -> Option<usize> {
    let entries = match parts_of(line)?.written {
        Written::Hex(digits) => digits.len() / 2,
        Written::Text(text) => text.len(),
        Written::WithLineFeed(text) => text.len() + 1,
        Written::Abort => 1,
    };
    Some(entries)
}

/// What comes before the first space, and what comes after it.
#[tactic(auto, using(crate::proofs::Cuts::cut_found, crate::proofs::Cuts::cut_none))]
fn cut_at_space(line: &[u8]) -> Option<(&[u8], &[u8])>
    ensures given { option_map cut_said result ≡ cut_at_space line.now }
    ensures short { IfSome result (λ (_, behind). length behind.now + 1 ≤ length line.now) }
{
    match space(line) {
        None => None,
        Some(end) => Some((&line[..end], &line[end + 1..])),
    }
}

/// The place of the first space.
fn space(line: &[u8]) -> Option<usize>
    ensures { result ≡ position is_space line.now }
{
    line.iter().position(|&character| character == b' ')
}

/// One or more characters, and no space.
fn is_word(characters: &[u8]) -> bool
    ensures { result ≡ is_word characters.now }
{
    !characters.is_empty() && characters.iter().all(|&character| character != b' ')
}

/// The words of a line `at STEP ..`.
fn parts_of(line: &[u8]) -> Option<Parts<'_>>
    ensures given { option_map parts_said result ≡ parts_of line.now }
    ensures short { IfSome result (λ parts. written_len parts.written + 1 ≤ length line.now) }
{
    let (first, words) = cut_at_space(line)?;
    if first != b"at".as_slice() {
        return None;
    }
    let (step, words) = cut_at_space(words)?;
    if !is_word(step) {
        return None;
    }
    let written = written_as(words)?;
    Some(Parts { step, written })
}

/// What stands behind `at STEP `.
fn written_as(words: &[u8]) -> Option<Written<'_>>
    ensures given { option_map written_said result ≡ written_as words.now }
    ensures short { IfSome result (λ written. written_len written ≤ length words.now) }
{
    if words == b"abort".as_slice() {
        return Some(Written::Abort);
    }
    let (form, rest) = cut_at_space(words)?;
    if form == b"hex".as_slice() {
        if !is_word(rest) {
            return None;
        }
        Some(Written::Hex(rest))
    } else if form == b"text".as_slice() {
        Some(Written::Text(rest))
    } else if form == b"line".as_slice() {
        Some(Written::WithLineFeed(rest))
    } else {
        None
    }
}

/// What the line lets arrive.
fn due_of<'a>(alloc: Global, written: Written<'a>) -> Result<Due<'a>, Refusal>
    ensures given { GivesAlone due_said result (ok_or (inputs_of (written_said written.entry)) why.Digits) }
    ensures short { IfOk result (λ due. length (due_said due) ≤ written_len written.entry + 1) }
{
    match written {
        Written::Hex(digits) => Ok(Due::Spelled(bytes_of_pairs(alloc, digits)?)),
        Written::Text(text) => Ok(Due::Text(printable(text)?)),
        Written::WithLineFeed(text) => Ok(Due::WithLineFeed(printable(text)?)),
        Written::Abort => Ok(Due::Abort),
    }
}

/// The bytes that pairs of hexadecimal digits spell.
#[tactic(auto, using(crate::proofs::Pairs::shorter))]
fn bytes_of_pairs(alloc: Global, digits: &[u8]) -> Result<Vec<u8>, Refusal>
    ensures given { GivesAlone (λ bytes. bytes.items) result (ok_or (result_ok (decode_of digits.now)) why.Digits) }
    ensures short { IfOk result (λ bytes. length bytes.items ≤ length digits.now) }
{
    match hex::decode(alloc, digits) {
        Ok(bytes) => Ok(bytes),
        Err(FromHexError::OutOfMemory) => Err(Refusal::Memory),
        Err(_) => Err(Refusal::Why(LineWhy::Digits)),
    }
}

/// A text of bytes from $20 to $7E.
fn printable<'a>(text: &'a [u8]) -> Result<&'a [u8], Refusal>
    ensures given { GivesAlone bytes_said result (ok_or (printable text.entry.now) why.Digits) }
    ensures short { IfOk result (λ bytes. length bytes.now ≤ length text.entry.now) }
{
    if are_printable(text) {
        Ok(text)
    } else {
        Err(Refusal::Why(LineWhy::Digits))
    }
}

fn are_printable(text: &[u8]) -> bool
    ensures { result ≡ list_all is_printable text.now }
{
    text.iter().all(|&character| is_printable(character))
}

fn is_printable(character: u8) -> bool
    ensures { result ≡ is_printable character }
{
    matches!(character, b' '..=b'~')
}
