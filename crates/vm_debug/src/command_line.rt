//! The command that one line says.

ghost use Rattle.std.specs.Prelude.{◌≡◌, ◌<◌, IfSome, MatchResult, option_map, position};
ghost use Rattle.mb_script.specs.Words.{cut_at_space, is_space, is_word, number_of};
ghost use Rattle.mb_script.specs.Answers.{cut_said};
ghost use Rattle.vm_debug.specs.Commands.{address_in, address_of, command_by, command_of, hex_digit_of, number_in};
ghost use Rattle.vm_debug.specs.Commands.{row_of, rows_in, word_in};

use crate::command::Command;
use mb_script::LineWhy;

/// The command in a line, or why there is none.
pub(crate) fn command_of(line: &[u8]) -> Result<Command, LineWhy>
    ensures { result ≡ command_of line.now }
{
    if line == b"regs".as_slice() {
        return Ok(Command::Regs);
    }
    if line == b"kept".as_slice() {
        return Ok(Command::Kept);
    }
    let (name, words) = cut_at_space(line).ok_or(LineWhy::Word)?;
    command_by(name, words)
}

/// The command of a name with the words behind it.
fn command_by(name: &[u8], words: &[u8]) -> Result<Command, LineWhy>
    ensures { result ≡ command_by (name.now, words.now) }
{
    if name == b"step".as_slice() {
        Ok(Command::Step(number_in(words)?))
    } else if name == b"go".as_slice() {
        Ok(Command::Go(number_in(words)?))
    } else if name == b"break".as_slice() {
        Ok(Command::Break(address_in(words)?))
    } else if name == b"clear".as_slice() {
        Ok(Command::Clear(address_in(words)?))
    } else if name == b"mem".as_slice() {
        rows_in(words)
    } else {
        Err(LineWhy::Word)
    }
}

/// `HEX N`, an address and a number of rows.
fn rows_in(characters: &[u8]) -> Result<Command, LineWhy>
    ensures { result ≡ rows_in characters.now }
{
    let (at, count) = cut_at_space(characters).ok_or(LineWhy::Word)?;
    let at = word_in(at)?;
    let count = word_in(count)?;
    let rows = number_of(count).ok_or(LineWhy::Number)?;
    let address = row_of(at).ok_or(LineWhy::Digits)?;
    Ok(Command::Mem(address, rows))
}

/// `N`, a number.
fn number_in(characters: &[u8]) -> Result<u32, LineWhy>
    ensures { result ≡ number_in characters.now }
{
    number_of(word_in(characters)?).ok_or(LineWhy::Number)
}

/// `HEX`, an address.
fn address_in(characters: &[u8]) -> Result<u32, LineWhy>
    ensures { result ≡ address_in characters.now }
{
    address_of(word_in(characters)?).ok_or(LineWhy::Digits)
}

/// One word: one or more characters, and no space.
fn word_in(characters: &[u8]) -> Result<&[u8], LineWhy>
    ensures { MatchResult result (λ word. word_in characters.entry.now ≡ Ok word.now)
        (λ why. word_in characters.entry.now ≡ Err why) }
{
    if is_word(characters) {
        Ok(characters)
    } else {
        Err(LineWhy::Word)
    }
}

fn is_word(characters: &[u8]) -> bool
    ensures { result ≡ is_word characters.now }
{
    !characters.is_empty() && characters.iter().all(|&character| character != b' ')
}

/// What comes before the first space, and what comes after it.
#[tactic(auto, using(mb_script::proofs::Cuts::cut_found, mb_script::proofs::Cuts::cut_none))]
fn cut_at_space(line: &[u8]) -> Option<(&[u8], &[u8])>
    ensures { option_map cut_said result ≡ cut_at_space line.now }
{
    match space(line) {
        None => None,
        Some(end) => Some((&line[..end], &line[end + 1..])),
    }
}

/// The place of the first space.
fn space(line: &[u8]) -> Option<usize>
    ensures { result ≡ position is_space line.now }
{
    line.iter().position(|&character| character == b' ')
}

/// One to eight hexadecimal digits of a multiple of 16.
fn row_of(word: &[u8]) -> Option<u32>
    ensures { result ≡ row_of word.now }
{
    let at = address_of(word)?;
    if at % 16 != 0 {
        return None;
    }
    Some(at)
}

/// One to eight hexadecimal digits.
fn address_of(word: &[u8]) -> Option<u32>
    ensures { result ≡ address_of word.now }
{
    if word.is_empty() || word.len() > 8 {
        return None;
    }
    let mut address: u32 = 0;
    for &digit in word {
        let value = hex_digit_of(digit)?;
        address = 16 * address + value;
    }
    Some(address)
}

/// The value of a hexadecimal digit of either case.
fn hex_digit_of(digit: u8) -> Option<u32>
    ensures value { result ≡ hex_digit_of digit }
    ensures small { IfSome result (λ value. value < 16) }
{
    char::from(digit).to_digit(16)
}

/// Decimal digits, at least one, that spell at most 4,294,967,295.
#[tactic(auto, using(mb_script::proofs::Numbers::all_read))]
fn number_of(word: &[u8]) -> Option<u32>
    ensures { result ≡ number_of word.now }
{
    if word.is_empty() {
        return None;
    }
    let mut number: u32 = 0;
    for &digit in word {
        if !digit.is_ascii_digit() {
            return None;
        }
        let next = 10 * u64::from(number) + u64::from(digit - b'0');
        if next > u64::from(u32::MAX) {
            return None;
        }
        number = next as u32;
    }
    Some(number)
}
