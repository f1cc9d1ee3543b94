//! The words of a line.

ghost use Rattle.std.specs.Prelude.{◌≡◌, ◌+◌, ◌*◌, ◌≤◌, IfOk};
ghost use Rattle.mb_syntax.specs.Code.{narrow_number};
ghost use Rattle.mb_syntax.specs.Tables.{found_in};
ghost use Rattle.mb_syntax.specs.Words.{character_of, digit_value, digits_behind, name_word};
ghost use Rattle.mb_syntax.specs.Words.{number_of, number_word, word_of, words_of};

use crate::naming::{caches_of, register_of, size_letter};
use crate::table::found_in;
use crate::word::{Name, Word};
use mb_asm_text::{Token, TokenKind};
use std::alloc::{AllocError, Global};

#[rattlefmt::skip]
const MARKS: [(&[u8], Word); 14] = [
    (b"#", Word::Hash),
    (b"(", Word::Open),
    (b")", Word::Close),
    (b"[", Word::OpenSquare),
    (b"]", Word::CloseSquare),
    (b"{", Word::OpenBrace),
    (b"}", Word::CloseBrace),
    (b",", Word::Comma),
    (b".", Word::Dot),
    (b":", Word::Colon),
    (b"+", Word::Plus),
    (b"-", Word::Minus),
    (b"*", Word::Star),
    (b"/", Word::Slash),
];

/// The words of a line that is cut into the tokens.
pub(crate) fn words_of(
    alloc: Global,
    line: &[u8],
    tokens: &[Token],
) -> Result<Vec<Word>, AllocError>
    ensures { IfOk result (λ words. words.items ≡ words_of line.now tokens.now) }
{
    let mut words = Vec::new(alloc);
    for token in tokens {
        if let Some(word) = word_of(line, token) {
            words.push(word)?;
        }
    }
    Ok(words)
}

/// What a token says; a comment says nothing.
#[tactic(auto, unfolding(crate::specs::Words::word_of))]
fn word_of(line: &[u8], token: &Token) -> Option<Word>
    ensures { result ≡ word_of line.now token.now }
{
    let name = Name {
        start: token.start,
        end: token.end,
    };
    let text = name.bytes(line);
    match token.kind {
        TokenKind::Name => Some(name_word(text, name)),
        TokenKind::Number => Some(number_word(text)),
        TokenKind::Text => Some(Word::Text(name)),
        TokenKind::Mark => found_in(&MARKS, text),
        TokenKind::Blank => Some(Word::Blank),
        TokenKind::Comment => None,
    }
}

fn name_word(text: &[u8], name: Name) -> Word
    ensures { result ≡ name_word text.now name }
{
    if let Some(register) = register_of(text) {
        return Word::Register(register, name);
    }
    if let Some(letter) = size_letter(text) {
        return Word::Letter(letter, name);
    }
    if let Some(caches) = caches_of(text) {
        return Word::Cache(caches, name);
    }
    Word::Name(name)
}

fn number_word(text: &[u8]) -> Word
    ensures { result ≡ number_word (number_of text.now) }
{
    match text {
        [b'$', digits @ ..] => number(16, digits),
        [b'%', digits @ ..] => number(2, digits),
        [b'\'', behind @ ..] => Word::Number(u32::from(character_of(behind))),
        digits => number(10, digits),
    }
}

/// What stands behind the first apostrophe.
fn character_of(behind: &[u8]) -> u8
    ensures { result ≡ character_of behind.now }
{
    match behind {
        [character, ..] => *character,
        [] => 0,
    }
}

/// The number that digits of either case spell.
#[tactic(auto, using(crate::proofs::Numbers::too_wide, crate::proofs::Numbers::all_read))]
fn number(base: u32, digits: &[u8]) -> Word
    requires { 1 ≤ base }
    ensures { result ≡ number_word (digits_behind base 0 digits.now) }
{
    let mut number: u32 = 0;
    for &digit in digits {
        match with_digit(base, number, digit) {
            Some(next) => number = next,
            None => return Word::WideNumber,
        }
    }
    Word::Number(number)
}

/// The number with one digit more, if it has 32 bits at most.
fn with_digit(base: u32, number: u32, digit: u8) -> Option<u32>
    ensures { result ≡ narrow_number (base * number + digit_value digit) }
{
    let shifted = number.checked_mul(base)?;
    shifted.checked_add(u32::from(digit_value(digit)))
}

/// The value of a hexadecimal digit of either case.
fn digit_value(digit: u8) -> u8
    ensures { result ≡ digit_value digit }
{
    match digit {
        b'0'..=b'9' => digit - b'0',
        b'A'..=b'F' => digit - b'A' + 10,
        _ => digit.saturating_sub(b'a' - 10),
    }
}
