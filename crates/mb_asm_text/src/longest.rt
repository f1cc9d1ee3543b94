//! The longest token at a place.

ghost use Rattle.std.specs.Prelude.{◌≡◌, ◌+◌, ◌<◌, ◌^◌, ◌==◌, ◌∷◌, None, Some, IfNone, IfSome, length};
ghost use Rattle.mb_asm_text.specs.Cut.{IsLongest, NoneBegins};
ghost use Rattle.mb_asm_text.specs.Kinds.{starts_comment};
ghost use Rattle.mb_asm_text.specs.Front.{Finds, character_found, digits_found, text_found};

use crate::class::{is_blank, is_digit, is_mark, is_name_start, is_printable};
use crate::run::{binary_digits, blanks, digits, hexadecimal_digits, name_parts, quotables};
use crate::token::{Token, TokenKind};

/// The longest token that begins at a place.
pub(crate) fn token_at(line: &[u8], start: usize) -> Option<Token>
    requires short { length line.now < 2 ^ 31 }
    requires inside { start < length line.now }
    ensures start { IfSome result (λ token. token.start ≡ start) }
    ensures found { IfSome result (λ token. IsLongest line.now token) }
    ensures none { IfNone result (NoneBegins line.now start) }
{
    let Some((kind, len)) = token_behind(line[start], &line[start + 1..], start == 0) else {
        return None;
    };
    Some(Token {
        kind,
        start: start as u32,
        end: (start + len) as u32,
    })
}

/// The kind and the length of the longest token that begins with a byte, by what stands behind it.
///
/// `first` is whether the byte stands in column 1.
fn token_behind(byte: u8, behind: &[u8], first: bool) -> Option<(TokenKind, usize)>
    requires { length behind.now < 2 ^ 31 }
    ensures { Finds first (byte ∷ behind.now) result }
{
    match byte {
        _ if starts_comment(byte, first) => Some((TokenKind::Comment, 1 + behind.len())),
        _ if is_mark(byte) => Some((TokenKind::Mark, 1)),
        _ if is_name_start(byte) => Some((TokenKind::Name, 1 + name_parts(behind))),
        _ if is_digit(byte) => Some((TokenKind::Number, 1 + digits(behind))),
        _ if is_blank(byte) => Some((TokenKind::Blank, 1 + blanks(behind))),
        b'$' => number(hexadecimal_digits(behind)),
        b'%' => number(binary_digits(behind)),
        b'\'' => character(behind),
        b'"' => text(behind),
        _ => None,
    }
}

/// Whether a comment begins with the byte.
fn starts_comment(byte: u8, first: bool) -> bool
    ensures { result ≡ starts_comment first byte }
{
    byte == b';' || first && byte == b'*'
}

/// A number of so many digits behind the byte that says their base.
fn number(digits: usize) -> Option<(TokenKind, usize)>
    requires { digits < 2 ^ 31 }
    ensures { result ≡ digits_found digits }
{
    if digits == 0 {
        return None;
    }
    Some((TokenKind::Number, 1 + digits))
}

/// What stands behind an apostrophe: a character and another apostrophe.
fn character(behind: &[u8]) -> Option<(TokenKind, usize)>
    ensures { result ≡ character_found behind.now }
{
    match behind {
        [byte, b'\'', ..] if is_printable(*byte) => Some((TokenKind::Number, 3)),
        _ => None,
    }
}

/// What stands behind a quotation mark, up to the next one.
#[tactic(auto, using(crate::proofs::Runs::run_within))]
fn text(behind: &[u8]) -> Option<(TokenKind, usize)>
    ensures { result ≡ text_found behind.now }
{
    let len = quotables(behind);
    if len < behind.len() && behind[len] == b'"' {
        Some((TokenKind::Text, 2 + len))
    } else {
        None
    }
}
