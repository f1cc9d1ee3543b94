//! Tokens.

ghost use Rattle.std.specs.Prelude.{◌≡◌};

use std::marker::Model;

/// What a token is.
#[derive(Clone, Copy, PartialEq, Eq)]
pub enum TokenKind {
    /// Letters, digits and `_`, not beginning with a digit.
    Name,
    /// Decimal digits, `$` with hexadecimal digits, `%` with binary digits, or `'c'`.
    Number,
    /// Bytes from $20 to $7E in quotation marks.
    Text,
    /// One of `#()[]{},.:+-*/`.
    Mark,
    /// Spaces and tabs.
    Blank,
    /// From `;`, or from `*` in column 1, to the line's end.
    Comment,
}

/// A part of a line. Its places count from 0, and `end` is the place behind its last byte.
#[derive(Clone, Copy, PartialEq, Eq)]
pub struct Token {
    pub kind: TokenKind,
    pub start: u32,
    pub end: u32,
}

/// A list of tokens.
#[derive(Drop)]
pub struct Tokens {
    tokens: Vec<Token>,
}

impl Model for Tokens {
    ghost use Rattle.std.specs.Prelude.{List};
    ghost use Rattle.mb_asm_text.specs.declared.token.Token.{Token};

    ghost Value = { List Token };

    ghost view = { λ tokens. tokens.tokens.items };
}

impl Tokens {
    pub fn new(tokens: Vec<Token>) -> Tokens
        ensures { result ≡ tokens.items }
    {
        Tokens { tokens }
    }

    pub fn tokens(&self) -> &[Token]
        ensures { result.now ≡ self.now }
    {
        &self.tokens
    }
}
