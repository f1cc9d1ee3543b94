//! Expressions.

ghost use Rattle.std.specs.Prelude.{◌≡◌};

use crate::word::Name;
use std::marker::Model;

/// What an expression adds or subtracts.
#[derive(Clone, Copy)]
pub enum Term {
    /// A number of at most 32 bits.
    Number(u32),
    /// A number wider than 32 bits.
    WideNumber,
    /// A symbol. It is no register's name and at most 63 bytes long.
    Symbol(Name),
    /// `*`, the address of the statement.
    Here,
}

/// A term with its sign.
#[derive(Clone, Copy)]
pub struct SignedTerm {
    pub is_negative: bool,
    pub term: Term,
}

/// The sum of its terms, of which there is at least one.
#[derive(Drop)]
pub struct Expression {
    terms: Vec<SignedTerm>,
}

impl Model for Expression {
    ghost use Rattle.std.specs.Prelude.{List};
    ghost use Rattle.mb_syntax.specs.declared.expression.SignedTerm.{SignedTerm};

    ghost Value = { List SignedTerm };

    ghost view = { λ expression. expression.terms.items };
}

impl Expression {
    pub fn new(terms: Vec<SignedTerm>) -> Expression
        ensures { result ≡ terms.items }
    {
        Expression { terms }
    }

    pub fn terms(&self) -> &[SignedTerm]
        ensures { result.now ≡ self.now }
    {
        &self.terms
    }
}
