//! Reads expressions.

ghost use Rattle.std.specs.Prelude.{◌≡◌, List, option_map};
ghost use denote.Ref.{Bor};
ghost use Rattle.mb_syntax.specs.Code.{next_term, signed_at};
ghost use Rattle.mb_syntax.specs.declared.word.Word.{Word};
ghost use Rattle.mb_syntax.specs.Sums.{before, comma_at, expression_at, short, skip_blank};
ghost use Rattle.mb_syntax.specs.Sums.{symbol_of, term_of, terms_at, with_front};
ghost use Rattle.mb_syntax.specs.Answers.{Gives, read_said, words_said};

use crate::expression::{Expression, SignedTerm, Term};
use crate::fault::SyntaxFault;
use crate::word::{Name, Word};
use std::alloc::Global;

/// A blank may stand here.
pub(crate) fn skip_blank(words: &[Word]) -> &[Word]
    ensures { result.now ≡ skip_blank words.now }
{
    match words {
        [Word::Blank, rest @ ..] => rest,
        _ => words,
    }
}

/// What stands behind a comma, around which blanks may stand.
pub(crate) fn comma_at(words: &[Word]) -> Option<&[Word]>
    ensures { option_map words_said result ≡ comma_at words.now }
{
    match skip_blank(words) {
        [Word::Comma, rest @ ..] => Some(skip_blank(rest)),
        _ => None,
    }
}

/// A name that is no register's and at most 63 bytes long.
pub(crate) fn symbol_of(word: &Word) -> Option<Name>
    ensures { result ≡ symbol_of word.now }
{
    match word {
        Word::Name(name) | Word::Letter(_, name) | Word::Cache(_, name) => short(*name),
        _ => None,
    }
}

fn short(name: Name) -> Option<Name>
    ensures { result ≡ short name }
{
    if name.end.saturating_sub(name.start) <= 63 {
        Some(name)
    } else {
        None
    }
}

fn term_of(word: &Word) -> Option<Term>
    ensures { result ≡ term_of word.now }
{
    match word {
        Word::Number(number) => Some(Term::Number(*number)),
        Word::WideNumber => Some(Term::WideNumber),
        Word::Star => Some(Term::Here),
        _ => {
            let name = symbol_of(word)?;
            Some(Term::Symbol(name))
        }
    }
}

/// A term with its sign, and what stands behind it.
fn signed_at(is_negative: bool, words: &[Word]) -> Option<(SignedTerm, &[Word])>
    ensures { option_map read_said result ≡ signed_at is_negative words.now }
{
    match words {
        [next, rest @ ..] => {
            let term = term_of(next)?;
            Some((SignedTerm { is_negative, term }, rest))
        }
        [] => None,
    }
}

/// The next term, where `+` or `-` stands.
fn next_term(words: &[Word]) -> Option<Option<(SignedTerm, &[Word])>>
    ensures { option_map (option_map read_said) result ≡ next_term words.now }
{
    match words {
        [Word::Plus, rest @ ..] => {
            let found = signed_at(false, rest)?;
            Some(Some(found))
        }
        [Word::Minus, rest @ ..] => {
            let found = signed_at(true, rest)?;
            Some(Some(found))
        }
        _ => Some(None),
    }
}

/// An expression, and what stands behind it.
pub(crate) fn expression_at(
    alloc: Global,
    words: &[Word],
) -> Result<(Expression, &[Word]), SyntaxFault>
    ensures { Gives read_said result (expression_at words.now) }
{
    match words {
        [Word::Minus, next, rest @ ..] => sum_of(alloc, true, next, rest),
        [next, rest @ ..] => sum_of(alloc, false, next, rest),
        [] => Err(SyntaxFault::Syntax),
    }
}

/// An expression by its first term and what stands behind it.
fn sum_of<'a>(
    alloc: Global,
    is_negative: bool,
    next: &Word,
    words: &'a [Word],
) -> Result<(Expression, &'a [Word]), SyntaxFault>
    ensures { Gives read_said result (before is_negative (term_of next.now) (terms_at words.entry.now)) }
{
    let Some(term) = term_of(next) else {
        return Err(SyntaxFault::Syntax);
    };
    let mut terms = Vec::new(alloc);
    terms.push(SignedTerm { is_negative, term })?;
    let rest = push_terms(&mut terms, words)?;
    Ok((Expression::new(terms), rest))
}

/// Adds the terms behind the first.
#[tactic(auto, using(crate::proofs::Sums::pushed, crate::proofs::Sums::ended, crate::proofs::Sums::failed))]
fn push_terms<'a>(
    terms: &mut Vec<SignedTerm>,
    mut words: &'a [Word],
) -> Result<&'a [Word], SyntaxFault>
    ensures { Gives (λ (rest : Bor (List Word)). (terms.new.items, rest.now)) result
        (with_front terms.old.items (terms_at words.entry.now)) }
{
    'terms: loop {
        match next_term(words) {
            Some(Some((term, rest))) => {
                terms.push(term)?;
                words = rest;
            }
            Some(None) => return Ok(words),
            None => return Err(SyntaxFault::Syntax),
        }
    }
}
