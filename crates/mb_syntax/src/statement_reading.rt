//! Reads statements.

ghost use Rattle.std.specs.Prelude.{◌≡◌, ◌<◌, ◌^◌, List, Result, option_map, length, ℕ};
ghost use Rattle.mb_asm_text.specs.declared.token.Token.{Token};
ghost use Rattle.mb_asm_text.specs.Cut.{IsCut};
ghost use Rattle.mb_syntax.specs.Statements.{behind_label, name_of, operands_behind, operation_named, operation_of};
ghost use Rattle.mb_syntax.specs.Statements.{size_at, skip_colon, statement_cut, statement_of};
ghost use Rattle.mb_syntax.specs.Lines.{statement_in};
ghost use Rattle.mb_syntax.specs.Answers.{Gives, operation_said, read_said, statement_said};

use crate::expression::Expression;
use crate::fault::SyntaxFault;
use crate::naming::takes_caches;
use crate::operand::Operand;
use crate::operand_reading::operands_of;
use crate::statement::{Operation, SizeLetter, Statement};
use crate::sum::symbol_of;
use crate::word::{Name, Word};
use crate::wording::words_of;
use mb_asm_text::{LexFault, lex};
use std::alloc::Global;

/// The statement of a line, which is given without its end.
///
/// `[label[:]] [name[.size] [operands]]`, and a comment from `;` on, or from `*` in column 1. Blanks begin a line
/// without a label, part label, name and operands, and may stand around commas and at the end.
pub fn parse(alloc: Global, line: &[u8]) -> Result<Statement, SyntaxFault>
    requires { length line.now < 2 ^ 31 }
    ensures { Gives statement_said result (statement_in line.now) }
{
    parse_cut(alloc, line)
}

fn parse_cut(alloc: Global, line: &[u8]) -> Result<Statement, SyntaxFault>
    requires { length line.now < 2 ^ 31 }
    // Whatever the cut of the line into tokens is, the answer is the statement that its words are.
    ensures { (cut : Result (List Token) ℕ) → IsCut line.now cut
        → Gives statement_said result (statement_cut line.now cut) }
{
    match lex(alloc, line) {
        Ok(tokens) => {
            let words = words_of(alloc, line, tokens.tokens())?;
            statement_of(alloc, line, &words)
        }
        Err(LexFault::At(_)) => Err(SyntaxFault::Syntax),
        Err(LexFault::Memory) => Err(SyntaxFault::Memory),
    }
}

/// Any name.
fn name_of(word: &Word) -> Option<Name>
    ensures { result ≡ name_of word.now }
{
    match word {
        Word::Name(name) | Word::Register(_, name) | Word::Letter(_, name) | Word::Cache(_, name) =>
            Some(*name),
        _ => None,
    }
}

/// `.B`, `.S`, `.W` or `.L`, which may be left out.
fn size_at(words: &[Word]) -> Option<(Option<SizeLetter>, &[Word])>
    ensures { option_map read_said result ≡ size_at words.now }
{
    match words {
        [Word::Dot, Word::Letter(letter, _), rest @ ..] => Some((Some(*letter), rest)),
        [Word::Dot, ..] => None,
        _ => Some((None, words)),
    }
}

/// None, or a blank and operands up to the line's end.
fn operands_behind(
    alloc: Global,
    takes_caches: bool,
    words: &[Word],
) -> Result<Vec<Operand<Expression>>, SyntaxFault>
    ensures { Gives (λ operands. operands.items) result (operands_behind takes_caches words.now) }
{
    match words {
        [] | [Word::Blank] => Ok(Vec::new(alloc)),
        [Word::Blank, rest @ ..] => operands_of(alloc, takes_caches, rest),
        _ => Err(SyntaxFault::Syntax),
    }
}

/// The operation whose name stands before the words.
fn operation_named(
    alloc: Global,
    line: &[u8],
    name: Name,
    words: &[Word],
) -> Result<Operation, SyntaxFault>
    ensures { Gives operation_said result (operation_named line.now name words.now) }
{
    let Some((size, rest)) = size_at(words) else {
        return Err(SyntaxFault::Syntax);
    };
    let takes_caches = takes_caches(name.bytes(line));
    let operands = operands_behind(alloc, takes_caches, rest)?;
    Ok(Operation {
        name,
        size,
        operands,
    })
}

/// The operation that the words are, up to the line's end; no words are none.
fn operation_of(
    alloc: Global,
    line: &[u8],
    words: &[Word],
) -> Result<Option<Operation>, SyntaxFault>
    ensures { Gives (option_map operation_said) result (operation_of line.now words.now) }
{
    match words {
        [] => Ok(None),
        [first, rest @ ..] => {
            let Some(name) = name_of(first) else {
                return Err(SyntaxFault::Syntax);
            };
            let operation = operation_named(alloc, line, name, rest)?;
            Ok(Some(operation))
        }
    }
}

fn skip_colon(words: &[Word]) -> &[Word]
    ensures { result.now ≡ skip_colon words.now }
{
    match words {
        [Word::Colon, rest @ ..] => rest,
        _ => words,
    }
}

/// A label is alone in its line, or a blank parts it from the operation.
fn behind_label(
    alloc: Global,
    line: &[u8],
    words: &[Word],
) -> Result<Option<Operation>, SyntaxFault>
    ensures { Gives (option_map operation_said) result (behind_label line.now words.now) }
{
    match words {
        [] => Ok(None),
        [Word::Blank, rest @ ..] => operation_of(alloc, line, rest),
        _ => Err(SyntaxFault::Syntax),
    }
}

/// The statement that the words of a line are.
fn statement_of(alloc: Global, line: &[u8], words: &[Word]) -> Result<Statement, SyntaxFault>
    ensures { Gives statement_said result (statement_of line.now words.now) }
{
    match words {
        [] => Ok(Statement {
            label: None,
            operation: None,
        }),
        [Word::Blank, rest @ ..] => {
            let operation = operation_of(alloc, line, rest)?;
            Ok(Statement {
                label: None,
                operation,
            })
        }
        [first, rest @ ..] => {
            let Some(label) = symbol_of(first) else {
                return Err(SyntaxFault::Syntax);
            };
            let operation = behind_label(alloc, line, skip_colon(rest))?;
            Ok(Statement {
                label: Some(label),
                operation,
            })
        }
    }
}
