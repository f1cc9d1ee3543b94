//! Lays the statements of a text out.

ghost use Rattle.std.specs.Prelude.{◌≡◌, ◌≤◌, ◌<◌, ◌^◌, IfOk, IfSome, OnOk, length, option_map, pos};
ghost use Rattle.std.specs.Prelude.{position};
ghost use Rattle.mb_asm_text.specs.Kinds.{is_blank};
ghost use Rattle.mb_syntax.specs.Lines.{statement_in};
ghost use Rattle.mb_syntax.specs.Answers.{operation_said, statement_said};
ghost use Rattle.mb_asm.specs.Laying.{layout_said};
ghost use Rattle.mb_asm.specs.Scopes.{scope_said};
ghost use Rattle.mb_asm.specs.Layouts.{after_statement, earlier, front_of, if_known, label_in, label_value, next_at};
ghost use Rattle.mb_asm.specs.Layouts.{with_label};
ghost use Rattle.mb_asm.specs.Extents.{equ_value};
ghost use Rattle.mb_asm.specs.Said.{symbols_said};
ghost use Rattle.mb_asm.specs.declared.addresses.TheConstants.{PAST};

use crate::directive::{Directive, directive_of};
use crate::extent::{equ_value, reached};
use crate::layout::Layout;
use crate::lookup::add_symbol;
use crate::symbol::{SymbolValue, Symbols};
use crate::value::Scope;
use mb_syntax::{Name, Operation, Statement, SyntaxFault, parse};
use std::alloc::{AllocError, Global};

/// The statement of a line, or none where it is not in the grammar.
pub(crate) fn statement_in(alloc: Global, line: &[u8]) -> Result<Option<Statement>, AllocError>
    requires { length line.now < 2 ^ 31 }
    ensures { IfOk result (λ statement. option_map statement_said statement ≡ statement_in line.now) }
{
    match parse(alloc, line) {
        Ok(statement) => Ok(Some(statement)),
        Err(SyntaxFault::Syntax) => Ok(None),
        Err(SyntaxFault::Memory) => Err(AllocError),
    }
}

/// What a statement reads of the symbols of earlier lines.
pub(crate) fn earlier<'s>(layout: &'s Layout<'_>, line: &'s [u8]) -> Scope<'s>
    ensures { scope_said result ≡ earlier (layout_said layout.entry.now) line.entry.now }
{
    Scope {
        symbols: &layout.symbols,
        line,
        at: layout.at,
    }
}

/// The address that is reached.
fn address_value(layout: &Layout) -> SymbolValue
    ensures { result.number ≡ option_map pos layout.now.at }
{
    let number = match layout.at {
        Some(at) => Some(at as i64),
        None => None,
    };
    SymbolValue { number }
}

/// The value of the label of an EQU.
fn equ_label(layout: &Layout, line: &[u8], operation: &Operation) -> SymbolValue
    ensures { result.number
        ≡ if_known (equ_value (earlier (layout_said layout.now) line.now) (operation_said operation.now)) }
{
    let number = match equ_value(&earlier(layout, line), operation) {
        Ok(value) => value,
        Err(_) => None,
    };
    SymbolValue { number }
}

/// The value of a label.
fn label_value(layout: &Layout, line: &[u8], operation: &Option<Operation>) -> SymbolValue
    ensures { result.number
        ≡ label_value (layout_said layout.now) line.now (option_map operation_said operation.now) }
{
    let Some(operation) = operation else {
        return address_value(layout);
    };
    match directive_of(operation.name.bytes(line)) {
        Some(Directive::Equ) => equ_label(layout, line, operation),
        _ => address_value(layout),
    }
}

/// The address behind an operation; behind one of which no extent is known it is not known.
fn next_at(
    alloc: Global,
    layout: &Layout,
    line: &[u8],
    operation: &Option<Operation>,
) -> Result<Option<u64>, AllocError>
    ensures value { IfOk result
        (λ at. at ≡ next_at (layout_said layout.now) line.now (option_map operation_said operation.now)) }
    ensures most { IfOk result (λ at. IfSome at (λ known. known ≤ PAST)) }
{
    let Some(operation) = operation else {
        return Ok(layout.at);
    };
    match reached(alloc, &earlier(layout, line), operation)? {
        Ok(at) => Ok(at),
        Err(_) => Ok(None),
    }
}

/// The place of the first blank.
fn blank(line: &[u8]) -> Option<usize>
    ensures { result ≡ position is_blank line.now }
{
    line.iter().position(|&byte| byte == b' ' || byte == b'\t')
}

/// What stands before the first blank of a line.
fn front_of(line: &[u8]) -> &[u8]
    ensures front { result.now ≡ front_of line.now }
    ensures short { length result.now ≤ length line.now }
{
    match blank(line) {
        Some(end) => &line[..end],
        None => line,
    }
}

/// The label that can be read in a line whose statement is wrong.
fn label_in(alloc: Global, line: &[u8]) -> Result<Option<Name>, AllocError>
    requires { length line.now < 2 ^ 31 }
    ensures { IfOk result (λ label. label ≡ label_in line.now) }
{
    match statement_in(alloc, front_of(line))? {
        Some(statement) => Ok(statement.label),
        None => Ok(None),
    }
}

/// Adds a label, if there is one.
fn add_label<'t>(
    symbols: &mut Symbols<'t>,
    line: &'t [u8],
    label: Option<Name>,
    value: SymbolValue,
) -> Result<(), AllocError>
    ensures { OnOk result (symbols_said symbols.new
        ≡ with_label (symbols_said symbols.old) line.entry.now label value.number) }
{
    match label {
        Some(name) => add_symbol(symbols, name.bytes(line), value),
        None => Ok(()),
    }
}

/// Goes on behind the statement of a line.
pub(crate) fn lay<'t>(
    alloc: Global,
    layout: &mut Layout<'t>,
    line: &'t [u8],
    statement: &Option<Statement>,
) -> Result<(), AllocError>
    requires { length line.now < 2 ^ 31 }
    ensures { OnOk result (layout_said layout.new ≡ after_statement (layout_said layout.old) line.entry.now
        (option_map statement_said statement.now)) }
{
    let Some(statement) = statement else {
        let label = label_in(alloc, line)?;
        add_label(
            &mut layout.symbols,
            line,
            label,
            SymbolValue { number: None },
        )?;
        layout.at = None;
        return Ok(());
    };
    let next = next_at(alloc, layout, line, &statement.operation)?;
    let value = label_value(layout, line, &statement.operation);
    add_label(&mut layout.symbols, line, statement.label, value)?;
    layout.at = next;
    Ok(())
}
