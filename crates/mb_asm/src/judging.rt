//! Judges the statement of a line.

ghost use Rattle.std.specs.Prelude.{◌≡◌, ◌+◌, ◌≤◌, ◌||◌, [], IfOk, IfSome, Some, length, option_map};
ghost use Rattle.mb_syntax.specs.Answers.{operation_said, statement_said};
ghost use Rattle.mb_asm.specs.Answers.{GivesAlone};
ghost use Rattle.mb_asm.specs.Said.{symbols_said};
ghost use Rattle.mb_asm.specs.Scopes.{scope_said};
ghost use Rattle.mb_asm.specs.Laying.{layout_said};
ghost use Rattle.mb_asm.specs.Layouts.{after_statement, if_known, next_at};
ghost use Rattle.mb_asm.specs.Laids.{laid_said};
ghost use Rattle.mb_asm.specs.Results.{refuse};
ghost use Rattle.mb_asm.specs.Code.{admitted, laid_to};
ghost use Rattle.mb_asm.specs.Judged.{ends_past, equ_checked, has_no_name, is_address, is_again, is_misplaced};
ghost use Rattle.mb_asm.specs.Judged.{judged_line, judged_by, judged_label, judged_operation, reaches_past};
ghost use Rattle.mb_asm.specs.Judged.{reads_earlier, scope_of, wants_label, address_or_zero};
ghost use Rattle.mb_asm.specs.declared.value.Flaw.TheVariants as flaw;
ghost use Rattle.mb_asm.specs.Values.{have_flaw};
ghost use Rattle.mb_asm.specs.declared.addresses.TheConstants.{PAST};

use crate::addresses::END;
use crate::directive::{Directive, directive_of};
use crate::evaluation::have_flaw;
use crate::extent::{equ_value, reached};
use crate::fault::AsmKind;
use crate::laid::Laid;
use crate::laying::earlier;
use crate::layout::Layout;
use crate::lookup::value_in;
use crate::refusal::Refusal;
use crate::symbol::Symbols;
use crate::value::{Flaw, Scope};
use crate::writing::operation_bytes;
use mb_syntax::{Name, Operation, Statement};
use std::alloc::Global;

/// A fault where a test holds.
fn refuse(test: bool, kind: AsmKind) -> Result<(), Refusal>
    ensures { GivesAlone (λ none. none) result (refuse test kind) }
{
    if test {
        Err(Refusal::Kind(kind))
    } else {
        Ok(())
    }
}

/// ORG, EQU and DS read symbols of earlier lines only.
fn reads_earlier(directive: Option<Directive>) -> bool
    ensures { result ≡ reads_earlier directive }
{
    matches!(
        directive,
        Some(Directive::Org | Directive::Equ | Directive::Ds)
    )
}

/// What an operation reads its symbols in.
fn scope_of<'s>(
    symbols: &'s Symbols<'_>,
    layout: &'s Layout<'_>,
    line: &'s [u8],
    directive: Option<Directive>,
) -> Scope<'s>
    ensures given { scope_said result ≡ scope_of (symbols_said symbols.entry.now) (layout_said layout.entry.now)
        line.entry.now directive }
    ensures at { result.at ≡ layout.entry.now.at }
{
    if reads_earlier(directive) {
        earlier(layout, line)
    } else {
        Scope {
            symbols,
            line,
            at: layout.at,
        }
    }
}

/// Whether no operation has the name.
fn has_no_name(next: Result<Option<u64>, AsmKind>) -> bool
    ensures { result ≡ has_no_name next }
{
    matches!(next, Err(AsmKind::Name))
}

/// An EQU without a label.
fn wants_label(label: Option<Name>, directive: Option<Directive>) -> bool
    ensures { result ≡ wants_label label directive }
{
    matches!((label, directive), (None, Some(Directive::Equ)))
}

/// Whether an earlier line has the label.
fn is_again(layout: &Layout, line: &[u8], label: Option<Name>) -> bool
    ensures { result ≡ is_again (layout_said layout.now) line.now label }
{
    match label {
        Some(name) => value_in(&layout.symbols, name.bytes(line)).is_some(),
        None => false,
    }
}

/// Whether a label is an address.
fn is_address(label: Option<Name>, directive: Option<Directive>) -> bool
    ensures { result ≡ is_address label directive }
{
    label.is_some() && !matches!(directive, Some(Directive::Equ))
}

/// Whether an operation ends past the last byte; ORG goes to a byte.
fn ends_past(directive: Option<Directive>, next: u64) -> bool
    ensures { result ≡ ends_past directive next }
{
    match directive {
        Some(Directive::Org) => next >= END,
        _ => next > END,
    }
}

/// An address; one that is not known counts as 0, where all may stand.
pub(crate) fn address_or_zero(at: Option<u64>) -> u64
    requires { IfSome at (λ known. known ≤ PAST) }
    ensures value { result ≡ address_or_zero at }
    ensures most { result ≤ PAST }
{
    at.unwrap_or(0)
}

/// An instruction at an odd address, or an address past the last.
fn is_misplaced(at: u64, label: Option<Name>, directive: Option<Directive>, next: u64) -> bool
    ensures { result ≡ is_misplaced at label directive next }
{
    directive.is_none() && at % 2 == 1
        || is_address(label, directive) && at >= END
        || ends_past(directive, next)
}

/// An EQU has a value.
fn equ_checked(
    scope: &Scope,
    operation: &Operation,
    directive: Option<Directive>,
) -> Result<(), Refusal>
    ensures { GivesAlone (λ none. none) result (equ_checked (scope_said scope.now) (operation_said operation.now)
        directive) }
{
    if let Some(Directive::Equ) = directive {
        equ_value(scope, operation)?;
    }
    Ok(())
}

/// What is looked for before the operands.
fn admitted(
    layout: &Layout,
    line: &[u8],
    label: Option<Name>,
    directive: Option<Directive>,
    is_nameless: bool,
) -> Result<(), Refusal>
    ensures { GivesAlone (λ none. none) result
        (admitted (layout_said layout.now) line.now label directive is_nameless) }
{
    refuse(wants_label(label, directive), AsmKind::Syntax)?;
    refuse(is_nameless, AsmKind::Name)?;
    refuse(is_again(layout, line, label), AsmKind::Twice)
}

/// What is written by an operation that ends at the address.
fn laid_to(
    alloc: Global,
    end: Option<u64>,
    scope: &Scope,
    label: Option<Name>,
    directive: Option<Directive>,
    operation: &Operation,
) -> Result<Laid, Refusal>
    requires { IfSome end (λ known. known ≤ PAST) }
    ensures given { GivesAlone laid_said result
        (laid_to end (scope_said scope.now) label directive (operation_said operation.now)) }
    ensures inside { IfOk result (λ laid. address_or_zero scope.now.at + length laid.bytes.items ≤ END) }
    ensures last { IfOk result (λ laid. laid.next ≤ END) }
    ensures reached { IfOk result (λ laid. laid.next ≡ address_or_zero end) }
{
    equ_checked(scope, operation, directive)?;
    let bytes = operation_bytes(alloc, scope, operation)?;
    let at = address_or_zero(scope.at);
    let next = address_or_zero(end);
    let is_misplaced = is_misplaced(at, label, directive, next) || reaches_past(at, &bytes);
    refuse(is_misplaced, AsmKind::Place)?;
    Ok(Laid { bytes, next })
}

/// A byte at an address past the last.
fn reaches_past(at: u64, bytes: &[u8]) -> bool
    requires { at ≤ PAST }
    ensures { result ≡ reaches_past at bytes.now }
{
    at + bytes.len() as u64 > END
}

/// An operation in the line, with the symbols of all lines.
fn judged_operation(
    alloc: Global,
    symbols: &Symbols,
    layout: &Layout,
    line: &[u8],
    label: Option<Name>,
    operation: &Operation,
) -> Result<Laid, Refusal>
    ensures given { GivesAlone laid_said result
        (judged_operation (symbols_said symbols.now) (layout_said layout.now) line.now label
        (operation_said operation.now)) }
    ensures inside { IfOk result (λ laid. address_or_zero layout.now.at + length laid.bytes.items ≤ END) }
    ensures last { IfOk result (λ laid. laid.next ≤ END) }
    ensures reached { IfOk result
        (λ laid. laid.next
        ≡ address_or_zero (next_at (layout_said layout.now) line.now (Some (operation_said operation.now)))) }
{
    let directive = directive_of(operation.name.bytes(line));
    let scope = scope_of(symbols, layout, line, directive);
    let next = reached(alloc, &earlier(layout, line), operation)?;
    judged_by(
        alloc, layout, line, label, operation, directive, &scope, next,
    )
}

/// An operation that is a directive or none, by what it reads its symbols in and the address behind it.
#[tactic(auto, using(crate::proofs::Parts::judged_parts))]
fn judged_by(
    alloc: Global,
    layout: &Layout,
    line: &[u8],
    label: Option<Name>,
    operation: &Operation,
    directive: Option<Directive>,
    scope: &Scope,
    next: Result<Option<u64>, AsmKind>,
) -> Result<Laid, Refusal>
    requires { IfOk next (λ end. IfSome end (λ known. known ≤ PAST)) }
    ensures given { GivesAlone laid_said result
        (judged_by (layout_said layout.now) line.now label (operation_said operation.now) directive
        (scope_said scope.now) next) }
    ensures inside { IfOk result (λ laid. address_or_zero scope.now.at + length laid.bytes.items ≤ END) }
    ensures last { IfOk result (λ laid. laid.next ≤ END) }
    ensures reached { IfOk result (λ laid. laid.next ≡ address_or_zero (if_known next)) }
{
    let is_nameless = is_nameless(next, scope, operation);
    match admitted(layout, line, label, directive, is_nameless) {
        Ok(()) => match next {
            Ok(end) => laid_to(alloc, end, scope, label, directive, operation),
            Err(kind) => Err(Refusal::Kind(kind)),
        },
        Err(refusal) => Err(refusal),
    }
}

/// Whether an operation has no name that is known, or a symbol that is not known.
fn is_nameless(next: Result<Option<u64>, AsmKind>, scope: &Scope, operation: &Operation) -> bool
    ensures { result
        ≡ (has_no_name next || have_flaw flaw.Nameless (scope_said scope.now) (operation_said operation.now).operands) }
{
    has_no_name(next) || have_flaw(Flaw::Nameless, scope, &operation.operands)
}

/// A label alone.
fn judged_label(
    alloc: Global,
    layout: &Layout,
    line: &[u8],
    label: Option<Name>,
) -> Result<Laid, Refusal>
    ensures given { GivesAlone laid_said result (judged_label (layout_said layout.now) line.now label) }
    ensures written { IfOk result (λ laid. laid.bytes.items ≡ []) }
    ensures next { IfOk result (λ laid. laid.next ≡ address_or_zero layout.now.at) }
{
    let at = address_or_zero(layout.at);
    refuse(is_again(layout, line, label), AsmKind::Twice)?;
    refuse(label.is_some() && at >= END, AsmKind::Place)?;
    Ok(Laid {
        bytes: Vec::new(alloc),
        next: at,
    })
}

/// What the statement of a line writes, or the first fault that the line has.
pub(crate) fn judged_line(
    alloc: Global,
    symbols: &Symbols,
    layout: &Layout,
    line: &[u8],
    statement: &Option<Statement>,
) -> Result<Laid, Refusal>
    requires { address_or_zero layout.now.at ≤ END }
    ensures given { GivesAlone laid_said result
        (judged_line (symbols_said symbols.now) (layout_said layout.now) line.now
        (option_map statement_said statement.now)) }
    ensures inside { IfOk result (λ laid. address_or_zero layout.now.at + length laid.bytes.items ≤ END) }
    ensures next { IfOk result (λ laid. laid.next ≤ END) }
    ensures reached { IfOk result
        (λ laid. laid.next
        ≡ address_or_zero
        (after_statement (layout_said layout.now) line.now (option_map statement_said statement.now)).at) }
{
    let Some(statement) = statement else {
        return Err(Refusal::Kind(AsmKind::Syntax));
    };
    match &statement.operation {
        Some(operation) => judged_operation(
            alloc,
            symbols,
            layout,
            line,
            statement.label,
            operation,
        ),
        None => judged_label(alloc, layout, line, statement.label),
    }
}
