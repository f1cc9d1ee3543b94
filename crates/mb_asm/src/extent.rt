//! Where the bytes of an operation end.

ghost use Rattle.std.specs.Prelude.{◌≡◌, ◌-◌, ◌*◌, ◌≤◌, ◌≤ℤ◌, IfOk, IfSome, negsuc, pos};
ghost use Rattle.mb_asm.specs.Scopes.{scope_said};
ghost use Rattle.mb_syntax.specs.Answers.{operation_said};
ghost use Rattle.mb_asm.specs.Answers.{GivesAlone};
ghost use Rattle.mb_asm.specs.Extents.{org_address, address_behind, behind_dc, behind_directive, behind_ds, behind_even};
ghost use Rattle.mb_asm.specs.Extents.{behind_instruction, behind_items, behind_org, ds_count, equ_value, even_from};
ghost use Rattle.mb_asm.specs.Extents.{item_len, equ_long, narrow_value, no_size, only_value, onward, text_len};

use crate::addresses::PAST;
use crate::directive::{Directive, directive_of, only_of, plain_of, unit_of};
use crate::evaluation::{has_flaw, value_of, values_of};
use crate::fault::AsmKind;
use crate::refusal::Refusal;
use crate::value::{Flaw, Scope};
use mb_mnemonics::{Range, length_of, number};
use mb_syntax::{Expression, Name, Operand, Operation, SizeLetter};
use std::alloc::{AllocError, Global};

/// The address so many bytes on, if it is known.
fn onward(at: Option<u64>, len: u64) -> Option<u64>
    ensures value { result ≡ onward at len }
    ensures most { IfSome result (λ known. known ≤ PAST) }
{
    let known = at?;
    Some(known.saturating_add(len).min(PAST))
}

/// What has no size.
fn no_size(size: Option<SizeLetter>) -> Result<(), AsmKind>
    ensures { result ≡ no_size size }
{
    if size.is_some() {
        return Err(AsmKind::Operand);
    }
    Ok(())
}

/// The value of an expression, if it is known.
#[tactic(auto, unfolding(crate::specs::Extents::narrow_value))]
pub(crate) fn narrow_value(scope: &Scope, expression: &Expression) -> Result<Option<i64>, AsmKind>
    ensures { result ≡ narrow_value (scope_said scope.now) expression.now }
{
    if has_flaw(Flaw::Wide, scope, expression) {
        return Err(AsmKind::Range);
    }
    Ok(value_of(scope, expression))
}

/// The value of the one operand of ORG, EQU or DS.
fn only_value(scope: &Scope, operands: &[Operand<Expression>]) -> Result<Option<i64>, AsmKind>
    ensures { result ≡ only_value (scope_said scope.now) operands.now }
{
    let Some(expression) = only_of(operands) else {
        return Err(AsmKind::Operand);
    };
    narrow_value(scope, expression)
}

fn org_address(value: i64) -> Option<u64>
    ensures value { result ≡ org_address value }
    ensures most { IfSome result (λ at. at ≤ PAST) }
{
    if value < 0 {
        return None;
    }
    Some((value as u64).min(PAST))
}

fn behind_org(scope: &Scope, operation: &Operation) -> Result<Option<u64>, AsmKind>
    ensures value { result ≡ behind_org (scope_said scope.now) (operation_said operation.now) }
    ensures most { IfOk result (λ at. IfSome at (λ known. known ≤ PAST)) }
{
    no_size(operation.size)?;
    let value = only_value(scope, &operation.operands)?;
    match value {
        Some(value) => match org_address(value) {
            Some(at) => Ok(Some(at)),
            None => Err(AsmKind::Range),
        },
        None => Ok(None),
    }
}

/// A value of 32 bits, with or without a sign.
pub(crate) fn equ_value(scope: &Scope, operation: &Operation) -> Result<Option<i64>, AsmKind>
    ensures value { result ≡ equ_value (scope_said scope.now) (operation_said operation.now) }
    ensures least { IfOk result (λ found. IfSome found (λ value. negsuc 2147483647 ≤ℤ value)) }
    ensures greatest { IfOk result (λ found. IfSome found (λ value. value ≤ℤ pos 4294967295)) }
{
    no_size(operation.size)?;
    let value = only_value(scope, &operation.operands)?;
    match value {
        Some(value) => match equ_long(value) {
            Some(value) => Ok(Some(value)),
            None => Err(AsmKind::Range),
        },
        None => Ok(None),
    }
}

fn equ_long(value: i64) -> Option<i64>
    ensures value { result ≡ equ_long value }
    ensures least { IfSome result (λ value. negsuc 2147483647 ≤ℤ value) }
    ensures greatest { IfSome result (λ value. value ≤ℤ pos 4294967295) }
{
    if -0x8000_0000 <= value && value <= 0xffff_ffff {
        Some(value)
    } else {
        None
    }
}

fn ds_count(value: i64) -> Option<u32>
    ensures { result ≡ ds_count value }
{
    if value < 0 {
        return None;
    }
    number(Range::Long, value)
}

fn behind_ds(scope: &Scope, operation: &Operation) -> Result<Option<u64>, AsmKind>
    ensures value { result ≡ behind_ds (scope_said scope.now) (operation_said operation.now) }
    ensures most { IfOk result (λ at. IfSome at (λ known. known ≤ PAST)) }
{
    let Some(unit) = unit_of(operation.size) else {
        return Err(AsmKind::Operand);
    };
    let value = only_value(scope, &operation.operands)?;
    match value {
        Some(value) => match ds_count(value) {
            Some(count) => Ok(onward(scope.at, u64::from(unit) * u64::from(count))),
            None => Err(AsmKind::Range),
        },
        None => Ok(None),
    }
}

/// What a text has between its quotation marks.
fn text_len(text: Name) -> u64
    ensures { result ≡ text_len text }
{
    u64::from(text.end.saturating_sub(text.start).saturating_sub(2))
}

fn item_len(unit: u8, item: &Operand<Expression>) -> Option<u64>
    ensures { result ≡ item_len unit item.now }
{
    match item {
        Operand::Text(text) => {
            if unit == 1 {
                Some(text_len(*text))
            } else {
                None
            }
        }
        _ => {
            plain_of(item)?;
            Some(u64::from(unit))
        }
    }
}

fn behind_items(
    unit: u8,
    at: Option<u64>,
    items: &[Operand<Expression>],
) -> Result<Option<u64>, AsmKind>
    requires { IfSome at (λ known. known ≤ PAST) }
    ensures value { result ≡ behind_items unit at items.now }
    ensures most { IfOk result (λ at. IfSome at (λ known. known ≤ PAST)) }
{
    let mut next = at;
    for item in items {
        match item_len(unit, item) {
            Some(len) => next = onward(next, len),
            None => return Err(AsmKind::Operand),
        }
    }
    Ok(next)
}

fn behind_dc(at: Option<u64>, operation: &Operation) -> Result<Option<u64>, AsmKind>
    requires { IfSome at (λ known. known ≤ PAST) }
    ensures value { result ≡ behind_dc at (operation_said operation.now) }
    ensures most { IfOk result (λ at. IfSome at (λ known. known ≤ PAST)) }
{
    let Some(unit) = unit_of(operation.size) else {
        return Err(AsmKind::Operand);
    };
    if operation.operands.is_empty() {
        return Err(AsmKind::Operand);
    }
    behind_items(unit, at, &operation.operands)
}

fn even_from(at: Option<u64>) -> Option<u64>
    ensures value { result ≡ even_from at }
    ensures most { IfSome result (λ known. known ≤ PAST) }
{
    let known = at?;
    Some(known.saturating_add(known % 2).min(PAST))
}

fn behind_even(at: Option<u64>, operation: &Operation) -> Result<Option<u64>, AsmKind>
    ensures value { result ≡ behind_even at (operation_said operation.now) }
    ensures most { IfOk result (λ at. IfSome at (λ known. known ≤ PAST)) }
{
    no_size(operation.size)?;
    if !operation.operands.is_empty() {
        return Err(AsmKind::Operand);
    }
    Ok(even_from(at))
}

fn behind_instruction(
    alloc: Global,
    scope: &Scope,
    operation: &Operation,
) -> Result<Option<u64>, Refusal>
    ensures value { GivesAlone (λ at. at) result
        (behind_instruction (scope_said scope.now) (operation_said operation.now)) }
    ensures most { IfOk result (λ at. IfSome at (λ known. known ≤ PAST)) }
{
    let values = values_of(alloc, scope, &operation.operands)?;
    match length_of(operation.name.bytes(scope.line), operation.size, &values) {
        Ok(len) => Ok(onward(scope.at, u64::from(len))),
        Err(fault) => Err(Refusal::Kind(AsmKind::from(fault))),
    }
}

/// The same in directives.
fn behind_directive(
    scope: &Scope,
    operation: &Operation,
    directive: Directive,
) -> Result<Option<u64>, AsmKind>
    ensures value { result ≡ behind_directive (scope_said scope.now) (operation_said operation.now) directive }
    ensures most { IfOk result (λ at. IfSome at (λ known. known ≤ PAST)) }
{
    match directive {
        Directive::Org => behind_org(scope, operation),
        Directive::Equ => Ok(scope.at),
        Directive::Dc => behind_dc(scope.at, operation),
        Directive::Ds => behind_ds(scope, operation),
        Directive::Even => behind_even(scope.at, operation),
    }
}

/// The address behind an operation, with the symbols of earlier lines.
#[tactic(auto, unfolding(crate::specs::Extents::address_behind))]
fn address_behind(
    alloc: Global,
    scope: &Scope,
    operation: &Operation,
) -> Result<Option<u64>, Refusal>
    ensures value { GivesAlone (λ at. at) result
        (address_behind (scope_said scope.now) (operation_said operation.now)) }
    ensures most { IfOk result (λ at. IfSome at (λ known. known ≤ PAST)) }
{
    match directive_of(operation.name.bytes(scope.line)) {
        Some(directive) => match behind_directive(scope, operation, directive) {
            Ok(at) => Ok(at),
            Err(kind) => Err(Refusal::Kind(kind)),
        },
        None => behind_instruction(alloc, scope, operation),
    }
}

/// The same, apart from want of memory.
pub(crate) fn reached(
    alloc: Global,
    scope: &Scope,
    operation: &Operation,
) -> Result<Result<Option<u64>, AsmKind>, AllocError>
    ensures value { IfOk result (λ reached. reached
        ≡ address_behind (scope_said scope.now) (operation_said operation.now)) }
    ensures most { IfOk result (λ reached. IfOk reached (λ at. IfSome at (λ known. known ≤ PAST))) }
{
    match address_behind(alloc, scope, operation) {
        Ok(at) => Ok(Ok(at)),
        Err(Refusal::Kind(kind)) => Ok(Err(kind)),
        Err(Refusal::Memory) => Err(AllocError),
    }
}
