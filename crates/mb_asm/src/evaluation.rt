//! The values of expressions.

ghost use Rattle.std.specs.Prelude.{◌≡◌, ◌^◌, ◌≤◌, ◌≤ℤ◌, IfOk, IfSome, length, negsuc, option_map, pos};
ghost use Rattle.std.specs.List.{list_any};
ghost use Rattle.mb_syntax.specs.Options.{has};
ghost use Rattle.mb_mnemonics.specs.Values.{valued, valued_displacement, valued_field, valued_form, valued_mode};
ghost use Rattle.mb_mnemonics.specs.Values.{valued_number};
ghost use Rattle.mb_asm.specs.Scopes.{scope_said};
ghost use Rattle.mb_asm.specs.Values.{have_flaw, has_flaw, in_mode, in_number, in_operand};
ghost use Rattle.mb_asm.specs.Values.{in_displacement, is_nameless, is_wide, signed_value, sum_behind};
ghost use Rattle.mb_asm.specs.Values.{value_or_one, term_value, value_of, values_of};
ghost use Rattle.mb_asm.specs.declared.addresses.TheConstants.{PAST};

use crate::lookup::value_in;
use crate::value::{Flaw, Scope};
use mb_syntax::{
    BitField, Displacement, Expression, FieldNumber, FullForm, Mode, Operand, SignedTerm, Term,
};
use std::alloc::{AllocError, Global};

fn term_value(scope: &Scope, term: Term) -> Option<i64>
    ensures value { result ≡ term_value (scope_said scope.now) term }
    ensures least { IfSome result (λ value. negsuc 4294967296 ≤ℤ value) }
    ensures greatest { IfSome result (λ value. value ≤ℤ pos PAST) }
{
    match term {
        Term::Number(number) => Some(i64::from(number)),
        Term::WideNumber => Some(0),
        Term::Symbol(name) => value_in(scope.symbols, name.bytes(scope.line)).unwrap_or(None),
        Term::Here => match scope.at {
            Some(at) => Some(at as i64),
            None => None,
        },
    }
}

fn signed_value(scope: &Scope, signed: SignedTerm) -> Option<i64>
    ensures value { result ≡ signed_value (scope_said scope.now) signed }
    ensures least { IfSome result (λ value. negsuc 4294967296 ≤ℤ value) }
    ensures greatest { IfSome result (λ value. value ≤ℤ pos PAST) }
{
    let value = term_value(scope, signed.term)?;
    if signed.is_negative {
        Some(-value)
    } else {
        Some(value)
    }
}

/// The exact value of an expression, if it is known.
pub(crate) fn value_of(scope: &Scope, expression: &Expression) -> Option<i64>
    ensures { result ≡ value_of (scope_said scope.now) expression.now }
{
    let terms = expression.terms();
    if terms.len() > 1 << 30 {
        return Some(0);
    }
    sum_of(scope, terms)
}

fn sum_of(scope: &Scope, terms: &[SignedTerm]) -> Option<i64>
    requires { length terms.now ≤ 2 ^ 30 }
    ensures { result ≡ sum_behind (scope_said scope.now) (pos 0) terms.now }
{
    let mut sum = 0;
    for term in terms {
        match signed_value(scope, *term) {
            Some(value) => sum += value,
            None => return None,
        }
    }
    Some(sum)
}

/// The value of an expression, and 1 where it is not known.
fn value_or_one(scope: &Scope, expression: &Expression) -> i64
    ensures { result ≡ value_or_one (scope_said scope.now) expression.now }
{
    value_of(scope, expression).unwrap_or(1)
}

fn is_nameless(scope: &Scope, signed: SignedTerm) -> bool
    ensures { result ≡ is_nameless (scope_said scope.now) signed }
{
    match signed.term {
        Term::Symbol(name) => value_in(scope.symbols, name.bytes(scope.line)).is_none(),
        _ => false,
    }
}

fn is_wide(signed: SignedTerm) -> bool
    ensures { result ≡ is_wide signed }
{
    matches!(signed.term, Term::WideNumber)
}

/// Whether an expression has the flaw.
pub(crate) fn has_flaw(flaw: Flaw, scope: &Scope, expression: &Expression) -> bool
    ensures { result ≡ has_flaw flaw (scope_said scope.now) expression.now }
{
    let terms = expression.terms();
    match flaw {
        Flaw::Nameless => has_nameless(scope, terms),
        Flaw::Wide => terms.len() > 1 << 30 || has_wide(terms),
        Flaw::Unknown => value_of(scope, expression).is_none(),
    }
}

fn has_nameless(scope: &Scope, terms: &[SignedTerm]) -> bool
    ensures { result ≡ list_any (is_nameless (scope_said scope.now)) terms.now }
{
    for term in terms {
        if is_nameless(scope, *term) {
            return true;
        }
    }
    false
}

fn has_wide(terms: &[SignedTerm]) -> bool
    ensures { result ≡ list_any is_wide terms.now }
{
    for term in terms {
        if is_wide(*term) {
            return true;
        }
    }
    false
}

fn displacement_has(
    flaw: Flaw,
    scope: &Scope,
    displacement: &Option<Displacement<Expression>>,
) -> bool
    ensures { result ≡ has (in_displacement (has_flaw flaw (scope_said scope.now))) displacement.now }
{
    match displacement {
        Some(displacement) => has_flaw(flaw, scope, &displacement.value),
        None => false,
    }
}

fn mode_has(flaw: Flaw, scope: &Scope, mode: &Mode<Expression>) -> bool
    ensures { result ≡ in_mode (has_flaw flaw (scope_said scope.now)) mode.now }
{
    match mode {
        Mode::Displaced {
            displacement: e,
            ..
        }
        | Mode::Indexed {
            displacement: e,
            ..
        }
        | Mode::Absolute { address: e, .. }
        | Mode::PcDisplaced { target: e }
        | Mode::PcIndexed { target: e, .. }
        | Mode::Immediate(e) => has_flaw(flaw, scope, e),
        Mode::Full(form) => {
            displacement_has(flaw, scope, &form.displacement)
                || displacement_has(flaw, scope, &form.outer)
        }
        _ => false,
    }
}

fn number_has(flaw: Flaw, scope: &Scope, number: &FieldNumber<Expression>) -> bool
    ensures { result ≡ in_number (has_flaw flaw (scope_said scope.now)) number.now }
{
    match number {
        FieldNumber::Data(_) => false,
        FieldNumber::Number(e) => has_flaw(flaw, scope, e),
    }
}

fn operand_has(flaw: Flaw, scope: &Scope, operand: &Operand<Expression>) -> bool
    ensures { result ≡ in_operand (has_flaw flaw (scope_said scope.now)) operand.now }
{
    match operand {
        Operand::Mode(mode) => mode_has(flaw, scope, mode),
        Operand::Field { mode, field } => {
            mode_has(flaw, scope, mode)
                || number_has(flaw, scope, &field.offset)
                || number_has(flaw, scope, &field.width)
        }
        _ => false,
    }
}

/// Whether one of the operands has the flaw.
pub(crate) fn have_flaw(flaw: Flaw, scope: &Scope, operands: &[Operand<Expression>]) -> bool
    ensures { result ≡ have_flaw flaw (scope_said scope.now) operands.now }
{
    for operand in operands {
        if operand_has(flaw, scope, operand) {
            return true;
        }
    }
    false
}

pub(crate) fn displacement_value(
    scope: &Scope,
    displacement: &Option<Displacement<Expression>>,
) -> Option<Displacement<i64>>
    ensures { result ≡ option_map (valued_displacement (value_or_one (scope_said scope.now))) displacement.now }
{
    match displacement {
        Some(displacement) => Some(Displacement {
            value: value_or_one(scope, &displacement.value),
            width: displacement.width,
        }),
        None => None,
    }
}

fn form_value(scope: &Scope, form: &FullForm<Expression>) -> FullForm<i64>
    ensures { result ≡ valued_form (value_or_one (scope_said scope.now)) form.now }
{
    FullForm {
        displacement: displacement_value(scope, &form.displacement),
        base: form.base,
        index: form.index,
        indirection: form.indirection,
        outer: displacement_value(scope, &form.outer),
    }
}

#[rattlefmt::skip]
pub(crate) fn mode_value(scope: &Scope, mode: &Mode<Expression>) -> Mode<i64>
    ensures { result ≡ valued_mode (value_or_one (scope_said scope.now)) mode.now }
{
    match mode {
        Mode::Data(register) => Mode::Data(*register),
        Mode::Address(register) => Mode::Address(*register),
        Mode::Indirect(register) => Mode::Indirect(*register),
        Mode::PostIncrement(register) => Mode::PostIncrement(*register),
        Mode::PreDecrement(register) => Mode::PreDecrement(*register),
        Mode::Displaced { register, displacement } =>
            Mode::Displaced { register: *register, displacement: value_or_one(scope, displacement) },
        Mode::Indexed { register, displacement, index } =>
            Mode::Indexed { register: *register, displacement: value_or_one(scope, displacement), index: *index },
        Mode::Absolute { address, width } => Mode::Absolute { address: value_or_one(scope, address), width: *width },
        Mode::PcDisplaced { target } => Mode::PcDisplaced { target: value_or_one(scope, target) },
        Mode::PcIndexed { target, index } => Mode::PcIndexed { target: value_or_one(scope, target), index: *index },
        Mode::Full(form) => Mode::Full(form_value(scope, form)),
        Mode::Immediate(e) => Mode::Immediate(value_or_one(scope, e)),
    }
}

fn number_value(scope: &Scope, number: &FieldNumber<Expression>) -> FieldNumber<i64>
    ensures { result ≡ valued_number (value_or_one (scope_said scope.now)) number.now }
{
    match number {
        FieldNumber::Data(register) => FieldNumber::Data(*register),
        FieldNumber::Number(e) => FieldNumber::Number(value_or_one(scope, e)),
    }
}

pub(crate) fn field_value(scope: &Scope, field: &BitField<Expression>) -> BitField<i64>
    ensures { result ≡ valued_field (value_or_one (scope_said scope.now)) field.now }
{
    BitField {
        offset: number_value(scope, &field.offset),
        width: number_value(scope, &field.width),
    }
}

/// An operand with the values of its expressions.
#[rattlefmt::skip]
pub(crate) fn operand_value(scope: &Scope, operand: &Operand<Expression>) -> Operand<i64>
    ensures { result ≡ valued (value_or_one (scope_said scope.now)) operand.now }
{
    match operand {
        Operand::Mode(mode) => Operand::Mode(mode_value(scope, mode)),
        Operand::Field { mode, field } =>
            Operand::Field { mode: mode_value(scope, mode), field: field_value(scope, field) },
        Operand::Sr => Operand::Sr,
        Operand::Ccr => Operand::Ccr,
        Operand::Control(register) => Operand::Control(*register),
        Operand::List(mask) => Operand::List(*mask),
        Operand::Pair(first, second) => Operand::Pair(*first, *second),
        Operand::IndirectPair(first, second) => Operand::IndirectPair(*first, *second),
        Operand::Caches(caches) => Operand::Caches(*caches),
        Operand::Text(text) => Operand::Text(*text),
    }
}

/// The operands with the values of their expressions.
pub(crate) fn values_of(
    alloc: Global,
    scope: &Scope,
    operands: &[Operand<Expression>],
) -> Result<Vec<Operand<i64>>, AllocError>
    ensures { IfOk result (λ values. values.items ≡ values_of (scope_said scope.now) operands.now) }
{
    let mut values = Vec::new(alloc);
    for operand in operands {
        values.push(operand_value(scope, operand))?;
    }
    Ok(values)
}
