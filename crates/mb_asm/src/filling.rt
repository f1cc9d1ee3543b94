//! Operands with numbers in range in the place of those that are not known.

ghost use Rattle.std.specs.Prelude.{◌≡◌, IfOk, map, option_map};
ghost use Rattle.mb_mnemonics.specs.Values.{valued_displacement};
ghost use Rattle.mb_asm.specs.Scopes.{scope_said};
ghost use Rattle.mb_asm.specs.Values.{with_all_known, filled_base, filled_form, filled_mode, near, target};

use crate::evaluation::{displacement_value, field_value, mode_value, operand_value, value_of};
use crate::value::Scope;
use mb_syntax::{Base, Displacement, Expression, FullForm, Mode, Operand};
use std::alloc::{AllocError, Global};

/// A place that every displacement reaches from the statement.
fn near(scope: &Scope) -> i64
    ensures { result ≡ near (scope_said scope.now) }
{
    ((scope.at.unwrap_or(0) + 4) % 0x1_0000_0000) as i64
}

/// The value of a target; one that is not known, or that is not known from the statement, counts as a near one.
fn target(scope: &Scope, expression: &Expression) -> i64
    ensures { result ≡ target (scope_said scope.now) expression.now }
{
    let known = match scope.at {
        Some(_) => value_of(scope, expression),
        None => None,
    };
    known.unwrap_or(near(scope))
}

fn target_displacement(
    scope: &Scope,
    displacement: &Option<Displacement<Expression>>,
) -> Option<Displacement<i64>>
    ensures { result ≡ option_map (valued_displacement (target (scope_said scope.now))) displacement.now }
{
    match displacement {
        Some(displacement) => Some(Displacement {
            value: target(scope, &displacement.value),
            width: displacement.width,
        }),
        None => None,
    }
}

/// The base displacement of a full form; from the PC it is a target.
fn filled_base(
    scope: &Scope,
    base: Base,
    displacement: &Option<Displacement<Expression>>,
) -> Option<Displacement<i64>>
    ensures { result ≡ filled_base (scope_said scope.now) base displacement.now }
{
    match base {
        Base::Pc => target_displacement(scope, displacement),
        Base::Address(_) | Base::NoAddress(_) | Base::NoPc => {
            displacement_value(scope, displacement)
        }
    }
}

fn filled_form(scope: &Scope, form: &FullForm<Expression>) -> FullForm<i64>
    ensures { result ≡ filled_form (scope_said scope.now) form.now }
{
    FullForm {
        displacement: filled_base(scope, form.base, &form.displacement),
        base: form.base,
        index: form.index,
        indirection: form.indirection,
        outer: displacement_value(scope, &form.outer),
    }
}

fn filled_mode(scope: &Scope, mode: &Mode<Expression>) -> Mode<i64>
    ensures { result ≡ filled_mode (scope_said scope.now) mode.now }
{
    match mode {
        Mode::Absolute {
            address,
            width: None,
        } => Mode::Absolute {
            address: target(scope, address),
            width: None,
        },
        Mode::PcDisplaced { target: e } => Mode::PcDisplaced {
            target: target(scope, e),
        },
        Mode::PcIndexed { target: e, index } => Mode::PcIndexed {
            target: target(scope, e),
            index: *index,
        },
        Mode::Full(form) => Mode::Full(filled_form(scope, form)),
        _ => mode_value(scope, mode),
    }
}

fn filled(scope: &Scope, operand: &Operand<Expression>) -> Operand<i64>
    ensures { result ≡ with_all_known (scope_said scope.now) operand.now }
{
    match operand {
        Operand::Mode(mode) => Operand::Mode(filled_mode(scope, mode)),
        Operand::Field { mode, field } => Operand::Field {
            mode: filled_mode(scope, mode),
            field: field_value(scope, field),
        },
        _ => operand_value(scope, operand),
    }
}

/// The operands with numbers in range in the place of those that are not known.
pub(crate) fn all_filled(
    alloc: Global,
    scope: &Scope,
    operands: &[Operand<Expression>],
) -> Result<Vec<Operand<i64>>, AllocError>
    ensures { IfOk result (λ values. values.items ≡ map (with_all_known (scope_said scope.now)) operands.now) }
{
    let mut values = Vec::new(alloc);
    for operand in operands {
        values.push(filled(scope, operand))?;
    }
    Ok(values)
}
