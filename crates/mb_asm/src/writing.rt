//! The bytes that an operation writes.

ghost use Rattle.std.specs.Prelude.{◌≡◌, ◌++◌, ◌<◌, ◌⊎◌, IfOk, OnOk};
ghost use Rattle.std.specs.List.{flat_map};
ghost use Rattle.byteorder.specs.Endian.{big_bytes};
ghost use Rattle.mb_instr.specs.Codes.{IsInstr};
ghost use Rattle.mb_mnemonics.specs.Ranges.{values};
ghost use Rattle.mb_asm.specs.Scopes.{scope_said};
ghost use Rattle.mb_syntax.specs.Answers.{operation_said};
ghost use Rattle.mb_asm.specs.Answers.{GivesAlone};
ghost use Rattle.mb_asm.specs.Bytes.{operation_bytes, instr_bytes, dc_bytes, has_out, instruction_bytes, is_out};
ghost use Rattle.mb_asm.specs.Bytes.{bytes_there, item_bytes, items_bytes, known_address, bytes_where_known, text_bytes};
ghost use Rattle.mb_asm.specs.Bytes.{unit_bytes};
ghost use Rattle.mb_asm.specs.Bytes.{unit_range};

use crate::directive::{Directive, directive_of, plain_of, unit_of};
use crate::evaluation::{have_flaw, values_of};
use crate::extent::narrow_value;
use crate::fault::AsmKind;
use crate::filling::all_filled;
use crate::refusal::Refusal;
use crate::value::{Flaw, Scope};
use byteorder::{BigEndian, ByteOrder};
use mb_encode::encode;
use mb_instr::Instr;
use mb_mnemonics::{MeansFault, Range, instruction_of, number};
use mb_syntax::{Expression, Name, Operand, Operation};
use std::alloc::{AllocError, Global};

fn unit_range(unit: u8) -> Range
    ensures { result ≡ unit_range unit }
{
    match unit {
        1 => Range::Byte,
        2 => Range::Word,
        _ => Range::Long,
    }
}

/// What a text has between its quotation marks.
fn text_bytes(line: &[u8], text: Name) -> &[u8]
    ensures { result.now ≡ text_bytes line.now text }
{
    let inside = Name {
        start: text.start.saturating_add(1),
        end: text.end.saturating_sub(1),
    };
    inside.bytes(line)
}

/// A number as a unit of so many bytes, the high one first.
fn spelled_bytes(alloc: Global, unit: u8, spelled: u32) -> Result<Vec<u8>, AllocError>
    requires unit { (unit ≡ 1) ⊎ ((unit ≡ 2) ⊎ (unit ≡ 4)) }
    requires small { spelled < values (unit_range unit) }
    ensures { IfOk result (λ bytes. bytes.items ≡ big_bytes unit spelled) }
{
    match unit {
        1 => Vec::from_slice(alloc, &[(spelled & 0xff) as u8]),
        2 => {
            let mut bytes = [0; 2];
            BigEndian::write_u16(&mut bytes, spelled as u16);
            Vec::from_slice(alloc, &bytes)
        }
        _ => {
            let mut bytes = [0; 4];
            BigEndian::write_u32(&mut bytes, spelled);
            Vec::from_slice(alloc, &bytes)
        }
    }
}

/// A value as a unit of so many bytes; one that is not known counts as 0.
fn unit_bytes(
    alloc: Global,
    unit: u8,
    scope: &Scope,
    expression: &Expression,
) -> Result<Vec<u8>, Refusal>
    requires { (unit ≡ 1) ⊎ ((unit ≡ 2) ⊎ (unit ≡ 4)) }
    ensures { GivesAlone (λ bytes. bytes.items) result (unit_bytes unit (scope_said scope.now) expression.now) }
{
    let spelled = match narrow_value(scope, expression)? {
        Some(value) => match number(unit_range(unit), value) {
            Some(spelled) => spelled,
            None => return Err(Refusal::Kind(AsmKind::Range)),
        },
        None => 0,
    };
    Ok(spelled_bytes(alloc, unit, spelled)?)
}

fn item_bytes(
    alloc: Global,
    unit: u8,
    scope: &Scope,
    item: &Operand<Expression>,
) -> Result<Vec<u8>, Refusal>
    requires { (unit ≡ 1) ⊎ ((unit ≡ 2) ⊎ (unit ≡ 4)) }
    ensures { GivesAlone (λ bytes. bytes.items) result (item_bytes unit (scope_said scope.now) item.now) }
{
    match item {
        Operand::Text(text) => Ok(Vec::from_slice(alloc, text_bytes(scope.line, *text))?),
        _ => match plain_of(item) {
            Some(expression) => unit_bytes(alloc, unit, scope, expression),
            None => Err(Refusal::Kind(AsmKind::Operand)),
        },
    }
}

fn items_bytes(
    alloc: Global,
    unit: u8,
    scope: &Scope,
    items: &[Operand<Expression>],
) -> Result<Vec<u8>, Refusal>
    requires { (unit ≡ 1) ⊎ ((unit ≡ 2) ⊎ (unit ≡ 4)) }
    ensures { GivesAlone (λ bytes. bytes.items) result (items_bytes unit (scope_said scope.now) items.now) }
{
    let mut bytes = Vec::new(alloc);
    for item in items {
        let more = item_bytes(alloc, unit, scope, item)?;
        bytes.extend_from_slice(&more)?;
    }
    Ok(bytes)
}

fn dc_bytes(alloc: Global, scope: &Scope, operation: &Operation) -> Result<Vec<u8>, Refusal>
    ensures { GivesAlone (λ bytes. bytes.items) result
        (dc_bytes (scope_said scope.now) (operation_said operation.now)) }
{
    match unit_of(operation.size) {
        Some(unit) => items_bytes(alloc, unit, scope, &operation.operands),
        None => Err(Refusal::Kind(AsmKind::Operand)),
    }
}

/// Adds words, the high byte of each first.
fn push_words(bytes: &mut Vec<u8>, words: &[u16]) -> Result<(), AllocError>
    ensures { OnOk result (bytes.new.items ≡ bytes.old.items ++ flat_map (big_bytes 2) words.now) }
{
    for word in words {
        let mut pair = [0; 2];
        BigEndian::write_u16(&mut pair, *word);
        bytes.extend_from_slice(&pair)?;
    }
    Ok(())
}

/// The bytes of an instruction's words.
fn instr_bytes(alloc: Global, instruction: &Instr) -> Result<Vec<u8>, AllocError>
    requires { IsInstr instruction.now }
    ensures { IfOk result (λ bytes. bytes.items ≡ instr_bytes instruction.now) }
{
    let mut bytes = Vec::new(alloc);
    if let Ok(words) = encode(instruction) {
        push_words(&mut bytes, words.as_slice())?;
    }
    Ok(bytes)
}

/// The address of an instruction, where all that its numbers rest on is known.
fn known_address(scope: &Scope, operation: &Operation) -> Option<u64>
    ensures { result ≡ known_address (scope_said scope.now) (operation_said operation.now) }
{
    if have_flaw(Flaw::Unknown, scope, &operation.operands) {
        return None;
    }
    scope.at
}

/// An instruction at the address.
fn bytes_there(
    alloc: Global,
    scope: &Scope,
    operation: &Operation,
    at: u64,
) -> Result<Vec<u8>, Refusal>
    ensures { GivesAlone (λ bytes. bytes.items) result
        (bytes_there (scope_said scope.now) (operation_said operation.now) at) }
{
    let values = values_of(alloc, scope, &operation.operands)?;
    let name = operation.name.bytes(scope.line);
    let at = (at % 0x1_0000_0000) as u32;
    match instruction_of(name, operation.size, &values, at) {
        Ok(instruction) => Ok(instr_bytes(alloc, &instruction)?),
        Err(fault) => Err(Refusal::Kind(AsmKind::from(fault))),
    }
}

/// A number is out of its range.
fn is_out(meaning: &Result<Instr, MeansFault>) -> bool
    ensures { result ≡ is_out meaning.now }
{
    matches!(meaning, Err(MeansFault::Range))
}

/// Whether a number of an operation that is known is out of its range, whatever those are that are not.
fn has_out(alloc: Global, scope: &Scope, operation: &Operation) -> Result<bool, AllocError>
    ensures { IfOk result (λ out. out ≡ has_out (scope_said scope.now) (operation_said operation.now)) }
{
    let values = all_filled(alloc, scope, &operation.operands)?;
    let name = operation.name.bytes(scope.line);
    let at = (scope.at.unwrap_or(0) % 0x1_0000_0000) as u32;
    Ok(is_out(&instruction_of(name, operation.size, &values, at)))
}

/// Of an instruction that rests on what is not known, the numbers that are known are judged.
fn bytes_where_known(
    alloc: Global,
    scope: &Scope,
    operation: &Operation,
    at: Option<u64>,
) -> Result<Vec<u8>, Refusal>
    ensures { GivesAlone (λ bytes. bytes.items) result
        (bytes_where_known (scope_said scope.now) (operation_said operation.now) at) }
{
    match at {
        Some(at) => bytes_there(alloc, scope, operation, at),
        None if has_out(alloc, scope, operation)? => Err(Refusal::Kind(AsmKind::Range)),
        None => Ok(Vec::new(alloc)),
    }
}

fn instruction_bytes(
    alloc: Global,
    scope: &Scope,
    operation: &Operation,
) -> Result<Vec<u8>, Refusal>
    ensures { GivesAlone (λ bytes. bytes.items) result
        (instruction_bytes (scope_said scope.now) (operation_said operation.now)) }
{
    let at = known_address(scope, operation);
    let bytes = bytes_where_known(alloc, scope, operation, at)?;
    if have_flaw(Flaw::Wide, scope, &operation.operands) {
        return Err(Refusal::Kind(AsmKind::Range));
    }
    Ok(bytes)
}

/// The bytes that an operation writes, with the symbols of all lines.
pub(crate) fn operation_bytes(
    alloc: Global,
    scope: &Scope,
    operation: &Operation,
) -> Result<Vec<u8>, Refusal>
    ensures { GivesAlone (λ bytes. bytes.items) result
        (operation_bytes (scope_said scope.now) (operation_said operation.now)) }
{
    match directive_of(operation.name.bytes(scope.line)) {
        Some(Directive::Dc) => dc_bytes(alloc, scope, operation),
        Some(_) => Ok(Vec::new(alloc)),
        None => instruction_bytes(alloc, scope, operation),
    }
}
