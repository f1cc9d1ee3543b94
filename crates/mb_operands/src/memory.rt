//! Operands in memory: at once where the bus can, else the slow way, which is a call.
//!
//! An operand at a multiple of its size is one piece, so that one call of the bus is all of it.

ghost use Rattle.std.specs.Prelude.{◌≡◌, ◌%◌, ◌<◌, IfOk, IfSome, OnErr, Ok, true, false};
ghost use Rattle.mb_port.specs.Routine.{run, failing};
ghost use Rattle.mb_port.specs.Pieces.{IsPiece};
ghost use Rattle.mb_instr.specs.Sizes.{bytes_of, values_of};
ghost use Rattle.mb_ea.specs.Reading.{read_operand_of};
ghost use Rattle.mb_writes.specs.Writing.{write_operand_of};
ghost use Rattle.mb_writes.specs.declared.ends.Ended.TheVariants as ends;
ghost use Rattle.mb_operands.specs.Endings.{with_end, IsUnfinished};

use crate::endings::{Undone, unwritten};
use mb_ea::{ReadFault, read_value};
use mb_instr::Size;
use mb_port::{Piece, Port, Space};
use mb_writes::{Ended, write_value};

/// An operand that is one piece.
#[inline(always)]
fn whole_piece(at: u32, size: Size) -> Option<Piece>
    ensures whole { IfSome result (λ piece. piece ≡ record { at = at; len = bytes_of size }) }
    ensures aligned { IfSome result (λ piece. at % bytes_of size ≡ 0) }
    ensures piece { IfSome result IsPiece }
{
    let len = size.bytes();
    if at % u32::from(len) == 0 {
        Some(Piece { at, len })
    } else {
        None
    }
}

/// Reads an operand, where its number is known at once. A quick read tells no range, so a number that the size cannot
/// have is left to the slow way.
#[inline(always)]
pub fn read_at_once<P: Port>(space: Space, at: u32, size: Size, port: &P) -> Option<u32>
    ensures means { IfSome result (λ value. run P.bus (read_operand_of space at (bytes_of size)) (P.world port.now)
        ≡ (Ok value, P.world port.now)) }
    ensures range { IfSome result (λ value. value < values_of size) }
{
    let piece = whole_piece(at, size)?;
    let value = port.quick_read(space, piece)?;
    if size.low(value) == value {
        Some(value)
    } else {
        None
    }
}

/// Reads an operand, whatever the bus has to do for it.
#[inline(never)]
fn read_slowly<P: Port>(space: Space, at: u32, size: Size, port: &mut P) -> Result<u32, ReadFault>
    ensures means { run P.bus (read_operand_of space at (bytes_of size)) (P.world port.old)
        ≡ (result, P.world port.new) }
    ensures range { IfOk result (λ value. value < values_of size) }
    ensures rest { P.rest port.new ≡ P.rest port.old }
{
    read_value(space, at, size, port)
}

/// Reads an operand, as `read_value` of `mb_ea` does.
#[inline(always)]
pub fn read_memory<P: Port>(
    space: Space,
    at: u32,
    size: Size,
    port: &mut P,
) -> Result<u32, ReadFault>
    ensures means { run P.bus (read_operand_of space at (bytes_of size)) (P.world port.old)
        ≡ (result, P.world port.new) }
    ensures range { IfOk result (λ value. value < values_of size) }
    ensures rest { P.rest port.new ≡ P.rest port.old }
{
    match read_at_once(space, at, size, port) {
        Some(value) => Ok(value),
        None => read_slowly(space, at, size, port),
    }
}

/// Writes an operand, where that is done at once; else nothing has changed.
#[inline(always)]
pub fn write_at_once<P: Port>(space: Space, at: u32, size: Size, value: u32, port: &mut P) -> bool
    ensures done { result ≡ true → run P.bus (write_operand_of space at (bytes_of size) value) (P.world port.old)
        ≡ (Ok tt, P.world port.new) }
    ensures undone { result ≡ false → P.world port.new ≡ P.world port.old }
    ensures still { P.still (P.world port.new) ≡ P.still (P.world port.old) }
    ensures rest { P.rest port.new ≡ P.rest port.old }
{
    match whole_piece(at, size) {
        Some(piece) => port.quick_write(space, piece, size.low(value)),
        None => false,
    }
}

/// Writes an operand, whatever the bus has to do for it.
#[inline(never)]
fn write_slowly<P: Port>(
    space: Space,
    at: u32,
    size: Size,
    value: u32,
    port: &mut P,
    ended: &mut Ended,
) -> Result<(), Undone>
    ensures means { run P.bus (failing ends.WriteFault (write_operand_of space at (bytes_of size) value))
        (P.world port.old)
        ≡ (with_end result ended.new, P.world port.new) }
    ensures left { OnErr result (IsUnfinished ended.new) }
    ensures rest { P.rest port.new ≡ P.rest port.old }
{
    match write_value(space, at, size, value, port) {
        Ok(()) => Ok(()),
        Err(refused) => Err(unwritten(refused, ended)),
    }
}

/// Writes an operand. Where it is refused, that goes to `ended`.
#[inline(always)]
pub(crate) fn write_memory<P: Port>(
    space: Space,
    at: u32,
    size: Size,
    value: u32,
    port: &mut P,
    ended: &mut Ended,
) -> Result<(), Undone>
    ensures means { run P.bus (failing ends.WriteFault (write_operand_of space at (bytes_of size) value))
        (P.world port.old)
        ≡ (with_end result ended.new, P.world port.new) }
    ensures left { OnErr result (IsUnfinished ended.new) }
    ensures rest { P.rest port.new ≡ P.rest port.old }
{
    if write_at_once(space, at, size, value, port) {
        Ok(())
    } else {
        write_slowly(space, at, size, value, port, ended)
    }
}
