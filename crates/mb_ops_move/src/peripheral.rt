//! MOVEP.

ghost use Rattle.std.specs.Prelude.{◌≡◌, ◌<◌};
ghost use Rattle.mb_port.specs.Routine.{run};
ghost use Rattle.mb_instr.specs.Sizes.{bytes_of};
ghost use Rattle.mb_ea.specs.Reading.{read_pieces_of};
ghost use Rattle.mb_writes.specs.Writing.{apart};
ghost use Rattle.def_instructions.specs.Peripheral.{read_apart_of, load_peripheral_of, store_peripheral_of, movep_of};
ghost use Rattle.mb_operands.specs.Endings.{carried_by};

use mb_ea::{ReadFault, Target};
use mb_instr::{Plain, Size};
use mb_operands::{Undone, finish_with, unread, unwritten};
use mb_port::{Fault, Piece, Port, Space};
use mb_writes::{Ended, write_apart};

/// A single byte as a piece.
#[inline(always)]
fn byte_at(at: u32) -> Piece
    ensures { result ≡ record { at = at; len = 1 } }
{
    Piece { at, len: 1 }
}

/// Reads a byte.
fn read_byte<P: Port>(space: Space, at: u32, port: &mut P) -> Result<u32, Fault>
    ensures means { run P.bus (read_pieces_of space (apart at 1) 0) (P.world port.old) ≡ (result, P.world port.new) }
    ensures rest { P.rest port.new ≡ P.rest port.old }
{
    let byte = port.read(space, byte_at(at))?;
    Ok(byte)
}

/// Reads a word whose bytes stand at every second address.
fn read_word<P: Port>(space: Space, at: u32, port: &mut P) -> Result<u32, Fault>
    ensures means { run P.bus (read_pieces_of space (apart at 2) 0) (P.world port.old) ≡ (result, P.world port.new) }
    ensures rest { P.rest port.new ≡ P.rest port.old }
{
    let high = port.read(space, byte_at(at))?;
    let low = port.read(space, byte_at(at.wrapping_add(2)))?;
    Ok(high * 256 + low)
}

/// Reads a long whose bytes stand at every second address.
fn read_long<P: Port>(space: Space, at: u32, port: &mut P) -> Result<u32, Fault>
    ensures means { run P.bus (read_pieces_of space (apart at 4) 0) (P.world port.old) ≡ (result, P.world port.new) }
    ensures rest { P.rest port.new ≡ P.rest port.old }
{
    let second = at.wrapping_add(2);
    let third = second.wrapping_add(2);
    let fourth = third.wrapping_add(2);
    let mut value = port.read(space, byte_at(at))?;
    value = value * 256 + port.read(space, byte_at(second))?;
    value = value * 256 + port.read(space, byte_at(third))?;
    value = value * 256 + port.read(space, byte_at(fourth))?;
    Ok(value)
}

/// Reads the bytes of an operand at every second address.
fn read_bytes<P: Port>(space: Space, at: u32, size: Size, port: &mut P) -> Result<u32, Fault>
    ensures means { run P.bus (read_pieces_of space (apart at (bytes_of size)) 0) (P.world port.old)
        ≡ (result, P.world port.new) }
    ensures rest { P.rest port.new ≡ P.rest port.old }
{
    match size {
        Size::Byte => read_byte(space, at, port),
        Size::Word => read_word(space, at, port),
        Size::Long => read_long(space, at, port),
    }
}

/// Reads an operand whose bytes stand at every second address, the highest first.
fn read_apart<P: Port>(space: Space, at: u32, size: Size, port: &mut P) -> Result<u32, ReadFault>
    ensures means { run P.bus (read_apart_of space at size) (P.world port.old) ≡ (result, P.world port.new) }
    ensures rest { P.rest port.new ≡ P.rest port.old }
{
    match read_bytes(space, at, size, port) {
        Ok(value) => Ok(value),
        Err(fault) => Err(ReadFault { fault, first: at }),
    }
}

/// The low word or the long of a data register is set by the bytes.
fn load_peripheral<P: Port>(
    register: u8,
    size: Size,
    place: u32,
    space: Space,
    plain: &mut Plain,
    port: &mut P,
    ended: &mut Ended,
) -> Result<(), Undone>
    requires { register < 8 }
    ensures means { run P.bus (load_peripheral_of register size place space plain.old) (P.world port.old)
        ≡ (carried_by result ended.new plain.new, P.world port.new) }
    ensures rest { P.rest port.new ≡ P.rest port.old }
{
    match read_apart(space, place, size, port) {
        Ok(value) => finish_with(
            Target::Reg(register),
            size,
            value,
            space,
            plain,
            port,
            ended,
        ),
        Err(refused) => Err(unread(&refused, ended)),
    }
}

/// The low word or the long of a data register is written byte by byte.
fn store_peripheral<P: Port>(
    register: u8,
    size: Size,
    place: u32,
    space: Space,
    plain: &Plain,
    port: &mut P,
    ended: &mut Ended,
) -> Result<(), Undone>
    requires { register < 8 }
    ensures means { run P.bus (store_peripheral_of register size place space plain.now) (P.world port.old)
        ≡ (carried_by result ended.new plain.now, P.world port.new) }
    ensures rest { P.rest port.new ≡ P.rest port.old }
{
    match write_apart(space, place, size, plain.d[register as usize], port) {
        Ok(()) => Ok(()),
        Err(refused) => Err(unwritten(refused, ended)),
    }
}

/// MOVEP: from the address register plus the displacement on.
pub fn movep<P: Port>(
    register: u8,
    is_store: bool,
    size: Size,
    address: u8,
    displacement: u16,
    space: Space,
    plain: &mut Plain,
    port: &mut P,
    ended: &mut Ended,
) -> Result<(), Undone>
    requires { (register < 8) × (address < 8) }
    ensures means { run P.bus (movep_of register is_store size address displacement space plain.old) (P.world port.old)
        ≡ (carried_by result ended.new plain.new, P.world port.new) }
    ensures rest { P.rest port.new ≡ P.rest port.old }
{
    let displacement = Size::Word.sign_extend(u32::from(displacement));
    let place = plain.a[address as usize].wrapping_add(displacement);
    if is_store {
        store_peripheral(register, size, place, space, plain, port, ended)
    } else {
        load_peripheral(register, size, place, space, plain, port, ended)
    }
}
