//! Operands in memory.

ghost use Rattle.std.specs.Prelude.{◌≡◌, ◌+◌, ◌*◌, ◌^◌, ◌<◌, ◌≤◌, IfOk};
ghost use Rattle.mb_port.specs.Routine.{run};
ghost use Rattle.mb_port.specs.Pieces.{ArePieces, total};
ghost use Rattle.mb_instr.specs.Sizes.{bytes_of, values_of};
ghost use Rattle.mb_ea.specs.Reading.{read_pieces_of, read_cut_of, read_operand_of};

use mb_instr::Size;
use mb_port::{Fault, Piece, Port, Space, split};

/// A refused read of an operand.
#[derive(Clone, Copy, Debug, PartialEq, Eq)]
pub struct ReadFault {
    pub fault: Fault,
    /// The logical address of the operand's first byte.
    pub first: u32,
}

/// A number of `len` bytes with a piece of `more` bytes behind it.
pub fn join(value: u64, len: u8, part: u32, more: u8) -> u64
    requires fits { len + more ≤ 5 }
    requires few { more ≤ 4 }
    requires value { value < 256 ^ len }
    requires part { part < 256 ^ more }
    ensures value { result ≡ value * 256 ^ more + part }
    ensures range { result < 256 ^ (len + more) }
{
    value * (1 << (8 * more)) + u64::from(part)
}

/// Reads the pieces in their order, behind the `len` bytes of `value`.
fn read_pieces<P: Port>(
    space: Space,
    pieces: &[Piece],
    value: u64,
    len: u8,
    port: &mut P,
) -> Result<u64, Fault>
    requires aligned { ArePieces pieces.now }
    requires fits { len + total pieces.now ≤ 5 }
    requires in_range { value < 256 ^ len }
    ensures means { run P.bus (read_pieces_of space pieces.now value) (P.world port.old) ≡ (result, P.world port.new) }
    ensures range { IfOk result (λ read. read < 256 ^ (len + total pieces.now)) }
    ensures rest { P.rest port.new ≡ P.rest port.old }
{
    match pieces {
        [] => Ok(value),
        [first, rest @ ..] => {
            let part = port.read(space, *first)?;
            let joined = join(value, len, part, first.len);
            read_pieces(space, rest, joined, len + first.len, port)
        }
    }
}

/// Reads the pieces of an operand of one to five bytes.
fn read_cut<P: Port>(space: Space, at: u32, len: u8, port: &mut P) -> Result<u64, Fault>
    requires { (1 ≤ len) × (len ≤ 5) }
    ensures means { run P.bus (read_cut_of space at len) (P.world port.old) ≡ (result, P.world port.new) }
    ensures range { IfOk result (λ read. read < 256 ^ len) }
    ensures rest { P.rest port.new ≡ P.rest port.old }
{
    let pieces = split(at, len);
    read_pieces(space, pieces.as_slice(), 0, 0, port)
}

/// Reads the pieces of an operand that is not one piece.
fn read_parts<P: Port>(space: Space, at: u32, size: Size, port: &mut P) -> Result<u32, Fault>
    ensures means { run P.bus (read_cut_of space at (bytes_of size)) (P.world port.old) ≡ (result, P.world port.new) }
    ensures range { IfOk result (λ read. read < values_of size) }
    ensures rest { P.rest port.new ≡ P.rest port.old }
{
    let read = read_cut(space, at, size.bytes(), port)?;
    Ok(read as u32)
}

/// Reads the pieces of an operand of a size; mostly it is one.
#[inline(always)]
fn read_sized<P: Port>(space: Space, at: u32, size: Size, port: &mut P) -> Result<u32, Fault>
    ensures means { run P.bus (read_cut_of space at (bytes_of size)) (P.world port.old) ≡ (result, P.world port.new) }
    ensures range { IfOk result (λ read. read < values_of size) }
    ensures rest { P.rest port.new ≡ P.rest port.old }
{
    let len = size.bytes();
    if at % u32::from(len) == 0 {
        port.read(space, Piece { at, len })
    } else {
        read_parts(space, at, size, port)
    }
}

/// Reads an operand of one to five bytes, cut into pieces: the big-endian number that they spell.
/// After a refused piece no later one is read.
#[tactic(auto, unfolding(crate::specs::Reading::read_operand_of))]
pub fn read_operand<P: Port>(space: Space, at: u32, len: u8, port: &mut P) -> Result<u64, ReadFault>
    requires { (1 ≤ len) × (len ≤ 5) }
    ensures means { run P.bus (read_operand_of space at len) (P.world port.old) ≡ (result, P.world port.new) }
    ensures range { IfOk result (λ read. read < 256 ^ len) }
    ensures rest { P.rest port.new ≡ P.rest port.old }
{
    match read_cut(space, at, len, port) {
        Ok(value) => Ok(value),
        Err(fault) => Err(ReadFault { fault, first: at }),
    }
}

/// Reads an operand of a size, as [`read_operand`] does.
#[inline(always)]
#[tactic(auto, unfolding(crate::specs::Reading::read_operand_of))]
pub fn read_value<P: Port>(
    space: Space,
    at: u32,
    size: Size,
    port: &mut P,
) -> Result<u32, ReadFault>
    ensures means { run P.bus (read_operand_of space at (bytes_of size)) (P.world port.old)
        ≡ (result, P.world port.new) }
    ensures range { IfOk result (λ read. read < values_of size) }
    ensures rest { P.rest port.new ≡ P.rest port.old }
{
    match read_sized(space, at, size, port) {
        Ok(value) => Ok(value),
        Err(fault) => Err(ReadFault { fault, first: at }),
    }
}
