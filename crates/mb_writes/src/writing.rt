//! Writes of operands.

ghost use Rattle.std.specs.Prelude.{◌≡◌, ◌<◌, ◌≤◌, ◌*◌, [], ◌∷◌, length, IfErr};
ghost use Rattle.mb_port.specs.Routine.{run};
ghost use Rattle.mb_port.specs.Pieces.{ArePieces, IsPiece};
ghost use Rattle.mb_frames.specs.AccessFields.{piece_of};
ghost use Rattle.mb_instr.specs.Sizes.{bytes_of};
ghost use Rattle.mb_writes.specs.Writing.{part_of, parts_of, pending_of, ArePending, IsLeftOf};
ghost use Rattle.mb_writes.specs.Writing.{write_fault_at, write_pieces_of, write_operand_of, write_apart_of, complete_of};

use crate::ends::WriteFault;
use arrayvec::ArrayVec;
use mb_frames::Pend;
use mb_instr::Size;
use mb_port::{Fault, Piece, Port, Space, split};

/// Of a number, the `len` bytes that begin `before_end` bytes before its end.
pub fn part(value: u64, before_end: u8, len: u8) -> u32
    requires { (before_end ≤ 5) × (len ≤ 4) }
    ensures { result ≡ part_of value before_end len }
{
    ((value >> (8 * before_end.saturating_sub(len))) % (1u64 << (8 * len))) as u32
}

/// Each piece with its part of the number.
fn parts(pieces: &[Piece], len: u8, value: u64) -> ArrayVec<Pend, 3>
    requires few { length pieces.now ≤ 3 }
    requires aligned { ArePieces pieces.now }
    requires short { len ≤ 5 }
    ensures items { result.items ≡ parts_of pieces.now len value }
    ensures pending { ArePending result.items }
{
    let mut before_end = len;
    let mut pending = ArrayVec::new();
    for piece in pieces {
        pending.push(Pend {
            at: piece.at,
            len: piece.len,
            value: part(value, before_end, piece.len),
        });
        before_end = before_end.saturating_sub(piece.len);
    }
    pending
}

/// What a refused write leaves.
fn left(fault: Fault, first: u32, rest: &[Pend]) -> WriteFault
    requires { length rest.now ≤ 3 }
    ensures { result ≡ write_fault_at first rest.now fault }
{
    let mut left = ArrayVec::new();
    for pend in rest {
        left.push(*pend);
    }
    WriteFault {
        fault,
        first,
        rest: left,
    }
}

/// Writes pieces in their order, at most three, of an operand whose first byte is at `first`.
///
/// A refused one is left, with those after it, and that address goes with them.
pub fn write_pieces<P: Port>(
    pending: &[Pend],
    first: u32,
    space: Space,
    port: &mut P,
) -> Result<(), WriteFault>
    requires few { length pending.now ≤ 3 }
    requires pieces { ArePending pending.now }
    ensures means { run P.bus (write_pieces_of space first pending.now) (P.world port.old)
        ≡ (result, P.world port.new) }
    ensures left { IfErr result (λ refused. IsLeftOf refused.rest.items pending.now) }
    ensures rest { P.rest port.new ≡ P.rest port.old }
{
    for (i, pend) in pending.iter().enumerate() {
        let piece = Piece {
            at: pend.at,
            len: pend.len,
        };
        if let Err(fault) = port.write(space, piece, pend.value) {
            return Err(left(fault, first, &pending[i..]));
        }
    }
    Ok(())
}

/// Writes what a refused write left, in its order.
///
/// At most three pieces. A refused one is left again, with those after it; `first` is then the address of
/// the first piece that was handed in.
pub fn complete<P: Port>(pending: &[Pend], space: Space, port: &mut P) -> Result<(), WriteFault>
    requires few { length pending.now ≤ 3 }
    requires pieces { ArePending pending.now }
    ensures means { run P.bus (complete_of space pending.now) (P.world port.old) ≡ (result, P.world port.new) }
    ensures left { IfErr result (λ refused. IsLeftOf refused.rest.items pending.now) }
    ensures rest { P.rest port.new ≡ P.rest port.old }
{
    let first = match pending {
        [] => 0,
        [pend, ..] => pend.at,
    };
    write_pieces(pending, first, space, port)
}

/// Writes pieces in their order, each with its part of the number.
fn put_parts<P: Port>(
    space: Space,
    first: u32,
    pieces: &[Piece],
    len: u8,
    value: u64,
    port: &mut P,
) -> Result<(), WriteFault>
    requires few { length pieces.now ≤ 3 }
    requires aligned { ArePieces pieces.now }
    requires short { len ≤ 5 }
    ensures means { run P.bus (write_pieces_of space first (parts_of pieces.now len value)) (P.world port.old)
        ≡ (result, P.world port.new) }
    ensures left { IfErr result (λ refused. IsLeftOf refused.rest.items (parts_of pieces.now len value)) }
    ensures rest { P.rest port.new ≡ P.rest port.old }
{
    let pending = parts(pieces, len, value);
    write_pieces(pending.as_slice(), first, space, port)
}

/// Writes an operand of one to five bytes, cut into pieces in order of address. Bytes of `value` above
/// `len` do not count.
pub fn write_operand<P: Port>(
    space: Space,
    at: u32,
    len: u8,
    value: u64,
    port: &mut P,
) -> Result<(), WriteFault>
    requires { (1 ≤ len) × (len ≤ 5) }
    ensures means { run P.bus (write_operand_of space at len value) (P.world port.old) ≡ (result, P.world port.new) }
    ensures left { IfErr result (λ refused. IsLeftOf refused.rest.items (pending_of at len value)) }
    ensures rest { P.rest port.new ≡ P.rest port.old }
{
    let pieces = split(at, len);
    put_parts(space, at, pieces.as_slice(), len, value, port)
}

/// Writes a piece that is alone.
#[inline(always)]
fn write_alone<P: Port>(pend: Pend, space: Space, port: &mut P) -> Result<(), WriteFault>
    requires { IsPiece (piece_of pend) }
    ensures means { run P.bus (write_pieces_of space pend.at (pend ∷ [])) (P.world port.old)
        ≡ (result, P.world port.new) }
    ensures left { IfErr result (λ refused. IsLeftOf refused.rest.items (pend ∷ [])) }
    ensures rest { P.rest port.new ≡ P.rest port.old }
{
    let piece = Piece {
        at: pend.at,
        len: pend.len,
    };
    match port.write(space, piece, pend.value) {
        Ok(()) => Ok(()),
        Err(fault) => Err(left(fault, pend.at, &[pend])),
    }
}

/// Writes an operand of a size, as [`write_operand`] does. Mostly it is one piece.
#[inline(always)]
pub fn write_value<P: Port>(
    space: Space,
    at: u32,
    size: Size,
    value: u32,
    port: &mut P,
) -> Result<(), WriteFault>
    ensures means { run P.bus (write_operand_of space at (bytes_of size) value) (P.world port.old)
        ≡ (result, P.world port.new) }
    ensures left { IfErr result (λ refused. IsLeftOf refused.rest.items (pending_of at (bytes_of size) value)) }
    ensures rest { P.rest port.new ≡ P.rest port.old }
{
    let len = size.bytes();
    if at % u32::from(len) == 0 {
        let value = size.low(value);
        write_alone(Pend { at, len, value }, space, port)
    } else {
        write_operand(space, at, len, u64::from(value), port)
    }
}

/// A single byte as a piece.
fn byte_at(at: u32) -> Piece
    ensures { result ≡ record { at = at; len = 1 } }
{
    Piece { at, len: 1 }
}

/// Writes an operand whose bytes stand at every second address, each a piece, the highest first.
///
/// A refused byte is left with those after it, three at most: of a long whose first byte is refused nothing is left.
pub fn write_apart<P: Port>(
    space: Space,
    at: u32,
    size: Size,
    value: u32,
    port: &mut P,
) -> Result<(), WriteFault>
    ensures means { run P.bus (write_apart_of space at size value) (P.world port.old) ≡ (result, P.world port.new) }
    ensures rest { P.rest port.new ≡ P.rest port.old }
{
    let value = u64::from(value);
    let first = byte_at(at);
    let second = byte_at(at.wrapping_add(2));
    match size {
        Size::Byte => put_parts(space, at, &[first], 1, value, port),
        Size::Word => put_parts(space, at, &[first, second], 2, value, port),
        Size::Long => {
            if let Err(fault) = port.write(space, first, part(value, 4, 1)) {
                return Err(left(fault, at, &[]));
            }
            let third = byte_at(second.at.wrapping_add(2));
            let fourth = byte_at(third.at.wrapping_add(2));
            put_parts(space, at, &[second, third, fourth], 3, value, port)
        }
    }
}
