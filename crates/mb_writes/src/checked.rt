//! Places that are checked for writing before anything is read or written there.

ghost use Rattle.std.specs.Prelude.{◌≡◌, ◌<◌, ◌≤◌, ◌+◌, ◌^◌, length, All, IfOk, OnOk};
ghost use Rattle.mb_port.specs.Routine.{run};
ghost use Rattle.mb_port.specs.Pieces.{ArePieces, total};
ghost use Rattle.mb_instr.specs.Sizes.{bytes_of, values_of};
ghost use Rattle.mb_writes.specs.Checked.{probe_pieces_of, probe_operand_of, get_places_of, get_operand_of, put_places_of, put_operand_of};
ghost use Rattle.mb_writes.specs.Checked.{byte_count, probed, located, IsOpen, AreOpen};

use crate::writing::part;
use arrayvec::ArrayVec;
use mb_ea::{ReadFault, join};
use mb_instr::Size;
use mb_port::{Fault, Piece, Place, Port, Space, split};

/// Checks pieces for writing in their order. Where each stands comes behind the places so far.
fn probe_pieces<P: Port>(
    space: Space,
    pieces: &[Piece],
    places: &mut ArrayVec<Place, 3>,
    port: &mut P,
) -> Result<(), Fault>
    requires aligned { ArePieces pieces.now }
    requires room { length places.old.items + length pieces.now ≤ 3 }
    requires open { All (IsOpen (P.exists (P.rest port.old))) places.old.items }
    ensures means { run P.bus (probe_pieces_of space pieces.now places.old.items) (P.world port.old)
        ≡ (probed result places.new.items, P.world port.new) }
    ensures open { OnOk result (All (IsOpen (P.exists (P.rest port.new))) places.new.items) }
    ensures bytes { OnOk result (byte_count places.new.items ≡ byte_count places.old.items + total pieces.now) }
    ensures rest { P.rest port.new ≡ P.rest port.old }
{
    match pieces {
        [] => Ok(()),
        [first, rest @ ..] => {
            let place = port.probe(space, *first)?;
            places.push(place);
            probe_pieces(space, rest, places, port)
        }
    }
}

/// Checks an operand for writing. The answer is where its pieces stand.
pub fn probe_operand<P: Port>(
    space: Space,
    at: u32,
    size: Size,
    port: &mut P,
) -> Result<ArrayVec<Place, 3>, ReadFault>
    ensures means { run P.bus (probe_operand_of space at (bytes_of size)) (P.world port.old)
        ≡ (located result, P.world port.new) }
    ensures open { IfOk result (λ places. AreOpen (P.exists (P.rest port.new)) (bytes_of size) places.items) }
    ensures rest { P.rest port.new ≡ P.rest port.old }
{
    let pieces = split(at, size.bytes());
    let mut places = ArrayVec::new();
    match probe_pieces(space, pieces.as_slice(), &mut places, port) {
        Ok(()) => Ok(places),
        Err(fault) => Err(ReadFault { fault, first: at }),
    }
}

/// Reads checked places in their order, behind the `len` bytes of `value`.
fn get_places<P: Port>(places: &[Place], value: u64, len: u8, port: &mut P) -> u64
    requires open { All (IsOpen (P.exists (P.rest port.old))) places.now }
    requires fits { len + byte_count places.now ≤ 4 }
    requires in_range { value < 256 ^ len }
    ensures means { run P.bus (get_places_of places.now value) (P.world port.old) ≡ (result, P.world port.new) }
    ensures range { result < 256 ^ (len + byte_count places.now) }
    ensures rest { P.rest port.new ≡ P.rest port.old }
{
    match places {
        [] => value,
        [first, rest @ ..] => {
            let got = port.get(*first);
            let joined = join(value, len, got, first.len);
            get_places(rest, joined, len + first.len, port)
        }
    }
}

/// Reads a checked operand.
pub fn get_operand<P: Port>(places: &ArrayVec<Place, 3>, size: Size, port: &mut P) -> u32
    requires { AreOpen (P.exists (P.rest port.old)) (bytes_of size) places.now.items }
    ensures means { run P.bus (get_operand_of places.now.items) (P.world port.old) ≡ (result, P.world port.new) }
    ensures range { result < values_of size }
    ensures rest { P.rest port.new ≡ P.rest port.old }
{
    get_places(places.as_slice(), 0, 0, port) as u32
}

/// Writes checked places in their order, each with its part of the number.
fn put_places<P: Port>(places: &[Place], before_end: u8, value: u32, port: &mut P)
    requires open { All (IsOpen (P.exists (P.rest port.old))) places.now }
    requires fits { byte_count places.now ≤ 4 }
    requires few { before_end ≤ 4 }
    ensures means { run P.bus (put_places_of places.now before_end value) (P.world port.old)
        ≡ (result, P.world port.new) }
    ensures rest { P.rest port.new ≡ P.rest port.old }
{
    if let [first, rest @ ..] = places {
        port.put(*first, part(u64::from(value), before_end, first.len));
        put_places(rest, before_end.saturating_sub(first.len), value, port);
    }
}

/// Writes a checked operand.
pub fn put_operand<P: Port>(places: &ArrayVec<Place, 3>, size: Size, value: u32, port: &mut P)
    requires { AreOpen (P.exists (P.rest port.old)) (bytes_of size) places.now.items }
    ensures means { run P.bus (put_operand_of places.now.items (bytes_of size) value) (P.world port.old)
        ≡ (result, P.world port.new) }
    ensures rest { P.rest port.new ≡ P.rest port.old }
{
    put_places(places.as_slice(), size.bytes(), value, port)
}
