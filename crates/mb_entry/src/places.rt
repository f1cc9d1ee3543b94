//! Frames are checked for writing, and then written at the checked places.

ghost use Rattle.std.specs.Prelude.{◌≡◌, ◌≤◌, ◌+◌, [], length, All, OnOk};
ghost use Rattle.mb_port.specs.Routine.{run};
ghost use Rattle.mb_port.specs.Pieces.{IsLength, cut};
ghost use Rattle.mb_writes.specs.Checked.{probe_pieces_of, byte_count, probed, IsOpen, AreOpen};
ghost use Rattle.def_processor.specs.Entry.{probe_frame_of, probe_second_of, put_bytes_of, put_second_of, check_frames_of, put_frames_of};
ghost use Rattle.mb_entry.specs.Stacks.{seen, seen_second, frames_seen};
ghost use Rattle.byteorder.specs.Endian.{big_number};
ghost use Rattle.mb_entry.specs.Places.{places_seen, placed, Covers};

use crate::stacking::{Frames, Stacked};
use arrayvec::ArrayVec;
use byteorder::{BigEndian, ByteOrder};
use mb_frames::LONGEST;
use mb_port::{Fault, Place, Port, Space, first_piece};

/// The most pieces of a frame: of the longest, at an odd place.
const MOST_PIECES: usize = LONGEST / 4 + 2;

/// Where the frames of an exception stand.
#[derive(Drop)]
pub(crate) struct Places {
    first: ArrayVec<Place, MOST_PIECES>,
    second: ArrayVec<Place, MOST_PIECES>,
}

impl Places {
    /// None.
    pub(crate) fn new() -> Places
        ensures { (result.first.items ≡ []) × (result.second.items ≡ []) }
    {
        Places {
            first: ArrayVec::new(),
            second: ArrayVec::new(),
        }
    }
}

/// Checks `len` bytes from `at` on for writing, in pieces. Where each stands comes behind the places so far.
fn probe_bytes<P: Port>(
    at: u32,
    len: u8,
    places: &mut ArrayVec<Place, MOST_PIECES>,
    port: &mut P,
) -> Result<(), Fault>
    requires room { length places.old.items + length (cut len at len) ≤ MOST_PIECES }
    requires open { All (IsOpen (P.exists (P.rest port.old))) places.old.items }
    ensures means { run P.bus (probe_pieces_of Space.Super (cut len at len) places.old.items) (P.world port.old)
        ≡ (probed result places.new.items, P.world port.new) }
    ensures open { OnOk result (All (IsOpen (P.exists (P.rest port.new))) places.new.items) }
    ensures bytes { OnOk result (byte_count places.new.items ≡ byte_count places.old.items + len) }
    ensures rest { P.rest port.new ≡ P.rest port.old }
{
    let mut next = at;
    let mut left = len;
    while left > 0 {
        let piece = first_piece(next, left);
        places.push(port.probe(Space::Super, piece)?);
        next = next.wrapping_add(u32::from(piece.len));
        left -= piece.len;
    }
    Ok(())
}

/// Checks a frame for writing. Where its pieces stand comes to `places`.
#[tactic(auto, using(crate::proofs::Few::few_pieces))]
fn probe_frame<P: Port>(
    frame: &Stacked,
    places: &mut ArrayVec<Place, MOST_PIECES>,
    port: &mut P,
) -> Result<(), Fault>
    requires none { places.old.items ≡ [] }
    ensures means { run P.bus (probe_frame_of (seen frame.now)) (P.world port.old)
        ≡ (probed result places.new.items, P.world port.new) }
    ensures open { OnOk result
        (AreOpen (P.exists (P.rest port.new)) (length frame.now.bytes.items) places.new.items) }
    ensures rest { P.rest port.new ≡ P.rest port.old }
{
    probe_bytes(frame.at, frame.bytes.len() as u8, places, port)
}

/// Checks a second frame for writing, where there is one.
fn probe_second<P: Port>(
    second: &Option<Stacked>,
    places: &mut ArrayVec<Place, MOST_PIECES>,
    port: &mut P,
) -> Result<(), Fault>
    requires none { places.old.items ≡ [] }
    ensures means { run P.bus (probe_second_of (seen_second second.now)) (P.world port.old)
        ≡ (probed result places.new.items, P.world port.new) }
    ensures open { OnOk result (Covers (P.exists (P.rest port.new)) second.now places.new.items) }
    ensures rest { P.rest port.new ≡ P.rest port.old }
{
    match second {
        None => Ok(()),
        Some(frame) => probe_frame(frame, places, port),
    }
}

/// Checks every piece of every frame for writing. Where they stand comes to `places`.
pub(crate) fn check_frames<P: Port>(
    frames: &Frames,
    places: &mut Places,
    port: &mut P,
) -> Result<(), Fault>
    requires none { (places.old.first.items ≡ []) × (places.old.second.items ≡ []) }
    ensures means { run P.bus (check_frames_of (frames_seen frames.now)) (P.world port.old)
        ≡ (placed result places.new, P.world port.new) }
    ensures first { OnOk result
        (AreOpen (P.exists (P.rest port.new)) (length frames.now.first.bytes.items) places.new.first.items) }
    ensures second { OnOk result
        (Covers (P.exists (P.rest port.new)) frames.now.second places.new.second.items) }
    ensures rest { P.rest port.new ≡ P.rest port.old }
{
    probe_frame(&frames.first, &mut places.first, port)?;
    probe_second(&frames.second, &mut places.second, port)
}

/// The big-endian number that a piece's bytes spell.
fn number(bytes: &[u8], len: u8) -> u32
    requires piece { IsLength len }
    requires room { len ≤ length bytes.now }
    ensures { result ≡ big_number len bytes.now }
{
    match len {
        1 => u32::from(bytes[0]),
        2 => u32::from(BigEndian::read_u16(bytes)),
        _ => BigEndian::read_u32(bytes),
    }
}

/// Writes bytes at checked places, in their order.
fn put_bytes<P: Port>(places: &[Place], bytes: &[u8], port: &mut P)
    requires open { All (IsOpen (P.exists (P.rest port.old))) places.now }
    requires enough { byte_count places.now ≤ length bytes.now }
    ensures means { run P.bus (put_bytes_of places.now bytes.now) (P.world port.old) ≡ (result, P.world port.new) }
    ensures rest { P.rest port.new ≡ P.rest port.old }
{
    if let [first, rest @ ..] = places {
        port.put(*first, number(bytes, first.len));
        put_bytes(rest, &bytes[first.len as usize..], port);
    }
}

/// Writes a second frame at its places, where there is one.
fn put_second<P: Port>(second: &Option<Stacked>, places: &[Place], port: &mut P)
    requires { Covers (P.exists (P.rest port.old)) second.now places.now }
    ensures means { run P.bus (put_second_of (seen_second second.now) places.now) (P.world port.old)
        ≡ (result, P.world port.new) }
    ensures rest { P.rest port.new ≡ P.rest port.old }
{
    if let Some(frame) = second {
        put_bytes(places, frame.bytes.as_slice(), port);
    }
}

/// Writes the frames at their places.
pub(crate) fn put_frames<P: Port>(frames: &Frames, places: &Places, port: &mut P)
    requires first { AreOpen (P.exists (P.rest port.old)) (length frames.now.first.bytes.items) places.now.first.items }
    requires second { Covers (P.exists (P.rest port.old)) frames.now.second places.now.second.items }
    ensures means { run P.bus (put_frames_of (frames_seen frames.now) (places_seen places.now)) (P.world port.old)
        ≡ (result, P.world port.new) }
    ensures rest { P.rest port.new ≡ P.rest port.old }
{
    put_bytes(places.first.as_slice(), frames.first.bytes.as_slice(), port);
    put_second(&frames.second, places.second.as_slice(), port);
}
