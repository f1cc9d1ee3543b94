//! Frames as bytes.

ghost use Rattle.std.specs.Prelude.{◌≡◌, ℕ, nat_le, if◌then◌else◌, ◌+◌, ◌*◌, ◌^◌, ◌<◌, ◌≤◌, ◌++◌, List, length, All, Some, IsNone, IfSome, ◌↔◌, ◌⊎◌};
ghost use Rattle.arrayvec.specs.ArrayVec.{array_vec_len};
ghost use Rattle.byteorder.specs.Endian.{big_bytes};
ghost use Rattle.mb_frames.specs.declared.frame.Frame.{Frame};
ghost use Rattle.mb_frames.specs.declared.places.TheConstants.{LONGEST};
ghost use Rattle.mb_frames.specs.Layout.{BeginsWith, Fits, IsFormat, IsFrame, bytes_of_fields, fields_of, fields_of_access, format_of, frame_bytes, frame_length, head, vector_offset_of, StandsIn};
ghost use Rattle.mb_frames.specs.Reading.{access_in, format_in, frame_in, frame_of_format, long_at, word_at};

use crate::frame::{Access, Frame, access_fields};
use crate::places::{LONGEST, LONGS};
use crate::source::{FieldSource, access_by};
use arrayvec::ArrayVec;
use byteorder::{BigEndian, ByteOrder};

/// Appends a word, the higher byte first. It fits, by its type.
fn push_word(bytes: &mut ArrayVec<u8, LONGEST>, word: u16)
    requires { array_vec_len bytes.old + 2 ≤ LONGEST }
    ensures bytes { bytes.new.items ≡ bytes.old.items ++ big_bytes 2 word }
    ensures len { array_vec_len bytes.new ≡ array_vec_len bytes.old + 2 }
    ensures fits { word < 256 ^ 2 }
{
    bytes.try_extend_from_slice(&word.to_be_bytes()).unwrap();
}

/// Appends a long, the highest byte first. It fits, by its type.
fn push_long(bytes: &mut ArrayVec<u8, LONGEST>, long: u32)
    requires { array_vec_len bytes.old + 4 ≤ LONGEST }
    ensures bytes { bytes.new.items ≡ bytes.old.items ++ big_bytes 4 long }
    ensures len { array_vec_len bytes.new ≡ array_vec_len bytes.old + 4 }
    ensures fits { long < 256 ^ 4 }
{
    bytes.try_extend_from_slice(&long.to_be_bytes()).unwrap();
}

/// Appends what every frame begins with: the status register, the program counter, the format word.
fn push_head(bytes: &mut ArrayVec<u8, LONGEST>, sr: u16, pc: u32, format: u16, offset: u16)
    requires room { array_vec_len bytes.old + 8 ≤ LONGEST }
    requires format { format < 16 }
    requires offset { offset < 0x1000 }
    ensures bytes { bytes.new.items ≡ bytes.old.items ++ bytes_of_fields (head sr pc format offset) }
    ensures fits { All Fits (head sr pc format offset) }
{
    push_word(bytes, sr);
    push_long(bytes, pc);
    push_word(bytes, format * 0x1000 + offset);
}

/// Appends a field, by what its line says.
macro_rules! push {
    (word $bytes:ident $value:expr) => { push_word($bytes, $value) };
    (long $bytes:ident $value:expr) => { push_long($bytes, $value) };
}

/// Appends all fields of an access error.
macro_rules! push_each {
    ($bytes:ident, $access:ident; $($name:ident: $size:ident at $place:literal,)*) => {
        $(push!($size $bytes $access.$name);)*
    };
}

/// Appends the fields of an access error. They fit, by their types.
fn push_access(bytes: &mut ArrayVec<u8, LONGEST>, access: Access)
    requires { array_vec_len bytes.old + 4 * LONGS ≤ LONGEST }
    ensures bytes { bytes.new.items ≡ bytes.old.items ++ bytes_of_fields (fields_of_access access) }
    ensures fits { All Fits (fields_of_access access) }
{
    access_fields!(push_each, bytes, access);
}

/// Appends a frame.
#[tactic(auto, unfolding(crate::specs::Layout::frame_bytes))]
fn push_frame(bytes: &mut ArrayVec<u8, LONGEST>, f: &Frame)
    requires empty { array_vec_len bytes.old ≡ 0 }
    requires offset { vector_offset_of f.now < 0x1000 }
    ensures bytes { bytes.new.items ≡ bytes.old.items ++ frame_bytes f.now }
    ensures fits { All Fits (fields_of f.now) }
{
    match *f {
        Frame::Short { sr, pc, offset } => push_head(bytes, sr, pc, 0, offset),
        Frame::Throwaway { sr, pc, offset } => push_head(bytes, sr, pc, 1, offset),
        Frame::Address {
            sr,
            pc,
            offset,
            address,
        } => {
            push_head(bytes, sr, pc, 2, offset);
            push_long(bytes, address);
        }
        Frame::Access {
            sr,
            pc,
            offset,
            access,
        } => {
            push_head(bytes, sr, pc, 7, offset);
            push_access(bytes, access);
        }
    }
}

/// The bytes of a frame, as they stand in memory from its lowest address on.
pub fn to_bytes(f: &Frame) -> ArrayVec<u8, LONGEST>
    requires { vector_offset_of f.now < 0x1000 }
    ensures bytes { result.items ≡ frame_bytes f.now }
    ensures len { array_vec_len result ≡ frame_length (format_of f.now) }

    // Each field at its offset.
    ensures fields { All (StandsIn result.items) (fields_of f.now) }
    ensures read_back { frame_in result.items ≡ Some f.now }
{
    let mut bytes = ArrayVec::new();
    push_frame(&mut bytes, f);
    bytes
}

/// The word at a place, the higher byte first.
#[tactic(auto, unfolding(crate::specs::Reading::word_at))]
fn word_at(b: &[u8], place: usize) -> u16
    requires { place + 2 ≤ length b.now }
    ensures { result ≡ word_at b.now place }
{
    BigEndian::read_u16(&b[place..])
}

/// The long at a place, the highest byte first.
#[tactic(auto, unfolding(crate::specs::Reading::long_at))]
fn long_at(b: &[u8], place: usize) -> u32
    requires { place + 4 ≤ length b.now }
    ensures { result ≡ long_at b.now place }
{
    BigEndian::read_u32(&b[place..])
}

/// Bytes that begin with the frame of an access error.
#[derive(Clone, Copy)]
struct Bytes<'a> {
    bytes: &'a [u8],
    ghost whole: { LONGEST ≤ length bytes.now },
}

impl FieldSource for Bytes<'_> {
    ghost words = { λ s. word_at s.bytes.now };

    ghost longs = { λ s. long_at s.bytes.now };

    fn word(&self, place: usize) -> u16 {
        word_at(self.bytes, place)
    }

    fn long(&self, place: usize) -> u32 {
        long_at(self.bytes, place)
    }
}

/// The fields of an access error, from the bytes of its frame.
fn access_from(b: &[u8]) -> Access
    requires { LONGEST ≤ length b.now }
    ensures { result ≡ access_in b.now }
{
    access_by(&Bytes { bytes: b })
}

/// The frame of a format, if the bytes are long enough for it and the format is one of the four.
fn frame_of_format(format: u16, b: &[u8]) -> Option<Frame>
    requires { 8 ≤ length b.now }
    ensures { result ≡ (if nat_le (frame_length format) (length b.now) then frame_of_format format b.now else None) }
{
    let sr = word_at(b, 0);
    let pc = long_at(b, 2);
    let offset = word_at(b, 6) % 0x1000;
    match format {
        0 => Some(Frame::Short { sr, pc, offset }),
        1 => Some(Frame::Throwaway { sr, pc, offset }),
        2 if b.len() >= 12 => Some(Frame::Address {
            sr,
            pc,
            offset,
            address: long_at(b, 8),
        }),
        7 if b.len() >= LONGEST => Some(Frame::Access {
            sr,
            pc,
            offset,
            access: access_from(b),
        }),
        _ => None,
    }
}

/// The frame that the bytes begin with. What follows it is not read.
#[tactic(auto, unfolding(crate::specs::Reading::frame_in))]
pub fn from_bytes(b: &[u8]) -> Option<Frame>
    ensures frame { result ≡ frame_in b.now }
    ensures none { IsNone result ↔ ((length b.now < frame_length (format_in b.now)) ⊎ ¬ IsFormat (format_in b.now)) }

    // What is read stands there, and what stands there is read, whatever follows.
    ensures begins { IfSome result (BeginsWith b.now) }
    ensures whole { (f : Frame) (rest : List ℕ) → IsFrame f → b.now ≡ frame_bytes f ++ rest → result ≡ Some f }
{
    if b.len() < 8 {
        return None;
    }
    frame_of_format(word_at(b, 6) / 0x1000, b)
}
