//! An image as a text.

ghost use Rattle.std.specs.Prelude.{◌≡◌, ◌++◌, ◌∷◌, ◌≤◌, [], All, IfOk, List, OnOk, length, ℕ};
ghost use Rattle.mb_srec.specs.Image.{IsAddressed, LiesBelow, content_of, contents_of};
ghost use Rattle.mb_srec.specs.Records.{checksum_of, records_of};
ghost use Rattle.mb_srec.specs.Written.{IsContent, SameBytes, chunk_lines, counted, data_line, text_of};

use crate::image::{Chunk, Image};
use crate::record::checksum_of;
use byteorder::{BigEndian, ByteOrder};
use mb_outside::Memory;
use std::alloc::Global;

/// How many bytes a written record has, but for the last of a chunk.
const RECORD_LEN: usize = 16;

/// Writes an image as S-records with 32-bit addresses: an empty header, for each chunk records of 16
/// bytes and one of the rest, and the end. Only memory may be wanting.
pub fn write_records(alloc: Global, image: &Image) -> Result<Vec<u8>, Memory>
    requires { All IsAddressed (contents_of image.now) }
    ensures { IfOk result (λ text. text.items ≡ text_of (contents_of image.now)) }
{
    let mut text = Vec::from_slice(alloc, b"S0030000FC\n")?;
    'chunks: for chunk in image.chunks() {
        push_chunk(alloc, &mut text, chunk)?;
    }
    text.extend_from_slice(b"S70500000000FA\n")?;
    Ok(text)
}

fn push_chunk(alloc: Global, text: &mut Vec<u8>, chunk: &Chunk) -> Result<(), Memory>
    requires { IsAddressed (content_of chunk.now) }
    ensures { OnOk result (text.new.items ≡ text.old.items ++ chunk_lines (content_of chunk.now)) }
{
    let mut at = u64::from(chunk.at());
    let mut rest = chunk.bytes();
    'records: while !rest.is_empty() {
        let (data, after) = rest.split_at(rest.len().min(RECORD_LEN));
        push_data(alloc, text, at as u32, data)?;
        at += RECORD_LEN as u64;
        rest = after;
    }
    Ok(())
}

fn push_data(alloc: Global, text: &mut Vec<u8>, at: u32, data: &[u8]) -> Result<(), Memory>
    requires { length «data».now ≤ 16 }
    ensures { OnOk result (text.new.items ≡ text.old.items ++ data_line at «data».now) }
{
    let bytes = record_bytes(alloc, at, data)?;
    text.extend_from_slice(b"S3")?;
    text.extend_from_slice(hex::encode_upper(alloc, &bytes)?.as_bytes())?;
    text.push(b'\n')?;
    Ok(())
}

/// Count, address, data and checksum.
fn record_bytes(alloc: Global, at: u32, data: &[u8]) -> Result<Vec<u8>, Memory>
    requires { length «data».now ≤ 16 }
    ensures { IfOk result (λ bytes. bytes.items ≡ counted at «data».now ++ checksum_of (counted at «data».now) ∷ []) }
{
    let mut address = [0; 4];
    BigEndian::write_u32(&mut address, at);
    let mut bytes = Vec::with_capacity(alloc, RECORD_LEN + 6)?;
    bytes.push(data.len() as u8 + 5)?;
    bytes.extend_from_slice(&address)?;
    bytes.extend_from_slice(data)?;
    bytes.push(checksum_of(&bytes))?;
    Ok(bytes)
}

/// The text of chunks, read for a RAM that has each of their addresses, has the same bytes at the same
/// addresses, and no others.
pub fn written_reads_back()
    ensures { (contents : List (ℕ × List ℕ)) (ram : ℕ) → All IsContent contents → All (LiesBelow ram) contents
        → SameBytes contents (records_of (text_of contents) ram) }
{}
