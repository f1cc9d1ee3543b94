//! What stands in RAM. `None` also where memory runs out.

use crate::cases::case::Case;
use crate::cases::chunk::{Chunk, UnsaidBits};
use crate::cases::words::{read_bytes, read_long, split_mask};
use std::alloc::Global;

/// Adds bytes from an address on, all of which are in RAM.
pub fn add(chunks: &mut Vec<Chunk>, at: u32, bytes: Vec<u8>) -> Option<()> {
    chunks.push(Chunk::new(at, bytes)?).ok()
}

/// The two words of a long.
pub fn halves(long: u32) -> [u16; 2] {
    [(long / 0x1_0000) as u16, (long % 0x1_0000) as u16]
}

/// Words, one behind the other.
pub fn put_words(bytes: &mut Vec<u8>, words: &[u16]) -> Option<()> {
    for word in words {
        bytes.extend_from_slice(&word.to_be_bytes()).ok()?;
    }
    Some(())
}

/// Longs, one behind the other.
pub fn put_longs(bytes: &mut Vec<u8>, longs: &[u32]) -> Option<()> {
    for long in longs {
        bytes.extend_from_slice(&long.to_be_bytes()).ok()?;
    }
    Some(())
}

/// Adds words from an address on.
pub fn add_words(alloc: Global, chunks: &mut Vec<Chunk>, at: u32, words: &[u16]) -> Option<()> {
    let mut bytes = Vec::new(alloc);
    put_words(&mut bytes, words)?;
    add(chunks, at, bytes)
}

/// Adds longs from an address on.
pub fn add_longs(alloc: Global, chunks: &mut Vec<Chunk>, at: u32, longs: &[u32]) -> Option<()> {
    let mut bytes = Vec::new(alloc);
    put_longs(&mut bytes, longs)?;
    add(chunks, at, bytes)
}

/// Adds `ADDRESS:BYTES`.
pub fn add_stretch(alloc: Global, chunks: &mut Vec<Chunk>, word: &str) -> Option<()> {
    let (at, digits) = word.split_once(':')?;
    add(chunks, read_long(at)?, read_bytes(alloc, digits)?)
}

/// Leaves bits unsaid from an address on: those that are 0 in a mask.
pub fn leave_unsaid(unsaid: &mut Vec<UnsaidBits>, at: u32, mask: &[u8]) -> Option<()> {
    let mut at = at;
    for bits in mask {
        unsaid.push(UnsaidBits::new(at, !bits)?).ok()?;
        at = at.saturating_add(1);
    }
    Some(())
}

/// Leaves bits of a stretch unsaid, of which a mask has as many digits.
fn leave_masked(
    alloc: Global,
    unsaid: &mut Vec<UnsaidBits>,
    stretch: &str,
    mask: &str,
) -> Option<()> {
    let (at, digits) = stretch.split_once(':')?;
    if digits.len() != mask.len() {
        return None;
    }
    leave_unsaid(unsaid, read_long(at)?, &read_bytes(alloc, mask)?)
}

/// Adds `ADDRESS:BYTES`, or `ADDRESS:BYTES&MASK`, to what has changed.
pub fn add_change(alloc: Global, case: &mut Case, word: &str) -> Option<()> {
    let (stretch, mask) = split_mask(word);
    if let Some(mask) = mask {
        leave_masked(alloc, &mut case.unsaid_bits, stretch, mask)?;
    }
    add_stretch(alloc, &mut case.changes, stretch)
}
