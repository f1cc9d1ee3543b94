//! The words of a line. Most numbers are hexadecimal.

use std::alloc::Global;
use std::str::SplitWhitespace;

/// A long.
pub fn read_long(digits: &str) -> Option<u32> {
    u32::from_str_radix(digits, 16).ok()
}

/// The next word as a long.
pub fn next_long(words: &mut SplitWhitespace<'_>) -> Option<u32> {
    read_long(words.next()?)
}

/// The next word as so many longs, with commas between them.
pub fn next_longs(words: &mut SplitWhitespace<'_>, longs: &mut [u32]) -> Option<()> {
    let mut numbers = words.next()?.split(',');
    for long in longs {
        *long = read_long(numbers.next()?)?;
    }
    match numbers.next() {
        None => Some(()),
        Some(_) => None,
    }
}

/// No further word.
pub fn finish(words: &mut SplitWhitespace<'_>) -> Option<()> {
    match words.next() {
        None => Some(()),
        Some(_) => None,
    }
}

/// Bytes, of two digits each. `None` also where memory runs out.
pub fn read_bytes(alloc: Global, digits: &str) -> Option<Vec<u8>> {
    hex::decode(alloc, digits).ok()
}

/// What stands before `&`, and behind it where there is one.
pub fn split_mask(text: &str) -> (&str, Option<&str>) {
    match text.split_once('&') {
        Some((value, mask)) => (value, Some(mask)),
        None => (text, None),
    }
}
