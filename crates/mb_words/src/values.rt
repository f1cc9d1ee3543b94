//! What a value of the command line says by itself.

ghost use Rattle.std.specs.Prelude.{◌≡◌, ◌*◌, ◌%◌, ◌<◌, ◌≤◌, IfSome, option_map};
ghost use Rattle.mb_script.specs.Plan.{IsBlocks, IsRam};
ghost use Rattle.mb_forms.specs.Said.{text_said};
ghost use Rattle.mb_words.specs.Values.{IsGuestCount, digit_of, file_said, guests_of, hex_of, if_given, name_of};
ghost use Rattle.mb_words.specs.Values.{blocks_of, number_of, ram_of, ranged, word_address_of};

use mb_script::{LEAST_RAM, MOST_BLOCKS, MOST_GUESTS, MOST_RAM, SIZE_UNIT};

/// A file's name, which is not empty.
pub(crate) fn name(text: &str) -> Option<&str>
    ensures { option_map text_said result ≡ name_of text.entry.now }
{
    if text.is_empty() {
        return None;
    }
    Some(text)
}

/// The name of a file that may be left out: none where it is, and nothing where the name is empty.
pub(crate) fn name_if_given(text: Option<&str>) -> Option<Option<&str>>
    ensures { option_map file_said result ≡ if_given name_of (file_said text.entry) }
{
    match text {
        None => Some(None),
        Some(text) => Some(Some(name(text)?)),
    }
}

/// One to ten decimal digits.
fn number(text: &str) -> Option<u64>
    ensures { result ≡ number_of text.now }
{
    let digits = text.as_bytes();
    if digits.is_empty() || digits.len() > 10 {
        return None;
    }
    let mut value = 0u64;
    for digit in digits {
        if *digit < b'0' || *digit > b'9' {
            return None;
        }
        value = 10 * value + u64::from(*digit - b'0');
    }
    Some(value)
}

/// A number from the least to the most.
pub(crate) fn ranged(least: u32, most: u32, text: &str) -> Option<u32>
    ensures given { result ≡ ranged least most text.now }
    ensures in_range { IfSome result (λ value. (least ≤ value) × (value ≤ most)) }
{
    let value = number(text)?;
    if value < u64::from(least) || value > u64::from(most) {
        return None;
    }
    Some(value as u32)
}

/// The value of a hexadecimal digit, of either case.
fn digit(byte: u8) -> Option<u8>
    ensures given { result ≡ digit_of byte }
    ensures small { IfSome result (λ value. value < 16) }
{
    match byte {
        b'0'..=b'9' => Some(byte - b'0'),
        b'A'..=b'F' => Some(byte - b'A' + 10),
        b'a'..=b'f' => Some(byte - b'a' + 10),
        _ => None,
    }
}

/// One to eight hexadecimal digits.
fn hex(text: &str) -> Option<u32>
    ensures { result ≡ hex_of text.now }
{
    let digits = text.as_bytes();
    if digits.is_empty() || digits.len() > 8 {
        return None;
    }
    let mut value = 0u64;
    for byte in digits {
        value = 16 * value + u64::from(digit(*byte)?);
    }
    Some(value as u32)
}

/// The address of a word: one to eight hexadecimal digits, of an even number.
pub(crate) fn word_address(text: &str) -> Option<u32>
    ensures given { result ≡ word_address_of text.now }
    ensures even { IfSome result (λ at. at % 2 ≡ 0) }
{
    let at = hex(text)?;
    if at % 2 != 0 {
        return None;
    }
    Some(at)
}

/// The RAM of a machine in KiB: 64 to 16,384, a multiple of 64.
pub(crate) fn ram(text: &str) -> Option<u32>
    ensures given { result ≡ ram_of text.now }
    ensures in_range { IfSome result IsRam }
{
    let kib = ranged(LEAST_RAM, MOST_RAM, text)?;
    if kib % SIZE_UNIT != 0 {
        return None;
    }
    Some(kib)
}

/// How many blocks a disk has: 1 to 32,768; none where they may be left out and are.
pub(crate) fn blocks_if_given(text: Option<&str>) -> Option<Option<u32>>
    ensures given { result ≡ if_given blocks_of (file_said text.entry) }
    ensures in_range { IfSome result (λ blocks. IfSome blocks IsBlocks) }
{
    match text {
        None => Some(None),
        Some(text) => Some(Some(ranged(1, MOST_BLOCKS, text)?)),
    }
}

/// How many guests a session has, or the number of one of them: 1 to 16.
pub(crate) fn guests(text: &str) -> Option<u8>
    ensures given { result ≡ guests_of text.now }
    ensures in_range { IfSome result IsGuestCount }
{
    let count = ranged(1, MOST_GUESTS as u32, text)?;
    Some(count as u8)
}
