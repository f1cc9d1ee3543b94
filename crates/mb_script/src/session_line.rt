//! What one line of a session file says by itself.

ghost use Rattle.std.specs.Prelude.{◌≡◌, ◌≢◌, ◌≤◌, IfOk, IfSome, IsTrue, OnOk, map, option_map, string_bytes, take};
ghost use Rattle.mb_script.specs.Plan.{HasDisk, IsBlocks, IsBoard, IsRam, IsTurnOf};
ghost use Rattle.mb_script.specs.Sessions.{argument_in, argument_of, board_line, board_of, fields_of, guest_line, guest_of, is_blank, is_graphic, is_name, ram_of, script_named, session_line, slice_line, version_of, words_of};
ghost use Rattle.mb_script.specs.Sessions.{begins_disk, begins_turn, blocks_of, disk_of, disk_words_of, ends_guests};
ghost use Rattle.mb_script.specs.Sessions.{guest_number_of, turn_line, turn_of, turn_words_of};
ghost use Rattle.mb_script.specs.Answers.{GivesAlone, bytes_said, cut_said, disk_given, disk_said, fields_said, guest_said};
ghost use Rattle.mb_script.specs.Answers.{three_said};

use crate::fault::{LineWhy, Refusal};
use crate::number::{number_of, positive_of};
use crate::plan::{DiskPlan, GuestPlan};
use crate::sizes::{
    LEAST_BOARD, LEAST_RAM, MOST_BLOCKS, MOST_BOARD, MOST_GUESTS, MOST_RAM, SIZE_UNIT,
};
use crate::turn::Turn;
use std::alloc::{AllocError, Global};

/// No line has so many words.
const ENOUGH_WORDS: usize = 6;

/// The words behind `guest`.
#[derive(Clone, Copy)]
struct Fields<'a> {
    ram: &'a [u8],
    steps: &'a [u8],
    image: &'a [u8],
    script: &'a [u8],
}

/// The number in a line `session 1` or `session 2`.
pub(crate) fn version(alloc: Global, line: &[u8]) -> Result<u32, Refusal>
    ensures { GivesAlone (λ version. version) result (session_line line.now) }
{
    let word = argument(alloc, b"session", line)?;
    version_of(word).ok_or(Refusal::Why(LineWhy::Number))
}

/// The number in a line `board KIB`.
pub(crate) fn board(alloc: Global, line: &[u8]) -> Result<u32, Refusal>
    ensures given { GivesAlone (λ kib. kib) result (board_line line.now) }
    ensures in_range { IfOk result IsBoard }
{
    let word = argument(alloc, b"board", line)?;
    board_of(word).ok_or(Refusal::Why(LineWhy::Number))
}

/// The number in a line `slice N`.
pub(crate) fn slice(alloc: Global, line: &[u8]) -> Result<u32, Refusal>
    ensures given { GivesAlone (λ steps. steps) result (slice_line line.now) }
    ensures in_range { IfOk result (λ steps. 1 ≤ steps) }
{
    let word = argument(alloc, b"slice", line)?;
    positive_of(word).ok_or(Refusal::Why(LineWhy::Number))
}

/// The guest in a line, behind so many others.
#[tactic(auto, using(crate::proofs::Enough::guest_by_six))]
pub(crate) fn guest(alloc: Global, count: usize, line: &[u8]) -> Result<GuestPlan, Refusal>
    ensures given { GivesAlone guest_said result (guest_line count line.now) }
    ensures ram { IfOk result (λ guest. IsRam (guest_said guest).ram) }
    ensures disk { IfOk result (λ guest. HasDisk (guest_said guest)) }
    ensures few { OnOk result (count ≢ MOST_GUESTS) }
{
    let words = first_words(alloc, line)?;
    let guest = guest_of(alloc, &words)?;
    if count == MOST_GUESTS {
        return Err(Refusal::Why(LineWhy::Many));
    }
    Ok(guest)
}

/// Whether a line is that of a disk or of a turn, before which the guests end; version 1 has none.
#[tactic(auto, using(crate::proofs::Enough::begins_by_six, crate::proofs::Enough::disk_begins_by_six))]
pub(crate) fn ends_guests(alloc: Global, version: u32, line: &[u8]) -> Result<bool, AllocError>
    ensures { IfOk result (λ ends. ends ≡ ends_guests version line.now) }
{
    if version != 2 {
        return Ok(false);
    }
    let words = first_words(alloc, line)?;
    Ok(begins_disk(&words) || begins_turn(&words))
}

/// Whether a line is that of a disk.
#[tactic(auto, using(crate::proofs::Enough::disk_begins_by_six))]
pub(crate) fn is_disk(alloc: Global, line: &[u8]) -> Result<bool, AllocError>
    ensures { IfOk result (λ is. is ≡ begins_disk (words_of line.now)) }
{
    let words = first_words(alloc, line)?;
    Ok(begins_disk(&words))
}

/// The disk in a line, and which of so many guests has it.
#[tactic(auto, using(crate::proofs::Enough::disk_by_six))]
pub(crate) fn disk(alloc: Global, count: u8, line: &[u8]) -> Result<(u8, DiskPlan), Refusal>
    ensures given { GivesAlone disk_given result (disk_of count (words_of line.now)) }
    ensures number { IfOk result (λ (guest, _). (1 ≤ guest) × (guest ≤ count)) }
    ensures blocks { IfOk result (λ (_, disk). IsBlocks (disk_said disk).blocks) }
{
    let words = first_words(alloc, line)?;
    disk_of(alloc, count, &words)
}

/// The turn in a line, of one of so many guests.
#[tactic(auto, using(crate::proofs::Enough::turn_by_six))]
pub(crate) fn turn(alloc: Global, count: u8, line: &[u8]) -> Result<Turn, Refusal>
    ensures given { GivesAlone (λ turn. turn) result (turn_line count line.now) }
    ensures number { IfOk result (IsTurnOf count) }
{
    let words = first_words(alloc, line)?;
    turn_of(count, &words)
}

/// The second of the two words of a line, of which the first is the keyword.
#[tactic(auto, using(crate::proofs::Enough::argument_by_six))]
fn argument<'a>(alloc: Global, keyword: &[u8], line: &'a [u8]) -> Result<&'a [u8], Refusal>
    ensures { GivesAlone bytes_said result (argument_in keyword.now line.entry.now) }
{
    let words = first_words(alloc, line)?;
    argument_of(keyword, &words).ok_or(Refusal::Why(LineWhy::Word))
}

/// The first words of a line, which are parted by spaces and tabs; as many as say whether it has too many.
fn first_words<'a>(alloc: Global, line: &'a [u8]) -> Result<Vec<&'a [u8]>, AllocError>
    ensures { IfOk result (λ words. map bytes_said words.items ≡ take 6 (words_of line.entry.now)) }
{
    let mut words = Vec::with_capacity(alloc, ENOUGH_WORDS)?;
    words.extend(
        line.split(|&character| is_blank(character))
            .filter(|word| !word.is_empty())
            .take(ENOUGH_WORDS),
    )?;
    Ok(words)
}

/// A space or a tab.
fn is_blank(character: u8) -> bool
    ensures { result ≡ is_blank character }
{
    matches!(character, b' ' | b'\t')
}

/// The second of two words, of which the first is the keyword.
fn argument_of<'a>(keyword: &[u8], words: &[&'a [u8]]) -> Option<&'a [u8]>
    ensures { option_map bytes_said result ≡ argument_of keyword.now (map bytes_said words.now) }
{
    match words {
        [first, second] if *first == keyword => Some(*second),
        _ => None,
    }
}

/// The version of a session file, which is 1 or 2.
fn version_of(word: &[u8]) -> Option<u32>
    ensures { result ≡ version_of word.now }
{
    let version = number_of(word)?;
    if version < 1 || version > 2 {
        return None;
    }
    Some(version)
}

/// The size of a board's memory in KiB.
fn board_of(word: &[u8]) -> Option<u32>
    ensures given { result ≡ board_of word.now }
    ensures in_range { IfSome result IsBoard }
{
    let kib = number_of(word)?;
    if kib < LEAST_BOARD || kib > MOST_BOARD || kib % SIZE_UNIT != 0 {
        return None;
    }
    Some(kib)
}

/// The size of a guest's RAM in KiB.
fn ram_of(word: &[u8]) -> Option<u32>
    ensures given { result ≡ ram_of word.now }
    ensures in_range { IfSome result IsRam }
{
    let kib = number_of(word)?;
    if kib < LEAST_RAM || kib > MOST_RAM || kib % SIZE_UNIT != 0 {
        return None;
    }
    Some(kib)
}

/// One character or more of $21 to $7E.
fn is_name(word: &[u8]) -> bool
    ensures { result ≡ is_name word.now }
{
    !word.is_empty() && word.iter().all(|&character| is_graphic(character))
}

fn is_graphic(character: u8) -> bool
    ensures { result ≡ is_graphic character }
{
    matches!(character, b'!'..=b'~')
}

/// The text of a name.
fn text_of(alloc: Global, name: &[u8]) -> Result<String, AllocError>
    requires { IsTrue (is_name name.now) }
    ensures { IfOk result (λ text. string_bytes text ≡ name.now) }
{
    match str::from_utf8(name) {
        Ok(text) => String::from_str(alloc, text),
        Err(_) => unreachable!(),
    }
}

/// The name of a script, where `-` stands for none.
fn script_named(alloc: Global, name: &[u8]) -> Result<Option<String>, AllocError>
    requires { IsTrue (is_name name.now) }
    ensures { IfOk result (λ script. option_map string_bytes script ≡ script_named name.now) }
{
    if name == b"-".as_slice() {
        return Ok(None);
    }
    Ok(Some(text_of(alloc, name)?))
}

/// `guest RAM STEPS IMAGE SCRIPT`.
fn fields_of<'a>(words: &[&'a [u8]]) -> Option<Fields<'a>>
    ensures given { option_map fields_said result ≡ fields_of (map bytes_said words.now) }
    ensures image { IfSome result (λ fields. IsTrue (is_name fields.image.now)) }
    ensures script { IfSome result (λ fields. IsTrue (is_name fields.script.now)) }
{
    let [first, ram, steps, image, script] = words else {
        return None;
    };
    if *first != b"guest".as_slice() || !is_name(image) || !is_name(script) {
        return None;
    }
    Some(Fields {
        ram,
        steps,
        image,
        script,
    })
}

/// The guest that a line's words name.
fn guest_of(alloc: Global, words: &[&[u8]]) -> Result<GuestPlan, Refusal>
    ensures given { GivesAlone guest_said result (guest_of (map bytes_said words.now)) }
    ensures ram { IfOk result (λ guest. IsRam (guest_said guest).ram) }
    ensures disk { IfOk result (λ guest. HasDisk (guest_said guest)) }
{
    let Some(fields) = fields_of(words) else {
        return Err(Refusal::Why(LineWhy::Word));
    };
    let Some(ram) = ram_of(fields.ram) else {
        return Err(Refusal::Why(LineWhy::Number));
    };
    let Some(steps) = number_of(fields.steps) else {
        return Err(Refusal::Why(LineWhy::Number));
    };
    let image = text_of(alloc, fields.image)?;
    let script = script_named(alloc, fields.script)?;
    Ok(GuestPlan::new(ram, steps, image, script, None))
}

/// Whether the first word is `disk`.
fn begins_disk(words: &[&[u8]]) -> bool
    ensures { result ≡ begins_disk (map bytes_said words.now) }
{
    match words {
        [first, ..] => *first == b"disk".as_slice(),
        [] => false,
    }
}

/// `disk I BLOCKS NAME`.
fn disk_words_of<'a>(words: &[&'a [u8]]) -> Option<(&'a [u8], &'a [u8], &'a [u8])>
    ensures given { option_map three_said result ≡ disk_words_of (map bytes_said words.now) }
    ensures name { IfSome result (λ (_, _, name). IsTrue (is_name name.now)) }
{
    match words {
        [first, guest, blocks, name] if *first == b"disk".as_slice() && is_name(name) => {
            Some((*guest, *blocks, *name))
        }
        _ => None,
    }
}

/// 1 to 32,768.
fn blocks_of(word: &[u8]) -> Option<u32>
    ensures given { result ≡ blocks_of word.now }
    ensures in_range { IfSome result IsBlocks }
{
    let blocks = number_of(word)?;
    if blocks < 1 || blocks > MOST_BLOCKS {
        return None;
    }
    Some(blocks)
}

/// The disk that a line's words name, and which of so many guests has it.
fn disk_of(alloc: Global, count: u8, words: &[&[u8]]) -> Result<(u8, DiskPlan), Refusal>
    ensures given { GivesAlone disk_given result (disk_of count (map bytes_said words.now)) }
    ensures number { IfOk result (λ (guest, _). (1 ≤ guest) × (guest ≤ count)) }
    ensures blocks { IfOk result (λ (_, disk). IsBlocks (disk_said disk).blocks) }
{
    let Some((guest, blocks, name)) = disk_words_of(words) else {
        return Err(Refusal::Why(LineWhy::Word));
    };
    let Some(guest) = guest_number_of(count, guest) else {
        return Err(Refusal::Why(LineWhy::Number));
    };
    let Some(blocks) = blocks_of(blocks) else {
        return Err(Refusal::Why(LineWhy::Number));
    };
    let contents = script_named(alloc, name)?;
    Ok((guest, DiskPlan::new(blocks, contents)))
}

/// Whether the first word is `turn`.
fn begins_turn(words: &[&[u8]]) -> bool
    ensures { result ≡ begins_turn (map bytes_said words.now) }
{
    match words {
        [first, ..] => *first == b"turn".as_slice(),
        [] => false,
    }
}

/// `turn I N`.
fn turn_words_of<'a>(words: &[&'a [u8]]) -> Option<(&'a [u8], &'a [u8])>
    ensures { option_map cut_said result ≡ turn_words_of (map bytes_said words.now) }
{
    match words {
        [first, guest, steps] if *first == b"turn".as_slice() => Some((*guest, *steps)),
        _ => None,
    }
}

/// 1 to the number of guests.
fn guest_number_of(count: u8, word: &[u8]) -> Option<u8>
    ensures given { result ≡ guest_number_of count word.now }
    ensures number { IfSome result (λ guest. (1 ≤ guest) × (guest ≤ count)) }
{
    let number = number_of(word)?;
    if number < 1 || number > u32::from(count) {
        return None;
    }
    Some(number as u8)
}

/// The turn that a line's words name, of one of so many guests.
fn turn_of(count: u8, words: &[&[u8]]) -> Result<Turn, Refusal>
    ensures given { GivesAlone (λ turn. turn) result (turn_of count (map bytes_said words.now)) }
    ensures number { IfOk result (IsTurnOf count) }
{
    let Some((guest, steps)) = turn_words_of(words) else {
        return Err(Refusal::Why(LineWhy::Word));
    };
    let Some(guest) = guest_number_of(count, guest) else {
        return Err(Refusal::Why(LineWhy::Number));
    };
    let Some(steps) = number_of(steps) else {
        return Err(Refusal::Why(LineWhy::Number));
    };
    Ok(Turn { guest, steps })
}
