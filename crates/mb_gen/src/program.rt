//! A guest's program and image.

ghost use Rattle.std.specs.Prelude.{◌≡◌, ◌++◌, IfOk, OnOk};
ghost use Rattle.mb_srec.specs.Image.{contents_of};
ghost use Rattle.mb_gen.specs.Draws.{after, draws};
ghost use Rattle.mb_gen.specs.Instructions.{picked, place_of};
ghost use Rattle.mb_gen.specs.Programs.{bytes_of, image, lap, longs_of, program, words_of};
ghost use Rattle.mb_gen.specs.Seen.{generator_seen};

use crate::draws::draw;
use byteorder::{BigEndian, ByteOrder};
use mb_srec::{Chunk, Image};
use rand_pcg::Lcg64Xsh32;
use std::alloc::{AllocError, Global};

/// How many instructions of a lap are picked.
pub const PICKS: u32 = 2_000;

/// How many laps a program makes.
pub const LAPS: u32 = 100;

/// The initial stack pointer, and where the data begin.
pub const DATA: u32 = 0x8000;

/// Where the program begins.
pub const ENTRY: u32 = 0x0400;

/// Where the laps that are left are counted.
pub const COUNTER: u32 = 0x7F00;

/// `LEA $8000,A5`.
const ENTER: [u16; 3] = [0x4BF9, 0x0000, 0x8000];

/// `MOVE.B D0,$FFF00000`, which sends a byte to the console.
const SEND: [u16; 3] = [0x13C0, 0xFFF0, 0x0000];

/// `SUBQ.L #1,$7F00.W`.
const COUNT_DOWN: [u16; 2] = [0x53B8, 0x7F00];

/// The first word of `BNE.W`.
const REPEAT: u16 = 0x6600;

/// `MOVE.L #1,$FFF00020`, which throws the power switch.
const SWITCH_OFF: [u16; 5] = [0x23FC, 0x0000, 0x0001, 0xFFF0, 0x0020];

/// The image of a guest by the next draws.
pub(crate) fn image(alloc: Global, generator: &mut Lcg64Xsh32) -> Result<Image, AllocError>
    ensures image { IfOk result (λ made. contents_of made ≡ image (draws PICKS (generator_seen generator.old))) }
    ensures after { OnOk result (generator_seen generator.new ≡ after PICKS (generator_seen generator.old)) }
{
    let start = longs(alloc, &[DATA, ENTRY])?;
    let program = program(alloc, generator)?;
    let counter = longs(alloc, &[LAPS])?;
    let chunks = vec![in alloc;
        Chunk::new(0, start),
        Chunk::new(ENTRY, program),
        Chunk::new(COUNTER, counter),
    ]?;
    Ok(Image::new(chunks))
}

/// The bytes of a program by the next draws.
fn program(alloc: Global, generator: &mut Lcg64Xsh32) -> Result<Vec<u8>, AllocError>
    ensures bytes { IfOk result (λ bytes.
        bytes.items ≡ bytes_of (words_of (program (draws PICKS (generator_seen generator.old))))) }
    ensures after { OnOk result (generator_seen generator.new ≡ after PICKS (generator_seen generator.old)) }
{
    let mut bytes = Vec::new(alloc);
    push_words(&mut bytes, &ENTER)?;
    let lap = bytes.len();
    push_lap(&mut bytes, generator)?;
    let way_back = bytes.len() + 2 - lap;
    push_words(&mut bytes, &[REPEAT, (65_536 - way_back) as u16])?;
    push_words(&mut bytes, &SWITCH_OFF)?;
    Ok(bytes)
}

/// Adds a lap by the next draws.
fn push_lap(bytes: &mut Vec<u8>, generator: &mut Lcg64Xsh32) -> Result<(), AllocError>
    ensures lap { OnOk result (bytes.new.items
        ≡ bytes.old.items ++ bytes_of (words_of (lap (draws PICKS (generator_seen generator.old))))) }
    ensures after { OnOk result (generator_seen generator.new ≡ after PICKS (generator_seen generator.old)) }
{
    for _ in 0..PICKS {
        push_pick(bytes, draw(generator))?;
    }
    push_words(bytes, &SEND)?;
    push_words(bytes, &COUNT_DOWN)?;
    Ok(())
}

/// Adds the instruction that a draw picks.
fn push_pick(bytes: &mut Vec<u8>, draw: u32) -> Result<(), AllocError>
    ensures { OnOk result (bytes.new.items ≡ bytes.old.items ++ bytes_of (picked draw).words) }
{
    let d = (draw / 8 % 8) as u16;
    let e = (draw / 64 % 8) as u16;
    let h = (draw / 65_536) as u16;
    match draw % 8 {
        0 => push_words(bytes, &[0x7000 + 512 * d + h % 256]),
        1 => push_words(bytes, &[0xD080 + 512 * d + e]),
        2 => push_words(bytes, &[0x9080 + 512 * d + e]),
        3 => push_words(bytes, &[0xB180 + 512 * d + e]),
        4 => push_words(bytes, &[0xC0C0 + 512 * d + e]),
        5 => push_words(bytes, &[0xE088 + 512 * e + d]),
        6 => push_words(bytes, &[0x2B40 + d, place_of(h)]),
        _ => push_words(bytes, &[0x202D + 512 * d, place_of(h)]),
    }
}

/// Where a long stands behind A5: a multiple of 4 below 32,768.
fn place_of(h: u16) -> u16
    ensures { result ≡ place_of h }
{
    h % 32_768 / 4 * 4
}

/// Adds words, the high byte of each first.
fn push_words(bytes: &mut Vec<u8>, words: &[u16]) -> Result<(), AllocError>
    ensures { OnOk result (bytes.new.items ≡ bytes.old.items ++ bytes_of words.now) }
{
    for word in words {
        let mut pair = [0; 2];
        BigEndian::write_u16(&mut pair, *word);
        bytes.extend_from_slice(&pair)?;
    }
    Ok(())
}

/// The bytes of longs, the high byte of each first.
fn longs(alloc: Global, longs: &[u32]) -> Result<Vec<u8>, AllocError>
    ensures { IfOk result (λ bytes. bytes.items ≡ longs_of longs.now) }
{
    let mut bytes = Vec::new(alloc);
    for long in longs {
        let mut four = [0; 4];
        BigEndian::write_u32(&mut four, *long);
        bytes.extend_from_slice(&four)?;
    }
    Ok(bytes)
}
