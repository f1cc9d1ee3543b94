//! A text as an image.

ghost use Rattle.std.specs.Prelude.{◌≡◌, ◌<◌, ◌^◌, All, IfErr, IfOk, Ok, length};
ghost use Rattle.mb_lines.specs.Lines.{numbered};
ghost use Rattle.mb_lines.specs.Answers.{line_said};
ghost use Rattle.mb_srec.specs.Image.{LiesBelow, contents_of};
ghost use Rattle.mb_srec.specs.Records.{after_line, after_lines, after_record, at_line, beginning, counts_right};
ghost use Rattle.mb_srec.specs.Records.{first_outside, record_of, records_of, with_record};
ghost use Rattle.mb_srec.specs.Answers.{Faults, Gives, said, so_far};

use crate::fault::{ImageFault, RecordWhy};
use crate::image::{Chunk, Image};
use crate::record::{Record, RecordFault, record_of};
use mb_lines::{Line, Lines};
use std::alloc::Global;

/// What the lines so far gave.
#[derive(Drop)]
pub(crate) struct Reading {
    chunks: Vec<Chunk>,
    ended: bool,
}

/// Reads a text of S-records.
///
/// `ram` is the size of the memory, in bytes, in which the data have to lie. The image has one chunk
/// for each data record, in their order. Nothing but the first fault in order of lines is told, and a
/// line's own faults, in the order of [`RecordWhy`], before where its data lie.
pub fn read_image(alloc: Global, text: &[u8], ram: u32) -> Result<Image, ImageFault>
    requires { length text.now < 2 ^ 31 }
    ensures image { IfOk result (λ image. records_of text.now ram ≡ Ok (contents_of image)) }
    ensures in_ram { IfOk result (λ image. All (LiesBelow ram) (contents_of image)) }
    ensures fault { IfErr result (λ fault. Faults fault (records_of text.now ram)) }
{
    image_of(alloc, text, ram)
}

fn image_of(alloc: Global, text: &[u8], ram: u32) -> Result<Image, ImageFault>
    requires { length text.now < 2 ^ 31 }
    ensures { Gives contents_of result (records_of text.now ram) }
{
    let reading = read_lines(alloc, text, ram)?;
    if !reading.ended {
        return Err(ImageFault::NoEnd);
    }
    Ok(Image::new(reading.chunks))
}

fn read_lines(alloc: Global, text: &[u8], ram: u32) -> Result<Reading, ImageFault>
    requires { length text.now < 2 ^ 31 }
    ensures { Gives so_far result (after_lines ram beginning (numbered text.now)) }
{
    let mut reading = Reading {
        chunks: Vec::new(alloc),
        ended: false,
    };
    let mut lines = Lines::new(text);
    while let Some(line) = lines.next_line() {
        reading.read_line(alloc, line, ram)?;
    }
    Ok(reading)
}

impl Reading {
    fn read_line(&mut self, alloc: Global, line: Line, ram: u32) -> Result<(), ImageFault>
        ensures { Gives (λ _. so_far self.new) result (after_line ram (so_far self.old) (line_said line.entry)) }
    {
        let found = record_at(alloc, line.number, line.characters)?;
        self.add(line.number, found, ram)
    }

    /// Adds what a line says, unless a count is wrong or the end came before.
    fn add(&mut self, number: u32, found: Record, ram: u32) -> Result<(), ImageFault>
        ensures { Gives (λ _. so_far self.new) result (after_record ram number (so_far self.old) (said found)) }
    {
        if !self.counts_right(&found) {
            return Err(ImageFault::Line {
                number,
                why: RecordWhy::Count,
            });
        }
        if self.ended {
            return Err(ImageFault::Line {
                number,
                why: RecordWhy::After,
            });
        }
        self.take(found, ram)
    }

    fn counts_right(&self, found: &Record) -> bool
        ensures { result ≡ counts_right (so_far self.now) (said found.now) }
    {
        match found {
            Record::Count(number) => *number as usize == self.chunks.len(),
            Record::Header | Record::Data(_) | Record::End => true,
        }
    }

    fn take(&mut self, found: Record, ram: u32) -> Result<(), ImageFault>
        ensures { Gives (λ _. so_far self.new) result (with_record ram (so_far self.old) (said found)) }
    {
        match found {
            Record::Header | Record::Count(_) => {}
            Record::Data(chunk) => {
                if let Some(at) = first_outside(ram, chunk.at(), chunk.bytes()) {
                    return Err(ImageFault::Outside { at });
                }
                self.chunks.push(chunk)?;
            }
            Record::End => self.ended = true,
        }
        Ok(())
    }
}

/// The record of the line with this number.
fn record_at(alloc: Global, number: u32, line: &[u8]) -> Result<Record, ImageFault>
    ensures { Gives said result (at_line number (record_of line.now)) }
{
    match record_of(alloc, line) {
        Ok(found) => Ok(found),
        Err(RecordFault::Memory) => Err(ImageFault::Memory),
        Err(RecordFault::Why(why)) => Err(ImageFault::Line { number, why }),
    }
}

/// The first address not below `ram`, of bytes of which the first is at the address.
#[tactic(auto, using(crate::proofs::Outside::bounds))]
fn first_outside(ram: u32, at: u32, bytes: &[u8]) -> Option<u32>
    ensures { result ≡ first_outside ram at bytes.now }
{
    if bytes.is_empty() {
        return None;
    }
    let end = u64::from(at) + bytes.len() as u64;
    if end <= u64::from(ram) {
        None
    } else {
        Some(at.max(ram))
    }
}
