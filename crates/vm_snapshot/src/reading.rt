//! A text as a snapshot.

ghost use Rattle.std.specs.Prelude.{◌≡◌, ◌<◌, ◌≤◌, ◌^◌, codes, length, map, All, IfOk};
ghost use Rattle.mb_saved.specs.Saved.{IsLawful};
ghost use Rattle.mb_spelling.specs.Places.{line_count as count_of};
ghost use Rattle.mb_spelling.specs.Lists.{read_times};
ghost use Rattle.mb_spelling.specs.Reads.{Reads, lines_to};
ghost use Rattle.mb_spelling.specs.Spelling.{behind, mapped};
ghost use Rattle.vm_snapshot.specs.Guests.{boards, named, snapshot};
ghost use Rattle.vm_snapshot.specs.Parts.{all_guests as all_guests_of, guest_after, guest_at};
ghost use Rattle.vm_snapshot.specs.Plans.{IsAnswer, guest_of, plan_of, plan_seen};
ghost use Rattle.vm_snapshot.specs.Views.{ReadsOr};

use crate::guest_reading::guest;
use crate::line;
use crate::plan::{SnapFault, SnapGuest, SnapPlan};
use crate::refusal::Refusal;
use mb_spelling::{Numerals, Reader, Stop};
use std::alloc::Global;

/// Reads so many guests.
fn guests(alloc: Global, reader: &mut Reader, count: u64) -> Result<Vec<SnapGuest>, Refusal>
    requires { count ≤ 16 }
    ensures reads { ReadsOr (λ guests. guests.items) result reader.new.left
        (read_times guest_at guest_after count 1 reader.old.left) }
    ensures lines { lines_to reader.new ≡ lines_to reader.old }
{
    let mut guests = Vec::new(alloc);
    let mut number = 1;
    let mut left = count;
    while left > 0 {
        left -= 1;
        let next = guest(alloc, reader, number)?;
        guests.push(next)?;
        number += 1;
    }
    Ok(guests)
}

/// Reads how many guests there are, the guests, and the end of the text.
fn all_guests(alloc: Global, reader: &mut Reader) -> Result<Vec<SnapGuest>, Refusal>
    ensures reads { ReadsOr (λ guests. guests.items) result reader.new.left
        (mapped (λ v. map guest_of (v.1)) (all_guests_of.read reader.old.left)) }
    ensures lines { lines_to reader.new ≡ lines_to reader.old }
{
    let count = line::between(reader, b"guests ", 1, 16)?;
    let guests = guests(alloc, reader, count)?;
    reader.finish()?;
    Ok(guests)
}

/// Reads the first line, and the board's memory in KiB.
fn board(reader: &mut Reader) -> Result<u32, Stop>
    ensures reads { Reads (λ board. board) result reader.new.left
        ((behind (codes "snapshot 1\n") (named (codes "board") boards)).read reader.old.left) }
    ensures lines { lines_to reader.new ≡ lines_to reader.old }
{
    reader.word(b"snapshot 1\n")?;
    let boards = Numerals {
        least: 128,
        most: 65_536,
        unit: 64,
    };
    let board = line::named(reader, b"board ", &boards)?;
    Ok(board as u32)
}

/// Reads a whole snapshot.
fn plan(alloc: Global, reader: &mut Reader) -> Result<SnapPlan, Refusal>
    ensures reads { ReadsOr plan_seen result reader.new.left (mapped plan_of (snapshot.read reader.old.left)) }
    ensures lines { lines_to reader.new ≡ lines_to reader.old }
{
    let board = board(reader)?;
    let slice = line::between(reader, b"slice ", 1, 4_294_967_295)?;
    let guests = all_guests(alloc, reader)?;
    Ok(SnapPlan {
        board,
        slice: slice as u32,
        guests,
    })
}

/// How many lines there are; a last one without its end is one.
fn line_count(text: &[u8]) -> u32
    requires { length text.now < 2 ^ 31 }
    ensures value { result ≡ count_of text.now }
    ensures small { result ≤ 2 ^ 31 }
{
    let mut lines = 0;
    let mut begun = false;
    for &character in text {
        if character == b'\n' {
            lines += 1;
            begun = false;
        } else {
            begun = true;
        }
    }
    if begun { lines + 1 } else { lines }
}

/// Reads a snapshot: exactly a text that is written of guests of a board. Of every other text it tells the first line
/// up to which it begins no snapshot; where it only ends too early, the line after its last.
pub fn read_snapshot(alloc: Global, text: &[u8]) -> Result<SnapPlan, SnapFault>
    requires { length text.now < 2 ^ 31 }
    ensures answer { IsAnswer text.now result }
    ensures lawful { IfOk result (λ plan. All (λ g. IsLawful g.saved) plan.guests.items) }
{
    let mut reader = Reader::new(text);
    match plan(alloc, &mut reader) {
        Ok(plan) => Ok(plan),
        Err(Refusal::Memory) => Err(SnapFault::Memory),
        Err(Refusal::Stopped(Stop::Wrong)) => Err(SnapFault::Line {
            number: reader.line(),
        }),
        Err(Refusal::Stopped(Stop::Short)) => Err(SnapFault::Line {
            number: line_count(text) + 1,
        }),
    }
}
