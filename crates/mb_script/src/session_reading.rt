//! A text as the plan of a session.

ghost use Rattle.std.specs.Prelude.{◌≡◌, ◌≢◌, ◌<◌, ◌≤◌, ◌^◌, All, IfErr, IfOk, Ok, OnOk, length, map, option_map, MatchResult};
ghost use Rattle.mb_lines.specs.Lines.{left, past};
ghost use Rattle.mb_lines.specs.Answers.{line_said};
ghost use Rattle.mb_script.specs.Lines.{ahead, read_by, statements};
ghost use Rattle.mb_script.specs.declared.sizes.TheConstants.{MOST_GUESTS};
ghost use Rattle.mb_script.specs.Plan.{AreRams, HasDisk, IsBlocks, IsBoard, IsInRange, IsRam, IsTurnOf};
ghost use Rattle.mb_script.specs.Sessions.{disk_line, disks_of, equipped, guest_line, guests_of, plan_of, session_of};
ghost use Rattle.mb_script.specs.Sessions.{turn_line, turns_of};
ghost use Rattle.mb_script.specs.Sessions.{board_line, due, session_line, slice_line};
ghost use Rattle.mb_script.specs.Answers.{Faults, Gives, disk_said, guest_said, plan_said};

use crate::fault::{LineFault, LineWhy};
use crate::plan::{DiskPlan, GuestPlan, SessionPlan};
use crate::session_line;
use crate::statement::{due_statement, next_statement};
use crate::turn::Turn;
use mb_lines::{Line, Lines};
use std::alloc::Global;

/// Reads a session file: the lines `session 1` or `session 2`, `board KIB`, `slice N` and then one to sixteen
/// `guest RAM STEPS IMAGE SCRIPT`, with words that are parted by spaces and tabs; behind them, in version 2, lines
/// `disk I BLOCKS NAME`, and behind these lines `turn I N`.
///
/// KIB and RAM are sizes in KiB, N of a slice is its steps, STEPS a bound on a guest's steps. IMAGE and
/// SCRIPT are names of files, of the bytes from $21 to $7E; the script `-` is none. A turn is one of guest I, numbered
/// from 1, of at most N steps. Empty lines and
/// lines that begin with `#` are passed over, but counted. Of the faults only the first in order of
/// lines is told, and of one line the first in the order of [`LineWhy`](crate::LineWhy); in a text that
/// ends too early the line after the last one lacks a word.
pub fn read_session(alloc: Global, text: &[u8]) -> Result<SessionPlan, LineFault>
    requires { length text.now < 2 ^ 31 }
    ensures plan { IfOk result (λ plan. session_of text.now ≡ Ok (plan_said plan)) }
    ensures in_range { IfOk result (λ plan. IsInRange (plan_said plan)) }
    ensures fault { IfErr result (λ fault. Faults fault (session_of text.now)) }
{
    plan_of(alloc, &mut Lines::new(text))
}

/// The plan that is left to read.
fn plan_of(alloc: Global, lines: &mut Lines) -> Result<SessionPlan, LineFault>
    ensures given { Gives plan_said result (plan_of (past lines.old) (statements (left lines.old))) }
    ensures in_range { IfOk result (λ plan. IsInRange (plan_said plan)) }
{
    let version = version(alloc, lines)?;
    let board = board(alloc, lines)?;
    let slice = slice(alloc, lines)?;
    let (mut guests, behind) = guests(alloc, version, lines)?;
    let first_turn = disks(alloc, &mut guests, behind, lines)?;
    let order = order(alloc, guests.len() as u8, first_turn, lines)?;
    Ok(SessionPlan::new(board, slice, guests, order))
}

fn version(alloc: Global, lines: &mut Lines) -> Result<u32, LineFault>
    ensures given { Gives (λ version. (version, statements (left lines.new))) result
        (due (past lines.old) session_line (statements (left lines.old))) }
    ensures past { past lines.new ≡ past lines.old }
{
    let line = due_statement(lines)?;
    let version = session_line::version(alloc, line.characters);
    version.map_err(|refusal| refusal.at(line.number))
}

fn board(alloc: Global, lines: &mut Lines) -> Result<u32, LineFault>
    ensures given { Gives (λ board. (board, statements (left lines.new))) result
        (due (past lines.old) board_line (statements (left lines.old))) }
    ensures in_range { IfOk result IsBoard }
    ensures past { past lines.new ≡ past lines.old }
{
    let line = due_statement(lines)?;
    let board = session_line::board(alloc, line.characters);
    board.map_err(|refusal| refusal.at(line.number))
}

fn slice(alloc: Global, lines: &mut Lines) -> Result<u32, LineFault>
    ensures given { Gives (λ slice. (slice, statements (left lines.new))) result
        (due (past lines.old) slice_line (statements (left lines.old))) }
    ensures in_range { IfOk result (λ slice. 1 ≤ slice) }
    ensures past { past lines.new ≡ past lines.old }
{
    let line = due_statement(lines)?;
    let slice = session_line::slice(alloc, line.characters);
    slice.map_err(|refusal| refusal.at(line.number))
}

/// One guest or more, and the line of the first disk or turn, if there is one.
fn guests<'a>(
    alloc: Global,
    version: u32,
    lines: &mut Lines<'a>,
) -> Result<(Vec<GuestPlan>, Option<Line<'a>>), LineFault>
    ensures given { Gives (λ (guests, turn). (
      map guest_said guests.items,
      ahead (option_map line_said turn) (statements (left lines.new)),
    )) result
        (guests_of version (past lines.old) (statements (left lines.old))) }
    ensures some { IfOk result (λ (guests, _). 1 ≤ length guests.items) }
    ensures few { IfOk result (λ (guests, _). length guests.items ≤ MOST_GUESTS) }
    ensures rams { IfOk result (λ (guests, _). AreRams (map guest_said guests.items)) }
    ensures disks { IfOk result (λ (guests, _). All HasDisk (map guest_said guests.items)) }
{
    let mut guests = Vec::new(alloc);
    let first = due_statement(lines)?;
    guests.push(guest_in(alloc, 0, first)?)?;
    while let Some(line) = next_statement(lines) {
        if session_line::ends_guests(alloc, version, line.characters)? {
            return Ok((guests, Some(line)));
        }
        let guest = guest_in(alloc, guests.len(), line)?;
        guests.push(guest)?;
    }
    Ok((guests, None))
}

/// The guest in a line, behind so many others.
fn guest_in(alloc: Global, count: usize, line: Line) -> Result<GuestPlan, LineFault>
    ensures given { Gives guest_said result (read_by (guest_line count) (line_said line.entry)) }
    ensures ram { IfOk result (λ guest. IsRam (guest_said guest).ram) }
    ensures disk { IfOk result (λ guest. HasDisk (guest_said guest)) }
    ensures few { OnOk result (count ≢ MOST_GUESTS) }
{
    let guest = session_line::guest(alloc, count, line.characters);
    guest.map_err(|refusal| refusal.at(line.number))
}

/// The disks of the guests, and the line of the first turn, if there is one; the line of the first disk or turn was
/// read.
fn disks<'a>(
    alloc: Global,
    guests: &mut Vec<GuestPlan>,
    first: Option<Line<'a>>,
    lines: &mut Lines<'a>,
) -> Result<Option<Line<'a>>, LineFault>
    requires few { length guests.old.items ≤ MOST_GUESTS }
    requires rams { AreRams (map guest_said guests.old.items) }
    requires disks { All HasDisk (map guest_said guests.old.items) }
    ensures given { Gives (λ turn. (
      map guest_said guests.new.items,
      ahead (option_map line_said turn) (statements (left lines.new)),
    )) result
        (disks_of (map guest_said guests.old.items)
        (ahead (option_map line_said first.entry) (statements (left lines.old)))) }
    ensures count { length guests.new.items ≡ length guests.old.items }
    ensures rams { AreRams (map guest_said guests.new.items) }
    ensures disks { All HasDisk (map guest_said guests.new.items) }
{
    let mut next = first;
    while let Some(line) = next {
        if !session_line::is_disk(alloc, line.characters)? {
            return Ok(Some(line));
        }
        disk_in(alloc, guests, line)?;
        next = next_statement(lines);
    }
    Ok(None)
}

/// Gives a disk to the guest at a place, which has none.
fn equip(guests: &mut [GuestPlan], place: usize, disk: DiskPlan) -> Result<(), LineWhy>
    requires place { place < length guests.old }
    requires blocks { IsBlocks (disk_said disk).blocks }
    requires rams { AreRams (map guest_said guests.old) }
    requires disks { All HasDisk (map guest_said guests.old) }
    ensures given { MatchResult result
        (λ _. equipped place (disk_said disk) (map guest_said guests.old) ≡ Ok (map guest_said guests.new))
        (λ why. equipped place (disk_said disk) (map guest_said guests.old) ≡ Err why) }
    ensures count { length guests.new ≡ length guests.old }
    ensures rams { AreRams (map guest_said guests.new) }
    ensures disks { All HasDisk (map guest_said guests.new) }
{
    if guests[place].disk().is_some() {
        return Err(LineWhy::Many);
    }
    guests[place].set_disk(disk);
    Ok(())
}

/// Gives the disk in a line to its guest.
fn disk_in(alloc: Global, guests: &mut [GuestPlan], line: Line) -> Result<(), LineFault>
    requires few { length guests.old ≤ MOST_GUESTS }
    requires rams { AreRams (map guest_said guests.old) }
    requires disks { All HasDisk (map guest_said guests.old) }
    ensures given { Gives (λ _. map guest_said guests.new) result
        (read_by (disk_line (map guest_said guests.old)) (line_said line.entry)) }
    ensures count { length guests.new ≡ length guests.old }
    ensures rams { AreRams (map guest_said guests.new) }
    ensures disks { All HasDisk (map guest_said guests.new) }
{
    let number = line.number;
    match session_line::disk(alloc, guests.len() as u8, line.characters) {
        Ok((guest, disk)) => match equip(guests, guest as usize - 1, disk) {
            Ok(()) => Ok(()),
            Err(why) => Err(LineFault::Line { number, why }),
        },
        Err(refusal) => Err(refusal.at(number)),
    }
}

/// The turns in all lines that are left, each of one of so many guests; the line of the first one was read.
fn order(
    alloc: Global,
    count: u8,
    first: Option<Line>,
    lines: &mut Lines,
) -> Result<Vec<Turn>, LineFault>
    ensures given { Gives (λ order. order.items) result
        (turns_of count (ahead (option_map line_said first.entry) (statements (left lines.old)))) }
    ensures turns { IfOk result (λ order. All (IsTurnOf count) order.items) }
{
    let mut order = Vec::new(alloc);
    let mut next = first;
    while let Some(line) = next {
        let turn = turn_in(alloc, count, line)?;
        order.push(turn)?;
        next = next_statement(lines);
    }
    Ok(order)
}

/// The turn in a line, of one of so many guests.
fn turn_in(alloc: Global, count: u8, line: Line) -> Result<Turn, LineFault>
    ensures given { Gives (λ turn. turn) result (read_by (turn_line count) (line_said line.entry)) }
    ensures number { IfOk result (IsTurnOf count) }
{
    let turn = session_line::turn(alloc, count, line.characters);
    turn.map_err(|refusal| refusal.at(line.number))
}
