//! A line as a case.

use crate::cases::case::Case;
use crate::cases::fault::CaseFault;
use crate::cases::memory::{add_change, add_stretch, leave_unsaid};
use crate::cases::registers::{ISP, SR, VBR, place_of};
use crate::cases::single::Single;
use crate::cases::system::{System, add_vectors};
use crate::cases::words::{finish, read_long, split_mask};
use std::alloc::Global;
use std::str::SplitWhitespace;

/// How the lines of a file are written.
#[derive(Clone, Copy)]
pub enum Form {
    /// An instruction each, mostly in user mode.
    Single,
    /// An instruction or a few, with all registers of the system.
    System,
}

/// The parts of a line.
#[derive(Clone, Copy)]
struct Parts<'a> {
    head: &'a str,
    before: &'a str,
    after: &'a str,
    changes: &'a str,
}

fn parts_of(line: &str) -> Option<Parts<'_>> {
    let (head, rest) = line.split_once('|')?;
    let (before, rest) = rest.split_once('|')?;
    let (after, changes) = rest.split_once('|')?;
    Some(Parts {
        head,
        before,
        after,
        changes,
    })
}

/// `NUMBER KIND both|one WORDS`: the digits of the instructions' words. `both` is where two machines agree in all that
/// is compared, `one` where one of them is followed.
fn read_words<'a>(words: &mut SplitWhitespace<'a>) -> Option<&'a str> {
    let _number = words.next()?;
    let _kind = words.next()?;
    match words.next()?.as_bytes() {
        b"both" | b"one" => words.next(),
        _ => None,
    }
}

/// The second part of a line.
fn read_stretches(alloc: Global, case: &mut Case, part: &str) -> Option<()> {
    for word in part.split_whitespace() {
        add_stretch(alloc, &mut case.image, word)?;
    }
    Some(())
}

/// The first two parts of a line of a single instruction. Whether the status register is stacked, with bits that may be
/// either.
fn read_single(alloc: Global, case: &mut Case, head: &str, before: &str) -> Option<bool> {
    let mut words = head.split_whitespace();
    let digits = read_words(&mut words)?;
    let single = Single::read(&mut words, &mut case.after)?;
    finish(&mut words)?;
    read_stretches(alloc, case, before)?;
    single.add_to(alloc, case, digits)?;
    Some(single.traps())
}

/// The first two parts of a line of the system.
fn read_system(alloc: Global, case: &mut Case, head: &str, before: &str) -> Option<bool> {
    let mut words = head.split_whitespace();
    let _digits = read_words(&mut words)?;
    let system = System::read(&mut words, case)?;
    finish(&mut words)?;
    add_vectors(alloc, &mut case.image, case.after[VBR])?;
    read_stretches(alloc, case, before)?;
    system.add_to(alloc, case)?;
    Some(false)
}

/// `NAME=VALUE`, or `NAME=VALUE&MASK` with the bits that are compared; `MASK=BITS` opens bits of the status register.
fn read_register(case: &mut Case, word: &str) -> Option<()> {
    let (name, value) = word.split_once('=')?;
    let (digits, mask) = split_mask(value);
    let value = read_long(digits)?;
    if matches!(name.as_bytes(), b"MASK") {
        case.unsaid[SR] = value;
        return Some(());
    }
    let place = place_of(name.as_bytes())?;
    *case.after.get_mut(place)? = value;
    if let Some(mask) = mask {
        *case.unsaid.get_mut(place)? = !read_long(mask)?;
    }
    Some(())
}

/// The third part of a line. A register that it does not name is as before.
fn read_after(case: &mut Case, part: &str) -> Option<()> {
    for word in part.split_whitespace() {
        read_register(case, word)?;
    }
    Some(())
}

/// Where the status register is stacked, the bits that may be either may be so there too.
fn leave_stacked(case: &mut Case) -> Option<()> {
    let [_, _, _, low] = case.unsaid[SR].to_be_bytes();
    let at = case.after[ISP].saturating_add(1);
    leave_unsaid(&mut case.unsaid_bits, at, &[!low])
}

/// The fourth part of a line.
fn read_changes(alloc: Global, case: &mut Case, part: &str) -> Option<()> {
    for word in part.split_whitespace() {
        add_change(alloc, case, word)?;
    }
    Some(())
}

/// All parts of a line.
fn read_parts(
    alloc: Global,
    case: &mut Case,
    parts: &Parts<'_>,
    form: Form,
) -> Result<(), CaseFault> {
    let before = match form {
        Form::Single => read_single(alloc, case, parts.head, parts.before),
        Form::System => read_system(alloc, case, parts.head, parts.before),
    };
    let stacks = before.ok_or(CaseFault::Before)?;
    read_after(case, parts.after).ok_or(CaseFault::After)?;
    read_changes(alloc, case, parts.changes).ok_or(CaseFault::Changes)?;
    if stacks {
        leave_stacked(case).ok_or(CaseFault::Changes)?;
    }
    Ok(())
}

/// The line with a number as a case.
pub fn read_case(alloc: Global, form: Form, number: u32, line: &str) -> Result<Case, CaseFault> {
    let parts = parts_of(line).ok_or(CaseFault::Parts)?;
    let mut case = Case::new(alloc, number);
    read_parts(alloc, &mut case, &parts, form)?;
    Ok(case)
}
