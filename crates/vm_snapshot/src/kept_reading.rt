//! Lines of what is kept.

ghost use Rattle.std.specs.Prelude.{◌≡◌, ◌<◌, ◌^◌, ◌∷◌, [], codes, IfOk};
ghost use Rattle.mb_spelling.specs.Spelling.{before, behind};
ghost use Rattle.mb_spelling.specs.Hex.{any_number, digit, number, passing};
ghost use Rattle.mb_spelling.specs.Lists.{read_times};
ghost use Rattle.mb_spelling.specs.Reads.{Reads, lines_to};
ghost use Rattle.vm_snapshot.specs.Pages.{any_digit, is_free, kept_line, kept_lines, space_letter, with_kept};
ghost use Rattle.vm_snapshot.specs.Views.{ReadsOr};

use crate::free_pages::FreePages;
use crate::line;
use crate::refusal::Refusal;
use mb_model::{GUEST_CAPACITY, Kept};
use mb_port::Space;
use mb_spelling::{Numbers, Reader, Stop};
use std::alloc::Global;

/// Reads the letter of a space.
fn space(reader: &mut Reader) -> Result<Space, Stop>
    ensures reads { Reads (λ space. space) result reader.new.left (space_letter.read reader.old.left) }
    ensures lines { lines_to reader.new ≡ lines_to reader.old }
{
    if reader.is_at(b'U') {
        reader.word(b"U")?;
        return Ok(Space::User);
    }
    reader.word(b"S")?;
    Ok(Space::Super)
}

/// Reads a page of which nothing is kept, behind a space.
fn page(reader: &mut Reader, kept: &[Kept], space: Space) -> Result<u32, Stop>
    ensures reads { Reads (λ page. page) result reader.new.left
        ((behind (codes " ") (number (passing (is_free kept.now space)) 5 0)).read reader.old.left) }
    ensures lines { lines_to reader.new ≡ lines_to reader.old }
{
    reader.word(b" ")?;
    let page = reader.number(&FreePages { kept, space }, 5)?;
    Ok(page as u32)
}

/// Reads a frame, behind a space.
fn frame(reader: &mut Reader) -> Result<u32, Stop>
    ensures reads { Reads (λ frame. frame) result reader.new.left
        ((behind (codes " ") (number any_number 5 0)).read reader.old.left) }
    ensures lines { lines_to reader.new ≡ lines_to reader.old }
{
    reader.word(b" ")?;
    let frame = reader.number(&Numbers::Any, 5)?;
    Ok(frame as u32)
}

/// Reads a digit.
fn one_digit(reader: &mut Reader) -> Result<u32, Stop>
    ensures reads { Reads (λ d. d) result reader.new.left ((digit any_digit).read reader.old.left) }
    ensures lines { lines_to reader.new ≡ lines_to reader.old }
{
    let digit = reader.number(&Numbers::Any, 1)?;
    Ok(digit as u32)
}

/// Reads the digit of the four flags, behind a space, and the end of the line.
fn flags(reader: &mut Reader) -> Result<u32, Stop>
    ensures reads { Reads (λ flags. flags) result reader.new.left
        ((behind (codes " ") (before (digit any_digit) (10 ∷ []))).read reader.old.left) }
    ensures lines { lines_to reader.new ≡ lines_to reader.old }
{
    reader.word(b" ")?;
    let flags = one_digit(reader)?;
    reader.word(b"\n")?;
    Ok(flags)
}

/// Reads the line of an entry, behind those that came before.
fn entry(reader: &mut Reader, kept: &[Kept]) -> Result<Kept, Stop>
    ensures reads { Reads (λ k. k) result reader.new.left ((kept_line kept.now).read reader.old.left) }
    ensures lines { lines_to reader.new ≡ lines_to reader.old }
{
    let space = space(reader)?;
    let page = page(reader, kept, space)?;
    let frame = frame(reader)?;
    let flags = flags(reader)?;
    Ok(Kept {
        space,
        page,
        frame,
        w: flags / 8 % 2 == 1,
        s: flags / 4 % 2 == 1,
        g: flags / 2 % 2 == 1,
        m: flags % 2 == 1,
    })
}

/// Reads the lines of so many entries.
fn entries(alloc: Global, reader: &mut Reader, count: u64) -> Result<Vec<Kept>, Refusal>
    ensures reads { ReadsOr (λ kept. kept.items) result reader.new.left
        (read_times (λ left kept. kept_line kept) with_kept count [] reader.old.left) }
    ensures lines { lines_to reader.new ≡ lines_to reader.old }
{
    let mut kept = Vec::new(alloc);
    let mut left = count;
    while left > 0 {
        left -= 1;
        let next = entry(reader, &kept)?;
        kept.push(next)?;
    }
    Ok(kept)
}

/// Reads how many entries there are, and their lines.
pub(crate) fn kept(alloc: Global, reader: &mut Reader) -> Result<Vec<Kept>, Refusal>
    ensures reads { ReadsOr (λ kept. kept.items) result reader.new.left (kept_lines.read reader.old.left) }
    ensures lines { lines_to reader.new ≡ lines_to reader.old }
{
    let count = line::between(reader, b"kept ", 0, GUEST_CAPACITY as u64)?;
    entries(alloc, reader, count)
}
