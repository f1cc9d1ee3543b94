//! The lines of a memory.

ghost use Rattle.std.specs.Prelude.{◌≡◌, ◌≤◌, ◌<◌, ◌^◌, IfOk};
ghost use Rattle.mb_spelling.specs.Reads.{Reads, lines_to};
ghost use Rattle.vm_snapshot.specs.Memory.{memory as memory_of, row as row_of};
ghost use Rattle.vm_snapshot.specs.Views.{ReadsOr};

use crate::refusal::Refusal;
use mb_saved::RamLine;
use mb_spelling::{Numbers, Reader, Stop};
use std::alloc::Global;

/// Reads a line of a memory of so many rows, from a row on.
fn row(reader: &mut Reader, rows: u32, from: u32) -> Result<RamLine, Stop>
    requires { from < rows }
    ensures reads { Reads (λ line. line) result reader.new.left ((row_of rows from).read reader.old.left) }
    ensures lines { lines_to reader.new ≡ lines_to reader.old }
{
    let places = Numbers::Within(u128::from(from), u128::from(rows - 1));
    let place = reader.number(&places, 7)?;
    reader.word(b"0 ")?;
    let value = reader.number(&Numbers::NotZero, 32)?;
    reader.word(b"\n")?;
    Ok(RamLine {
        at: 16 * place as u32,
        bytes: value.to_be_bytes(),
    })
}

/// Reads the lines of a memory of so many rows, up to `end`.
pub(crate) fn memory(alloc: Global, reader: &mut Reader, rows: u32) -> Result<Vec<RamLine>, Refusal>
    requires { rows ≤ 2 ^ 24 }
    ensures reads { ReadsOr (λ lines. lines.items) result reader.new.left ((memory_of rows).read reader.old.left) }
    ensures lines { lines_to reader.new ≡ lines_to reader.old }
{
    let mut lines = Vec::new(alloc);
    let mut from = 0;
    let mut most = rows;
    while most > 0 && from < rows && !reader.is_at(b'e') {
        let next = row(reader, rows, from)?;
        from = next.at / 16 + 1;
        lines.push(next)?;
        most -= 1;
    }
    reader.word(b"end\n")?;
    Ok(lines)
}
