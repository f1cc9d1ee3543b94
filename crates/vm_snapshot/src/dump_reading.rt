//! Dumps.

ghost use Rattle.std.specs.Prelude.{◌≡◌, ◌==◌, ◌||◌, ◌∷◌, [], length, IfOk};
ghost use Rattle.mb_spelling.specs.Reads.{Reads, lines_to};
ghost use Rattle.mb_spelling.specs.Spelling.{before, chosen};
ghost use Rattle.vm_snapshot.specs.Inputs.{byte as byte_spelled};
ghost use Rattle.vm_snapshot.specs.Memory.{dump as dump_of};
ghost use Rattle.vm_snapshot.specs.Views.{ReadsOr};

use crate::refusal::Refusal;
use mb_spelling::{Numbers, Reader, Stop};
use std::alloc::Global;

/// How many bytes a row has.
const ROW_BYTES: u32 = 32;

/// Reads a byte.
pub(crate) fn byte(reader: &mut Reader) -> Result<u8, Stop>
    ensures reads { Reads (λ b. b) result reader.new.left (byte_spelled.read reader.old.left) }
    ensures lines { lines_to reader.new ≡ lines_to reader.old }
{
    let byte = reader.number(&Numbers::Any, 2)?;
    Ok(byte as u8)
}

/// Whether a byte in a column, behind which so many are to come, ends its row.
fn ends_row(left: u64, column: u32) -> bool
    ensures { result ≡ ((left == 0) || (column == 31)) }
{
    left == 0 || column == ROW_BYTES - 1
}

/// Reads a byte, and the end of its row where it ends it.
fn byte_in(reader: &mut Reader, ends: bool) -> Result<u8, Stop>
    ensures reads { Reads (λ b. b) result reader.new.left
        ((chosen ends (before byte_spelled (10 ∷ [])) byte_spelled).read reader.old.left) }
    ensures lines { lines_to reader.new ≡ lines_to reader.old }
{
    if !ends {
        return byte(reader);
    }
    let byte = byte(reader)?;
    reader.word(b"\n")?;
    Ok(byte)
}

/// Reads so many bytes in rows.
pub(crate) fn dump(alloc: Global, reader: &mut Reader, count: u64) -> Result<Vec<u8>, Refusal>
    ensures reads { ReadsOr (λ bytes. bytes.items) result reader.new.left ((dump_of count).read reader.old.left) }
    ensures count { IfOk result (λ bytes. length bytes.items ≡ count) }
    ensures lines { lines_to reader.new ≡ lines_to reader.old }
{
    let mut bytes = Vec::new(alloc);
    let mut column = 0;
    let mut left = count;
    while left > 0 {
        left -= 1;
        let next = byte_in(reader, ends_row(left, column))?;
        bytes.push(next)?;
        column = (column + 1) % ROW_BYTES;
    }
    Ok(bytes)
}
