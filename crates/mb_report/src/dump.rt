//! Rows of bytes.

ghost use Rattle.std.specs.Prelude.{◌≡◌, ◌+◌, ◌*◌, ◌<◌, ◌≤◌, ◌^◌, length, take, drop};
ghost use Rattle.mb_report.specs.Buffered.{Buffers};
ghost use Rattle.mb_report.specs.Digits.{digits};
ghost use Rattle.mb_report.specs.Text.{is_zero, dump_line, row_line, memory_line, memory_text, all_rows};

use crate::buffered::Buffered;
use crate::digits::push_digits;
use arrayvec::ArrayVec;
use mb_outside::Sink;

/// A line of bytes. The longest is a row of 32 bytes.
type Line = ArrayVec<u8, 65>;

/// The `width` bytes from `at` on, or what is left of them.
fn row_at(bytes: &[u8], at: usize, width: usize) -> &[u8]
    requires { (at ≤ length bytes.now) × (at + width < 2 ^ 64) }
    ensures row { result.now ≡ take width (drop at bytes.now) }
    ensures short { length result.now ≤ width }
{
    &bytes[at..bytes.len().min(at + width)]
}

fn dump_line(row: &[u8]) -> Line
    requires { length row.now ≤ 32 }
    ensures { result.items ≡ dump_line 0 row.now }
{
    let mut line = Line::new();
    push_digits(&mut line, row);
    line.push(b'\n');
    line
}

#[tactic(auto, unfolding(crate::specs::Digits::hex8))]
fn row_line(address: u32, row: &[u8]) -> Line
    requires { length row.now ≤ 16 }
    ensures { result.items ≡ row_line address row.now }
{
    let mut line = Line::new();
    push_digits(&mut line, &address.to_be_bytes());
    line.push(b' ');
    push_digits(&mut line, row);
    line.push(b'\n');
    line
}

/// Writes bytes in rows of 32.
pub fn write_dump<O: Sink>(text: &mut Buffered, out: &mut O, bytes: &[u8])
    ensures { Buffers text.old text.new (O.taken out.old) (O.taken out.new) (O.faults out.old) (O.faults out.new)
        (all_rows dump_line 32 bytes.now) }
{
    for row in 0..(bytes.len() + 31) / 32 {
        text.add(out, &dump_line(row_at(bytes, 32 * row, 32)));
    }
}

fn is_zero(row: &[u8]) -> bool
    ensures { result ≡ is_zero row.now }
{
    row.iter().all(|byte| *byte == 0)
}

/// Writes a row of memory with its address, in eight digits, also where it is all zero.
pub fn write_row<O: Sink>(text: &mut Buffered, out: &mut O, address: u32, row: &[u8])
    requires { length row.now ≤ 16 }
    ensures { Buffers text.old text.new (O.taken out.old) (O.taken out.new) (O.faults out.old) (O.faults out.new)
        (row_line address row.now) }
{
    text.add(out, &row_line(address, row));
}

/// Writes a row of memory with its address, or nothing where it is all zero.
fn write_memory_row<O: Sink>(text: &mut Buffered, out: &mut O, address: u32, row: &[u8])
    requires { length row.now ≤ 16 }
    ensures { Buffers text.old text.new (O.taken out.old) (O.taken out.new) (O.faults out.old) (O.faults out.new)
        (memory_line address row.now) }
{
    if !is_zero(row) {
        write_row(text, out, address, row);
    }
}

/// Writes the rows of 16 bytes of a memory that are not all zero.
pub fn write_memory<O: Sink>(text: &mut Buffered, out: &mut O, ram: &[u8])
    requires { length ram.now ≤ 2 ^ 32 }
    ensures { Buffers text.old text.new (O.taken out.old) (O.taken out.new) (O.faults out.old) (O.faults out.new)
        (memory_text ram.now) }
{
    for row in 0..(ram.len() + 15) / 16 {
        let at = 16 * row;
        write_memory_row(text, out, at as u32, row_at(ram, at, 16));
    }
}
