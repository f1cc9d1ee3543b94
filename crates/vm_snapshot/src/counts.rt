//! Writing decimal numbers.

ghost use Rattle.std.specs.Prelude.{decimal};
ghost use Rattle.mb_report.specs.Buffered.{Buffers};
ghost use Rattle.mb_report.specs.Text.{count_line};

use itoa::Buffer;
use mb_outside::Sink;
use mb_report::{Buffered, write_word};

/// Writes a decimal number.
pub(crate) fn write_decimal<O: Sink>(text: &mut Buffered, out: &mut O, n: u64)
    ensures { Buffers text.old text.new (O.taken out.old) (O.taken out.new) (O.faults out.old) (O.faults out.new)
        (decimal n) }
{
    let mut buffer = Buffer::new();
    text.add(out, buffer.format(n).as_bytes());
}

/// Writes a line of a name and a decimal number.
pub(crate) fn write_count<O: Sink>(text: &mut Buffered, out: &mut O, name: &[u8], n: u64)
    ensures { Buffers text.old text.new (O.taken out.old) (O.taken out.new) (O.faults out.old) (O.faults out.new)
        (count_line name.now n) }
{
    let mut buffer = Buffer::new();
    write_word(text, out, name, buffer.format(n).as_bytes());
}
