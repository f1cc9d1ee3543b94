//! Writing lines of input.

ghost use Rattle.std.specs.Prelude.{◌≡◌, ◌≤◌, ◌++◌, false, length, slice_get, codes, decimal, IfSome};
ghost use Rattle.std.specs.List.{flat_map};
ghost use Rattle.mb_report.specs.Buffered.{Buffers};
ghost use Rattle.vm_snapshot.specs.Runs.{lines_of};
ghost use Rattle.vm_snapshot.specs.Shown.{HasEntries, IsEntry};
ghost use Rattle.vm_snapshot.specs.Texts.{above, input_text};
ghost use Rattle.vm_snapshot.specs.Writing.{byte_text, closing, count_at, entry_text, is_within as within, later_count, later_open, later_text, open_at as left_open, text_at};

use crate::counts::write_decimal;
use mb_outside::Sink;
use mb_report::{Buffered, hex2};
use mb_script::{Entry, Input, Script};

/// Whether a byte of this step is in the line that stands open.
fn is_within(begun: Option<u32>, step: u32) -> bool
    ensures { result ≡ within begun step }
{
    begun == Some(step)
}

/// Ends the line that stands open, if one does.
fn close<O: Sink>(text: &mut Buffered, out: &mut O, begun: Option<u32>)
    ensures { Buffers text.old text.new (O.taken out.old) (O.taken out.new) (O.faults out.old) (O.faults out.new)
        (closing begun) }
{
    if begun.is_some() {
        text.add(out, b"\n");
    }
}

/// Begins a line.
fn begin<O: Sink>(text: &mut Buffered, out: &mut O, begun: Option<u32>, step: u32)
    ensures { Buffers text.old text.new (O.taken out.old) (O.taken out.new) (O.faults out.old) (O.faults out.new)
        (closing begun ++ codes "at " ++ decimal step) }
{
    close(text, out, begun);
    text.add(out, b"at ");
    write_decimal(text, out, u64::from(step));
}

/// Begins a line with a byte.
fn begin_bytes<O: Sink>(text: &mut Buffered, out: &mut O, begun: Option<u32>, step: u32, byte: u8)
    ensures { Buffers text.old text.new (O.taken out.old) (O.taken out.new) (O.faults out.old) (O.faults out.new)
        (byte_text false begun step byte) }
{
    begin(text, out, begun, step);
    text.add(out, b" hex ");
    text.add(out, &hex2(byte));
}

/// Writes a byte of a step.
fn write_byte<O: Sink>(text: &mut Buffered, out: &mut O, begun: Option<u32>, step: u32, byte: u8)
    ensures { Buffers text.old text.new (O.taken out.old) (O.taken out.new) (O.faults out.old) (O.faults out.new)
        (byte_text (within begun step) begun step byte) }
{
    if is_within(begun, step) {
        text.add(out, &hex2(byte));
    } else {
        begin_bytes(text, out, begun, step, byte);
    }
}

/// Writes the abort key.
fn write_abort<O: Sink>(text: &mut Buffered, out: &mut O, begun: Option<u32>, step: u32)
    ensures { Buffers text.old text.new (O.taken out.old) (O.taken out.new) (O.faults out.old) (O.faults out.new)
        (closing begun ++ codes "at " ++ decimal step ++ codes " abort\n") }
{
    begin(text, out, begun, step);
    text.add(out, b" abort\n");
}

/// Writes an entry.
fn write_entry<O: Sink>(text: &mut Buffered, out: &mut O, begun: Option<u32>, entry: Entry)
    ensures { Buffers text.old text.new (O.taken out.old) (O.taken out.new) (O.faults out.old) (O.faults out.new)
        (entry_text begun entry.step entry.input) }
{
    match entry.input {
        Input::Byte(byte) => write_byte(text, out, begun, entry.step, byte),
        Input::Abort => write_abort(text, out, begun, entry.step),
    }
}

/// The line that stands open behind an entry that may be written.
fn open_behind(steps: u32, begun: Option<u32>, entry: Entry) -> Option<u32>
    ensures { result ≡ later_open steps begun entry }
{
    if entry.step <= steps {
        return begun;
    }
    match entry.input {
        Input::Byte(_) => Some(entry.step),
        Input::Abort => None,
    }
}

/// How many lines an entry begins.
fn lines_begun(steps: u32, begun: Option<u32>, entry: Entry) -> u32
    ensures value { result ≡ later_count steps begun entry }
    ensures small { result ≤ 1 }
    ensures entry { IsEntry entry }
{
    if entry.step <= steps {
        return 0;
    }
    match entry.input {
        Input::Byte(_) => u32::from(!is_within(begun, entry.step)),
        Input::Abort => 1,
    }
}

/// Writes an entry, where its step is a later one.
fn write_later<O: Sink>(
    text: &mut Buffered,
    out: &mut O,
    steps: u32,
    begun: Option<u32>,
    entry: Entry,
)
    ensures { Buffers text.old text.new (O.taken out.old) (O.taken out.new) (O.faults out.old) (O.faults out.new)
        (later_text steps begun entry) }
{
    if entry.step > steps {
        write_entry(text, out, begun, entry);
    }
}

/// The line that stands open behind the entry at a place.
fn open_at(script: &Script, steps: u32, begun: Option<u32>, place: u32) -> Option<u32>
    ensures { result ≡ left_open steps begun (slice_get script.now place) }
{
    match script.entry(place) {
        Some(entry) => open_behind(steps, begun, entry),
        None => begun,
    }
}

/// How many lines the entry at a place begins.
fn lines_at(script: &Script, steps: u32, begun: Option<u32>, place: u32) -> u32
    ensures value { result ≡ count_at steps begun (slice_get script.now place) }
    ensures small { result ≤ 1 }
    ensures entry { IfSome (slice_get script.now place) IsEntry }
{
    match script.entry(place) {
        Some(entry) => lines_begun(steps, begun, entry),
        None => 0,
    }
}

/// Writes the entry at a place.
fn write_at<O: Sink>(
    text: &mut Buffered,
    out: &mut O,
    script: &Script,
    steps: u32,
    begun: Option<u32>,
    place: u32,
)
    ensures { Buffers text.old text.new (O.taken out.old) (O.taken out.new) (O.faults out.old) (O.faults out.new)
        (text_at steps begun (slice_get script.now place)) }
{
    if let Some(entry) = script.entry(place) {
        write_later(text, out, steps, begun, entry);
    }
}

/// How many lines there are for the entries of later steps.
pub(crate) fn line_count(script: &Script, steps: u32) -> u32
    ensures count { result ≡ length (lines_of (above steps script.now)) }
    ensures entries { HasEntries script.now }
{
    let mut begun = None;
    let mut lines = 0;
    for place in 0..script.count() {
        lines += lines_at(script, steps, begun, place);
        begun = open_at(script, steps, begun, place);
    }
    lines
}

/// Writes the lines of the entries of later steps.
pub(crate) fn write_input<O: Sink>(text: &mut Buffered, out: &mut O, script: &Script, steps: u32)
    ensures { Buffers text.old text.new (O.taken out.old) (O.taken out.new) (O.faults out.old) (O.faults out.new)
        (flat_map input_text (lines_of (above steps script.now))) }
{
    let mut begun = None;
    for place in 0..script.count() {
        write_at(text, out, script, steps, begun, place);
        begun = open_at(script, steps, begun, place);
    }
    close(text, out, begun);
}
