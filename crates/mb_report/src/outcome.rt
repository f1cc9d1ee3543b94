//! The outcome text, part by part.

ghost use Rattle.std.specs.Prelude.{◌≡◌, ◌≤◌, ◌^◌, length, map};
ghost use Rattle.mb_outside.specs.Prints.{Prints};
ghost use Rattle.mb_model.specs.Seen.{seen_of};
ghost use Rattle.mb_report.specs.Buffered.{Buffers};
ghost use Rattle.mb_report.specs.Text.{word_line, count_line, state_word, bytes_text};
ghost use Rattle.mb_report.specs.Text.{head_lines, register_lines, device_lines, line_text, outcome_text};
ghost use Rattle.mb_report.specs.Lines.{line_of};
ghost use Rattle.std.specs.List.{flat_map};

use crate::buffered::Buffered;
use crate::digits::hex8;
use crate::dump::{write_dump, write_memory};
use itoa::Buffer;
use mb_model::{Outcome, RunState};
use mb_outside::{Sink, SinkFault};

/// Writes a name, a space and a word.
pub fn write_word<O: Sink>(text: &mut Buffered, out: &mut O, name: &[u8], word: &[u8])
    ensures { Buffers text.old text.new (O.taken out.old) (O.taken out.new) (O.faults out.old) (O.faults out.new)
        (word_line name.now word.now) }
{
    text.add(out, name);
    text.add(out, b" ");
    text.add(out, word);
    text.add(out, b"\n");
}

/// Writes a name and a decimal number.
fn write_count<O: Sink>(text: &mut Buffered, out: &mut O, name: &[u8], n: u64)
    ensures { Buffers text.old text.new (O.taken out.old) (O.taken out.new) (O.faults out.old) (O.faults out.new)
        (count_line name.now n) }
{
    let mut buffer = Buffer::new();
    let digits = buffer.format(n).as_bytes();
    write_word(text, out, name, digits);
}

/// The word for what a machine does at its next step.
pub fn state_word(state: RunState) -> &'static [u8]
    ensures { result.now ≡ state_word state }
{
    match state {
        RunState::Running => b"running",
        RunState::Stopped => b"stopped",
        RunState::Halted => b"halted",
        RunState::Off => b"off",
    }
}

/// Writes a name with how many bytes there are, and the bytes.
fn write_bytes<O: Sink>(text: &mut Buffered, out: &mut O, name: &[u8], bytes: &[u8])
    ensures { Buffers text.old text.new (O.taken out.old) (O.taken out.new) (O.faults out.old) (O.faults out.new)
        (bytes_text name.now bytes.now) }
{
    write_count(text, out, name, bytes.len() as u64);
    write_dump(text, out, bytes);
}

/// How a line of the text shows its value.
#[derive(Clone, Copy)]
enum Shown<'a> {
    /// In decimal.
    Number(u64),
    Word(&'static [u8]),
    /// How many bytes there are, in decimal, and then the bytes.
    Bytes(&'a [u8]),
    /// In eight digits.
    Long(u32),
}

/// A line of the text.
#[derive(Clone, Copy)]
struct Line<'a> {
    name: &'static [u8],
    shown: Shown<'a>,
}

/// The lines of what the machine did and of its terminal.
#[rattlefmt::skip]
fn head_lines<'a>(guest: u8, o: &'a Outcome<'a>) -> [Line<'a>; 6]
    ensures { map line_of result ≡ head_lines guest (seen_of o.now) }
{
    [
        Line { name: b"guest", shown: Shown::Number(u64::from(guest)) },
        Line { name: b"state", shown: Shown::Word(state_word(o.state)) },
        Line { name: b"steps", shown: Shown::Number(u64::from(o.steps)) },
        Line { name: b"console", shown: Shown::Bytes(o.console) },
        Line { name: b"lost", shown: Shown::Number(o.lost) },
        Line { name: b"queue", shown: Shown::Bytes(o.queue.as_slice()) },
    ]
}

/// The lines of the processor's registers and of those of translation.
#[rattlefmt::skip]
fn register_lines<'a>(o: &'a Outcome<'a>) -> [Line<'a>; 32]
    ensures { map line_of result ≡ register_lines (seen_of o.now) }
{
    let regs = &o.cpu.regs;
    [
        Line { name: b"D0", shown: Shown::Long(regs.d[0]) },
        Line { name: b"D1", shown: Shown::Long(regs.d[1]) },
        Line { name: b"D2", shown: Shown::Long(regs.d[2]) },
        Line { name: b"D3", shown: Shown::Long(regs.d[3]) },
        Line { name: b"D4", shown: Shown::Long(regs.d[4]) },
        Line { name: b"D5", shown: Shown::Long(regs.d[5]) },
        Line { name: b"D6", shown: Shown::Long(regs.d[6]) },
        Line { name: b"D7", shown: Shown::Long(regs.d[7]) },
        Line { name: b"A0", shown: Shown::Long(regs.a[0]) },
        Line { name: b"A1", shown: Shown::Long(regs.a[1]) },
        Line { name: b"A2", shown: Shown::Long(regs.a[2]) },
        Line { name: b"A3", shown: Shown::Long(regs.a[3]) },
        Line { name: b"A4", shown: Shown::Long(regs.a[4]) },
        Line { name: b"A5", shown: Shown::Long(regs.a[5]) },
        Line { name: b"A6", shown: Shown::Long(regs.a[6]) },
        Line { name: b"USP", shown: Shown::Long(regs.usp) },
        Line { name: b"ISP", shown: Shown::Long(regs.isp) },
        Line { name: b"MSP", shown: Shown::Long(regs.msp) },
        Line { name: b"PC", shown: Shown::Long(regs.pc) },
        Line { name: b"SR", shown: Shown::Long(u32::from(regs.sr)) },
        Line { name: b"VBR", shown: Shown::Long(o.cpu.vbr) },
        Line { name: b"SFC", shown: Shown::Long(u32::from(o.cpu.sfc)) },
        Line { name: b"DFC", shown: Shown::Long(u32::from(o.cpu.dfc)) },
        Line { name: b"CACR", shown: Shown::Long(o.cpu.cacr) },
        Line { name: b"TC", shown: Shown::Long(o.mmu.tc) },
        Line { name: b"ITT0", shown: Shown::Long(o.mmu.itt0) },
        Line { name: b"ITT1", shown: Shown::Long(o.mmu.itt1) },
        Line { name: b"DTT0", shown: Shown::Long(o.mmu.dtt0) },
        Line { name: b"DTT1", shown: Shown::Long(o.mmu.dtt1) },
        Line { name: b"MMUSR", shown: Shown::Long(o.mmu.mmusr) },
        Line { name: b"URP", shown: Shown::Long(o.mmu.urp) },
        Line { name: b"SRP", shown: Shown::Long(o.mmu.srp) },
    ]
}

/// The lines of the devices.
#[rattlefmt::skip]
fn device_lines<'a>(o: &'a Outcome<'a>) -> [Line<'a>; 5]
    ensures { map line_of result ≡ device_lines (seen_of o.now) }
{
    [
        Line { name: b"CTRL", shown: Shown::Long(o.ctrl) },
        Line { name: b"STATUS", shown: Shown::Long(o.status) },
        Line { name: b"PERIOD", shown: Shown::Long(o.period) },
        Line { name: b"COUNT", shown: Shown::Long(o.count) },
        Line { name: b"PENDING", shown: Shown::Long(o.pending) },
    ]
}

/// Writes a line, and the rows of bytes that belong to it.
fn write_line<O: Sink>(text: &mut Buffered, out: &mut O, line: &Line)
    ensures { Buffers text.old text.new (O.taken out.old) (O.taken out.new) (O.faults out.old) (O.faults out.new)
        (line_text (line_of line.now)) }
{
    match line.shown {
        Shown::Number(n) => write_count(text, out, line.name, n),
        Shown::Word(word) => write_word(text, out, line.name, word),
        Shown::Bytes(bytes) => write_bytes(text, out, line.name, bytes),
        Shown::Long(value) => write_word(text, out, line.name, &hex8(value)),
    }
}

/// Writes lines.
fn write_lines<O: Sink>(text: &mut Buffered, out: &mut O, lines: &[Line])
    ensures { Buffers text.old text.new (O.taken out.old) (O.taken out.new) (O.faults out.old) (O.faults out.new)
        (flat_map (λ line. line_text (line_of line)) lines.now) }
{
    for line in lines {
        write_line(text, out, line);
    }
}

/// Writes the lines of what the machine did and of its terminal.
fn write_head<O: Sink>(text: &mut Buffered, out: &mut O, guest: u8, o: &Outcome)
    ensures { Buffers text.old text.new (O.taken out.old) (O.taken out.new) (O.faults out.old) (O.faults out.new)
        (flat_map line_text (head_lines guest (seen_of o.now))) }
{
    write_lines(text, out, &head_lines(guest, o));
}

/// Writes the lines of the processor's registers and of those of translation, D0 to SRP.
pub fn write_registers<O: Sink>(text: &mut Buffered, out: &mut O, o: &Outcome)
    ensures { Buffers text.old text.new (O.taken out.old) (O.taken out.new) (O.faults out.old) (O.faults out.new)
        (flat_map line_text (register_lines (seen_of o.now))) }
{
    write_lines(text, out, &register_lines(o));
}

/// Writes the lines of the devices.
fn write_devices<O: Sink>(text: &mut Buffered, out: &mut O, o: &Outcome)
    ensures { Buffers text.old text.new (O.taken out.old) (O.taken out.new) (O.faults out.old) (O.faults out.new)
        (flat_map line_text (device_lines (seen_of o.now))) }
{
    write_lines(text, out, &device_lines(o));
}

/// Writes the outcome text of the guest of this number, from its first line to `end`.
///
/// RAM is at most 2^32 bytes, so that each address has eight digits.
pub fn write_outcome<O: Sink>(guest: u8, o: &Outcome, out: &mut O) -> Result<(), SinkFault>
    requires { length (seen_of o.now).ram ≤ 2 ^ 32 }
    ensures { Prints (O.taken out.old) (O.taken out.new) (O.faults out.old) (O.faults out.new)
        (outcome_text guest (seen_of o.now)) result }
{
    let mut text = Buffered::new();
    write_head(&mut text, out, guest, o);
    write_registers(&mut text, out, o);
    write_devices(&mut text, out, o);
    write_memory(&mut text, out, o.ram);
    text.add(out, b"end\n");
    text.finish(out)
}
