//! What is said on diag.

ghost use Rattle.std.specs.Prelude.{◌≡◌};
ghost use Rattle.mb_outside.specs.Prints.{Prints, PrintsMore};
ghost use Rattle.vm_guest.specs.Counting.{tally_in};
ghost use Rattle.mb_ends.specs.Lines.{class_count, counts_line};
ghost use Rattle.mb_ends.specs.Lines.{counts_lines, line_of, named, named_file, oversize_line, why_text, status_of};
ghost use Rattle.mb_ends.specs.Lines.{line_reason, reason_of, record_reason, source_reason};

use crate::end::End;
use itoa::Buffer;
use mb_asm::AsmKind;
use mb_files::{FileWhy, Reason};
use mb_outside::{Sink, SinkFault, put_all, put_more};
use mb_report::hex8;
use mb_script::LineWhy;
use mb_srec::RecordWhy;
use vm_guest::Counts;
use vm_slices::Host;

/// Begins a line that names a file.
fn name_file<E: Sink>(diag: &mut E, name: &str) -> Result<(), SinkFault>
    ensures { Prints (E.taken diag.old) (E.taken diag.new) (E.faults diag.old) (E.faults diag.new)
        (named_file name.now) result }
{
    let begun = put_all(diag, b"mbx: ");
    put_more(diag, begun, name.as_bytes())
}

/// The word for what is wrong with a line.
fn reason(why: Reason) -> &'static [u8]
    ensures { result.now ≡ reason_of why }
{
    match why {
        Reason::Record(why) => record_reason(why),
        Reason::Words(why) => line_reason(why),
        Reason::Source(kind) => source_reason(kind),
        Reason::Snapshot => b"snapshot",
    }
}

fn line_reason(why: LineWhy) -> &'static [u8]
    ensures { result.now ≡ line_reason why }
{
    match why {
        LineWhy::Word => b"word",
        LineWhy::Number => b"number",
        LineWhy::Digits => b"digits",
        LineWhy::Order => b"order",
        LineWhy::Many => b"many",
    }
}

fn source_reason(kind: AsmKind) -> &'static [u8]
    ensures { result.now ≡ source_reason kind }
{
    match kind {
        AsmKind::Syntax => b"syntax",
        AsmKind::Name => b"name",
        AsmKind::Twice => b"twice",
        AsmKind::Operand => b"operand",
        AsmKind::Range => b"range",
        AsmKind::Place => b"place",
    }
}

fn record_reason(why: RecordWhy) -> &'static [u8]
    ensures { result.now ≡ record_reason why }
{
    match why {
        RecordWhy::Kind => b"kind",
        RecordWhy::Digits => b"digits",
        RecordWhy::Length => b"length",
        RecordWhy::Sum => b"sum",
        RecordWhy::Count => b"count",
        RecordWhy::After => b"after",
    }
}

/// Says why a file is refused, where nothing has failed so far.
fn say_why<E: Sink>(
    diag: &mut E,
    so_far: Result<(), SinkFault>,
    why: FileWhy,
) -> Result<(), SinkFault>
    ensures { PrintsMore so_far (E.taken diag.old) (E.taken diag.new) (E.faults diag.old) (E.faults diag.new)
        (why_text why) result }
{
    match why {
        FileWhy::TooLong => put_more(diag, so_far, b" too long\n"),
        FileWhy::Line { number, why } => say_line(diag, so_far, number, why),
        FileWhy::Outside { at } => say_outside(diag, so_far, at),
        FileWhy::NoEnd => put_more(diag, so_far, b" no end\n"),
        FileWhy::NoGuest { guest } => say_no_guest(diag, so_far, guest),
    }
}

fn say_line<E: Sink>(
    diag: &mut E,
    so_far: Result<(), SinkFault>,
    number: u32,
    why: Reason,
) -> Result<(), SinkFault>
    ensures { PrintsMore so_far (E.taken diag.old) (E.taken diag.new) (E.faults diag.old) (E.faults diag.new)
        (why_text (FileWhy.Line number why)) result }
{
    let mut buffer = Buffer::new();
    let begun = put_more(diag, so_far, b" line ");
    let numbered = put_more(diag, begun, buffer.format(number).as_bytes());
    let parted = put_more(diag, numbered, b": ");
    let told = put_more(diag, parted, reason(why));
    put_more(diag, told, b"\n")
}

fn say_outside<E: Sink>(
    diag: &mut E,
    so_far: Result<(), SinkFault>,
    at: u32,
) -> Result<(), SinkFault>
    ensures { PrintsMore so_far (E.taken diag.old) (E.taken diag.new) (E.faults diag.old) (E.faults diag.new)
        (why_text (FileWhy.Outside at)) result }
{
    let begun = put_more(diag, so_far, b" outside ");
    let told = put_more(diag, begun, &hex8(at));
    put_more(diag, told, b"\n")
}

fn say_no_guest<E: Sink>(
    diag: &mut E,
    so_far: Result<(), SinkFault>,
    guest: u8,
) -> Result<(), SinkFault>
    ensures { PrintsMore so_far (E.taken diag.old) (E.taken diag.new) (E.faults diag.old) (E.faults diag.new)
        (why_text (FileWhy.NoGuest guest)) result }
{
    let mut buffer = Buffer::new();
    let begun = put_more(diag, so_far, b" no guest ");
    let numbered = put_more(diag, begun, buffer.format(guest).as_bytes());
    put_more(diag, numbered, b"\n")
}

/// Says something of a file.
fn say<E: Sink>(diag: &mut E, name: &str, rest: &[u8]) -> Result<(), SinkFault>
    ensures { Prints (E.taken diag.old) (E.taken diag.new) (E.faults diag.old) (E.faults diag.new)
        (named name.now rest.now) result }
{
    let begun = name_file(diag, name);
    put_more(diag, begun, rest)
}

/// Says of a file why it is refused.
fn say_refused<E: Sink>(diag: &mut E, name: &str, why: FileWhy) -> Result<(), SinkFault>
    ensures { Prints (E.taken diag.old) (E.taken diag.new) (E.faults diag.old) (E.faults diag.new)
        (named name.now (why_text why)) result }
{
    let begun = name_file(diag, name);
    say_why(diag, begun, why)
}

/// Says how many bytes a session needs, and how many its board has.
fn say_oversize<E: Sink>(diag: &mut E, need: u32, have: u32) -> Result<(), SinkFault>
    ensures { Prints (E.taken diag.old) (E.taken diag.new) (E.faults diag.old) (E.faults diag.new)
        (oversize_line need have) result }
{
    let mut needed = Buffer::new();
    let mut had = Buffer::new();
    let begun = put_all(diag, b"mbx: oversize need ");
    let numbered = put_more(diag, begun, needed.format(need).as_bytes());
    let parted = put_more(diag, numbered, b" have ");
    let told = put_more(diag, parted, had.format(have).as_bytes());
    put_more(diag, told, b"\n")
}

/// Says how many steps of a class there were, behind its name, where nothing has failed so far.
fn say_count<E: Sink>(
    diag: &mut E,
    so_far: Result<(), SinkFault>,
    name: &[u8],
    count: u64,
) -> Result<(), SinkFault>
    ensures { PrintsMore so_far (E.taken diag.old) (E.taken diag.new) (E.faults diag.old) (E.faults diag.new)
        (class_count name.now count) result }
{
    let mut buffer = Buffer::new();
    let named = put_more(diag, so_far, name);
    put_more(diag, named, buffer.format(count).as_bytes())
}

/// Says of a guest how many steps of each class it took.
fn say_guest<E: Sink>(diag: &mut E, guest: u8, counts: &Counts) -> Result<(), SinkFault>
    ensures { Prints (E.taken diag.old) (E.taken diag.new) (E.faults diag.old) (E.faults diag.new)
        (counts_line guest (tally_in counts.now)) result }
{
    let mut number = Buffer::new();
    let begun = put_all(diag, b"guest ");
    let numbered = put_more(diag, begun, number.format(guest).as_bytes());
    let retired = say_count(diag, numbered, b" retired ", counts.retired);
    let privileged = say_count(diag, retired, b" privileged ", counts.privileged);
    let trapped = say_count(diag, privileged, b" trapped ", counts.trapped);
    let denied = say_count(diag, trapped, b" denied ", counts.denied);
    let traced = say_count(diag, denied, b" traced ", counts.traced);
    let entered = say_count(diag, traced, b" entered ", counts.entered);
    let idle = say_count(diag, entered, b" idle ", counts.idle);
    let refilled = say_count(diag, idle, b" refilled ", counts.refilled);
    put_more(diag, refilled, b"\n")
}

/// Says of each guest how many steps of each class it took.
fn say_counts<E: Sink>(diag: &mut E, host: &Host) -> Result<(), SinkFault>
    ensures { Prints (E.taken diag.old) (E.taken diag.new) (E.faults diag.old) (E.faults diag.new)
        (counts_lines host.now) result }
{
    for index in 0..host.guest_count() {
        let guest = index + 1;
        say_guest(diag, guest, &host.counts(guest))?;
    }
    Ok(())
}

/// Says how a run ended: where guests were hosted, how many steps of each class they took, and else nothing where all
/// was done.
pub fn tell<E: Sink>(diag: &mut E, end: &End) -> Result<(), SinkFault>
    ensures { Prints (E.taken diag.old) (E.taken diag.new) (E.faults diag.old) (E.faults diag.new)
        (line_of end.now) result }
{
    match end {
        End::Done | End::Differs => put_all(diag, b""),
        End::Counts(host) => say_counts(diag, host),
        End::Words => put_all(diag, b"mbx: words refused\n"),
        End::Refused(name, why) => say_refused(diag, name.as_str(), *why),
        End::Oversize { need, have } => say_oversize(diag, *need, *have),
        End::Unread(name) => say(diag, name.as_str(), b" cannot be read\n"),
        End::Output => put_all(diag, b"mbx: output failed\n"),
        End::Memory => put_all(diag, b"mbx: no memory\n"),
    }
}

/// The exit status of an end.
pub fn status(end: &End) -> u8
    ensures { result ≡ status_of end.now }
{
    match end {
        End::Done | End::Counts(_) => 0,
        End::Differs => 1,
        End::Words => 2,
        End::Refused(_, _) => 3,
        End::Oversize { .. } => 4,
        End::Unread(_) => 5,
        End::Output => 6,
        End::Memory => 7,
    }
}
