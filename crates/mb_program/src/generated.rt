//! The guests of a session that a number makes, under the monitor.

ghost use Rattle.mb_model.specs.Seen.{seen_of};
ghost use Rattle.mb_outside.specs.Prints.{Prints};
ghost use Rattle.mb_words.specs.Words.{workload_said};
ghost use Rattle.vm_slices.specs.Places.{members_in};
ghost use Rattle.vm_slices.specs.Members.{shown_of};
ghost use Rattle.mb_program.specs.Answers.{gen_shown, shows, summary_line, summary_text};
ghost use Rattle.mb_ends.specs.Texts.{texts_from};
ghost use Rattle.mb_program.specs.Direct.{HasRoomToRun};
ghost use Rattle.mb_program.specs.Around.{sink_seen};
ghost use Rattle.mb_program.specs.Ends.{IsGiven};

use crate::hosted::run_session;
use itoa::Buffer;
use mb_board::Native;
use mb_ends::End;
use mb_gen::make_session;
use mb_model::Outcome;
use mb_outside::{Sink, SinkFault, put_all, put_more};
use mb_report::{hex8, state_word};
use mb_words::Generate;
use std::alloc::Global;
use vm_slices::Host;

/// Writes a guest's line of the summary.
fn write_line<O: Sink>(guest: u8, o: &Outcome, out: &mut O) -> Result<(), SinkFault>
    ensures { Prints (O.taken out.old) (O.taken out.new) (O.faults out.old) (O.faults out.new)
        (summary_line guest (seen_of o.now)) result }
{
    let mut number = Buffer::new();
    let mut steps = Buffer::new();
    let mut sent = Buffer::new();
    let begun = put_all(out, b"guest ");
    let numbered = put_more(out, begun, number.format(guest).as_bytes());
    let parted = put_more(out, numbered, b" ");
    let standing = put_more(out, parted, state_word(o.state));
    let stepping = put_more(out, standing, b" steps ");
    let stepped = put_more(out, stepping, steps.format(o.steps).as_bytes());
    let sending = put_more(out, stepped, b" console ");
    let sized = put_more(out, sending, sent.format(o.console.len()).as_bytes());
    let named = put_more(out, sized, b" D0 ");
    let held = put_more(out, named, &hex8(o.cpu.regs.d[0]));
    put_more(out, held, b"\n")
}

/// Writes the lines of all guests in their order.
fn write_lines<O: Sink>(host: &Host, out: &mut O) -> Result<(), SinkFault>
    ensures { Prints (O.taken out.old) (O.taken out.new) (O.faults out.old) (O.faults out.new)
        (texts_from summary_line 1 (shown_of (members_in host.now))) result }
{
    for index in 0..host.guest_count() {
        let guest = index + 1;
        write_line(guest, &host.outcome(guest), out)?;
    }
    Ok(())
}

/// Writes the summary of all guests.
fn write_summary<O: Sink>(host: &Host, out: &mut O) -> Result<(), SinkFault>
    ensures { Prints (O.taken out.old) (O.taken out.new) (O.faults out.old) (O.faults out.new)
        (summary_text (shown_of (members_in host.now))) result }
{
    let told = write_lines(host, out);
    put_more(out, told, b"end\n")
}

/// Makes a session, runs its guests, and writes their summary.
pub(crate) fn show_generated<O: Sink>(
    alloc: Global,
    workload: &Generate,
    out: &mut O,
    native: &mut Native,
) -> End
    requires room { HasRoomToRun native.old }
    ensures { IsGiven (shows (gen_shown (workload_said workload.now)))
        (sink_seen O.Sink out.old) (sink_seen O.Sink out.new) native.old native.new result }
{
    let Ok(session) = make_session(alloc, u64::from(workload.seed), workload.guests) else {
        return End::Memory;
    };
    let host = match run_session(alloc, session, &[], native) {
        Ok(host) => host,
        Err(fault) => return End::from(fault),
    };
    match write_summary(&host, out) {
        Ok(()) => End::Done,
        Err(_) => End::Output,
    }
}
