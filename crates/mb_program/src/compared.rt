//! The guests of a session on boards of their own, beside the same guests under the monitor.

ghost use Rattle.std.specs.Prelude.{◌≡◌, ◌≤◌, All, IfOk, codes, if◌then◌else◌, length, map};
ghost use Rattle.std.specs.List.{list_all};
ghost use Rattle.mb_outside.specs.Prints.{Prints};
ghost use Rattle.vm_guest.specs.Session.{IsGuest, IsSession};
ghost use Rattle.vm_slices.specs.Places.{members_in};
ghost use Rattle.mb_program.specs.Answers.{compare_shown, compared_text, if_it_fits};
ghost use Rattle.mb_ends.specs.Texts.{texts_from};
ghost use Rattle.mb_program.specs.Direct.{HasRoomToRun};
ghost use Rattle.mb_program.specs.Around.{sink_seen};
ghost use Rattle.mb_program.specs.Ends.{IsGiven};
ghost use Rattle.mb_program.specs.Compares.{ahead_of, at_start, same_each};
ghost use Rattle.mb_program.specs.Said.{ordered_said};
ghost use Rattle.mb_script.specs.Plan.{IsTurnOf};
ghost use Rattle.mb_script.specs.declared.sizes.TheConstants.{MOST_GUESTS};

use crate::bare_machine::BareMachine;
use crate::hosted::run_session;
use crate::ordered::OrderedSession;
use itoa::Buffer;
use mb_board::Native;
use mb_ends::End;
use mb_outside::{Memory, Sink, SinkFault, put_all, put_more};
use std::alloc::Global;
use vm_slices::{Host, SessionGuest, judge_fit};

/// The guests of a session, each by itself.
fn bare_machines(alloc: Global, guests: &[SessionGuest]) -> Result<Vec<BareMachine>, Memory>
    requires { All IsGuest guests.now }
    ensures { IfOk result (λ machines. map ahead_of machines.items ≡ map at_start guests.now) }
{
    let mut machines = Vec::new(alloc);
    for guest in guests {
        machines.push(BareMachine::prepare(alloc, guest)?)?;
    }
    Ok(machines)
}

/// What is written behind a guest's number.
fn finding(is_same: bool) -> &'static [u8]
    ensures { result.now ≡ (if is_same then codes " same\n" else codes " differs\n") }
{
    if is_same { b" same\n" } else { b" differs\n" }
}

/// Writes of a guest whether it shows the same.
fn write_compared<O: Sink>(out: &mut O, number: u8, is_same: bool) -> Result<(), SinkFault>
    ensures { Prints (O.taken out.old) (O.taken out.new) (O.faults out.old) (O.faults out.new)
        (compared_text number is_same) result }
{
    let mut buffer = Buffer::new();
    let begun = put_all(out, b"guest ");
    let numbered = put_more(out, begun, buffer.format(number).as_bytes());
    put_more(out, numbered, finding(is_same))
}

/// Writes of each guest whether it shows the same, and answers whether all do.
fn write_comparison<O: Sink>(
    machines: Vec<BareMachine>,
    host: &Host,
    out: &mut O,
) -> Result<bool, SinkFault>
    requires count { length machines.items ≡ length (members_in host.now) }
    requires few { length machines.items ≤ MOST_GUESTS }
    ensures printed { Prints (O.taken out.old) (O.taken out.new) (O.faults out.old) (O.faults out.new)
        (texts_from compared_text 1 (same_each (map ahead_of machines.items) (members_in host.now))) result }
    ensures all { IfOk result (λ all. all ≡ list_all (λ same. same)
        (same_each (map ahead_of machines.items) (members_in host.now))) }
{
    let mut all_same = true;
    let mut number = 0;
    for machine in machines {
        number += 1;
        let is_same = machine.is_same_as(host, number);
        write_compared(out, number, is_same)?;
        all_same = all_same && is_same;
    }
    Ok(all_same)
}

/// Runs each guest of a session by itself and all under the monitor, and writes of each whether it shows the same. No
/// machine is made where they do not fit on their board, and all memory is taken before the first line is written.
pub(crate) fn show_compared<O: Sink>(
    alloc: Global,
    ordered: OrderedSession,
    out: &mut O,
    native: &mut Native,
) -> End
    requires session { IsSession ordered.session }
    requires turns { All (IsTurnOf (length ordered.session.guests)) ordered.order.items }
    requires room { HasRoomToRun native.old }
    ensures { IsGiven (if_it_fits ordered.session (compare_shown (ordered_said ordered)))
        (sink_seen O.Sink out.old) (sink_seen O.Sink out.new) native.old native.new result }
{
    if let Err(fault) = judge_fit(&ordered.session) {
        return End::from(fault);
    }
    let Ok(machines) = bare_machines(alloc, ordered.session.guests()) else {
        return End::Memory;
    };
    let host = match run_session(alloc, ordered.session, &ordered.order, native) {
        Ok(host) => host,
        Err(fault) => return End::from(fault),
    };
    match write_comparison(machines, &host, out) {
        Ok(true) => End::Done,
        Ok(false) => End::Differs,
        Err(_) => End::Output,
    }
}
