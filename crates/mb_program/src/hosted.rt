//! The guests of a session under the monitor.

ghost use Rattle.std.specs.Prelude.{◌≡◌, ◌<◌, All, length};
ghost use Rattle.mb_script.specs.Plan.{IsTurnOf};
ghost use Rattle.mb_outside.specs.Prints.{Prints};
ghost use Rattle.vm_guest.specs.Session.{IsSession};
ghost use Rattle.vm_slices.specs.Places.{members_in};
ghost use Rattle.vm_slices.specs.Members.{machines_of};
ghost use Rattle.mb_program.specs.Answers.{host_shown, if_it_fits};
ghost use Rattle.mb_program.specs.Headline.{machine_text};
ghost use Rattle.mb_ends.specs.Texts.{texts_from};
ghost use Rattle.mb_program.specs.Direct.{HasRoomToRun};
ghost use Rattle.mb_program.specs.Around.{sink_seen};
ghost use Rattle.mb_program.specs.Ends.{IsGiven};
ghost use Rattle.mb_program.specs.Runs.{Runs};
ghost use Rattle.mb_program.specs.Said.{ordered_said};

use crate::machine::write_machine;
use crate::ordered::OrderedSession;
use mb_board::Native;
use mb_ends::End;
use mb_outside::{Sink, SinkFault};
use mb_script::Turn;
use std::alloc::Global;
use vm_slices::{Host, OpenFault, Session};

/// All guests of a session on their board, after their runs: first these turns, and then rounds. What the board
/// carried out is counted.
pub(crate) fn run_session(
    alloc: Global,
    session: Session,
    order: &[Turn],
    native: &mut Native,
) -> Result<Host, OpenFault>
    requires session { IsSession session }
    requires turns { All (IsTurnOf (length session.guests)) order.now }
    requires room { HasRoomToRun native.old }
    ensures { Runs (record { session = session; order = order.now }) native.old native.new result }
{
    let mut host = Host::prepare(alloc, session)?;
    host.run_order(order, native);
    host.run(native);
    Ok(host)
}

/// Writes the outcomes of all guests in their order.
pub(crate) fn write_outcomes<O: Sink>(host: &Host, out: &mut O) -> Result<(), SinkFault>
    ensures { Prints (O.taken out.old) (O.taken out.new) (O.faults out.old) (O.faults out.new)
        (texts_from machine_text 1 (machines_of (members_in host.now))) result }
{
    for index in 0..host.guest_count() {
        let guest = index + 1;
        write_machine(guest, &host.outcome(guest), host.devices(guest).disk(), out)?;
    }
    Ok(())
}

/// Runs all guests of a session, and writes their outcomes.
pub(crate) fn show_hosted<O: Sink>(
    alloc: Global,
    ordered: OrderedSession,
    out: &mut O,
    native: &mut Native,
) -> End
    requires session { IsSession ordered.session }
    requires turns { All (IsTurnOf (length ordered.session.guests)) ordered.order.items }
    requires room { HasRoomToRun native.old }
    ensures { IsGiven (if_it_fits ordered.session (host_shown (ordered_said ordered)))
        (sink_seen O.Sink out.old) (sink_seen O.Sink out.new) native.old native.new result }
{
    let host = match run_session(alloc, ordered.session, &ordered.order, native) {
        Ok(host) => host,
        Err(fault) => return End::from(fault),
    };
    match write_outcomes(&host, out) {
        Ok(()) => End::Counts(host),
        Err(_) => End::Output,
    }
}
