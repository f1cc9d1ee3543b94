//! The guests of a session, saved.

ghost use Rattle.std.specs.Prelude.{◌≡◌, ◌≤◌, ◌/◌, All, IfOk, IfSome, Some, length};
ghost use Rattle.mb_outside.specs.Prints.{Prints};
ghost use Rattle.mb_saved.specs.Saved.{CanBeKept};
ghost use Rattle.vm_guest.specs.Session.{IsSession};
ghost use Rattle.vm_slices.specs.Members.{numbered};
ghost use Rattle.vm_slices.specs.Places.{members_in};
ghost use Rattle.vm_snapshot.specs.Shown.{snapshot_text, CanBeTold};
ghost use Rattle.mb_program.specs.Answers.{if_it_fits};
ghost use Rattle.mb_program.specs.Around.{sink_seen};
ghost use Rattle.mb_program.specs.Direct.{HasRoomToRun};
ghost use Rattle.mb_ends.specs.Texts.{texts_from};
ghost use Rattle.mb_program.specs.Ends.{IsGiven};
ghost use Rattle.mb_ends.specs.Lines.{status_of};
ghost use Rattle.mb_program.specs.Saves.{save_shown, turn_each, IsSaved};
ghost use Rattle.mb_program.specs.Saved.{AreGuests, RunsTo, kept_by, shown_by, shown_text};

use arrayvec::ArrayVec;
use mb_board::Native;
use mb_ends::End;
use mb_model::{GUEST_CAPACITY, Kept};
use mb_outside::{Memory, Sink, SinkFault};
use mb_script::Turn;
use std::alloc::Global;
use vm_slices::{Host, OpenFault, Session, SessionGuest};
use vm_snapshot::{write_guest, write_head};

/// How many entries a guest keeps at most.
const MOST_KEPT: usize = GUEST_CAPACITY as usize;

/// What a guest keeps.
type AllKept = ArrayVec<Kept, MOST_KEPT>;

/// One turn of so many steps for each guest.
fn turns_of(alloc: Global, guests: &[SessionGuest], steps: u32) -> Result<Vec<Turn>, Memory>
    requires { length guests.now ≤ 16 }
    ensures { IfOk result (λ turns. turns.items ≡ turn_each 1 steps guests.now) }
{
    let mut turns = Vec::new(alloc);
    for index in 0..guests.len() {
        let guest = index as u8 + 1;
        turns.push(Turn { guest, steps })?;
    }
    Ok(turns)
}

/// All guests of a session on their board, after one turn each of so many steps. What the board carried out is counted.
fn run_to(
    alloc: Global,
    session: Session,
    steps: u32,
    native: &mut Native,
) -> Result<Host, OpenFault>
    requires session { IsSession session }
    requires room { HasRoomToRun native.old }
    ensures { RunsTo steps session native.old native.new result }
{
    let turns = turns_of(alloc, session.guests(), steps)?;
    let mut host = Host::prepare(alloc, session)?;
    host.run_order(&turns, native);
    Ok(host)
}

/// What the guest of this number keeps, the oldest first.
fn kept_of(host: &Host, guest: u8) -> AllKept
    requires { (1 ≤ guest) × (guest ≤ length (members_in host.now)) }
    ensures kept { numbered guest (kept_by (members_in host.now)) ≡ Some result.items }
    ensures lawful { CanBeKept result.items }
{
    let _ = host.kept(guest, 0);
    let mut all = AllKept::new();
    for place in 0..GUEST_CAPACITY {
        let Some(kept) = host.kept(guest, place) else {
            return all;
        };
        all.push(kept);
    }
    all
}

/// Writes a guest's lines.
fn write_saved<O: Sink>(host: &Host, guest: u8, out: &mut O) -> Result<(), SinkFault>
    requires number { (1 ≤ guest) × (guest ≤ length (members_in host.now)) }
    requires guests { AreGuests (members_in host.now) }
    ensures prints { IfSome (numbered guest (shown_by (members_in host.now))) (λ shown.
        Prints (O.taken out.old) (O.taken out.new) (O.faults out.old) (O.faults out.new)
        (shown_text guest shown) result) }
    ensures told { IfSome (numbered guest (shown_by (members_in host.now))) CanBeTold }
{
    let outcome = host.outcome(guest);
    write_guest(
        guest,
        outcome.ram.len() as u32,
        &kept_of(host, guest),
        host.script(guest),
        &outcome,
        host.devices(guest).disk(),
        out,
    )
}

/// Writes the lines of all guests in their order.
fn write_guests<O: Sink>(host: &Host, out: &mut O) -> Result<(), SinkFault>
    requires { AreGuests (members_in host.now) }
    ensures prints { Prints (O.taken out.old) (O.taken out.new) (O.faults out.old) (O.faults out.new)
        (texts_from shown_text 1 (shown_by (members_in host.now))) result }
    ensures told { IfOk result (λ done. All CanBeTold (shown_by (members_in host.now))) }
{
    for index in 0..host.guest_count() {
        write_saved(host, index + 1, out)?;
    }
    Ok(())
}

/// Writes a snapshot of all guests; `board` is in KiB.
fn write_snapshot<O: Sink>(
    host: &Host,
    board: u32,
    slice: u32,
    out: &mut O,
) -> Result<(), SinkFault>
    requires { AreGuests (members_in host.now) }
    ensures prints { Prints (O.taken out.old) (O.taken out.new) (O.faults out.old) (O.faults out.new)
        (snapshot_text board slice (shown_by (members_in host.now))) result }
    ensures told { IfOk result (λ done. All CanBeTold (shown_by (members_in host.now))) }
{
    write_head(board, slice, host.guest_count(), out)?;
    write_guests(host, out)
}

/// Runs each guest of a session for so many steps, or fewer where it has no more, and writes their snapshot. All memory
/// is taken before the first step.
pub(crate) fn show_saved<O: Sink>(
    alloc: Global,
    session: Session,
    steps: u32,
    out: &mut O,
    native: &mut Native,
) -> End
    requires session { IsSession session }
    requires room { HasRoomToRun native.old }
    ensures given { IsGiven (if_it_fits session (save_shown steps session))
        (sink_seen O.Sink out.old) (sink_seen O.Sink out.new) native.old native.new result }
    ensures saved { status_of result ≡ 0 → IsSaved steps session }
{
    let board = session.board() / 1024;
    let slice = session.slice();
    let host = match run_to(alloc, session, steps, native) {
        Ok(host) => host,
        Err(fault) => return End::from(fault),
    };
    match write_snapshot(&host, board, slice, out) {
        Ok(()) => End::Done,
        Err(_) => End::Output,
    }
}
