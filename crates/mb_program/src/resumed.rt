//! The guests of a snapshot, going on.

ghost use Rattle.std.specs.Prelude.{◌≡◌, ◌-◌, ◌<◌, ◌≤◌, All, IfOk, IfSome, length, map};
ghost use Rattle.mb_saved.specs.Saved.{IsLawful};
ghost use Rattle.vm_slices.specs.Members.{numbered};
ghost use Rattle.vm_slices.specs.Places.{members_in, with_member};
ghost use Rattle.vm_snapshot.specs.Plans.{plan_seen};
ghost use Rattle.mb_files.specs.Snapshots.{IsSaid};
ghost use Rattle.mb_program.specs.Answers.{if_it_fits};
ghost use Rattle.mb_program.specs.Around.{sink_seen};
ghost use Rattle.mb_program.specs.Direct.{HasRoomToRun};
ghost use Rattle.mb_program.specs.Ends.{IsGiven};
ghost use Rattle.mb_program.specs.Saves.{resume_shown, seat_of, session_of};
ghost use Rattle.mb_program.specs.Saved.{CanAllBecome, CanBecome, HasNoDisk, RunsOn};
ghost use Rattle.mb_program.specs.Saved.{all_become, become, disked, left_of, left_said};

use crate::hosted::write_outcomes;
use mb_board::Native;
use mb_ends::End;
use mb_outside::{Memory, Sink};
use mb_saved::SavedGuest;
use mb_srec::Image;
use std::alloc::Global;
use vm_disk::Disk;
use vm_slices::{Host, OpenFault, Session, SessionGuest};
use vm_snapshot::{SnapGuest, SnapPlan};

/// What a guest is to become: a saved machine, with its disk, where it has one.
#[derive(Drop)]
struct LeftMachine {
    saved: SavedGuest,
    disk: Option<Disk>,
}

/// The guests of a snapshot: what each begins with in a session, and what it is to become then.
#[derive(Drop)]
struct ResumedGuests {
    seats: Vec<SessionGuest>,
    machines: Vec<LeftMachine>,
}

/// A guest of a snapshot, which takes so many steps more, or fewer where the count of its steps ends.
fn seat_of(alloc: Global, guest: SnapGuest, more: u32) -> (SessionGuest, LeftMachine)
    ensures seat { let (seat, _) = result in seat ≡ seat_of more guest }
    ensures machine { let (_, machine) = result in left_said machine ≡ left_of guest }
{
    let SnapGuest {
        saved,
        script,
        disk,
    } = guest;
    let bound = saved.steps().saturating_add(more);
    let nothing = Image::new(Vec::new(alloc));
    let seat = SessionGuest::new(nothing, script, saved.ram(), bound);
    (seat, LeftMachine { saved, disk })
}

/// The guests of a snapshot, each of which takes so many steps more.
fn part_guests(alloc: Global, guests: Vec<SnapGuest>, more: u32) -> Result<ResumedGuests, Memory>
    ensures seats { IfOk result (λ parted. parted.seats.items ≡ map (seat_of more) guests.items) }
    ensures machines { IfOk result (λ parted. map left_said parted.machines.items ≡ map left_of guests.items) }
{
    let mut seats = Vec::new(alloc);
    let mut machines = Vec::new(alloc);
    for guest in guests {
        let (seat, machine) = seat_of(alloc, guest, more);
        seats.push(seat)?;
        machines.push(machine)?;
    }
    Ok(ResumedGuests { seats, machines })
}

/// Attaches the disk, where there is one, to the guest of this number, which has none.
fn attach_disk(host: &mut Host, number: u8, disk: Option<Disk>)
    requires number { (1 ≤ number) × (number ≤ length (members_in host.old)) }
    requires diskless { IfSome (numbered number (members_in host.old)) HasNoDisk }
    ensures members { members_in host.new ≡ with_member (number - 1) (disked disk) (members_in host.old) }
    ensures slice { host.new.slice ≡ host.old.slice }
{
    if let Some(disk) = disk {
        host.devices_mut(number).attach(disk);
    }
}

/// The guest of this number, which is at its start and has no disk, becomes a saved machine with its disk.
fn adopt_machine(host: &mut Host, number: u8, machine: LeftMachine)
    requires number { (1 ≤ number) × (number ≤ length (members_in host.old)) }
    requires can { IfSome (numbered number (members_in host.old)) (CanBecome (left_said machine)) }
    requires lawful { IsLawful machine.saved }
    ensures members { members_in host.new
        ≡ with_member (number - 1) (become (left_said machine)) (members_in host.old) }
    ensures slice { host.new.slice ≡ host.old.slice }
{
    let LeftMachine { saved, disk } = machine;
    attach_disk(host, number, disk);
    host.adopt(number, &saved);
}

/// Each guest becomes its saved machine.
fn adopt_all(host: &mut Host, machines: Vec<LeftMachine>)
    requires { CanAllBecome (map left_said machines.items) (members_in host.old) }
    ensures members { members_in host.new ≡ all_become (map left_said machines.items) (members_in host.old) }
    ensures slice { host.new.slice ≡ host.old.slice }
{
    let _ = host.guest_count();
    let mut number = 0;
    for machine in machines {
        number += 1;
        adopt_machine(host, number, machine);
    }
}

/// All guests of a snapshot on their board, after rounds in which each takes so many steps more. What the board carried
/// out is counted.
fn run_on(alloc: Global, plan: SnapPlan, more: u32, native: &mut Native) -> Result<Host, OpenFault>
    requires said { IsSaid (plan_seen plan) }
    requires lawful { All (λ g. IsLawful g.saved) plan.guests.items }
    requires room { HasRoomToRun native.old }
    ensures { RunsOn more (plan_seen plan) native.old native.new result }
{
    let SnapPlan {
        board,
        slice,
        guests,
    } = plan;
    let parted = part_guests(alloc, guests, more)?;
    let size = 1024 * board;
    let session = Session::new(size, slice, parted.seats);
    let mut host = Host::prepare(alloc, session)?;
    adopt_all(&mut host, parted.machines);
    host.run(native);
    Ok(host)
}

/// Makes the guests of a snapshot again, runs each for so many steps more, and writes their outcomes. All memory is
/// taken before the first step.
pub(crate) fn show_resumed<O: Sink>(
    alloc: Global,
    plan: SnapPlan,
    more: u32,
    out: &mut O,
    native: &mut Native,
) -> End
    requires said { IsSaid (plan_seen plan) }
    requires lawful { All (λ g. IsLawful g.saved) plan.guests.items }
    requires room { HasRoomToRun native.old }
    ensures { IsGiven (if_it_fits (session_of more (plan_seen plan)) (resume_shown more (plan_seen plan)))
        (sink_seen O.Sink out.old) (sink_seen O.Sink out.new) native.old native.new result }
{
    let host = match run_on(alloc, plan, more, native) {
        Ok(host) => host,
        Err(fault) => return End::from(fault),
    };
    match write_outcomes(&host, out) {
        Ok(()) => End::Counts(host),
        Err(_) => End::Output,
    }
}
