//! The files of sessions.

ghost use Rattle.std.specs.Prelude.{◌≡◌, ◌≤◌, All, IfOk, length, map, option_map};
ghost use Rattle.mb_script.specs.Answers.{disk_said, guest_said, plan_said};
ghost use Rattle.mb_script.specs.Plan.{AreRams, HasDisk, IsBlocks, IsInRange, IsRam, IsTurnOf};
ghost use Rattle.vm_guest.specs.Session.{IsGuest, IsSession};
ghost use Rattle.mb_words.specs.Values.{file_said};
ghost use Rattle.mb_files.specs.Shelves.{shelf_seen};
ghost use Rattle.mb_words.specs.Words.{debugged_said};
ghost use Rattle.mb_program.specs.Debugs.{debugged_files};
ghost use Rattle.mb_program.specs.Files.{guest_files, guests_files, plan_files, session_files};
ghost use Rattle.mb_files.specs.Reads.{IsRead};
ghost use Rattle.mb_program.specs.Said.{debugged_by, disk_named, ordered_said};

use crate::debugged::DebuggedSession;
use crate::machine_files::read_parts;
use crate::named::{NamedDisk, NamedFiles, Parts};
use crate::ordered::OrderedSession;
use mb_files::{FileFault, commands_file, session_file, session_file_with};
use mb_outside::Shelf;
use mb_script::{DiskPlan, GuestPlan, SessionPlan};
use mb_words::DebugGuest;
use std::alloc::Global;
use vm_guest::{Session, SessionGuest};

/// The disk of a guest's plan.
fn disk_of<'a>(plan: &'a DiskPlan) -> NamedDisk<'a>
    requires { IsBlocks (disk_said plan.now).blocks }
    ensures { disk_named result ≡ disk_said plan.now }
{
    NamedDisk {
        blocks: plan.blocks(),
        contents: plan.contents(),
    }
}

/// The files of a guest's plan.
fn files_of<'a>(plan: &'a GuestPlan) -> NamedFiles<'a>
    requires { HasDisk (guest_said plan.now) }
    ensures image { result.image.now ≡ (guest_said plan.now).image }
    ensures script { file_said result.script ≡ (guest_said plan.now).script }
    ensures disk { option_map disk_named result.disk ≡ (guest_said plan.now).disk }
    ensures ram { result.ram ≡ (guest_said plan.now).ram }
{
    NamedFiles {
        image: plan.image(),
        ram: plan.ram(),
        script: plan.script(),
        disk: match plan.disk() {
            Some(disk) => Some(disk_of(disk)),
            None => None,
        },
    }
}

/// Reads the files of a guest.
fn read_guest<F: Shelf>(
    alloc: Global,
    shelf: &mut F,
    plan: &GuestPlan,
) -> Result<SessionGuest, FileFault>
    requires ram { IsRam (guest_said plan.now).ram }
    requires disk { HasDisk (guest_said plan.now) }
    ensures read { IsRead (guest_files (guest_said plan.now)) (λ guest. guest)
        (shelf_seen F.Shelf shelf.old) (shelf_seen F.Shelf shelf.new) result }
    ensures in_range { IfOk result IsGuest }
{
    let parts = read_parts(alloc, shelf, &files_of(plan))?;
    let Parts {
        image,
        script,
        disk,
    } = parts;
    let guest = SessionGuest::new(image, script, 1024 * plan.ram(), plan.steps());
    match disk {
        Some(disk) => Ok(guest.with_disk(disk)),
        None => Ok(guest),
    }
}

/// Reads the files of guests, guest by guest.
fn read_guests<F: Shelf>(
    alloc: Global,
    shelf: &mut F,
    plans: &[GuestPlan],
) -> Result<Vec<SessionGuest>, FileFault>
    requires rams { AreRams (map guest_said plans.now) }
    requires disks { All HasDisk (map guest_said plans.now) }
    ensures read { IsRead (guests_files (map guest_said plans.now)) (λ guests. guests.items)
        (shelf_seen F.Shelf shelf.old) (shelf_seen F.Shelf shelf.new) result }
    ensures in_range { IfOk result (λ guests. All IsGuest guests.items) }
    ensures count { IfOk result (λ guests. length guests.items ≡ length plans.now) }
{
    let mut guests = Vec::new(alloc);
    for plan in plans {
        let guest = read_guest(alloc, shelf, plan)?;
        let Ok(()) = guests.push(guest) else {
            return Err(FileFault::Memory);
        };
    }
    Ok(guests)
}

/// Reads the files of a plan's guests.
fn read_planned<F: Shelf>(
    alloc: Global,
    shelf: &mut F,
    plan: SessionPlan,
) -> Result<OrderedSession, FileFault>
    requires { IsInRange (plan_said plan) }
    ensures read { IsRead (plan_files (plan_said plan)) ordered_said
        (shelf_seen F.Shelf shelf.old) (shelf_seen F.Shelf shelf.new) result }
    ensures in_range { IfOk result (λ ordered. IsSession ordered.session) }
    ensures turns { IfOk result (λ ordered. All (IsTurnOf (length ordered.session.guests)) ordered.order.items) }
    ensures count { IfOk result (λ ordered. length ordered.session.guests ≡ length (plan_said plan).guests) }
{
    let guests = read_guests(alloc, shelf, plan.guests())?;
    let session = Session::new(1024 * plan.board(), plan.slice(), guests);
    let order = plan.into_order();
    Ok(OrderedSession { session, order })
}

/// Reads a session file, and then the files of its guests.
pub(crate) fn read_session<F: Shelf>(
    alloc: Global,
    shelf: &mut F,
    name: &str,
) -> Result<OrderedSession, FileFault>
    ensures read { IsRead (session_files name.now) ordered_said
        (shelf_seen F.Shelf shelf.old) (shelf_seen F.Shelf shelf.new) result }
    ensures in_range { IfOk result (λ ordered. IsSession ordered.session) }
    ensures turns { IfOk result (λ ordered. All (IsTurnOf (length ordered.session.guests)) ordered.order.items) }
{
    let plan = session_file(alloc, shelf, name)?;
    read_planned(alloc, shelf, plan)
}

/// Reads a session file, which has a guest of this number, then the files of its guests, and then the commands.
pub(crate) fn read_debugged<F: Shelf>(
    alloc: Global,
    shelf: &mut F,
    debug: &DebugGuest,
) -> Result<DebuggedSession, FileFault>
    ensures read { IsRead (debugged_files (debugged_said debug.now)) debugged_by
        (shelf_seen F.Shelf shelf.old) (shelf_seen F.Shelf shelf.new) result }
    ensures in_range { IfOk result (λ debugged. IsSession debugged.session) }
    ensures guest { IfOk result (λ debugged. debug.now.guest ≤ length debugged.session.guests) }
{
    let plan = session_file_with(alloc, shelf, debug.session, debug.guest)?;
    let ordered = read_planned(alloc, shelf, plan)?;
    let commands = commands_file(alloc, shelf, debug.commands)?;
    Ok(DebuggedSession {
        session: ordered.session,
        commands,
    })
}
