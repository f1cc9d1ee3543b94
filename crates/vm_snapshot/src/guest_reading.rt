//! The lines of a guest.

ghost use Rattle.std.specs.Prelude.{◌≡◌, ◌≤◌, option_map, IfOk};
ghost use Rattle.mb_spelling.specs.Reads.{lines_to};
ghost use Rattle.mb_spelling.specs.Spelling.{mapped};
ghost use Rattle.vm_snapshot.specs.Guests.{disk as disk_of, front as front_of, guest_said, is_disk, outcome as outcome_of};
ghost use Rattle.vm_snapshot.specs.Parts.{guest_and_disk, read_perhaps};
ghost use Rattle.vm_snapshot.specs.Plans.{guest_of, saved_of, state_of};
ghost use Rattle.vm_snapshot.specs.Views.{ReadsOr, front_seen, told_seen};

use crate::device_reading::read_devices;
use crate::disk_reading::disk;
use crate::input_reading::input;
use crate::kept_reading::kept;
use crate::line;
use crate::memory_reading::memory;
use crate::plan::SnapGuest;
use crate::progress_reading::read_progress;
use crate::refusal::Refusal;
use crate::register_reading::{cpu, read_registers};
use crate::told::{Front, Told};
use mb_model::RunState;
use mb_saved::SavedGuest;
use mb_spelling::{Numerals, Reader};
use std::alloc::Global;
use vm_disk::Disk;

/// Reads the lines before the outcome's.
fn read_front(alloc: Global, reader: &mut Reader) -> Result<Front, Refusal>
    ensures reads { ReadsOr front_seen result reader.new.left (front_of.read reader.old.left) }
    ensures lines { lines_to reader.new ≡ lines_to reader.old }
{
    let rams = Numerals {
        least: 64,
        most: 16_384,
        unit: 64,
    };
    let ram = line::named(reader, b"ram ", &rams)? as u32;
    let kept = kept(alloc, reader)?;
    let script = input(alloc, reader)?;
    Ok(Front { ram, kept, script })
}

/// Reads the lines of an outcome.
fn read_told(alloc: Global, reader: &mut Reader, guest: u8, front: &Front) -> Result<Told, Refusal>
    ensures reads { ReadsOr told_seen result reader.new.left
        ((outcome_of guest (front_seen front.now)).read reader.old.left) }
    ensures lines { lines_to reader.new ≡ lines_to reader.old }
{
    let progress = read_progress(alloc, reader, guest, &front.script)?;
    let registers = read_registers(reader)?;
    let devices = read_devices(reader, progress.queue.as_slice())?;
    let lines = memory(alloc, reader, 64 * front.ram)?;
    Ok(Told {
        progress,
        registers,
        devices,
        lines,
    })
}

/// Reads a disk, where one stands.
fn perhaps_disk(alloc: Global, reader: &mut Reader, guest: u8) -> Result<Option<Disk>, Refusal>
    ensures reads { ReadsOr (λ disk. disk) result reader.new.left
        (mapped (option_map state_of) (read_perhaps is_disk (disk_of guest).read reader.old.left)) }
    ensures lines { lines_to reader.new ≡ lines_to reader.old }
{
    if !reader.is_at(b'd') {
        return Ok(None);
    }
    let disk = disk(alloc, reader, guest)?;
    Ok(Some(disk))
}

/// The guest that was read.
fn guest_by(front: Front, told: Told, disk: Option<Disk>) -> SnapGuest
    ensures { result ≡ record {
      saved = saved_of (guest_said (front_seen front, told_seen told));
      script = front.script;
      disk = disk;
    } }
{
    let progress = told.progress;
    let devices = told.devices;
    let stopped = progress.state == RunState::Stopped;
    let saved = SavedGuest::new(
        1024 * front.ram,
        cpu(&told.registers, stopped),
        told.registers.translation,
        front.kept,
        progress.steps,
        progress.state,
        told.lines,
        progress.console,
        progress.lost,
        progress.queue,
        devices.ctrl,
        devices.status,
        devices.period,
        devices.count,
        devices.pending,
    );
    SnapGuest {
        saved,
        script: front.script,
        disk,
    }
}

/// Reads the guest of this number, and its disk where it has one.
pub(crate) fn guest(alloc: Global, reader: &mut Reader, guest: u8) -> Result<SnapGuest, Refusal>
    ensures reads { ReadsOr (λ g. g) result reader.new.left
        (mapped guest_of ((guest_and_disk guest).read reader.old.left)) }
    ensures lines { lines_to reader.new ≡ lines_to reader.old }
{
    let front = read_front(alloc, reader)?;
    let told = read_told(alloc, reader, guest, &front)?;
    let disk = perhaps_disk(alloc, reader, guest)?;
    Ok(guest_by(front, told, disk))
}
