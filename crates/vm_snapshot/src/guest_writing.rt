//! Writing a guest's lines.

ghost use Rattle.std.specs.Prelude.{◌≡◌, ◌/◌, ◌%◌, ◌≤◌, ◌^◌, length, option_map};
ghost use Rattle.std.specs.List.{flat_map};
ghost use Rattle.mb_model.specs.Seen.{seen_of};
ghost use Rattle.mb_outside.specs.Prints.{Prints};
ghost use Rattle.mb_saved.specs.Saved.{IsLawful};
ghost use Rattle.mb_report.specs.Buffered.{Buffers};
ghost use Rattle.mb_report.specs.Kept.{kept_line};
ghost use Rattle.vm_snapshot.specs.Runs.{lines_of};
ghost use Rattle.vm_snapshot.specs.Shown.{head_text, saved_in, CanBeTold, HasEntries};
ghost use Rattle.vm_snapshot.specs.Texts.{above, front_text, guest_text, machine_text};

use crate::counts::write_count;
use crate::input_writing::{line_count, write_input};
use crate::widths::{disk_widths, outcome_widths};
use mb_model::{Kept, Outcome};
use mb_outside::{Sink, SinkFault};
use mb_report::{Buffered, write_kept, write_outcome};
use mb_script::Script;
use vm_disk::{Disk, write_disk};

/// Writes the first lines of a snapshot: the board's memory in KiB, the steps of a turn, and how many guests there are.
pub fn write_head<O: Sink>(board: u32, slice: u32, guests: u8, out: &mut O) -> Result<(), SinkFault>
    ensures { Prints (O.taken out.old) (O.taken out.new) (O.faults out.old) (O.faults out.new)
        (head_text board slice guests) result }
{
    let mut text = Buffered::new();
    text.add(out, b"snapshot 1\n");
    write_count(&mut text, out, b"board", u64::from(board));
    write_count(&mut text, out, b"slice", u64::from(slice));
    write_count(&mut text, out, b"guests", u64::from(guests));
    text.finish(out)
}

/// Writes the lines of what is kept.
fn write_all_kept<O: Sink>(text: &mut Buffered, out: &mut O, kept: &[Kept])
    ensures { Buffers text.old text.new (O.taken out.old) (O.taken out.new) (O.faults out.old) (O.faults out.new)
        (flat_map kept_line kept.now) }
{
    for entry in kept {
        write_kept(text, out, *entry);
    }
}

/// Writes the lines before the outcome's; `ram` is in KiB.
fn write_front<O: Sink>(
    ram: u32,
    kept: &[Kept],
    script: &Script,
    steps: u32,
    out: &mut O,
) -> Result<(), SinkFault>
    ensures prints { Prints (O.taken out.old) (O.taken out.new) (O.faults out.old) (O.faults out.new)
        (front_text ram kept.now (lines_of (above steps script.now))) result }
    ensures entries { HasEntries script.now }
{
    let mut text = Buffered::new();
    write_count(&mut text, out, b"ram", u64::from(ram));
    write_count(&mut text, out, b"kept", kept.len() as u64);
    write_all_kept(&mut text, out, kept);
    write_count(
        &mut text,
        out,
        b"input",
        u64::from(line_count(script, steps)),
    );
    write_input(&mut text, out, script, steps);
    text.finish(out)
}

/// Writes the outcome text, and the disk's where there is one.
fn write_machine<O: Sink>(
    guest: u8,
    o: &Outcome,
    disk: Option<&Disk>,
    out: &mut O,
) -> Result<(), SinkFault>
    requires { length (seen_of o.now).ram ≤ 2 ^ 32 }
    ensures { Prints (O.taken out.old) (O.taken out.new) (O.faults out.old) (O.faults out.new)
        (machine_text guest (seen_of o.now) (option_map (λ d. d.now) disk.entry)) result }
{
    write_outcome(guest, o, out)?;
    match disk {
        Some(disk) => write_disk(guest, disk, out),
        None => Ok(()),
    }
}

/// Writes a guest's lines of a snapshot: its RAM in KiB, what is kept, what is still to come by its script, its outcome
/// text, and its disk's text where it has one. Entries of the script at steps that were taken are left out.
///
/// `ram` is in bytes, and the length of the outcome's RAM.
pub fn write_guest<O: Sink>(
    guest: u8,
    ram: u32,
    kept: &[Kept],
    script: &Script,
    o: &Outcome,
    disk: Option<&Disk>,
    out: &mut O,
) -> Result<(), SinkFault>
    requires whole { ram % 1024 ≡ 0 }
    requires ram { length (seen_of o.now).ram ≡ ram }
    ensures prints { Prints (O.taken out.old) (O.taken out.new) (O.faults out.old) (O.faults out.new)
        (guest_text guest (ram / 1024) kept.now script.now (seen_of o.now)
        (option_map (λ d. d.now) disk.entry)) result }
    ensures told { IsLawful (saved_in kept.now (seen_of o.now)) → CanBeTold (record {
      kept = kept.now;
      script = script.now;
      seen = seen_of o.now;
      disk = option_map (λ d. d.now) disk.entry;
    }) }
{
    outcome_widths(o);
    disk_widths(disk);
    write_front(ram / 1024, kept, script, o.steps, out)?;
    write_machine(guest, o, disk, out)
}
