//! The files of a machine.

ghost use Rattle.std.specs.Prelude.{◌*◌, All, IfOk, None, Some, option_map};
ghost use Rattle.mb_srec.specs.Image.{LiesBelow, contents_of};
ghost use Rattle.mb_script.specs.Plan.{IsRam};
ghost use Rattle.mb_words.specs.Values.{file_said};
ghost use Rattle.mb_files.specs.Shelves.{shelf_seen};
ghost use Rattle.mb_files.specs.Reading.{if_named};
ghost use Rattle.mb_program.specs.Files.{disk_file, machine_files};
ghost use Rattle.mb_files.specs.Reads.{IsRead};
ghost use Rattle.mb_program.specs.Said.{disk_named, parts_said};

use crate::named::{NamedDisk, NamedFiles, Parts};
use mb_files::{FileFault, image_file, image_if_named, script_if_named};
use mb_outside::Shelf;
use std::alloc::Global;
use vm_disk::BLOCK_BYTES;
use vm_guest::SessionDisk;

/// Reads the contents of a disk, where they are named; else there are none.
fn read_disk<F: Shelf>(
    alloc: Global,
    shelf: &mut F,
    disk: &NamedDisk,
) -> Result<SessionDisk, FileFault>
    ensures { IsRead (disk_file (disk_named disk.now)) (λ opened. Some opened)
        (shelf_seen F.Shelf shelf.old) (shelf_seen F.Shelf shelf.new) result }
{
    let size = BLOCK_BYTES as u32 * disk.blocks;
    let contents = image_if_named(alloc, shelf, disk.contents, size)?;
    Ok(SessionDisk::new(disk.blocks, contents))
}

/// Reads the contents of the disk, where there is one.
fn read_disk_if_any<F: Shelf>(
    alloc: Global,
    shelf: &mut F,
    disk: Option<NamedDisk>,
) -> Result<Option<SessionDisk>, FileFault>
    ensures { IsRead (if_named disk_file None (option_map disk_named disk.entry)) (λ opened. opened)
        (shelf_seen F.Shelf shelf.old) (shelf_seen F.Shelf shelf.new) result }
{
    match disk {
        Some(disk) => Ok(Some(read_disk(alloc, shelf, &disk)?)),
        None => Ok(None),
    }
}

/// Reads the files of a machine: its image, then its script, where it has one, and then its disk's contents.
pub(crate) fn read_parts<F: Shelf>(
    alloc: Global,
    shelf: &mut F,
    files: &NamedFiles,
) -> Result<Parts, FileFault>
    requires { IsRam files.now.ram }
    ensures read { IsRead (machine_files files.now.image.now files.now.ram (file_said files.now.script)
        (option_map disk_named files.now.disk)) parts_said
        (shelf_seen F.Shelf shelf.old) (shelf_seen F.Shelf shelf.new) result }
    ensures in_ram { IfOk result (λ parts. All (LiesBelow (1024 * files.now.ram)) (contents_of parts.image)) }
{
    let image = image_file(alloc, shelf, files.image, 1024 * files.ram)?;
    let script = script_if_named(alloc, shelf, files.script)?;
    let disk = read_disk_if_any(alloc, shelf, files.disk)?;
    Ok(Parts {
        image,
        script,
        disk,
    })
}
