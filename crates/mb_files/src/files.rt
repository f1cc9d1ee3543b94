//! Files read whole, each by what it is.

ghost use Rattle.std.specs.Prelude.{◌≡◌, ◌^◌, ◌<◌, ◌≤◌, All, IfErr, IfOk, Ok, [], length};
ghost use Rattle.mb_srec.specs.Image.{IsAddressed, LiesBelow, contents_of};
ghost use Rattle.mb_script.specs.Answers.{plan_said};
ghost use Rattle.mb_script.specs.Plan.{IsInRange};
ghost use Rattle.mb_saved.specs.Saved.{IsLawful};
ghost use Rattle.vm_snapshot.specs.Plans.{plan_seen};
ghost use Rattle.mb_words.specs.Values.{file_said};
ghost use Rattle.mb_files.specs.Reading.{file, if_named, images, scripts, sessions};
ghost use Rattle.mb_files.specs.Sources.{sources};
ghost use Rattle.mb_files.specs.Debugged.{commands, sessions_with};
ghost use Rattle.mb_files.specs.Snapshots.{plan_in, snapshots, FaultsAs, IsSaid};
ghost use Rattle.mb_files.specs.Shelves.{shelf_seen};
ghost use Rattle.mb_files.specs.Reads.{IsRead, LoadsFile, fault_by};

use crate::fault::{FileFault, FileWhy};
use crate::unheld::Unheld;
use mb_asm::assemble;
use mb_outside::{LoadFault, Shelf, load};
use mb_script::{Script, SessionPlan, read_script, read_session};
use mb_srec::{Image, read_image};
use std::alloc::Global;
use vm_debug::{Commands, read_commands};
use vm_snapshot::{SnapFault, SnapPlan, read_snapshot};

/// The most bytes of an image, of a script, of a session file, of a source and of a debugger's commands.
const MOST_BYTES: usize = 67_108_864;

/// The most bytes of a snapshot.
pub const MOST_SNAPSHOT_BYTES: usize = 1_073_741_824;

/// A file that was read whole.
#[derive(Drop)]
struct Loaded {
    name: String,
    bytes: Vec<u8>,
}

impl Loaded {
    /// Why the file is not read, where its bytes are not what it is read as.
    fn fault(self, why: Unheld) -> FileFault
        ensures { result ≡ fault_by self.name why }
    {
        match why {
            Unheld::Memory => FileFault::Memory,
            Unheld::Why(why) => FileFault::Refused(self.name, why),
        }
    }
}

/// Reads a file whole, which may have at most so many bytes.
fn load_file<F: Shelf>(
    alloc: Global,
    shelf: &mut F,
    name: &str,
    most: usize,
) -> Result<Loaded, FileFault>
    ensures loads { LoadsFile most (shelf_seen F.Shelf shelf.old) (shelf_seen F.Shelf shelf.new)
        name.now result }
    ensures told { F.told shelf.new ≡ F.told shelf.old }
    ensures whole { F.whole shelf.new ≡ F.whole shelf.old }
{
    let Ok(owned) = String::from_str(alloc, name) else {
        return Err(FileFault::Memory);
    };
    match load(alloc, shelf, name, most) {
        Ok(bytes) => Ok(Loaded { name: owned, bytes }),
        Err(LoadFault::Memory) => Err(FileFault::Memory),
        Err(LoadFault::Failed) => Err(FileFault::Unread(owned)),
        Err(LoadFault::TooLong) => Err(FileFault::Refused(owned, FileWhy::TooLong)),
    }
}

/// Reads the image of a file, for so many bytes of RAM or of a disk.
pub fn image_file<F: Shelf>(
    alloc: Global,
    shelf: &mut F,
    name: &str,
    size: u32,
) -> Result<Image, FileFault>
    ensures read { IsRead (file (images size) name.now) contents_of
        (shelf_seen F.Shelf shelf.old) (shelf_seen F.Shelf shelf.new) result }
    ensures below { IfOk result (λ image. All (LiesBelow size) (contents_of image)) }
{
    let file = load_file(alloc, shelf, name, MOST_BYTES)?;
    match read_image(alloc, &file.bytes, size) {
        Ok(image) => Ok(image),
        Err(fault) => Err(file.fault(Unheld::from(fault))),
    }
}

/// Reads the image of a file, where there is one; else it gives nothing.
pub fn image_if_named<F: Shelf>(
    alloc: Global,
    shelf: &mut F,
    name: Option<&str>,
    size: u32,
) -> Result<Image, FileFault>
    ensures read { IsRead (if_named (file (images size)) [] (file_said name.entry)) contents_of
        (shelf_seen F.Shelf shelf.old) (shelf_seen F.Shelf shelf.new) result }
    ensures below { IfOk result (λ image. All (LiesBelow size) (contents_of image)) }
{
    match name {
        Some(name) => image_file(alloc, shelf, name, size),
        None => Ok(Image::new(Vec::new(alloc))),
    }
}

/// Reads the script of a file.
fn script_file<F: Shelf>(alloc: Global, shelf: &mut F, name: &str) -> Result<Script, FileFault>
    ensures { IsRead (file scripts name.now) (λ script. script)
        (shelf_seen F.Shelf shelf.old) (shelf_seen F.Shelf shelf.new) result }
{
    let file = load_file(alloc, shelf, name, MOST_BYTES)?;
    match read_script(alloc, &file.bytes) {
        Ok(script) => Ok(script),
        Err(fault) => Err(file.fault(Unheld::from(fault))),
    }
}

/// Reads the script of a file, where there is one; else it has no entries.
pub fn script_if_named<F: Shelf>(
    alloc: Global,
    shelf: &mut F,
    name: Option<&str>,
) -> Result<Script, FileFault>
    ensures { IsRead (if_named (file scripts) [] (file_said name.entry)) (λ script. script)
        (shelf_seen F.Shelf shelf.old) (shelf_seen F.Shelf shelf.new) result }
{
    match name {
        Some(name) => script_file(alloc, shelf, name),
        None => Ok(Script::new(Vec::new(alloc))),
    }
}

/// Reads the plan of a session file.
pub fn session_file<F: Shelf>(
    alloc: Global,
    shelf: &mut F,
    name: &str,
) -> Result<SessionPlan, FileFault>
    ensures read { IsRead (file sessions name.now) plan_said
        (shelf_seen F.Shelf shelf.old) (shelf_seen F.Shelf shelf.new) result }
    ensures in_range { IfOk result (λ plan. IsInRange (plan_said plan)) }
{
    let file = load_file(alloc, shelf, name, MOST_BYTES)?;
    match read_session(alloc, &file.bytes) {
        Ok(plan) => Ok(plan),
        Err(fault) => Err(file.fault(Unheld::from(fault))),
    }
}

/// Reads the plan of a session file that has a guest of this number.
pub fn session_file_with<F: Shelf>(
    alloc: Global,
    shelf: &mut F,
    name: &str,
    guest: u8,
) -> Result<SessionPlan, FileFault>
    ensures read { IsRead (file (sessions_with guest) name.now) plan_said
        (shelf_seen F.Shelf shelf.old) (shelf_seen F.Shelf shelf.new) result }
    ensures in_range { IfOk result (λ plan. IsInRange (plan_said plan)) }
    ensures guest { IfOk result (λ plan. guest ≤ length (plan_said plan).guests) }
{
    let file = load_file(alloc, shelf, name, MOST_BYTES)?;
    match read_session(alloc, &file.bytes) {
        Ok(plan) if plan.guests().len() < usize::from(guest) => {
            Err(file.fault(Unheld::Why(FileWhy::NoGuest { guest })))
        }
        Ok(plan) => Ok(plan),
        Err(fault) => Err(file.fault(Unheld::from(fault))),
    }
}

/// Reads the commands of a debugger in a file.
pub fn commands_file<F: Shelf>(
    alloc: Global,
    shelf: &mut F,
    name: &str,
) -> Result<Commands, FileFault>
    ensures { IsRead (file commands name.now) (λ commands. commands)
        (shelf_seen F.Shelf shelf.old) (shelf_seen F.Shelf shelf.new) result }
{
    let file = load_file(alloc, shelf, name, MOST_BYTES)?;
    match read_commands(alloc, &file.bytes) {
        Ok(commands) => Ok(commands),
        Err(fault) => Err(file.fault(Unheld::from(fault))),
    }
}

/// Reads the text of a snapshot.
fn plan_in(alloc: Global, text: &[u8]) -> Result<SnapPlan, SnapFault>
    requires { length text.now < 2 ^ 31 }
    ensures plan { IfOk result (λ plan. plan_in text.now ≡ Ok (plan_seen plan)) }
    ensures lawful { IfOk result (λ plan. All (λ g. IsLawful g.saved) plan.guests.items) }
    ensures said { IfOk result (λ plan. IsSaid (plan_seen plan)) }
    ensures fault { IfErr result (FaultsAs (plan_in text.now)) }
{
    read_snapshot(alloc, text)
}

/// Reads a snapshot.
pub fn snapshot_file<F: Shelf>(
    alloc: Global,
    shelf: &mut F,
    name: &str,
) -> Result<SnapPlan, FileFault>
    ensures read { IsRead (file snapshots name.now) plan_seen
        (shelf_seen F.Shelf shelf.old) (shelf_seen F.Shelf shelf.new) result }
    ensures lawful { IfOk result (λ plan. All (λ g. IsLawful g.saved) plan.guests.items) }
    ensures said { IfOk result (λ plan. IsSaid (plan_seen plan)) }
{
    let file = load_file(alloc, shelf, name, MOST_SNAPSHOT_BYTES)?;
    match plan_in(alloc, &file.bytes) {
        Ok(plan) => Ok(plan),
        Err(fault) => Err(file.fault(Unheld::from(fault))),
    }
}

/// Assembles the source of a file.
pub fn source_file<F: Shelf>(alloc: Global, shelf: &mut F, name: &str) -> Result<Image, FileFault>
    ensures read { IsRead (file sources name.now) contents_of
        (shelf_seen F.Shelf shelf.old) (shelf_seen F.Shelf shelf.new) result }
    ensures addressed { IfOk result (λ image. All IsAddressed (contents_of image)) }
{
    let file = load_file(alloc, shelf, name, MOST_BYTES)?;
    match assemble(alloc, &file.bytes) {
        Ok(image) => Ok(image),
        Err(fault) => Err(file.fault(Unheld::from(fault))),
    }
}
