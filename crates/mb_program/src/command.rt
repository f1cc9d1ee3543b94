//! The commands.

ghost use Rattle.std.specs.Prelude.{◌≡◌, Some, map, option_map, string_bytes};
ghost use Rattle.def_runs.specs.Native.{NativeState};
ghost use Rattle.mb_words.specs.Values.{file_said};
ghost use Rattle.mb_words.specs.Words.{asked_by, assembly, bare, comparison, debugging, disassembly, hosting};
ghost use Rattle.mb_words.specs.Words.{resuming, resumption_said, saving, saving_said};
ghost use Rattle.mb_words.specs.Words.{debugged_said, disk_said, excerpt_said, run_said, session_said, source_said};
ghost use Rattle.mb_program.specs.Answers.{answer_to};
ghost use Rattle.mb_program.specs.Around.{around_of};
ghost use Rattle.mb_program.specs.Causes.{HasSaved, HostsNothing};
ghost use Rattle.mb_program.specs.Direct.{HasRoomToRun};
ghost use Rattle.mb_program.specs.Ends.{CommandEnds, Ends};
ghost use Rattle.mb_ends.specs.Lines.{status_of};
ghost use Rattle.mb_program.specs.Said.{disk_named};

use crate::compared::show_compared;
use crate::debugged::show_debugged;
use crate::excerpt::show_excerpt;
use crate::generated::show_generated;
use crate::guest_reading::{read_debugged, read_session};
use crate::hosted::show_hosted;
use crate::machine::show_machine;
use crate::machine_files::read_parts;
use crate::named::{NamedDisk, NamedFiles};
use crate::records::show_records;
use crate::resumed::show_resumed;
use crate::saved::show_saved;
use mb_board::Native;
use mb_ends::End;
use mb_files::{image_file, snapshot_file, source_file};
use mb_outside::{Shelf, Sink};
use mb_words::{
    Asm, Bare, BareDisk, Command, DebugGuest, Dis, ResumeSnapshot, SaveSession, SessionFile,
    WordsFault, read_words,
};
use std::alloc::Global;

/// The disk of a run.
fn disk_of<'a>(disk: &BareDisk<'a>) -> NamedDisk<'a>
    ensures { disk_named result ≡ disk_said disk.now }
{
    NamedDisk {
        blocks: disk.blocks,
        contents: disk.contents,
    }
}

/// The files of a run.
fn files_of<'a>(run: &Bare<'a>) -> NamedFiles<'a>
    ensures image { result.image.now ≡ (run_said run.now).image }
    ensures script { file_said result.script ≡ (run_said run.now).script }
    ensures disk { option_map disk_named result.disk ≡ (run_said run.now).disk }
    ensures ram { result.ram ≡ run.now.ram }
{
    NamedFiles {
        image: run.image,
        ram: run.ram,
        script: run.script,
        disk: match &run.disk {
            Some(disk) => Some(disk_of(disk)),
            None => None,
        },
    }
}

/// `bare`: reads the files of the machine, runs it and writes its outcome.
fn run_bare<F: Shelf, O: Sink>(alloc: Global, run: &Bare, shelf: &mut F, out: &mut O) -> End
    ensures { (native : NativeState) → CommandEnds (answer_to (bare (run_said run.now)))
        (around_of F.Shelf O.Sink shelf.old shelf.new out.old out.new native native) result }
{
    match read_parts(alloc, shelf, &files_of(run)) {
        Ok(parts) => show_machine(alloc, run, &parts, out),
        Err(fault) => End::from(fault),
    }
}

/// `asm`: reads the source, assembles it and writes the image as S-records.
fn run_asm<F: Shelf, O: Sink>(alloc: Global, asm: &Asm, shelf: &mut F, out: &mut O) -> End
    ensures { (native : NativeState) → CommandEnds (answer_to (assembly (source_said asm.now)))
        (around_of F.Shelf O.Sink shelf.old shelf.new out.old out.new native native) result }
{
    match source_file(alloc, shelf, asm.source) {
        Ok(image) => show_records(alloc, &image, out),
        Err(fault) => End::from(fault),
    }
}

/// `dis`: reads the image and writes the listing of an excerpt of the memory that it opens with.
fn run_dis<F: Shelf, O: Sink>(alloc: Global, dis: &Dis, shelf: &mut F, out: &mut O) -> End
    ensures { (native : NativeState) → CommandEnds (answer_to (disassembly (excerpt_said dis.now)))
        (around_of F.Shelf O.Sink shelf.old shelf.new out.old out.new native native) result }
{
    match image_file(alloc, shelf, dis.image, 1024 * dis.ram) {
        Ok(image) => show_excerpt(alloc, dis, &image, out),
        Err(fault) => End::from(fault),
    }
}

/// `host`: reads the session and the files of its guests, runs them all under the monitor and writes their outcomes.
fn run_host<F: Shelf, O: Sink>(
    alloc: Global,
    session: &SessionFile,
    shelf: &mut F,
    out: &mut O,
    native: &mut Native,
) -> End
    requires room { HasRoomToRun native.old }
    ensures { CommandEnds (answer_to (hosting (session_said session.now)))
        (around_of F.Shelf O.Sink shelf.old shelf.new out.old out.new native.old native.new) result }
{
    match read_session(alloc, shelf, session.name) {
        Ok(session) => show_hosted(alloc, session, out, native),
        Err(fault) => End::from(fault),
    }
}

/// `compare`: reads the session and the files of its guests, runs each of them on a board of its own and all under the
/// monitor, and writes of each whether it shows the same.
fn run_compare<F: Shelf, O: Sink>(
    alloc: Global,
    session: &SessionFile,
    shelf: &mut F,
    out: &mut O,
    native: &mut Native,
) -> End
    requires room { HasRoomToRun native.old }
    ensures { CommandEnds (answer_to (comparison (session_said session.now)))
        (around_of F.Shelf O.Sink shelf.old shelf.new out.old out.new native.old native.new) result }
{
    match read_session(alloc, shelf, session.name) {
        Ok(session) => show_compared(alloc, session, out, native),
        Err(fault) => End::from(fault),
    }
}

/// `debug`: reads the session, the files of its guests and the commands, carries the commands out on one of the guests,
/// and writes what they print and its outcome.
fn run_debug<F: Shelf, O: Sink>(
    alloc: Global,
    debug: &DebugGuest,
    shelf: &mut F,
    out: &mut O,
    native: &mut Native,
) -> End
    requires room { HasRoomToRun native.old }
    ensures { CommandEnds (answer_to (debugging (debugged_said debug.now)))
        (around_of F.Shelf O.Sink shelf.old shelf.new out.old out.new native.old native.new) result }
{
    match read_debugged(alloc, shelf, debug) {
        Ok(debugged) => show_debugged(alloc, debugged, debug.guest, out, native),
        Err(fault) => End::from(fault),
    }
}

/// `save`: reads the session and the files of its guests, runs each of them under the monitor for so many steps at
/// most, and writes their snapshot.
fn run_save<F: Shelf, O: Sink>(
    alloc: Global,
    save: &SaveSession,
    shelf: &mut F,
    out: &mut O,
    native: &mut Native,
) -> End
    requires room { HasRoomToRun native.old }
    ensures ends { CommandEnds (answer_to (saving (saving_said save.now)))
        (around_of F.Shelf O.Sink shelf.old shelf.new out.old out.new native.old native.new) result }
    ensures saved { HasSaved (Some (saving (saving_said save.now)))
        (around_of F.Shelf O.Sink shelf.old shelf.new out.old out.new native.old native.new) (status_of result) }
{
    match read_session(alloc, shelf, save.session) {
        Ok(ordered) => show_saved(alloc, ordered.session, save.steps, out, native),
        Err(fault) => End::from(fault),
    }
}

/// `resume`: reads the snapshot, makes its guests again, runs each of them under the monitor for so many steps more at
/// most, and writes their outcomes.
fn run_resume<F: Shelf, O: Sink>(
    alloc: Global,
    resume: &ResumeSnapshot,
    shelf: &mut F,
    out: &mut O,
    native: &mut Native,
) -> End
    requires room { HasRoomToRun native.old }
    ensures { CommandEnds (answer_to (resuming (resumption_said resume.now)))
        (around_of F.Shelf O.Sink shelf.old shelf.new out.old out.new native.old native.new) result }
{
    match snapshot_file(alloc, shelf, resume.snapshot) {
        Ok(plan) => show_resumed(alloc, plan, resume.steps, out, native),
        Err(fault) => End::from(fault),
    }
}

/// Reads the words, and runs their command.
pub fn run_words<F: Shelf, O: Sink>(
    alloc: Global,
    words: &[String],
    shelf: &mut F,
    out: &mut O,
    native: &mut Native,
) -> End
    requires room { HasRoomToRun native.old }
    ensures ends { Ends (asked_by (map string_bytes words.now))
        (around_of F.Shelf O.Sink shelf.old shelf.new out.old out.new native.old native.new) result }
    // What `save` wrote is lawful.
    ensures saved { HasSaved (asked_by (map string_bytes words.now))
        (around_of F.Shelf O.Sink shelf.old shelf.new out.old out.new native.old native.new) (status_of result) }
    // A command that runs no guests counts nothing.
    ensures unhosted { HostsNothing (asked_by (map string_bytes words.now)) → native.new ≡ native.old }
{
    match read_words(alloc, words) {
        Ok(Command::Bare(run)) => run_bare(alloc, &run, shelf, out),
        Ok(Command::Asm(asm)) => run_asm(alloc, &asm, shelf, out),
        Ok(Command::Dis(dis)) => run_dis(alloc, &dis, shelf, out),
        Ok(Command::Host(session)) => run_host(alloc, &session, shelf, out, native),
        Ok(Command::Compare(session)) => run_compare(alloc, &session, shelf, out, native),
        Ok(Command::Gen(workload)) => show_generated(alloc, &workload, out, native),
        Ok(Command::Debug(debug)) => run_debug(alloc, &debug, shelf, out, native),
        Ok(Command::Save(save)) => run_save(alloc, &save, shelf, out, native),
        Ok(Command::Resume(resume)) => run_resume(alloc, &resume, shelf, out, native),
        Err(WordsFault::Refused) => End::Words,
        Err(WordsFault::Memory) => End::Memory,
    }
}
