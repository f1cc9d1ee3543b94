//! A machine from its start to its outcome.

ghost use Rattle.std.specs.Prelude.{◌≡◌, ◌*◌, ◌≤◌, ◌^◌, ◌++◌, [], length, option_map, IfOk, OnOk, All, None};
ghost use Rattle.std.specs.Option.{option_map_or};
ghost use Rattle.mb_srec.specs.Image.{contents_of, LiesBelow};
ghost use Rattle.mb_model.specs.Keeping.{rule_a};
ghost use Rattle.mb_board.specs.declared.bus.TheConstants.{MOST_BOARD_BYTES};
ghost use Rattle.mb_board.specs.State.{machine_in};
ghost use Rattle.def_machine.specs.Machine.{diskless, start};
ghost use Rattle.mb_model.specs.Seen.{seen_of};
ghost use Rattle.mb_outside.specs.Prints.{Prints};
ghost use Rattle.mb_report.specs.Text.{outcome_text};
ghost use Rattle.vm_disk.specs.Text.{disk_text};
ghost use Rattle.mb_words.specs.Words.{run_said};
ghost use Rattle.mb_program.specs.Answers.{bare_machine, bare_shown, shows};
ghost use Rattle.mb_program.specs.Around.{sink_seen};
ghost use Rattle.mb_program.specs.Disks.{with_disk};
ghost use Rattle.mb_program.specs.Ends.{IsGivenUncounted};
ghost use Rattle.mb_program.specs.Said.{opening_said};

use crate::named::Parts;
use mb_board::Board;
use mb_ends::End;
use mb_model::Outcome;
use mb_outside::{Memory, Sink, SinkFault};
use mb_report::write_outcome;
use mb_srec::Image;
use mb_words::Bare;
use std::alloc::Global;
use vm_disk::{Disk, write_disk};
use vm_guest::SessionDisk;

/// A board with an image in its RAM, after reset.
#[tactic(auto, unfolding(def_machine::specs::Machine::reset_with))]
pub(crate) fn start_board(alloc: Global, image: &Image, size: u32) -> Result<Board, Memory>
    requires size { (8 ≤ size) × (size ≤ MOST_BOARD_BYTES) }
    requires in_ram { All (LiesBelow size) (contents_of image.now) }
    ensures start { IfOk result (λ board. machine_in board ≡ start rule_a (diskless (contents_of image.now)) size) }
    ensures ram { IfOk result (λ board. length board.world.ram ≡ size) }
    ensures unrun { IfOk result (λ board. board.steps ≡ 0) }
{
    let mut board = Board::new(alloc, size)?;
    board.load(0, image.chunks());
    board.reset();
    Ok(board)
}

/// Attaches the disk, where there is one, to a board that has none.
fn attach_disk(alloc: Global, board: &mut Board, disk: Option<&SessionDisk>) -> Result<(), Memory>
    requires { board.old.world.devices.disk ≡ None }
    ensures { OnOk result (machine_in board.new
        ≡ with_disk (option_map (λ d. d.now) disk.entry) (machine_in board.old)) }
{
    if let Some(disk) = disk {
        let disk = disk.open(alloc)?;
        board.devices_mut().attach(disk);
    }
    Ok(())
}

/// A board with a machine at its start: an image, and a disk, where there is one.
pub(crate) fn start_machine(
    alloc: Global,
    image: &Image,
    disk: Option<&SessionDisk>,
    size: u32,
) -> Result<Board, Memory>
    requires size { (8 ≤ size) × (size ≤ MOST_BOARD_BYTES) }
    requires in_ram { All (LiesBelow size) (contents_of image.now) }
    ensures start { IfOk result (λ board. machine_in board ≡ start rule_a
        (record { image = contents_of image.now; disk = option_map (λ d. d.now) disk.entry }) size) }
    ensures ram { IfOk result (λ board. length board.world.ram ≡ size) }
    ensures unrun { IfOk result (λ board. board.steps ≡ 0) }
{
    let mut board = start_board(alloc, image, size)?;
    attach_disk(alloc, &mut board, disk)?;
    Ok(board)
}

/// Writes the outcome of a machine, and its disk, where one is attached.
pub(crate) fn write_machine<O: Sink>(
    guest: u8,
    outcome: &Outcome,
    disk: Option<&Disk>,
    out: &mut O,
) -> Result<(), SinkFault>
    requires { length (seen_of outcome.now).ram ≤ 2 ^ 32 }
    ensures { Prints (O.taken out.old) (O.taken out.new) (O.faults out.old) (O.faults out.new)
        (outcome_text guest (seen_of outcome.now)
        ++ option_map_or (disk_text guest) (option_map (λ d. d.now) disk.entry) []) result }
{
    write_outcome(guest, outcome, out)?;
    match disk {
        Some(disk) => write_disk(guest, disk, out),
        None => Ok(()),
    }
}

/// A machine by itself after its steps.
fn run_machine(alloc: Global, run: &Bare, parts: &Parts) -> Result<Board, Memory>
    requires { All (LiesBelow (1024 * run.now.ram)) (contents_of parts.now.image) }
    ensures after { IfOk result
        (λ board. machine_in board
        ≡ bare_machine (run_said run.now) (opening_said parts.now) parts.now.script) }
    ensures ram { IfOk result (λ board. length board.world.ram ≤ MOST_BOARD_BYTES) }
{
    let mut board = start_machine(alloc, &parts.image, parts.disk.as_ref(), 1024 * run.ram)?;
    board.run_bare(&parts.script, run.steps);
    Ok(board)
}

/// Runs a machine by itself, and writes its outcome.
pub(crate) fn show_machine<O: Sink>(alloc: Global, run: &Bare, parts: &Parts, out: &mut O) -> End
    requires { All (LiesBelow (1024 * run.now.ram)) (contents_of parts.now.image) }
    ensures { IsGivenUncounted (shows (bare_shown (run_said run.now) (opening_said parts.now) parts.now.script))
        (sink_seen O.Sink out.old) (sink_seen O.Sink out.new) result }
{
    let Ok(board) = run_machine(alloc, run, parts) else {
        return End::Memory;
    };
    match write_machine(1, &board.outcome(), board.devices().disk(), out) {
        Ok(()) => End::Done,
        Err(_) => End::Output,
    }
}
