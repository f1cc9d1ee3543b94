//! A guest of a session under the debugger.

ghost use Rattle.std.specs.Prelude.{◌≡◌, ◌+◌, ◌^◌, ◌<◌, ◌≤◌, [], ◌++◌, IfOk, None, OnOk, Some, length};
ghost use Rattle.mb_outside.specs.Prints.{Prints};
ghost use Rattle.mb_board.specs.declared.bus.TheConstants.{MOST_BOARD_BYTES};
ghost use Rattle.def_guests.specs.Seats.{IsSeated};
ghost use Rattle.def_guests.specs.declared.limits.TheConstants.{MONITOR_BYTES};
ghost use Rattle.vm_guest.specs.Session.{GuestAtStart, IsGuest, IsSession};
ghost use Rattle.vm_guest.specs.Turns.{RisesByAtMost};
ghost use Rattle.vm_slices.specs.Fit.{Fits, share_of};
ghost use Rattle.vm_slices.specs.Members.{numbered, with_disk};
ghost use Rattle.vm_debug.specs.Boards.{course_of, debugging_of, HasCome};
ghost use Rattle.vm_debug.specs.Debugs.{printed};
ghost use Rattle.mb_program.specs.Answers.{if_it_fits};
ghost use Rattle.mb_program.specs.Around.{sink_seen};
ghost use Rattle.mb_program.specs.Debugs.{debug_shown};
ghost use Rattle.mb_program.specs.Direct.{HasRoomToRun};
ghost use Rattle.mb_program.specs.Ends.{IsGiven};
ghost use Rattle.mb_program.specs.Headline.{machine_text};
ghost use Rattle.mb_program.specs.Lone.{end_of, scene_of, IsAtStart};

use crate::machine::write_machine;
use def_guests::MONITOR_BYTES;
use mb_board::{Board, Native};
use mb_ends::End;
use mb_outside::{Memory, Sink, SinkFault};
use mb_walk::Ram;
use std::alloc::Global;
use vm_debug::{Commands, Debugger};
use vm_guest::{Guest, Session, SessionDisk, SessionGuest};
use vm_slices::judge_fit;

/// A session, and the commands for a guest of it.
#[derive(Drop)]
pub(crate) struct DebuggedSession {
    pub(crate) session: Session,
    pub(crate) commands: Commands,
}

/// A guest alone on a board, and how many steps it takes at most.
#[derive(Drop)]
struct LoneGuest {
    guest: Guest,
    board: Board,
    bound: u32,
}

/// Attaches the disk, where there is one, to a guest that has none.
fn attach_disk(alloc: Global, guest: &mut Guest, disk: Option<SessionDisk>) -> Result<(), Memory>
    requires { guest.old.devices.disk ≡ None }
    ensures { OnOk result (guest.new ≡ with_disk disk guest.old) }
{
    if let Some(disk) = disk {
        let disk = disk.open(alloc)?;
        guest.devices_mut().attach(disk);
    }
    Ok(())
}

impl LoneGuest {
    /// A guest at its start, on a board of so many bytes.
    fn prepare(alloc: Global, guest: SessionGuest, size: u32) -> Result<LoneGuest, Memory>
        requires guest { IsGuest guest }
        requires room { MONITOR_BYTES + share_of guest ≤ size }
        requires size { size ≤ MOST_BOARD_BYTES }
        ensures { IfOk result (IsAtStart guest) }
    {
        let mut board = Board::new(alloc, size)?;
        let ram = guest.ram();
        let bound = guest.steps();
        let (image, script, disk) = guest.into_parts();
        let mut guest = Guest::prepare(alloc, image, script, ram, MONITOR_BYTES, &mut board)?;
        attach_disk(alloc, &mut guest, disk)?;
        Ok(LoneGuest {
            guest,
            board,
            bound,
        })
    }

    /// The guest of this number of a session that fits, at its start on the session's board.
    fn of_session(alloc: Global, session: Session, number: u8) -> Result<LoneGuest, Memory>
        requires session { IsSession session }
        requires fits { Fits session }
        requires number { (1 ≤ number) × (number ≤ length session.guests) }
        ensures { IfOk result (λ lone. (guest : GuestAtStart) → numbered number session.guests ≡ Some guest
            → IsAtStart guest lone) }
    {
        let size = session.board();
        let mut guests = session.into_guests();
        LoneGuest::prepare(alloc, guests.swap_remove(number as usize - 1), size)
    }

    /// Carries out commands and prints their lines, and then the guest's outcome and its disk.
    fn debug<O: Sink>(
        &mut self,
        commands: &Commands,
        number: u8,
        out: &mut O,
        native: &mut Native,
    ) -> Result<(), SinkFault>
        requires bound { self.old.guest.steps ≤ self.old.bound }
        requires seated { IsSeated self.old.guest self.old.board.world.ram }
        requires native { HasRoomToRun native.old }
        ensures prints { let s = scene_of self.old native.old in
            Prints (O.taken out.old) (O.taken out.new) (O.faults out.old) (O.faults out.new)
            (printed (course_of s) self.old.bound commands.now (debugging_of s [])
            ++ machine_text number (course_of s (end_of s self.old.bound commands.now))) result }
        ensures come { let s = scene_of self.old native.old in
            OnOk result (HasCome s (end_of s self.old.bound commands.now) (scene_of self.new native.new)) }
        ensures native { RisesByAtMost self.old.guest.steps self.new.guest.steps native.old native.new }
    {
        let mut debugger = Debugger::new();
        debugger.run_commands(
            commands,
            &mut self.guest,
            &mut self.board,
            self.bound,
            native,
            out,
        )?;
        let _size = self.board.size();
        let outcome = self.guest.outcome(&self.board);
        write_machine(number, &outcome, self.guest.devices().disk(), out)
    }
}

/// Carries out the commands for the guest of this number, alone on its session's board, and writes their lines, its
/// outcome and its disk. No machine is made where the session does not fit, and all memory is taken before the first
/// line is written.
pub(crate) fn show_debugged<O: Sink>(
    alloc: Global,
    debugged: DebuggedSession,
    number: u8,
    out: &mut O,
    native: &mut Native,
) -> End
    requires session { IsSession debugged.session }
    requires number { (1 ≤ number) × (number ≤ length debugged.session.guests) }
    requires room { HasRoomToRun native.old }
    ensures { IsGiven (if_it_fits debugged.session (debug_shown number debugged.session.guests debugged.commands))
        (sink_seen O.Sink out.old) (sink_seen O.Sink out.new) native.old native.new result }
{
    let DebuggedSession { session, commands } = debugged;
    if let Err(fault) = judge_fit(&session) {
        return End::from(fault);
    }
    let Ok(mut lone) = LoneGuest::of_session(alloc, session, number) else {
        return End::Memory;
    };
    match lone.debug(&commands, number, out, native) {
        Ok(()) => End::Done,
        Err(_) => End::Output,
    }
}
