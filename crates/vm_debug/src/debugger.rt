//! Commands carried out.

ghost use Rattle.std.specs.Prelude.{◌≡◌, ◌+◌, ◌-◌, ◌*◌, ◌^◌, ◌<◌, ◌≤◌, OnErr, OnOk, length};
ghost use Rattle.mb_outside.specs.Prints.{Prints};
ghost use Rattle.def_guests.specs.Seats.{machine_on, IsSeated};
ghost use Rattle.vm_guest.specs.Turns.{scene, RisesByAtMost};
ghost use Rattle.vm_debug.specs.Debugs.{after, break_line, clear_line, debugged, end_line, printed, printed_by};
ghost use Rattle.vm_debug.specs.Debugs.{with_break, without_break};
ghost use Rattle.vm_debug.specs.Boards.{course_of, debugging_of, HasBecome, IsCut};

use crate::command::{Command, Commands};
use crate::going::up_to;
use crate::printing::{print_address, print_kept, print_place, print_registers, print_rows};
use arrayvec::ArrayVec;
use mb_board::{Board, Native};
use mb_outside::{Sink, SinkFault, put_all};
use std::marker::Model;
use vm_guest::Guest;

/// The most break points.
pub const MOST_BREAKS: usize = 64;

/// A debugger's break points, a set of at most 64 addresses. It takes no memory.
#[derive(Drop)]
pub struct Debugger {
    pub(crate) breaks: ArrayVec<u32, MOST_BREAKS>,
}

impl Model for Debugger {
    ghost use Rattle.std.specs.Prelude.{ℕ, List};

    ghost Value = { List ℕ };

    ghost view = { λ debugger. debugger.breaks.items };
}

impl Debugger {
    /// Carries out commands on a guest and prints their lines, each command's once it is carried out.
    ///
    /// `step` and `go` take no step past `bound`, a number of steps since the guest's start. Nothing of the board
    /// counts but the guest's RAM and area, as for a turn. No memory is taken. Where the sink fails, the command whose
    /// lines it did not take is the last that is carried out.
    pub fn run_commands<O: Sink>(
        &mut self,
        commands: &Commands,
        guest: &mut Guest,
        board: &mut Board,
        bound: u32,
        native: &mut Native,
        out: &mut O,
    ) -> Result<(), SinkFault>
        requires bound { guest.old.steps ≤ bound }
        requires seated { IsSeated guest.old board.old.world.ram }
        requires native { (native.old.retired < 2 ^ 61) × (native.old.exceptions < 2 ^ 61) }
        ensures prints { let s = scene guest.old board.old.world.ram native.old in
            Prints (O.taken out.old) (O.taken out.new) (O.faults out.old) (O.faults out.new)
            (printed (course_of s) bound commands.now (debugging_of s self.old)) result }
        ensures does { let s = scene guest.old board.old.world.ram native.old in
            OnOk result (HasBecome (debugged (course_of s) bound commands.now (debugging_of s self.old)) s
            (scene guest.new board.new.world.ram native.new) self.new) }
        ensures cut { OnErr result (IsCut bound commands.now (scene guest.old board.old.world.ram native.old)
            (scene guest.new board.new.world.ram native.new) self.old self.new
            (O.taken out.old) (O.taken out.new) (O.faults out.old) (O.faults out.new)) }
        ensures few { guest.new.steps ≤ bound }
        ensures native { RisesByAtMost guest.old.steps guest.new.steps native.old native.new }
    {
        for &command in &commands.commands {
            self.carry_out(command, guest, board, bound, native, out)?;
        }
        Ok(())
    }

    /// Carries out a command and prints its lines.
    fn carry_out<O: Sink>(
        &mut self,
        command: Command,
        guest: &mut Guest,
        board: &mut Board,
        bound: u32,
        native: &mut Native,
        out: &mut O,
    ) -> Result<(), SinkFault>
        requires bound { guest.old.steps ≤ bound }
        requires room { bound < 2 ^ 32 }
        requires seated { IsSeated guest.old board.old.world.ram }
        requires native { (native.old.retired + (bound - guest.old.steps) < 2 ^ 62)
            × (native.old.exceptions + 32 * (bound - guest.old.steps) < 2 ^ 62) }
        ensures does { let s = scene guest.old board.old.world.ram native.old in
            HasBecome (after (course_of s) bound command (debugging_of s self.old)) s
            (scene guest.new board.new.world.ram native.new) self.new }
        ensures prints { Prints (O.taken out.old) (O.taken out.new) (O.faults out.old) (O.faults out.new)
            (printed_by command self.old (machine_on guest.new board.new.world.ram)) result }
        ensures few { guest.new.steps ≤ bound }
        ensures native { RisesByAtMost guest.old.steps guest.new.steps native.old native.new }
    {
        match command {
            Command::Step(steps) => {
                guest.turn(board, up_to(bound, guest, board, steps), native);
                print_place(guest, board, b"", out)
            }
            Command::Go(steps) => {
                self.go(guest, board, up_to(bound, guest, board, steps), native);
                self.print_end(guest, board, out)
            }
            Command::Break(at) => self.add_break(at, out),
            Command::Clear(at) => self.clear_break(at, out),
            Command::Regs => print_registers(guest, board, out),
            Command::Mem(at, count) => print_rows(guest, board, at, count, out),
            Command::Kept => print_kept(guest, out),
        }
    }

    /// Prints where a guest is, and whether that is at a break point.
    fn print_end<O: Sink>(&self, guest: &Guest, board: &Board, out: &mut O) -> Result<(), SinkFault>
        requires { guest.now.base + guest.now.size ≤ length board.now.world.ram }
        ensures { Prints (O.taken out.old) (O.taken out.new) (O.faults out.old) (O.faults out.new)
            (end_line self.now (machine_on guest.now board.now.world.ram)) result }
    {
        if self.is_at_break(guest, board) {
            print_place(guest, board, b" break", out)
        } else {
            print_place(guest, board, b"", out)
        }
    }

    /// Adds a break point, and prints whether there is room.
    fn add_break<O: Sink>(&mut self, at: u32, out: &mut O) -> Result<(), SinkFault>
        ensures added { self.new ≡ with_break at self.old }
        ensures prints { Prints (O.taken out.old) (O.taken out.new) (O.faults out.old) (O.faults out.new)
            (break_line at self.old) result }
    {
        if self.add(at) {
            print_address(b"break", at, out)
        } else {
            put_all(out, b"full\n")
        }
    }

    /// Removes a break point, and prints whether there was one.
    fn clear_break<O: Sink>(&mut self, at: u32, out: &mut O) -> Result<(), SinkFault>
        ensures removed { self.new ≡ without_break at self.old }
        ensures prints { Prints (O.taken out.old) (O.taken out.new) (O.faults out.old) (O.faults out.new)
            (clear_line at self.old) result }
    {
        if self.remove(at) {
            print_address(b"clear", at, out)
        } else {
            put_all(out, b"none\n")
        }
    }
}
