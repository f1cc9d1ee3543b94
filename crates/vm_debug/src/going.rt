//! Steps of a debugger's guest.

ghost use Rattle.std.specs.Prelude.{◌≡◌, ◌+◌, ◌*◌, ◌^◌, ◌<◌, ◌≤◌, length};
ghost use Rattle.def_guests.specs.Seats.{machine_on, IsSeated};
ghost use Rattle.vm_guest.specs.Turns.{end_by, scene, RisesByAtMost};
ghost use Rattle.vm_debug.specs.Debugs.{ends_at, going_on, is_at_break, up_to};
ghost use Rattle.vm_debug.specs.Boards.{course_of, HasCome};

use crate::debugger::Debugger;
use mb_board::{Board, Native};
use mb_model::RunState;
use vm_guest::{Guest, TurnEnd};

/// So many more steps, up to the bound.
pub(crate) fn up_to(bound: u32, guest: &Guest, board: &Board, steps: u32) -> u32
    requires room { guest.now.base + guest.now.size ≤ length board.now.world.ram }
    requires bound { guest.now.steps ≤ bound }
    ensures { result ≡ up_to bound guest.now.steps steps }
{
    steps.min(bound - guest.outcome(board).steps)
}

impl Debugger {
    /// Whether a guest is running with PC at a break point.
    pub(crate) fn is_at_break(&self, guest: &Guest, board: &Board) -> bool
        requires { guest.now.base + guest.now.size ≤ length board.now.world.ram }
        ensures { result ≡ is_at_break self.now (machine_on guest.now board.now.world.ram) }
    {
        let outcome = guest.outcome(board);
        matches!(outcome.state, RunState::Running) && self.stands(outcome.cpu.regs.pc)
    }

    /// Whether `go` ends where a turn has left a guest: at a break point, halted, or off.
    fn ends_at(&self, end: TurnEnd, guest: &Guest, board: &Board) -> bool
        requires room { guest.now.base + guest.now.size ≤ length board.now.world.ram }
        requires end { end ≡ end_by guest.now.state }
        ensures { result ≡ ends_at self.now (machine_on guest.now board.now.world.ram) }
    {
        self.is_at_break(guest, board) || end != TurnEnd::Counted
    }

    /// Takes turns of one step, until `go` ends, or so many.
    fn step_until(&self, guest: &mut Guest, board: &mut Board, limit: u32, native: &mut Native)
        requires room { guest.old.steps + limit < 2 ^ 32 }
        requires seated { IsSeated guest.old board.old.world.ram }
        requires native { (native.old.retired + limit < 2 ^ 62) × (native.old.exceptions + 32 * limit < 2 ^ 62) }
        ensures takes { let s = scene guest.old board.old.world.ram native.old in
            HasCome s (going_on (course_of s) self.now s.guest.steps limit)
            (scene guest.new board.new.world.ram native.new) }
        ensures few { guest.new.steps ≤ guest.old.steps + limit }
        ensures native { RisesByAtMost guest.old.steps guest.new.steps native.old native.new }
    {
        for _step in 0..limit {
            let end = guest.turn(board, 1, native);
            if self.ends_at(end, guest, board) {
                return;
            }
        }
    }

    /// Takes steps up to the first machine, behind at least one, at which `go` ends, or so many.
    pub(crate) fn go(&self, guest: &mut Guest, board: &mut Board, limit: u32, native: &mut Native)
        requires room { guest.old.steps + limit < 2 ^ 32 }
        requires seated { IsSeated guest.old board.old.world.ram }
        requires native { (native.old.retired + limit < 2 ^ 62) × (native.old.exceptions + 32 * limit < 2 ^ 62) }
        ensures takes { let s = scene guest.old board.old.world.ram native.old in
            HasCome s (going_on (course_of s) self.now s.guest.steps limit)
            (scene guest.new board.new.world.ram native.new) }
        ensures few { guest.new.steps ≤ guest.old.steps + limit }
        ensures native { RisesByAtMost guest.old.steps guest.new.steps native.old native.new }
    {
        if self.breaks.is_empty() {
            guest.turn(board, limit, native);
        } else {
            self.step_until(guest, board, limit, native);
        }
    }
}
