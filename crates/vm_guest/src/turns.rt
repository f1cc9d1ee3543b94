//! A guest's turns.

ghost use Rattle.std.specs.Prelude.{◌≡◌, ◌+◌, ◌^◌, ◌<◌, ◌≤◌, true, false};
ghost use Rattle.mb_model.specs.Keeping.{rule_k};
ghost use Rattle.def_machine.specs.Machine.{run_of, takes_steps};
ghost use Rattle.def_runs.specs.Free.{IsFreeRun};
ghost use Rattle.def_guests.specs.Seats.{machine_on, IsSeated, Takes};
ghost use Rattle.vm_guest.specs.Turns.{end_by, scene, GoesOnFreely, IsReset, RisesByAtMost};

use crate::guest::Guest;
use crate::turn_end::TurnEnd;
use mb_board::{Board, Native, takes_steps};

impl Guest {
    /// Takes so many steps, or fewer where the guest is halted or off.
    fn take_steps(&mut self, board: &mut Board, limit: u32, native: &mut Native)
        requires room { self.old.steps + limit < 2 ^ 32 }
        requires seated { IsSeated self.old board.old.world.ram }
        requires native { (native.old.retired < 2 ^ 62) × (native.old.exceptions < 2 ^ 62) }
        ensures takes { Takes limit (scene self.old board.old.world.ram native.old)
            (scene self.new board.new.world.ram native.new) }
        ensures steps { takes_steps self.new.state ≡ true → self.new.steps ≡ self.old.steps + limit }
        ensures few { self.new.steps ≤ self.old.steps + limit }
        ensures native { RisesByAtMost self.old.steps self.new.steps native.old native.new }
    {
        let mut left = limit;
        let mut ready = false;
        while left > 0 {
            if !takes_steps(self.state) {
                return;
            }
            let advance = self.advance(board, left, native, ready);
            ready = advance.ready;
            left -= advance.steps;
        }
    }

    /// A turn: takes so many steps, or fewer where the guest is halted or off.
    ///
    /// Nothing of the board counts but the guest's RAM and area, which are as `prepare` or the guest's last turn left
    /// them. It changes no byte outside the guest's RAM and area and the board's first 65,536 bytes, and takes no
    /// memory. The board carries out the guest's retired steps, and `native` counts them. The board is left as it is
    /// after a reset, but for its memory; where the guest was halted or off before, it stays as it was.
    pub fn turn(&mut self, board: &mut Board, limit: u32, native: &mut Native) -> TurnEnd
        requires room { self.old.steps + limit < 2 ^ 32 }
        requires seated { IsSeated self.old board.old.world.ram }
        requires native { (native.old.retired < 2 ^ 62) × (native.old.exceptions < 2 ^ 62) }
        ensures takes { Takes limit (scene self.old board.old.world.ram native.old)
            (scene self.new board.new.world.ram native.new) }
        ensures machine { machine_on self.new board.new.world.ram
            ≡ run_of rule_k self.old.script limit (machine_on self.old board.old.world.ram) }
        ensures free { GoesOnFreely self.old.script limit
            (machine_on self.old board.old.world.ram) (machine_on self.new board.new.world.ram) }
        ensures free_on { IsFreeRun self.old.script limit
            (machine_on self.old board.old.world.ram) (machine_on self.new board.new.world.ram) }
        ensures end { result ≡ end_by self.new.state }
        ensures counted { result ≡ TurnEnd.Counted → self.new.steps ≡ self.old.steps + limit }
        ensures few { self.new.steps ≤ self.old.steps + limit }
        ensures native { RisesByAtMost self.old.steps self.new.steps native.old native.new }
        ensures stays { takes_steps self.old.state ≡ false → (self.new ≡ self.old)
            × (board.new ≡ board.old) × (native.new ≡ native.old) }
        ensures board { takes_steps self.old.state ≡ true → IsReset board.new }
    {
        if !takes_steps(self.state) {
            return TurnEnd::by(self.state);
        }
        self.take_steps(board, limit, native);
        board.reset();
        TurnEnd::by(self.state)
    }
}
