//! One guest of a session on its board.

ghost use Rattle.std.specs.Prelude.{◌≡◌, ◌+◌, ◌%◌, ◌^◌, ◌<◌, ◌≤◌, [], ◌∷◌, length, IfOk, None, OnOk};
ghost use Rattle.vm_shadow.specs.declared.area.TheConstants.{AREA_BYTES};
ghost use Rattle.def_guests.specs.Seats.{IsSame, IsSeated, OnlyWithin};
ghost use Rattle.def_guests.specs.declared.limits.TheConstants.{MONITOR_BYTES};
ghost use Rattle.def_guests.specs.Rounds.{left, is_done, turn_in};
ghost use Rattle.vm_guest.specs.Memory.{OnlyBetween};
ghost use Rattle.vm_guest.specs.Session.{IsGuest};
ghost use Rattle.vm_slices.specs.Counting.{AreCounted, HasRoom, RisesBy};
ghost use Rattle.vm_slices.specs.Members.{after_turn, member_at_start, with_disk};
ghost use Rattle.vm_slices.specs.Places.{member_of};

use mb_board::{Board, Native, takes_steps};
use mb_outside::Memory;
use std::alloc::Global;
use vm_guest::{Guest, SessionDisk, SessionGuest};

/// A guest, and how many steps it takes at most.
#[derive(Drop)]
pub(crate) struct HostGuest {
    pub(crate) guest: Guest,
    pub(crate) bound: u32,
}

/// Attaches the disk, where there is one, to a guest that has none.
fn attach_disk(alloc: Global, guest: &mut Guest, disk: Option<SessionDisk>) -> Result<(), Memory>
    requires { guest.old.devices.disk ≡ None }
    ensures { OnOk result (guest.new ≡ with_disk disk guest.old) }
{
    if let Some(disk) = disk {
        let disk = disk.open(alloc)?;
        guest.devices_mut().attach(disk);
    }
    Ok(())
}

impl HostGuest {
    /// A guest at its start, from this place of the board on.
    pub(crate) fn prepare(
        alloc: Global,
        guest: SessionGuest,
        base: u32,
        board: &mut Board,
    ) -> Result<HostGuest, Memory>
        requires guest { IsGuest guest }
        requires base { (MONITOR_BYTES ≤ base) × (base % AREA_BYTES ≡ 0) }
        requires inside { base + guest.ram + AREA_BYTES ≤ length board.old.world.ram }
        ensures start { IfOk result (λ host. member_of board.new.world.ram host ≡ member_at_start guest) }
        ensures place { IfOk result (λ host. (host.guest.base ≡ base) × (host.guest.size ≡ guest.ram)) }
        ensures seated { IfOk result (λ host. IsSeated host.guest board.new.world.ram) }
        ensures bound { IfOk result (λ host. host.bound < 2 ^ 32) }
        ensures within { OnlyBetween base (base + guest.ram + AREA_BYTES) board.old.world.ram board.new.world.ram }
    {
        let ram = guest.ram();
        let bound = guest.steps();
        let (image, script, disk) = guest.into_parts();
        let mut guest = Guest::prepare(alloc, image, script, ram, base, board)?;
        attach_disk(alloc, &mut guest, disk)?;
        Ok(HostGuest { guest, bound })
    }

    /// How many steps it has left: none where it is halted or off.
    pub(crate) fn left(&self, board: &Board) -> u32
        requires { IsSeated self.now.guest board.now.world.ram }
        ensures left { result ≡ left (member_of board.now.world.ram self.now) }
        ensures room { self.now.guest.steps + result < 2 ^ 32 }
    {
        let outcome = self.guest.outcome(board);
        if takes_steps(outcome.state) {
            self.bound.saturating_sub(outcome.steps)
        } else {
            0
        }
    }

    /// Whether it has done its steps, or is halted or off.
    pub(crate) fn is_done(&self, board: &Board) -> bool
        requires { IsSeated self.now.guest board.now.world.ram }
        ensures { result ≡ is_done (member_of board.now.world.ram self.now) }
    {
        self.left(board) == 0
    }

    /// Its turn of a round: up to a slice of steps, as many as it has left.
    pub(crate) fn take_turn(&mut self, board: &mut Board, slice: u32, native: &mut Native)
        requires seated { IsSeated self.old.guest board.old.world.ram }
        requires room { HasRoom (left (member_of board.old.world.ram self.old)) native.old }
        ensures turn { member_of board.new.world.ram self.new
            ≡ after_turn slice (member_of board.old.world.ram self.old) }
        ensures counts { AreCounted (member_of board.old.world.ram self.old ∷ [])
            (member_of board.new.world.ram self.new ∷ [])
            (turn_in slice (member_of board.old.world.ram self.old)).marks
            (turn_in slice (member_of board.old.world.ram self.old)).exceptions native.old native.new }
        ensures rises { RisesBy (left (member_of board.old.world.ram self.old))
            (left (member_of board.new.world.ram self.new)) native.old native.new }
        ensures same { IsSame self.old.guest self.new.guest }
        ensures seated { IsSeated self.new.guest board.new.world.ram }
        ensures within { OnlyWithin self.old.guest board.old.world.ram board.new.world.ram }
    {
        let steps = slice.min(self.left(board));
        self.guest.turn(board, steps, native);
    }
}
