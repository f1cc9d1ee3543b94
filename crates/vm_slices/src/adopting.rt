//! Guests that go on from saved machines.

ghost use Rattle.std.specs.Prelude.{◌≡◌, ◌+◌, ◌-◌, ◌<◌, ◌≤◌, length, slice_get, IfSome, All};
ghost use Rattle.mb_saved.specs.Saved.{IsLawful};
ghost use Rattle.def_guests.specs.Seats.{IsSame, IsSeated, OnlyWithin};
ghost use Rattle.def_guests.specs.Stages.{AllSeated};
ghost use Rattle.vm_slices.specs.Adopting.{begun, bounded, CanAdopt};
ghost use Rattle.vm_slices.specs.Members.{numbered, IsBounded};
ghost use Rattle.vm_slices.specs.Places.{member_of, members_in, members_of, seats_of, with_member};

use crate::host::Host;
use crate::host_guest::HostGuest;
use mb_board::Board;
use mb_saved::SavedGuest;

impl HostGuest {
    /// A guest that has taken no step becomes a saved one.
    fn adopt(&mut self, board: &mut Board, saved: &SavedGuest)
        requires seated { IsSeated self.old.guest board.old.world.ram }
        requires can { CanAdopt saved.now (member_of board.old.world.ram self.old) }
        requires lawful { IsLawful saved.now }
        ensures member { member_of board.new.world.ram self.new
            ≡ begun saved.now (member_of board.old.world.ram self.old) }
        ensures same { IsSame self.old.guest self.new.guest }
        ensures seated { IsSeated self.new.guest board.new.world.ram }
        ensures within { OnlyWithin self.old.guest board.old.world.ram board.new.world.ram }
    {
        self.guest.adopt(board, saved);
    }
}

/// A guest that has taken no step becomes a saved one. Every other guest stays as it is.
fn adopt(board: &mut Board, guests: &mut [HostGuest], place: usize, saved: &SavedGuest)
    requires place { place < length guests.old }
    requires stand { AllSeated (seats_of guests.old) board.old.world.ram }
    requires bounds { All IsBounded (members_of guests.old board.old.world.ram) }
    requires can { IfSome (slice_get (members_of guests.old board.old.world.ram) place) (CanAdopt saved.now) }
    requires lawful { IsLawful saved.now }
    ensures adopted { members_of guests.new board.new.world.ram
        ≡ with_member place (begun saved.now) (members_of guests.old board.old.world.ram) }
    ensures stand { AllSeated (seats_of guests.new) board.new.world.ram }
    ensures bounds { All IsBounded (members_of guests.new board.new.world.ram) }
{
    guests[place].adopt(board, saved);
}

/// A guest takes so many steps at most. Every other guest stays as it is.
fn set_bound(board: &Board, guests: &mut [HostGuest], place: usize, steps: u32)
    requires place { place < length guests.old }
    requires stand { AllSeated (seats_of guests.old) board.now.world.ram }
    requires bounds { All IsBounded (members_of guests.old board.now.world.ram) }
    ensures bound { members_of guests.new board.now.world.ram
        ≡ with_member place (bounded steps) (members_of guests.old board.now.world.ram) }
    ensures stand { AllSeated (seats_of guests.new) board.now.world.ram }
    ensures bounds { All IsBounded (members_of guests.new board.now.world.ram) }
{
    guests[place].bound = steps;
}

impl Host {
    /// A guest that has taken no step, and has as much RAM, becomes a saved one: its machine, but for its disk, is the
    /// saved one, nothing is in its shadow, and nothing is counted. Its bound and its script stay, and of the script
    /// counts what comes at later steps than the saved ones. It takes no memory.
    pub fn adopt(&mut self, guest: u8, saved: &SavedGuest)
        requires number { (1 ≤ guest) × (guest ≤ length (members_in self.old)) }
        requires can { IfSome (numbered guest (members_in self.old)) (CanAdopt saved.now) }
        requires lawful { IsLawful saved.now }
        ensures adopted { members_in self.new ≡ with_member (guest - 1) (begun saved.now) (members_in self.old) }
        ensures slice { self.new.slice ≡ self.old.slice }
    {
        let place = guest as usize - 1;
        adopt(&mut self.board, &mut self.guests, place, saved);
    }

    /// A guest takes so many steps at most, those counted that it has taken.
    pub fn set_bound(&mut self, guest: u8, steps: u32)
        requires number { (1 ≤ guest) × (guest ≤ length (members_in self.old)) }
        ensures bound { members_in self.new ≡ with_member (guest - 1) (bounded steps) (members_in self.old) }
        ensures slice { self.new.slice ≡ self.old.slice }
    {
        let place = guest as usize - 1;
        set_bound(&self.board, &mut self.guests, place, steps);
    }
}
