//! Rounds: in each, every guest takes its turn.

ghost use Rattle.std.specs.Prelude.{◌≡◌, ◌≢◌, ℕ, ◌<◌, ◌≤◌, length, slice_get, true, All};
ghost use Rattle.def_guests.specs.Rounds.{all_done, left_of_all, members_after, marks_after, exceptions_after};
ghost use Rattle.def_guests.specs.Stages.{AllSeated};
ghost use Rattle.vm_slices.specs.Counting.{AreCounted, HasRoom, RisesBy};
ghost use Rattle.vm_slices.specs.Members.{going, IsBounded};
ghost use Rattle.vm_slices.specs.Places.{members_of, seats_of, with_turn, exceptions_at, marks_at};

use crate::host_guest::HostGuest;
use mb_board::{Board, Native};

/// The turn of one guest. Every other guest stays as it is.
pub(crate) fn take_turn(
    board: &mut Board,
    guests: &mut [HostGuest],
    place: usize,
    slice: u32,
    native: &mut Native,
)
    requires place { place < length guests.old }
    requires stand { AllSeated (seats_of guests.old) board.old.world.ram }
    requires bounds { All IsBounded (members_of guests.old board.old.world.ram) }
    requires room { HasRoom (left_of_all (members_of guests.old board.old.world.ram)) native.old }
    ensures turn { members_of guests.new board.new.world.ram
        ≡ with_turn slice place (members_of guests.old board.old.world.ram) }
    ensures others { (other : ℕ) → other ≢ place → slice_get (members_of guests.new board.new.world.ram) other
        ≡ slice_get (members_of guests.old board.old.world.ram) other }
    ensures counts { AreCounted (members_of guests.old board.old.world.ram) (members_of guests.new board.new.world.ram)
        (marks_at slice place (members_of guests.old board.old.world.ram))
        (exceptions_at slice place (members_of guests.old board.old.world.ram)) native.old native.new }
    ensures stand { AllSeated (seats_of guests.new) board.new.world.ram }
    ensures bounds { All IsBounded (members_of guests.new board.new.world.ram) }
    ensures rises { RisesBy (left_of_all (members_of guests.old board.old.world.ram))
        (left_of_all (members_of guests.new board.new.world.ram)) native.old native.new }
{
    guests[place].take_turn(board, slice, native);
}

/// A round: every guest in turn.
pub(crate) fn take_round(
    board: &mut Board,
    guests: &mut [HostGuest],
    slice: u32,
    native: &mut Native,
)
    requires stand { AllSeated (seats_of guests.old) board.old.world.ram }
    requires bounds { All IsBounded (members_of guests.old board.old.world.ram) }
    requires room { HasRoom (left_of_all (members_of guests.old board.old.world.ram)) native.old }
    ensures members { members_of guests.new board.new.world.ram
        ≡ members_after slice (members_of guests.old board.old.world.ram) }
    ensures counts { AreCounted (members_of guests.old board.old.world.ram) (members_of guests.new board.new.world.ram)
        (marks_after slice (members_of guests.old board.old.world.ram))
        (exceptions_after slice (members_of guests.old board.old.world.ram)) native.old native.new }
    ensures stand { AllSeated (seats_of guests.new) board.new.world.ram }
    ensures bounds { All IsBounded (members_of guests.new board.new.world.ram) }
    ensures rises { RisesBy (left_of_all (members_of guests.old board.old.world.ram))
        (left_of_all (members_of guests.new board.new.world.ram)) native.old native.new }
{
    for place in 0..guests.len() {
        take_turn(board, guests, place, slice, native);
    }
}

/// Whether all guests have done their steps, or are halted or off.
pub(crate) fn are_done(board: &Board, guests: &[HostGuest]) -> bool
    requires { AllSeated (seats_of guests.now) board.now.world.ram }
    ensures { result ≡ all_done (members_of guests.now board.now.world.ram) }
{
    for guest in guests {
        if !guest.is_done(board) {
            return false;
        }
    }
    true
}

/// Whether no more than one guest has steps left.
pub(crate) fn is_one_left(board: &Board, guests: &[HostGuest]) -> bool
    requires { AllSeated (seats_of guests.now) board.now.world.ram }
    ensures { result ≡ true → going (members_of guests.now board.now.world.ram) ≤ 1 }
{
    let mut some = false;
    for guest in guests {
        if !guest.is_done(board) {
            if some {
                return false;
            }
            some = true;
        }
    }
    true
}
