//! A board with all guests of a session.

ghost use Rattle.std.specs.Prelude.{◌≡◌, ◌⊎◌, ◌+◌, ◌-◌, ◌^◌, ◌<◌, ◌≤◌, length, map, true};
ghost use Rattle.std.specs.Prelude.{Some, IfOk, IfErr, IfSome, All};
ghost use Rattle.mb_model.specs.Seen.{seen_of};
ghost use Rattle.def_guests.specs.Rounds.{all_done, left_of_all, members_after, marks_after, exceptions_after};
ghost use Rattle.def_guests.specs.Stages.{AllSeated};
ghost use Rattle.vm_guest.specs.Session.{IsGuest, IsSession};
ghost use Rattle.vm_slices.specs.declared.open_fault.OpenFault.TheVariants as open_fault;
ghost use Rattle.vm_slices.specs.Fit.{need_of, Fits};
ghost use Rattle.vm_guest.specs.Counting.{tally_in};
ghost use Rattle.mb_script.specs.Plan.{IsTurnOf};
ghost use Rattle.mb_script.specs.declared.sizes.TheConstants.{MOST_GUESTS};
ghost use Rattle.vm_slices.specs.Adopting.{kept_at, scripts_of, KeepsLawfully};
ghost use Rattle.vm_slices.specs.Counting.{AreCounted, HasRoom, RisesBy};
ghost use Rattle.vm_slices.specs.Members.{member_at_start, machine_at_end, tally_at_end, after_rounds, IsBounded};
ghost use Rattle.vm_slices.specs.Members.{going, machines_of, tallies_of, devices_of, shown_of, numbered};
ghost use Rattle.vm_slices.specs.Orders.{after_order, each_given, machines_given};
ghost use Rattle.vm_slices.specs.Places.{exceptions_at, marks_at, members_in, members_of, seats_of, with_turn};

use crate::fit::judge_fit;
use crate::host_guest::HostGuest;
use crate::open_fault::OpenFault;
use crate::rounds::{are_done, is_one_left, take_round, take_turn};
use def_guests::MONITOR_BYTES;
use mb_board::{Board, Native};
use mb_devices::Devices;
use mb_model::{Kept, Outcome};
use mb_outside::Memory;
use mb_script::{Script, Turn};
use mb_walk::Ram;
use std::alloc::Global;
use std::marker::Model;
use vm_guest::{Counts, Session, SessionGuest};
use vm_shadow::AREA_BYTES;

/// All guests of a session on their board. Guests are numbered from 1.
#[derive(Drop)]
pub struct Host {
    pub(crate) board: Board,
    /// How many steps a turn has at most.
    pub(crate) slice: u32,
    pub(crate) guests: Vec<HostGuest>,
}

impl Model for Host {
    ghost use Rattle.vm_slices.specs.Places.{HostState, IsHost};

    ghost Value = { HostState };

    ghost view = { λ h. record { slice = h.slice; guests = h.guests.items; ram = h.board.world.ram } };

    ghost invariant = { λ h. IsHost h.slice h.guests.items h.board.world.ram };
}

/// Prepares guests on a board, one after the other behind the monitor's bytes.
fn prepare_guests(
    alloc: Global,
    guests: Vec<SessionGuest>,
    board: &mut Board,
) -> Result<Vec<HostGuest>, Memory>
    requires guests { All IsGuest guests.items }
    requires room { need_of guests.items ≤ length board.old.world.ram }
    requires small { length board.old.world.ram < 2 ^ 32 }
    ensures members { IfOk result (λ hosts. members_of hosts.items board.new.world.ram
        ≡ map member_at_start guests.items) }
    ensures stand { IfOk result (λ hosts. AllSeated (seats_of hosts.items) board.new.world.ram) }
    ensures bounds { IfOk result (λ hosts. All IsBounded (members_of hosts.items board.new.world.ram)) }
{
    let mut prepared = Vec::with_capacity(alloc, guests.len())?;
    let mut base = MONITOR_BYTES;
    for guest in guests {
        let end = base + guest.ram() + AREA_BYTES;
        let host_guest = HostGuest::prepare(alloc, guest, base, board)?;
        prepared.push(host_guest)?;
        base = end;
    }
    Ok(prepared)
}

impl Host {
    /// A board with the guests of a session, each at its start. All memory is taken here that the guests will need;
    /// nothing is made of a session that does not fit.
    pub fn prepare(alloc: Global, session: Session) -> Result<Host, OpenFault>
        requires { IsSession session }
        ensures members { IfOk result (λ host. members_in host ≡ map member_at_start session.guests) }
        ensures slice { IfOk result (λ host. host.slice ≡ session.slice) }
        ensures fits { Fits session → IfErr result (λ fault. fault ≡ open_fault.Memory) }
        ensures oversize { session.board < need_of session.guests
            → result ≡ Err (open_fault.Oversize (need_of session.guests) session.board) }
    {
        judge_fit(&session)?;
        let slice = session.slice();
        let mut board = Board::new(alloc, session.board())?;
        let guests = prepare_guests(alloc, session.into_guests(), &mut board)?;
        Ok(Host {
            board,
            slice,
            guests,
        })
    }

    /// How many guests there are.
    pub fn guest_count(&self) -> u8
        ensures count { result ≡ length (members_in self.now) }
        ensures few { result ≤ MOST_GUESTS }
        ensures bounds { All IsBounded (members_in self.now) }
    {
        self.guests.len() as u8
    }

    fn is_done(&self) -> bool
        ensures done { result ≡ all_done (members_in self.now) }
        ensures slice { 1 ≤ self.now.slice }
    {
        are_done(&self.board, &self.guests)
    }

    /// How many steps a turn of the next round has at most: a slice, but all that are left where no other guest waits
    /// for its turn.
    fn next_slice(&self) -> u32
        ensures some { 1 ≤ self.now.slice → 1 ≤ result }
        ensures slice { (result ≡ self.now.slice) ⊎ (going (members_in self.now) ≤ 1) }
    {
        if is_one_left(&self.board, &self.guests) {
            u32::MAX
        } else {
            self.slice
        }
    }

    /// A round, of turns of no more than so many steps.
    fn take_round(&mut self, slice: u32, native: &mut Native)
        requires room { HasRoom (left_of_all (members_in self.old)) native.old }
        ensures members { members_in self.new ≡ members_after slice (members_in self.old) }
        ensures counts { AreCounted (members_in self.old) (members_in self.new)
            (marks_after slice (members_in self.old))
            (exceptions_after slice (members_in self.old)) native.old native.new }
        ensures slice { self.new.slice ≡ self.old.slice }
        ensures rises { RisesBy (left_of_all (members_in self.old)) (left_of_all (members_in self.new))
            native.old native.new }
    {
        take_round(&mut self.board, &mut self.guests, slice, native);
    }

    /// The turn of one guest, of no more steps than it has left.
    fn take_turn(&mut self, turn: Turn, native: &mut Native)
        requires number { IsTurnOf (length (members_in self.old)) turn }
        requires room { HasRoom (left_of_all (members_in self.old)) native.old }
        ensures turn { members_in self.new ≡ with_turn turn.steps (turn.guest - 1) (members_in self.old) }
        ensures counts { AreCounted (members_in self.old) (members_in self.new)
            (marks_at turn.steps (turn.guest - 1) (members_in self.old))
            (exceptions_at turn.steps (turn.guest - 1) (members_in self.old)) native.old native.new }
        ensures slice { self.new.slice ≡ self.old.slice }
        ensures rises { RisesBy (left_of_all (members_in self.old)) (left_of_all (members_in self.new))
            native.old native.new }
    {
        let place = turn.guest as usize - 1;
        take_turn(&mut self.board, &mut self.guests, place, turn.steps, native);
    }

    /// Turns, one after the other: in each a guest takes so many steps, but no more than it has left. It refuses
    /// nothing and takes no memory. The board carries out the retired steps, and `native` counts them.
    pub fn run_order(&mut self, turns: &[Turn], native: &mut Native)
        requires turns { All (IsTurnOf (length (members_in self.old))) turns.now }
        requires native { (native.old.retired < 2 ^ 61) × (native.old.exceptions < 2 ^ 61) }
        ensures order { members_in self.new ≡ (after_order turns.now (members_in self.old)).members }
        ensures slice { self.new.slice ≡ self.old.slice }
        ensures each { members_in self.new ≡ each_given turns.now 1 (members_in self.old) }
        ensures machines { machines_of (members_in self.new) ≡ machines_given turns.now 1 (members_in self.old) }
        ensures counts { AreCounted (members_in self.old) (members_in self.new)
            (after_order turns.now (members_in self.old)).marks
            (after_order turns.now (members_in self.old)).exceptions native.old native.new }
        ensures machine_ends { map machine_at_end (members_in self.new) ≡ map machine_at_end (members_in self.old) }
        ensures tally_ends { map tally_at_end (members_in self.new) ≡ map tally_at_end (members_in self.old) }
        ensures few { (native.new.retired ≤ native.old.retired + 2 ^ 36)
            × (native.new.exceptions ≤ native.old.exceptions + 2 ^ 41) }
    {
        let _ = self.guest_count();
        for &turn in turns {
            self.take_turn(turn, native);
        }
    }

    /// Rounds, in each of which every guest in turn takes up to a slice of steps, until each has done its steps or is
    /// halted or off. The last one that has steps left goes on without a stop. The board carries out their retired
    /// steps, and `native` counts them.
    pub fn run(&mut self, native: &mut Native)
        requires native { (native.old.retired < 2 ^ 61) × (native.old.exceptions < 2 ^ 61) }
        ensures rounds { members_in self.new ≡ (after_rounds self.old.slice (members_in self.old)).members }
        ensures slice { self.new.slice ≡ self.old.slice }
        ensures machines { machines_of (members_in self.new) ≡ map machine_at_end (members_in self.old) }
        ensures tallies { tallies_of (members_in self.new) ≡ map tally_at_end (members_in self.old) }
        ensures counts { AreCounted (members_in self.old) (members_in self.new)
            (after_rounds self.old.slice (members_in self.old)).marks
            (after_rounds self.old.slice (members_in self.old)).exceptions native.old native.new }
        ensures few { (native.new.retired ≤ native.old.retired + 2 ^ 36)
            × (native.new.exceptions ≤ native.old.exceptions + 2 ^ 41) }
        ensures done { all_done (members_in self.new) ≡ true }
        ensures again { all_done (members_in self.old) ≡ true → (self.new ≡ self.old) × (native.new ≡ native.old) }
    {
        let _ = self.guest_count();
        while !self.is_done() {
            let slice = self.next_slice();
            self.take_round(slice, native);
        }
    }

    /// How many steps of each class a guest has taken.
    pub fn counts(&self, guest: u8) -> Counts
        requires { (1 ≤ guest) × (guest ≤ length (members_in self.now)) }
        ensures { numbered guest (tallies_of (members_in self.now)) ≡ Some (tally_in result) }
    {
        let host_guest = &self.guests[guest as usize - 1];
        host_guest.guest.counts()
    }

    /// What a guest shows.
    pub fn outcome(&self, guest: u8) -> Outcome<'_>
        requires { (1 ≤ guest) × (guest ≤ length (members_in self.now)) }
        ensures shown { numbered guest (shown_of (members_in self.now)) ≡ Some (seen_of result) }
        ensures ram { length (seen_of result).ram ≤ 2 ^ 32 }
    {
        let _ = self.board.size();
        let host_guest = &self.guests[guest as usize - 1];
        host_guest.guest.outcome(&self.board)
    }

    /// What arrives at a guest's terminal.
    pub fn script(&self, guest: u8) -> &Script
        requires { (1 ≤ guest) × (guest ≤ length (members_in self.now)) }
        ensures { numbered guest (scripts_of (members_in self.now)) ≡ Some result.now }
    {
        let host_guest = &self.guests[guest as usize - 1];
        host_guest.guest.script()
    }

    /// What a guest keeps at a place, from the oldest on. `None` exactly where the place is not below the count.
    pub fn kept(&self, guest: u8, place: u32) -> Option<Kept>
        requires { (1 ≤ guest) × (guest ≤ length (members_in self.now)) }
        ensures entry { numbered guest (kept_at place (members_in self.now)) ≡ Some result }
        ensures kept { IfSome (numbered guest (members_in self.now)) KeepsLawfully }
    {
        let host_guest = &self.guests[guest as usize - 1];
        host_guest.guest.kept(place)
    }

    /// A guest's devices.
    pub fn devices(&self, guest: u8) -> &Devices
        requires { (1 ≤ guest) × (guest ≤ length (members_in self.now)) }
        ensures { numbered guest (devices_of (members_in self.now)) ≡ Some result.now }
    {
        let host_guest = &self.guests[guest as usize - 1];
        host_guest.guest.devices()
    }
}
