//! A machine by itself.

ghost use Rattle.std.specs.Prelude.{◌≡◌, option_map};
ghost use Rattle.mb_program.specs.Answers.{same_disks};

use crate::machine::start_machine;
use mb_board::Board;
use mb_outside::Memory;
use mb_report::same;
use std::alloc::Global;
use vm_disk::{Disk, same_disk};
use vm_slices::{Host, SessionGuest};

/// A machine on a board of its own, before its first step.
#[derive(Drop)]
pub(crate) struct BareMachine {
    board: Board,
    /// How many steps it takes at most.
    steps: u32,
    ghost unrun: { board.steps ≡ 0 },
}

impl BareMachine {
    ghost use Rattle.std.specs.Prelude.{◌≤◌, IfOk, IfSome, length};
    ghost use Rattle.vm_guest.specs.Session.{IsGuest};
    ghost use Rattle.vm_slices.specs.Members.{numbered};
    ghost use Rattle.vm_slices.specs.Places.{members_in};
    ghost use Rattle.mb_program.specs.Compares.{ahead_of, at_start, will_show_same};

    /// A guest of a session by itself.
    pub(crate) fn prepare(alloc: Global, guest: &SessionGuest) -> Result<BareMachine, Memory>
        requires { IsGuest guest.now }
        ensures { IfOk result (λ machine. ahead_of machine ≡ at_start guest.now) }
    {
        let board = start_machine(alloc, guest.image(), guest.disk(), guest.ram())?;
        Ok(BareMachine {
            board,
            steps: guest.steps(),
        })
    }

    /// Takes its steps with the script of the guest of this number, and tells whether it then shows the same as that
    /// one.
    pub(crate) fn is_same_as(self, host: &Host, number: u8) -> bool
        requires { (1 ≤ number) × (number ≤ length (members_in host.now)) }
        ensures { IfSome (numbered number (members_in host.now))
            (λ member. result ≡ will_show_same (ahead_of self) member) }
    {
        let BareMachine {
            mut board,
            steps,
            ..
        } = self;
        board.run_bare(host.script(number), steps);
        let shown = same(&board.outcome(), &host.outcome(number));
        let disks = same_if_attached(board.devices().disk(), host.devices(number).disk());
        shown && disks
    }
}

/// Whether neither disk is attached, or both are and are the same.
fn same_if_attached(a: Option<&Disk>, b: Option<&Disk>) -> bool
    ensures { result ≡ same_disks (option_map (λ d. d.now) a.entry) (option_map (λ d. d.now) b.entry) }
{
    match (a, b) {
        (Some(a), Some(b)) => same_disk(a, b),
        (None, None) => true,
        _ => false,
    }
}
