//! A guest on a board that was used before.

ghost use Rattle.std.specs.Prelude.{◌≡◌, length, IfSome};
ghost use Rattle.def_guests.specs.Seats.{IsSeated};

use crate::boards::{SIZE, script_of};
use mb_board::{Board, Native};
use mb_model::Outcome;
use mb_port::Place;
use mb_srec::Image;
use std::alloc::Global;
use vm_guest::{Guest, TurnEnd};

/// Where the guest begins on the host, and how many bytes the host has.
const BASE: u32 = 0x2_0000;

const HOST: u32 = 0x5_0000;

/// A board with $FF in all of its memory, which is switched off.
fn used_board(alloc: Global) -> Option<Board>
    ensures { IfSome result (λ board. length board.world.ram ≡ HOST) }
{
    let mut board = Board::new(alloc, HOST).ok()?;
    for page in 0..HOST / 4096 {
        board.write_phys(page * 4096, &[0xFF; 4096]);
    }
    let _ = board.devices_mut().write(
        Place {
            at: 0xFFF0_0020,
            len: 4,
        },
        1,
    );
    Some(board)
}

/// A guest on it without an image.
fn guest_on(alloc: Global, board: &mut Board) -> Option<Guest>
    requires { length board.old.world.ram ≡ HOST }
    ensures { IfSome result (λ guest. IsSeated guest board.new.world.ram) }
{
    let script = script_of(alloc, b"")?;
    Guest::prepare(
        alloc,
        Image::new(Vec::new(alloc)),
        script,
        SIZE,
        BASE,
        board,
    )
    .ok()
}

/// A guest on a used board.
#[derive(Drop)]
struct Used {
    board: Board,
    guest: Guest,
    ghost seated: { IsSeated guest board.world.ram },
}

impl Used {
    fn new(alloc: Global) -> Option<Used> {
        let mut board = used_board(alloc)?;
        let guest = guest_on(alloc, &mut board)?;
        Some(Used { board, guest })
    }

    /// What the guest shows.
    fn outcome<'a>(&'a self) -> Outcome<'a>
        ensures { result.steps ≡ self.now.guest.steps }
    {
        self.guest.outcome(&self.board)
    }

    /// Whether all of its memory is zero, and after 16,384 steps a fetch past RAM faults, and no frame can be stacked
    /// below a stack at 0.
    fn halts(&mut self) -> bool {
        if self.outcome().steps != 0 {
            return false;
        }
        let end = self.guest.turn(&mut self.board, 20_000, &mut Native::new());
        let outcome = self.outcome();
        end == TurnEnd::Halted
            && outcome.steps == 16_385
            && outcome.console.is_empty()
            && is_zero(outcome.ram)
    }
}

/// Whether all bytes are 0.
fn is_zero(bytes: &[u8]) -> bool {
    for byte in bytes {
        if *byte != 0 {
            return false;
        }
    }
    true
}

#[test]
fn a_used_board_does_not_show(rt: HostRuntime) {
    let mut used = Used::new(rt.alloc()).expect(&rt, "ample memory");
    assert!(rt; used.halts());
}
