//! Sessions of guests that take turns before their rounds.

ghost use Rattle.std.specs.Prelude.{IfSome};
ghost use Rattle.vm_guest.specs.Session.{IsBoardBytes, IsGuest, IsSession};

use crate::boards::{SIZE, script_of};
use mb_board::Native;
use mb_model::RunState;
use mb_script::Turn;
use mb_srec::read_image;
use std::alloc::Global;
use vm_slices::{Host, Session, SessionGuest};

/// The bytes of a board for three guests: 64 KiB for the monitor, and 128 KiB for each guest.
const BOARD: u32 = 0x7_0000;

/// What a guest begins with: its image and its script, and how many steps it takes at most. How it stands after the
/// turns, and when it is done.
struct Begins {
    image: &'static [u8],
    script: &'static [u8],
    steps: u32,
    turned: (RunState, u32),
    done: (RunState, u32),
}

/// The first has `MOVE.B #1,CTRL`, and `MOVE.B DATA,DATA` in a loop; the second nothing: after 16,384 steps a fetch past
/// RAM faults, and no frame can be stacked below a stack at 0; the third `LEA $1000,A0`, and `MOVE.L A0,(A0)+` in a loop.
static GUESTS: [Begins; 3] = [
    Begins {
        image: b"S10B0000000080000000040070\nS117040013FC0001FFF0000213F9FFF00000FFF0000060F4A5\nS9030000FC\n",
        script: b"at 1 hex 40\nat 3 hex 4142\nat 39 hex 44\nat 40 hex 4546\n",
        steps: 99,
        turned: (RunState::Running, 99),
        done: (RunState::Running, 99),
    },
    Begins {
        image: b"S9030000FC\n",
        script: b"",
        steps: 20_000,
        turned: (RunState::Halted, 16_385),
        done: (RunState::Halted, 16_385),
    },
    Begins {
        image: b"S10B0000000080000000040070\nS10B040041F8100020C860FC63\nS9030000FC\n",
        script: b"",
        steps: 3000,
        turned: (RunState::Running, 0),
        done: (RunState::Running, 3000),
    },
];

fn guest_of(alloc: Global, begins: &Begins) -> Option<SessionGuest>
    ensures { IfSome result IsGuest }
{
    if begins.image.len() > 1000 {
        return None;
    }
    let image = read_image(alloc, begins.image, SIZE).ok()?;
    let script = script_of(alloc, begins.script)?;
    Some(SessionGuest::new(image, script, SIZE, begins.steps))
}

/// A session of these guests.
fn session_of(alloc: Global, board: u32, guests: &[Begins]) -> Option<Session>
    requires { IsBoardBytes board }
    ensures { IfSome result IsSession }
{
    if guests.is_empty() || guests.len() > 16 {
        return None;
    }
    let mut all = Vec::new(alloc);
    for begins in guests {
        all.push(guest_of(alloc, begins)?).ok()?;
    }
    Some(Session::new(board, 1000, all))
}

#[rattlefmt::skip]
static ORDER: [Turn; 7] = [
    Turn { guest: 2, steps: 7 },
    Turn { guest: 1, steps: 98 },
    Turn { guest: 3, steps: 0 },
    Turn { guest: 2, steps: 100 },
    Turn { guest: 1, steps: 100 },
    Turn { guest: 1, steps: 100 },
    Turn { guest: 2, steps: 4_294_967_295 },
];

/// Carries out those turns, where there are three guests.
fn run_turns(host: &mut Host) -> bool {
    if host.guest_count() != 3 {
        return false;
    }
    host.run_order(&ORDER, &mut Native::new());
    true
}

/// How a guest stands, and after how many steps, if there is such a guest.
fn stands(host: &Host, number: u8) -> Option<(RunState, u32)> {
    if number == 0 || number > host.guest_count() {
        return None;
    }
    let outcome = host.outcome(number);
    Some((outcome.state, outcome.steps))
}

/// Whether all guests stand as they should, after the turns or when they are done.
fn stand(host: &Host, done: bool) -> bool {
    let mut number = 0u8;
    for begins in &GUESTS {
        number = number.wrapping_add(1);
        let wanted = if done { begins.done } else { begins.turned };
        if stands(host, number) != Some(wanted) {
            return false;
        }
    }
    true
}

/// Goes round until all guests are done. Whether they stand as they should then.
fn ends(host: &mut Host) -> bool {
    host.run(&mut Native::new());
    stand(host, true)
}

/// Turns of any guest in any order, then rounds, and rounds once more: none goes past what its guest has left.
#[test]
fn turns_come_before_rounds(rt: HostRuntime) {
    let session = session_of(rt.alloc(), BOARD, &GUESTS).expect(&rt, "ample memory");
    let mut host = Host::prepare(rt.alloc(), session)
        .ok()
        .expect(&rt, "room for three guests");
    assert!(rt; run_turns(&mut host) && stand(&host, false) && ends(&mut host) && ends(&mut host));
}
