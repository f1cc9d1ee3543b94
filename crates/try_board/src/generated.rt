//! Generated sessions. The programs were worked out by another program, from the published recurrence of PCG32.

use crate::boards::{board_with, run, script_of};
use mb_board::Board;
use mb_gen::make_session;
use mb_model::RunState;
use std::alloc::Global;
use vm_guest::{Session, SessionGuest};

/// The program of a guest: its first picked words, how many bytes it has, and a sum over them all. Guests count from 0.
struct Program {
    seed: u64,
    guest: usize,
    first: &'static [u8],
    len: usize,
    sum: u32,
}

/// The draws of seeds 0, 1 and 2^32 - 1, and the last that a session of seed 1 takes.
#[rattlefmt::skip]
static PROGRAMS: [Program; 7] = [
    Program {
        seed: 0, guest: 0, len: 4_948, sum: 0x1A4EF41C,
        first: &[0xB1, 0x84, 0x24, 0x2D, 0x7C, 0x84, 0xB5, 0x87, 0x2B, 0x47, 0x3E, 0xF8, 0xB7, 0x86, 0xE4, 0x88],
    },
    Program {
        seed: 0, guest: 1, len: 5_020, sum: 0xECB1C973,
        first: &[0x9E, 0x84, 0xE6, 0x8C, 0x26, 0x2D, 0x37, 0xB4, 0x7C, 0xF3, 0x2B, 0x45, 0x10, 0xC8, 0x70, 0xA4],
    },
    Program {
        seed: 1, guest: 0, len: 5_022, sum: 0xBAF21CAC,
        first: &[0x2B, 0x44, 0x33, 0xA4, 0x2B, 0x45, 0x7D, 0xBC, 0xD4, 0x85, 0x70, 0xAC, 0xBF, 0x80, 0x7A, 0x1F],
    },
    Program {
        seed: 1, guest: 1, len: 5_068, sum: 0x4506598A,
        first: &[0x2B, 0x42, 0x56, 0x98, 0x2B, 0x43, 0x04, 0xC8, 0xD4, 0x87, 0xE2, 0x8F, 0x9C, 0x80, 0x2B, 0x43],
    },
    Program {
        seed: 1, guest: 15, len: 5_036, sum: 0x130CADFE,
        first: &[0xB5, 0x80, 0x70, 0x33, 0x9A, 0x87, 0x76, 0x58, 0x28, 0x2D, 0x21, 0x60, 0xD8, 0x82, 0x26, 0x2D],
    },
    Program {
        seed: 4_294_967_295, guest: 0, len: 5_010, sum: 0x0BD70EBF,
        first: &[0xC2, 0xC7, 0x9C, 0x87, 0x2B, 0x43, 0x59, 0xE4, 0xC0, 0xC5, 0x2B, 0x43, 0x78, 0xA0, 0xE4, 0x89],
    },
    Program {
        seed: 4_294_967_295, guest: 1, len: 5_054, sum: 0x34CB53DD,
        first: &[0xD6, 0x83, 0xEE, 0x8F, 0xC4, 0xC2, 0xEA, 0x8B, 0x26, 0x2D, 0x14, 0xAC, 0xCC, 0xC3, 0xCC, 0xC2],
    },
];

/// `LEA $8000,A5`.
static ENTER: [u8; 6] = [0x4B, 0xF9, 0, 0, 0x80, 0];

/// Each byte weighs 31 times the next one.
fn sum_of(bytes: &[u8]) -> u32 {
    let mut sum: u32 = 0;
    for byte in bytes {
        sum = sum.wrapping_mul(31).wrapping_add(u32::from(*byte));
    }
    sum
}

/// The address and the bytes of a chunk of a guest's image; guests and chunks count from 0.
fn chunk(session: &Session, guest: usize, place: usize) -> Option<(u32, &[u8])> {
    let chunk = session.guests().get(guest)?.image().chunks().get(place)?;
    Some((chunk.at(), chunk.bytes()))
}

/// Whether its guest has this program.
fn runs(session: &Session, program: &Program) -> bool {
    match chunk(session, program.guest, 1) {
        Some((0x400, bytes)) => {
            bytes.starts_with(&ENTER)
                && bytes.get(6..6 + program.first.len()) == Some(program.first)
                && bytes.len() == program.len
                && sum_of(bytes) == program.sum
        }
        _ => false,
    }
}

/// A session of a seed, where there are 1 to 16 guests.
fn session_of(alloc: Global, seed: u64, guests: u8) -> Option<Session> {
    if guests == 0 || guests > 16 {
        return None;
    }
    make_session(alloc, seed, guests).ok()
}

/// How many guests there are, and the bytes of their board.
static BOARDS: [(u8, u32); 3] = [(1, 196_608), (2, 327_680), (16, 2_162_688)];

/// The vectors of each guest, and its count of laps.
static VECTORS: [u8; 8] = [0, 0, 0x80, 0, 0, 0, 4, 0];

static COUNT: [u8; 4] = [0, 0, 0, 100];

/// Whether a guest has all that is the same in each.
fn is_plain(guest: &SessionGuest) -> bool {
    guest.ram() == 65_536
        && guest.steps() == 250_000
        && guest.script().count() == 0
        && guest.image().chunks().len() == 3
}

/// Whether there are so many guests, and each has all that is the same in each.
fn are_plain(session: &Session, count: u8) -> bool {
    for (number, guest) in session.guests().iter().enumerate() {
        if !is_plain(guest)
            || chunk(session, number, 0) != Some((0, VECTORS.as_slice()))
            || chunk(session, number, 2) != Some((0x7F00, COUNT.as_slice()))
        {
            return false;
        }
    }
    session.guests().len() == usize::from(count)
}

/// Programs of three seeds, and all else: it is the same in each guest of each session. The first program is the same
/// in sessions of any size.
#[test]
fn what_stands_in_a_session(rt: HostRuntime) {
    for program in &PROGRAMS {
        let session = session_of(rt.alloc(), program.seed, 16).expect(&rt, "ample memory");
        assert!(rt;
            runs(&session, program),
            "guest {} of seed {}",
            program.guest,
            program.seed
        );
    }
    let one = session_of(rt.alloc(), 1, 1).expect(&rt, "ample memory");
    for &(count, board) in &BOARDS {
        let session = session_of(rt.alloc(), 1, count).expect(&rt, "ample memory");
        assert!(rt;
            session.board() == board && session.slice() == 1_000,
            "{count} guests"
        );
        assert!(rt; are_plain(&session, count), "{count} guests");
        assert!(rt;
            chunk(&session, 0, 1) == chunk(&one, 0, 1),
            "{count} guests"
        );
    }
}

/// Further steps, and how many bytes the console has then.
static LAPS: [(u32, usize); 4] = [(2_001, 0), (1, 1), (2_002, 1), (1, 2)];

/// A board with the image of the first guest of a session.
fn board_of(alloc: Global, session: &Session) -> Option<Board> {
    let chunks = [
        chunk(session, 0, 0)?,
        chunk(session, 0, 1)?,
        chunk(session, 0, 2)?,
    ];
    board_with(alloc, &chunks).ok()
}

/// Whether the board runs, with so many bytes on its console.
fn has_sent(board: &Board, sent: usize) -> bool {
    let outcome = board.outcome();
    outcome.console.len() == sent && outcome.state == RunState::Running
}

/// LEA, the picked instructions, and then the byte; the next one comes 2,003 steps later.
#[test]
fn a_lap_sends_a_byte(rt: HostRuntime) {
    let session = session_of(rt.alloc(), 1, 1).expect(&rt, "ample memory");
    let mut board = board_of(rt.alloc(), &session).expect(&rt, "ample memory");
    let script = script_of(rt.alloc(), b"").expect(&rt, "ample memory");
    for &(steps, sent) in &LAPS {
        run(&mut board, &script, steps);
        assert!(rt; has_sent(&board, sent));
    }
}
