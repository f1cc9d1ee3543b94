//! Session files that are read.

use mb_script::{SessionPlan, Turn, read_session};
use std::alloc::Global;

/// The bytes from $21 to $7E.
const ALL_GRAPHIC: &str =
    "!\"#$%&'()*+,-./0123456789:;<=>?@ABCDEFGHIJKLMNOPQRSTUVWXYZ[\\]^_`abcdefghijklmnopqrstuvwxyz{|}~";

/// A guest's RAM, steps, image and script.
type Named<'a> = (u32, u32, &'a str, Option<&'a str>);

/// A session file, and what it says.
struct Session<'a> {
    text: &'a [u8],
    board: u32,
    slice: u32,
    guests: &'a [Named<'a>],
    turns: &'a [Turn],
}

fn is_plan(plan: &SessionPlan, want: &Session) -> bool {
    let guests = plan.guests();
    plan.board() == want.board
        && plan.slice() == want.slice
        && plan.order() == want.turns
        && guests.len() == want.guests.len()
        && guests.iter().zip(want.guests).all(|(guest, (ram, steps, image, script))| {
            let numbers = guest.ram() == *ram && guest.steps() == *steps;
            numbers && guest.image() == *image && guest.script() == *script
        })
}

/// Sixteen guests behind these lines.
const SIXTEEN: &[u8] = b"session 1\nboard 128\nslice 1\n\
guest 64 1 a -\nguest 64 1 a -\nguest 64 1 a -\nguest 64 1 a -\n\
guest 64 1 a -\nguest 64 1 a -\nguest 64 1 a -\nguest 64 1 a -\n\
guest 64 1 a -\nguest 64 1 a -\nguest 64 1 a -\nguest 64 1 a -\n\
guest 64 1 a -\nguest 64 1 a -\nguest 64 1 a -\nguest 64 1 a -\n";

/// Two guests behind these lines.
const TWO: &[u8] = b"session 2\nboard 320\nslice 1\nguest 64 1 a -\nguest 64 1 b -\n";

/// A guest whose names have every byte that one may have.
const ALL_IN_NAMES: &[u8] = b"session 1\nboard 128\nslice 1\nguest 64 1 \
!\"#$%&'()*+,-./0123456789:;<=>?@ABCDEFGHIJKLMNOPQRSTUVWXYZ[\\]^_`abcdefghijklmnopqrstuvwxyz{|}~ \
!\"#$%&'()*+,-./0123456789:;<=>?@ABCDEFGHIJKLMNOPQRSTUVWXYZ[\\]^_`abcdefghijklmnopqrstuvwxyz{|}~";

#[rattlefmt::skip]
static SESSIONS: [Session; 11] = [
    Session {
        text: b"session 1\nboard 320\nslice 1000\nguest 64 10 a.s19 -\nguest 64 50000 fill.s19 -\n",
        board: 320,
        slice: 1000,
        guests: &[(64, 10, "a.s19", None), (64, 50_000, "fill.s19", None)],
        turns: &[],
    },
    Session {
        text: b"session 1\r\nboard 128\r\nslice 1\r\nguest 64 0 a b\r\n",
        board: 128,
        slice: 1,
        guests: &[(64, 0, "a", Some("b"))],
        turns: &[],
    },
    Session {
        text: b"# first\n\n \tsession\t 1 \n\r\nboard\t65536\t\n#\nslice  4294967295\n\
\t guest 16384 \t 4294967295  a.s19 \t- \n# last",
        board: 65_536,
        slice: 4_294_967_295,
        guests: &[(16_384, 4_294_967_295, "a.s19", None)],
        turns: &[],
    },
    Session {
        text: b"session 01\nboard 000128\nslice 0000000000000000001\nguest 00064 007 -- -a",
        board: 128,
        slice: 1,
        guests: &[(64, 7, "--", Some("-a"))],
        turns: &[],
    },
    Session {
        text: b"session 1\nboard 192\nslice 2\nguest 64 1 - -\nguest 64 1 guest session\nguest 64 1 #a #",
        board: 192,
        slice: 2,
        guests: &[(64, 1, "-", None), (64, 1, "guest", Some("session")), (64, 1, "#a", Some("#"))],
        turns: &[],
    },
    Session {
        text: SIXTEEN,
        board: 128,
        slice: 1,
        guests: &[(64, 1, "a", None); 16],
        turns: &[],
    },
    Session {
        text: ALL_IN_NAMES,
        board: 128,
        slice: 1,
        guests: &[(64, 1, ALL_GRAPHIC, Some(ALL_GRAPHIC))],
        turns: &[],
    },
    Session {
        text: TWO,
        board: 320,
        slice: 1,
        guests: &[(64, 1, "a", None), (64, 1, "b", None)],
        turns: &[],
    },
    Session {
        text: b"session 2\nboard 320\nslice 1\nguest 64 1 a -\nguest 64 1 b -\n\
turn 2 7\nturn 1 3\nturn 2 100\n",
        board: 320,
        slice: 1,
        guests: &[(64, 1, "a", None), (64, 1, "b", None)],
        turns: &[Turn { guest: 2, steps: 7 }, Turn { guest: 1, steps: 3 }, Turn { guest: 2, steps: 100 }],
    },
    Session {
        text: b"session 2\nboard 320\nslice 1\nguest 64 1 a -\nguest 64 1 b -\n\
# none\n\n \tturn\t 1  4294967295 \r\nturn 02 0",
        board: 320,
        slice: 1,
        guests: &[(64, 1, "a", None), (64, 1, "b", None)],
        turns: &[Turn { guest: 1, steps: 4_294_967_295 }, Turn { guest: 2, steps: 0 }],
    },
    Session {
        text: b"session 2\nboard 320\nslice 1\nguest 64 1 a -\nguest 64 1 b -\n\
guest 64 1 turn turn\nturn 3 1\n",
        board: 320,
        slice: 1,
        guests: &[(64, 1, "a", None), (64, 1, "b", None), (64, 1, "turn", Some("turn"))],
        turns: &[Turn { guest: 3, steps: 1 }],
    },
];

/// Whether a session file says what it should; nothing of a long one.
fn reads_session(alloc: Global, session: &Session) -> Option<bool> {
    if session.text.len() > 1000 {
        return None;
    }
    let plan = read_session(alloc, session.text).ok()?;
    Some(is_plan(&plan, session))
}

#[test]
fn reads_sessions(rt: HostRuntime) {
    for session in &SESSIONS {
        let reads = reads_session(rt.alloc(), session);
        assert!(rt; reads == Some(true), "{:?}", session.text);
    }
}
