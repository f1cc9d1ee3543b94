//! Fills, flushes and finds worked by hand.

ghost use Rattle.std.specs.Prelude.{◌≡◌, false};

use Act::{Fill, FillGlobal, Find};
use Space::{Super, User};
use mb_atc::Atc;
use mb_model::Kept;
use mb_port::{Flush, Space};

/// A change of what is kept, or a look at it: a side, a space and a page, with the frame that is found.
#[derive(Clone, Copy)]
enum Act {
    /// Side, space, page and frame.
    Fill(bool, Space, u32, u32),
    /// The same, of a global page.
    FillGlobal(bool, Space, u32, u32),
    Flush(Flush),
    Find(bool, Space, u32, Option<u32>),
}

/// Page 0 of user space, in frame 0, with all flags clear.
pub(crate) const NOTHING: Kept = Kept {
    space: User,
    page: 0,
    frame: 0,
    w: false,
    s: false,
    g: false,
    m: false,
};

/// A page that is kept of a space, with its frame: all flags are clear but G, where it is global.
pub(crate) fn kept(space: Space, page: u32, frame: u32, g: bool) -> Kept
    ensures { result ≡ record { space = space; page = page; frame = frame; w = false; s = false; g = g; m = false } }
{
    Kept {
        space,
        page,
        frame,
        w: false,
        s: false,
        g,
        m: false,
    }
}

/// Whether a list of acts finds what is wanted.
fn carry_out(atc: &mut Atc, acts: &[Act]) -> bool {
    for act in acts {
        match *act {
            Fill(code, space, page, frame) => {
                if page < 0x10_0000 && frame < 0x10_0000 {
                    atc.fill(code, kept(space, page, frame, false));
                }
            }
            FillGlobal(code, space, page, frame) => {
                if page < 0x10_0000 && frame < 0x10_0000 {
                    atc.fill(code, kept(space, page, frame, true));
                }
            }
            Act::Flush(what) => atc.flush(what),
            Find(code, space, page, wanted) => {
                if atc.find(code, space, page).map(|k| k.frame) != wanted {
                    return false;
                }
            }
        }
    }
    true
}

#[rattlefmt::skip]
static LISTS: [&[Act]; 6] = [
    // sides and spaces are apart
    &[
        Find(false, User, 5, None), Fill(false, User, 5, 1), Find(false, User, 5, Some(1)),
        Find(true, User, 5, None), Find(false, Super, 5, None), Find(false, User, 6, None),
        Find(false, User, 0x15, None),
    ],
    // a newer entry of a page takes the older one's place, and is the newest
    &[
        Fill(false, User, 1, 1), Fill(false, User, 0x11, 2), Fill(false, User, 1, 3),
        Find(false, User, 1, Some(3)), Fill(false, User, 0x21, 4), Fill(false, User, 0x31, 5),
        Fill(false, User, 0x41, 6), Find(false, User, 0x11, None), Find(false, User, 1, Some(3)),
    ],
    // the fifth page of a class drops the oldest of it; other classes keep theirs
    &[
        Fill(true, Super, 2, 1), Fill(true, Super, 3, 9), Fill(false, Super, 2, 8),
        Fill(true, Super, 0x12, 2), Fill(true, Super, 0x22, 3), Fill(true, Super, 0xF_FFF2, 4),
        Find(true, Super, 2, Some(1)), Fill(true, User, 2, 5), Find(true, Super, 2, None),
        Find(true, User, 2, Some(5)), Find(true, Super, 0x12, Some(2)), Find(true, Super, 0xF_FFF2, Some(4)),
        Find(true, Super, 3, Some(9)), Find(false, Super, 2, Some(8)),
    ],
    // all, and all that is not global
    &[
        Fill(true, User, 4, 1), FillGlobal(false, Super, 5, 2), Act::Flush(Flush::AllLocal),
        Find(true, User, 4, None), Find(false, Super, 5, Some(2)), Act::Flush(Flush::All),
        Find(false, Super, 5, None),
    ],
    // a page, on both sides, of one space
    &[
        Fill(true, User, 7, 1), Fill(false, User, 7, 2), Fill(false, Super, 7, 3), Fill(false, User, 0x17, 4),
        Act::Flush(Flush::Page(User, 7)), Find(true, User, 7, None), Find(false, User, 7, None),
        Find(false, Super, 7, Some(3)), Find(false, User, 0x17, Some(4)),
    ],
    // the same, but for global entries
    &[
        FillGlobal(true, User, 7, 1), Fill(false, User, 7, 2),
        Act::Flush(Flush::PageLocal(User, 7)), Find(true, User, 7, Some(1)), Find(false, User, 7, None),
    ],
];

#[test]
fn fills_and_flushes_by_hand(rt: HostRuntime) {
    for (number, acts) in LISTS.iter().enumerate() {
        let mut atc = Atc::new(rt.alloc()).expect(&rt, "memory");
        assert!(rt; carry_out(&mut atc, acts), "list {number}");
    }
}
