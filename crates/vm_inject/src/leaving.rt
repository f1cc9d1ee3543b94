//! What an access error left to do, from its frame.

ghost use Rattle.std.specs.Prelude.{◌≡◌, ◌≢◌, ◌≤◌, true};
ghost use Rattle.def_processor.specs.Return.{continues};
ghost use Rattle.mb_writes.specs.Transfers.{count_of, mask_in};
ghost use Rattle.def_runs.specs.Frames.{is_valid, length_in, first_pend, pending_in, left_in};

use arrayvec::ArrayVec;
use def_runs::LeftOver;
use mb_entry::continues;
use mb_frames::{Access, Pend, SIZE, V};
use mb_port::{LINE, word_has};
use mb_writes::part;

/// V of a writeback's status: it is still to be made.
fn is_valid(status: u16) -> bool
    ensures { result ≡ is_valid status }
{
    word_has(status, V)
}

/// The bytes of a writeback, by SIZE of its status.
fn length_in(status: u16) -> u8
    ensures { result ≡ length_in status }
{
    match status / SIZE % 4 {
        1 => 1,
        2 => 2,
        3 => LINE,
        _ => 4,
    }
}

/// The piece of writeback 1, whose data are where the memory's long has them.
fn first_pend(access: &Access) -> Pend
    requires { length_in access.now.wb1s ≢ 16 }
    ensures { result ≡ first_pend access.now }
{
    let at = access.wb1a;
    let len = length_in(access.wb1s);
    let value = part(u64::from(access.wb1d), 4 - (at % 4) as u8, len);
    Pend { at, len, value }
}

/// The pieces that are still to be written, in order.
fn pending_in(access: &Access) -> ArrayVec<Pend, 3>
    requires { length_in access.now.wb1s ≢ 16 }
    ensures { result.items ≡ pending_in access.now }
{
    let mut pending = ArrayVec::new();
    if is_valid(access.wb1s) {
        pending.push(first_pend(access));
    }
    if is_valid(access.wb2s) {
        pending.push(Pend {
            at: access.wb2a,
            len: length_in(access.wb2s),
            value: access.wb2d,
        });
    }
    if is_valid(access.wb3s) {
        pending.push(Pend {
            at: access.wb3a,
            len: length_in(access.wb3s),
            value: access.wb3d,
        });
    }
    pending
}

/// What an access error left to do, by the fields of its frame: CM of the special status word says a MOVEM, V and SIZE
/// of the writebacks a line or pieces, and without any the step begins again.
///
/// Of a MOVEM at most as many transfers are done as its mask names. The fields are those of the manual's chapter on the
/// access error's frame.
#[tactic(auto, using(mb_entry::proofs::Counts::count_few))]
pub fn left_in(access: &Access) -> LeftOver
    requires { continues access.now ≡ true → access.now.pd3 ≤ count_of (mask_in access.now.pd2) }
    ensures { result ≡ left_in access.now }
{
    if continues(access) {
        return LeftOver::Movem {
            words: access.pd2,
            ea: access.ea,
            done: access.pd3 as u8,
            next: access.pd1,
        };
    }
    if !is_valid(access.wb1s) {
        return LeftOver::Again;
    }
    if length_in(access.wb1s) == LINE {
        return LeftOver::Line {
            at: access.wb1a,
            line: [access.wb1d, access.pd1, access.pd2, access.pd3],
        };
    }
    LeftOver::Writes {
        pending: pending_in(access),
        first: access.ea,
    }
}
