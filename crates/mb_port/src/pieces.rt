//! The pieces of an operand.

ghost use Rattle.std.specs.Prelude.{◌≡◌, ◌<◌, ◌≤◌, ◌+◌, ◌-◌, ◌%◌, ◌^◌, ◌∷◌, length};
ghost use Rattle.mb_port.specs.Pieces.{piece_len as longest, cut, split_of, total, addresses_from, addresses_of, ArePieces};
ghost use Rattle.mb_port.specs.Pieces.{IsPiece, IsGreedy, IsFewest};

use crate::types::Piece;
use arrayvec::ArrayVec;

/// The length of the longest piece that begins at `at` and fits into `left` bytes.
fn piece_len(at: u32, left: u8) -> u8
    requires { 0 < left }
    ensures value { result ≡ longest at left }
    ensures fits { (0 < result) × (result ≤ left) }
{
    if at % 4 == 0 && left >= 4 {
        4
    } else if at % 2 == 0 && left >= 2 {
        2
    } else {
        1
    }
}

/// The longest piece that begins at `at` and fits into `left` bytes: the first one of their greedy cut, whose rest is
/// the cut of the bytes behind it.
#[tactic(auto, using(crate::proofs::Cuts::cut_first))]
pub fn first_piece(at: u32, left: u8) -> Piece
    requires { 0 < left }
    ensures piece { result ≡ record { at = at; len = longest at left } }
    ensures aligned { IsPiece result }
    ensures fits { result.len ≤ left }
    ensures cut { cut left at left
        ≡ result ∷ cut (left - result.len) ((at + result.len) % 2 ^ 32) (left - result.len) }
{
    Piece {
        at,
        len: piece_len(at, left),
    }
}

/// Cuts an operand of one to five bytes greedily into naturally aligned pieces of four, two or one
/// byte, in order of address. Addresses wrap at 2^32.
#[tactic(auto, using(crate::proofs::Cuts::cutting))]
pub fn split(at: u32, len: u8) -> ArrayVec<Piece, 3>
    requires { (1 ≤ len) × (len ≤ 5) }
    ensures pieces { result.items ≡ split_of at len }
    ensures aligned { ArePieces result.items }
    ensures bytes { addresses_of result.items ≡ addresses_from at len }
    ensures whole { total result.items ≡ len }
    ensures greedy { IsGreedy at len result.items }
    ensures fewest { IsFewest result.items }
    ensures few { (1 ≤ length result.items) × (length result.items ≤ 3) }
{
    let mut pieces = ArrayVec::new();
    let mut next = at;
    let mut left = len;
    for i in 0..3usize {
        if left == 0 {
            break;
        }
        let len = piece_len(next, left);
        pieces.push(Piece { at: next, len });
        next = next.wrapping_add(len as u32);
        left -= len;
    }
    pieces
}
