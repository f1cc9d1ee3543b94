//! The form of a piece's value in the long that it stands in.

ghost use Rattle.std.specs.Prelude.{◌≡◌, ℕ, ◌<◌, ◌≤◌, ◌+◌, ◌-◌, ◌*◌, ◌%◌, ◌^◌, ◌++◌, replicate, take, drop};
ghost use Rattle.std.specs.Int.{bytes_high_first};
ghost use Rattle.mb_port.specs.Pieces.{IsPiece, laid, unlaid};

use crate::types::Piece;

/// How many bits of its long stand below the piece.
fn bits_below(piece: Piece) -> u32
    requires { IsPiece piece }
    ensures value { result ≡ 8 * (4 - piece.at % 4 - piece.len) }
    ensures fits { 8 * piece.len + result ≤ 32 }
{
    8 * (4 - piece.at % 4 - piece.len as u32)
}

/// The bits that a value of the piece has.
#[tactic(auto, using(crate::proofs::Laid::ones))]
fn mask(piece: Piece) -> u32
    requires { IsPiece piece }
    ensures { result ≡ 2 ^ (8 * piece.len) - 1 }
{
    u32::MAX >> (32 - 8 * piece.len as u32)
}

/// The memory-aligned form of a value: the piece's bytes stand where its address modulo 4 puts them
/// in a long, and the rest is 0. Bytes of `value` above the piece are ignored.
#[tactic(auto, using(crate::proofs::Laid::laying))]
pub fn lay(piece: Piece, value: u32) -> u32
    requires { IsPiece piece }
    ensures meaning { result ≡ laid piece value }
    ensures bytes { bytes_high_first 4 result
        ≡ replicate (piece.at % 4) 0 ++ bytes_high_first piece.len value ++ replicate (4 - piece.at % 4 - piece.len) 0 }
    ensures inverse { unlaid piece result ≡ value % 2 ^ (8 * piece.len) }
{
    (value & mask(piece)) << bits_below(piece)
}

/// The value whose bytes stand at the piece's place in a long. The other bytes are ignored.
#[tactic(auto, using(crate::proofs::Laid::laying))]
pub fn unlay(piece: Piece, long: u32) -> u32
    requires { IsPiece piece }
    ensures meaning { result ≡ unlaid piece long }
    ensures bytes { bytes_high_first piece.len result ≡ take piece.len (drop (piece.at % 4) (bytes_high_first 4 long)) }
    ensures inverse { (value : ℕ) → long ≡ laid piece value → result ≡ value % 2 ^ (8 * piece.len) }
    ensures fits { result < 256 ^ piece.len }
{
    (long >> bits_below(piece)) & mask(piece)
}
