//! Cuts and longs worked by hand.

use mb_port::{Piece, first_piece, lay, split, unlay};

/// An address, a length, and the address and length of each piece.
#[rattlefmt::skip]
static CUTS: [(u32, u8, &[(u32, u8)]); 24] = [
    (0x1FFF, 4, &[(0x1FFF, 1), (0x2000, 2), (0x2002, 1)]),
    (3, 5, &[(3, 1), (4, 4)]),
    (0xFFFF_FFFF, 2, &[(0xFFFF_FFFF, 1), (0, 1)]),
    (0xFFFF_FFFE, 5, &[(0xFFFF_FFFE, 2), (0, 2), (2, 1)]),
    (8, 1, &[(8, 1)]),
    (8, 2, &[(8, 2)]),
    (8, 3, &[(8, 2), (10, 1)]),
    (8, 4, &[(8, 4)]),
    (8, 5, &[(8, 4), (12, 1)]),
    (9, 1, &[(9, 1)]),
    (9, 2, &[(9, 1), (10, 1)]),
    (9, 3, &[(9, 1), (10, 2)]),
    (9, 4, &[(9, 1), (10, 2), (12, 1)]),
    (9, 5, &[(9, 1), (10, 2), (12, 2)]),
    (10, 1, &[(10, 1)]),
    (10, 2, &[(10, 2)]),
    (10, 3, &[(10, 2), (12, 1)]),
    (10, 4, &[(10, 2), (12, 2)]),
    (10, 5, &[(10, 2), (12, 2), (14, 1)]),
    (11, 1, &[(11, 1)]),
    (11, 2, &[(11, 1), (12, 1)]),
    (11, 3, &[(11, 1), (12, 2)]),
    (11, 4, &[(11, 1), (12, 2), (14, 1)]),
    (11, 5, &[(11, 1), (12, 4)]),
];

/// An address, how many bytes are left, and how many the piece has.
static FIRST_PIECES: [(u32, u8, u8); 5] = [
    (0x7FC4, 60, 4),
    (0x7FC6, 60, 2),
    (0x7FC5, 60, 1),
    (8, 3, 2),
    (8, 1, 1),
];

/// Whether bytes are cut into these pieces.
fn are_cut(at: u32, len: u8, wanted: &[(u32, u8)]) -> bool {
    1 <= len && len <= 5 && are_pieces(split(at, len).as_slice(), wanted)
}

/// Whether pieces have these places and lengths.
fn are_pieces(pieces: &[Piece], wanted: &[(u32, u8)]) -> bool {
    for (piece, place) in pieces.iter().zip(wanted) {
        if (piece.at, piece.len) != *place {
            return false;
        }
    }
    pieces.len() == wanted.len()
}

#[test]
fn cuts_by_hand(rt: HostRuntime) {
    for &(at, left, len) in &FIRST_PIECES {
        assert!(rt; 1 <= left);
        assert!(rt; first_piece(at, left) == Piece { at, len });
    }
    for &(at, len, wanted) in &CUTS {
        assert!(rt; are_cut(at, len, wanted), "{len} bytes at {at}");
    }
}

/// A piece, a value, and the long that holds it.
#[rattlefmt::skip]
static LONGS: [(Piece, u32, u32); 7] = [
    (Piece { at: 0, len: 1 }, 0x1122_3344, 0x4400_0000),
    (Piece { at: 5, len: 1 }, 0x1122_3344, 0x0044_0000),
    (Piece { at: 6, len: 1 }, 0x1122_3344, 0x0000_4400),
    (Piece { at: 7, len: 1 }, 0x1122_3344, 0x0000_0044),
    (Piece { at: 8, len: 2 }, 0x1122_3344, 0x3344_0000),
    (Piece { at: 2, len: 2 }, 0x1122_3344, 0x0000_3344),
    (Piece { at: 4, len: 4 }, 0x1122_3344, 0x1122_3344),
];

#[test]
fn longs_by_hand(rt: HostRuntime) {
    for &(piece, value, long) in &LONGS {
        assert!(rt;
            lay(piece, value) == long,
            "{} bytes at {}",
            piece.len,
            piece.at
        );
    }
    assert!(rt; unlay(Piece { at: 5, len: 1 }, 0x1122_3344) == 0x22);
    assert!(rt; unlay(Piece { at: 0, len: 2 }, 0x1122_3344) == 0x1122);
    assert!(rt; unlay(Piece { at: 4, len: 4 }, 0x1122_3344) == 0x1122_3344);
}
