//! Shifts and rotates, counts past the size among them.

use mb_alu::{Flagged, shift};
use mb_instr::ShiftKind::{self, Arithmetic, Logical, Rotate, RotateExtended};
use mb_instr::Size::{self, Byte, Long, Word};

/// Whether to the left, the size, the count, the operand and the codes before: the result and its codes.
type Row = (bool, Size, u8, u32, u8, u32, u8);

#[rattlefmt::skip]
static SHIFTS: [(ShiftKind, &[Row]); 4] = [
    (Arithmetic, &[
        // left, size, count, x, ccr: result, ccr
        (true, Byte, 0, 0x80, 0x1F, 0x80, 0x18),
        (true, Byte, 1, 0xC0, 0, 0x80, 0x19),
        (true, Byte, 1, 0x40, 0, 0x80, 0x0A),
        (true, Byte, 3, 0x10, 0x10, 0x80, 0x0A),
        (true, Byte, 3, 0x20, 0, 0, 0x17),
        (true, Byte, 8, 0xFF, 0, 0, 0x17),
        (true, Byte, 9, 1, 0, 0, 6),
        (true, Byte, 63, 0x81, 0x10, 0, 6),
        (true, Word, 1, 0x8000, 0, 0, 0x17),
        (true, Word, 15, 0x8001, 0, 0x8000, 0x0A),
        (true, Word, 16, 0xFFFF, 0, 0, 0x17),
        (true, Word, 17, 0x7FFF, 0x10, 0, 6),
        (true, Long, 1, 0xFFFF_8000, 8, 0xFFFF_0000, 0x19),
        (true, Long, 31, 0x8000_0001, 0, 0x8000_0000, 0x0A),
        (true, Long, 32, 0xFFFF_FFFF, 0, 0, 0x17),
        (true, Long, 33, 0x8000_0000, 0, 0, 6),
        (false, Byte, 0, 0x80, 0x1F, 0x80, 0x18),
        (false, Byte, 1, 0xC0, 0, 0xE0, 8),
        (false, Byte, 1, 0x40, 0, 0x20, 0),
        (false, Byte, 3, 0x10, 0x10, 2, 0),
        (false, Byte, 3, 0x20, 0, 4, 0),
        (false, Byte, 8, 0xFF, 0, 0xFF, 0x19),
        (false, Byte, 9, 1, 0, 0, 4),
        (false, Byte, 63, 0x81, 0x10, 0xFF, 0x19),
        (false, Word, 1, 0x8000, 0, 0xC000, 8),
        (false, Word, 15, 0x8001, 0, 0xFFFF, 8),
        (false, Word, 16, 0xFFFF, 0, 0xFFFF, 0x19),
        (false, Word, 17, 0x7FFF, 0x10, 0, 4),
        (false, Long, 1, 0xFFFF_8000, 8, 0xFFFF_C000, 8),
        (false, Long, 31, 0x8000_0001, 0, 0xFFFF_FFFF, 8),
        (false, Long, 32, 0xFFFF_FFFF, 0, 0xFFFF_FFFF, 0x19),
        (false, Long, 33, 0x8000_0000, 0, 0xFFFF_FFFF, 0x19),
    ]),
    (Logical, &[
        // left, size, count, x, ccr: result, ccr
        (true, Byte, 0, 0, 0x1B, 0, 0x14),
        (true, Byte, 1, 0x81, 0, 2, 0x11),
        (true, Byte, 8, 0x81, 0, 0, 0x15),
        (true, Byte, 9, 0xFF, 0x10, 0, 4),
        (true, Word, 4, 0x1238, 0, 0x2380, 0x11),
        (true, Word, 16, 0x8001, 0, 0, 0x15),
        (true, Word, 17, 0xFFFF, 0x1F, 0, 4),
        (true, Long, 8, 0x1234_5678, 0, 0x3456_7800, 0),
        (true, Long, 31, 0x8000_0001, 0, 0x8000_0000, 8),
        (true, Long, 32, 0x8000_0001, 0, 0, 0x15),
        (true, Long, 33, 0xFFFF_FFFF, 0x10, 0, 4),
        (true, Long, 63, 0xFFFF_FFFF, 0x10, 0, 4),
        (false, Byte, 0, 0, 0x1B, 0, 0x14),
        (false, Byte, 1, 0x81, 0, 0x40, 0x11),
        (false, Byte, 8, 0x81, 0, 0, 0x15),
        (false, Byte, 9, 0xFF, 0x10, 0, 4),
        (false, Word, 4, 0x1238, 0, 0x0123, 0x11),
        (false, Word, 16, 0x8001, 0, 0, 0x15),
        (false, Word, 17, 0xFFFF, 0x1F, 0, 4),
        (false, Long, 8, 0x1234_5678, 0, 0x12_3456, 0),
        (false, Long, 31, 0x8000_0001, 0, 1, 0),
        (false, Long, 32, 0x8000_0001, 0, 0, 0x15),
        (false, Long, 33, 0xFFFF_FFFF, 0x10, 0, 4),
        (false, Long, 63, 0xFFFF_FFFF, 0x10, 0, 4),
    ]),
    (RotateExtended, &[
        // left, size, count, x, ccr: result, ccr
        (true, Byte, 0, 0x55, 0x10, 0x55, 0x11),
        (true, Byte, 0, 0, 0x0F, 0, 4),
        (true, Byte, 1, 0x80, 0, 0, 0x15),
        (true, Byte, 1, 1, 0x10, 3, 0),
        (true, Byte, 9, 0xA5, 0x10, 0xA5, 0x19),
        (true, Byte, 17, 0xA5, 0x10, 0xD2, 0x19),
        (true, Byte, 63, 0x3C, 0, 0x3C, 0),
        (true, Word, 1, 0x8001, 0, 2, 0x11),
        (true, Word, 16, 0x1234, 0x10, 0x891A, 8),
        (true, Word, 33, 0x8001, 0x10, 0xC000, 0x19),
        (true, Long, 1, 0x8000_0001, 0, 2, 0x11),
        (true, Long, 32, 0x1234_5678, 0x10, 0x891A_2B3C, 8),
        (true, Long, 34, 0x8000_0000, 0, 0, 0x15),
        (true, Long, 63, 0xDEAD_BEEF, 0x10, 0xFBD5_B7DD, 0x19),
        (false, Byte, 0, 0x55, 0x10, 0x55, 0x11),
        (false, Byte, 0, 0, 0x0F, 0, 4),
        (false, Byte, 1, 0x80, 0, 0x40, 0),
        (false, Byte, 1, 1, 0x10, 0x80, 0x19),
        (false, Byte, 9, 0xA5, 0x10, 0xA5, 0x19),
        (false, Byte, 17, 0xA5, 0x10, 0x4B, 0x11),
        (false, Byte, 63, 0x3C, 0, 0x3C, 0),
        (false, Word, 1, 0x8001, 0, 0x4000, 0x11),
        (false, Word, 16, 0x1234, 0x10, 0x2469, 0),
        (false, Word, 33, 0x8001, 0x10, 3, 0x11),
        (false, Long, 1, 0x8000_0001, 0, 0x4000_0000, 0x11),
        (false, Long, 32, 0x1234_5678, 0x10, 0x2468_ACF1, 0),
        (false, Long, 34, 0x8000_0000, 0, 0x4000_0000, 0),
        (false, Long, 63, 0xDEAD_BEEF, 0x10, 0xF56D_F77F, 8),
    ]),
    (Rotate, &[
        // left, size, count, x, ccr: result, ccr
        (true, Byte, 0, 0x81, 0x1F, 0x81, 0x18),
        (true, Byte, 1, 0x81, 0, 3, 1),
        (true, Byte, 8, 0x81, 0x10, 0x81, 0x19),
        (true, Byte, 12, 0x12, 0, 0x21, 1),
        (true, Byte, 63, 0x12, 0x10, 9, 0x11),
        (true, Word, 4, 0x1234, 0, 0x2341, 1),
        (true, Word, 16, 0x8000, 0, 0x8000, 8),
        (true, Word, 17, 0x8001, 0x10, 3, 0x11),
        (true, Long, 8, 0x1234_5678, 0, 0x3456_7812, 0),
        (true, Long, 32, 1, 0x10, 1, 0x11),
        (true, Long, 33, 0x8000_0000, 0, 1, 1),
        (true, Long, 63, 0xF00F, 0x10, 0x8000_7807, 0x19),
        (false, Byte, 0, 0x81, 0x1F, 0x81, 0x18),
        (false, Byte, 1, 0x81, 0, 0xC0, 9),
        (false, Byte, 8, 0x81, 0x10, 0x81, 0x19),
        (false, Byte, 12, 0x12, 0, 0x21, 0),
        (false, Byte, 63, 0x12, 0x10, 0x24, 0x10),
        (false, Word, 4, 0x1234, 0, 0x4123, 0),
        (false, Word, 16, 0x8000, 0, 0x8000, 9),
        (false, Word, 17, 0x8001, 0x10, 0xC000, 0x19),
        (false, Long, 8, 0x1234_5678, 0, 0x7812_3456, 0),
        (false, Long, 32, 1, 0x10, 1, 0x10),
        (false, Long, 33, 0x8000_0000, 0, 0x4000_0000, 0),
        (false, Long, 63, 0xF00F, 0x10, 0x01_E01E, 0x10),
    ]),
];

#[test]
fn shifts_and_rotates(rt: HostRuntime) {
    for &(kind, rows) in &SHIFTS {
        for &(left, size, count, x, ccr, value, codes) in rows {
            assert!(rt; count < 64);
            let after = shift(kind, left, size, count, x, ccr);
            let wanted = Flagged { value, ccr: codes };
            assert!(rt; after == wanted, "{kind:?} {x:x} by {count}");
        }
    }
}
