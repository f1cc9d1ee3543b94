//! All decimal digits by decimal arithmetic, and worked values.

ghost use Rattle.std.specs.Prelude.{◌<◌, ◌≤◌, ◌^◌, IsTrue};

use mb_alu::Flagged;
use mb_fields::{abcd, field_first, field_get, field_put, nbcd, pack, sbcd, unpk};

/// A number below 100 in two digits.
fn digits(number: u8) -> u8
    requires { number < 100 }
{
    number / 10 * 16 + number % 10
}

/// A decimal result where Z was set before: the number that is left below a hundred, and the carry.
fn decimal(number: u8, carry: bool) -> Flagged
    requires { number < 100 }
{
    let mut ccr = 0;
    if carry {
        ccr += 0x11;
    }
    if number >= 80 {
        ccr += 8;
    }
    if number == 0 {
        ccr += 4;
    }
    Flagged {
        value: u32::from(digits(number)),
        ccr,
    }
}

#[test]
fn decimal_digits(rt: HostRuntime) {
    for y in 0..100 {
        for extend in 0..2 {
            let before = extend * 16 + 4;
            let complement = decimal((100 - y - extend) % 100, 0 < y + extend);
            assert!(rt; nbcd(digits(y), before) == complement, "{y}");
            for x in 0..100 {
                let sum = x + y + extend;
                let wanted = decimal(sum % 100, sum >= 100);
                assert!(rt; abcd(digits(x), digits(y), before) == wanted, "{x} and {y}");
                let wanted = decimal((100 + y - x - extend) % 100, y < x + extend);
                assert!(rt;
                    sbcd(digits(x), digits(y), before) == wanted,
                    "{x} from {y}"
                );
            }
        }
    }
}

/// Two bytes and the codes before: the sum with its codes, and the difference with its codes.
#[rattlefmt::skip]
static OTHER_DIGITS: [(u8, u8, u8, u32, u8, u32, u8); 10] = [
    // x, y, ccr: sum, ccr, difference, ccr
    (0x0A, 0, 0, 0x10, 0, 0x90, 0x19),
    (0x0F, 0x0F, 0, 0x24, 0, 0, 0),
    (0xFF, 0xFF, 0x10, 0x65, 0x11, 0x99, 0x19),
    (0xA0, 0, 4, 0, 0x15, 0, 0x15),
    (0x9A, 6, 0, 6, 0x11, 6, 0x11),
    (0xF9, 7, 4, 0x66, 0x11, 0xA8, 0x19),
    (0x0B, 5, 0x10, 0x17, 0, 0x93, 0x19),
    (0xAB, 0xCD, 0, 0xDE, 0x19, 0x22, 0),
    (0x60, 0xA0, 4, 0x60, 0x11, 0x40, 0),
    (0x5F, 0x41, 0x14, 7, 0x11, 0x7B, 0x11),
];

#[test]
fn other_digits(rt: HostRuntime) {
    for &(x, y, ccr, sum, after_sum, difference, after) in &OTHER_DIGITS {
        assert!(rt;
            abcd(x, y, ccr)
                == Flagged {
                    value: sum,
                    ccr: after_sum
                },
            "{x:x} {y:x}"
        );
        assert!(rt;
            sbcd(x, y, ccr)
                == Flagged {
                    value: difference,
                    ccr: after
                },
            "{x:x} {y:x}"
        );
    }
}

/// Two digits apart and an adjustment: the byte that they are packed to.
#[rattlefmt::skip]
static PACKED: [(u16, u16, u8); 20] = [
    (0x3932, 0, 0x92),
    (0x3030, 0, 0),
    (0x3431, 0, 0x41),
    (0xF9F2, 0, 0x92),
    (0x0902, 0, 0x92),
    (0, 0, 0),
    (0xFFFF, 0, 0xFF),
    (0xFFFF, 1, 0),
    (0x1234, 0, 0x24),
    (0x0F0F, 0x0101, 0),
    (0x3A41, 0xD0D0, 0xB1),
    (0x4142, 0xBEBF, 1),
    (0xFF, 1, 0x10),
    (0x0FFF, 1, 0),
    (0x8000, 0x8000, 0),
    (0xF0F0, 0x0F0F, 0xFF),
    (0x3938, 0xCFD0, 0x98),
    (0x1357, 0x2468, 0x7F),
    (0x0109, 0, 0x19),
    (0xABCD, 0x1111, 0xCE),
];

/// Two digits in a byte and an adjustment: the word that they are unpacked to.
#[rattlefmt::skip]
static UNPACKED: [(u8, u16, u16); 20] = [
    (0x92, 0x3030, 0x3932),
    (0x92, 0, 0x0902),
    (0, 0x3030, 0x3030),
    (0x41, 0x3030, 0x3431),
    (0x92, 0xF0F0, 0xF9F2),
    (0xFF, 0, 0x0F0F),
    (0xFF, 1, 0x0F10),
    (0xFF, 0xF0F0, 0xFFFF),
    (0xFF, 0xF0F1, 0),
    (0xFF, 0xFFFF, 0x0F0E),
    (0, 0xFFFF, 0xFFFF),
    (0x0F, 0xFFFF, 0x0E),
    (0xF0, 0xFFFF, 0x0EFF),
    (0x12, 0x3456, 0x3558),
    (0x9A, 0xF101, 0xFA0B),
    (0x55, 0xAAAA, 0xAFAF),
    (0x80, 0x8000, 0x8800),
    (8, 8, 0x10),
    (0xA5, 0x1234, 0x1C39),
    (1, 0xFF00, 0xFF01),
];

#[test]
fn digits_packed_and_unpacked(rt: HostRuntime) {
    for &(x, adjust, byte) in &PACKED {
        assert!(rt; pack(x, adjust) == byte, "{x:x} {adjust:x}");
    }
    for &(x, adjust, word) in &UNPACKED {
        assert!(rt; unpk(x, adjust) == word, "{x:x} {adjust:x}");
    }
}

/// A word, how many bits it has, the offset and width of a field in it, and a value: the field, and the word with the
/// value there.
#[rattlefmt::skip]
static FIELDS: [(u64, u8, u8, u8, u32, u32, u64); 22] = [
    (0xA5, 8, 0, 8, 0x3C, 0xA5, 0x3C),
    (0xA5, 8, 0, 1, 0, 1, 0x25),
    (0xA5, 8, 7, 1, 0, 1, 0xA4),
    (0xA5, 8, 3, 4, 0xFF, 2, 0xBF),
    (0x1234, 16, 4, 8, 0xAB, 0x23, 0x1AB4),
    (0x8001, 16, 0, 16, 0x01_0001, 0x8001, 1),
    (0x8001, 16, 15, 1, 2, 1, 0x8000),
    (0x1234_5678, 32, 0, 32, 0xDEAD_BEEF, 0x1234_5678, 0xDEAD_BEEF),
    (0x1234_5678, 32, 0, 4, 0x0F, 1, 0xF234_5678),
    (0x1234_5678, 32, 28, 4, 0xF0, 8, 0x1234_5670),
    (0x1234_5678, 32, 7, 17, 0x01_5555, 0x3456, 0x1355_5578),
    (0xFFFF_FFFF, 32, 1, 31, 0, 0x7FFF_FFFF, 0x8000_0000),
    (0x12_3456_789A, 40, 0, 32, 0, 0x1234_5678, 0x9A),
    (0x12_3456_789A, 40, 8, 32, 0xFFFF_FFFF, 0x3456_789A, 0x12_FFFF_FFFF),
    (0x12_3456_789A, 40, 7, 32, 0x8000_0001, 0x1A2B_3C4D, 0x13_0000_0002),
    (0xFF_FFFF_FFFF, 40, 4, 32, 0, 0xFFFF_FFFF, 0xF0_0000_000F),
    (0, 40, 5, 32, 0xFFFF_FFFF, 0, 0x07_FFFF_FFF8),
    (0x80_0000_00FF, 40, 39, 1, 0, 1, 0x80_0000_00FE),
    (0x80_0000_00FF, 40, 0, 1, 0, 1, 0xFF),
    (0xAB_CDEF, 24, 9, 7, 0x2A, 0x4D, 0xAB_AAEF),
    (0xAB_CDEF, 24, 0, 24, 0x12_3456, 0xAB_CDEF, 0x12_3456),
    (1, 1, 0, 1, 0, 1, 0),
];

/// A field and its width: how many zeros stand before its first one.
#[rattlefmt::skip]
static FIRST_ONES: [(u32, u8, u8); 22] = [
    (0, 1, 1),
    (1, 1, 0),
    (0, 8, 8),
    (1, 8, 7),
    (0x80, 8, 0),
    (0x40, 8, 1),
    (0x7F, 8, 1),
    (0xFF, 8, 0),
    (0, 16, 16),
    (1, 16, 15),
    (0x8000, 16, 0),
    (0x0FFF, 16, 4),
    (0, 32, 32),
    (1, 32, 31),
    (0x8000_0000, 32, 0),
    (0x7FFF_FFFF, 32, 1),
    (0xFFFF_FFFF, 32, 0),
    (0x01_0000, 32, 15),
    (0x1F, 5, 0),
    (0x0F, 5, 1),
    (0, 31, 31),
    (0x2AAA_AAAA, 31, 1),
];

/// Whether a number has so many bits, which is one of the widths that stand in the tables.
fn has_bits(number: u64, bits: u8) -> bool
    ensures some { IsTrue result → 1 ≤ bits }
    ensures few { IsTrue result → bits ≤ 40 }
    ensures number { IsTrue result → number < 2 ^ bits }
{
    match bits {
        1 => number < 2,
        5 => number < 0x20,
        8 => number < 0x100,
        16 => number < 0x1_0000,
        24 => number < 0x100_0000,
        31 => number < 0x8000_0000,
        32 => number < 0x1_0000_0000,
        40 => number < 0x100_0000_0000,
        _ => false,
    }
}

#[test]
fn bit_fields(rt: HostRuntime) {
    for &(word, bits, offset, width, value, field, after) in &FIELDS {
        assert!(rt; has_bits(word, bits));
        assert!(rt; 1 <= width && width <= 32 && offset <= bits && width <= bits - offset);
        assert!(rt;
            field_get(word, bits, offset, width) == field,
            "{word:x} at {offset}"
        );
        assert!(rt;
            field_put(word, bits, offset, width, value) == after,
            "{word:x} at {offset}"
        );
    }
    for &(field, width, zeros) in &FIRST_ONES {
        assert!(rt; has_bits(u64::from(field), width) && width <= 32);
        assert!(rt; field_first(field, width) == zeros, "{field:x} of {width}");
    }
}
