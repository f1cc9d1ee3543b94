//! Products and quotients.

use mb_alu::Divided::{self, Done, Overflow, ZeroDivide};
use mb_alu::Width::{self, Long, Wide, Word};
use mb_alu::{Product, div, mul};

/// The width, the factors and the codes before: the product and its codes.
type Multiplication = (Width, u32, u32, u8, u64, u8);

/// Products without signs and with.
#[rattlefmt::skip]
static PRODUCTS: [(bool, &[Multiplication]); 2] = [
    (false, &[
        // width, x, y, ccr: product, ccr
        (Word, 0, 5, 0x1F, 0, 0x14),
        (Word, 0xFFFF, 0xFFFF, 0, 0xFFFE_0001, 8),
        (Word, 0x1234_0002, 0x4321_0003, 0, 6, 0),
        (Word, 0x8000, 2, 0, 0x01_0000, 0),
        (Long, 0x01_0000, 0xFFFF, 0, 0xFFFF_0000, 8),
        (Long, 0x01_0000, 0x01_0000, 0x10, 0, 0x16),
        (Long, 0xFFFF_FFFF, 0xFFFF_FFFF, 0, 1, 2),
        (Long, 0xFFFF_FFFF, 1, 0, 0xFFFF_FFFF, 8),
        (Wide, 0xFFFF_FFFF, 0xFFFF_FFFF, 0, 0xFFFF_FFFE_0000_0001, 8),
        (Wide, 0x01_0000, 0x01_0000, 0x1F, 0x01_0000_0000, 0x10),
        (Wide, 0x8000_0000, 2, 0, 0x01_0000_0000, 0),
    ]),
    (true, &[
        // width, x, y, ccr: product, ccr
        (Word, 0xFFFF, 0xFFFF, 0x10, 1, 0x10),
        (Word, 0x8000, 0x8000, 0, 0x4000_0000, 0),
        (Word, 0x8000, 0x7FFF, 0, 0xC000_8000, 8),
        (Word, 0xFFFF, 1, 3, 0xFFFF_FFFF, 8),
        (Word, 0x8000, 0, 0, 0, 4),
        (Long, 0xFFFF_FFFF, 0xFFFF_FFFF, 0, 1, 0),
        (Long, 0x8000_0000, 0xFFFF_FFFF, 0, 0x8000_0000, 0x0A),
        (Long, 0x8000_0000, 1, 0x11, 0x8000_0000, 0x18),
        (Long, 0x7FFF_FFFF, 2, 0, 0xFFFF_FFFE, 0x0A),
        (Long, 0x01_0000, 0x8000, 0, 0x8000_0000, 0x0A),
        (Long, 0xFFFF_0000, 0x8000, 0, 0x8000_0000, 8),
        (Long, 0, 0x8000_0000, 0x1F, 0, 0x14),
        (Wide, 0x8000_0000, 0x8000_0000, 0, 0x4000_0000_0000_0000, 0),
        (Wide, 0x8000_0000, 0x7FFF_FFFF, 0, 0xC000_0000_8000_0000, 8),
        (Wide, 0xFFFF_FFFF, 1, 0x10, 0xFFFF_FFFF_FFFF_FFFF, 0x18),
        (Wide, 0, 0xFFFF_FFFF, 2, 0, 4),
    ]),
];

#[test]
fn products(rt: HostRuntime) {
    for &(is_signed, rows) in &PRODUCTS {
        for &(width, x, y, ccr, value, codes) in rows {
            let product = Product { value, ccr: codes };
            assert!(rt;
                mul(is_signed, width, x, y, ccr) == product,
                "{x:x} {y:x}, signed: {is_signed}"
            );
        }
    }
}

macro_rules! done {
    ($quotient:expr, $remainder:expr, $ccr:expr) => {
        Done { quotient: $quotient, remainder: $remainder, ccr: $ccr }
    };
}

/// The width, the divisor, the dividend and the codes before: the answer.
type Division = (Width, u32, u64, u8, Divided);

/// Quotients without signs and with.
#[rattlefmt::skip]
static QUOTIENTS: [(bool, &[Division]); 2] = [
    (false, &[
        // width, divisor, dividend, ccr: answer
        (Word, 1, 0x01_0000, 0, Overflow(2)),
        (Word, 7, 0x64, 0x1F, done!(0x0E, 2, 0x10)),
        (Word, 0xFFFF, 0xFFFE_FFFF, 0, done!(0xFFFF, 0xFFFE, 8)),
        (Word, 0x8000, 0x4000_0000, 0x10, done!(0x8000, 0, 0x18)),
        (Word, 0, 5, 0x1F, ZeroDivide(0x1E)),
        (Word, 0x01_0000, 5, 0x0B, ZeroDivide(0x0A)),
        (Word, 5, 3, 0, done!(0, 3, 4)),
        (Long, 0xFFFF_FFFF, 0xFFFF_FFFF, 0, done!(1, 0, 0)),
        (Long, 2, 0xFFFF_FFFF, 0, done!(0x7FFF_FFFF, 1, 0)),
        (Long, 0, 0, 0x11, ZeroDivide(0x10)),
        (Long, 3, 0x01_0000_0007, 0, done!(2, 1, 0)),
        (Wide, 0xFFFF_FFFF, 0xFFFF_FFFE_0000_0000, 0, done!(0xFFFF_FFFE, 0xFFFF_FFFE, 8)),
        (Wide, 0xFFFF_FFFF, 0xFFFF_FFFE_FFFF_FFFF, 0, done!(0xFFFF_FFFF, 0xFFFF_FFFE, 8)),
        (Wide, 2, 0x02_0000_0000, 0x1E, Overflow(0x1E)),
        (Wide, 0x0A, 0x01_0000_0000, 0, done!(0x1999_9999, 6, 0)),
    ]),
    (true, &[
        // width, divisor, dividend, ccr: answer
        (Word, 0xFFFF, 0x8000, 0, done!(0x8000, 0, 8)),
        (Word, 2, 0xFFFF_0000, 0, done!(0x8000, 0, 8)),
        (Word, 1, 0x8000, 0x15, Overflow(0x16)),
        (Word, 0xFFFE, 7, 0, done!(0xFFFD, 1, 8)),
        (Word, 2, 0xFFFF_FFF9, 0, done!(0xFFFD, 0xFFFF, 8)),
        (Word, 0xFFFE, 0xFFFF_FFF9, 0x10, done!(3, 0xFFFF, 0x10)),
        (Word, 0xFFFF, 0x8000_0000, 0x1C, Overflow(0x1E)),
        (Word, 0x8000, 0x4000_0000, 0, done!(0x8000, 0, 8)),
        (Word, 0x7FFF, 0x3FFF_0001, 0, done!(0x7FFF, 0, 0)),
        (Word, 1, 0xFFFF_8000, 0, done!(0x8000, 0, 8)),
        (Long, 0xFFFF_FFFF, 0x8000_0000, 4, Overflow(6)),
        (Long, 1, 0x8000_0000, 0, done!(0x8000_0000, 0, 8)),
        (Long, 0xFFFF_FFF9, 0x16, 0, done!(0xFFFF_FFFD, 1, 8)),
        (Long, 7, 0xFFFF_FFEA, 0x10, done!(0xFFFF_FFFD, 0xFFFF_FFFF, 0x18)),
        (Long, 0x8000_0000, 0x8000_0000, 0, done!(1, 0, 0)),
        (Long, 0x8000_0000, 0x7FFF_FFFF, 0, done!(0, 0x7FFF_FFFF, 4)),
        (Long, 0, 0x8000_0000, 0x0F, ZeroDivide(0x0E)),
        (Wide, 0xFFFF_FFFF, 0x8000_0000, 0, done!(0x8000_0000, 0, 8)),
        (Wide, 0x8000_0000, 0x4000_0000_0000_0000, 0, done!(0x8000_0000, 0, 8)),
        (Wide, 0x8000_0000, 0x3FFF_FFFF_FFFF_FFFF, 0, done!(0x8000_0001, 0x7FFF_FFFF, 8)),
        (Wide, 0xFFFF_FFFF, 0x8000_0000_0000_0000, 0x1F, Overflow(0x1E)),
        (Wide, 0x8000_0000, 0xC000_0000_0000_0000, 0, Overflow(2)),
        (Wide, 0x8000_0000, 0xC000_0000_8000_0001, 0, done!(0x7FFF_FFFE, 0x8000_0001, 0)),
        (Wide, 3, 0xFFFF_FFFF_FFFF_FFF6, 0, done!(0xFFFF_FFFD, 0xFFFF_FFFF, 8)),
        (Wide, 0, 0x8000_0000_0000_0000, 8, ZeroDivide(8)),
    ]),
];

#[test]
fn quotients(rt: HostRuntime) {
    for &(is_signed, rows) in &QUOTIENTS {
        for &(width, divisor, dividend, ccr, answer) in rows {
            assert!(rt;
                div(is_signed, width, divisor, dividend, ccr) == answer,
                "{dividend:x} by {divisor:x}, signed: {is_signed}"
            );
        }
    }
}
