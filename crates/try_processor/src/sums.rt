//! Worked values, and the extremes of each size.

use Operation::{Add, AddExtended, Bits, Extend, Sub, SubExtended};
use mb_alu::LogicKind::{self, And, Eor, Not, Or, Pass};
use mb_alu::{Flagged, add, compare, extend, logic, sub};
use mb_instr::Size::{self, Byte, Long, Word};

/// What is made of x and y.
#[derive(Clone, Copy, Debug)]
enum Operation {
    Add,
    AddExtended,
    /// x from y.
    Sub,
    SubExtended,
    Bits(LogicKind),
    /// x alone, which has this size, to the size of the result.
    Extend(Size),
}

/// What an operation makes.
fn made(operation: Operation, size: Size, x: u32, y: u32, ccr: u8) -> Flagged {
    match operation {
        Add => add(size, x, y, ccr, false),
        AddExtended => add(size, x, y, ccr, true),
        Sub => sub(size, x, y, ccr, false),
        SubExtended => sub(size, x, y, ccr, true),
        Bits(kind) => logic(kind, size, x, y, ccr),
        Extend(from) => extend(from, size, x, ccr),
    }
}

/// An operation, its size, x, y and the codes before: the result and its codes.
#[rattlefmt::skip]
static RESULTS: [(Operation, Size, u32, u32, u8, u32, u8); 87] = [
    (Add, Byte, 1, 1, 0x1F, 2, 0),
    (Add, Byte, 1, 0xFF, 0, 0, 0x15),
    (Add, Byte, 1, 0x7F, 0, 0x80, 0x0A),
    (Add, Byte, 0x80, 0x80, 0, 0, 0x17),
    (Add, Byte, 0xFF, 0xFF, 0, 0xFE, 0x19),
    (Add, Byte, 0x1200, 0x3400, 0, 0, 4),
    (AddExtended, Byte, 0xFF, 0, 0x10, 0, 0x11),
    (AddExtended, Byte, 0xFF, 0, 0x14, 0, 0x15),
    (AddExtended, Byte, 0, 0, 4, 0, 4),
    (AddExtended, Byte, 0x7F, 0, 0x10, 0x80, 0x0A),
    (Add, Word, 1, 0x7FFF, 0x10, 0x8000, 0x0A),
    (Add, Word, 0x8000, 0x8000, 0, 0, 0x17),
    (Add, Word, 0xFFFF, 1, 0, 0, 0x15),
    (Add, Word, 0x8000, 0x7FFF, 0, 0xFFFF, 8),
    (AddExtended, Word, 0xFFFF, 0xFFFF, 0x1F, 0xFFFF, 0x19),
    (Add, Word, 0xFF, 1, 0, 0x0100, 0),
    (Add, Long, 0x7FFF_FFFF, 1, 0, 0x8000_0000, 0x0A),
    (Add, Long, 0x8000_0000, 0x8000_0000, 0, 0, 0x17),
    (Add, Long, 0xFFFF_FFFF, 1, 0, 0, 0x15),
    (AddExtended, Long, 0xFFFF_FFFF, 0xFFFF_FFFF, 0x10, 0xFFFF_FFFF, 0x19),
    (Add, Long, 8, 0x01_0000, 0xE0, 0x01_0008, 0),
    (AddExtended, Long, 0, 0, 0, 0, 0),
    (Sub, Byte, 1, 3, 0x1F, 2, 0),
    (Sub, Byte, 3, 1, 0, 0xFE, 0x19),
    (Sub, Byte, 1, 0x80, 0, 0x7F, 2),
    (Sub, Byte, 0x80, 0x7F, 0, 0xFF, 0x1B),
    (Sub, Byte, 5, 5, 0x1B, 0, 4),
    (Sub, Byte, 0xFF, 0, 0, 1, 0x11),
    (Sub, Byte, 0x1234, 0x5634, 0, 0, 4),
    (SubExtended, Byte, 0x7F, 0x80, 0x10, 0, 2),
    (SubExtended, Byte, 0, 0, 0x14, 0xFF, 0x19),
    (SubExtended, Byte, 0, 0, 4, 0, 4),
    (SubExtended, Byte, 0, 0, 0, 0, 0),
    (SubExtended, Byte, 0xFF, 0xFF, 0x10, 0xFF, 0x19),
    (Sub, Byte, 0x80, 0, 0, 0x80, 0x1B),
    (Sub, Word, 1, 0x8000, 0, 0x7FFF, 2),
    (Sub, Word, 0x8000, 0, 0, 0x8000, 0x1B),
    (Sub, Word, 0xFFFF, 0x7FFF, 0, 0x8000, 0x1B),
    (Sub, Word, 0x0100, 0xFF, 0, 0xFFFF, 0x19),
    (SubExtended, Word, 0xFFFF, 0xFFFF, 0x14, 0xFFFF, 0x19),
    (Sub, Word, 0x7FFF, 0xFFFE, 0, 0x7FFF, 2),
    (Sub, Long, 1, 0x8000_0000, 0, 0x7FFF_FFFF, 2),
    (Sub, Long, 0x8000_0000, 0, 0, 0x8000_0000, 0x1B),
    (Sub, Long, 0xFFFF_FFFF, 0x7FFF_FFFF, 0, 0x8000_0000, 0x1B),
    (SubExtended, Long, 0, 0, 0x10, 0xFFFF_FFFF, 0x19),
    (SubExtended, Long, 0xFFFF_FFFF, 0xFFFF_FFFF, 0x15, 0xFFFF_FFFF, 0x19),
    (Sub, Long, 0x1234_5678, 0x1234_5679, 0xE0, 1, 0),
    (Bits(And), Byte, 0x0F, 0x3C, 0x1F, 0x0C, 0x10),
    (Bits(And), Byte, 0xF0, 0x0F, 0, 0, 4),
    (Bits(And), Word, 0x0F_8001, 0x0F_FFFF, 3, 0x8001, 8),
    (Bits(And), Long, 0xFFFF_FFFF, 0x8000_0000, 0, 0x8000_0000, 8),
    (Bits(Or), Byte, 0, 0, 0x0B, 0, 4),
    (Bits(Or), Byte, 0x80, 1, 0, 0x81, 8),
    (Bits(Or), Word, 0x0F0F, 0xF0, 0x10, 0x0FFF, 0x10),
    (Bits(Or), Long, 0xFFFF, 0x7FFF_0000, 0x1F, 0x7FFF_FFFF, 0x10),
    (Bits(Eor), Byte, 0xFF, 0xFF, 0, 0, 4),
    (Bits(Eor), Byte, 0x01FF, 0, 0, 0xFF, 8),
    (Bits(Eor), Word, 0xAAAA, 0x5555, 0, 0xFFFF, 8),
    (Bits(Eor), Long, 0x1234_5678, 0x1234_5679, 0x12, 1, 0x10),
    (Bits(Not), Byte, 0, 0x55, 0, 0xFF, 8),
    (Bits(Not), Byte, 0xFF, 0x55, 0x1B, 0, 0x14),
    (Bits(Not), Word, 0x7FFF, 0, 0, 0x8000, 8),
    (Bits(Not), Long, 0xFFFF_FFFE, 0, 0, 1, 0),
    (Bits(Pass), Byte, 0xABCD_EF00, 0xFF, 0xFF, 0, 0x14),
    (Bits(Pass), Byte, 0x80, 0, 0, 0x80, 8),
    (Bits(Pass), Word, 0x01_7FFF, 0, 0x0F, 0x7FFF, 0),
    (Bits(Pass), Long, 0x8000_0000, 0, 0x15, 0x8000_0000, 0x18),
    (Extend(Byte), Word, 0x80, 0, 0, 0xFF80, 8),
    (Extend(Byte), Word, 0x7F, 0, 0x1F, 0x7F, 0x10),
    (Extend(Byte), Word, 0x1200, 0, 3, 0, 4),
    (Extend(Byte), Word, 0xFF, 0, 0, 0xFFFF, 8),
    (Extend(Byte), Long, 0x80, 0, 0, 0xFFFF_FF80, 8),
    (Extend(Byte), Long, 0x7F, 0, 0, 0x7F, 0),
    (Extend(Byte), Long, 0, 0, 0x10, 0, 0x14),
    (Extend(Byte), Long, 0xFFFF_FF01, 0, 0, 1, 0),
    (Extend(Word), Long, 0x8000, 0, 0, 0xFFFF_8000, 8),
    (Extend(Word), Long, 0x7FFF, 0, 0x0B, 0x7FFF, 0),
    (Extend(Word), Long, 0xFFFF, 0, 0x10, 0xFFFF_FFFF, 0x18),
    (Extend(Word), Long, 0x01_0000, 0, 0, 0, 4),
    (Extend(Word), Long, 0x303C_8000, 0, 0, 0xFFFF_8000, 8),
    (Extend(Byte), Byte, 0x01FF, 0, 0, 0xFF, 8),
    (Extend(Word), Word, 0x01_8000, 0, 0, 0x8000, 8),
    (Extend(Long), Long, 0x8000_0000, 0, 0, 0x8000_0000, 8),
    (Extend(Long), Long, 0x7FFF_FFFF, 0, 0, 0x7FFF_FFFF, 0),
    (Extend(Word), Byte, 0x80FF, 0, 0, 0xFF, 8),
    (Extend(Word), Byte, 0x8000, 0, 0, 0, 4),
    (Extend(Long), Word, 0x01_7FFF, 0, 0, 0x7FFF, 0),
];

#[test]
fn results(rt: HostRuntime) {
    for &(operation, size, x, y, ccr, value, codes) in &RESULTS {
        assert!(rt;
            made(operation, size, x, y, ccr) == Flagged { value, ccr: codes },
            "{operation:?} {size:?} {x:x} {y:x}"
        );
    }
}

/// A size, x, y and the codes before: the codes.
#[rattlefmt::skip]
static COMPARISONS: [(Size, u32, u32, u8, u8); 22] = [
    // size, x, y, ccr: ccr
    (Byte, 1, 3, 0x1F, 0x10),
    (Byte, 3, 1, 0, 9),
    (Byte, 3, 1, 0x10, 0x19),
    (Byte, 0x80, 0x7F, 0x10, 0x1B),
    (Byte, 0x7F, 0x80, 0, 2),
    (Byte, 0, 0, 0x1B, 0x14),
    (Byte, 0xFF, 0xFF, 3, 4),
    (Byte, 0x0100, 0x0200, 0x10, 0x14),
    (Byte, 0, 0x80, 0, 8),
    (Byte, 0x80, 0, 0, 0x0B),
    (Word, 0x8000, 0x7FFF, 0, 0x0B),
    (Word, 0x7FFF, 0x8000, 0x10, 0x12),
    (Word, 1, 0, 0x10, 0x19),
    (Word, 0xFFFF, 0, 0, 1),
    (Word, 0xFF, 0x0100, 0x1F, 0x10),
    (Word, 0x01_0005, 5, 0, 4),
    (Long, 0x8000_0000, 0x7FFF_FFFF, 0, 0x0B),
    (Long, 0x7FFF_FFFF, 0x8000_0000, 0x10, 0x12),
    (Long, 1, 0, 0, 9),
    (Long, 0, 0xFFFF_FFFF, 0, 8),
    (Long, 0xFFFF_FFFF, 0, 0x10, 0x11),
    (Long, 0x1000, 0x1000, 0xFF, 0x14),
];

#[test]
fn comparisons(rt: HostRuntime) {
    for &(size, x, y, ccr, codes) in &COMPARISONS {
        assert!(rt; compare(size, x, y, ccr) == codes, "{x:x} {y:x}");
    }
}
