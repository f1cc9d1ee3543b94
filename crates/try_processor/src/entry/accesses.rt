//! The fields of access errors: frames that were worked out by hand.

ghost use Rattle.std.specs.Prelude.{◌<◌};

use Refused::{Check, Line, Movem, Read, Write};
use arrayvec::ArrayVec;
use mb_entry::{check_fields, line_fields, movem_fields, read_fields, write_fields};
use mb_frames::{Access, Pend};
use mb_port::{Fault, Space};
use mb_writes::{MovemFault, WriteFault};

const PAGE: u32 = 4096;

const LARGE_PAGE: u32 = 8192;

/// A refused write of a long in a page that a translation refuses.
const FAULT: Fault = Fault {
    at: 0x2000,
    len: 4,
    space: Space::Super,
    code: false,
    write: true,
    atc: true,
};

/// No fields.
const NO_FIELDS: Access = Access {
    ea: 0,
    ssw: 0,
    wb3s: 0,
    wb2s: 0,
    wb1s: 0,
    fa: 0,
    wb3a: 0,
    wb3d: 0,
    wb2a: 0,
    wb2d: 0,
    wb1a: 0,
    wb1d: 0,
    pd1: 0,
    pd2: 0,
    pd3: 0,
};

/// What is refused: a read with the address of its operand, a write with that and the pieces left, a line, a transfer
/// of a MOVEM with the address of the first, how many were done and its words, and a check of a frame.
enum Refused {
    Read(u32),
    Write(u32, &'static [Pend]),
    Line([u32; 4]),
    Movem(u32, u8, u32),
    Check,
}

impl Refused {
    /// The fields; of a MOVEM, the next instruction is at $404.
    fn fields(&self, fault: Fault, page: u32) -> Access
        requires { 0 < page }
    {
        match self {
            Read(first) => read_fields(&fault, *first, page),
            Write(first, pieces) => {
                let mut rest = ArrayVec::new();
                let _room = rest.try_extend_from_slice(pieces);
                let first = *first;
                write_fields(&WriteFault { fault, first, rest }, page)
            }
            Line(line) => line_fields(&fault, *line, page),
            Movem(first, done, words) => {
                let (first, done) = (*first, *done);
                movem_fields(&MovemFault { fault, first, done }, *words, 0x404, page)
            }
            Check => check_fields(&fault),
        }
    }
}

struct Case {
    name: &'static str,
    fault: Fault,
    refused: Refused,
    page: u32,
    fields: Access,
}

#[rattlefmt::skip]
static CASES: [Case; 11] = [
    Case {
        name: "a locked byte past memory",
        fault: Fault { at: 0x10000, len: 1, atc: false, ..FAULT }, refused: Read(0x10000), page: PAGE,
        fields: Access { ea: 0x10000, ssw: 0x0325, fa: 0x10000, ..NO_FIELDS },
    },
    Case {
        name: "a long over the end of a page, whose second word is refused",
        fault: Fault { at: 0x3000, len: 2, write: false, ..FAULT }, refused: Read(0x2FFE), page: PAGE,
        fields: Access { ea: 0x2FFE, ssw: 0x0D45, fa: 0x3000, ..NO_FIELDS },
    },
    Case {
        name: "the same within a page of 8 KiB",
        fault: Fault { at: 0x3000, len: 2, write: false, ..FAULT }, refused: Read(0x2FFE), page: LARGE_PAGE,
        fields: Access { ea: 0x2FFE, ssw: 0x0545, fa: 0x3000, ..NO_FIELDS },
    },
    Case {
        name: "a user's fetch",
        fault: Fault { at: 0x3000, len: 2, space: Space::User, code: true, write: false, atc: true },
        refused: Read(0x2FFE), page: PAGE,
        fields: Access { ea: 0x3000, ssw: 0x0542, fa: 0x3000, ..NO_FIELDS },
    },
    Case {
        name: "a write over the end of a page",
        fault: Fault { len: 2, ..FAULT },
        refused: Write(0x1FFF, &[
            Pend { at: 0x2000, len: 2, value: 0x2233 }, Pend { at: 0x2002, len: 1, value: 0x44 },
        ]),
        page: PAGE,
        fields: Access {
            ea: 0x1FFF, ssw: 0x0C45, wb2s: 0x00A5, wb1s: 0x00C5, fa: 0x2000,
            wb2a: 0x2002, wb2d: 0x44, wb1a: 0x2000, wb1d: 0x2233_0000, ..NO_FIELDS
        },
    },
    Case {
        name: "a line",
        fault: Fault { len: 16, ..FAULT },
        refused: Line([0x0011_2233, 0x4455_6677, 0x8899_AABB, 0xCCDD_EEFF]), page: PAGE,
        fields: Access {
            ea: 0x2000, ssw: 0x046D, wb1s: 0x00ED, fa: 0x2000, wb1a: 0x2000,
            wb1d: 0x0011_2233, pd1: 0x4455_6677, pd2: 0x8899_AABB, pd3: 0xCCDD_EEFF, ..NO_FIELDS
        },
    },
    Case {
        name: "up, at the first byte of a transfer: no other page than the transfer's, though another than EA's",
        fault: FAULT, refused: Movem(0x1FF8, 2, 0x48D0_000F), page: PAGE,
        fields: Access { ea: 0x1FF8, ssw: 0x1405, fa: 0x2000, pd1: 0x404, pd2: 0x48D0_000F, pd3: 2, ..NO_FIELDS },
    },
    Case {
        name: "a load of words from an odd address, at the second byte of the second",
        fault: Fault { len: 1, write: false, ..FAULT }, refused: Movem(0x1FFD, 1, 0x4C98_000F), page: PAGE,
        fields: Access { ea: 0x1FFD, ssw: 0x1D25, fa: 0x2000, pd1: 0x404, pd2: 0x4C98_000F, pd3: 1, ..NO_FIELDS },
    },
    Case {
        name: "down, at the third transfer",
        fault: Fault { at: 0x1FFC, ..FAULT }, refused: Movem(0x2004, 2, 0x48E0_F000), page: PAGE,
        fields: Access { ea: 0x2004, ssw: 0x1405, fa: 0x1FFC, pd1: 0x404, pd2: 0x48E0_F000, pd3: 2, ..NO_FIELDS },
    },
    Case {
        name: "a check of a long of a frame",
        fault: Fault { at: 0x3000, ..FAULT }, refused: Check, page: PAGE,
        fields: Access { ea: 0x3000, ssw: 0x0405, fa: 0x3000, ..NO_FIELDS },
    },
    Case {
        name: "a check of a word past memory",
        fault: Fault { at: 0x10000, len: 2, atc: false, ..FAULT }, refused: Check, page: PAGE,
        fields: Access { ea: 0x10000, ssw: 0x0045, fa: 0x10000, ..NO_FIELDS },
    },
];

#[test]
fn fields_by_hand(rt: HostRuntime) {
    for case in &CASES {
        assert!(rt; case.page > 0);
        assert!(rt;
            case.refused.fields(case.fault, case.page) == case.fields,
            "{}",
            case.name
        );
    }
}
