//! Exceptions over a memory of longs, by hand.

mod accesses;
mod entries;
mod returns;

use def_processor::Cause;
use mb_frames::Access;
use mb_instr::Regs;
use mb_model::Cpu;

/// A processor whose stacks are at $7000, $8000 and $9000, at $400.
fn processor(sr: u16) -> Cpu {
    Cpu {
        regs: Regs {
            d: [0xD0, 0xD1, 0xD2, 0xD3, 0xD4, 0xD5, 0xD6, 0xD7],
            a: [0xA0, 0xA1, 0xA2, 0xA3, 0xA4, 0xA5, 0xA6],
            usp: 0x7000,
            isp: 0x8000,
            msp: 0x9000,
            pc: 0x400,
            sr,
        },
        vbr: 0,
        sfc: 0,
        dfc: 0,
        cacr: 0,
        stopped: false,
    }
}

/// An illegal instruction at $400.
const ILLEGAL: Cause = Cause {
    vector: 4,
    pc: 0x400,
    address: 0,
    access: None,
    level: 0,
};

/// An interrupt of level 6 at $400.
const TIMER: Cause = Cause {
    vector: 30,
    level: 6,
    ..ILLEGAL
};

/// An access error at $400.
const ACCESS_ERROR: Cause = Cause {
    vector: 2,
    access: Some(FIELDS),
    ..ILLEGAL
};

/// The fields of an access error, each another number. CM is clear.
const FIELDS: Access = Access {
    ea: 0x0102_0304,
    ssw: 0x0C45,
    wb3s: 0x00E1,
    wb2s: 0x00E2,
    wb1s: 0x00E3,
    fa: 0x1112_1314,
    wb3a: 0x2122_2324,
    wb3d: 0x3132_3334,
    wb2a: 0x4142_4344,
    wb2d: 0x5152_5354,
    wb1a: 0x6162_6364,
    wb1d: 0x7172_7374,
    pd1: 0x8182_8384,
    pd2: 0x9192_9394,
    pd3: 0xA1A2_A3A4,
};
