//! Pieces, lines and transfers of a MOVEM that are left to be written.

use super::{NO_VECTORS, Row, has_transfers};
use crate::bench::{Bench, CODE, NO_HOLE, Trial, check};
use Left::{Line, Movem, Pieces};
use mb_frames::Pend;
use mb_model::Cpu;
use mb_step::StepEnd::{self, Halted, Went};
use try_vector::VectorPort;
use vm_inject::{finish_line, finish_movem, finish_writes};

/// What is left: the pieces, the line, or the MOVEM after so many transfers.
enum Left {
    Pieces,
    Line,
    Movem(u8),
}

/// $11223344 of a long at $2001.
#[rattlefmt::skip]
static PIECES: [Pend; 3] = [
    Pend { at: 0x2001, len: 1, value: 0x11 },
    Pend { at: 0x2002, len: 2, value: 0x2233 },
    Pend { at: 0x2004, len: 1, value: 0x44 },
];

const LINE: [u32; 4] = [0x1111_1111, 0x2222_2222, 0x3333_3333, 0x4444_4444];

/// MOVEM.L D0/D1,(A0).
const STORE: u32 = 0x48D0_0003;

/// What is left, and its finish.
struct Rest {
    left: Left,
    row: Row<'static>,
}

#[rattlefmt::skip]
static ROWS: [Rest; 20] = [
    // all pieces
    Rest { left: Pieces, row: Row { hole: NO_HOLE, isp: 0x8000, vbr: 0,
        end: Went, after: (0x0015, 0x40A, 0x8000), longs: &[0x0011_2233, 0x4400_0000], frame: &[] } },
    // first piece
    Rest { left: Pieces, row: Row { hole: 0x2001, isp: 0x8000, vbr: 0,
        end: Went, after: (0x2015, 0x500, 0x7FC4), longs: &[0, 0],
        frame: &[0x0015_0000, 0x040A_7008, 0x2001, 0x0021_00A1, 0x00C1_00A1, 0x2001, 0x2004, 0x44, 0x2002, 0x2233,
            0x2001, 0x0011_0000, 0, 0, 0] } },
    // second piece
    Rest { left: Pieces, row: Row { hole: 0x2003, isp: 0x8000, vbr: 0,
        end: Went, after: (0x2015, 0x500, 0x7FC4), longs: &[0x0011_0000, 0],
        frame: &[0x0015_0000, 0x040A_7008, 0x2001, 0x0041_0000, 0x00A1_00C1, 0x2002, 0, 0, 0x2004, 0x44, 0x2002,
            0x2233, 0, 0, 0] } },
    // third piece
    Rest { left: Pieces, row: Row { hole: 0x2004, isp: 0x8000, vbr: 0,
        end: Went, after: (0x2015, 0x500, 0x7FC4), longs: &[0x0011_2233, 0],
        frame: &[0x0015_0000, 0x040A_7008, 0x2001, 0x0021_0000, 0x0000_00A1, 0x2004, 0, 0, 0, 0, 0x2004, 0x4400_0000,
            0, 0, 0] } },
    // pieces, frame without a place
    Rest { left: Pieces, row: Row { hole: 0x2004, isp: 0x1_0040, vbr: 0,
        end: Halted, after: (0x0015, 0x40A, 0x1_0040), longs: &[0x0011_2233, 0], frame: &[] } },
    // pieces, no vector
    Rest { left: Pieces, row: Row { hole: 0x2004, isp: 0x8000, vbr: NO_VECTORS,
        end: Halted, after: (0x2015, 0x40A, 0x7FC4), longs: &[0x0011_2233, 0],
        frame: &[0x0015_0000, 0x040A_7008, 0x2001, 0x0021_0000, 0x0000_00A1, 0x2004] } },
    // line
    Rest { left: Line, row: Row { hole: NO_HOLE, isp: 0x8000, vbr: 0,
        end: Went, after: (0x0015, 0x404, 0x8000), longs: &LINE, frame: &[] } },
    // refused line
    Rest { left: Line, row: Row { hole: 0x200F, isp: 0x8000, vbr: 0,
        end: Went, after: (0x2015, 0x500, 0x7FC4), longs: &[0, 0, 0, 0],
        frame: &[0x0015_0000, 0x0404_7008, 0x2000, 0x0069_0000, 0x0000_00E9, 0x2000, 0, 0, 0, 0, 0x2000, 0x1111_1111,
            0x2222_2222, 0x3333_3333, 0x4444_4444] } },
    // line, frame without a place
    Rest { left: Line, row: Row { hole: 0x200F, isp: 0x1_0040, vbr: 0,
        end: Halted, after: (0x0015, 0x404, 0x1_0040), longs: &[0, 0, 0, 0], frame: &[] } },
    // line, no vector
    Rest { left: Line, row: Row { hole: 0x200F, isp: 0x8000, vbr: NO_VECTORS,
        end: Halted, after: (0x2015, 0x404, 0x7FC4), longs: &[0, 0, 0, 0],
        frame: &[0x0015_0000, 0x0404_7008, 0x2000, 0x0069_0000, 0x0000_00E9, 0x2000] } },
    // MOVEM, all pieces
    Rest { left: Movem(0), row: Row { hole: NO_HOLE, isp: 0x8000, vbr: 0,
        end: Went, after: (0x0015, 0x404, 0x8000), longs: &[0x00D0_D0D0, 0xD0D1_D1D1, 0xD100_0000], frame: &[] } },
    // MOVEM, a transfer that was done is not done again
    Rest { left: Movem(1), row: Row { hole: NO_HOLE, isp: 0x8000, vbr: 0,
        end: Went, after: (0x0015, 0x404, 0x8000), longs: &[0, 0x00D1_D1D1, 0xD100_0000], frame: &[] } },
    // MOVEM, first piece of the first
    Rest { left: Movem(0), row: Row { hole: 0x1001, isp: 0x8000, vbr: 0,
        end: Went, after: (0x2015, 0x500, 0x7FC4), longs: &[0, 0, 0],
        frame: &[0x0015_0000, 0x0400_7008, 0x1001, 0x1021_0000, 0, 0x1001, 0, 0, 0, 0, 0, 0, 0x0404, STORE, 0] } },
    // MOVEM, second piece of the first
    Rest { left: Movem(0), row: Row { hole: 0x1002, isp: 0x8000, vbr: 0,
        end: Went, after: (0x2015, 0x500, 0x7FC4), longs: &[0x00D0_0000, 0, 0],
        frame: &[0x0015_0000, 0x0400_7008, 0x1001, 0x1041_0000, 0, 0x1002, 0, 0, 0, 0, 0, 0, 0x0404, STORE, 0] } },
    // MOVEM, third piece of the first
    Rest { left: Movem(0), row: Row { hole: 0x1004, isp: 0x8000, vbr: 0,
        end: Went, after: (0x2015, 0x500, 0x7FC4), longs: &[0x00D0_D0D0, 0, 0],
        frame: &[0x0015_0000, 0x0400_7008, 0x1001, 0x1021_0000, 0, 0x1004, 0, 0, 0, 0, 0, 0, 0x0404, STORE, 0] } },
    // MOVEM, first piece of the second
    Rest { left: Movem(0), row: Row { hole: 0x1005, isp: 0x8000, vbr: 0,
        end: Went, after: (0x2015, 0x500, 0x7FC4), longs: &[0x00D0_D0D0, 0xD000_0000, 0],
        frame: &[0x0015_0000, 0x0400_7008, 0x1001, 0x1021_0000, 0, 0x1005, 0, 0, 0, 0, 0, 0, 0x0404, STORE, 1] } },
    // MOVEM, second piece of the second
    Rest { left: Movem(0), row: Row { hole: 0x1006, isp: 0x8000, vbr: 0,
        end: Went, after: (0x2015, 0x500, 0x7FC4), longs: &[0x00D0_D0D0, 0xD0D1_0000, 0],
        frame: &[0x0015_0000, 0x0400_7008, 0x1001, 0x1041_0000, 0, 0x1006, 0, 0, 0, 0, 0, 0, 0x0404, STORE, 1] } },
    // MOVEM, third piece of the second
    Rest { left: Movem(0), row: Row { hole: 0x1008, isp: 0x8000, vbr: 0,
        end: Went, after: (0x2015, 0x500, 0x7FC4), longs: &[0x00D0_D0D0, 0xD0D1_D1D1, 0],
        frame: &[0x0015_0000, 0x0400_7008, 0x1001, 0x1021_0000, 0, 0x1008, 0, 0, 0, 0, 0, 0, 0x0404, STORE, 1] } },
    // MOVEM, frame without a place
    Rest { left: Movem(0), row: Row { hole: 0x1005, isp: 0x1_0040, vbr: 0,
        end: Halted, after: (0x0015, 0x400, 0x1_0040), longs: &[0x00D0_D0D0, 0xD000_0000, 0], frame: &[] } },
    // MOVEM, no vector
    Rest { left: Movem(0), row: Row { hole: 0x1005, isp: 0x8000, vbr: NO_VECTORS,
        end: Halted, after: (0x2015, 0x400, 0x7FC4), longs: &[0x00D0_D0D0, 0xD000_0000, 0],
        frame: &[0x0015_0000, 0x0400_7008, 0x1001, 0x1021_0000, 0, 0x1005] } },
];

/// Whether what is left is written as it should be.
fn is_written(left: &Left, row: &Row, port: &mut VectorPort) -> bool {
    // PC before, and where it writes.
    let (pc, at) = match left {
        Pieces => (0x40A, 0x2000),
        Line => (0x404, 0x2000),
        Movem(_) => (CODE, 0x1000),
    };
    let mut cpu = row.processor(pc);
    match write_rest(left, &mut cpu, port) {
        Some(end) => row.is_met(end, &cpu, at, port),
        None => false,
    }
}

/// Writes what is left, where there are so many transfers.
fn write_rest(left: &Left, cpu: &mut Cpu, port: &mut VectorPort) -> Option<StepEnd> {
    match left {
        Pieces => Some(finish_writes(&PIECES, 0x2001, cpu, port)),
        Line => Some(finish_line(0x2000, LINE, cpu, port)),
        Movem(done) => {
            if !has_transfers(STORE, u32::from(*done)) {
                return None;
            }
            Some(finish_movem(STORE, 0x1001, *done, 0x404, cpu, port))
        }
    }
}

impl Trial for Rest {
    fn passes(&self, bench: &mut Bench) -> bool {
        self.row.begin(&mut bench.port);
        is_written(&self.left, &self.row, &mut bench.port)
    }
}

#[test]
fn writes(rt: HostRuntime) {
    check(&rt, rt.alloc(), &ROWS);
}
