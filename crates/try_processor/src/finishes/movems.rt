//! A MOVEM to registers, which goes on.

use super::{GUEST, has_transfers};
use crate::bench::{Bench, NO_HOLE, Trial, check, put, stands, start};
use crate::steps::processor;
use mb_model::Cpu;
use mb_step::StepEnd::Went;
use try_vector::VectorPort;
use vm_inject::finish_movem;

/// MOVEM.L (A0)+,D4/D5.
const LOAD: u32 = 0x4CD8_0030;

/// The frame of the second transfer.
#[rattlefmt::skip]
static FRAME: [u32; 15] = [
    0x0015_0000, 0x0400_7008, 0x1000, 0x1101_0000, 0, 0x1004, 0, 0, 0, 0, 0, 0, 0x0404, LOAD, 1,
];

/// Whether the second transfer is refused: the first stays, and A0 is as it was.
fn is_refused(cpu: &mut Cpu, port: &mut VectorPort) -> bool {
    put(port, 0x1000, 4, 0xAAAA_0001);
    finish_movem(LOAD, 0x1000, 0, 0x404, cpu, port) == Went
        && (cpu.regs.sr, cpu.regs.pc, cpu.regs.isp) == (0x2015, 0x500, 0x7FC4)
        && (cpu.regs.d[4], cpu.regs.d[5], cpu.regs.a[0]) == (0xAAAA_0001, 5, 0x1000)
        && stands(port, 0x7FC4, &FRAME)
}

/// Whether it goes on with that one, from the data registers that were left.
fn goes_on(d: [u32; 8], port: &mut VectorPort) -> bool {
    port.hole = NO_HOLE;
    put(port, 0x1000, 4, 0);
    put(port, 0x1004, 4, 0xBBBB_0002);
    let mut cpu = processor(GUEST);
    cpu.regs.d = d;
    has_transfers(LOAD, 1)
        && finish_movem(LOAD, 0x1000, 1, 0x404, &mut cpu, port) == Went
        && (cpu.regs.sr, cpu.regs.pc, cpu.regs.isp) == (0x0015, 0x404, 0x8000)
        && (cpu.regs.d[4], cpu.regs.d[5], cpu.regs.a[0]) == (0xAAAA_0001, 0xBBBB_0002, 0x1008)
}

/// The transfers of that MOVEM.
struct Transfers;

static TRANSFERS: [Transfers; 1] = [Transfers];

impl Trial for Transfers {
    fn passes(&self, bench: &mut Bench) -> bool {
        start(&mut bench.port, 0x1007, &[]);
        let mut cpu = processor(GUEST);
        is_refused(&mut cpu, &mut bench.port) && goes_on(cpu.regs.d, &mut bench.port)
    }
}

#[test]
fn transfers_to_registers(rt: HostRuntime) {
    check(&rt, rt.alloc(), &TRANSFERS);
}
