//! Values of the registers of the memory management unit.

use mb_port::Mmu;

/// After reset every register is 0.
pub const MMU_AT_RESET: Mmu = Mmu {
    tc: 0,
    itt0: 0,
    itt1: 0,
    dtt0: 0,
    dtt1: 0,
    mmusr: 0,
    urp: 0,
    srp: 0,
};

/// MMUSR of a page that a transparent register of the data side matches: R and T.
pub const MMUSR_MATCHED: u32 = 3;
