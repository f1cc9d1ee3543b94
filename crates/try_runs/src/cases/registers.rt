//! The registers of a machine, one after the other.

ghost use Rattle.std.specs.Prelude.{◌≡◌};
ghost use Rattle.try_runs.specs.Cases.{registers_of};

use mb_instr::Regs;
use mb_model::Cpu;
use mb_port::Mmu;

/// How many there are.
pub const COUNT: usize = 32;

/// All registers, in the order of [`NAMES`].
pub type Registers = [u32; COUNT];

/// The names of the registers, each at its place.
#[rattlefmt::skip]
pub static NAMES: [&str; COUNT] = [
    "D0", "D1", "D2", "D3", "D4", "D5", "D6", "D7",
    "A0", "A1", "A2", "A3", "A4", "A5", "A6",
    "USP", "ISP", "MSP", "PC", "SR",
    "VBR", "SFC", "DFC", "CACR",
    "TC", "URP", "SRP", "ITT0", "ITT1", "DTT0", "DTT1", "MMUSR",
];

// The places of all but the further data and address registers.
pub const D0: usize = 0;

pub const A0: usize = 8;

pub const USP: usize = 15;

pub const ISP: usize = 16;

pub const MSP: usize = 17;

pub const PC: usize = 18;

pub const SR: usize = 19;

pub const VBR: usize = 20;

pub const SFC: usize = 21;

pub const DFC: usize = 22;

pub const CACR: usize = 23;

pub const TC: usize = 24;

pub const URP: usize = 25;

pub const SRP: usize = 26;

pub const ITT0: usize = 27;

pub const ITT1: usize = 28;

pub const DTT0: usize = 29;

pub const DTT1: usize = 30;

pub const MMUSR: usize = 31;

/// The place of the register with a name.
pub fn place_of(name: &[u8]) -> Option<usize> {
    NAMES.iter().position(|known| known.as_bytes() == name)
}

/// The registers of a machine.
#[rattlefmt::skip]
pub fn registers_of(cpu: &Cpu, mmu: &Mmu) -> Registers
    ensures { result ≡ registers_of cpu.now mmu.now }
{
    let Regs { d, a, usp, isp, msp, pc, sr } = cpu.regs;
    let [d0, d1, d2, d3, d4, d5, d6, d7] = d;
    let [a0, a1, a2, a3, a4, a5, a6] = a;
    [
        d0, d1, d2, d3, d4, d5, d6, d7, a0, a1, a2, a3, a4, a5, a6,
        usp, isp, msp, pc, u32::from(sr),
        cpu.vbr, u32::from(cpu.sfc), u32::from(cpu.dfc), cpu.cacr,
        mmu.tc, mmu.urp, mmu.srp, mmu.itt0, mmu.itt1, mmu.dtt0, mmu.dtt1, mmu.mmusr,
    ]
}
