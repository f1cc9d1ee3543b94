//! Rows by hand, over a vector of longs.

use crate::bench::{Bench, Trial, check, put};
use Change::{A0, A3, D0, D1, Isp, Long, Mmusr, Msp, Sr, Stopped, Usp};
use mb_decode::{Decoded, decode};
use mb_instr::{ControlRegister, Instr, Regs, System};
use mb_model::Cpu;
use mb_port::{Mmu, Space};
use mb_system::perform_system;
use mb_writes::Ended;
use try_vector::VectorPort;

/// Where the instruction stands.
const AT: u32 = 0x400;

/// A byte that no access may touch.
const HOLE: u32 = 0x3001;

/// A supervisor with another number in each register.
fn supervisor() -> Cpu {
    Cpu {
        regs: Regs {
            d: [
                0xD0D0_8081,
                0xD1D1_D1D1,
                0xFFFF_FFFF,
                0xD3D3_D3D3,
                0xD4D4_D4D4,
                0xD5D5_D5D5,
                0xD6D6_D6D6,
                0xD7D7_D7D7,
            ],
            a: [0x1000, 0x2000, 0x3000, 0xA3A3_A3A3, 0x4000, 0x5000, 0x6000],
            usp: 0x7000,
            isp: 0x8000,
            msp: 0x9000,
            pc: AT,
            sr: 0x2704,
        },
        vbr: 0x1111_1111,
        sfc: 1,
        dfc: 5,
        cacr: 0x8000_0000,
        stopped: false,
    }
}

/// The registers of the memory management unit are all 9.
const NINES: Mmu = Mmu {
    tc: 9,
    itt0: 9,
    itt1: 9,
    dtt0: 9,
    dtt1: 9,
    mmusr: 9,
    urp: 9,
    srp: 9,
};

/// Puts a long at $1000 into memory, and makes it refuse one byte.
fn begin(port: &mut VectorPort) {
    put(port, 0x1000, 4, 0x8182_8384);
    port.mmu = NINES;
    port.hole = HOLE;
}

/// Carries out the privileged instruction that the words are; `None` where they are none, and for RTE.
fn performed(words: &[u16], cpu: &mut Cpu, port: &mut VectorPort) -> Option<Ended> {
    match &decode(words) {
        Decoded::Whole(Instr::System(instruction), length) => {
            if let System::Rte = instruction {
                return None;
            }
            cpu.regs.pc = AT.wrapping_add(2 * u32::from(*length));
            Some(perform_system(instruction, AT, cpu, port))
        }
        _ => None,
    }
}

/// What an instruction changes, beside PC.
enum Change {
    D0(u32),
    D1(u32),
    A0(u32),
    A3(u32),
    Usp(u32),
    Isp(u32),
    Msp(u32),
    Sr(u16),
    Stopped,
    Mmusr(u32),
    /// A long of memory, with its address.
    Long(u32, u32),
}

impl Change {
    fn make(&self, cpu: &mut Cpu, port: &mut VectorPort) {
        match self {
            D0(long) => cpu.regs.d[0] = *long,
            D1(long) => cpu.regs.d[1] = *long,
            A0(long) => cpu.regs.a[0] = *long,
            A3(long) => cpu.regs.a[3] = *long,
            Usp(at) => cpu.regs.usp = *at,
            Isp(at) => cpu.regs.isp = *at,
            Msp(at) => cpu.regs.msp = *at,
            Sr(word) => cpu.regs.sr = *word,
            Stopped => cpu.stopped = true,
            Mmusr(long) => port.mmu.mmusr = *long,
            Long(at, long) => put(port, *at, 4, *long),
        }
    }
}

/// An instruction, SR and the interrupt stack pointer before it, whether T0 asks for a trace after it, and all that it
/// changes.
struct Row {
    words: &'static [u16],
    sr: u16,
    isp: u32,
    flow: bool,
    changes: &'static [Change],
}

#[rattlefmt::skip]
static ROWS: [Row; 41] = [
    // The status register.
    Row { words: &[0x46FC, 0x0000], sr: 0x2704, isp: 0x8000, flow: true, changes: &[Sr(0x0000)] },
    Row { words: &[0x46FC, 0xFFFF], sr: 0x2704, isp: 0x8000, flow: true, changes: &[Sr(0xF71F)] },
    Row { words: &[0x46FC, 0x08E0], sr: 0x2704, isp: 0x8000, flow: true, changes: &[Sr(0x0000)] },
    Row { words: &[0x46C0], sr: 0x2704, isp: 0x8000, flow: true, changes: &[Sr(0x8001)] },
    Row { words: &[0x007C, 0xFFFF], sr: 0x2000, isp: 0x8000, flow: true, changes: &[Sr(0xF71F)] },
    Row { words: &[0x007C, 0x8001], sr: 0x2704, isp: 0x8000, flow: true, changes: &[Sr(0xA705)] },
    Row { words: &[0x027C, 0xF8FF], sr: 0x2704, isp: 0x8000, flow: true, changes: &[Sr(0x2004)] },
    Row { words: &[0x0A7C, 0x2704], sr: 0x3715, isp: 0x8000, flow: true, changes: &[Sr(0x1011)] },
    Row { words: &[0x4E72, 0x2000], sr: 0x2704, isp: 0x8000, flow: true, changes: &[Sr(0x2000), Stopped] },
    Row { words: &[0x40C0], sr: 0x2704, isp: 0x8000, flow: false, changes: &[D0(0xD0D0_2704)] },
    // The status register, to memory and from it.
    Row { words: &[0x40D0], sr: 0x2704, isp: 0x1000, flow: false, changes: &[Long(0x1000, 0x2704_8384)] },
    Row { words: &[0x40D8], sr: 0x2704, isp: 0x1000, flow: false, changes: &[A0(0x1002), Long(0x1000, 0x2704_8384)] },
    Row { words: &[0x46D8], sr: 0x2704, isp: 0x1000, flow: true, changes: &[A0(0x1002), Sr(0x8102)] },
    Row { words: &[0x46DF], sr: 0x2704, isp: 0x1000, flow: true, changes: &[Isp(0x1002), Sr(0x8102)] },
    Row { words: &[0x40DF], sr: 0x2704, isp: 0x1000, flow: false, changes: &[Isp(0x1002), Long(0x1000, 0x2704_8384)] },
    // Stack pointers.
    Row { words: &[0x4E63], sr: 0x2700, isp: 0x8000, flow: false, changes: &[Usp(0xA3A3_A3A3)] },
    Row { words: &[0x4E67], sr: 0x2700, isp: 0x8000, flow: false, changes: &[Usp(0x8000)] },
    Row { words: &[0x4E67], sr: 0x3700, isp: 0x8000, flow: false, changes: &[Usp(0x9000)] },
    Row { words: &[0x4E6B], sr: 0x2700, isp: 0x8000, flow: false, changes: &[A3(0x7000)] },
    Row { words: &[0x4E6F], sr: 0x2700, isp: 0x8000, flow: false, changes: &[Isp(0x7000)] },
    Row { words: &[0x4E6F], sr: 0x3700, isp: 0x8000, flow: false, changes: &[Msp(0x7000)] },
    Row { words: &[0x4E7B, 0xF800], sr: 0x3700, isp: 0x8000, flow: false, changes: &[Usp(0x9000)] },
    Row { words: &[0x4E7A, 0xF804], sr: 0x3700, isp: 0x8000, flow: false, changes: &[Msp(0x8000)] },
    // MOVES.
    Row { words: &[0x0E10, 0x1000], sr: 0x2704, isp: 0x1000, flow: false, changes: &[D1(0xD1D1_D181)] },
    Row { words: &[0x0E50, 0x1000], sr: 0x2704, isp: 0x1000, flow: false, changes: &[D1(0xD1D1_8182)] },
    Row { words: &[0x0E50, 0xB000], sr: 0x2704, isp: 0x1000, flow: false, changes: &[A3(0xFFFF_8182)] },
    Row { words: &[0x0E10, 0xB000], sr: 0x2704, isp: 0x1000, flow: false, changes: &[A3(0xFFFF_FF81)] },
    Row { words: &[0x0E1F, 0x1000], sr: 0x2704, isp: 0x1000, flow: false, changes: &[D1(0xD1D1_D181), Isp(0x1002)] },
    Row { words: &[0x0E98, 0x8000], sr: 0x2704, isp: 0x1000, flow: false, changes: &[A0(0x8182_8384)] },
    Row { words: &[0x0E98, 0x8800], sr: 0x2704, isp: 0x1000, flow: false,
        changes: &[A0(0x1004), Long(0x1000, 0x1004)] },
    Row { words: &[0x0EA0, 0x8800], sr: 0x2704, isp: 0x1000, flow: false, changes: &[A0(0xFFC), Long(0xFFC, 0xFFC)] },
    Row { words: &[0x0E10, 0x1800], sr: 0x2704, isp: 0x1000, flow: false, changes: &[Long(0x1000, 0xD182_8384)] },
    // What leaves the processor: RESET, CINV, CPUSH, PFLUSHN, PFLUSH, PFLUSHAN, PFLUSHA, PTESTW and PTESTR.
    Row { words: &[0x4E70], sr: 0x2704, isp: 0x8000, flow: false, changes: &[] },
    Row { words: &[0xF4D8], sr: 0x2704, isp: 0x8000, flow: false, changes: &[] },
    Row { words: &[0xF4F8], sr: 0x2704, isp: 0x8000, flow: false, changes: &[] },
    Row { words: &[0xF500], sr: 0x2704, isp: 0x8000, flow: false, changes: &[] },
    Row { words: &[0xF508], sr: 0x2704, isp: 0x8000, flow: false, changes: &[] },
    Row { words: &[0xF510], sr: 0x2704, isp: 0x8000, flow: false, changes: &[] },
    Row { words: &[0xF518], sr: 0x2704, isp: 0x8000, flow: false, changes: &[] },
    Row { words: &[0xF548], sr: 0x2704, isp: 0x8000, flow: false, changes: &[Mmusr(0)] },
    Row { words: &[0xF568], sr: 0x2704, isp: 0x8000, flow: false, changes: &[Mmusr(0)] },
];

impl Row {
    /// The processor before the instruction.
    fn before(&self) -> Cpu {
        let mut cpu = supervisor();
        cpu.regs.sr = self.sr;
        cpu.regs.isp = self.isp;
        cpu
    }

    /// The processor after it, as the memory is made as it is then.
    fn after(&self, port: &mut VectorPort) -> Cpu {
        let mut cpu = self.before();
        cpu.regs.pc = behind(self.words);
        for change in self.changes {
            change.make(&mut cpu, port);
        }
        cpu
    }
}

impl Trial for Row {
    /// The instruction changes a processor and memory to what they should be.
    fn passes(&self, bench: &mut Bench) -> bool {
        let (port, other) = (&mut bench.port, &mut bench.other);
        begin(port);
        begin(other);
        let mut cpu = self.before();
        performed(self.words, &mut cpu, port) == Some(Ended::Done { flow: self.flow })
            && cpu == self.after(other)
            && port.mmu == other.mmu
            && port.longs == other.longs
    }
}

/// The address behind an instruction.
fn behind(words: &[u16]) -> u32 {
    let mut at = AT;
    for _word in words {
        at = at.wrapping_add(2);
    }
    at
}

/// A move of a control register was carried out, after which T0 asks for no trace.
const DONE: Option<Ended> = Some(Ended::Done { flow: false });

/// What the control register with a code holds.
fn held(code: u16, cpu: &Cpu, port: &VectorPort) -> u32 {
    match code {
        0x000 => u32::from(cpu.sfc),
        0x001 => u32::from(cpu.dfc),
        0x002 => cpu.cacr,
        0x003 => port.mmu.tc,
        0x004 => port.mmu.itt0,
        0x005 => port.mmu.itt1,
        0x006 => port.mmu.dtt0,
        0x007 => port.mmu.dtt1,
        0x800 => cpu.regs.usp,
        0x801 => cpu.vbr,
        0x803 => cpu.regs.msp,
        0x804 => cpu.regs.isp,
        0x805 => port.mmu.mmusr,
        0x806 => port.mmu.urp,
        _ => port.mmu.srp,
    }
}

/// A control register: its code, and the bits that it keeps.
struct Control {
    code: u16,
    kept: u32,
}

#[rattlefmt::skip]
static CONTROL: [Control; 15] = [
    Control { code: 0x000, kept: 0x7 },
    Control { code: 0x001, kept: 0x7 },
    Control { code: 0x002, kept: 0x8000_8000 },
    Control { code: 0x003, kept: 0xC000 },
    Control { code: 0x004, kept: 0xFFFF_E364 },
    Control { code: 0x005, kept: 0xFFFF_E364 },
    Control { code: 0x006, kept: 0xFFFF_E364 },
    Control { code: 0x007, kept: 0xFFFF_E364 },
    Control { code: 0x800, kept: 0xFFFF_FFFF },
    Control { code: 0x801, kept: 0xFFFF_FFFF },
    Control { code: 0x803, kept: 0xFFFF_FFFF },
    Control { code: 0x804, kept: 0xFFFF_FFFF },
    Control { code: 0x805, kept: 0xFFFF_FFF7 },
    Control { code: 0x806, kept: 0xFFFF_FE00 },
    Control { code: 0x807, kept: 0xFFFF_FE00 },
];

impl Control {
    /// Whether a control register has this code and these bits.
    fn has_bits(&self) -> bool {
        match ControlRegister::of(self.code) {
            Some(register) => register.code() == self.code && register.kept_bits() == self.kept,
            None => false,
        }
    }

    /// Whether no other control register is changed.
    fn leaves_others(&self, cpu: &Cpu, port: &VectorPort, untouched: &VectorPort) -> bool {
        let before = supervisor();
        for other in &CONTROL {
            let code = other.code;
            if code != self.code && held(code, cpu, port) != held(code, &before, untouched) {
                return false;
            }
        }
        true
    }

    /// Whether a move between it and a data register is carried out.
    fn moves(&self, word: u16, register: u16, cpu: &mut Cpu, port: &mut VectorPort) -> bool {
        performed(&[word, register | self.code], cpu, port) == DONE
    }
}

impl Trial for Control {
    /// D1 takes what the register holds, which takes its bits of D2, all ones, and then those of D1.
    fn passes(&self, bench: &mut Bench) -> bool {
        begin(&mut bench.port);
        begin(&mut bench.other);
        let mut cpu = supervisor();
        let old = held(self.code, &cpu, &bench.port);
        self.has_bits()
            && self.moves(0x4E7A, 0x1000, &mut cpu, &mut bench.port)
            && cpu.regs.d[1] == old
            && self.moves(0x4E7B, 0x2000, &mut cpu, &mut bench.port)
            && held(self.code, &cpu, &bench.port) == self.kept
            && self.leaves_others(&cpu, &bench.port, &bench.other)
            && self.moves(0x4E7B, 0x1000, &mut cpu, &mut bench.port)
            && held(self.code, &cpu, &bench.port) == old & self.kept
    }
}

/// An instruction with an operand that is refused, and whether that is a write, in which space, and A2 then.
struct Refused {
    words: &'static [u16],
    sfc: u8,
    dfc: u8,
    write: bool,
    space: Space,
    a2: u32,
}

macro_rules! refused {
    ([$($word:literal),*], $sfc:literal, $dfc:literal, $write:literal, $space:expr, $a2:literal) => {
        Refused { words: &[$($word),*], sfc: $sfc, dfc: $dfc, write: $write, space: $space, a2: $a2 }
    };
}

#[rattlefmt::skip]
static REFUSED: [Refused; 9] = [
    refused!([0x0E52, 0x1000], 1, 5, false, Space::User, 0x3000),
    refused!([0x0E52, 0x1000], 5, 1, false, Space::Super, 0x3000),
    refused!([0x0E5A, 0x1000], 3, 7, false, Space::User, 0x3000),
    refused!([0x0E52, 0x1800], 1, 5, true, Space::Super, 0x3000),
    refused!([0x0E5A, 0x1800], 5, 1, true, Space::User, 0x3002),
    refused!([0x0E72, 0x1000, 0x0151], 1, 1, false, Space::Super, 0x3000),
    refused!([0x46D2], 1, 1, false, Space::Super, 0x3000),
    refused!([0x46DA], 1, 1, false, Space::Super, 0x3000),
    refused!([0x40DA], 1, 1, true, Space::Super, 0x3002),
];

impl Refused {
    /// The processor before the instruction.
    fn before(&self) -> Cpu {
        let mut cpu = supervisor();
        cpu.sfc = self.sfc;
        cpu.dfc = self.dfc;
        cpu
    }

    /// The processor after it.
    fn after(&self) -> Cpu {
        let mut cpu = self.before();
        cpu.regs.a[2] = self.a2;
        cpu.regs.pc = behind(self.words);
        cpu
    }
}

impl Trial for Refused {
    /// The operand is refused as it should be.
    fn passes(&self, bench: &mut Bench) -> bool {
        begin(&mut bench.port);
        let mut cpu = self.before();
        let refused = match performed(self.words, &mut cpu, &mut bench.port) {
            Some(Ended::ReadFault(refused)) => Some((false, refused.fault.space, refused.first)),
            Some(Ended::WriteFault(refused)) => Some((true, refused.fault.space, refused.first)),
            _ => None,
        };
        refused == Some((self.write, self.space, 0x3000)) && cpu == self.after()
    }
}

#[test]
fn privileged(rt: HostRuntime) {
    check(&rt, rt.alloc(), &ROWS);
    check(&rt, rt.alloc(), &CONTROL);
    check(&rt, rt.alloc(), &REFUSED);
}
