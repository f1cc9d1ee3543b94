//! The table of control registers.

ghost use Rattle.std.specs.Prelude.{◌≡◌, ◌≤◌, true, Some, IfSome, length};
ghost use Rattle.mb_instr.specs.Control.{code_of, control, control_name, control_named, control_of};
ghost use Rattle.mb_instr.specs.Control.{control_row, is_control_code, kept_bits};
ghost use Rattle.mb_instr.specs.ControlRows.{row_said};

use mb_port::MmuReg;

/// A control register: one that MOVEC names.
#[derive(Clone, Copy)]
pub enum ControlRegister {
    Sfc,
    Dfc,
    Cacr,
    Usp,
    Vbr,
    Msp,
    Isp,
    /// One of those that stand at the bus.
    Mmu(MmuReg),
}

/// A line of the table.
#[derive(Clone, Copy)]
struct ControlRow {
    code: u16,
    name: &'static [u8],
    kept: u32,
}

#[inline(always)]
fn control(code: u16, name: &'static [u8], kept: u32) -> ControlRow
    ensures { row_said result ≡ control code name.now kept }
{
    ControlRow { code, name, kept }
}

/// All of them, in the order of the table.
const CONTROLS: [ControlRegister; 15] = [
    ControlRegister::Sfc,
    ControlRegister::Dfc,
    ControlRegister::Cacr,
    ControlRegister::Mmu(MmuReg::Tc),
    ControlRegister::Mmu(MmuReg::Itt0),
    ControlRegister::Mmu(MmuReg::Itt1),
    ControlRegister::Mmu(MmuReg::Dtt0),
    ControlRegister::Mmu(MmuReg::Dtt1),
    ControlRegister::Usp,
    ControlRegister::Vbr,
    ControlRegister::Msp,
    ControlRegister::Isp,
    ControlRegister::Mmu(MmuReg::Mmusr),
    ControlRegister::Mmu(MmuReg::Urp),
    ControlRegister::Mmu(MmuReg::Srp),
];

impl ControlRegister {
    /// Its line of the table.
    #[inline(always)]
    fn row(self) -> ControlRow
        ensures { row_said result ≡ control_row self }
    {
        match self {
            ControlRegister::Sfc => control(0x000, b"SFC", 0x7),
            ControlRegister::Dfc => control(0x001, b"DFC", 0x7),
            ControlRegister::Cacr => control(0x002, b"CACR", 0x8000_8000),
            ControlRegister::Mmu(MmuReg::Tc) => control(0x003, b"TC", 0xc000),
            ControlRegister::Mmu(MmuReg::Itt0) => control(0x004, b"ITT0", 0xffff_e364),
            ControlRegister::Mmu(MmuReg::Itt1) => control(0x005, b"ITT1", 0xffff_e364),
            ControlRegister::Mmu(MmuReg::Dtt0) => control(0x006, b"DTT0", 0xffff_e364),
            ControlRegister::Mmu(MmuReg::Dtt1) => control(0x007, b"DTT1", 0xffff_e364),
            ControlRegister::Usp => control(0x800, b"USP", 0xffff_ffff),
            ControlRegister::Vbr => control(0x801, b"VBR", 0xffff_ffff),
            ControlRegister::Msp => control(0x803, b"MSP", 0xffff_ffff),
            ControlRegister::Isp => control(0x804, b"ISP", 0xffff_ffff),
            ControlRegister::Mmu(MmuReg::Mmusr) => control(0x805, b"MMUSR", 0xffff_fff7),
            ControlRegister::Mmu(MmuReg::Urp) => control(0x806, b"URP", 0xffff_fe00),
            ControlRegister::Mmu(MmuReg::Srp) => control(0x807, b"SRP", 0xffff_fe00),
        }
    }

    /// Its code in the word behind MOVEC.
    #[inline(always)]
    pub fn code(self) -> u16
        ensures value { result ≡ code_of self }
        ensures decoded { is_control_code result ≡ true }
        ensures named { control_of result ≡ Some self }
    {
        self.row().code
    }

    /// The register with a code, if one has it.
    #[inline(always)]
    pub fn of(code: u16) -> Option<ControlRegister>
        ensures value { result ≡ control_of code }
        ensures coded { IfSome result (λ register. code_of register ≡ code) }
    {
        CONTROLS
            .iter()
            .copied()
            .find(|register| code == register.code())
    }

    /// Whether a register has the code.
    pub fn has_code(code: u16) -> bool
        ensures { result ≡ is_control_code code }
    {
        ControlRegister::of(code).is_some()
    }

    /// The register of a name, in either case.
    pub fn named(name: &[u8]) -> Option<ControlRegister>
        ensures { result ≡ control_named name.now }
    {
        CONTROLS
            .iter()
            .copied()
            .find(|register| register.name().eq_ignore_ascii_case(name))
    }

    /// Its name, in capital letters.
    #[inline(always)]
    pub fn name(self) -> &'static [u8]
        ensures value { result.now ≡ control_name self }
        ensures short { length result.now ≤ 5 }
    {
        self.row().name
    }

    /// The bits that it keeps of what is written to it.
    #[inline(always)]
    pub fn kept_bits(self) -> u32
        ensures { result ≡ kept_bits self }
    {
        self.row().kept
    }
}
