//! Lines of registers.

ghost use Rattle.std.specs.Prelude.{◌≡◌, ◌≤◌, ◌∷◌, [], codes, IfOk};
ghost use Rattle.mb_instr.specs.Control.{kept_bits};
ghost use Rattle.mb_spelling.specs.Hex.{masked, number};
ghost use Rattle.mb_spelling.specs.Spelling.{before, behind};
ghost use Rattle.mb_spelling.specs.Reads.{Reads, lines_to};
ghost use Rattle.vm_snapshot.specs.Guests.{address_registers, control_registers, data_registers, long as long_of, longs, registers as registers_of, translation_registers};
ghost use Rattle.vm_snapshot.specs.Plans.{cpu_of};
ghost use Rattle.vm_snapshot.specs.Views.{control_seen, registers_seen, translation_seen};

use crate::line::long;
use mb_instr::{ControlRegister, Regs};
use mb_model::{Cpu, STATUS_BITS};
use mb_port::{Mmu, MmuReg};
use mb_spelling::{Numbers, Reader, Stop};

/// The other registers of the processor.
#[derive(Clone, Copy)]
pub(crate) struct Control {
    pub(crate) usp: u32,
    pub(crate) isp: u32,
    pub(crate) msp: u32,
    pub(crate) pc: u32,
    pub(crate) sr: u16,
    pub(crate) vbr: u32,
    pub(crate) sfc: u8,
    pub(crate) dfc: u8,
    pub(crate) cacr: u32,
}

/// The registers of a guest.
#[derive(Clone, Copy)]
pub(crate) struct Registers {
    pub(crate) data: [u32; 8],
    /// But for A7.
    pub(crate) addresses: [u32; 7],
    pub(crate) control: Control,
    pub(crate) translation: Mmu,
}

/// Reads a register, which has no bits but those that it keeps.
fn register(reader: &mut Reader, name: &[u8], register: ControlRegister) -> Result<u32, Stop>
    ensures reads { Reads (λ n. n) result reader.new.left
        ((behind name.now (before (number (masked (kept_bits register)) 8 0) (10 ∷ []))).read reader.old.left) }
    ensures small { IfOk result (λ n. n ≤ kept_bits register) }
    ensures lines { lines_to reader.new ≡ lines_to reader.old }
{
    long(reader, name, &Numbers::Masked(register.kept_bits()))
}

/// Reads the status register.
fn status(reader: &mut Reader) -> Result<u16, Stop>
    ensures reads { Reads (λ n. n) result reader.new.left
        ((long_of (codes "SR") (masked STATUS_BITS)).read reader.old.left) }
    ensures lines { lines_to reader.new ≡ lines_to reader.old }
{
    let bits = long(reader, b"SR ", &Numbers::Masked(STATUS_BITS))?;
    Ok(bits as u16)
}

/// Reads the data registers.
fn data(reader: &mut Reader) -> Result<[u32; 8], Stop>
    ensures reads { Reads (λ values. values) result reader.new.left ((longs data_registers).read reader.old.left) }
    ensures lines { lines_to reader.new ≡ lines_to reader.old }
{
    let d0 = long(reader, b"D0 ", &Numbers::Any)?;
    let d1 = long(reader, b"D1 ", &Numbers::Any)?;
    let d2 = long(reader, b"D2 ", &Numbers::Any)?;
    let d3 = long(reader, b"D3 ", &Numbers::Any)?;
    let d4 = long(reader, b"D4 ", &Numbers::Any)?;
    let d5 = long(reader, b"D5 ", &Numbers::Any)?;
    let d6 = long(reader, b"D6 ", &Numbers::Any)?;
    let d7 = long(reader, b"D7 ", &Numbers::Any)?;
    Ok([d0, d1, d2, d3, d4, d5, d6, d7])
}

/// Reads the address registers but A7.
fn addresses(reader: &mut Reader) -> Result<[u32; 7], Stop>
    ensures reads { Reads (λ values. values) result reader.new.left ((longs address_registers).read reader.old.left) }
    ensures lines { lines_to reader.new ≡ lines_to reader.old }
{
    let a0 = long(reader, b"A0 ", &Numbers::Any)?;
    let a1 = long(reader, b"A1 ", &Numbers::Any)?;
    let a2 = long(reader, b"A2 ", &Numbers::Any)?;
    let a3 = long(reader, b"A3 ", &Numbers::Any)?;
    let a4 = long(reader, b"A4 ", &Numbers::Any)?;
    let a5 = long(reader, b"A5 ", &Numbers::Any)?;
    let a6 = long(reader, b"A6 ", &Numbers::Any)?;
    Ok([a0, a1, a2, a3, a4, a5, a6])
}

/// Reads the processor's other registers.
fn read_control(reader: &mut Reader) -> Result<Control, Stop>
    ensures reads { Reads control_seen result reader.new.left ((longs control_registers).read reader.old.left) }
    ensures lines { lines_to reader.new ≡ lines_to reader.old }
{
    let usp = long(reader, b"USP ", &Numbers::Any)?;
    let isp = long(reader, b"ISP ", &Numbers::Any)?;
    let msp = long(reader, b"MSP ", &Numbers::Any)?;
    let pc = long(reader, b"PC ", &Numbers::Any)?;
    let sr = status(reader)?;
    let vbr = long(reader, b"VBR ", &Numbers::Any)?;
    let sfc = register(reader, b"SFC ", ControlRegister::Sfc)?;
    let dfc = register(reader, b"DFC ", ControlRegister::Dfc)?;
    let cacr = register(reader, b"CACR ", ControlRegister::Cacr)?;
    Ok(Control {
        usp,
        isp,
        msp,
        pc,
        sr,
        vbr,
        sfc: sfc as u8,
        dfc: dfc as u8,
        cacr,
    })
}

/// Reads the registers of translation.
fn mmu(reader: &mut Reader) -> Result<Mmu, Stop>
    ensures reads { Reads translation_seen result reader.new.left
        ((longs translation_registers).read reader.old.left) }
    ensures lines { lines_to reader.new ≡ lines_to reader.old }
{
    let tc = register(reader, b"TC ", ControlRegister::Mmu(MmuReg::Tc))?;
    let itt0 = register(reader, b"ITT0 ", ControlRegister::Mmu(MmuReg::Itt0))?;
    let itt1 = register(reader, b"ITT1 ", ControlRegister::Mmu(MmuReg::Itt1))?;
    let dtt0 = register(reader, b"DTT0 ", ControlRegister::Mmu(MmuReg::Dtt0))?;
    let dtt1 = register(reader, b"DTT1 ", ControlRegister::Mmu(MmuReg::Dtt1))?;
    let mmusr = register(reader, b"MMUSR ", ControlRegister::Mmu(MmuReg::Mmusr))?;
    let urp = register(reader, b"URP ", ControlRegister::Mmu(MmuReg::Urp))?;
    let srp = register(reader, b"SRP ", ControlRegister::Mmu(MmuReg::Srp))?;
    Ok(Mmu {
        tc,
        itt0,
        itt1,
        dtt0,
        dtt1,
        mmusr,
        urp,
        srp,
    })
}

/// Reads all registers.
pub(crate) fn read_registers(reader: &mut Reader) -> Result<Registers, Stop>
    ensures reads { Reads registers_seen result reader.new.left (registers_of.read reader.old.left) }
    ensures lines { lines_to reader.new ≡ lines_to reader.old }
{
    let data = data(reader)?;
    let addresses = addresses(reader)?;
    let control = read_control(reader)?;
    let translation = mmu(reader)?;
    Ok(Registers {
        data,
        addresses,
        control,
        translation,
    })
}

/// The processor of such registers; `stopped` is whether STOP holds it.
pub(crate) fn cpu(registers: &Registers, stopped: bool) -> Cpu
    ensures { result ≡ cpu_of stopped (registers_seen registers.now) }
{
    let control = registers.control;
    Cpu {
        regs: Regs {
            d: registers.data,
            a: registers.addresses,
            usp: control.usp,
            isp: control.isp,
            msp: control.msp,
            pc: control.pc,
            sr: control.sr,
        },
        vbr: control.vbr,
        sfc: control.sfc,
        dfc: control.dfc,
        cacr: control.cacr,
        stopped,
    }
}
