//! MOVEC.

ghost use Rattle.std.specs.Prelude.{◌≡◌, ◌<◌, bit_and, IfErr};
ghost use Rattle.mb_port.specs.Routine.{run};
ghost use Rattle.mb_instr.specs.Control.{kept_bits};
ghost use Rattle.def_processor.specs.SystemEnds.{system_carried_by};
ghost use Rattle.def_processor.specs.Control.{named_control_in};
ghost use Rattle.def_processor.specs.Control.{control_value_of, set_control_of, move_to_control_of, move_from_control_of, movec_of};
ghost use Rattle.mb_system.specs.Ends.{SystemEnds};

use mb_instr::ControlRegister;
use mb_instr::vectors::ILLEGAL;
use mb_model::Cpu;
use mb_operands::named_register;
use mb_port::Port;
use mb_writes::Ended;

/// The control register that a word names in its other bits.
#[inline(always)]
fn named_control(word: u16) -> Option<ControlRegister>
    ensures { result ≡ named_control_in word }
{
    ControlRegister::of(word & 0xfff)
}

/// What a control register holds; those of the memory management unit stand at the bus.
#[inline(always)]
fn control_value<P: Port>(register: ControlRegister, cpu: &Cpu, port: &P) -> u32
    ensures { run P.bus (control_value_of register cpu.now) (P.world port.now) ≡ (result, P.world port.now) }
{
    match register {
        ControlRegister::Sfc => u32::from(cpu.sfc),
        ControlRegister::Dfc => u32::from(cpu.dfc),
        ControlRegister::Cacr => cpu.cacr,
        ControlRegister::Usp => cpu.regs.usp,
        ControlRegister::Vbr => cpu.vbr,
        ControlRegister::Msp => cpu.regs.msp,
        ControlRegister::Isp => cpu.regs.isp,
        ControlRegister::Mmu(which) => port.mmu().get(which),
    }
}

/// Makes a control register hold what it keeps of a value.
#[inline(always)]
fn set_control<P: Port>(register: ControlRegister, value: u32, cpu: &mut Cpu, port: &mut P)
    ensures means { run P.bus (set_control_of register (bit_and value (kept_bits register)) cpu.old)
        (P.world port.old) ≡ (cpu.new, P.world port.new) }
    ensures rest { P.rest port.new ≡ P.rest port.old }
{
    let kept = value & register.kept_bits();
    match register {
        ControlRegister::Sfc => cpu.sfc = kept as u8,
        ControlRegister::Dfc => cpu.dfc = kept as u8,
        ControlRegister::Cacr => cpu.cacr = kept,
        ControlRegister::Usp => cpu.regs.usp = kept,
        ControlRegister::Vbr => cpu.vbr = kept,
        ControlRegister::Msp => cpu.regs.msp = kept,
        ControlRegister::Isp => cpu.regs.isp = kept,
        ControlRegister::Mmu(which) => port.set_mmu(which, kept),
    }
}

/// MOVEC to a control register.
#[inline(always)]
fn move_to_control<P: Port>(control: ControlRegister, register: u8, cpu: &mut Cpu, port: &mut P)
    requires { register < 16 }
    ensures means { run P.bus (move_to_control_of control register cpu.old) (P.world port.old)
        ≡ (cpu.new, P.world port.new) }
    ensures rest { P.rest port.new ≡ P.rest port.old }
{
    let value = cpu.regs.plain().register(register);
    set_control(control, value, cpu, port);
}

/// MOVEC from a control register: to all of the other one.
#[inline(always)]
fn move_from_control<P: Port>(control: ControlRegister, register: u8, cpu: &mut Cpu, port: &P)
    requires { register < 16 }
    ensures { run P.bus (move_from_control_of control register cpu.old) (P.world port.now)
        ≡ (cpu.new, P.world port.now) }
{
    let value = control_value(control, cpu, port);
    let mut plain = cpu.regs.plain();
    plain.set_register(register, value);
    cpu.regs.set_plain(&plain);
}

/// MOVEC. A code that no control register has makes no instruction.
#[inline(always)]
pub(crate) fn movec<P: Port>(
    to_control: bool,
    word: u16,
    cpu: &mut Cpu,
    port: &mut P,
) -> Result<(), Ended>
    ensures means { run P.bus (movec_of to_control word cpu.old) (P.world port.old)
        ≡ (system_carried_by result cpu.new, P.world port.new) }
    ensures ends { IfErr result (λ end. SystemEnds end cpu.old cpu.new) }
    ensures rest { P.rest port.new ≡ P.rest port.old }
{
    let Some(control) = named_control(word) else {
        return Err(Ended::Refused(ILLEGAL));
    };
    let register = named_register(word);
    if to_control {
        move_to_control(control, register, cpu, port);
    } else {
        move_from_control(control, register, cpu, port);
    }
    Ok(())
}
