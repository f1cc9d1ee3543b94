//! Rows on SR, and MOVE USP.

ghost use Rattle.std.specs.Prelude.{◌≡◌, ◌<◌, IfErr};
ghost use Rattle.mb_port.specs.Routine.{run};
ghost use Rattle.mb_instr.specs.Operands.{IsEa, IsDestination};
ghost use Rattle.def_processor.specs.SystemEnds.{system_performed_by, system_carried_by};
ghost use Rattle.mb_system.specs.Ends.{SystemEnds};
ghost use Rattle.def_processor.specs.Status.{with_status, change_status_of, move_to_status_of, move_from_status_of, stop_of};
ghost use Rattle.def_processor.specs.Status.{move_to_usp_of, move_from_usp_of, move_usp_of};

use crate::finishing::finish_row;
use mb_alu::{LogicKind, logic};
use mb_ea::resolve;
use mb_instr::{Ea, Size};
use mb_model::{Cpu, kept_status};
use mb_operands::{Stream, fetch_operand};
use mb_port::{Port, Space};
use mb_writes::Ended;

/// Makes this SR. What A7 was stays in its stack pointer.
#[inline(always)]
fn set_status(value: u32, cpu: &mut Cpu)
    ensures { cpu.new ≡ with_status value cpu.old }
{
    cpu.regs.sr = kept_status(value);
}

/// ANDI, ORI and EORI to SR.
#[inline(always)]
pub(crate) fn change_status(kind: LogicKind, word: u16, cpu: &mut Cpu)
    ensures { cpu.new ≡ change_status_of kind word cpu.old }
{
    let status = u32::from(cpu.regs.sr);
    set_status(
        logic(kind, Size::Word, u32::from(word), status, 0).value,
        cpu,
    );
}

/// MOVE to SR: a word is read, by the registers as the old S and M give them.
#[inline(always)]
pub(crate) fn move_to_status<P: Port>(
    ea: &Ea,
    word_at: u32,
    cpu: &mut Cpu,
    port: &mut P,
) -> Result<bool, Ended>
    requires { IsEa Size.Word ea.now }
    ensures means { run P.bus (move_to_status_of ea.now word_at cpu.old) (P.world port.old)
        ≡ (system_performed_by result cpu.new, P.world port.new) }
    ensures ends { IfErr result (λ end. SystemEnds end cpu.old cpu.new) }
    ensures rest { P.rest port.new ≡ P.rest port.old }
{
    let mut plain = cpu.regs.plain();
    let stream = Stream {
        at: word_at,
        space: Space::Super,
    };
    match fetch_operand(Size::Word, ea, stream, &mut plain, port) {
        Ok(operand) => {
            cpu.regs.set_plain(&plain);
            set_status(operand.value, cpu);
            Ok(true)
        }
        Err(refused) => Err(Ended::ReadFault(refused)),
    }
}

/// MOVE from SR. The destination is not read.
#[inline(always)]
pub(crate) fn move_from_status<P: Port>(
    ea: &Ea,
    word_at: u32,
    cpu: &mut Cpu,
    port: &mut P,
) -> Result<(), Ended>
    requires operand { IsEa Size.Word ea.now }
    requires destination { IsDestination ea.now }
    ensures means { run P.bus (move_from_status_of ea.now word_at cpu.old) (P.world port.old)
        ≡ (system_carried_by result cpu.new, P.world port.new) }
    ensures ends { IfErr result (λ end. SystemEnds end cpu.old cpu.new) }
    ensures rest { P.rest port.new ≡ P.rest port.old }
{
    let mut plain = cpu.regs.plain();
    let target = match resolve(ea, Size::Word, &mut plain, word_at, Space::Super, port) {
        Ok(target) => target,
        Err(refused) => return Err(Ended::ReadFault(refused)),
    };
    let status = u32::from(cpu.regs.sr);
    finish_row(
        target,
        Size::Word,
        status,
        Space::Super,
        &mut plain,
        cpu,
        port,
    )
}

/// STOP: SR is loaded, and the processor stops.
#[inline(always)]
pub(crate) fn stop(word: u16, cpu: &mut Cpu)
    ensures { cpu.new ≡ stop_of word cpu.old }
{
    set_status(u32::from(word), cpu);
    cpu.stopped = true;
}

/// MOVE An to USP.
#[inline(always)]
fn move_to_usp(register: u8, cpu: &mut Cpu)
    requires { register < 8 }
    ensures { cpu.new ≡ move_to_usp_of register cpu.old }
{
    cpu.regs.usp = cpu.regs.plain().a[register as usize];
}

/// MOVE USP to An.
#[inline(always)]
fn move_from_usp(register: u8, cpu: &mut Cpu)
    requires { register < 8 }
    ensures { cpu.new ≡ move_from_usp_of register cpu.old }
{
    let mut plain = cpu.regs.plain();
    plain.a[register as usize] = cpu.regs.usp;
    cpu.regs.set_plain(&plain);
}

/// MOVE USP.
#[inline(always)]
pub(crate) fn move_usp(from_usp: bool, register: u8, cpu: &mut Cpu)
    requires { register < 8 }
    ensures { cpu.new ≡ move_usp_of from_usp register cpu.old }
{
    if from_usp {
        move_from_usp(register, cpu);
    } else {
        move_to_usp(register, cpu);
    }
}
