//! An instruction that was fetched is carried out, and finished.

ghost use Rattle.std.specs.Prelude.{◌≡◌, ◌≢◌, ◌<◌, IfOk};
ghost use Rattle.mb_port.specs.Routine.{run};
ghost use Rattle.mb_instr.specs.Codes.{IsInstr};
ghost use Rattle.mb_instr.specs.declared.instruction.Instr.TheVariants as instr;
ghost use Rattle.def_processor.specs.Raise.{is_due, trace_if_of};
ghost use Rattle.def_processor.specs.SystemEnds.{with_registers};
ghost use Rattle.mb_operands.specs.Endings.{end_of, with_end};
ghost use Rattle.def_processor.specs.Step.{finish_instruction_of, execute_supervised_of, execute_unprivileged_of, execute_of};

use crate::apart::{finish_undone, trace_left};
use crate::finishing::{finish_unfinished, finish_unread};
use crate::performing::perform_in_place;
use crate::processor::Processor;
use crate::raising::{is_due, refuse, trace_if};
use crate::returning::rte;
use def_processor::Finish;
use mb_instr::{Instr, Plain, System};
use mb_model::Cpu;
use mb_operands::{Stream, Undone};
use mb_port::Port;
use mb_system::perform_system;
use mb_writes::Ended;

/// Carries out a privileged instruction of so many words in supervisor mode.
#[inline(never)]
pub(crate) fn execute_supervised<P: Port>(
    system: &System,
    length: u8,
    cpu: &mut Cpu,
    port: &mut P,
) -> Finish
    requires { IsInstr (instr.System system.now) }
    ensures means { run P.bus (execute_supervised_of system.now length cpu.old) (P.world port.old)
        ≡ ((result, cpu.new), P.world port.new) }
    ensures busy { result ≢ Finish.Idle }
    ensures rest { P.rest port.new ≡ P.rest port.old }
{
    if let System::Rte = system {
        return rte(cpu, port);
    }
    let (at, sr) = (cpu.regs.pc, cpu.regs.sr);
    cpu.regs.pc = at.wrapping_add(2 * u32::from(length));
    match perform_system(system, at, cpu, port) {
        Ended::Done { flow } => trace_if(Finish::Went, is_due(sr, flow), at, cpu, port),
        Ended::Refused(vector) => {
            cpu.regs.pc = at;
            refuse(vector, cpu, port)
        }
        Ended::ReadFault(refused) => {
            cpu.regs.pc = at;
            finish_unread(&refused, cpu, port)
        }
        Ended::WriteFault(refused) => finish_unfinished(is_due(sr, false), &refused, cpu, port),
        Ended::Trap(_) | Ended::LineFault { .. } | Ended::Movem(_) => unreachable!(),
    }
}

/// Finishes an instruction at `at` that was carried out and left these registers, with five condition codes.
#[inline(always)]
pub(crate) fn finish_done<P: Port>(
    flow: bool,
    at: u32,
    plain: &mut Plain,
    cpu: &mut Cpu,
    port: &mut P,
) -> Finish
    requires { plain.old.ccr < 32 }
    ensures means { run P.bus
        (trace_if_of Finish.Went (is_due cpu.old.regs.sr flow) at (with_registers plain.old cpu.old)) (P.world port.old)
        ≡ ((result, with_registers plain.new cpu.new), P.world port.new) }
    ensures ccr { plain.new.ccr < 32 }
    ensures busy { result ≢ Finish.Idle }
    ensures rest { P.rest port.new ≡ P.rest port.old }
{
    if is_due(cpu.regs.sr, flow) {
        trace_left(at, plain, cpu, port)
    } else {
        Finish::Went
    }
}

/// Finishes an instruction that left these registers; those before it stand beside. Where it was not done, how it ended
/// does too; where it was, it left five condition codes.
#[inline(always)]
fn finish_plain<P: Port>(
    instruction: &Instr,
    done: Result<bool, Undone>,
    ended: &Ended,
    before: &Plain,
    plain: &mut Plain,
    cpu: &mut Cpu,
    port: &mut P,
) -> Finish
    requires valid { IsInstr instruction.now }
    requires ccr { IfOk done (λ flow. plain.old.ccr < 32) }
    ensures means { run P.bus (finish_instruction_of instruction.now (end_of (with_end done ended.now))
        (with_registers before.now cpu.old) (with_registers plain.old cpu.old)) (P.world port.old)
        ≡ ((result, with_registers plain.new cpu.new), P.world port.new) }
    ensures ccr { plain.new.ccr < 32 }
    ensures busy { result ≢ Finish.Idle }
    ensures rest { P.rest port.new ≡ P.rest port.old }
{
    match done {
        Ok(flow) => finish_done(flow, before.pc, plain, cpu, port),
        Err(_) => finish_undone(instruction, ended, before, plain, cpu, port),
    }
}

/// Carries out an instruction of so many words that is not privileged.
#[inline(always)]
fn execute_unprivileged<P: Port>(
    instruction: &Instr,
    length: u8,
    processor: &mut Processor,
    port: &mut P,
) -> Finish
    requires { IsInstr instruction.now }
    ensures means { run P.bus (execute_unprivileged_of instruction.now length processor.old) (P.world port.old)
        ≡ ((result, processor.new), P.world port.new) }
    ensures busy { result ≢ Finish.Idle }
    ensures rest { P.rest port.new ≡ P.rest port.old }
{
    processor.before = processor.plain;
    let at = processor.plain.pc;
    processor.plain.pc = at.wrapping_add(2 * u32::from(length));
    let stream = Stream {
        at,
        space: processor.cpu.space(),
    };
    let done = perform_in_place(
        instruction,
        stream,
        &mut processor.plain,
        port,
        &mut processor.ended,
    );
    finish_plain(
        instruction,
        done,
        &processor.ended,
        &processor.before,
        &mut processor.plain,
        &mut processor.cpu,
        port,
    )
}

/// Carries out an instruction of so many words that stands at PC. A privileged one needs supervisor mode.
///
/// All families are inlined here, and it has one caller, so a step has them once.
#[inline(always)]
pub(crate) fn execute<P: Port>(
    instruction: &Instr,
    length: u8,
    processor: &mut Processor,
    port: &mut P,
) -> Finish
    requires { IsInstr instruction.now }
    ensures means { run P.bus (execute_of instruction.now length processor.old) (P.world port.old)
        ≡ ((result, processor.new), P.world port.new) }
    ensures busy { result ≢ Finish.Idle }
    ensures rest { P.rest port.new ≡ P.rest port.old }
{
    match instruction {
        Instr::System(system) => processor.execute_privileged(system, length, port),
        Instr::Move(_) | Instr::Arith(_) | Instr::Flow(_) => {
            execute_unprivileged(instruction, length, processor, port)
        }
    }
}
