//! The finish of an instruction: what follows however it ended.

ghost use Rattle.std.specs.Prelude.{◌≡◌, ◌≢◌};
ghost use Rattle.mb_port.specs.Routine.{run};
ghost use Rattle.mb_instr.specs.Codes.{IsInstr};
ghost use Rattle.def_processor.specs.SystemEnds.{with_registers};
ghost use Rattle.def_processor.specs.Step.{finish_unread_of, finish_unfinished_of, finish_unwritten_of, finish_unwritten_line_of, movem_words};
ghost use Rattle.def_processor.specs.Step.{finish_untransferred_of, is_flow, finish_instruction_of};

use crate::raising::{access_error, is_due, raise_trap, refuse, trace_if, traces_all, with_ct};
use def_processor::Finish;
use mb_ea::ReadFault;
use mb_encode::encode;
use mb_entry::{line_fields, movem_fields, read_fields, write_fields};
use mb_instr::{Instr, Plain};
use mb_model::{Cpu, page_size_by};
use mb_port::{Fault, Port};
use mb_writes::{Ended, Movem, MovemFault, WriteFault};

/// After a refused fetch, read or locked check. The processor is as before the instruction.
#[inline(never)]
#[tactic(auto, unfolding(def_processor::specs::Step::finish_unread_of))]
pub(crate) fn finish_unread<P: Port>(refused: &ReadFault, cpu: &mut Cpu, port: &mut P) -> Finish
    ensures means { run P.bus (finish_unread_of refused.now cpu.old) (P.world port.old)
        ≡ ((result, cpu.new), P.world port.new) }
    ensures busy { result ≢ Finish.Idle }
    ensures rest { P.rest port.new ≡ P.rest port.old }
{
    let fields = read_fields(&refused.fault, refused.first, page_size_by(&port.mmu()));
    access_error(cpu.regs.pc, fields, cpu, port)
}

/// After a refused write of which something is left. The instruction is otherwise complete.
#[inline(never)]
pub(crate) fn finish_unfinished<P: Port>(
    due: bool,
    refused: &WriteFault,
    cpu: &mut Cpu,
    port: &mut P,
) -> Finish
    ensures means { run P.bus (finish_unfinished_of due refused.now cpu.old) (P.world port.old)
        ≡ ((result, cpu.new), P.world port.new) }
    ensures busy { result ≢ Finish.Idle }
    ensures rest { P.rest port.new ≡ P.rest port.old }
{
    let fields = with_ct(due, write_fields(refused, page_size_by(&port.mmu())));
    access_error(cpu.regs.pc, fields, cpu, port)
}

/// After a refused write. Where nothing is left the instruction was not begun.
#[inline(never)]
fn finish_unwritten<P: Port>(
    due: bool,
    refused: &WriteFault,
    plain: &Plain,
    cpu: &mut Cpu,
    port: &mut P,
) -> Finish
    ensures means { run P.bus (finish_unwritten_of due refused.now refused.now.rest.items cpu.old
        (with_registers plain.now cpu.old)) (P.world port.old) ≡ ((result, cpu.new), P.world port.new) }
    ensures busy { result ≢ Finish.Idle }
    ensures rest { P.rest port.new ≡ P.rest port.old }
{
    if refused.rest.is_empty() {
        access_error(
            cpu.regs.pc,
            write_fields(refused, page_size_by(&port.mmu())),
            cpu,
            port,
        )
    } else {
        cpu.regs.set_plain(plain);
        finish_unfinished(due, refused, cpu, port)
    }
}

/// After a refused write of a line. The instruction is otherwise complete.
#[inline(never)]
fn finish_unwritten_line<P: Port>(
    due: bool,
    fault: &Fault,
    line: [u32; 4],
    plain: &Plain,
    cpu: &mut Cpu,
    port: &mut P,
) -> Finish
    ensures means { run P.bus (finish_unwritten_line_of due fault.now line (with_registers plain.now cpu.old))
        (P.world port.old) ≡ ((result, cpu.new), P.world port.new) }
    ensures busy { result ≢ Finish.Idle }
    ensures rest { P.rest port.new ≡ P.rest port.old }
{
    cpu.regs.set_plain(plain);
    let fields = with_ct(due, line_fields(fault, line, page_size_by(&port.mmu())));
    access_error(cpu.regs.pc, fields, cpu, port)
}

/// The operation and mask words of a MOVEM.
fn movem_words(instruction: &Instr) -> u32
    requires { IsInstr instruction.now }
    ensures { result ≡ movem_words instruction.now }
{
    match encode(instruction) {
        Ok(words) => match words.as_slice() {
            [first, second, ..] => u32::from(*first) << 16 | u32::from(*second),
            _ => 0,
        },
        Err(_) => 0,
    }
}

/// After a refused transfer of a MOVEM. What was loaded stays.
#[inline(never)]
fn finish_untransferred<P: Port>(
    due: bool,
    refused: &MovemFault,
    words: u32,
    plain: &Plain,
    cpu: &mut Cpu,
    port: &mut P,
) -> Finish
    ensures means { run P.bus (finish_untransferred_of due refused.now words cpu.old (with_registers plain.now cpu.old))
        (P.world port.old) ≡ ((result, cpu.new), P.world port.new) }
    ensures busy { result ≢ Finish.Idle }
    ensures rest { P.rest port.new ≡ P.rest port.old }
{
    let at = cpu.regs.pc;
    cpu.regs.set_plain(plain);
    let fields = movem_fields(refused, words, cpu.regs.pc, page_size_by(&port.mmu()));
    let is_load = Movem::of(words).is_load;
    access_error(at, with_ct(due && !is_load, fields), cpu, port)
}

/// Whether T0 asks for a trace after an instruction that writes.
fn is_flow(instruction: &Instr) -> bool
    ensures { result ≡ is_flow instruction.now }
{
    matches!(instruction, Instr::Flow(_))
}

/// Finishes an instruction that is not privileged, ended so and left these registers. The processor is as before it.
#[inline(never)]
pub(crate) fn finish_instruction<P: Port>(
    instruction: &Instr,
    ended: &Ended,
    plain: &mut Plain,
    cpu: &mut Cpu,
    port: &mut P,
) -> Finish
    requires { IsInstr instruction.now }
    ensures means { run P.bus
        (finish_instruction_of instruction.now ended.now cpu.old (with_registers plain.old cpu.old))
        (P.world port.old) ≡ ((result, cpu.new), P.world port.new) }
    ensures busy { result ≢ Finish.Idle }
    ensures rest { P.rest port.new ≡ P.rest port.old }
{
    let (at, sr) = (cpu.regs.pc, cpu.regs.sr);
    match ended {
        Ended::Done { flow } => {
            cpu.regs.set_plain(plain);
            trace_if(Finish::Went, is_due(sr, *flow), at, cpu, port)
        }
        Ended::Trap(vector) => raise_trap(*vector, plain, cpu, port),
        Ended::Refused(vector) => refuse(*vector, cpu, port),
        Ended::ReadFault(refused) => finish_unread(refused, cpu, port),
        Ended::WriteFault(refused) => {
            finish_unwritten(is_due(sr, is_flow(instruction)), refused, plain, cpu, port)
        }
        Ended::LineFault { fault, line } => {
            finish_unwritten_line(traces_all(sr), fault, *line, plain, cpu, port)
        }
        Ended::Movem(refused) => {
            let words = movem_words(instruction);
            finish_untransferred(traces_all(sr), refused, words, plain, cpu, port)
        }
    }
}
