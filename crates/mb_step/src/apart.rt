//! What stands outside the way of a step that has no exception: it is done with the processor put together.

ghost use Rattle.std.specs.Prelude.{◌≡◌, ◌≢◌, ◌<◌};
ghost use Rattle.mb_port.specs.Routine.{run};
ghost use Rattle.mb_instr.specs.Codes.{IsInstr};
ghost use Rattle.mb_instr.specs.declared.instruction.Instr.TheVariants as instr;
ghost use Rattle.mb_ea.specs.Reading.{refused_in};
ghost use Rattle.def_processor.specs.Raise.{interrupt_of, refuse_of, trace_of};
ghost use Rattle.def_processor.specs.SystemEnds.{with_registers};
ghost use Rattle.def_processor.specs.Step.{execute_of, finish_instruction_of, finish_unread_of};

use crate::executing::execute_supervised;
use crate::finishing::{finish_instruction, finish_unread};
use crate::processor::Processor;
use crate::raising::{interrupt, refuse, trace};
use def_processor::Finish;
use mb_ea::ReadFault;
use mb_instr::vectors::PRIVILEGED;
use mb_instr::{Instr, Plain, System};
use mb_model::Cpu;
use mb_port::{Fault, Port};
use mb_writes::Ended;

impl Processor {
    /// Enters an interrupt.
    #[inline(never)]
    pub(crate) fn interrupt<P: Port>(&mut self, level: u8, port: &mut P) -> Finish
        requires { level < 8 }
        ensures means { run P.bus (interrupt_of level self.old) (P.world port.old)
            ≡ ((result, self.new), P.world port.new) }
        ensures busy { result ≢ Finish.Idle }
        ensures rest { P.rest port.new ≡ P.rest port.old }
    {
        let mut cpu = self.cpu();
        let finish = interrupt(level, &mut cpu, port);
        self.set(&cpu);
        finish
    }

    /// Enters the exception of an instruction at PC that is not carried out.
    #[inline(never)]
    pub(crate) fn refuse<P: Port>(&mut self, vector: u8, port: &mut P) -> Finish
        ensures means { run P.bus (refuse_of vector self.old) (P.world port.old)
            ≡ ((result, self.new), P.world port.new) }
        ensures busy { result ≢ Finish.Idle }
        ensures rest { P.rest port.new ≡ P.rest port.old }
    {
        let mut cpu = self.cpu();
        let finish = refuse(vector, &mut cpu, port);
        self.set(&cpu);
        finish
    }

    /// After a refused fetch: that of a read whose operand is the word itself.
    #[inline(never)]
    pub(crate) fn finish_unfetched<P: Port>(
        &mut self,
        fault: Fault,
        at: u32,
        port: &mut P,
    ) -> Finish
        ensures means { run P.bus (finish_unread_of (refused_in at fault) self.old) (P.world port.old)
            ≡ ((result, self.new), P.world port.new) }
        ensures busy { result ≢ Finish.Idle }
        ensures rest { P.rest port.new ≡ P.rest port.old }
    {
        let mut cpu = self.cpu();
        let finish = finish_unread(&ReadFault { fault, first: at }, &mut cpu, port);
        self.set(&cpu);
        finish
    }

    /// Carries out a privileged instruction of so many words. It needs supervisor mode.
    #[inline(never)]
    pub(crate) fn execute_privileged<P: Port>(
        &mut self,
        system: &System,
        length: u8,
        port: &mut P,
    ) -> Finish
        requires { IsInstr (instr.System system.now) }
        ensures means { run P.bus (execute_of (instr.System system.now) length self.old) (P.world port.old)
            ≡ ((result, self.new), P.world port.new) }
        ensures busy { result ≢ Finish.Idle }
        ensures rest { P.rest port.new ≡ P.rest port.old }
    {
        let mut cpu = self.cpu();
        let finish = if cpu.regs.is_supervisor() {
            execute_supervised(system, length, &mut cpu, port)
        } else {
            refuse(PRIVILEGED, &mut cpu, port)
        };
        self.set(&cpu);
        finish
    }
}

/// Enters the trace of the instruction at `address`, which left these registers.
#[inline(never)]
pub(crate) fn trace_left<P: Port>(
    address: u32,
    plain: &mut Plain,
    cpu: &mut Cpu,
    port: &mut P,
) -> Finish
    ensures means { run P.bus (trace_of address (with_registers plain.old cpu.old)) (P.world port.old)
        ≡ ((result, with_registers plain.new cpu.new), P.world port.new) }
    ensures ccr { plain.new.ccr < 32 }
    ensures busy { result ≢ Finish.Idle }
    ensures rest { P.rest port.new ≡ P.rest port.old }
{
    cpu.regs.set_plain(plain);
    let finish = trace(address, cpu, port);
    *plain = cpu.regs.plain();
    finish
}

/// Finishes an instruction that was not done, ended so and left these registers. Those before it stand beside.
#[inline(never)]
pub(crate) fn finish_undone<P: Port>(
    instruction: &Instr,
    ended: &Ended,
    before: &Plain,
    plain: &mut Plain,
    cpu: &mut Cpu,
    port: &mut P,
) -> Finish
    requires { IsInstr instruction.now }
    ensures means { run P.bus (finish_instruction_of instruction.now ended.now (with_registers before.now cpu.old)
        (with_registers plain.old cpu.old)) (P.world port.old)
        ≡ ((result, with_registers plain.new cpu.new), P.world port.new) }
    ensures ccr { plain.new.ccr < 32 }
    ensures busy { result ≢ Finish.Idle }
    ensures rest { P.rest port.new ≡ P.rest port.old }
{
    cpu.regs.set_plain(before);
    let finish = finish_instruction(instruction, ended, plain, cpu, port);
    *plain = cpu.regs.plain();
    finish
}
