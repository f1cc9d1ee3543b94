//! RTE, with its finish.

ghost use Rattle.std.specs.Prelude.{◌≡◌, ◌≢◌};
ghost use Rattle.mb_port.specs.Routine.{run};
ghost use Rattle.def_processor.specs.Step.{is_due_by, finish_untransferred_again_of, rte_of};

use crate::finishing::finish_unread;
use crate::raising::{access_error, has_ct, is_due, refuse, trace_if, traces_all, with_ct};
use def_processor::Finish;
use mb_entry::{continues, movem_fields, return_held};
use mb_frames::Access;
use mb_model::{Cpu, page_size_by};
use mb_port::Port;
use mb_writes::{Ended, MovemFault};

/// The frame of an access error that RTE took: its fields and its PC. Without one all are 0.
#[derive(Clone, Copy)]
struct Held {
    access: Access,
    pc: u32,
}

/// Whether the frame asks for a trace.
fn is_due_by(held: &Held, cpu: &Cpu) -> bool
    ensures { result ≡ is_due_by (record { access = held.now.access; pc = held.now.pc }) cpu.now }
{
    has_ct(&held.access) || (continues(&held.access) && traces_all(cpu.regs.sr))
}

/// After a transfer that was refused again: the frame is as the one that was taken.
#[inline(never)]
fn finish_untransferred_again<P: Port>(
    due: bool,
    refused: &MovemFault,
    held: &Held,
    cpu: &mut Cpu,
    port: &mut P,
) -> Finish
    ensures means { run P.bus (finish_untransferred_again_of due refused.now
        (record { access = held.now.access; pc = held.now.pc }) cpu.old) (P.world port.old)
        ≡ ((result, cpu.new), P.world port.new) }
    ensures busy { result ≢ Finish.Idle }
    ensures rest { P.rest port.new ≡ P.rest port.old }
{
    let old = &held.access;
    let fields = movem_fields(refused, old.pd2, old.pd1, page_size_by(&port.mmu()));
    access_error(held.pc, with_ct(due || has_ct(old), fields), cpu, port)
}

/// RTE, in supervisor mode. Where it took no frame the processor is as it was.
#[inline(never)]
pub(crate) fn rte<P: Port>(cpu: &mut Cpu, port: &mut P) -> Finish
    ensures means { run P.bus (rte_of cpu.old) (P.world port.old) ≡ ((result, cpu.new), P.world port.new) }
    ensures busy { result ≢ Finish.Idle }
    ensures rest { P.rest port.new ≡ P.rest port.old }
{
    let (at, sr) = (cpu.regs.pc, cpu.regs.sr);
    let mut access = Access::default();
    let mut pc = 0;
    let ended = return_held(cpu, port, &mut access, &mut pc);
    let held = Held { access, pc };
    match ended {
        Ended::Done { flow } => {
            let asked = is_due(sr, flow);
            let address = if asked { at } else { held.pc };
            trace_if(
                Finish::Went,
                asked || is_due_by(&held, cpu),
                address,
                cpu,
                port,
            )
        }
        Ended::Movem(refused) => finish_untransferred_again(
            is_due(sr, true),
            &refused,
            &held,
            cpu,
            port,
        ),
        Ended::Refused(vector) => refuse(vector, cpu, port),
        Ended::ReadFault(refused) => finish_unread(&refused, cpu, port),
        Ended::Trap(_) | Ended::WriteFault(_) | Ended::LineFault { .. } => unreachable!(),
    }
}
