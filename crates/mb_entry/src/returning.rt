//! The return from an exception.

ghost use Rattle.std.specs.Prelude.{◌≡◌, ◌≤◌};
ghost use Rattle.mb_port.specs.Routine.{run};
ghost use Rattle.mb_writes.specs.Transfers.{count_of, mask_in};
ghost use Rattle.def_processor.specs.Return.{go_on_of, return_from_of, returning, holding};
ghost use Rattle.mb_entry.specs.Clauses.{ReturnEnds, WentOn};

use crate::taking::{continues, take_frames};
use mb_frames::Access;
use mb_model::Cpu;
use mb_port::Port;
use mb_writes::{Ended, continue_movem};

/// Goes on with a MOVEM by the fields of its access error, without a fetch.
#[tactic(auto, using(crate::proofs::Counts::count_few))]
fn go_on<P: Port>(access: &Access, cpu: &mut Cpu, port: &mut P) -> Ended
    requires { access.now.pd3 ≤ count_of (mask_in access.now.pd2) }
    ensures means { run P.bus (go_on_of access.now cpu.old) (P.world port.old)
        ≡ ((result, cpu.new), P.world port.new) }
    ensures ends { WentOn result }
    ensures rest { P.rest port.new ≡ P.rest port.old }
{
    let space = cpu.space();
    let mut plain = cpu.regs.plain();
    let done = access.pd3 as u8;
    let ended = match continue_movem(&mut plain, access.pd2, access.ea, done, space, port) {
        Ok(()) => {
            plain.pc = access.pd1;
            Ended::Done { flow: true }
        }
        Err(refused) => Ended::Movem(refused),
    };
    cpu.regs.set_plain(&plain);
    ended
}

/// RTE: returns from an exception by the frame on the active stack.
///
/// Where a frame of an access error was taken, `held` becomes its fields and `at` its PC, also where a MOVEM went on
/// and PC is behind it; else both stay.
pub fn return_held<P: Port>(cpu: &mut Cpu, port: &mut P, held: &mut Access, at: &mut u32) -> Ended
    ensures means { run P.bus (holding (record { access = held.old; pc = at.old }) (return_from_of cpu.old))
        (P.world port.old) ≡ ((result, cpu.new, record { access = held.new; pc = at.new }), P.world port.new) }
    ensures ends { ReturnEnds result cpu.old cpu.new }
    ensures rest { P.rest port.new ≡ P.rest port.old }
{
    let taken = match take_frames(&mut cpu.regs, port) {
        Ok(taken) => taken,
        Err(ended) => return ended,
    };
    let Some(access) = taken else {
        return Ended::Done { flow: true };
    };
    *held = access;
    *at = cpu.regs.pc;
    if continues(&access) {
        go_on(&access, cpu, port)
    } else {
        Ended::Done { flow: true }
    }
}

/// RTE: returns from an exception by the frame on the active stack.
pub fn return_from<P: Port>(cpu: &mut Cpu, port: &mut P) -> Ended
    ensures means { run P.bus (returning (return_from_of cpu.old)) (P.world port.old)
        ≡ ((result, cpu.new), P.world port.new) }
    ensures ends { ReturnEnds result cpu.old cpu.new }
    ensures rest { P.rest port.new ≡ P.rest port.old }
{
    let mut held = Access::default();
    let mut at = 0;
    return_held(cpu, port, &mut held, &mut at)
}
