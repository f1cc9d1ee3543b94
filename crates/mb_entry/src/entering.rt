//! The entry of an exception.

ghost use Rattle.std.specs.Prelude.{◌≡◌, ◌<◌, false, IsSome};
ghost use Rattle.mb_port.specs.Routine.{run};
ghost use Rattle.def_processor.specs.Entry.{frames_of, check_frames_of, go_to_handler_of, unstacked, enter_of};
ghost use Rattle.mb_entry.specs.Clauses.{RegsAfter, LeavesCpu, IfFaulted, IfHalted, IsUnread, IsDoubleFault};

use crate::places::{Places, check_frames, put_frames};
use crate::stacking::{frames_for, offset, set_handler_regs};
use def_processor::{Cause, Entered};
use mb_instr::Size;
use mb_model::Cpu;
use mb_operands::read_memory;
use mb_port::{Fault, Port, Space};

/// What follows where a check of the frame was refused.
fn unstacked(fault: Fault, cause: &Cause, cpu: &mut Cpu) -> Entered
    ensures means { (result, cpu.new) ≡ unstacked cause.now.access fault cause.now cpu.old }
    ensures told { IfFaulted result (λ other. other ≡ fault) }
    ensures access { IfHalted result (IsSome cause.now.access) }
    ensures regs { IfHalted result (cpu.new.regs ≡ record cpu.old.regs { pc = cause.now.pc }) }
{
    if cause.access.is_some() {
        cpu.regs.pc = cause.pc;
        Entered::DoubleFault
    } else {
        Entered::Faulted(fault)
    }
}

/// Goes where the table of vectors says.
fn go_to_handler<P: Port>(cause: &Cause, cpu: &mut Cpu, port: &mut P) -> Entered
    ensures means { run P.bus (go_to_handler_of cause.now cpu.old) (P.world port.old)
        ≡ ((result, cpu.new), P.world port.new) }
    ensures went { LeavesCpu result cpu.old cpu.new }
    ensures unread { IfHalted result
        (IsUnread P.bus cause.now.vector cpu.old.vbr (P.world port.old) (P.world port.new)) }
    ensures rest { P.rest port.new ≡ P.rest port.old }
{
    let entry = cpu.vbr.wrapping_add(u32::from(offset(cause.vector)));
    match read_memory(Space::Super, entry, Size::Long, port) {
        Ok(target) => {
            cpu.regs.pc = target;
            Entered::Done
        }
        Err(_) => Entered::DoubleFault,
    }
}

/// Enters an exception: every piece of every frame is checked before any is written, and the vector is read last.
///
/// The registers are changed in place, once the frames are written, so where a check is refused they need not be put
/// back.
pub fn enter<P: Port>(cpu: &mut Cpu, port: &mut P, cause: &Cause) -> Entered
    requires { cause.now.level < 8 }
    ensures means { run P.bus (enter_of cause.now cpu.old) (P.world port.old)
        ≡ ((result, cpu.new), P.world port.new) }
    ensures registers { RegsAfter result cause.now cpu.old.regs cpu.new.regs }
    ensures others { cpu.new ≡ record cpu.old { regs = cpu.new.regs; stopped = false } }

    // Where a check was refused nothing was written: the checks alone were made.
    ensures unwritten { IfFaulted result (λ fault.
        run P.bus (check_frames_of (frames_of cause.now cpu.old.regs)) (P.world port.old)
        ≡ (Err fault, P.world port.new)) }

    // The processor halts where a check was refused of an access error's frame, or where the vector can't be read.
    ensures halts { IfHalted result
        (IsDoubleFault P.bus cause.now cpu.old cpu.new.regs (P.world port.old) (P.world port.new)) }
    ensures rest { P.rest port.new ≡ P.rest port.old }
{
    let frames = frames_for(cause, &cpu.regs);
    let mut places = Places::new();
    cpu.stopped = false;
    match check_frames(&frames, &mut places, port) {
        Ok(()) => {
            put_frames(&frames, &places, port);
            set_handler_regs(cause, &frames, &mut cpu.regs);
            go_to_handler(cause, cpu, port)
        }
        Err(fault) => unstacked(fault, cause, cpu),
    }
}
