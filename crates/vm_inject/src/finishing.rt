//! What follows from the point that a step came to, up to its end.
//!
//! The processor is the guest's, with the registers with which the begun step ended, so a frame has the guest's own SR.
//! T1 and T0 are clear, so no trace follows. All accesses are in the space that S says; entries are the supervisor's.

ghost use Rattle.std.specs.Prelude.{◌≡◌, ◌≢◌, ◌<◌, ◌≤◌, ◌%◌, length};
ghost use Rattle.mb_port.specs.Routine.{run};
ghost use Rattle.mb_writes.specs.Writing.{ArePending};
ghost use Rattle.mb_writes.specs.Transfers.{count_of, mask_in};
ghost use Rattle.def_processor.specs.Raise.{by_its_end};
ghost use Rattle.def_runs.specs.Finishes.{finish_trap_of, finish_writes_of, finish_line_of, finish_movem_of};

use mb_entry::{Cause, Entered, enter, line_fields, movem_fields, write_fields};
use mb_frames::Pend;
use mb_instr::Plain;
use mb_model::{Cpu, page_size_by};
use mb_port::Port;
use mb_step::{StepEnd, access_error, unchecked};
use mb_writes::{continue_movem, write_pieces};

/// Finishes an instruction that traps, vector 5, 6, 7 or 32 to 47: enters its exception.
///
/// `before` are the registers before the instruction. Where the frame has no place they come back, and an access error
/// is entered in its place, as in the manual's chapter on exception processing. `Halted` comes where that one's frame
/// has no place either, or a vector cannot be read.
pub fn finish_trap<P: Port>(cause: &Cause, before: &Plain, cpu: &mut Cpu, port: &mut P) -> StepEnd
    requires { cause.now.level < 8 }
    ensures means { by_its_end (run P.bus (finish_trap_of cause.now before.now cpu.old) (P.world port.old))
        ≡ ((result, cpu.new), P.world port.new) }
    ensures busy { result ≢ StepEnd.Idle }
    ensures rest { P.rest port.new ≡ P.rest port.old }
{
    match enter(cpu, port, cause) {
        Entered::Done => StepEnd::Went,
        Entered::Faulted(fault) => {
            cpu.regs.set_plain(before);
            unchecked(false, &fault, cpu, port).step_end()
        }
        Entered::DoubleFault => StepEnd::Halted,
    }
}

/// Finishes an instruction of which pieces are left to be written: writes them in order, at most three.
///
/// A refused piece is left with those after it, and an access error is entered whose frame names them as writebacks,
/// and `first` as the first byte of their operand. PC is the next instruction's. `Halted` comes where that frame has no
/// place, or vector 2 cannot be read.
pub fn finish_writes<P: Port>(pending: &[Pend], first: u32, cpu: &mut Cpu, port: &mut P) -> StepEnd
    requires few { length pending.now ≤ 3 }
    requires pieces { ArePending pending.now }
    ensures means { by_its_end (run P.bus (finish_writes_of pending.now first cpu.old) (P.world port.old))
        ≡ ((result, cpu.new), P.world port.new) }
    ensures busy { result ≢ StepEnd.Idle }
    ensures rest { P.rest port.new ≡ P.rest port.old }
{
    match write_pieces(pending, first, cpu.space(), port) {
        Ok(()) => StepEnd::Went,
        Err(refused) => {
            let fields = write_fields(&refused, page_size_by(&port.mmu()));
            access_error(cpu.regs.pc, fields, cpu, port).step_end()
        }
    }
}

/// Finishes a MOVE16 whose line is left to be written, at an address that is a multiple of 16.
///
/// A refused line is left whole, and an access error is entered whose frame has it. PC is the next instruction's.
/// `Halted` comes where that frame has no place, or vector 2 cannot be read.
pub fn finish_line<P: Port>(at: u32, line: [u32; 4], cpu: &mut Cpu, port: &mut P) -> StepEnd
    requires { at % 16 ≡ 0 }
    ensures means { by_its_end (run P.bus (finish_line_of at line cpu.old) (P.world port.old))
        ≡ ((result, cpu.new), P.world port.new) }
    ensures busy { result ≢ StepEnd.Idle }
    ensures rest { P.rest port.new ≡ P.rest port.old }
{
    match port.write_line(cpu.space(), at, line) {
        Ok(()) => StepEnd::Went,
        Err(fault) => {
            let fields = line_fields(&fault, line, page_size_by(&port.mmu()));
            access_error(cpu.regs.pc, fields, cpu, port).step_end()
        }
    }
}

/// Finishes a MOVEM from the transfer behind the first `done` on, without a fetch, and goes to the next instruction.
///
/// `words` are the operation word and the mask, `ea` is the address of the first transfer. PC is the MOVEM's own. A
/// refused transfer leaves what was loaded, and an access error is entered whose frame tells how far the MOVEM came, as
/// in the manual's chapter on the access error. `Halted` comes where that frame has no place, or vector 2 cannot be
/// read.
pub fn finish_movem<P: Port>(
    words: u32,
    ea: u32,
    done: u8,
    next: u32,
    cpu: &mut Cpu,
    port: &mut P,
) -> StepEnd
    requires { done ≤ count_of (mask_in words) }
    ensures means { by_its_end (run P.bus (finish_movem_of words ea done next cpu.old) (P.world port.old))
        ≡ ((result, cpu.new), P.world port.new) }
    ensures busy { result ≢ StepEnd.Idle }
    ensures rest { P.rest port.new ≡ P.rest port.old }
{
    let at = cpu.regs.pc;
    let mut plain = cpu.regs.plain();
    plain.pc = next;
    let moved = continue_movem(&mut plain, words, ea, done, cpu.space(), port);
    cpu.regs.set_plain(&plain);
    match moved {
        Ok(()) => StepEnd::Went,
        Err(refused) => {
            let fields = movem_fields(&refused, words, cpu.regs.pc, page_size_by(&port.mmu()));
            access_error(at, fields, cpu, port).step_end()
        }
    }
}
