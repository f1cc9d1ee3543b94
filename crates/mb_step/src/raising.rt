//! Exceptions in a step: how each is entered, and what follows where its frame has no place.

ghost use Rattle.std.specs.Prelude.{◌≡◌, ◌≢◌, ◌<◌, ◌||◌};
ghost use Rattle.mb_port.specs.Routine.{run};
ghost use Rattle.mb_instr.specs.Registers.{with_plain};
ghost use Rattle.def_processor.specs.SystemEnds.{with_registers};
ghost use Rattle.def_processor.specs.Raise.{traces_all, traces_flow, is_due, has_ct, with_ct, cause_at};
ghost use Rattle.def_processor.specs.Raise.{access_error_of, unchecked_of, raise_of, raise_last_of, interrupt_of, trace_of};
ghost use Rattle.def_processor.specs.Raise.{trace_if_of, raise_trap_of, refuse_of};

use def_processor::Finish;
use mb_entry::{Cause, Entered, check_fields, enter};
use mb_frames::{Access, CT};
use mb_instr::status::{T0, T1};
use mb_instr::vectors::{ACCESS_ERROR, INTERRUPT, TRACE};
use mb_instr::{Plain, Regs};
use mb_model::Cpu;
use mb_port::{Fault, Port, word_has};
use std::mem::{replace, swap};

/// T1 asks for a trace after each instruction.
#[inline(always)]
pub(crate) fn traces_all(sr: u16) -> bool
    ensures { result ≡ traces_all sr }
{
    word_has(sr, T1)
}

/// T0 asks for a trace after each change of flow.
#[inline(always)]
fn traces_flow(sr: u16) -> bool
    ensures { result ≡ traces_flow sr }
{
    word_has(sr, T0)
}

/// Whether a trace is due after an instruction that is done, by the bits at its start.
#[inline(always)]
pub(crate) fn is_due(sr: u16, flow: bool) -> bool
    ensures { result ≡ is_due sr flow }
{
    // Mostly no trace bit is set, which one test tells.
    if sr < T0 {
        return false;
    }
    traces_all(sr) || (traces_flow(sr) && flow)
}

/// Whether CT is set.
pub(crate) fn has_ct(access: &Access) -> bool
    ensures { result ≡ has_ct access.now }
{
    word_has(access.ssw, CT)
}

/// The fields with CT, where a trace is due. A return by their frame then asks for it.
pub(crate) fn with_ct(due: bool, access: Access) -> Access
    ensures value { result ≡ with_ct due access }
    ensures asks { has_ct result ≡ (due || has_ct access) }
{
    let mut access = access;
    if due {
        access.ssw |= CT;
    }
    access
}

/// The cause of an exception that is neither an access error nor an interrupt.
fn cause_at(vector: u8, pc: u32, address: u32) -> Cause
    ensures { result ≡ cause_at vector pc address }
{
    Cause {
        vector,
        pc,
        address,
        access: None,
        level: 0,
    }
}

/// Enters an access error: its frame of format $7 has this PC and these fields. Where the frame has no place,
/// or the vector cannot be read, the processor halts.
#[inline(never)]
pub fn access_error<P: Port>(pc: u32, access: Access, cpu: &mut Cpu, port: &mut P) -> Finish
    ensures means { run P.bus (access_error_of pc access cpu.old) (P.world port.old)
        ≡ ((result, cpu.new), P.world port.new) }
    ensures busy { result ≢ Finish.Idle }
    ensures rest { P.rest port.new ≡ P.rest port.old }
{
    let cause = Cause {
        vector: ACCESS_ERROR,
        pc,
        address: 0,
        access: Some(access),
        level: 0,
    };
    match enter(cpu, port, &cause) {
        Entered::Done => Finish::Entered(ACCESS_ERROR),
        Entered::Faulted(_) | Entered::DoubleFault => Finish::Halted,
    }
}

/// Enters the access error of a frame that has no place: `fault` is the one that its check was refused with. CT is set
/// where it was a trace's. The processor is as an access error in its place finds it.
#[inline(never)]
pub fn unchecked<P: Port>(is_trace: bool, fault: &Fault, cpu: &mut Cpu, port: &mut P) -> Finish
    ensures means { run P.bus (unchecked_of is_trace fault.now cpu.old) (P.world port.old)
        ≡ ((result, cpu.new), P.world port.new) }
    ensures busy { result ≢ Finish.Idle }
    ensures rest { P.rest port.new ≡ P.rest port.old }
{
    let fields = with_ct(is_trace, check_fields(fault));
    access_error(cpu.regs.pc, fields, cpu, port)
}

/// Enters an exception that is the last of its step, from the processor as it stands.
#[inline(never)]
#[tactic(auto, using(crate::proofs::Entries::unchecked_awake))]
fn raise_last<P: Port>(is_trace: bool, cause: &Cause, cpu: &mut Cpu, port: &mut P) -> Finish
    requires { cause.now.level < 8 }
    ensures means { run P.bus (raise_last_of cause.now.vector (raise_of is_trace cause.now cpu.old cpu.old))
        (P.world port.old)
        ≡ ((result, cpu.new), P.world port.new) }
    ensures busy { result ≢ Finish.Idle }
    ensures rest { P.rest port.new ≡ P.rest port.old }
{
    match enter(cpu, port, cause) {
        Entered::Done => Finish::Entered(cause.vector),
        Entered::Faulted(fault) => unchecked(is_trace, &fault, cpu, port),
        Entered::DoubleFault => Finish::Halted,
    }
}

/// Enters an interrupt.
#[inline(never)]
pub(crate) fn interrupt<P: Port>(level: u8, cpu: &mut Cpu, port: &mut P) -> Finish
    requires { level < 8 }
    ensures means { run P.bus (interrupt_of level cpu.old) (P.world port.old)
        ≡ ((result, cpu.new), P.world port.new) }
    ensures busy { result ≢ Finish.Idle }
    ensures rest { P.rest port.new ≡ P.rest port.old }
{
    let cause = Cause {
        vector: INTERRUPT + level,
        pc: cpu.regs.pc,
        address: 0,
        access: None,
        level,
    };
    raise_last(false, &cause, cpu, port)
}

/// Enters the trace of the instruction at `address`.
#[inline(never)]
pub(crate) fn trace<P: Port>(address: u32, cpu: &mut Cpu, port: &mut P) -> Finish
    ensures means { run P.bus (trace_of address cpu.old) (P.world port.old)
        ≡ ((result, cpu.new), P.world port.new) }
    ensures busy { result ≢ Finish.Idle }
    ensures rest { P.rest port.new ≡ P.rest port.old }
{
    raise_last(true, &cause_at(TRACE, cpu.regs.pc, address), cpu, port)
}

/// Enters the trace of the instruction at `address`, where it is due; else the step ends as it has come so far.
#[inline(always)]
pub(crate) fn trace_if<P: Port>(
    so_far: Finish,
    due: bool,
    address: u32,
    cpu: &mut Cpu,
    port: &mut P,
) -> Finish
    requires { so_far ≢ Finish.Idle }
    ensures means { run P.bus (trace_if_of so_far due address cpu.old) (P.world port.old)
        ≡ ((result, cpu.new), P.world port.new) }
    ensures busy { result ≢ Finish.Idle }
    ensures rest { P.rest port.new ≡ P.rest port.old }
{
    if due {
        trace(address, cpu, port)
    } else {
        so_far
    }
}

/// Exchanges the registers that user mode sees with these, in place. Put back, they give the registers before.
#[tactic(auto, using(mb_instr::proofs::Arrays::seven_of_eight))]
fn exchange(plain: &mut Plain, regs: &mut Regs)
    ensures now { regs.new ≡ with_plain regs.old plain.old }
    ensures before { with_plain regs.new plain.new ≡ regs.old }
{
    let top = regs.active_stack();
    let [a0, a1, a2, a3, a4, a5, a6, a7] = plain.a;
    regs.set_active_stack(a7);
    let [b0, b1, b2, b3, b4, b5, b6] = replace(&mut regs.a, [a0, a1, a2, a3, a4, a5, a6]);
    plain.a = [b0, b1, b2, b3, b4, b5, b6, top];
    swap(&mut regs.d, &mut plain.d);
    swap(&mut regs.pc, &mut plain.pc);
    let ccr = (regs.sr % 32) as u8;
    regs.sr = regs.sr - regs.sr % 32 + u16::from(plain.ccr % 32);
    plain.ccr = ccr;
}

/// Enters the exception of an instruction that traps and left these registers, and behind it a trace, where T1 asks for
/// one. Where the frame has no place, the registers before the instruction come back.
#[inline(never)]
pub(crate) fn raise_trap<P: Port>(
    vector: u8,
    plain: &mut Plain,
    cpu: &mut Cpu,
    port: &mut P,
) -> Finish
    ensures means { run P.bus (raise_trap_of vector cpu.old (with_registers plain.old cpu.old)) (P.world port.old)
        ≡ ((result, cpu.new), P.world port.new) }
    ensures busy { result ≢ Finish.Idle }
    ensures rest { P.rest port.new ≡ P.rest port.old }
{
    let (at, traced) = (cpu.regs.pc, traces_all(cpu.regs.sr));
    exchange(plain, &mut cpu.regs);
    match enter(cpu, port, &cause_at(vector, cpu.regs.pc, at)) {
        Entered::Done => trace_if(Finish::Entered(vector), traced, at, cpu, port),
        Entered::Faulted(fault) => {
            cpu.regs.set_plain(plain);
            unchecked(false, &fault, cpu, port)
        }
        Entered::DoubleFault => Finish::Halted,
    }
}

/// Enters the exception of an instruction at PC that is not carried out.
#[inline(never)]
#[tactic(auto, unfolding(def_processor::specs::Raise::refuse_of))]
pub(crate) fn refuse<P: Port>(vector: u8, cpu: &mut Cpu, port: &mut P) -> Finish
    ensures means { run P.bus (refuse_of vector cpu.old) (P.world port.old)
        ≡ ((result, cpu.new), P.world port.new) }
    ensures busy { result ≢ Finish.Idle }
    ensures rest { P.rest port.new ≡ P.rest port.old }
{
    let at = cpu.regs.pc;
    raise_last(false, &cause_at(vector, at, at - at % 2), cpu, port)
}
