//! A step.

ghost use Rattle.std.specs.Prelude.{◌≡◌, ◌↔◌, ◌<◌, ◌≤◌, true, false};
ghost use Rattle.mb_port.specs.Routine.{run};
ghost use Rattle.mb_instr.specs.Registers.{plain_of};
ghost use Rattle.mb_model.specs.Status.{space_of};
ghost use Rattle.def_processor.specs.Raise.{by_its_end, is_due};
ghost use Rattle.def_processor.specs.Step.{Halts, interrupt_mask, rank, step_of};
ghost use Rattle.mb_short.specs.Changed.{Follows};
ghost use Rattle.mb_step.specs.Modes.{KeepsMode};

use crate::decoder::Decoder;
use crate::fetching::{execute_at_once, execute_by_row, execute_next};
use crate::processor::Processor;
use def_processor::{Finish, StepEnd};
use mb_model::{Cpu, NON_MASKABLE};
use mb_port::{Port, Space};
use mb_short::Follower;

/// How high an interrupt of a level stands beside a mask: one that is not masked is above every mask.
#[inline(always)]
pub fn rank(level: u8) -> u8
    ensures { result ≡ rank level }
{
    if level == NON_MASKABLE { 8 } else { level }
}

/// One step of the processor, with an interrupt of `level` asked for, or of level 0 for none.
///
/// An interrupt above the mask is entered, and one of level 7 whatever the mask, and the step has nothing else. A
/// processor that STOP holds idles. Else the instruction at PC is carried out, with the exceptions that it causes. The
/// decoder is the caller's, whatever it remembers. The answer names the last exception that was entered.
///
/// `Loop` names the place that takes the step: what a step does most often is compiled into that place whole, where no
/// other place names the same.
#[inline(always)]
pub fn step_in_place<P: Port, Loop>(
    decoder: &mut Decoder,
    processor: &mut Processor,
    port: &mut P,
    level: u8,
) -> Finish
    requires { level < 8 }
    ensures means { run P.bus (step_of level processor.old) (P.world port.old)
        ≡ ((result, processor.new), P.world port.new) }
    ensures idle { result ≡ Finish.Idle ↔ (rank level ≤ interrupt_mask processor.old) × (processor.old.stopped ≡ true) }
    ensures halted { result ≡ Finish.Halted ↔ Halts P.bus level processor.old (P.world port.old) }
    ensures rest { P.rest port.new ≡ P.rest port.old }
{
    if rank(level) > processor.interrupt_mask() {
        return processor.interrupt(level, port);
    }
    if processor.is_stopped() {
        return Finish::Idle;
    }
    execute_next::<_, Loop>(
        &mut decoder.first_words,
        &mut decoder.shorts,
        &mut decoder.longer,
        processor,
        port,
    )
}

/// The place where a step is taken by itself.
struct Single;

/// One step as `step_in_place` takes it with no interrupt asked for, of a processor that STOP does not hold and for
/// which no trace is due, where its instruction is carried out at once by a short form: then the answer is true, and
/// the follower was told what it changed. Else nothing has changed. `space` is that of the processor's accesses.
#[inline(always)]
pub fn step_at_once<P: Port, F: Follower, Loop>(
    decoder: &mut Decoder,
    space: Space,
    processor: &mut Processor,
    port: &mut P,
    follower: &mut F,
) -> bool
    requires space { space ≡ space_of processor.old }
    requires awake { processor.old.stopped ≡ false }
    requires untraced { (flow : _) → is_due processor.old.regs.sr flow ≡ false }
    ensures means { result ≡ true → run P.bus (step_of 0 processor.old) (P.world port.old)
        ≡ ((Finish.Went, processor.new), P.world port.new) }
    ensures follows { Follows F.follows follower.old (plain_of processor.old.regs)
        → Follows F.follows follower.new (plain_of processor.new.regs) }
    ensures undone { result ≡ false → processor.new ≡ processor.old }
    ensures same { result ≡ false → P.world port.new ≡ P.world port.old }
    ensures mode { KeepsMode processor.old processor.new }
    ensures still { P.still (P.world port.new) ≡ P.still (P.world port.old) }
    ensures rest { P.rest port.new ≡ P.rest port.old }
{
    execute_at_once::<_, _, Loop>(
        &decoder.shorts,
        &mut decoder.placed,
        space,
        processor,
        port,
        follower,
    )
}

/// One step as `step_in_place` takes it with no interrupt asked for, but its instruction is not carried out by a short
/// form: for a step that `step_at_once` leaves as it was.
#[inline(always)]
pub fn step_by_row<P: Port>(
    decoder: &mut Decoder,
    processor: &mut Processor,
    port: &mut P,
) -> Finish
    ensures means { run P.bus (step_of 0 processor.old) (P.world port.old)
        ≡ ((result, processor.new), P.world port.new) }
    ensures rest { P.rest port.new ≡ P.rest port.old }
{
    if processor.is_stopped() {
        return Finish::Idle;
    }
    execute_by_row(
        &mut decoder.first_words,
        &mut decoder.shorts,
        &mut decoder.placed,
        &mut decoder.longer,
        processor,
        port,
    )
}

/// One step as `step_in_place` takes it, of a processor in one piece.
#[inline(always)]
pub fn step_to_finish<P: Port>(
    decoder: &mut Decoder,
    cpu: &mut Cpu,
    port: &mut P,
    level: u8,
) -> Finish
    requires { level < 8 }
    ensures means { run P.bus (step_of level cpu.old) (P.world port.old) ≡ ((result, cpu.new), P.world port.new) }
    ensures idle { result ≡ Finish.Idle ↔ (rank level ≤ interrupt_mask cpu.old) × (cpu.old.stopped ≡ true) }
    ensures halted { result ≡ Finish.Halted ↔ Halts P.bus level cpu.old (P.world port.old) }
    ensures rest { P.rest port.new ≡ P.rest port.old }
{
    let mut processor = Processor::new(cpu);
    let finish = step_in_place::<_, Single>(decoder, &mut processor, port, level);
    *cpu = processor.cpu();
    finish
}

/// One step as `step_to_finish` takes it, without a word of the exceptions that it entered.
#[inline(always)]
pub fn step<P: Port>(decoder: &mut Decoder, cpu: &mut Cpu, port: &mut P, level: u8) -> StepEnd
    requires { level < 8 }
    ensures means { by_its_end (run P.bus (step_of level cpu.old) (P.world port.old))
        ≡ ((result, cpu.new), P.world port.new) }
    ensures idle { result ≡ StepEnd.Idle ↔ (rank level ≤ interrupt_mask cpu.old) × (cpu.old.stopped ≡ true) }
    ensures halted { result ≡ StepEnd.Halted ↔ Halts P.bus level cpu.old (P.world port.old) }
    ensures rest { P.rest port.new ≡ P.rest port.old }
{
    step_to_finish(decoder, cpu, port, level).step_end()
}
