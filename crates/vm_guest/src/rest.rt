//! The rest of a guest's step: what is left of it once it has begun, and how that is carried out.

ghost use Rattle.std.specs.Prelude.{◌≡◌, ◌<◌, ℕ};
ghost use Rattle.mb_port.specs.Routine.{run};
ghost use Rattle.def_processor.specs.Raise.{by_its_end};
ghost use Rattle.mb_model.specs.declared.processor.Cpu.{Cpu as CpuValue};
ghost use Rattle.def_guests.specs.Exits.{handed_by};
ghost use Rattle.def_guests.specs.Guests.{Guest};
ghost use Rattle.def_guests.specs.Rests.{rest_by, SameOver};
ghost use Rattle.def_guests.specs.Exits.{frame_access, rest_by_frame};
ghost use Rattle.law_turns.specs.Lawful.{IsLawfulLeftOver, LeavesLawful};
ghost use Rattle.vm_guest.specs.Rests.{rest_in, IsLawfulRest};

use crate::classes::is_refusal;
use def_processor::StepEnd;
use mb_entry::Cause;
use mb_frames::Frame;
use mb_instr::{Plain, Regs};
use mb_model::Cpu;
use mb_port::Port;
use mb_step::{Decoder, step_to_finish};
use vm_inject::{LeftOver, finish_line, finish_movem, finish_trap, finish_writes, left_in};

/// What is left of a step that has begun. `after` are the registers that the board hands back.
#[derive(Drop)]
pub(crate) enum Rest {
    /// The step is carried out from the registers before it.
    Whole,
    /// The exception of an instruction that traps is entered.
    Trap { vector: u8, after: Plain },
    /// What an access error left is carried out.
    Access { left: LeftOver, after: Plain },
}

/// The guest's registers as the board hands them back: D, A and USP are its own, PC and the condition codes those of
/// the frame.
fn handed(regs: &Regs, frame: &Frame) -> Plain
    ensures { result ≡ handed_by regs.now frame.now }
{
    let (sr, pc) = match *frame {
        Frame::Short { sr, pc, .. }
        | Frame::Throwaway { sr, pc, .. }
        | Frame::Address { sr, pc, .. }
        | Frame::Access { sr, pc, .. } => (sr, pc),
    };
    let [a0, a1, a2, a3, a4, a5, a6] = regs.a;
    Plain {
        d: regs.d,
        a: [a0, a1, a2, a3, a4, a5, a6, regs.usp],
        pc,
        ccr: (sr % 32) as u8,
    }
}

/// Carries out what an access error left, from the processor before the step and the registers that the board hands
/// back.
fn finish<P: Port>(
    left: &LeftOver,
    after: &Plain,
    decoder: &mut Decoder,
    cpu: &mut Cpu,
    port: &mut P,
    level: u8,
) -> StepEnd
    requires level { level < 8 }
    requires lawful { IsLawfulLeftOver left.now }
    ensures means { by_its_end (run P.bus (rest_by left.now level cpu.old after.now) (P.world port.old))
        ≡ ((result, cpu.new), P.world port.new) }
    ensures rest { P.rest port.new ≡ P.rest port.old }
{
    match left {
        LeftOver::Again => step_to_finish(decoder, cpu, port, level).step_end(),
        LeftOver::Writes { pending, first } => {
            cpu.regs.set_plain(after);
            finish_writes(pending, *first, cpu, port)
        }
        LeftOver::Line { at, line } => {
            cpu.regs.set_plain(after);
            finish_line(*at, *line, cpu, port)
        }
        LeftOver::Movem {
            words,
            ea,
            done,
            next,
        } => {
            cpu.regs.set_plain(after);
            finish_movem(*words, *ea, *done, *next, cpu, port)
        }
    }
}

impl Rest {
    /// What a board left that entered this vector, by the frame that it stacked and its registers then.
    pub(crate) fn left(vector: u8, frame: &Frame, regs: &Regs) -> Rest
        requires lawful { LeavesLawful (frame_access frame.now) }
        ensures means { (level : ℕ) (cpu : CpuValue) → SameOver Guest (rest_in result level cpu)
            (rest_by_frame vector (frame_access frame.now) level cpu (handed_by regs.now frame.now)) }
        ensures lawful { IsLawfulRest result }
    {
        match frame {
            Frame::Access { access, .. } => Rest::Access {
                left: left_in(access),
                after: handed(regs, frame),
            },
            _ if is_refusal(vector) => Rest::Whole,
            _ => Rest::Trap {
                vector,
                after: handed(regs, frame),
            },
        }
    }

    /// Carries it out, from the processor before the step, with an interrupt of this level asked for.
    pub(crate) fn carry_out<P: Port>(
        &self,
        decoder: &mut Decoder,
        cpu: &mut Cpu,
        port: &mut P,
        level: u8,
    ) -> StepEnd
        requires level { level < 8 }
        requires lawful { IsLawfulRest self.now }
        ensures means { by_its_end (run P.bus (rest_in self.now level cpu.old) (P.world port.old))
            ≡ ((result, cpu.new), P.world port.new) }
        ensures rest { P.rest port.new ≡ P.rest port.old }
    {
        match self {
            Rest::Whole => step_to_finish(decoder, cpu, port, level).step_end(),
            Rest::Trap { vector, after } => {
                let before = cpu.regs.plain();
                let cause = Cause {
                    vector: *vector,
                    pc: after.pc,
                    address: before.pc,
                    access: None,
                    level: 0,
                };
                cpu.regs.set_plain(after);
                finish_trap(&cause, &before, cpu, port)
            }
            Rest::Access { left, after } => finish(left, after, decoder, cpu, port, level),
        }
    }
}
