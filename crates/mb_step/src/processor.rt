//! The processor as steps work on it.

ghost use Rattle.std.specs.Prelude.{◌≡◌, false, length};
ghost use Rattle.mb_instr.specs.Registers.{plain_of};
ghost use Rattle.mb_model.specs.Status.{space_of};
ghost use Rattle.def_processor.specs.Raise.{is_due};
ghost use Rattle.def_processor.specs.Step.{interrupt_mask};

use mb_instr::Plain;
use mb_instr::status::T0;
use mb_model::Cpu;
use mb_port::Space;
use mb_writes::Ended;
use std::marker::Model;

/// The processor, with the registers that user mode sees apart from it, where instructions work on them. So a step
/// copies them once at the most, and one that is refused, traced or privileged puts them together.
#[derive(Drop)]
pub struct Processor {
    /// The processor, whose registers that user mode sees are of an earlier time.
    pub(crate) cpu: Cpu,
    /// Those registers.
    pub(crate) plain: Plain,
    /// A place for those at the beginning of an instruction.
    pub(crate) before: Plain,
    /// A place for how an instruction ended that was not done.
    pub(crate) ended: Ended,
}

impl Model for Processor {
    ghost use Rattle.std.specs.Prelude.{◌<◌};
    ghost use Rattle.def_processor.specs.SystemEnds.{with_registers};
    ghost use Rattle.mb_model.specs.declared.processor.Cpu.{Cpu};

    ghost Value = { Cpu };

    ghost view = { λ p. with_registers p.plain p.cpu };

    ghost invariant = { λ p. p.plain.ccr < 32 };
}

/// Registers as they are: A0 to A7 are eight.
#[inline(always)]
pub(crate) fn in_whole(plain: &Plain) -> &Plain
    ensures same { result.now ≡ plain.now }
    ensures eight { length plain.now.a ≡ 8 }
{
    let _addresses = plain.a;
    plain
}

impl Processor {
    /// The processor that this one is.
    pub fn new(cpu: &Cpu) -> Processor
        ensures { result ≡ cpu.now }
    {
        let plain = cpu.regs.plain();
        Processor {
            cpu: *cpu,
            plain,
            before: plain,
            ended: Ended::Done { flow: false },
        }
    }

    /// It becomes another.
    pub fn set(&mut self, cpu: &Cpu)
        ensures { self.new ≡ cpu.now }
    {
        self.cpu = *cpu;
        self.plain = cpu.regs.plain();
    }

    /// The processor, put together.
    pub fn cpu(&self) -> Cpu
        ensures { result ≡ self.now }
    {
        let mut cpu = self.cpu;
        cpu.regs.set_plain(&self.plain);
        cpu
    }

    /// The registers that user mode sees.
    #[inline(always)]
    pub fn plain(&self) -> &Plain
        ensures { result.now ≡ plain_of self.now.regs }
    {
        in_whole(&self.plain)
    }

    /// Whether STOP holds it.
    #[inline(always)]
    pub fn is_stopped(&self) -> bool
        ensures { result ≡ self.now.stopped }
    {
        self.cpu.stopped
    }

    /// Whether a trace bit is set, T1 or T0.
    #[inline(always)]
    pub fn is_traced(&self) -> bool
        ensures { result ≡ false → (flow : _) → is_due self.now.regs.sr flow ≡ false }
    {
        self.cpu.regs.sr >= T0
    }

    /// The interrupt mask.
    #[inline(always)]
    pub fn interrupt_mask(&self) -> u8
        ensures { result ≡ interrupt_mask self.now }
    {
        self.cpu.regs.interrupt_mask()
    }

    /// The program counter.
    #[inline(always)]
    pub(crate) fn pc(&self) -> u32
        ensures { result ≡ self.now.regs.pc }
    {
        self.plain.pc
    }

    /// The space of its accesses, by S.
    #[inline(always)]
    pub fn space(&self) -> Space
        ensures { result ≡ space_of self.now }
    {
        self.cpu.space()
    }
}
