//! The board.

ghost use Rattle.std.specs.Prelude.{◌≡◌, ◌+◌, ◌^◌, ◌<◌, ◌≤◌, [], length, replicate, slice_range, true, false};
ghost use Rattle.std.specs.Prelude.{All, IfOk};
ghost use Rattle.mb_instr.specs.Registers.{plain_of};
ghost use Rattle.mb_short.specs.Changed.{Follows};
ghost use Rattle.mb_model.specs.Keeping.{rule_a};
ghost use Rattle.mb_model.specs.Seen.{seen_of};
ghost use Rattle.mb_model.specs.Status.{space_of};
ghost use Rattle.mb_srec.specs.Image.{all_contents, LiesBelow};
ghost use Rattle.mb_walk.specs.Memory.{contents_from, overwritten, with_contents};
ghost use Rattle.mb_devices.specs.Devices.{idle, restarted};
ghost use Rattle.mb_port.specs.Routine.{run};
ghost use Rattle.def_processor.specs.Raise.{step_end};
ghost use Rattle.def_processor.specs.Step.{step_of};
ghost use Rattle.def_machine.specs.Bus.{bus_of};
ghost use Rattle.def_machine.specs.Machine.{processed, reset_with, run_of, seen_machine, stepped, stepping, with_cpu};
ghost use Rattle.def_machine.specs.Machine.{takes_steps, with_ram};
ghost use Rattle.def_runs.specs.Free.{IsFreeRun};
ghost use Rattle.def_runs.specs.Native.{user_step};
ghost use Rattle.mb_board.specs.declared.bus.TheConstants.{MOST_BOARD_BYTES};
ghost use Rattle.mb_board.specs.Calm.{IsCalm};
ghost use Rattle.mb_board.specs.State.{board_at_reset, machine_in, with_machine};

use crate::bus::BoardBus;
use crate::calm_bus::CalmBus;
use crate::receiving::place_behind;
use crate::states::{state_of, takes_steps};
use def_processor::{Finish, StepEnd};
use mb_devices::Devices;
use mb_instr::Plain;
use mb_model::{Cpu, Outcome, RunState};
use mb_outside::Memory;
use mb_port::Space;
use mb_script::Script;
use mb_srec::{Chunk, put_chunks};
use mb_step::{Decoder, Follower, Processor, step_at_once, step_by_row, step_in_place};
use mb_walk::Ram;
use std::alloc::Global;
use std::marker::Model;

/// Where a step of the bare board is taken.
struct Bare;

/// Where its calm steps are.
pub(crate) struct Calm;

/// Where they are over the bus of the micro-TLB.
pub(crate) struct CalmByTlb;

/// Where calm steps for a monitor are.
pub(crate) struct ForMonitor;

/// Where steps are at which something arrives, or an interrupt is asked for.
struct Asked;

/// The registers where none are remembered.
const NO_REGISTERS: Plain = Plain {
    d: [0; 8],
    a: [0; 8],
    pc: 0,
    ccr: 0,
};

/// A machine: its processor beside the bus of its memory and devices.
#[derive(Drop)]
pub(crate) struct Core {
    pub(crate) cpu: Processor,
    pub(crate) bus: BoardBus,
    /// What steps decode with; no part of the machine.
    pub(crate) decoder: Decoder,
    pub(crate) steps: u32,
    pub(crate) state: RunState,
}

impl Model for Core {
    ghost use Rattle.def_machine.specs.Machine.{Machine};

    ghost Value = { Machine };

    ghost view = { λ c. record {
      cpu = c.cpu;
      world = c.bus;
      steps = c.steps;
      state = c.state;
    } };
}

/// A machine that carries out its steps.
#[derive(Drop)]
pub struct Board {
    pub(crate) core: Core,
    /// The core's processor, to be shown.
    pub(crate) shown: Cpu,
    /// The registers at the beginning of the last step in user mode for a monitor.
    pub(crate) before: Plain,
}

impl Model for Board {
    ghost use Rattle.std.specs.Prelude.{◌≡◌};
    ghost use Rattle.mb_board.specs.State.{BoardState};

    ghost Value = { BoardState };

    ghost view = { λ b. record {
      cpu = b.core.cpu;
      world = b.core.world;
      steps = b.core.steps;
      state = b.core.state;
      before = b.before;
    } };

    ghost invariant = { λ b. b.shown ≡ b.core.cpu };
}

impl Core {
    /// Resets all but RAM and the blocks of a disk.
    #[tactic(auto, unfolding(def_machine::specs::Machine::reset_with))]
    fn reset(&mut self)
        requires { 8 ≤ length self.old.world.ram }
        ensures { self.new ≡ reset_with rule_a (restarted self.old.world.devices) self.old.world.ram }
    {
        self.bus.reset();
        let cpu = Cpu::at_reset(self.bus.long(0), self.bus.long(4));
        self.cpu.set(&cpu);
        self.steps = 0;
        self.state = RunState::Running;
    }

    pub(crate) fn takes_steps(&self) -> bool
        ensures { result ≡ takes_steps self.now.state }
    {
        takes_steps(self.state)
    }

    /// The processor's part of a step that has begun, with an interrupt of this level asked for.
    #[inline(never)]
    pub(crate) fn carry_out_at(&mut self, level: u8) -> Finish
        requires { level < 8 }
        ensures means { run (bus_of rule_a) (step_of level self.old.cpu) self.old.world
            ≡ ((result, self.new.cpu), self.new.world) }
        ensures steps { self.new.steps ≡ self.old.steps }
        ensures state { self.new.state ≡ self.old.state }
        ensures ram { length self.new.world.ram ≡ length self.old.world.ram }
    {
        step_in_place::<_, Asked>(&mut self.decoder, &mut self.cpu, &mut self.bus, level)
    }

    /// The processor's part of a step that has begun, by a short form or by none. Where no interrupt is asked for, its
    /// mask is not looked at.
    #[inline(always)]
    fn carry_out<const SHORT: bool>(&mut self) -> Finish
        ensures means { processed rule_a [] self.old ≡ ((result, self.new.cpu), self.new.world) }
        ensures steps { self.new.steps ≡ self.old.steps }
        ensures state { self.new.state ≡ self.old.state }
        ensures ram { length self.new.world.ram ≡ length self.old.world.ram }
    {
        let level = self.bus.level();
        if level > 0 {
            return self.carry_out_at(level);
        }
        if SHORT {
            step_in_place::<_, Bare>(&mut self.decoder, &mut self.cpu, &mut self.bus, 0)
        } else {
            step_by_row(&mut self.decoder, &mut self.cpu, &mut self.bus)
        }
    }

    /// One step at which nothing arrives, and which is not counted, by a short form or by none.
    #[inline(always)]
    pub(crate) fn step_uncounted<const SHORT: bool>(&mut self) -> Finish
        ensures means { (result, self.new) ≡ user_step self.old }
        ensures steps { self.new.steps ≡ self.old.steps }
        ensures ram { length self.new.world.ram ≡ length self.old.world.ram }
    {
        self.bus.tick();
        let finish = self.carry_out::<SHORT>();
        self.state = state_of(finish, self.cpu.is_stopped(), self.bus.devices());
        finish
    }

    /// Whether nothing happens at the next steps but their instructions, as long as these are carried out at once.
    #[inline(always)]
    pub(crate) fn is_calm(&self) -> bool
        ensures { result ≡ true → IsCalm self.now }
    {
        match self.state {
            RunState::Running => {
                self.bus.is_calm() && !self.cpu.is_stopped() && !self.cpu.is_traced()
            }
            RunState::Stopped | RunState::Halted | RunState::Off => false,
        }
    }

    /// A step of a calm machine, which is not counted, where its instruction is carried out at once: then the answer is
    /// true, and the follower was told what it changed. Else nothing has changed. `space` is that of the processor's
    /// accesses.
    #[inline(always)]
    pub(crate) fn step_at_once<const TRANSLATES: bool, F: Follower, Loop>(
        &mut self,
        space: Space,
        follower: &mut F,
    ) -> bool
        requires calm { IsCalm self.old }
        requires space { space ≡ space_of self.old.cpu }
        ensures means { result ≡ true → (Finish.Went, self.new) ≡ user_step self.old }
        ensures follows { Follows F.follows follower.old (plain_of self.old.cpu.regs)
            → Follows F.follows follower.new (plain_of self.new.cpu.regs) }
        ensures undone { result ≡ false → self.new ≡ self.old }
        ensures calm { IsCalm self.new }
        ensures space { space_of self.new.cpu ≡ space_of self.old.cpu }
        ensures ram { length self.new.world.ram ≡ length self.old.world.ram }
    {
        let mut bus = CalmBus::<TRANSLATES> { bus: &mut self.bus };
        step_at_once::<_, _, Loop>(&mut self.decoder, space, &mut self.cpu, &mut bus, follower)
    }

    /// One step at which nothing arrives, and which is not counted, by no short form.
    #[inline(never)]
    pub(crate) fn step_apart(&mut self) -> Finish
        ensures means { (result, self.new) ≡ user_step self.old }
        ensures ram { length self.new.world.ram ≡ length self.old.world.ram }
    {
        self.step_uncounted::<false>()
    }

    /// The processor becomes another.
    fn set_cpu(&mut self, cpu: &Cpu)
        ensures { self.new ≡ with_cpu self.old cpu.now }
    {
        self.cpu.set(cpu);
        if self.takes_steps() {
            self.state = if cpu.stopped {
                RunState::Stopped
            } else {
                RunState::Running
            };
        }
    }
}

impl Board {
    /// A board with so many bytes of RAM, all 0, and no disk, as it is after reset. It takes all the memory that
    /// it will need.
    #[tactic(auto, unfolding(def_machine::specs::Machine::reset_with), using(mb_devices::proofs::Sizes::sizes))]
    pub fn new(alloc: Global, size: u32) -> Result<Board, Memory>
        requires { (8 ≤ size) × (size ≤ MOST_BOARD_BYTES) }
        ensures made { IfOk result (λ board.
            board ≡ board_at_reset (reset_with rule_a (idle size) (replicate size 0))) }
        ensures ram { IfOk result (λ board. length board.world.ram ≡ size) }
    {
        let bus = BoardBus::new(alloc, size)?;
        let Ok(decoder) = Decoder::new(alloc) else {
            return Err(Memory);
        };
        let shown = Cpu::at_reset(0, 0);
        let mut board = Board {
            core: Core {
                cpu: Processor::new(&shown),
                bus,
                decoder,
                steps: 0,
                state: RunState::Running,
            },
            shown,
            before: NO_REGISTERS,
        };
        board.reset();
        Ok(board)
    }

    /// Writes RAM from a physical address on.
    #[tactic(auto, using(mb_walk::proofs::MemoryLemmas::lengths))]
    pub fn write_phys(&mut self, at: u32, bytes: &[u8])
        requires { at + length bytes.now ≤ length self.old.world.ram }
        ensures after { self.new ≡ with_machine self.old
            (with_ram (machine_in self.old) (overwritten self.old.world.ram at bytes.now)) }
        ensures ram { length self.new.world.ram ≡ length self.old.world.ram }
    {
        self.core.bus.overwrite(at, bytes);
    }

    /// Writes chunks that lie in RAM, later ones over earlier ones, their addresses counted from `base` on.
    pub fn load(&mut self, base: u32, chunks: &[Chunk])
        requires lie { All (LiesBelow (length self.old.world.ram)) (contents_from base (all_contents chunks.now)) }
        ensures after { self.new ≡ with_machine self.old (with_ram (machine_in self.old)
            (with_contents self.old.world.ram (contents_from base (all_contents chunks.now)))) }
        ensures size { length self.new.world.ram ≡ length self.old.world.ram }
    {
        put_chunks(&mut self.core.bus.ram.bytes, base, chunks);
    }

    /// So many bytes of RAM from a physical address on.
    pub fn memory(&self, at: u32, len: u32) -> &[u8]
        requires { at + len ≤ length self.now.world.ram }
        ensures { result.now ≡ slice_range self.now.world.ram at (at + len) }
    {
        let at = at as usize;
        &self.core.bus.ram()[at..at + len as usize]
    }

    /// Resets all but RAM and the blocks of an attached disk: the stack pointer and the program counter come from the
    /// longs at 0 and 4, the devices are idle with an empty console, nothing is kept, and no step is taken.
    #[tactic(auto, unfolding(def_machine::specs::Machine::reset_with))]
    pub fn reset(&mut self)
        requires { 8 ≤ length self.old.world.ram }
        ensures after { self.new ≡ board_at_reset
            (reset_with rule_a (restarted self.old.world.devices) self.old.world.ram) }
        ensures ram { self.new.world.ram ≡ self.old.world.ram }
        ensures unrun { self.new.steps ≡ 0 }
    {
        self.core.reset();
        self.shown = self.core.cpu.cpu();
        self.before = NO_REGISTERS;
    }

    /// Takes one step, with what arrives at it by the script: the first step after a reset has number 1.
    pub fn step(&mut self, script: &Script) -> StepEnd
        requires room { self.old.steps + 1 < 2 ^ 32 }
        requires takes_steps { takes_steps self.old.state ≡ true }
        ensures ended { let (finish, _) = stepping rule_a script.now (machine_in self.old) in result ≡ step_end finish }
        ensures after { machine_in self.new ≡ stepped rule_a script.now (machine_in self.old) }
        ensures before { self.new.before ≡ self.old.before }
        ensures ram { length self.new.world.ram ≡ length self.old.world.ram }
    {
        let mut next = place_behind(script, self.core.steps);
        let finish = self.core.step_on(script, &mut next);
        self.shown = self.core.cpu.cpu();
        finish.step_end()
    }

    /// Takes so many steps, or fewer where the machine halts or is switched off. It takes no memory. A board whose
    /// caches may hold stale translations, until a flush that covers them, may do the same.
    pub fn run_bare(&mut self, script: &Script, steps: u32)
        requires { self.old.steps + steps < 2 ^ 32 }
        ensures means { machine_in self.new ≡ run_of rule_a script.now steps (machine_in self.old) }
        ensures before { self.new.before ≡ self.old.before }
        ensures free { IsFreeRun script.now steps (machine_in self.old) (machine_in self.new) }
        ensures ram { length self.new.world.ram ≡ length self.old.world.ram }
    {
        self.core.run_bare(script, steps);
        self.shown = self.core.cpu.cpu();
    }

    /// The processor.
    pub fn cpu(&self) -> &Cpu
        ensures { result.now ≡ self.now.cpu }
    {
        &self.shown
    }

    /// The processor becomes another. A machine that takes steps is stopped then exactly where STOP holds that one;
    /// one that is halted or switched off stays so.
    pub fn set_cpu(&mut self, cpu: &Cpu)
        ensures { self.new ≡ with_machine self.old (with_cpu (machine_in self.old) cpu.now) }
    {
        self.core.set_cpu(cpu);
        self.shown = *cpu;
    }

    /// The registers at the beginning of the last step in user mode that was taken for a monitor since the last reset,
    /// or all 0 where none was.
    pub fn before(&self) -> &Plain
        ensures { result.now ≡ self.now.before }
    {
        &self.before
    }

    /// What the board shows.
    pub fn outcome(&self) -> Outcome<'_>
        ensures { seen_of result ≡ seen_machine (machine_in self.now) }
    {
        let devices = self.core.bus.devices();
        Outcome {
            cpu: &self.shown,
            mmu: self.core.bus.mmu(),
            console: devices.console(),
            lost: devices.lost(),
            queue: devices.queue(),
            ctrl: devices.ctrl(),
            status: devices.status(),
            period: devices.period(),
            count: devices.count(),
            pending: devices.pending(),
            steps: self.core.steps,
            state: self.core.state,
            ram: self.core.bus.ram(),
        }
    }

    /// The machine's devices.
    pub fn devices(&self) -> &Devices
        ensures { result.now ≡ self.now.world.devices }
    {
        self.core.bus.devices()
    }
}
