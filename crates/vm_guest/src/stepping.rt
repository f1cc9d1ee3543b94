//! One step of a guest, carried out by the monitor.

ghost use Rattle.std.specs.Prelude.{◌≡◌, ◌+◌, ◌^◌, ◌<◌, ◌≤◌, true};
ghost use Rattle.mb_port.specs.Routine.{run};
ghost use Rattle.def_processor.specs.Raise.{by_its_end};
ghost use Rattle.mb_board.specs.Beside.{but_ram};
ghost use Rattle.def_guests.specs.Bus.{guest_bus};
ghost use Rattle.def_guests.specs.Turns.{tallied, steps_in, bus_side};
ghost use Rattle.def_guests.specs.Seats.{end_of, guested_on, shadow_on, IsSame, IsSeated};
ghost use Rattle.vm_guest.specs.Memory.{OnlyBetween};
ghost use Rattle.vm_guest.specs.Rests.{rest_in, IsLawfulRest};
ghost use Rattle.vm_guest.specs.Stops.{StaysReady};
ghost use Rattle.law_turns.specs.Taking.{settled};
ghost use Rattle.vm_guest.specs.Turns.{begun_seat, ended_at, level_on, processed};

use crate::guest::Guest;
use crate::rest::Rest;
use def_guests::Class;
use def_processor::StepEnd;
use mb_board::{Board, receive, state_after};
use mb_model::{NON_MASKABLE, RunState};
use mb_walk::Ram;
use vm_port::{GuestMemory, GuestPort};

/// What came of the processor's part of a step.
#[derive(Clone, Copy)]
struct Processed {
    end: StepEnd,
    /// Whether the guest's shadow is as it was.
    stays: bool,
}

impl Guest {
    /// A step begins: what is due at it arrives, and the timer ticks. Gives the interrupt level that it is asked for.
    pub(crate) fn begin(&mut self) -> u8
        requires { self.old.steps + 1 < 2 ^ 32 }
        ensures begun { self.new ≡ begun_seat self.old }
        ensures level { result ≡ level_on self.new }
        ensures lawful { result < 8 }
        ensures counted { steps_in self.new.tally < self.new.steps }
        ensures refilled { self.new.tally.refilled ≤ self.new.tally.retired }
    {
        let arrival = receive(&mut self.devices, &self.script, self.steps, self.next);
        self.next = arrival.next;
        self.steps += 1;
        self.state = RunState::Running;
        self.devices.tick();
        if arrival.aborted {
            NON_MASKABLE
        } else {
            self.devices.level()
        }
    }

    /// A step that entered nothing has ended: the guest is off, stopped or running.
    pub(crate) fn settle(&mut self)
        ensures { self.new ≡ settled self.old }
    {
        self.state = state_after(StepEnd::Went, &self.cpu, &self.devices);
    }

    /// What is left of the processor's part of a step, over the guest's bus.
    fn process<R: Ram>(&mut self, ram: &mut R, rest: &Rest, level: u8) -> Processed
        requires level { level < 8 }
        requires begun { 0 < self.old.steps }
        requires lawful { IsLawfulRest rest.now }
        requires seated { IsSeated self.old (R.bytes ram.old) }
        ensures means { by_its_end (run guest_bus (rest_in rest.now level self.old.cpu)
            (bus_side (guested_on self.old (R.bytes ram.old))))
            ≡ ((result.end, self.new.cpu), bus_side (guested_on self.new (R.bytes ram.new))) }
        ensures stays { result.stays ≡ true
            → shadow_on self.new (R.bytes ram.new) ≡ shadow_on self.old (R.bytes ram.old) }
        ensures guest { self.new ≡ processed self.old self.new }
        ensures seated { IsSeated self.new (R.bytes ram.new) }
        ensures within { OnlyBetween self.old.base (end_of self.old) (R.bytes ram.old) (R.bytes ram.new) }
        ensures rest { R.rest ram.new ≡ R.rest ram.old }
    {
        let _ = ram.size();
        let _ = self.tlb.entry(0);
        let memory = GuestMemory::new(ram, self.base, self.size, &mut self.shadow);
        let mut port = GuestPort::new(memory, &mut self.devices, &mut self.mmu, &mut self.tlb);
        let end = rest.carry_out(&mut self.decoder, &mut self.cpu, &mut port, level);
        Processed {
            end,
            stays: !port.has_changed(),
        }
    }

    /// Carries out what is left of a step that has begun, with an interrupt of this level asked for, and counts it by
    /// its class. Answers whether a board that ran the guest before it may go on with what it keeps.
    pub(crate) fn assist(&mut self, board: &mut Board, rest: &Rest, level: u8, class: Class) -> bool
        requires level { level < 8 }
        requires counted { steps_in self.old.tally < self.old.steps }
        requires lawful { IsLawfulRest rest.now }
        requires seated { IsSeated self.old board.old.world.ram }
        ensures means { guested_on self.new board.new.world.ram ≡ ended_at self.old.steps
            (run guest_bus (rest_in rest.now level self.old.cpu)
            (bus_side (guested_on self.old board.old.world.ram))) }
        ensures stays { result ≡ true → StaysReady self.old self.new board.old.world.ram board.new.world.ram }
        ensures tally { self.new.tally ≡ tallied class self.old.tally }
        ensures steps { self.new.steps ≡ self.old.steps }
        ensures same { IsSame self.old self.new }
        ensures seated { IsSeated self.new board.new.world.ram }
        ensures within { OnlyBetween self.old.base (end_of self.old) board.old.world.ram board.new.world.ram }
        ensures others { but_ram board.new ≡ but_ram board.old }
    {
        let space = self.cpu.space();
        let processed = self.process(board, rest, level);
        self.state = state_after(processed.end, &self.cpu, &self.devices);
        self.counts.add(class);
        processed.stays & (self.cpu.space() == space)
    }
}
