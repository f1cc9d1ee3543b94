//! Steps and runs of the bare board.
//!
//! A run goes from one entry of the script to the next, and between them looks at no script. What STOP holds the
//! processor for it takes at once, up to where the timer may wake it.

ghost use Rattle.std.specs.Prelude.{◌≡◌, ◌+◌, ◌^◌, ◌<◌, ◌≤◌, [], length, true, false};
ghost use Rattle.mb_model.specs.Keeping.{rule_a};
ghost use Rattle.mb_model.specs.Status.{space_of};
ghost use Rattle.mb_devices.specs.Devices.{passed, IsNotDue};
ghost use Rattle.def_machine.specs.Machine.{run_of, stepping, takes_steps};
ghost use Rattle.def_runs.specs.Free.{IsFreeRun};
ghost use Rattle.def_runs.specs.Native.{user_step};
ghost use Rattle.mb_board.specs.Arrivals.{IsNext};
ghost use Rattle.mb_board.specs.Calm.{IsCalm};
ghost use Rattle.mb_board.specs.Idle.{IsHeld};

use crate::board::{Calm, Core};
use crate::bus::BoardBus;
use crate::receiving::place_behind;
use crate::states::state_of;
use def_processor::Finish;
use mb_devices::Devices;
use mb_model::RunState;
use mb_port::Space;
use mb_script::Script;
use mb_step::{Nobody, rank};

/// How many of so many steps, behind those that are taken, come before the step of the script's next entry, which is
/// the one at `next`.
pub fn before_entry(script: &Script, next: u32, taken: u32, limit: u32) -> u32
    requires { IsNext script.now taken next }
    ensures next { IsNext script.now (taken + result) next }
    ensures within { result ≤ limit }
{
    let _ = script.count();
    match script.entry(next) {
        Some(entry) => limit.min(entry.step - taken - 1),
        None => limit,
    }
}

/// How many of so many steps pass before the timer comes to 0.
pub fn before_tick(devices: &Devices, limit: u32) -> u32
    ensures due { IsNotDue result devices.now }
    ensures within { result ≤ limit }
{
    if devices.period() == 0 {
        limit
    } else {
        limit.min(devices.count() - 1)
    }
}

impl BoardBus {
    /// So many steps pass at once, or fewer, up to where the timer comes to 0. Gives how many.
    fn pass(&mut self, limit: u32) -> u32
        ensures due { IsNotDue result self.old.devices }
        ensures within { result ≤ limit }
        ensures after { self.new ≡ record self.old { devices = passed result self.old.devices } }
    {
        let steps = before_tick(&self.devices, limit);
        self.devices.pass(steps);
        steps
    }
}

impl Core {
    /// Takes one step, with what arrives at it. The script's entries from `next` on are of steps that were not taken
    /// yet, and it goes behind those of this one.
    pub(crate) fn step_on(&mut self, script: &Script, next: &mut u32) -> Finish
        requires room { self.old.steps + 1 < 2 ^ 32 }
        requires behind { IsNext script.now self.old.steps next.old }
        ensures means { (result, self.new) ≡ stepping rule_a script.now self.old }
        ensures next { IsNext script.now self.new.steps next.new }
        ensures counted { self.new.steps ≡ self.old.steps + 1 }
        ensures ram { length self.new.world.ram ≡ length self.old.world.ram }
    {
        let arrival = self.bus.receive(script, self.steps, *next);
        *next = arrival.next;
        self.steps += 1;
        self.bus.tick();
        let level = self.bus.asked(arrival.aborted);
        let finish = self.carry_out_at(level);
        self.state = state_of(finish, self.cpu.is_stopped(), self.bus.devices());
        finish
    }

    /// One step at which nothing arrives.
    #[inline(always)]
    fn step_alone(&mut self) -> Finish
        requires { self.old.steps + 1 < 2 ^ 32 }
        ensures means { (result, self.new) ≡ stepping rule_a [] self.old }
        ensures counted { self.new.steps ≡ self.old.steps + 1 }
        ensures ram { length self.new.world.ram ≡ length self.old.world.ram }
    {
        self.steps += 1;
        self.step_uncounted::<true>()
    }

    /// The same, by no short form.
    #[inline(always)]
    fn step_by_row(&mut self) -> Finish
        requires { self.old.steps + 1 < 2 ^ 32 }
        ensures means { (result, self.new) ≡ stepping rule_a [] self.old }
        ensures counted { self.new.steps ≡ self.old.steps + 1 }
        ensures ram { length self.new.world.ram ≡ length self.old.world.ram }
    {
        self.steps += 1;
        self.step_uncounted::<false>()
    }

    /// Takes calm steps that are carried out at once, at most so many, and does not count them. Gives how many they
    /// are.
    #[inline(never)]
    fn run_at_once<const TRANSLATES: bool>(&mut self, limit: u32) -> u32
        requires calm { IsCalm self.old }
        ensures within { result ≤ limit }
        ensures means { record self.new { steps = self.old.steps + result } ≡ run_of rule_a [] result self.old }
        ensures calm { IsCalm self.new }
        ensures uncounted { self.new.steps ≡ self.old.steps }
        ensures ram { length self.new.world.ram ≡ length self.old.world.ram }
    {
        let space = self.cpu.space();
        let mut left = limit;
        while left > 0 {
            if !self.step_at_once::<TRANSLATES, _, Calm>(space, &mut Nobody) {
                break;
            }
            left -= 1;
        }
        limit - left
    }

    /// The same. No step of a stretch changes how the machine translates, so that is asked once.
    #[inline(always)]
    fn run_stretch(&mut self, limit: u32) -> u32
        requires calm { IsCalm self.old }
        ensures within { result ≤ limit }
        ensures means { record self.new { steps = self.old.steps + result } ≡ run_of rule_a [] result self.old }
        ensures calm { IsCalm self.new }
        ensures uncounted { self.new.steps ≡ self.old.steps }
        ensures ram { length self.new.world.ram ≡ length self.old.world.ram }
    {
        if self.bus.translator.is_direct() {
            self.run_at_once::<false>(limit)
        } else {
            self.run_at_once::<true>(limit)
        }
    }

    /// Takes calm steps that are carried out at once, at most so many less one, and one step more. Gives how many steps
    /// they are.
    fn run_on_alone(&mut self, limit: u32) -> u32
        requires some { 0 < limit }
        requires room { self.old.steps + limit < 2 ^ 32 }
        requires takes { takes_steps self.old.state ≡ true }
        ensures some { 0 < result }
        ensures within { result ≤ limit }
        ensures means { self.new ≡ run_of rule_a [] result self.old }
        ensures counted { self.new.steps ≡ self.old.steps + result }
        ensures ram { length self.new.world.ram ≡ length self.old.world.ram }
    {
        if !self.is_calm() {
            self.step_alone();
            return 1;
        }
        let calm = self.run_stretch(limit - 1);
        self.steps += calm;
        self.step_by_row();
        calm + 1
    }

    /// Whether STOP holds the processor, and no interrupt is asked for that it takes.
    #[inline(always)]
    fn is_held(&self) -> bool
        ensures { result ≡ true → IsHeld self.now }
    {
        match self.state {
            RunState::Stopped => {
                self.cpu.is_stopped()
                    && !self.bus.is_off()
                    && rank(self.bus.level()) <= self.cpu.interrupt_mask()
            }
            RunState::Running | RunState::Halted | RunState::Off => false,
        }
    }

    /// STOP holds the processor in so many steps, or in fewer, up to where the timer comes to 0: these are taken at
    /// once. Gives how many they are.
    #[inline(never)]
    fn idle(&mut self, limit: u32) -> u32
        requires held { IsHeld self.old }
        requires room { self.old.steps + limit < 2 ^ 32 }
        ensures within { result ≤ limit }
        ensures means { self.new ≡ run_of rule_a [] result self.old }
        ensures state { self.new.state ≡ self.old.state }
        ensures counted { self.new.steps ≡ self.old.steps + result }
        ensures ram { length self.new.world.ram ≡ length self.old.world.ram }
    {
        let idle = self.bus.pass(limit);
        self.steps += idle;
        idle
    }

    /// Takes the idle steps that can be taken at once, at most so many. Gives how many they are.
    #[inline(always)]
    fn idle_on(&mut self, limit: u32) -> u32
        requires { self.old.steps + limit < 2 ^ 32 }
        ensures within { result ≤ limit }
        ensures means { self.new ≡ run_of rule_a [] result self.old }
        ensures state { self.new.state ≡ self.old.state }
        ensures counted { self.new.steps ≡ self.old.steps + result }
        ensures ram { length self.new.world.ram ≡ length self.old.world.ram }
    {
        if self.is_held() { self.idle(limit) } else { 0 }
    }

    /// Takes so many steps at which nothing arrives, or fewer where the machine halts or is switched off.
    fn run_alone(&mut self, steps: u32)
        requires { self.old.steps + steps < 2 ^ 32 }
        ensures means { self.new ≡ run_of rule_a [] steps self.old }
        ensures within { self.new.steps ≤ self.old.steps + steps }
        ensures counted { takes_steps self.new.state ≡ true → self.new.steps ≡ self.old.steps + steps }
        ensures ram { length self.new.world.ram ≡ length self.old.world.ram }
    {
        if !self.takes_steps() {
            return;
        }
        let mut left = steps;
        while left > 0 {
            left -= self.run_on_alone(left);
            match self.state {
                RunState::Running => {}
                RunState::Stopped => left -= self.idle_on(left),
                RunState::Halted | RunState::Off => return,
            }
        }
    }

    /// Takes the next step, with what arrives at it, and those behind it at which nothing does, at most `limit` in all,
    /// or fewer where the machine halts or is switched off. Gives how many they are where it does not, and goes to the
    /// script's next entry.
    fn run_to_entry(&mut self, script: &Script, next: &mut u32, limit: u32) -> u32
        requires limit { 0 < limit }
        requires room { self.old.steps + limit < 2 ^ 32 }
        requires takes { takes_steps self.old.state ≡ true }
        requires behind { IsNext script.now self.old.steps next.old }
        ensures some { 0 < result }
        ensures within { result ≤ limit }
        ensures means { self.new ≡ run_of rule_a script.now result self.old }
        ensures steps { self.new.steps ≤ self.old.steps + result }
        ensures next { takes_steps self.new.state ≡ true → IsNext script.now self.new.steps next.new }
        ensures ram { length self.new.world.ram ≡ length self.old.world.ram }
    {
        self.step_on(script, next);
        let more = before_entry(script, *next, self.steps, limit - 1);
        self.run_alone(more);
        more + 1
    }

    /// Takes so many steps, or fewer where the machine halts or is switched off.
    pub(crate) fn run_bare(&mut self, script: &Script, steps: u32)
        requires { self.old.steps + steps < 2 ^ 32 }
        ensures means { self.new ≡ run_of rule_a script.now steps self.old }
        ensures free { IsFreeRun script.now steps self.old self.new }
        ensures ram { length self.new.world.ram ≡ length self.old.world.ram }
    {
        let mut next = place_behind(script, self.steps);
        let mut left = steps;
        while left > 0 {
            if !self.takes_steps() {
                return;
            }
            left -= self.run_to_entry(script, &mut next, left);
        }
    }
}
