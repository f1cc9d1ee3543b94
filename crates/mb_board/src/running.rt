//! Runs in user mode, for a monitor.

ghost use Rattle.std.specs.Prelude.{◌≡◌, ℕ, ◌+◌, ◌-◌, ◌^◌, ◌<◌, ◌≤◌, length, true, false};
ghost use Rattle.mb_instr.specs.Registers.{is_supervisor, plain_of};
ghost use Rattle.mb_model.specs.Status.{space_of};
ghost use Rattle.def_runs.specs.Native.{EndsBy, NativeState, about_to_run, ended_by, goes_on, user_run, user_step};
ghost use Rattle.def_runs.specs.Native.{with_retired, with_step};
ghost use Rattle.mb_board.specs.Calm.{IsCalm};
ghost use Rattle.mb_board.specs.Fits.{FitsAlong};
ghost use Rattle.mb_board.specs.Spelling.{gathered, Begins, Leads, Spell, without_flow};
ghost use Rattle.mb_board.specs.State.{ran_to, run_from};

use crate::board::{Board, Core, ForMonitor};
use crate::following::Digits;
use crate::native::{Native, gathered, with_end};
use crate::spelling::spelling;
use def_processor::Finish;
use def_runs::RunEnd;
use mb_instr::Plain;
use mb_model::RunState;
use mb_port::Space;
use mb_step::Follower;

impl Core {
    /// How a run in user mode ends with a step that ended so, or that it goes on.
    #[inline(always)]
    fn ended_by(&self, finish: Finish) -> RunEnd
        ensures { result ≡ ended_by finish self.now }
    {
        if !self.takes_steps() {
            return RunEnd::Gone;
        }
        match finish {
            Finish::Entered(vector) => RunEnd::Exit(vector),
            Finish::Went | Finish::Idle | Finish::Halted => RunEnd::Counted,
        }
    }

    /// Whether a run goes on behind a step that ended so.
    #[inline(always)]
    fn goes_on(&self, finish: Finish) -> bool
        ensures { result ≡ goes_on (ended_by finish self.now) }
    {
        match self.ended_by(finish) {
            RunEnd::Counted => true,
            RunEnd::Exit(_) | RunEnd::Gone => false,
        }
    }

    /// Counts the step that led here from these registers, which spelled `beginning`, and ended so.
    fn count(&self, finish: Finish, before: &Plain, beginning: u64, native: &mut Native)
        requires retired { native.old.retired + 1 < 2 ^ 64 }
        requires exceptions { native.old.exceptions + 1 < 2 ^ 64 }
        requires spelled { Spell before.now beginning }
        ensures { native.new ≡ with_step finish before.now self.now native.old }
    {
        match finish {
            Finish::Went | Finish::Idle => native.retire(beginning, spelling(self.cpu.plain())),
            Finish::Entered(_) if self.takes_steps() => native.except(),
            Finish::Entered(_) | Finish::Halted => {}
        }
    }

    /// A step has left these registers, at which the next one begins: they are an end more, and the digits are theirs.
    #[inline(always)]
    fn enter(&self, digits: &mut Digits, ends: &mut u64)
        ensures ends { (p : Plain) → (native : NativeState) → (begun steps : ℕ)
            → Begins p native (gathered begun steps ends.old)
            → Begins (plain_of self.now.cpu.regs) (with_retired p (plain_of self.now.cpu.regs) native)
            (gathered begun (steps + 1) ends.new) }
        ensures digits { digits.new.sum ≡ without_flow (plain_of self.now.cpu.regs) }
    {
        digits.all(self.cpu.plain());
        *ends = with_end(*ends, digits.spelling(self.cpu.plain()));
    }

    /// One more step of a run of a calm machine in user mode, where its instruction is carried out at once: then the
    /// answer is true, and its registers are an end more. Else nothing has changed.
    #[inline(always)]
    fn run_on_at_once(&mut self, digits: &mut Digits, ends: &mut u64) -> bool
        requires calm { IsCalm self.old }
        requires space { Space.User ≡ space_of self.old.cpu }
        requires digits { digits.old.sum ≡ without_flow (plain_of self.old.cpu.regs) }
        ensures means { result ≡ true → (Finish.Went, self.new) ≡ user_step self.old }
        ensures ends { result ≡ true → (native : NativeState) → (begun steps : ℕ)
            → Begins (plain_of self.old.cpu.regs) native (gathered begun steps ends.old)
            → Begins (plain_of self.new.cpu.regs)
            (with_retired (plain_of self.old.cpu.regs) (plain_of self.new.cpu.regs) native)
            (gathered begun (steps + 1) ends.new) }
        ensures undone { result ≡ false → self.new ≡ self.old }
        ensures same { result ≡ false → ends.new ≡ ends.old }
        ensures calm { IsCalm self.new }
        ensures space { space_of self.new.cpu ≡ space_of self.old.cpu }
        ensures digits { digits.new.sum ≡ without_flow (plain_of self.new.cpu.regs) }
        ensures ram { length self.new.world.ram ≡ length self.old.world.ram }
    {
        if !self.step_at_once::<true, _, ForMonitor>(Space::User, digits) {
            return false;
        }
        *ends = with_end(*ends, digits.spelling(self.cpu.plain()));
        true
    }

    /// Takes calm steps of a run in user mode that are carried out at once, at most so many. Gives how many are left.
    #[inline(never)]
    fn run_at_once_for(&mut self, limit: u32, digits: &mut Digits, ends: &mut u64) -> u32
        requires calm { IsCalm self.old }
        requires space { Space.User ≡ space_of self.old.cpu }
        requires digits { digits.old.sum ≡ without_flow (plain_of self.old.cpu.regs) }
        ensures within { result ≤ limit }
        ensures means { (native : NativeState) → (begun steps : ℕ)
            → Begins (plain_of self.old.cpu.regs) native (gathered begun steps ends.old)
            → Leads limit (limit - result) self.old self.new native
            (gathered begun (steps + (limit - result)) ends.new) }
        ensures digits { digits.new.sum ≡ without_flow (plain_of self.new.cpu.regs) }
        ensures ram { length self.new.world.ram ≡ length self.old.world.ram }
    {
        // copies, which no call takes, stand in registers
        let (mut digits_here, mut ends_here) = (*digits, *ends);
        let mut left = limit;
        while left > 0 {
            if !self.run_on_at_once(&mut digits_here, &mut ends_here) {
                break;
            }
            left -= 1;
        }
        *digits = digits_here;
        *ends = ends_here;
        left
    }

    /// Takes steps of a run in user mode that are carried out at once, at most so many: none where the machine is not
    /// calm. Gives how many are left.
    #[inline(always)]
    fn run_calmly(&mut self, limit: u32, digits: &mut Digits, ends: &mut u64) -> u32
        requires digits { digits.old.sum ≡ without_flow (plain_of self.old.cpu.regs) }
        ensures within { result ≤ limit }
        ensures means { (native : NativeState) → (begun steps : ℕ)
            → Begins (plain_of self.old.cpu.regs) native (gathered begun steps ends.old)
            → Leads limit (limit - result) self.old self.new native
            (gathered begun (steps + (limit - result)) ends.new) }
        ensures digits { digits.new.sum ≡ without_flow (plain_of self.new.cpu.regs) }
        ensures ram { length self.new.world.ram ≡ length self.old.world.ram }
    {
        if !self.is_calm() {
            return limit;
        }
        let Space::User = self.cpu.space() else {
            return limit;
        };
        self.run_at_once_for(limit, digits, ends)
    }

    /// One more step of a run in user mode, by no short form. The registers at its beginning are remembered.
    #[inline(always)]
    fn run_on(&mut self, before: &mut Plain) -> Finish
        ensures means { (result, self.new) ≡ user_step self.old }
        ensures before { before.new ≡ plain_of self.old.cpu.regs }
        ensures ram { length self.new.world.ram ≡ length self.old.world.ram }
    {
        *before = *self.cpu.plain();
        self.step_apart()
    }

    /// Takes steps in user mode, at which nothing arrives and which are counted in `native` alone, up to the first that
    /// enters an exception, halts or switches off, or so many.
    ///
    /// What the steps change is apart from what is counted, and need not stand in memory.
    fn run(&mut self, limit: u32, native: &mut Native, before: &mut Plain) -> RunEnd
        requires retired { native.old.retired < 2 ^ 63 }
        requires exceptions { native.old.exceptions < 2 ^ 63 }
        ensures means { record { end = result; machine = self.new; native = native.new; before = before.new }
            ≡ user_run limit (about_to_run self.old native.old before.old) }
        ensures fit { FitsAlong limit (about_to_run self.old native.old before.old) }
        ensures ram { length self.new.world.ram ≡ length self.old.world.ram }
    {
        if limit == 0 {
            return RunEnd::Counted;
        }
        let spelled = spelling(self.cpu.plain());
        let mut digits = Digits::of(spelled, self.cpu.plain());
        let begun = native.begun(spelled);
        let mut ends = 0;
        let mut left = limit - 1;
        loop {
            left = self.run_calmly(left, &mut digits, &mut ends);
            let finish = self.run_on(before);
            if left == 0 || !self.goes_on(finish) {
                let beginning = digits.spelling(before);
                let steps = limit - 1 - left;
                native.retire_all(steps, gathered(begun, steps, ends), beginning);
                self.count(finish, before, beginning, native);
                return self.ended_by(finish);
            }
            left -= 1;
            self.enter(&mut digits, &mut ends);
        }
    }
}

impl Board {
    /// Takes `limit` steps in user mode, at which nothing arrives, or fewer: it ends with its first step that enters an
    /// exception, halts or switches off. They are counted in `native`, and the board's own count of steps stays. Each
    /// step that entered no exception and did not halt is retired; each exit is an exception. It takes no memory.
    pub fn run(&mut self, limit: u32, native: &mut Native) -> RunEnd
        requires running { self.old.state ≡ RunState.Running }
        requires user { is_supervisor self.old.cpu.regs.sr ≡ false }
        requires retired { native.old.retired < 2 ^ 63 }
        requires exceptions { native.old.exceptions < 2 ^ 63 }
        ensures means { ran_to result self.new native.new ≡ user_run limit (run_from self.old native.old) }
        ensures cause { EndsBy limit (run_from self.old native.old) (ran_to result self.new native.new) result }
        ensures fit { FitsAlong limit (run_from self.old native.old) }
        ensures steps { self.new.steps ≡ self.old.steps }
        ensures ram { length self.new.world.ram ≡ length self.old.world.ram }
    {
        let mut before = self.before;
        let end = self.core.run(limit, native, &mut before);
        self.before = before;
        self.shown = self.core.cpu.cpu();
        end
    }
}
