//! Steps of a guest: as many at once as its board runs, or as STOP holds it for.

ghost use Rattle.std.specs.Prelude.{◌≡◌, ◌+◌, ◌*◌, ◌<◌, ◌≤◌, ◌^◌, suc, false, true, length, None, IfSome};
ghost use Rattle.mb_instr.specs.Registers.{plain_of};
ghost use Rattle.mb_walk.specs.Memory.{AreBytes};
ghost use Rattle.mb_devices.specs.Devices.{passed, IsNotDue};
ghost use Rattle.def_machine.specs.Machine.{takes_steps};
ghost use Rattle.mb_board.specs.Arrivals.{IsNext};
ghost use Rattle.mb_board.specs.Beside.{but_ram};
ghost use Rattle.mb_board.specs.Fits.{FitsAlong};
ghost use Rattle.mb_board.specs.State.{ran_to};
ghost use Rattle.def_guests.specs.Exits.{class_of_vector as class_of, frame_access};
ghost use Rattle.def_guests.specs.Turns.{tallied, steps_in};
ghost use Rattle.def_guests.specs.Seats.{end_of, guested_on, IsSame, IsSeated, Takes};
ghost use Rattle.law_turns.specs.Idle.{idle_seat};
ghost use Rattle.law_turns.specs.Lawful.{LeavesLawful};
ghost use Rattle.law_turns.specs.Taking.{retired_seat};
ghost use Rattle.vm_guest.specs.Memory.{OnlyBetween};
ghost use Rattle.vm_guest.specs.Counting.{NoneDue};
ghost use Rattle.vm_guest.specs.Native.{finished_by_frame, run_on, start_on};
ghost use Rattle.vm_guest.specs.Native.{HasFrame, IsFrameOf};
ghost use Rattle.vm_guest.specs.Stops.{BeginsAgain, IsReady, IsStopped, StaysReady, Stopped};
ghost use Rattle.vm_guest.specs.Turns.{scene};

use crate::classes::{assisted, class_of_vector};
use crate::guest::Guest;
use crate::readying::{make_ready, set_registers};
use crate::rest::Rest;
use def_guests::{Class, MOST_REFILLS};
use def_processor::StepEnd;
use mb_board::{Board, Native, RunEnd, before_entry, before_tick, state_after};
use mb_devices::Devices;
use mb_frames::{Frame, LONGEST, from_bytes};
use mb_instr::{Plain, Regs};
use mb_script::Script;
use mb_walk::Ram;

/// The frame that the board stacked when it left a step.
fn frame_on(board: &Board) -> Frame
    requires frame { HasFrame board.now }
    ensures { IsFrameOf board.now result }
{
    let isp = board.cpu().regs.isp;
    let Some(frame) = from_bytes(board.memory(isp, LONGEST as u32)) else {
        unreachable!()
    };
    frame
}

/// How many steps of so many are behind the one that has begun: none where it is the last since the devices are off.
fn steps_behind(devices: &Devices, limit: u32) -> u32
    requires { 0 < limit }
    ensures on { 0 < result → devices.now.off ≡ false }
    ensures within { result < limit }
{
    if devices.is_off() { 0 } else { limit - 1 }
}

/// How many steps behind one that has begun may be taken together with it, at most `limit`: nothing arrives at them,
/// and the timer does not come to 0. `taken` counts the one that has begun, and the script's entries from `next`
/// on are of later steps.
fn more_steps(script: &Script, next: u32, taken: u32, devices: &Devices, limit: u32) -> u32
    requires { IsNext script.now taken next }
    ensures none { NoneDue script.now taken result }
    ensures due { IsNotDue result devices.now }
    ensures within { result ≤ limit }
{
    before_tick(devices, before_entry(script, next, taken, limit))
}

/// The registers that user mode sees.
fn plain(regs: &Regs) -> Plain
    ensures means { result ≡ plain_of regs.now }
    ensures seven { length regs.now.a ≡ 7 }
{
    let _seven = regs.a;
    regs.plain()
}

/// There are seven address registers beside the stacks.
fn seven(regs: &Regs)
    ensures { length regs.now.a ≡ 7 }
{
    let _seven = regs.a;
}

/// What came of some steps.
#[derive(Clone, Copy)]
pub(crate) struct Advance {
    /// How many they were.
    pub(crate) steps: u32,
    /// Whether the board stands ready for the guest.
    pub(crate) ready: bool,
}

impl Guest {
    /// The board stands ready for the guest, where it did not already.
    fn ready_board(&self, board: &mut Board, is_ready: bool)
        requires seated { IsSeated self.now board.old.world.ram }
        requires ready { is_ready ≡ true → IsReady self.now board.old }
        ensures ready { IsReady self.now board.new }
        ensures ram { board.new.world.ram ≡ board.old.world.ram }
    {
        if !is_ready {
            make_ready(board, self.shadow.root(self.cpu.space()));
        }
    }

    /// The board, which stands ready, carries out so many steps of the guest, of which the first has begun, or fewer.
    /// What it keeps of translations holds, so it keeps it.
    fn run_board(&self, board: &mut Board, steps: u32, native: &mut Native) -> RunEnd
        requires seated { IsSeated self.now board.old.world.ram }
        requires ready { IsReady self.now board.old }
        requires native { (native.old.retired < 2 ^ 63) × (native.old.exceptions < 2 ^ 63) }
        ensures means { ran_to result board.new native.new ≡ run_on self.now board.old native.old steps }
        ensures fit { FitsAlong steps (start_on self.now board.old native.old) }
        ensures seven { length self.now.cpu.regs.a ≡ 7 }
        ensures wide { length board.new.cpu.regs.a ≡ 7 }
        ensures goes { result ≡ RunEnd.Counted → takes_steps board.new.state ≡ true }
        ensures bytes { AreBytes board.old.world.ram × (length board.old.world.ram ≤ 2 ^ 32) }
    {
        let _ = board.size();
        set_registers(board, &plain(&self.cpu.regs));
        let end = board.run(steps, native);
        seven(&board.cpu().regs);
        end
    }

    /// Goes on as the board has carried it out: with these registers, behind so many more steps, and so many more that
    /// are retired.
    fn go_on(&mut self, plain: &Plain, more: u32, retired: u32)
        requires room { self.old.steps + more < 2 ^ 32 }
        requires counted { steps_in self.old.tally + retired ≤ self.old.steps + more }
        requires none { NoneDue self.old.script self.old.steps more }
        requires due { IsNotDue more self.old.devices }
        ensures { self.new ≡ retired_seat self.old more retired plain.now (passed more self.old.devices) }
    {
        self.cpu.regs.set_plain(plain);
        self.devices.pass(more);
        self.steps += more;
        self.counts.retire(retired);
    }

    /// What is left of a step that the board left by this vector is carried out over the guest's bus. Answers whether
    /// the board may go on with what it keeps.
    fn leave(&mut self, board: &mut Board, vector: u8, frame: &Frame) -> bool
        requires counted { steps_in self.old.tally < self.old.steps }
        requires lawful { LeavesLawful (frame_access frame.now) }
        requires seated { IsSeated self.old board.old.world.ram }
        ensures means { guested_on self.new board.new.world.ram
            ≡ finished_by_frame vector frame.now board.old self.old }
        ensures stays { result ≡ true → StaysReady self.old self.new board.old.world.ram board.new.world.ram }
        ensures tally { self.new.tally ≡ tallied (class_of vector) self.old.tally }
        ensures steps { self.new.steps ≡ self.old.steps }
        ensures same { IsSame self.old self.new }
        ensures seated { IsSeated self.new board.new.world.ram }
        ensures within { OnlyBetween self.old.base (end_of self.old) board.old.world.ram board.new.world.ram }
        ensures others { but_ram board.new ≡ but_ram board.old }
    {
        let rest = Rest::left(vector, frame, &board.cpu().regs);
        let level = self.devices.level();
        self.assist(board, &rest, level, class_of_vector(vector))
    }

    /// The step that was carried out last had begun again.
    fn count_refilled(&mut self)
        requires { self.old.tally.refilled < self.old.tally.retired }
        ensures { self.new
            ≡ record self.old { tally = record self.old.tally { refilled = self.old.tally.refilled + 1 } } }
    {
        self.counts.refill();
    }

    /// The board carries out a step that begins again, or leaves it once more: by the vector that is given then.
    fn run_again(&mut self, board: &mut Board, native: &mut Native) -> Option<u8>
        requires again { BeginsAgain self.old board.old native.old }
        requires counted { steps_in self.old.tally < self.old.steps }
        requires refilled { self.old.tally.refilled ≤ self.old.tally.retired }
        requires room { self.old.steps < 2 ^ 32 }
        requires native { (native.old.retired < 2 ^ 63) × (native.old.exceptions < 2 ^ 63) }
        ensures takes { result ≡ None → (w : BeginsAgain self.old board.old native.old)
            → Takes (w.taken + 1) (scene w.guest w.ram w.native) (scene self.new board.new.world.ram native.new) }
        ensures left { IfSome result (λ vector. (w : BeginsAgain self.old board.old native.old)
            → IsStopped w.guest w.ram w.native w.taken (suc w.refills) self.new board.new native.new vector) }
        ensures ready { result ≡ None → IsReady self.new board.new }
        ensures still { IfSome result (λ vector. self.new ≡ self.old) }
        ensures steps { self.new.steps ≡ self.old.steps }
        ensures native { (native.new.retired ≤ native.old.retired + 1)
            × (native.new.exceptions ≤ native.old.exceptions + 1) }
        ensures retired { IfSome result (λ vector. native.new.retired ≡ native.old.retired) }
    {
        match self.run_board(board, 1, native) {
            RunEnd::Counted => {
                self.go_on(&plain(&board.cpu().regs), 0, 1);
                self.count_refilled();
                self.settle();
                None
            }
            RunEnd::Exit(vector) => Some(vector),
            RunEnd::Gone => unreachable!(),
        }
    }

    /// Ends a step that the board left by this vector. As long as it was denied a read that is refilled, it begins
    /// again, at most so often; then what is left of it is carried out. Answers whether the board stands ready then.
    fn end_step(&mut self, board: &mut Board, first: u8, native: &mut Native) -> bool
        requires stopped { Stopped self.old board.old native.old first }
        requires counted { steps_in self.old.tally < self.old.steps }
        requires refilled { self.old.tally.refilled ≤ self.old.tally.retired }
        requires room { self.old.steps < 2 ^ 32 }
        requires native { (native.old.retired < 2 ^ 63) × (native.old.exceptions + 31 ≤ 2 ^ 63) }
        ensures takes { (w : Stopped self.old board.old native.old first)
            → Takes (w.taken + 1) (scene w.guest w.ram w.native) (scene self.new board.new.world.ram native.new) }
        ensures ready { result ≡ true → IsReady self.new board.new }
        ensures steps { self.new.steps ≡ self.old.steps }
        ensures native { (native.new.retired ≤ native.old.retired + 1)
            × (native.new.exceptions ≤ native.old.exceptions + 31) }
    {
        let mut vector = first;
        let mut frame = frame_on(board);
        let mut refills = 0;
        while refills < MOST_REFILLS && self.refill(board, &frame) {
            let Some(next) = self.run_again(board, native) else {
                return true;
            };
            vector = next;
            frame = frame_on(board);
            refills += 1;
        }
        self.leave(board, vector, &frame)
    }

    /// STOP holds the processor in the step that has begun, and in so many behind it: the timer counts those, and
    /// nothing else happens.
    fn idle_on(&mut self, more: u32)
        requires room { self.old.steps + more < 2 ^ 32 }
        requires counted { steps_in self.old.tally < self.old.steps }
        requires none { NoneDue self.old.script self.old.steps more }
        requires due { IsNotDue more self.old.devices }
        ensures { self.new ≡ idle_seat self.old more (more + 1) (passed more self.old.devices) }
    {
        self.devices.pass(more);
        self.steps += more;
        self.counts.add_idle(more + 1);
        self.state = state_after(StepEnd::Idle, &self.cpu, &self.devices);
    }

    /// Takes the next step, and as many behind it as the board may carry out together with it, or as are idle with it,
    /// at most `limit` in all. `ready` says that the board stands ready for the guest.
    pub(crate) fn advance(
        &mut self,
        board: &mut Board,
        limit: u32,
        native: &mut Native,
        ready: bool,
    ) -> Advance
        requires limit { 0 < limit }
        requires room { self.old.steps + limit < 2 ^ 32 }
        requires seated { IsSeated self.old board.old.world.ram }
        requires takes { takes_steps self.old.state ≡ true }
        requires native { (native.old.retired + limit < 2 ^ 63) × (native.old.exceptions + 32 * limit < 2 ^ 63) }
        requires ready { ready ≡ true → IsReady self.old board.old }
        ensures some { (0 < result.steps) × (result.steps ≤ limit) }
        ensures takes { Takes result.steps (scene self.old board.old.world.ram native.old)
            (scene self.new board.new.world.ram native.new) }
        ensures ready { result.ready ≡ true → IsReady self.new board.new }
        ensures steps { self.new.steps ≡ self.old.steps + result.steps }
        ensures native { (native.new.retired ≤ native.old.retired + result.steps)
            × (native.new.exceptions ≤ native.old.exceptions + 32 * result.steps) }
    {
        let level = self.begin();
        let more = more_steps(
            &self.script,
            self.next,
            self.steps,
            &self.devices,
            steps_behind(&self.devices, limit),
        );
        if let Some(class) = assisted(level, &self.cpu) {
            if let Class::Idle = class {
                self.idle_on(more);
                return Advance {
                    steps: more + 1,
                    ready,
                };
            }
            let stays = self.assist(board, &Rest::Whole, level, class);
            return Advance {
                steps: 1,
                ready: ready & stays,
            };
        }
        self.ready_board(board, ready);
        let before = native.retired();
        match self.run_board(board, more + 1, native) {
            RunEnd::Counted => {
                self.go_on(&plain(&board.cpu().regs), more, more + 1);
                self.settle();
                Advance {
                    steps: more + 1,
                    ready: true,
                }
            }
            RunEnd::Exit(vector) => {
                let retired = (native.retired() - before) as u32;
                self.go_on(board.before(), retired, retired);
                let ready = self.end_step(board, vector, native);
                Advance {
                    steps: retired + 1,
                    ready,
                }
            }
            RunEnd::Gone => unreachable!(),
        }
    }
}
