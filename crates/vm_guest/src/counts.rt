//! How many steps of each class a guest has taken.

ghost use Rattle.std.specs.Prelude.{◌≡◌, ◌+◌, ◌<◌, ◌^◌};
ghost use Rattle.def_guests.specs.Turns.{tallied, no_steps, steps_in};
ghost use Rattle.vm_guest.specs.Counting.{tally_in};

use def_guests::Class;

/// How many steps of each class there were. They add up to the steps that the guest has taken.
#[derive(Clone, Copy, Debug, PartialEq, Eq)]
pub struct Counts {
    /// The board carried them out.
    pub retired: u64,
    pub privileged: u64,
    pub trapped: u64,
    pub denied: u64,
    pub traced: u64,
    /// Entries of interrupts.
    pub entered: u64,
    pub idle: u64,
    /// Retired steps that the board began again after a fill.
    pub refilled: u64,
}

impl Counts {
    /// No step was taken.
    pub(crate) fn none() -> Counts
        ensures { tally_in result ≡ no_steps }
    {
        Counts {
            retired: 0,
            privileged: 0,
            trapped: 0,
            denied: 0,
            traced: 0,
            entered: 0,
            idle: 0,
            refilled: 0,
        }
    }

    /// One more step of a class.
    pub(crate) fn add(&mut self, class: Class)
        requires { steps_in (tally_in self.old) + 1 < 2 ^ 64 }
        ensures { tally_in self.new ≡ tallied class (tally_in self.old) }
    {
        match class {
            Class::Entered => self.entered += 1,
            Class::Idle => self.idle += 1,
            Class::Traced => self.traced += 1,
            Class::Privileged => self.privileged += 1,
            Class::Denied => self.denied += 1,
            Class::Trapped => self.trapped += 1,
            Class::Retired => self.retired += 1,
        }
    }

    /// The step that was counted last began again after a fill.
    pub(crate) fn refill(&mut self)
        requires { (tally_in self.old).refilled + 1 < 2 ^ 64 }
        ensures { tally_in self.new ≡ record (tally_in self.old) { refilled = (tally_in self.old).refilled + 1 } }
    {
        self.refilled += 1;
    }

    /// So many more retired ones.
    pub(crate) fn retire(&mut self, steps: u32)
        requires { steps_in (tally_in self.old) + steps < 2 ^ 64 }
        ensures { tally_in self.new
            ≡ record (tally_in self.old) { retired = (tally_in self.old).retired + steps } }
    {
        self.retired += u64::from(steps);
    }

    /// So many more idle ones.
    pub(crate) fn add_idle(&mut self, steps: u32)
        requires { steps_in (tally_in self.old) + steps < 2 ^ 64 }
        ensures { tally_in self.new ≡ record (tally_in self.old) { idle = (tally_in self.old).idle + steps } }
    {
        self.idle += u64::from(steps);
    }
}
