//! Guests that go on from a saved machine: laws of the definitions of `def_guests`.
//!
//! [`specs/Saved`] has what a snapshot tells of a machine and the machine that it is; [`specs/Begins`] the runs, counts
//! and marks of a guest that begins with any machine; [`specs/Bits`] what bits registers have; [`specs/Saving`] which
//! machines can be saved; [`specs/Lawful`] that what is saved of them is lawful; [`specs/Cuts`] scripts without what
//! has arrived already; [`specs/Resumes`] a run that is saved in its middle.
#![tactic(auto)]

ghost use Rattle.vm_saved.specs.Saved.{SavedIsGivenBack, GoingIsGivenBack};
ghost use Rattle.vm_saved.specs.Begins.{StartsBegin, StartsCount, StartsMark};
ghost use Rattle.vm_saved.specs.Begins.{RunsAdd, HaltedRunsStay, GoingRunsCount, RunsCount, RunsAreGoing, StartsAreGoing};
ghost use Rattle.vm_saved.specs.Begins.{CountsAreStepsSince, MarksAreOfRetiredSince, MarksAppendSince};
ghost use Rattle.vm_saved.specs.Begins.{BegunGuestsRunAlone};
ghost use Rattle.vm_saved.specs.Bits.{RunsKeepBits, StartsHaveBits};
ghost use Rattle.vm_saved.specs.Saving.{StartsCanBeSaved, SavedCanBeSaved, RunsKeepLists, RunsCanBeSaved};
ghost use Rattle.vm_saved.specs.Lawful.{GuestsAreLawful, RunsAreGuests, SavedAreGuests, StartsAreGuests};
ghost use Rattle.vm_saved.specs.Cuts.{LaterArrivalsStay, LaterAbortsStay, CutRunsAreWhole, CutTurnsAreWhole};
ghost use Rattle.vm_saved.specs.Cuts.{CutsAreScripts, CutsJoin};
ghost use Rattle.vm_saved.specs.Resumes.{ResumedRunsGoOn, StartedRunsGoOn, SavedRunsGoOn};

/// What is saved of a machine is that machine, but for what counts no more where it takes no steps.
pub fn saved_machines_are_given_back()
    ensures told { SavedIsGivenBack }
    ensures whole { GoingIsGivenBack }
{}

/// A guest's start is a beginning with a machine.
pub fn starts_begin()
    ensures start { StartsBegin }
    ensures counts { StartsCount }
    ensures marks { StartsMark }
{}

/// Runs add up, and count their steps.
pub fn runs_add()
    ensures add { RunsAdd }
    ensures halted { HaltedRunsStay }
    ensures going { GoingRunsCount }
    ensures within { RunsCount }
    ensures states { RunsAreGoing }
    ensures starts { StartsAreGoing }
{}

/// The counts of a run from a machine add up to its steps, and the marks are those of the retired ones.
pub fn steps_are_counted_since()
    ensures counts { CountsAreStepsSince }
    ensures retired { MarksAreOfRetiredSince }
    ensures marks { MarksAppendSince }
{}

/// A guest on a board that began with a machine comes to that machine's run, whatever the others do.
pub fn begun_guests_run_alone()
    ensures { BegunGuestsRunAlone }
{}

/// Registers have no bits but those that they keep, whatever runs.
pub fn runs_keep_bits()
    ensures starts { StartsHaveBits }
    ensures runs { RunsKeepBits }
{}

/// A guest's machine can be saved at its start, as it was saved, and wherever its run comes.
pub fn guests_can_be_saved()
    ensures starts { StartsCanBeSaved }
    ensures saved { SavedCanBeSaved }
    ensures lists { RunsKeepLists }
    ensures runs { RunsCanBeSaved }
{}

/// What is saved of a guest's machine is lawful, wherever its run comes, where what it keeps can be kept.
pub fn saved_guests_are_lawful()
    ensures starts { StartsAreGuests }
    ensures saved { SavedAreGuests }
    ensures runs { RunsAreGuests }
    ensures lawful { GuestsAreLawful }
{}

/// A script without what has arrived already is as the whole.
pub fn cut_scripts_are_whole()
    ensures arrivals { LaterArrivalsStay }
    ensures aborts { LaterAbortsStay }
    ensures runs { CutRunsAreWhole }
    ensures turns { CutTurnsAreWhole }
    ensures lawful { CutsAreScripts }
    ensures twice { CutsJoin }
{}

/// A run that is saved in its middle goes on to where the whole run comes.
pub fn resumed_runs_go_on()
    ensures resumed { ResumedRunsGoOn }
    ensures started { StartedRunsGoOn }
    ensures saved { SavedRunsGoOn }
{}
