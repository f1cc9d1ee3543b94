//! What the monitor promises, in definitions: a guest's machine beside its shadow, its steps with their classes, its
//! turns, and guests on one board.
//!
//! Stands above `vm_shadow` and `def_runs`. [`specs/Guests`] and [`specs/Bus`] have a guest's world and its bus: what
//! each call answers, and what it makes of the shadow. [`specs/Held`] has the same bus where the shadow is a bound.
//! [`specs/Classes`] and [`specs/Turns`] say why a step is carried out as it is, and count. [`specs/Seats`] has a guest
//! on a board, [`specs/Stages`] many guests, [`specs/Rounds`] the rounds of a session. [`specs/Rests`] and
//! [`specs/Exits`] have the rest of a step that the board left. The code has the laws.
#![tactic(auto)]

mod class;
mod limits;

ghost use Rattle.def_guests.specs.Laws.{RunsAreByRule, StepsAreByRule, TurnsAreByRule, GuestsRunAlone};
ghost use Rattle.def_guests.specs.Laws.{AllowedAccessesAreStill, AttemptsAreJudged};
ghost use Rattle.def_guests.specs.Laws.{HaltedTurnsStay, TurnsAdd, MarksStayBefore};
ghost use Rattle.def_guests.specs.Laws.{CountsAreSteps, MarksAreOfRetired, MarksAppend, TrailsAppend};
ghost use Rattle.def_guests.specs.Laws.{ExceptionsAreBounded};
ghost use Rattle.def_guests.specs.Laws.{NothingIsTaken, TakesAdd};
ghost use Rattle.def_guests.specs.Laws.{OthersStay, TurnsAreIndependent, PreparedGuestsRunAlone, RoundsEnd};
ghost use Rattle.def_guests.specs.Rests.{TrapsAreFinished, DeniedWritesGoOn, DeniedLinesGoOn, DeniedTransfersGoOn};
ghost use Rattle.def_guests.specs.Exits.{ExitsTell};

pub use class::Class;
pub use limits::{MONITOR_BYTES, MOST_REFILLS};

/// A run over a guest's bus is its machine's by the rule of guests, whatever becomes of the shadow.
pub fn runs_are_by_rule<A>()
    ensures { RunsAreByRule A }
{}

/// So are its steps, its turns and its whole run.
pub fn guests_run_alone()
    ensures steps { StepsAreByRule }
    ensures turns { TurnsAreByRule }
    ensures alone { GuestsRunAlone }
{}

/// What the shadow allows changes nothing of it, and a step is judged up to its first access that it does not allow.
pub fn attempts_are_judged()
    ensures still { AllowedAccessesAreStill }
    ensures judged { AttemptsAreJudged }
{}

/// Turns add up, and what begins halted or off stays.
pub fn turns_add()
    ensures halted { HaltedTurnsStay }
    ensures add { TurnsAdd }
    ensures marks { MarksStayBefore }
{}

/// The counts add up to the steps, the marks are those of the retired ones, in order, and each step that a board leaves
/// it leaves by one exception or more.
pub fn steps_are_counted()
    ensures counts { CountsAreSteps }
    ensures retired { MarksAreOfRetired }
    ensures marks { MarksAppend }
    ensures trail { TrailsAppend }
    ensures exceptions { ExceptionsAreBounded }
{}

/// What a turn of a guest on a board promises adds up.
pub fn seated_turns_add()
    ensures none { NothingIsTaken }
    ensures add { TakesAdd }
{}

/// Turns of one guest on a board are nothing to any other, in whatever order.
pub fn turns_are_independent()
    ensures others { OthersStay }
    ensures independent { TurnsAreIndependent }
    ensures alone { PreparedGuestsRunAlone }
{}

/// Rounds of slices end, and give each guest its steps.
pub fn rounds_end()
    ensures { RoundsEnd }
{}

/// A step that was left in the middle goes on as its finish, over every bus.
pub fn rests_are_finished<S>()
    ensures traps { TrapsAreFinished S }
    ensures writes { DeniedWritesGoOn S }
    ensures lines { DeniedLinesGoOn S }
    ensures transfers { DeniedTransfersGoOn S }
{}

/// In user mode an exception is entered exactly where the attempt is not carried out.
pub fn exits_tell<S>()
    ensures { ExitsTell S }
{}
