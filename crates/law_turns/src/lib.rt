//! A guest's whole step on a board, and runs of the board.
//!
//! A step's class is that of the held guest's end. A retired step of the guest is one of the board, with the same
//! registers. Any other step that the board attempts it leaves by an exception: its vector tells the class, and what
//! the frame says, with the registers, gives the rest of the guest's own step. So a run of the board is so many retired
//! steps of the guest, counted to its end or left behind them, and each is what a turn promises of a seated guest.
//! [`specs/Retire`], [`specs/Rest`] and [`specs/Exit`] have the step, [`specs/Batch`] and [`specs/Quiet`] the run,
//! [`specs/Idle`] what STOP holds, [`specs/Turn`] and [`specs/Taking`] the turn. The code has the laws.
#![tactic(auto)]

ghost use Rattle.law_turns.specs.Retire.{ClassesAreHeld, RetiredSteps};
ghost use Rattle.law_turns.specs.Rest.{StepsGoOn};
ghost use Rattle.law_turns.specs.Exit.{LeftSteps};
ghost use Rattle.law_turns.specs.Refill.{FirstIsLast, NoneIsRefilled, StepsBeginAgain, LastIsJudged};
ghost use Rattle.law_turns.specs.Refill.{AgainComesToTheSame, AgainAdvances};
ghost use Rattle.law_turns.specs.Batch.{RunsAreBatches};
ghost use Rattle.law_turns.specs.Quiet.{QuietStepsAreTried, RetiredStepsTick, RetiredStepsKeepTruth, RetiredStepsLeave};
ghost use Rattle.law_turns.specs.Idle.{QuietStepsAreIdle, IdleStepsTake};
ghost use Rattle.law_turns.specs.Turn.{FlushedIsSet, MoreStaysSet, BoardsAreReady, ExitsAdvance};
ghost use Rattle.law_turns.specs.Taking.{BatchesTake, ExitsTake};
ghost use Rattle.law_turns.specs.Again.{MidwayAgain, MidwayAhead, MidwayEnds, MidwayBegins, MidwayTakes, MidwayWithin};

/// One step of a guest that the board begins: its class, and where it is retired.
pub fn guest_steps_retire()
    ensures classes { ClassesAreHeld }
    ensures retired { RetiredSteps }
{}

/// One that the board leaves: the rest of the guest's own step, and what the board hands back of it.
pub fn guest_steps_are_left()
    ensures goes_on { StepsGoOn }
    ensures left { LeftSteps }
{}

/// One that begins again behind a read that was filled and put: when it does, what it comes to, and how it is judged.
pub fn guest_steps_begin_again()
    ensures first { FirstIsLast }
    ensures none { NoneIsRefilled }
    ensures again { StepsBeginAgain }
    ensures last { LastIsJudged }
    ensures same { AgainComesToTheSame }
    ensures advances { AgainAdvances }
{}

/// A run of the board is so many retired steps of the guest, and an exit or none.
pub fn runs_are_batches()
    ensures { RunsAreBatches }
{}

/// A stretch that the board may carry out in one run, and what it leaves.
pub fn quiet_stretches()
    ensures tried { QuietStepsAreTried }
    ensures ticks { RetiredStepsTick }
    ensures truth { RetiredStepsKeepTruth }
    ensures leave { RetiredStepsLeave }
{}

/// Idle steps of a guest as far as they are quiet, and that they may be taken at once.
pub fn idle_stretches()
    ensures idle { QuietStepsAreIdle }
    ensures take { IdleStepsTake }
{}

/// What of a board stands for a run of a guest, and a step of the turn that the board left.
pub fn turns_have_parts()
    ensures flushed { FlushedIsSet }
    ensures more { MoreStaysSet }
    ensures ready { BoardsAreReady }
    ensures advance { ExitsAdvance }
{}

/// What a run of the board has taken of a seated guest's turn.
pub fn runs_take_turns()
    ensures batches { BatchesTake }
    ensures exits { ExitsTake }
{}

/// What a step that begins again has taken of a seated guest's turn.
pub fn refills_take_turns()
    ensures again { MidwayAgain }
    ensures ahead { MidwayAhead }
    ensures ends { MidwayEnds }
    ensures begins { MidwayBegins }
    ensures takes { MidwayTakes }
    ensures within { MidwayWithin }
{}
