//! The laws of routines: what holds of the calls of a bus, holds of every routine that makes them.
//!
//! Stands on `mb_port` alone, below everything that compares two runs: the board under a monitor with
//! its guest, a run with fixed translations with one that may choose among stale ones. `specs/` has
//! the words, `proofs/` the laws, each by induction over routines. A clause ranges over no routine and
//! over no fact of a state, as these are too large a type. So each law stands here once more, at every
//! state type and every type of answers, with tests as facts and relations, and with trees of calls as
//! routines: a routine is such a tree to every bus.
//!
//! The types: S and T are states, A and B answers, E and F fault values, N what stands beside a state.
#![tactic(auto)]

ghost use Rattle.law_routines.specs.Laws.{RoutinesAreTrees, RoutinesKeep, RoutinesKeepUntil, RoutinesLeaveAlone};
ghost use Rattle.law_routines.specs.Laws.{RoutinesBeside, FinishedIsWhole, StopsAtRefused};
ghost use Rattle.law_routines.specs.Laws.{AlikeRunsMeet, AlikeRunsMeetEverywhere, MirroredRunsMeet};
ghost use Rattle.law_routines.specs.Laws.{RunsAreAdmitted, RunsMayFollow, RunsHaveNoChoice, RunsAgree};
ghost use Rattle.law_routines.specs.Laws.{TwinRunsMeet, RefusedTwinsAreFollowed};
ghost use Rattle.law_routines.specs.Laws.{RefusedCallsTell, ProbedPlacesAreOpen, RefusalsCompose, RefusalsAreFollowed};

/// What each call of a bus keeps or leaves alone, a routine keeps or leaves alone.
pub fn routines_keep<S, N, A>()
    ensures kept { RoutinesKeep S A }
    ensures until { RoutinesKeepUntil S A }
    ensures alone { RoutinesLeaveAlone S N A }
    ensures beside { RoutinesBeside S N A }
{}

/// A routine can be stopped at a call that is not allowed, and finished from there.
pub fn routines_finish<S, A, B>()
    ensures whole { FinishedIsWhole S A }
    ensures refused { StopsAtRefused S A }
    ensures trees { RoutinesAreTrees S A B }
{}

/// Two buses that are alike run a routine alike.
pub fn alike_buses_meet<S, T, A>()
    ensures until { AlikeRunsMeet S T A }
    ensures everywhere { AlikeRunsMeetEverywhere S T A }
    ensures mirrored { MirroredRunsMeet S T A }
{}

/// Two routines that make calls of one kind, over buses that are alike call by call, come equally far.
pub fn twins_meet<S, T, A, B, E>()
    ensures until { TwinRunsMeet S T A B }
    ensures followed { RefusedTwinsAreFollowed S T A B E }
{}

/// A run by a bus, and the runs of a bus that may choose.
pub fn runs_relate<S, T, A>()
    ensures admitted { RunsAreAdmitted S A }
    ensures followed { RunsMayFollow S T A }
    ensures no_choice { RunsHaveNoChoice S T A }
    ensures agree { RunsAgree S A }
{}

/// What a refused call leaves: a fault value that tells what was left to do.
pub fn refusals_tell<S, T, A, B, E, F>()
    ensures calls { RefusedCallsTell S }
    ensures probed { ProbedPlacesAreOpen S }
    ensures composed { RefusalsCompose S A B E F }
    ensures followed { RefusalsAreFollowed S T A E }
{}
