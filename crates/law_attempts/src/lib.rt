//! What a step has to do with an attempt.
//!
//! A step is its attempt, of which all accesses are known by their space alone, and then the finish of the end that the
//! attempt came to. The laws here say so at every type of states, over every bus. Whoever knows what becomes of an
//! attempt, as where an access of it is refused, knows by them what becomes of the step.
#![tactic(auto)]

ghost use Rattle.law_attempts.specs.Attempts.{AttemptsPerform, AttemptsFindNone, AttemptThenFinish, UntracedStepsGo};

/// An attempt is the fetch of its instruction, and then what the instruction's row does.
pub fn attempts_perform<S>()
    ensures found { AttemptsPerform S }
    ensures none { AttemptsFindNone S }
{}

/// A step is its attempt and its finish, for all but a privileged instruction of a supervisor.
pub fn steps_are_attempts<S>()
    ensures finish { AttemptThenFinish S }
    ensures untraced { UntracedStepsGo S }
{}
