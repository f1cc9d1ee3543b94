//! All that the program does, over any shelf and any sinks: the top call.
//!
//! [`run_program`] reads the words, runs their command and says how it ended. Its contract has what `host` promises
//! (`specs/Headline`), and what each command promises and each status says of its cause (`specs/Causes`, a fact a
//! field); `specs/Answers` has a command's files and its answer by what they hold. `specs/TwoRuns` has what a run that
//! saves a session and one that resumes it promise together.
#![tactic(auto)]

ghost use Rattle.mb_program.specs.TwoRuns.{SavedSessionsGoOn};

mod bare_machine;
mod command;
mod compared;
mod debugged;
mod excerpt;
mod generated;
mod guest_reading;
mod hosted;
mod machine;
mod machine_files;
mod named;
mod opening;
mod ordered;
mod records;
mod resumed;
mod saved;
mod top;
mod unfailing;

pub use top::run_program;
pub use unfailing::run_unfailing;

/// What `save` wrote is read back by `resume`, which goes on from there: a law of two runs of [`run_program`].
pub fn saved_sessions_go_on()
    ensures { SavedSessionsGoOn }
{}
