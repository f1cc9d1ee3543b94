//! What a monitor's promises are said in, of runs of the machine: free runs, what a board that runs a guest in user
//! mode counts, the rest of a step that a board began for a guest, which steps it may carry out in one run, and tidy
//! runs.
//!
//! Stands on `def_machine`, below the board and the monitor. [`specs/Free`] has free runs, those of a board whose
//! caches may hold whatever was searched out since the last flush that covers it: the free bus, its steps and its runs,
//! over the same routine of a step. A run by any rule of keeping is one of them. [`specs/Native`] has the run of a
//! board in user mode, and [`specs/Marks`] the trail of its steps; [`specs/Finishes`] has the rest of a begun step, and
//! [`specs/Frames`] what a frame says of it. [`specs/Batches`] has steps at which nothing arrives, and [`specs/Tidy`]
//! the runs in which no translation is used stale. The code has the laws.
#![tactic(auto)]

mod left;

ghost use Rattle.def_runs.specs.Laws.{CallsAreFree, RunsAreFree, RunsFromResetAreFree};
ghost use Rattle.def_runs.specs.Laws.{AccessesUseOrSearch, FreeBoardsKeep, FreeBoardsFill};
ghost use Rattle.def_runs.specs.Marks.{TrailsBySpelling};
ghost use Rattle.def_runs.specs.Native.{RunsEndByCause};
ghost use Rattle.def_runs.specs.Tidy.{EachAccessSearches, PastIsWhatWasSearchedOut};
ghost use Rattle.def_runs.specs.Telling.{RefusalsTell, TrapsTell, FramesTell};

pub use left::LeftOver;

/// How a run of a board in user mode ended.
#[derive(Clone, Copy, Debug, PartialEq, Eq)]
pub enum RunEnd {
    /// So many steps were carried out.
    Counted,
    /// A step entered an exception: the vector of the last one that it entered.
    Exit(u8),
    /// The board is halted or off.
    Gone,
}

/// Whatever a machine does by a rule of keeping, a free one may do too, and keeps all that the first keeps.
pub fn runs_are_free()
    ensures calls { CallsAreFree }
    ensures runs { RunsAreFree }
    ensures from_reset { RunsFromResetAreFree }
{}

/// What a free board does at a call: an access uses an entry or searches, and what was searched out is kept until a
/// flush or PTEST drops it.
pub fn free_boards_keep()
    ensures access { AccessesUseOrSearch }
    ensures kept { FreeBoardsKeep }
    ensures found { FreeBoardsFill }
{}

/// What a run in user mode counts: each of its ends has its cause, and the trail with a step's marks is had from what
/// its registers spell in base 31.
pub fn user_runs_count()
    ensures ends { RunsEndByCause }
    ensures trail { TrailsBySpelling }
{}

/// The frame of an exception that ended a board's step tells its cause, and what an access error left to do.
pub fn frames_tell()
    ensures refusals { RefusalsTell }
    ensures traps { TrapsTell }
    ensures left { FramesTell }
{}

/// The run that searches at each access has searched out just what no flush or PTEST has covered since.
pub fn past_is_searched_out()
    ensures accesses { EachAccessSearches }
    ensures past { PastIsWhatWasSearchedOut }
{}
