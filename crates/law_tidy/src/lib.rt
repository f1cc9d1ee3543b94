//! What tidy runs promise: every free run of a tidy image is one, so the board and a guest show the same.
//!
//! Stands on `def_runs`, which has free runs and tidy ones. The crate has no code: its public functions have the
//! laws. Whether a run is tidy is decided by a test that computes ([`specs/Deciding`]); by it three images of a few
//! steps are judged ([`specs/Images`]).
#![tactic(auto)]

ghost use Rattle.law_tidy.specs.Laws.{TidyCallsHaveNoChoice, TidyRunsSearch, SearchingIsFree};
ghost use Rattle.law_tidy.specs.Laws.{TidyRunsAreOne, RulesShowTheSame};
ghost use Rattle.law_tidy.specs.Compares.{TidyIsToldSame};
ghost use Rattle.law_tidy.specs.Least.{OneWayIsLeast, OneWayCallsHaveNoChoice, OneWayRunsSearch};
ghost use Rattle.law_tidy.specs.Least.{TidyCallsAreOneWay, TidyRunsAreOneWay};
ghost use Rattle.law_tidy.specs.Off.{OffRunsAreTidy, OffIsTidy};
ghost use Rattle.law_tidy.specs.Deciding.{TidyRunsAreTold, TidyIsTold};
ghost use Rattle.law_tidy.specs.Images.{SendingIsTidy, FlushingIsTidy, StaleIsUntidy, StaleDiffers};

/// Where a run that searches at each access is tidy, a free board has no choice, so all free runs are that run.
pub fn tidy_runs_are_one()
    ensures calls { TidyCallsHaveNoChoice }
    ensures runs { TidyRunsSearch }
    ensures free { SearchingIsFree }
    ensures one { TidyRunsAreOne }
    ensures rules { RulesShowTheSame }
    ensures compared { TidyIsToldSame }
{}

/// The least that leaves a free board no choice at an access, and that tidy runs have it.
pub fn one_way_is_least()
    ensures least { OneWayIsLeast }
    ensures calls { OneWayCallsHaveNoChoice }
    ensures runs { OneWayRunsSearch }
    ensures tidy_calls { TidyCallsAreOneWay }
    ensures tidy_runs { TidyRunsAreOneWay }
{}

/// What never sets TC translates nothing, and so it is tidy.
pub fn off_is_tidy()
    ensures runs { OffRunsAreTidy }
    ensures images { OffIsTidy }
{}

/// A test that computes tells whether a run is tidy.
pub fn tidy_is_told()
    ensures runs { TidyRunsAreTold }
    ensures images { TidyIsTold }
{}

/// An image that translates nothing is tidy, and so is one that flushes what it changes. One that does not is not, and
/// reads something else by another rule.
pub fn images_are_tidy()
    ensures sending { SendingIsTidy }
    ensures flushing { FlushingIsTidy }
    ensures stale { StaleIsUntidy }
    ensures differs { StaleDiffers }
{}
