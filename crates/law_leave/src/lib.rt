//! A board's step of a guest's instruction, in user mode.
//!
//! An attempt that the held guest carries out is the board's step and the guest's own, with the same registers. Any
//! other end is the entry of one exception on the board: its frame is stacked below the guest, and nothing else
//! changes. [`specs/Exits`] has the exception of each end, [`specs/Fits`] what the end says of the held attempt, and
//! [`specs/Steps`] the step. The code has the laws.
#![tactic(auto)]

ghost use Rattle.law_leave.specs.Exits.{BoardLeaves, FramesLeaveReady};
ghost use Rattle.law_leave.specs.Fits.{EndsFit};
ghost use Rattle.law_leave.specs.Steps.{StepsRetire, StepsLeave};

/// The board leaves a guest by one exception, and stays ready for it.
pub fn board_leaves()
    ensures enters { BoardLeaves }
    ensures ready { FramesLeaveReady }
{}

/// Addresses and longs that the end of the held guest's attempt says have 32 bits, as a frame's fields have.
pub fn ends_fit()
    ensures { EndsFit }
{}

/// The board's step of an instruction of the guest is retired, or enters the exception of the same end.
pub fn board_steps()
    ensures retired { StepsRetire }
    ensures left { StepsLeave }
{}
