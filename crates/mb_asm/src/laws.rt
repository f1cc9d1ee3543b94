//! What holds of every text.

ghost use Rattle.mb_asm.specs.Laws.{FaultyBeforeMended, FaultyBehindMended, FaultyStaysFaulty, FirstFaultStays};
ghost use Rattle.mb_asm.specs.Laws.{ImageLeavesNothingUnknown};

/// The first faulty line of lines is told whatever stands behind them, as long as the symbols are the same.
#[tactic(auto, using(crate::proofs::Faults::first_stays))]
pub fn first_fault_stays()
    ensures { FirstFaultStays }
{}

/// A line that is faulty while symbols or its address are not known is faulty when they are known: no fault is made by
/// what another line leaves unknown.
#[tactic(auto, using(crate::proofs::Stays::faulty_stays))]
pub fn faulty_stays_faulty()
    ensures { FaultyStaysFaulty }
{}

/// A line of a text that is faulty beside faulty ones is faulty when those are mended, so that they give the same
/// symbols and leave no less known, whether they stand before it or behind it.
pub fn mending_keeps_other_faults()
    ensures behind { FaultyBehindMended }
    ensures before { FaultyBeforeMended }
{}

/// Where a text has an image, the address of each line and the value of each symbol are known.
pub fn image_leaves_nothing_unknown()
    ensures { ImageLeavesNothingUnknown }
{}
