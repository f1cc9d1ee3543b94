//! How often a guest's attempt begins again, behind reads that were filled and put.
//!
//! Each refill lets an attempt pass the call that was denied, and all calls before it are allowed as before. An attempt
//! that is denied a read has made few calls. So it begins again few times, and the bound by which the definition falls
//! is met by no guest: whatever comes of a step, a greater bound makes no difference to it.
//! [`specs/Refills`] states it, and `proofs/Passing` counts the calls before the first that is not allowed.
#![tactic(auto)]

ghost use Rattle.law_refills.specs.Refills.{RefillsEnd, BoundIsNotMet};

/// An attempt that is judged begins again no more.
pub fn refills_end()
    ensures last { RefillsEnd }
    ensures bound { BoundIsNotMet }
{}
