//! Nodes that are linked by number: where a link leads, and what a write to a link leaves of the paths that it is on.
//!
//! There is no code. What a guest keeps (`vm_tlb`) and its shadow tables (`vm_shadow`) are lists that are linked so,
//! each up to an end of its own.
#![tactic(auto)]
