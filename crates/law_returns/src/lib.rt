//! RTE gives back what the entry of an exception saved, over every bus that keeps what is put.
//!
//! The frames of an entry are the bytes that `mb_frames` lays out, put in pieces; RTE reads its operands there, cut
//! into other pieces. The clauses here say that it comes to the same SR, PC, stacks and fields of an access error.
#![tactic(auto)]

ghost use Rattle.law_returns.specs.Movems.{WordsSayMovem, WordsAreMovem};
ghost use Rattle.law_returns.specs.Plain.{PlainMemoryKeeps};
ghost use Rattle.law_returns.specs.Returns.{EntryIsSeen, FramesAreTaken, EntryIsReturned};

/// RTE after an entry, at every type of states.
pub fn entries_return<S>()
    ensures seen { EntryIsSeen S }
    ensures taken { FramesAreTaken S }
    ensures returned { EntryIsReturned S }
{}

/// The words of a MOVEM in the frame of an access error: what they say is what its row does, and RTE knows them.
pub fn words_are_movems()
    ensures say { WordsSayMovem }
    ensures are { WordsAreMovem }
{}

/// There are such buses: a plain memory keeps what is put.
pub fn plain_memory_keeps()
    ensures { PlainMemoryKeeps }
{}
