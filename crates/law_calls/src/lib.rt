//! How many calls each instruction has made where a read was refused, and that its condition codes stay five bits.
//!
//! An operand is at most three pieces, and so is the long that a memory indirect address is read from: so few calls
//! come before a fetch or a read that is refused, whatever a bus answers. What an instruction does behind its last read
//! of that kind does not count, as the transfers of a MOVEM, writes, and what follows a locked check.
//!
//! An instruction that finds nothing above X, N, Z, V and C in the condition codes leaves nothing there: it leaves them
//! as they are, or puts five bits in their place.
//! `proofs/` has what holds of each part that instructions share, and two lines for each row.
#![tactic(auto)]

ghost use Rattle.law_calls.specs.Calls.{RefusedRowsAreEarly, RefusedAttemptsAreEarly};
ghost use Rattle.law_calls.specs.Codes.{CodesStay};

/// An instruction, and a whole attempt, over every bus.
pub fn refused_reads_are_early<S>()
    ensures rows { RefusedRowsAreEarly S }
    ensures attempts { RefusedAttemptsAreEarly S }
{}

/// The condition codes of an instruction, however it ends, over every bus.
pub fn codes_stay<S>()
    ensures { CodesStay S }
{}
