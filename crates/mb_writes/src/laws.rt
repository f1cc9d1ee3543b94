//! What holds of every operand that is written in parts.

ghost use Rattle.mb_writes.specs.Laws.{PutIsComplete, FrontThenBack};

/// A refused write can be completed piece by piece, or in two parts: at every type of states, over every
/// bus.
pub fn writes_complete<S>()
    ensures whole { PutIsComplete S }
    ensures parts { FrontThenBack S }
{}
