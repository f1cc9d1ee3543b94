//! Where bytes go.

ghost use Rattle.std.specs.Prelude.{ℕ, List, take, Option};
ghost use Rattle.mb_outside.specs.Sink.{Grows, taken_by, TakesSome, SinkCause};

/// A put that failed, and was counted.
#[derive(Clone, Copy, Debug, PartialEq, Eq)]
pub struct Failed;

/// A place that takes bytes.
pub trait Sink {
    /// The bytes that were taken, where the sink tells them.
    ghost taken: { Self → Option (List ℕ) };

    /// How often a call has failed, up to 2^64 - 1. It is 0 in a new sink.
    ghost faults: { Self → ℕ };

    /// Takes first bytes of the piece, and says how many: at least one of a piece that has any. A
    /// call that fails takes none.
    fn put(&mut self, bytes: &[u8]) -> Result<usize, Failed>
        ensures count { TakesSome bytes.now result }
        ensures taken { Grows (taken self.old) (taken self.new) (take (taken_by result) bytes.now) }
        ensures cause { SinkCause (faults self.old) (faults self.new) result };
}
