//! The real sink.

ghost use Rattle.std.specs.Prelude.{◌≡◌, None};
ghost use Rattle.std.specs.Io.KnownBytes.{WriteAppends};
ghost use Rattle.mb_outside.specs.Sink.{TakesSome, SinkCause};

use crate::{Failed, Sink};
use std::io::Write;

/// A stream, as the standard output. It tells no bytes, takes no memory and buffers nothing.
#[derive(Drop)]
pub struct StdSink<W: Write + Drop> {
    stream: W,
    faults: u64,
}

impl<W: Write + Drop> StdSink<W> {
    /// A sink into the stream.
    pub fn new(stream: W) -> StdSink<W>
        ensures taken { ⟦<StdSink<W> as Sink>⟧.taken result ≡ None }
        ensures faults { ⟦<StdSink<W> as Sink>⟧.faults result ≡ 0 }
    {
        StdSink { stream, faults: 0 }
    }
}

impl<W: Write + Drop> Sink for StdSink<W> {
    ghost taken = { λ s. None };

    ghost faults = { λ s. s.faults };

    fn put(&mut self, bytes: &[u8]) -> Result<usize, Failed>
        ensures count { TakesSome bytes.now result }
        ensures cause { SinkCause self.old.faults self.new.faults result }

        // A stream that tells its bytes has taken just so many first bytes, and none where the call failed.
        ensures written { WriteAppends (W.contents self.old.stream) (W.contents self.new.stream) result bytes.now }
    {
        match self.stream.write(bytes) {
            Ok(count) if count > 0 || bytes.is_empty() => Ok(count),
            _ => {
                self.faults = self.faults.saturating_add(1);
                Err(Failed)
            }
        }
    }
}
