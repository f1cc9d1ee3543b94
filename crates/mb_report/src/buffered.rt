//! A text that reaches its sink in few calls.

ghost use Rattle.std.specs.Prelude.{◌≡◌, [], IsOk};
ghost use Rattle.mb_outside.specs.Prints.{PrintsMore};
ghost use Rattle.mb_report.specs.Buffered.{Buffers};

use arrayvec::ArrayVec;
use mb_outside::{Sink, SinkFault, put_more};

/// What is held before it is put. A pipe takes as much at once.
type Block = ArrayVec<u8, 65_536>;

/// A text on its way to a sink: its first part was put, and the rest is held until the block is full.
#[derive(Drop)]
pub struct Buffered {
    held: Block,
    /// Whether the sink took all that was put.
    so_far: Result<(), SinkFault>,
}

impl Buffered {
    /// A text without bytes.
    pub fn new() -> Buffered
        ensures held { result.held.items ≡ [] }
        ensures so_far { IsOk result.so_far }
    {
        Buffered {
            held: Block::new(),
            so_far: Ok(()),
        }
    }

    /// Puts what is held.
    fn flush<O: Sink>(&mut self, out: &mut O)
        ensures puts { Buffers self.old self.new (O.taken out.old) (O.taken out.new) (O.faults out.old)
            (O.faults out.new) [] }
        ensures empty { self.new.held.items ≡ [] }
    {
        self.so_far = put_more(out, self.so_far, &self.held);
        self.held.clear();
    }

    /// Adds bytes to the text. Those that no block has room for are put at once.
    pub fn add<O: Sink>(&mut self, out: &mut O, bytes: &[u8])
        ensures { Buffers self.old self.new (O.taken out.old) (O.taken out.new) (O.faults out.old) (O.faults out.new)
            bytes.now }
    {
        if self.held.try_extend_from_slice(bytes).is_ok() {
            return;
        }
        self.flush(out);
        if self.held.try_extend_from_slice(bytes).is_err() {
            self.so_far = put_more(out, self.so_far, bytes);
        }
    }

    /// Puts what is held, and answers whether the sink took the whole text.
    pub fn finish<O: Sink>(self, out: &mut O) -> Result<(), SinkFault>
        ensures { PrintsMore self.so_far (O.taken out.old) (O.taken out.new) (O.faults out.old) (O.faults out.new)
            self.held.items result }
    {
        put_more(out, self.so_far, &self.held)
    }
}
