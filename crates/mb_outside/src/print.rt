//! Whole texts to a sink.

ghost use Rattle.mb_outside.specs.Prints.{Prints, PrintsMore};

use crate::{Failed, Sink};

/// A text that a sink did not take to its end.
#[derive(Clone, Copy, Debug, PartialEq, Eq)]
pub struct SinkFault;

impl From<Failed> for SinkFault {
    fn from(_failed: Failed) -> SinkFault {
        SinkFault
    }
}

/// Puts all the bytes, in as many calls as the sink needs. It ends at the first call that fails.
pub fn put_all<K: Sink>(sink: &mut K, bytes: &[u8]) -> Result<(), SinkFault>
    ensures { Prints (K.taken sink.old) (K.taken sink.new) (K.faults sink.old) (K.faults sink.new) bytes.now result }
{
    let mut rest = bytes;
    while !rest.is_empty() {
        let count = sink.put(rest)?;
        let (_, after) = rest.split_at(count);
        rest = after;
    }
    Ok(())
}

/// Puts all the bytes where nothing has failed so far, and else nothing: a text of several parts is
/// one call for each, with the answer of the last call handed on.
pub fn put_more<K: Sink>(
    sink: &mut K,
    so_far: Result<(), SinkFault>,
    bytes: &[u8],
) -> Result<(), SinkFault>
    ensures { PrintsMore so_far (K.taken sink.old) (K.taken sink.new) (K.faults sink.old) (K.faults sink.new)
        bytes.now result }
{
    match so_far {
        Ok(()) => put_all(sink, bytes),
        Err(fault) => Err(fault),
    }
}
