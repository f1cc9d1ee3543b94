//! Gathers the bytes of statements in chunks.

ghost use Rattle.std.specs.Prelude.{◌≡◌, ◌+◌, ◌≤◌, ◌++◌, All, OnOk, length};
ghost use Rattle.mb_srec.specs.Image.{IsAddressed, all_contents};
ghost use Rattle.mb_asm.specs.Laids.{laid_said};
ghost use Rattle.mb_asm.specs.Gathered.{chunks_said};
ghost use Rattle.mb_asm.specs.Texts.{chunk_of, with_next_chunk, with_laid};
ghost use Rattle.mb_asm.specs.declared.addresses.TheConstants.{END};

use crate::chunks::Chunks;
use crate::laid::Laid;
use mb_srec::Chunk;
use std::alloc::{AllocError, Global};

/// Adds a chunk, if it has bytes.
#[tactic(auto, using(crate::proofs::Pieces::pushed))]
fn push_chunk(whole: &mut Vec<Chunk>, at: u64, bytes: Vec<u8>) -> Result<(), AllocError>
    requires inside { at + length bytes.items ≤ END }
    requires addressed { All IsAddressed (all_contents whole.old.items) }
    ensures given { OnOk result
        (all_contents whole.new.items ≡ all_contents whole.old.items ++ chunk_of at bytes.items) }
    ensures addressed { All IsAddressed (all_contents whole.new.items) }
{
    if bytes.is_empty() {
        return Ok(());
    }
    let chunk = Chunk::new(at as u32, bytes);
    whole.push(chunk)?;
    Ok(())
}

impl Chunks {
    /// Ends the last chunk; the next one begins at the address.
    pub(crate) fn close(&mut self, alloc: Global, next: u64) -> Result<(), AllocError>
        requires { next ≤ END }
        ensures given { OnOk result (chunks_said self.new ≡ with_next_chunk (chunks_said self.old) next) }
        ensures end { OnOk result (self.new.at + length self.new.bytes.items ≡ next) }
    {
        let bytes = std::mem::replace(&mut self.bytes, Vec::new(alloc));
        push_chunk(&mut self.whole, self.at, bytes)?;
        self.at = next;
        Ok(())
    }

    /// Adds what a statement at the address writes. A gap is left where the address behind it is not where its bytes
    /// end.
    pub(crate) fn add(&mut self, alloc: Global, at: u64, laid: &Laid) -> Result<(), AllocError>
        requires end { self.old.at + length self.old.bytes.items ≡ at }
        requires inside { at + length laid.now.bytes.items ≤ END }
        requires next { laid.now.next ≤ END }
        ensures given { OnOk result (chunks_said self.new ≡ with_laid (chunks_said self.old) at (laid_said laid.now)) }
        ensures end { OnOk result (self.new.at + length self.new.bytes.items ≡ laid.now.next) }
    {
        self.bytes.extend_from_slice(&laid.bytes)?;
        if laid.next != at + laid.bytes.len() as u64 {
            self.close(alloc, laid.next)?;
        }
        Ok(())
    }
}
