//! An image in memory.

ghost use Rattle.std.specs.Prelude.{◌≡◌, length, All};
ghost use Rattle.mb_srec.specs.Image.{content_of, all_contents, contents_of, LiesBelow};
ghost use Rattle.mb_walk.specs.Memory.{chunk_from, contents_from, overwritten, with_contents};

use crate::image::{Chunk, Image};
use mb_walk::overwrite;

/// Puts a chunk that lies in memory, its address counted from `base` on, over what stands there.
#[tactic(auto, using(mb_walk::proofs::MemoryLemmas::writes))]
fn put_chunk(bytes: &mut [u8], base: u32, chunk: &Chunk)
    requires lies { LiesBelow (length bytes.old) (chunk_from base (content_of chunk.now)) }
    ensures after { let (at, more) = chunk_from base (content_of chunk.now) in
        bytes.new ≡ overwritten bytes.old at more }
    ensures size { length bytes.new ≡ length bytes.old }
{
    if !chunk.bytes().is_empty() {
        overwrite(bytes, base as usize + chunk.at() as usize, chunk.bytes());
    }
}

/// Puts chunks that lie in memory, their addresses counted from `base` on, over what stands there, later ones over
/// earlier ones.
pub fn put_chunks(bytes: &mut [u8], base: u32, chunks: &[Chunk])
    requires lie { All (LiesBelow (length bytes.old)) (contents_from base (all_contents chunks.now)) }
    ensures after { bytes.new ≡ with_contents bytes.old (contents_from base (all_contents chunks.now)) }
    ensures size { length bytes.new ≡ length bytes.old }
{
    for chunk in chunks {
        put_chunk(bytes, base, chunk);
    }
}

impl Image {
    /// Puts all chunks over what stands in memory, in which they lie.
    #[tactic(auto, using(crate::proofs::ChunkLemmas::from_zero))]
    pub fn put_into(&self, bytes: &mut [u8])
        requires lie { All (LiesBelow (length bytes.old)) (contents_of self.now) }
        ensures after { bytes.new ≡ with_contents bytes.old (contents_of self.now) }
        ensures size { length bytes.new ≡ length bytes.old }
    {
        put_chunks(bytes, 0, self.chunks());
    }
}
