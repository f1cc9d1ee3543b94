//! Chunks so far.

ghost use Rattle.std.specs.Prelude.{◌+◌, ◌≤◌, All, length};
ghost use Rattle.mb_srec.specs.Image.{IsAddressed, all_contents};
ghost use Rattle.mb_asm.specs.declared.addresses.TheConstants.{END};

use mb_srec::Chunk;

/// The chunks that are whole, and the last one, which begins with its first byte.
#[derive(Drop)]
pub(crate) struct Chunks {
    pub(crate) whole: Vec<Chunk>,
    pub(crate) at: u64,
    pub(crate) bytes: Vec<u8>,
    ghost addressed: { All IsAddressed (all_contents whole.items) },
    ghost inside: { at + length bytes.items ≤ END },
}
