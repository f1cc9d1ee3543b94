//! Bytes in memory.

ghost use Rattle.std.specs.Prelude.{◌≡◌, ◌+◌, ◌≤◌, length, IfOk};
ghost use Rattle.mb_walk.specs.Memory.{part};
ghost use Rattle.vm_disk.specs.Disk.{zeros};

use mb_outside::Memory;
use std::alloc::Global;

/// So many bytes, each 0.
#[tactic(auto, unfolding(crate::specs::Disk::zeros))]
pub(crate) fn zeros(alloc: Global, size: usize) -> Result<Vec<u8>, Memory>
    ensures bytes { IfOk result (λ bytes. bytes.items ≡ zeros size) }
    ensures size { IfOk result (λ bytes. length bytes.items ≡ size) }
{
    let Ok(bytes) = vec![in alloc; 0u8; size] else {
        return Err(Memory);
    };
    Ok(bytes)
}

/// Each byte becomes 0.
#[tactic(auto, unfolding(crate::specs::Disk::zeros))]
pub(crate) fn clear(bytes: &mut [u8])
    ensures { bytes.new ≡ zeros (length bytes.old) }
{
    bytes.fill(0);
}

/// So many bytes from a place on.
pub(crate) fn part_at(bytes: &[u8], at: usize, size: usize) -> &[u8]
    requires { at + size ≤ length bytes.now }
    ensures { result.now ≡ part bytes.now at size }
{
    &bytes[at..][..size]
}
