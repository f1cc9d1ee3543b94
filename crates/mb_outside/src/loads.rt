//! Whole files from a shelf.

ghost use Rattle.std.specs.Prelude.{◌≡◌, ◌<◌, true, is_some, length, vec_len, IfOk, IfErr, OnOk, IsErrOf, ◌++◌};
ghost use Rattle.mb_outside.specs.Loads.{Loads};

use crate::{Shelf, ShelfFault};
use std::alloc::Global;

/// Why a file was not read whole.
#[derive(Clone, Copy, Debug, PartialEq, Eq)]
pub enum LoadFault {
    /// Memory ran out.
    Memory,
    /// The shelf answered that it failed.
    Failed,
    /// The file has more bytes than asked for.
    TooLong,
}

/// The bytes of a file of at most `most` bytes, read in pieces until its end or until there are more
/// than `most`. What it has read is lost where it fails.
pub fn load<S: Shelf>(
    alloc: Global,
    shelf: &mut S,
    name: &str,
    most: usize,
) -> Result<Vec<u8>, LoadFault>
    ensures told { S.told shelf.new ≡ S.told shelf.old }
    ensures same { S.whole shelf.new ≡ S.whole shelf.old }
    ensures loads { Loads (S.told shelf.old name.now) most (S.faults shelf.old) (S.faults shelf.new) result }
    ensures whole { S.whole shelf.old ≡ true → is_some (S.told shelf.old name.now) ≡ true
        → IsErrOf result LoadFault.Failed → ⊥ }
{
    let mut buf = piece_buffer(alloc)?;
    load_by(alloc, shelf, name, most, &mut buf)
}

/// What one turn reads into: large enough that the calls of the system cost little.
fn piece_buffer(alloc: Global) -> Result<Vec<u8>, LoadFault>
    ensures room { IfOk result (λ buf. 0 < vec_len buf) }
    ensures no_memory { IfErr result (λ fault. fault ≡ LoadFault.Memory) }
{
    match vec![in alloc; 0u8; 65_536] {
        Ok(buf) => Ok(buf),
        Err(_) => Err(LoadFault::Memory),
    }
}

/// The same, reading into this buffer.
fn load_by<S: Shelf>(
    alloc: Global,
    shelf: &mut S,
    name: &str,
    most: usize,
    buf: &mut [u8],
) -> Result<Vec<u8>, LoadFault>
    requires { 0 < length buf.old }
    ensures told { S.told shelf.new ≡ S.told shelf.old }
    ensures same { S.whole shelf.new ≡ S.whole shelf.old }
    ensures loads { Loads (S.told shelf.old name.now) most (S.faults shelf.old) (S.faults shelf.new) result }
    ensures whole { S.whole shelf.old ≡ true → is_some (S.told shelf.old name.now) ≡ true
        → IsErrOf result LoadFault.Failed → ⊥ }
{
    let mut bytes = Vec::new(alloc);
    loop {
        let at = bytes.len();
        let count = match shelf.piece(alloc, name, at as u64, buf) {
            Ok(count) => count,
            Err(ShelfFault::Memory) => return Err(LoadFault::Memory),
            Err(ShelfFault::Failed) => return Err(LoadFault::Failed),
        };
        if count == 0 {
            return Ok(bytes);
        }
        if count > most - at {
            return Err(LoadFault::TooLong);
        }
        append(&mut bytes, &buf[..count])?;
    }
}

fn append(bytes: &mut Vec<u8>, more: &[u8]) -> Result<(), LoadFault>
    ensures appended { OnOk result (bytes.new.items ≡ bytes.old.items ++ more.now) }
    ensures no_memory { IfErr result (λ fault. fault ≡ LoadFault.Memory) }
{
    match bytes.extend_from_slice(more) {
        Ok(()) => Ok(()),
        Err(_) => Err(LoadFault::Memory),
    }
}
