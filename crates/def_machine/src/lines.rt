//! Lines: 16 bytes of memory at a multiple of 16.

ghost use Rattle.std.specs.Prelude.{◌≡◌, ◌%◌, length, Some, None, if◌then◌else◌, is_some, take, IfNone, IfSome};
ghost use Rattle.def_machine.specs.Places.{in_ram, line_at, with_longs};

use crate::places::in_ram;
use mb_port::Place;
use mb_walk::Ram;

/// The four longs of the line at an address. `None` where memory does not hold the whole of it.
pub fn take_line<R: Ram>(ram: &R, at: u32) -> Option<[u32; 4]>
    requires { at % 16 ≡ 0 }
    ensures { result ≡ (if in_ram (length (R.bytes ram.now)) at 16 then Some (line_at (R.bytes ram.now) at) else None) }
{
    if !in_ram(ram, Place { at, len: 16 }) {
        return None;
    }
    Some([
        ram.long(at),
        ram.long(at + 4),
        ram.long(at + 8),
        ram.long(at + 12),
    ])
}

/// Writes them. `None` where memory does not hold the whole of the line, and nothing has changed.
#[tactic(auto, using(mb_walk::proofs::MemoryLemmas::lengths))]
pub fn store_line<R: Ram>(ram: &mut R, at: u32, line: [u32; 4]) -> Option<()>
    requires { at % 16 ≡ 0 }
    ensures lies { is_some result ≡ in_ram (length (R.bytes ram.old)) at 16 }
    ensures written { IfSome result (λ done. R.bytes ram.new ≡ with_longs (R.bytes ram.old) at (take 4 line)) }
    ensures unchanged { IfNone result (R.bytes ram.new ≡ R.bytes ram.old) }
    ensures size { length (R.bytes ram.new) ≡ length (R.bytes ram.old) }
    ensures rest { R.rest ram.new ≡ R.rest ram.old }
{
    if !in_ram(ram, Place { at, len: 16 }) {
        return None;
    }
    let [first, second, third, fourth] = line;
    ram.set_long(at, first);
    ram.set_long(at + 4, second);
    ram.set_long(at + 8, third);
    ram.set_long(at + 12, fourth);
    Some(())
}
