//! The addressing modes.

ghost use Rattle.std.specs.Prelude.{◌≡◌, ◌<◌, OnErr, IfOk};
ghost use Rattle.mb_port.specs.Routine.{run};
ghost use Rattle.mb_instr.specs.Operands.{IsEa, IsInMemory, IsDestination};
ghost use Rattle.mb_ea.specs.Addresses.{IsTarget, IsMemory, IsPlace};
ghost use Rattle.mb_ea.specs.Resolve.{parts_of, indirect_of, full_of, indexed_of, step_over_of, resolve_of, resolved};

use crate::addresses::{Target, displacement, increment, index};
use crate::reading::{ReadFault, read_value};
use mb_instr::{Ea, Ext, Plain, Size};
use mb_port::{Port, Space};

/// What a full extension word adds up to an address; each part is 0 where it is left out.
#[derive(Clone, Copy)]
struct Parts {
    base: u32,
    displacement: u32,
    index: u32,
    outer: u32,
}

/// The parts that a full extension word spells.
fn spelled(base: u32, word: u16, bd: u32, od: u32, plain: &Plain) -> Parts
    ensures { result ≡ parts_of base word bd od plain.now }
{
    Parts {
        base: if word >> 7 & 1 == 1 { 0 } else { base },
        displacement: displacement(word >> 4 & 3, bd),
        index: if word >> 6 & 1 == 1 {
            0
        } else {
            index(word, plain)
        },
        outer: displacement(word & 3, od),
    }
}

/// A long that stands in memory, and an outer displacement.
fn indirect<P: Port>(space: Space, at: u32, outer: u32, port: &mut P) -> Result<u32, ReadFault>
    ensures means { run P.bus (indirect_of space at outer) (P.world port.old) ≡ (result, P.world port.new) }
    ensures rest { P.rest port.new ≡ P.rest port.old }
{
    let long = read_value(space, at, Size::Long, port)?;
    Ok(long.wrapping_add(outer))
}

/// The address that a full extension word with these parts spells.
fn full<P: Port>(word: u16, parts: &Parts, space: Space, port: &mut P) -> Result<u32, ReadFault>
    ensures means { run P.bus (full_of word parts.now space) (P.world port.old) ≡ (result, P.world port.new) }
    ensures rest { P.rest port.new ≡ P.rest port.old }
{
    let base = parts.base.wrapping_add(parts.displacement);
    match word & 7 {
        0 => Ok(base.wrapping_add(parts.index)),
        1..=3 => indirect(space, base.wrapping_add(parts.index), parts.outer, port),
        _ => indirect(space, base, parts.index.wrapping_add(parts.outer), port),
    }
}

/// A base with an index.
#[inline(always)]
fn indexed<P: Port>(
    base: u32,
    ext: &Ext,
    space: Space,
    plain: &Plain,
    port: &mut P,
) -> Result<u32, ReadFault>
    ensures means { run P.bus (indexed_of base ext.now space plain.now) (P.world port.old)
        ≡ (result, P.world port.new) }
    ensures rest { P.rest port.new ≡ P.rest port.old }
{
    match *ext {
        Ext::Brief(word) => {
            let near = base.wrapping_add(Size::Byte.sign_extend(u32::from(word)));
            Ok(near.wrapping_add(index(word, plain)))
        }
        Ext::Full { word, bd, od } => full(word, &spelled(base, word, bd, od, plain), space, port),
    }
}

/// Finds where an operand stands, and leaves the registers as they are: `-(An)` counts as stepped.
///
/// `word_at` is the address of the operand's first extension word, the base of the modes relative to
/// the PC. A memory indirection reads its long in `space`, as an operand; its fault is the answer. This
/// is the manual's chapter on addressing capabilities.
#[inline(always)]
#[tactic(auto, unfolding(crate::specs::Resolve::resolve_of))]
pub fn find_target<P: Port>(
    ea: &Ea,
    size: Size,
    plain: &Plain,
    word_at: u32,
    space: Space,
    port: &mut P,
) -> Result<Target, ReadFault>
    requires { IsEa size ea.now }
    ensures means { run P.bus (resolve_of ea.now size word_at space plain.now) (P.world port.old)
        ≡ (resolved result (step_over_of ea.now size plain.now), P.world port.new) }
    ensures target { IfOk result (IsTarget size) }
    ensures place { IsDestination ea.now → IfOk result IsPlace }
    ensures memory { IsInMemory ea.now → IfOk result IsMemory }
    ensures rest { P.rest port.new ≡ P.rest port.old }
{
    match *ea {
        Ea::Dn(n) => Ok(Target::Reg(n)),
        Ea::An(n) => Ok(Target::Reg(8 + n)),
        Ea::Ind(n) | Ea::Post(n) => Ok(Target::Memory(plain.a[n as usize])),
        Ea::Pre(n) => Ok(Target::Memory(plain.a[n as usize].wrapping_sub(increment(size, n)))),
        Ea::Disp(n, d) => {
            let displacement = Size::Word.sign_extend(u32::from(d));
            Ok(Target::Memory(plain.a[n as usize].wrapping_add(displacement)))
        }
        Ea::Index(n, ext) => {
            Ok(Target::Memory(indexed(plain.a[n as usize], &ext, space, plain, port)?))
        }
        Ea::AbsW(a) => Ok(Target::Memory(Size::Word.sign_extend(u32::from(a)))),
        Ea::AbsL(a) => Ok(Target::Memory(a)),
        Ea::PcDisp(d) => {
            let displacement = Size::Word.sign_extend(u32::from(d));
            Ok(Target::Memory(word_at.wrapping_add(displacement)))
        }
        Ea::PcIndex(ext) => Ok(Target::Memory(indexed(word_at, &ext, space, plain, port)?)),
        Ea::Imm(v) => Ok(Target::Value(size.low(v))),
    }
}

/// Finds where an operand stands, as `find_target`, and steps the register of `(An)+` and `-(An)`.
#[inline(always)]
#[tactic(auto, unfolding(crate::specs::Resolve::resolve_of))]
pub fn resolve<P: Port>(
    ea: &Ea,
    size: Size,
    plain: &mut Plain,
    word_at: u32,
    space: Space,
    port: &mut P,
) -> Result<Target, ReadFault>
    requires { IsEa size ea.now }
    ensures means { run P.bus (resolve_of ea.now size word_at space plain.old) (P.world port.old)
        ≡ (resolved result plain.new, P.world port.new) }
    ensures target { IfOk result (IsTarget size) }
    ensures place { IsDestination ea.now → IfOk result IsPlace }
    ensures memory { IsInMemory ea.now → IfOk result IsMemory }
    ensures unchanged { OnErr result (plain.new ≡ plain.old) }
    ensures rest { P.rest port.new ≡ P.rest port.old }
{
    match *ea {
        Ea::Post(n) => {
            let at = plain.a[n as usize];
            plain.a[n as usize] = at.wrapping_add(increment(size, n));
            Ok(Target::Memory(at))
        }
        Ea::Pre(n) => {
            let at = plain.a[n as usize].wrapping_sub(increment(size, n));
            plain.a[n as usize] = at;
            Ok(Target::Memory(at))
        }
        _ => find_target(ea, size, plain, word_at, space, port),
    }
}
