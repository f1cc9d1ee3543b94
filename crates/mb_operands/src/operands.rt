//! Operands: what stands there, and what is put there.

ghost use Rattle.std.specs.Prelude.{◌≡◌, ◌<◌, OnErr, IfOk};
ghost use Rattle.mb_port.specs.Routine.{run};
ghost use Rattle.mb_instr.specs.Sizes.{values_of};
ghost use Rattle.mb_instr.specs.Operands.{IsEa, IsInMemory, IsDestination};
ghost use Rattle.mb_instr.specs.FurtherWords.{register_word};
ghost use Rattle.mb_ea.specs.Addresses.{IsTarget, IsMemory, IsPlace};
ghost use Rattle.def_instructions.specs.Operands.{behind_of, with_low, load_of, fetch_operand_of, find_address_of};
ghost use Rattle.def_instructions.specs.Operands.{place_of, finish_with_of, push_of};
ghost use Rattle.mb_operands.specs.Fetched.{fetched, pushed, IsOperand};
ghost use Rattle.mb_operands.specs.Endings.{IsUnfinished, carried_by};

use crate::endings::Undone;
use crate::memory::{read_memory, write_memory};
use crate::stream::Stream;
use mb_ea::{ReadFault, Target, find_target, resolve};
use mb_instr::{Ea, Plain, Size};
use mb_port::{Port, Space};
use mb_writes::Ended;

/// An operand that was read.
#[derive(Clone, Copy)]
pub struct Operand {
    pub target: Target,
    /// In its low bytes, at the size.
    pub value: u32,
}

/// The register of all sixteen that an instruction's second word names: bit 15 says an address register, bits 14 to 12
/// are its number.
#[inline(always)]
pub fn named_register(word: u16) -> u8
    ensures value { result ≡ (register_word word).register }
    ensures range { result < 16 }
{
    (word >> 12) as u8
}

/// The address of the words behind those of an operand whose first word is at `word_at`.
#[inline(always)]
pub fn behind(size: Size, ea: &Ea, word_at: u32) -> u32
    ensures { result ≡ behind_of size ea.now word_at }
{
    word_at.wrapping_add(2 * u32::from(ea.words(size)))
}

/// What stands at a target.
#[inline(always)]
fn load<P: Port>(
    target: Target,
    size: Size,
    plain: &Plain,
    space: Space,
    port: &mut P,
) -> Result<u32, ReadFault>
    requires { IsTarget size target }
    ensures means { run P.bus (load_of target size space plain.now) (P.world port.old) ≡ (result, P.world port.new) }
    ensures range { IfOk result (λ value. value < values_of size) }
    ensures rest { P.rest port.new ≡ P.rest port.old }
{
    match target {
        Target::Reg(n) => Ok(size.low(plain.register(n))),
        Target::Memory(at) => read_memory(space, at, size, port),
        Target::Value(value) => Ok(value),
    }
}

/// A number with other low bytes.
#[inline(always)]
pub fn with_low(size: Size, old: u32, value: u32) -> u32
    ensures { result ≡ with_low size old value }
{
    old - size.low(old) + size.low(value)
}

/// Reads an operand. Its first extension word is at `stream.at`.
#[inline(always)]
pub fn fetch_operand<P: Port>(
    size: Size,
    ea: &Ea,
    stream: Stream,
    plain: &mut Plain,
    port: &mut P,
) -> Result<Operand, ReadFault>
    requires { IsEa size ea.now }
    ensures means { run P.bus (fetch_operand_of size ea.now stream.at stream.space plain.old) (P.world port.old)
        ≡ (fetched result plain.new, P.world port.new) }
    ensures operand { IfOk result (IsOperand size) }
    ensures place { IsDestination ea.now → IfOk result (λ operand. IsPlace operand.target) }
    ensures rest { P.rest port.new ≡ P.rest port.old }
{
    let target = resolve(ea, size, plain, stream.at, stream.space, port)?;
    let value = load(target, size, plain, stream.space, port)?;
    Ok(Operand { target, value })
}

/// Where an operand in memory stands.
#[inline(always)]
pub fn place(target: Target) -> u32
    requires { IsMemory target }
    ensures { result ≡ place_of target }
{
    match target {
        Target::Memory(at) => at,
        Target::Reg(_) | Target::Value(_) => unreachable!(),
    }
}

/// The address of an operand in memory, which is not read. `(An)+` and `-(An)` do not step here.
#[inline(always)]
pub fn find_address<P: Port>(
    size: Size,
    ea: &Ea,
    stream: Stream,
    plain: &Plain,
    port: &mut P,
) -> Result<u32, ReadFault>
    requires operand { IsEa size ea.now }
    requires place { IsInMemory ea.now }
    ensures means { run P.bus (find_address_of size ea.now stream.at stream.space plain.now) (P.world port.old)
        ≡ (result, P.world port.new) }
    ensures rest { P.rest port.new ≡ P.rest port.old }
{
    let target = find_target(ea, size, plain, stream.at, stream.space, port)?;
    Ok(place(target))
}

/// The last part of an instruction: a value goes to its target.
#[inline(always)]
pub fn finish_with<P: Port>(
    target: Target,
    size: Size,
    value: u32,
    space: Space,
    plain: &mut Plain,
    port: &mut P,
    ended: &mut Ended,
) -> Result<(), Undone>
    requires target { IsTarget size target }
    requires place { IsPlace target }
    ensures means { run P.bus (finish_with_of target size value space plain.old) (P.world port.old)
        ≡ (carried_by result ended.new plain.new, P.world port.new) }
    ensures left { OnErr result (IsUnfinished ended.new) }
    ensures rest { P.rest port.new ≡ P.rest port.old }
{
    match target {
        Target::Reg(n) => {
            plain.set_register(n, with_low(size, plain.register(n), value));
            Ok(())
        }
        Target::Memory(at) => write_memory(space, at, size, value, port, ended),
        Target::Value(_) => unreachable!(),
    }
}

/// Puts a long onto the stack, whose new top is `top`. The registers are those after the instruction.
#[inline(always)]
pub fn push<P: Port>(
    value: u32,
    top: u32,
    space: Space,
    plain: &Plain,
    port: &mut P,
    ended: &mut Ended,
) -> Result<(), Undone>
    ensures means { run P.bus (push_of value top space plain.now) (P.world port.old)
        ≡ (pushed result ended.new plain.now, P.world port.new) }
    ensures rest { P.rest port.new ≡ P.rest port.old }
{
    write_memory(space, top, Size::Long, value, port, ended)
}
