//! Registers compared with two bounds in memory.

ghost use Rattle.std.specs.Prelude.{◌≡◌, ◌<◌};
ghost use Rattle.mb_port.specs.Routine.{run};
ghost use Rattle.mb_instr.specs.Operands.{IsEa, IsInMemory};
ghost use Rattle.def_instructions.specs.Bounds.{compared_size, above};
ghost use Rattle.def_instructions.specs.Bounds.{bounds_codes, compared, compare_bounds_of};

use crate::operands::{find_address, named_register};
use crate::stream::Stream;
use mb_alu::Conditions;
use mb_ea::{ReadFault, read_value};
use mb_instr::{Ea, Plain, Size};
use mb_port::Port;

/// Of a data register the low bytes are compared, of an address register all of it.
#[inline(always)]
fn compared_size(size: Size, register: u8) -> Size
    ensures { result ≡ compared_size size register }
{
    if register < 8 { size } else { Size::Long }
}

/// How far a number is above the lower bound, modulo the number of values.
#[inline(always)]
fn above(size: Size, lower: u32, number: u32) -> u32
    ensures { result ≡ above size lower number }
{
    size.low(number.wrapping_sub(lower))
}

/// Z where the value is a bound, and C where it is further above the lower bound than the upper bound is.
#[inline(always)]
fn bounds_codes(size: Size, lower: u32, upper: u32, value: u32, codes: Conditions) -> Conditions
    ensures { result ≡ bounds_codes size lower upper value codes }
{
    let low = size.low(value);
    Conditions {
        z: low == size.low(lower) || low == size.low(upper),
        c: above(size, lower, upper) < above(size, lower, value),
        ..codes
    }
}

/// The condition codes of a register compared with two bounds, which are extended by their sign.
#[inline(always)]
fn compare(size: Size, lower: u32, upper: u32, register: u8, plain: &Plain) -> u8
    requires { register < 16 }
    ensures { result ≡ compared size lower upper register plain.now }
{
    let codes = bounds_codes(
        compared_size(size, register),
        size.sign_extend(lower),
        size.sign_extend(upper),
        plain.register(register),
        Conditions::of(plain.ccr),
    );
    codes.ccr()
}

/// The condition codes of CHK2 and CMP2. The word names the register; the operand's own words are behind it.
#[inline(always)]
pub fn compare_bounds<P: Port>(
    size: Size,
    ea: &Ea,
    word: u16,
    stream: Stream,
    plain: &Plain,
    port: &mut P,
) -> Result<u8, ReadFault>
    requires operand { IsEa size ea.now }
    requires place { IsInMemory ea.now }
    ensures means { run P.bus (compare_bounds_of size ea.now word stream.at stream.space plain.now) (P.world port.old)
        ≡ (result, P.world port.new) }
    ensures rest { P.rest port.new ≡ P.rest port.old }
{
    let place = find_address(size, ea, stream, plain, port)?;
    let lower = read_value(stream.space, place, size, port)?;
    let behind = place.wrapping_add(u32::from(size.bytes()));
    let upper = read_value(stream.space, behind, size, port)?;
    Ok(compare(size, lower, upper, named_register(word), plain))
}
