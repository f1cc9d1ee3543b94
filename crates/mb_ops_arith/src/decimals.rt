//! ABCD, SBCD and NBCD, PACK and UNPK.

ghost use Rattle.std.specs.Prelude.{◌≡◌, ◌<◌};
ghost use Rattle.mb_port.specs.Routine.{run};
ghost use Rattle.mb_instr.specs.Operands.{IsEa, IsDestination};
ghost use Rattle.mb_instr.specs.Sizes.{values_of};
ghost use Rattle.def_instructions.specs.Decimals.{negate_decimal_of, paired, decimal_of, repack_of};
ghost use Rattle.mb_ops_arith.specs.Decimals.{decimal_operation, packing_operation, packed_from, packed_to};
ghost use Rattle.mb_operands.specs.Endings.{carried_by};

use mb_alu::Flagged;
use mb_ea::resolve;
use mb_fields::{abcd, nbcd, pack, sbcd, unpk};
use mb_instr::{Ea, Plain, Size};
use mb_operands::{Stream, Undone, fetch_operand, finish_with, unread};
use mb_port::Port;
use mb_writes::Ended;

/// What ABCD and SBCD do with the source x and the destination y.
#[derive(Clone, Copy)]
pub(crate) enum DecimalKind {
    Add,
    Subtract,
}

impl DecimalKind {
    #[inline(always)]
    fn of(self, x: u8, y: u8, ccr: u8) -> Flagged
        ensures { result ≡ decimal_operation self x y ccr }
    {
        match self {
            DecimalKind::Add => abcd(x, y, ccr),
            DecimalKind::Subtract => sbcd(x, y, ccr),
        }
    }
}

/// What PACK and UNPK do with the source and the adjustment.
#[derive(Clone, Copy)]
pub(crate) enum PackingKind {
    Pack,
    Unpack,
}

impl PackingKind {
    #[inline(always)]
    fn of(self, x: u32, adjust: u16) -> u32
        requires { x < values_of (packed_from self) }
        ensures { result ≡ packing_operation self x adjust }
    {
        match self {
            PackingKind::Pack => u32::from(pack(x as u16, adjust)),
            PackingKind::Unpack => u32::from(unpk(x as u8, adjust)),
        }
    }

    /// The source's size.
    #[inline(always)]
    fn from_size(self) -> Size
        ensures { result ≡ packed_from self }
    {
        match self {
            PackingKind::Pack => Size::Word,
            PackingKind::Unpack => Size::Byte,
        }
    }

    /// The destination's size.
    #[inline(always)]
    fn to_size(self) -> Size
        ensures { result ≡ packed_to self }
    {
        match self {
            PackingKind::Pack => Size::Byte,
            PackingKind::Unpack => Size::Word,
        }
    }
}

/// 0 less the digits of the byte and X.
#[inline(always)]
pub(crate) fn negate_decimal(value: u32, ccr: u8) -> Flagged
    ensures { result ≡ negate_decimal_of value ccr }
{
    nbcd((value & 0xff) as u8, ccr)
}

/// An operand of a row that has two forms: `Dy,Dx` and `-(Ay),-(Ax)`.
#[inline(always)]
fn paired(in_memory: bool, register: u8, size: Size) -> Ea
    requires { register < 8 }
    ensures value { result ≡ paired in_memory register }
    ensures range { IsEa size result }
    ensures destination { IsDestination result }
{
    if in_memory {
        Ea::Pre(register)
    } else {
        Ea::Dn(register)
    }
}

/// ABCD and SBCD: the source is read first.
#[inline(always)]
pub(crate) fn decimal<P: Port>(
    operation: DecimalKind,
    x: u8,
    in_memory: bool,
    y: u8,
    stream: Stream,
    plain: &mut Plain,
    port: &mut P,
    ended: &mut Ended,
) -> Result<(), Undone>
    requires destination { x < 8 }
    requires source { y < 8 }
    ensures means { run P.bus (decimal_of (decimal_operation operation) x in_memory y stream.at stream.space plain.old)
        (P.world port.old) ≡ (carried_by result ended.new plain.new, P.world port.new) }
    ensures rest { P.rest port.new ≡ P.rest port.old }
{
    let from = paired(in_memory, y, Size::Byte);
    let source = match fetch_operand(Size::Byte, &from, stream, plain, port) {
        Ok(source) => source,
        Err(refused) => return Err(unread(&refused, ended)),
    };
    let to = paired(in_memory, x, Size::Byte);
    let destination = match fetch_operand(Size::Byte, &to, stream, plain, port) {
        Ok(destination) => destination,
        Err(refused) => return Err(unread(&refused, ended)),
    };
    let result = operation.of(source.value as u8, destination.value as u8, plain.ccr);
    plain.ccr = result.ccr;
    finish_with(
        destination.target,
        Size::Byte,
        result.value,
        stream.space,
        plain,
        port,
        ended,
    )
}

/// PACK and UNPK: the source is read first, and no condition code changes.
#[inline(always)]
pub(crate) fn repack<P: Port>(
    operation: PackingKind,
    x: u8,
    in_memory: bool,
    y: u8,
    adjust: u16,
    stream: Stream,
    plain: &mut Plain,
    port: &mut P,
    ended: &mut Ended,
) -> Result<(), Undone>
    requires destination { x < 8 }
    requires source { y < 8 }
    ensures means { run P.bus (repack_of (packing_operation operation) (packed_from operation) (packed_to operation)
        x in_memory y adjust stream.at stream.space plain.old) (P.world port.old)
        ≡ (carried_by result ended.new plain.new, P.world port.new) }
    ensures rest { P.rest port.new ≡ P.rest port.old }
{
    let (from_size, to_size) = (operation.from_size(), operation.to_size());
    let from = paired(in_memory, y, from_size);
    let source = match fetch_operand(from_size, &from, stream, plain, port) {
        Ok(source) => source,
        Err(refused) => return Err(unread(&refused, ended)),
    };
    let to = paired(in_memory, x, to_size);
    let target = match resolve(&to, to_size, plain, stream.at, stream.space, port) {
        Ok(target) => target,
        Err(refused) => return Err(unread(&refused, ended)),
    };
    let digits = operation.of(source.value, adjust);
    finish_with(target, to_size, digits, stream.space, plain, port, ended)
}
