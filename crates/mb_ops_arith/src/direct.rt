//! Operands and results that ask nothing of the bus.

ghost use Rattle.std.specs.Prelude.{◌≡◌, ◌<◌, IfSome};
ghost use Rattle.mb_instr.specs.Operands.{IsEa};
ghost use Rattle.mb_instr.specs.Sizes.{low_of};
ghost use Rattle.mb_instr.specs.Registers.{data_register};
ghost use Rattle.mb_alu.specs.Sums.{compare_of};
ghost use Rattle.def_instructions.specs.Unary.{put_in_register_of};
ghost use Rattle.mb_ops_arith.specs.AtHand.{IsAtHand};
ghost use Rattle.mb_ops_arith.specs.Changes.{operation_of};

use crate::operations::Operation;
use crate::unary::put_in_register;
use mb_alu::compare;
use mb_instr::{Ea, Plain, Size};

/// The value of an operand that a data register has, or the instruction itself.
#[inline(always)]
pub(crate) fn at_hand(size: Size, ea: &Ea, plain: &Plain) -> Option<u32>
    requires { IsEa size ea.now }
    ensures { IfSome result (IsAtHand size ea.now plain.now) }
{
    match *ea {
        Ea::Dn(n) => Some(size.low(plain.d[n as usize])),
        Ea::Imm(value) => Some(size.low(value)),
        _ => None,
    }
}

/// What the operation makes of a value and a data register goes to the register.
#[inline(always)]
pub fn combine_into(operation: Operation, size: Size, source: u32, register: u8, plain: &mut Plain)
    requires { register < 8 }
    ensures { plain.new ≡ put_in_register_of register size
        (operation_of operation size source (low_of size (data_register plain.old register)) plain.old.ccr)
        plain.old }
{
    let destination = size.low(plain.d[register as usize]);
    let result = operation.apply(size, source, destination, plain.ccr);
    put_in_register(register, size, result, plain);
}

/// What the operation makes of two data registers goes to the second.
#[inline(always)]
pub fn combine_registers(
    operation: Operation,
    size: Size,
    source: u8,
    destination: u8,
    plain: &mut Plain,
)
    requires source { source < 8 }
    requires destination { destination < 8 }
    ensures { plain.new ≡ put_in_register_of destination size
        (operation_of operation size (low_of size (data_register plain.old source))
        (low_of size (data_register plain.old destination)) plain.old.ccr) plain.old }
{
    combine_into(
        operation,
        size,
        size.low(plain.d[source as usize]),
        destination,
        plain,
    );
}

/// A value is compared with a data register.
#[inline(always)]
pub fn compare_with(size: Size, source: u32, register: u8, plain: &mut Plain)
    requires { register < 8 }
    ensures { plain.new ≡ record plain.old {
      ccr = compare_of size source (low_of size (data_register plain.old register)) plain.old.ccr;
    } }
{
    let destination = size.low(plain.d[register as usize]);
    plain.ccr = compare(size, source, destination, plain.ccr);
}
