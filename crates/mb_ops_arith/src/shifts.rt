//! Shifts and rotates.

ghost use Rattle.std.specs.Prelude.{◌≡◌, ◌<◌};
ghost use Rattle.def_instructions.specs.Shifts.{shift_count_of, shift_register_of};
ghost use Rattle.mb_ops_arith.specs.Counts.{IsCount};

use crate::unary::put_in_register;
use mb_alu::shift;
use mb_instr::{Plain, ShiftKind, Size};

/// A count in a register is less than this: of the register it is taken modulo this.
const COUNTS: u32 = 64;

/// By how many bits: the number, or what is in the data register of that number.
#[inline(always)]
fn shift_count(by_register: bool, number: u8, plain: &Plain) -> u8
    requires { IsCount by_register number }
    ensures value { result ≡ shift_count_of by_register number plain.now }
    ensures range { result < 64 }
{
    if by_register {
        (plain.d[number as usize] % COUNTS) as u8
    } else {
        number
    }
}

/// A shift or rotate of a data register.
pub(crate) fn shift_register(
    kind: ShiftKind,
    is_left: bool,
    size: Size,
    by_register: bool,
    number: u8,
    register: u8,
    plain: &mut Plain,
)
    requires number { IsCount by_register number }
    requires register { register < 8 }
    ensures { plain.new
        ≡ shift_register_of kind is_left size (shift_count_of by_register number plain.old) register plain.old }
{
    let count = shift_count(by_register, number, plain);
    let value = plain.d[register as usize];
    let shifted = shift(kind, is_left, size, count, value, plain.ccr);
    put_in_register(register, size, shifted, plain);
}
