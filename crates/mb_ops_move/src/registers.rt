//! EXG and SWAP.

ghost use Rattle.std.specs.Prelude.{◌≡◌, ◌<◌};
ghost use Rattle.def_instructions.specs.Moves.{exchange_registers_of, exg_of, swap_of};

use mb_alu::{LogicKind, logic};
use mb_instr::{Exchange, Plain, Size};

/// Exchanges two of all sixteen registers.
#[inline(always)]
fn exchange_registers(m: u8, n: u8, plain: &mut Plain)
    requires { (m < 16) × (n < 16) }
    ensures { plain.new ≡ exchange_registers_of m n plain.old }
{
    let first = plain.register(m);
    plain.set_register(m, plain.register(n));
    plain.set_register(n, first);
}

/// EXG: two data registers, two address registers, or a data and an address register.
#[inline(always)]
pub fn exg(x: u8, kind: Exchange, y: u8, plain: &mut Plain)
    requires { (x < 8) × (y < 8) }
    ensures { plain.new ≡ exg_of kind x y plain.old }
{
    match kind {
        Exchange::Data => exchange_registers(x, y, plain),
        Exchange::Address => exchange_registers(8 + x, 8 + y, plain),
        Exchange::DataAddress => exchange_registers(x, 8 + y, plain),
    }
}

/// SWAP: the halves of a data register change places.
#[inline(always)]
pub fn swap(register: u8, plain: &mut Plain)
    requires { register < 8 }
    ensures { plain.new ≡ swap_of register plain.old }
{
    let register = register as usize;
    let value = plain.d[register];
    let swapped = value % 0x1_0000 * 0x1_0000 + value / 0x1_0000;
    plain.d[register] = swapped;
    plain.ccr = logic(LogicKind::Pass, Size::Long, swapped, 0, plain.ccr).ccr;
}
