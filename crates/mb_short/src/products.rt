//! Products and quotients of longs.

ghost use Rattle.std.specs.Prelude.{◌≡◌, ◌<◌, false, IfSome, IfNone};
ghost use Rattle.mb_instr.specs.declared.operand.Ea.TheVariants.{Dn};
ghost use Rattle.mb_instr.specs.declared.instruction.Instr.TheVariants as instr;
ghost use Rattle.mb_instr.specs.declared.instruction.Arith.TheVariants as arith_row;
ghost use Rattle.mb_short.specs.Taken.{Goes};

use crate::places::pass_two;
use mb_alu::Divided;
use mb_instr::{Plain, Size};
use mb_ops_arith::{divided_long, put_quotient};
use mb_port::{Port, Space};

/// A division at PC by a data register, whose other registers the second word names, where the quotient fits.
#[inline(always)]
pub(crate) fn divide_long<P: Port>(
    source: u8,
    word: u16,
    space: Space,
    plain: &mut Plain,
    port: &P,
) -> Option<bool>
    requires { source < 8 }
    ensures done { IfSome result (λ flow. Goes P.bus (instr.Arith (arith_row.DivL (Dn source) word)) 2 space plain.old
        (P.world port.now) flow plain.new (P.world port.now)) }
    ensures undone { IfNone result (plain.new ≡ plain.old) }
{
    let divisor = Size::Long.low(plain.d[source as usize]);
    let Divided::Done {
        quotient,
        remainder,
        ccr,
    } = divided_long(word, divisor, plain)
    else {
        return None;
    };
    pass_two(plain);
    put_quotient(word, quotient, remainder, ccr, plain);
    Some(false)
}

/// A multiplication at PC by a data register, whose other registers the second word names.
#[inline(always)]
pub(crate) fn multiply_long<P: Port>(
    source: u8,
    word: u16,
    space: Space,
    plain: &mut Plain,
    port: &P,
)
    requires { source < 8 }
    ensures { Goes P.bus (instr.Arith (arith_row.MulL (Dn source) word)) 2 space plain.old (P.world port.now) false
        plain.new (P.world port.now) }
{
    let value = Size::Long.low(plain.d[source as usize]);
    pass_two(plain);
    mb_ops_arith::multiply_long(word, value, plain);
}
