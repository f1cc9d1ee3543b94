//! EXG of data registers, and BTST of one.

ghost use Rattle.std.specs.Prelude.{◌≡◌, ◌<◌, false};
ghost use Rattle.mb_instr.specs.declared.size.Size.TheVariants.{Long};
ghost use Rattle.mb_instr.specs.declared.kinds.BitKind.TheVariants.{Test};
ghost use Rattle.mb_instr.specs.declared.kinds.Exchange.TheVariants as exchange;
ghost use Rattle.mb_instr.specs.declared.operand.Ea.TheVariants.{Dn};
ghost use Rattle.mb_instr.specs.declared.instruction.Instr.TheVariants as instr;
ghost use Rattle.mb_instr.specs.declared.instruction.Arith.TheVariants as arith_row;
ghost use Rattle.mb_instr.specs.declared.instruction.Move.TheVariants as move_row;
ghost use Rattle.def_instructions.specs.Bits.{change_bit_of};
ghost use Rattle.mb_short.specs.declared.changed.Changed.TheVariants.{Nothing};
ghost use Rattle.mb_short.specs.Changed.{Differ};
ghost use Rattle.mb_short.specs.Taken.{Goes};

use crate::places::{pass_one, pass_two};
use mb_alu::Conditions;
use mb_instr::{Plain, Size};
use mb_port::{Port, Space};

/// EXG at PC of two data registers.
#[inline(always)]
#[tactic(auto, using(crate::proofs::Exchanges::exchanges))]
pub(crate) fn exchange_data<P: Port>(
    register: u8,
    other: u8,
    space: Space,
    plain: &mut Plain,
    port: &P,
)
    requires register { register < 8 }
    requires other { other < 8 }
    ensures { Goes P.bus (instr.Move (move_row.Exg register exchange.Data other)) 1 space plain.old (P.world port.now)
        false plain.new (P.world port.now) }
{
    let (first, second) = (plain.d[register as usize], plain.d[other as usize]);
    pass_one(plain);
    plain.d[register as usize] = second;
    plain.d[other as usize] = first;
}

/// The condition codes once a bit of a long was tested: Z is its complement.
#[inline(always)]
#[tactic(auto, unfolding(def_instructions::specs::Bits::change_bit_of))]
fn tested(number: u32, value: u32, ccr: u8) -> u8
    ensures { result ≡ (change_bit_of Test number Long value ccr).ccr }
{
    let codes = Conditions {
        z: value >> (number % 32) & 1 == 0,
        ..Conditions::of(ccr)
    };
    codes.ccr()
}

/// BTST at PC of a data register, where the bit's number is the second word.
#[inline(always)]
#[tactic(auto, using(crate::proofs::Exchanges::exchanges))]
pub(crate) fn test_bit<P: Port>(
    register: u8,
    number: u16,
    space: Space,
    plain: &mut Plain,
    port: &P,
)
    requires { register < 8 }
    ensures means { Goes P.bus (instr.Arith (arith_row.BitImm Test (Dn register) number)) 2 space plain.old
        (P.world port.now) false plain.new (P.world port.now) }
    ensures differ { Differ Nothing plain.old plain.new }
{
    let value = Size::Long.low(plain.d[register as usize]);
    pass_two(plain);
    plain.ccr = tested(u32::from(number), value, plain.ccr);
}
