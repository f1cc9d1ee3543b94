//! LEA.

ghost use Rattle.std.specs.Prelude.{◌≡◌, ◌+◌, ◌%◌, ◌^◌, ◌<◌, false};
ghost use Rattle.mb_instr.specs.declared.size.Size.TheVariants.{Word};
ghost use Rattle.mb_instr.specs.Sizes.{sign_extended};
ghost use Rattle.mb_ea.specs.Addresses.{sum};
ghost use Rattle.mb_instr.specs.declared.operand.Ea.TheVariants.{Disp, Index, AbsL, PcDisp};
ghost use Rattle.mb_instr.specs.declared.operand.Ext.TheVariants.{Brief};
ghost use Rattle.mb_instr.specs.declared.instruction.Instr.TheVariants as instr;
ghost use Rattle.mb_instr.specs.declared.instruction.Move.TheVariants as move_row;
ghost use Rattle.mb_short.specs.declared.changed.Changed.TheVariants.{Address};
ghost use Rattle.mb_short.specs.Changed.{Differ};
ghost use Rattle.mb_short.specs.Taken.{Goes};

use crate::places::{indexed, near, pass_three, pass_two};
use mb_instr::{Plain, Size};
use mb_port::{Port, Space};

/// LEA at PC of an operand (d16,An), whose displacement is the second word.
#[inline(always)]
#[tactic(auto, using(crate::proofs::Flows::flows, crate::proofs::Changes::changes))]
pub(crate) fn load_near<P: Port>(
    register: u8,
    base: u8,
    displacement: u16,
    space: Space,
    plain: &mut Plain,
    port: &P,
)
    requires register { register < 8 }
    requires base { base < 8 }
    ensures means { Goes P.bus (instr.Move (move_row.Lea register (Disp base displacement))) 2 space plain.old
        (P.world port.now) false plain.new (P.world port.now) }
    ensures differ { Differ (Address register) plain.old plain.new }
{
    plain.a[register as usize] = near(base, displacement, plain);
    pass_two(plain);
}

/// LEA at PC of an absolute address, which the second word and the third are.
#[inline(always)]
#[tactic(auto, using(crate::proofs::Flows::flows, crate::proofs::Changes::changes))]
pub(crate) fn load_absolute<P: Port>(
    register: u8,
    at: u32,
    space: Space,
    plain: &mut Plain,
    port: &P,
)
    requires { register < 8 }
    ensures means { Goes P.bus (instr.Move (move_row.Lea register (AbsL at))) 3 space plain.old (P.world port.now)
        false plain.new (P.world port.now) }
    ensures differ { Differ (Address register) plain.old plain.new }
{
    plain.a[register as usize] = at;
    pass_three(plain);
}

/// The address (d16,PC) of an instruction at PC whose second word is the displacement.
#[inline(always)]
fn from_counter(displacement: u16, plain: &Plain) -> u32
    ensures { result ≡ sum ((plain.now.pc + 2) % 2 ^ 32) (sign_extended Word displacement) }
{
    let second_at = plain.pc.wrapping_add(2);
    second_at.wrapping_add(Size::Word.sign_extend(u32::from(displacement)))
}

/// LEA at PC of an operand (d16,PC), whose displacement is the second word.
#[inline(always)]
#[tactic(auto, using(crate::proofs::Flows::flows, crate::proofs::Changes::changes))]
pub(crate) fn load_from_counter<P: Port>(
    register: u8,
    displacement: u16,
    space: Space,
    plain: &mut Plain,
    port: &P,
)
    requires { register < 8 }
    ensures means { Goes P.bus (instr.Move (move_row.Lea register (PcDisp displacement))) 2 space plain.old
        (P.world port.now) false plain.new (P.world port.now) }
    ensures differ { Differ (Address register) plain.old plain.new }
{
    plain.a[register as usize] = from_counter(displacement, plain);
    pass_two(plain);
}

/// LEA at PC of an operand (d8,An,Xn), whose brief extension word is the second word.
#[inline(always)]
#[tactic(auto, using(crate::proofs::Flows::flows, crate::proofs::Changes::changes))]
pub(crate) fn load_indexed<P: Port>(
    register: u8,
    base: u8,
    word: u16,
    space: Space,
    plain: &mut Plain,
    port: &P,
)
    requires register { register < 8 }
    requires base { base < 8 }
    ensures means { Goes P.bus (instr.Move (move_row.Lea register (Index base (Brief word)))) 2 space plain.old
        (P.world port.now) false plain.new (P.world port.now) }
    ensures differ { Differ (Address register) plain.old plain.new }
{
    plain.a[register as usize] = indexed(base, word, plain);
    pass_two(plain);
}
