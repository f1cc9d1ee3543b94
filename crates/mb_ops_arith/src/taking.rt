//! Operands that are only read.

ghost use Rattle.std.specs.Prelude.{◌≡◌, ◌<◌};
ghost use Rattle.mb_port.specs.Routine.{run};
ghost use Rattle.mb_instr.specs.Operands.{IsEa};
ghost use Rattle.def_instructions.specs.Arithmetic.{take_of};
ghost use Rattle.mb_ops_arith.specs.Effects.{effect_of, IsEffect};
ghost use Rattle.mb_operands.specs.Endings.{carried_by};

use crate::direct::at_hand;
use crate::operations::Sum;
use crate::products::{divide_long, divide_word, multiply_long, multiply_word};
use mb_alu::{LogicKind, compare, logic};
use mb_instr::{Ea, Plain, Size};
use mb_operands::{Stream, Undone, fetch_operand, unread};
use mb_port::Port;
use mb_writes::Ended;

/// What becomes of an operand that is only read.
#[derive(Clone, Copy)]
pub(crate) enum Effect {
    /// The condition codes are those of a move.
    Test,
    /// An address register moves by the operand, which is extended by its sign.
    MoveAddress(Sum, u8),
    /// The operand, extended by its sign, is compared with an address register.
    CompareAddress(u8),
    MultiplyWord { is_signed: bool, register: u8 },
    /// By its word, `0lll sw00 0000 0hhh`.
    MultiplyLong(u16),
    DivideWord { is_signed: bool, register: u8 },
    /// By its word, `0lll sw00 0000 0hhh`.
    DivideLong(u16),
}

impl Effect {
    /// Does what it says by the operand's value.
    #[inline(always)]
    fn apply(
        self,
        size: Size,
        value: u32,
        plain: &mut Plain,
        ended: &mut Ended,
    ) -> Result<(), Undone>
        requires { IsEffect self }
        ensures means { carried_by result ended.new plain.new ≡ effect_of self size value plain.old }
    {
        match self {
            Effect::Test => plain.ccr = logic(LogicKind::Pass, size, value, 0, plain.ccr).ccr,
            Effect::MoveAddress(sum, register) => {
                let n = register as usize;
                plain.a[n] = sum.moved(plain.a[n], size.sign_extend(value));
            }
            Effect::CompareAddress(register) => {
                let extended = size.sign_extend(value);
                plain.ccr = compare(Size::Long, extended, plain.a[register as usize], plain.ccr);
            }
            Effect::MultiplyWord {
                is_signed,
                register,
            } => multiply_word(is_signed, register, value, plain),
            Effect::MultiplyLong(word) => multiply_long(word, value, plain),
            Effect::DivideWord {
                is_signed,
                register,
            } => return divide_word(is_signed, register, value, plain, ended),
            Effect::DivideLong(word) => return divide_long(word, value, plain, ended),
        }
        Ok(())
    }
}

/// Reads an operand, wherever it stands, and does by it what the effect says.
#[inline(never)]
fn take_operand<P: Port>(
    effect: Effect,
    size: Size,
    ea: &Ea,
    stream: Stream,
    plain: &mut Plain,
    port: &mut P,
    ended: &mut Ended,
) -> Result<(), Undone>
    requires operand { IsEa size ea.now }
    requires effect { IsEffect effect }
    ensures means { run P.bus (take_of (effect_of effect size) size ea.now stream.at stream.space plain.old)
        (P.world port.old) ≡ (carried_by result ended.new plain.new, P.world port.new) }
    ensures rest { P.rest port.new ≡ P.rest port.old }
{
    let operand = match fetch_operand(size, ea, stream, plain, port) {
        Ok(operand) => operand,
        Err(refused) => return Err(unread(&refused, ended)),
    };
    effect.apply(size, operand.value, plain, ended)
}

/// Reads an operand, whose first extension word is at `stream.at`, and does by it what the effect says.
#[inline(always)]
#[tactic(auto, using(crate::proofs::WithoutBus::without_bus))]
pub(crate) fn take<P: Port>(
    effect: Effect,
    size: Size,
    ea: &Ea,
    stream: Stream,
    plain: &mut Plain,
    port: &mut P,
    ended: &mut Ended,
) -> Result<(), Undone>
    requires operand { IsEa size ea.now }
    requires effect { IsEffect effect }
    ensures means { run P.bus (take_of (effect_of effect size) size ea.now stream.at stream.space plain.old)
        (P.world port.old) ≡ (carried_by result ended.new plain.new, P.world port.new) }
    ensures rest { P.rest port.new ≡ P.rest port.old }
{
    if let Some(value) = at_hand(size, ea, plain) {
        return effect.apply(size, value, plain, ended);
    }
    take_operand(effect, size, ea, stream, plain, port, ended)
}
