//! DBcc.

ghost use Rattle.std.specs.Prelude.{◌≡◌, ◌<◌};
ghost use Rattle.def_instructions.specs.Ends.{went};
ghost use Rattle.def_instructions.specs.Flow.{count_down_of, go_if_counted_of, dbcc_of};

use crate::branches::target;
use mb_instr::{Branch, Condition, Plain, Size};
use mb_operands::{is_met, with_low};

/// What the count is after the last turn: -1 as a word.
const NO_MORE: u32 = 0xffff;

/// Makes the low word of a data register less by one.
#[inline(always)]
fn count_down(register: u8, plain: &mut Plain)
    requires { register < 8 }
    ensures { plain.new ≡ count_down_of register plain.old }
{
    let register = register as usize;
    let count = plain.d[register];
    plain.d[register] = with_low(Size::Word, count, count.wrapping_sub(1));
}

/// Counts down, and goes to the target unless the count fell to -1. The answer is whether it does.
#[inline(always)]
fn go_if_counted(register: u8, target: u32, plain: &mut Plain) -> bool
    requires { register < 8 }
    ensures { went result plain.new ≡ go_if_counted_of register target plain.old }
{
    count_down(register, plain);
    let goes = Size::Word.low(plain.d[register as usize]) != NO_MORE;
    if goes {
        plain.pc = target;
    }
    goes
}

/// DBcc: to the next instruction where the condition is met, else one more turn where the count allows it. The answer
/// is whether it changed the flow of control.
#[inline(always)]
pub fn dbcc(
    condition: Condition,
    register: u8,
    displacement: u16,
    word_at: u32,
    plain: &mut Plain,
) -> bool
    requires { register < 8 }
    ensures { went result plain.new ≡ dbcc_of condition register displacement word_at plain.old }
{
    if is_met(condition, plain.ccr) {
        false
    } else {
        go_if_counted(register, target(word_at, Branch::Word(displacement)), plain)
    }
}
