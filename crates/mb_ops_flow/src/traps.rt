//! TRAP, TRAPcc and TRAPV.

ghost use Rattle.std.specs.Prelude.{◌≡◌, ◌<◌};
ghost use Rattle.def_instructions.specs.Traps.{trap_of, trapcc_of, trapv_of};
ghost use Rattle.mb_operands.specs.Endings.{performed_by};

use mb_instr::vectors::{CONDITION_MET, FIRST_TRAP};
use mb_instr::{Condition, Plain};
use mb_operands::{Undone, is_met, trapped};
use mb_writes::Ended;

/// TRAP.
#[inline(always)]
pub fn trap(number: u8, plain: &Plain, ended: &mut Ended) -> Result<bool, Undone>
    requires { number < 16 }
    ensures means { performed_by result ended.new plain.now ≡ trap_of number plain.now }
{
    Err(trapped(FIRST_TRAP + number, ended))
}

/// TRAPcc, whose operand is passed over: a trap where the condition is met.
#[inline(always)]
pub fn trapcc(condition: Condition, plain: &Plain, ended: &mut Ended) -> Result<bool, Undone>
    ensures means { performed_by result ended.new plain.now ≡ trapcc_of condition plain.now }
{
    if is_met(condition, plain.ccr) {
        Err(trapped(CONDITION_MET, ended))
    } else {
        Ok(false)
    }
}

/// TRAPV: a trap on overflow.
#[inline(always)]
pub fn trapv(plain: &Plain, ended: &mut Ended) -> Result<bool, Undone>
    ensures means { performed_by result ended.new plain.now ≡ trapv_of plain.now }
{
    trapcc(Condition::OverflowSet, plain, ended)
}
