//! The sixteen conditions.

ghost use Rattle.std.specs.Prelude.{◌≡◌};
ghost use Rattle.def_instructions.specs.Conditions.{is_less, is_met};

use mb_alu::Conditions;
use mb_instr::Condition;

/// N and V differ.
#[inline(always)]
fn is_less(codes: Conditions) -> bool
    ensures { result ≡ is_less codes }
{
    codes.n && !codes.v || !codes.n && codes.v
}

/// Whether a condition holds by these condition codes: the manual's table of conditional tests.
#[inline(always)]
pub fn is_met(condition: Condition, ccr: u8) -> bool
    ensures { result ≡ is_met condition ccr }
{
    let codes = Conditions::of(ccr);
    match condition {
        Condition::True => true,
        Condition::False => false,
        Condition::High => !codes.c && !codes.z,
        Condition::LowOrSame => codes.c || codes.z,
        Condition::CarryClear => !codes.c,
        Condition::CarrySet => codes.c,
        Condition::NotEqual => !codes.z,
        Condition::Equal => codes.z,
        Condition::OverflowClear => !codes.v,
        Condition::OverflowSet => codes.v,
        Condition::Plus => !codes.n,
        Condition::Minus => codes.n,
        Condition::GreaterOrEqual => !is_less(codes),
        Condition::LessThan => is_less(codes),
        Condition::GreaterThan => !codes.z && !is_less(codes),
        Condition::LessOrEqual => codes.z || is_less(codes),
    }
}
