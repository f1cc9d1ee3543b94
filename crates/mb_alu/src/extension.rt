//! Sign extension.

ghost use Rattle.std.specs.Prelude.{◌≡◌, ◌<◌};
ghost use Rattle.mb_instr.specs.Sizes.{values_of};
ghost use Rattle.mb_alu.specs.Extend.{extend_of};

use crate::bitwise::moved;
use crate::conditions::Flagged;
use mb_instr::Size;

/// `x` of the size `from` as a number of the size `to` with the same sign; to a shorter size it is
/// cut. X stays.
#[inline(always)]
pub fn extend(from: Size, to: Size, x: u32, ccr: u8) -> Flagged
    ensures means { result ≡ extend_of from to x ccr }
    ensures bound { result.value < values_of to }
{
    moved(to, from.sign_extend(x), ccr)
}
