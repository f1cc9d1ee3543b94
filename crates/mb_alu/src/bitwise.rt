//! Logic.

ghost use Rattle.std.specs.Prelude.{◌≡◌, ◌<◌};
ghost use Rattle.mb_instr.specs.Sizes.{values_of};
ghost use Rattle.mb_alu.specs.Logic.{moved_of, combined, logic_of};

use crate::bits::{low, sign};
use crate::conditions::{Conditions, Flagged};
use mb_instr::Size;

/// An operation bit by bit.
#[derive(Clone, Copy, Debug, PartialEq, Eq)]
pub enum LogicKind {
    And,
    Or,
    Eor,
    /// The complement of the first operand.
    Not,
    /// The first operand as it is, for its flags.
    Pass,
}

/// A value with the flags of a move: N and Z by the value, V and C clear, X as before.
#[inline(always)]
pub(crate) fn moved(size: Size, value: u32, ccr: u8) -> Flagged
    ensures means { result ≡ moved_of size value ccr }
    ensures bound { result.value < values_of size }
{
    let codes = Conditions {
        x: Conditions::of(ccr).x,
        n: sign(size, value),
        z: low(size, value) == 0,
        v: false,
        c: false,
    };
    Flagged {
        value: low(size, value),
        ccr: codes.ccr(),
    }
}

#[inline(always)]
fn combine(kind: LogicKind, x: u32, y: u32) -> u32
    ensures { result ≡ combined kind x y }
{
    match kind {
        LogicKind::And => y & x,
        LogicKind::Or => y | x,
        LogicKind::Eor => y ^ x,
        LogicKind::Not => !x,
        LogicKind::Pass => x,
    }
}

/// `y` and `x` combined bit by bit, or `x` alone. X stays.
#[inline(always)]
pub fn logic(kind: LogicKind, size: Size, x: u32, y: u32, ccr: u8) -> Flagged
    ensures means { result ≡ logic_of kind size x y ccr }
    ensures bound { result.value < values_of size }
{
    moved(size, combine(kind, x, y), ccr)
}
