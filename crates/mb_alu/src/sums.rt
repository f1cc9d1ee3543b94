//! Sums and differences.

ghost use Rattle.std.specs.Prelude.{◌≡◌, ◌<◌};
ghost use Rattle.mb_instr.specs.Sizes.{values_of};
ghost use Rattle.mb_alu.specs.Sums.{add_of, difference_of, difference_codes, sub_of, compare_of};

use crate::bits::{cut, low, sign};
use crate::conditions::{Conditions, Flagged};
use mb_instr::Size;

/// `y + x`, and X where `extended` (`ADDX`). X becomes the carry.
#[inline(always)]
pub fn add(size: Size, x: u32, y: u32, ccr: u8, extended: bool) -> Flagged
    ensures means { result ≡ add_of size x y ccr extended }
    ensures bound { result.value < values_of size }
{
    let before = Conditions::of(ccr);
    let sum = u64::from(low(size, y)) + u64::from(low(size, x)) + u64::from(extended & before.x);
    let value = cut(size, sum);
    let carry = u64::from(value) != sum;
    let negative = sign(size, value);
    let codes = Conditions {
        x: carry,
        n: negative,
        z: (value == 0) & (!extended | before.z),
        v: (sign(size, x) == sign(size, y)) & (sign(size, x) != negative),
        c: carry,
    };
    Flagged {
        value,
        ccr: codes.ccr(),
    }
}

/// `y - x`, less X where `extended`, with its condition codes.
#[inline(always)]
fn difference(size: Size, x: u32, y: u32, ccr: u8, extended: bool) -> (u32, Conditions)
    ensures value { result.0 ≡ difference_of size x y ccr extended }
    ensures bound { result.0 < values_of size }
    ensures codes { result.1 ≡ difference_codes size x y ccr extended }
{
    let before = Conditions::of(ccr);
    let from = u64::from(low(size, y));
    let taken = u64::from(low(size, x)) + u64::from(extended & before.x);
    let value = cut(size, from + 0x1_0000_0000 - taken);
    let borrow = from < taken;
    let negative = sign(size, value);
    let codes = Conditions {
        x: borrow,
        n: negative,
        z: (value == 0) & (!extended | before.z),
        v: (sign(size, x) != sign(size, y)) & (sign(size, y) != negative),
        c: borrow,
    };
    (value, codes)
}

/// `y - x`, less X where `extended` (`SUBX`, and `NEGX` with `y` 0). X becomes the borrow.
#[inline(always)]
pub fn sub(size: Size, x: u32, y: u32, ccr: u8, extended: bool) -> Flagged
    ensures means { result ≡ sub_of size x y ccr extended }
    ensures bound { result.value < values_of size }
{
    let (value, codes) = difference(size, x, y, ccr, extended);
    Flagged {
        value,
        ccr: codes.ccr(),
    }
}

/// The condition codes of `y - x`. X stays.
#[inline(always)]
pub fn compare(size: Size, x: u32, y: u32, ccr: u8) -> u8
    ensures { result ≡ compare_of size x y ccr }
{
    let (_, codes) = difference(size, x, y, ccr, false);
    let codes = Conditions {
        x: Conditions::of(ccr).x,
        ..codes
    };
    codes.ccr()
}
