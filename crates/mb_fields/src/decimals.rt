//! Decimal arithmetic.

ghost use Rattle.std.specs.Prelude.{◌≡◌, ◌<◌, ◌^◌};
ghost use Rattle.mb_fields.specs.Decimals.{decimal_flagged, abcd_of, sbcd_of, nbcd_of, IsDecimal, IsDecimalSum, IsDecimalDifference};

use mb_alu::{Conditions, Flagged};

/// A byte with the condition codes after it: X and C take the carry or borrow, and 0 leaves Z.
#[inline(always)]
fn with_conditions(value: u8, carry: bool, ccr: u8) -> Flagged
    ensures means { result ≡ decimal_flagged value carry ccr }
    ensures bound { result.value < 2 ^ 8 }
{
    let codes = Conditions {
        x: carry,
        n: value >= 0x80,
        z: value == 0 && Conditions::of(ccr).z,
        v: false,
        c: carry,
    };
    Flagged {
        value: u32::from(value),
        ccr: codes.ccr(),
    }
}

/// `x + y + X`, two digits each. A carry of the tens goes to X and C.
pub fn abcd(x: u8, y: u8, ccr: u8) -> Flagged
    ensures means { result ≡ abcd_of x y ccr }
    ensures bound { result.value < 2 ^ 8 }
    ensures decimal { IsDecimal x → IsDecimal y → IsDecimalSum x y ccr result }
{
    let (x, y) = (u32::from(x), u32::from(y));
    let extend = u32::from(Conditions::of(ccr).x);
    let past_units = (x & 0xF) + (y & 0xF) + extend > 9;
    let sum = x + y + extend + 6 * u32::from(past_units);
    let carry = sum > 0x9F;
    let value = (sum + 0x60 * u32::from(carry)) & 0xFF;
    with_conditions(value as u8, carry, ccr)
}

/// `y - x - X`, two digits each. A borrow of the tens goes to X and C.
pub fn sbcd(x: u8, y: u8, ccr: u8) -> Flagged
    ensures means { result ≡ sbcd_of x y ccr }
    ensures bound { result.value < 2 ^ 8 }
    ensures decimal { IsDecimal x → IsDecimal y → IsDecimalDifference x y ccr result }
{
    let (x, y) = (u32::from(x), u32::from(y));
    let extend = u32::from(Conditions::of(ccr).x);
    let below_units = (y & 0xF) < (x & 0xF) + extend;
    let borrow = y < x + extend;
    let taken = x + extend + 6 * u32::from(below_units) + 0x60 * u32::from(borrow);
    // Two bytes' values more, so that nothing goes below 0.
    let value = (0x200 + y - taken) & 0xFF;
    with_conditions(value as u8, borrow, ccr)
}

/// `0 - y - X`, two digits each.
#[inline(always)]
pub fn nbcd(y: u8, ccr: u8) -> Flagged
    ensures means { result ≡ nbcd_of y ccr }
    ensures bound { result.value < 2 ^ 8 }
    ensures decimal { IsDecimal y → IsDecimalDifference y 0 ccr result }
{
    sbcd(y, 0, ccr)
}
