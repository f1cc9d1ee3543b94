//! Quotients.

ghost use Rattle.std.specs.Prelude.{◌≡◌, ◌<◌, ◌%◌, ◌↔◌, true, false};
ghost use Rattle.mb_alu.specs.Products.{divided_of, div_of, has_quotient, short_values, IsBounded, IsDone, IsOverflow, IsZeroDivide};
ghost use Rattle.mb_alu.specs.Wholes.{whole_of};

use crate::conditions::Conditions;
use crate::whole::Whole;
use crate::width::Width;

/// What a division gives.
#[derive(Clone, Copy, PartialEq, Eq)]
pub enum Divided {
    /// Quotient and remainder have 16 bits at [`Width::Word`] and else 32; the bits above are 0.
    Done {
        quotient: u32,
        remainder: u32,
        ccr: u8,
    },
    /// The divisor is 0. The condition codes are given.
    ZeroDivide(u8),
    /// The quotient does not fit. The condition codes are given.
    Overflow(u8),
}

/// The answer of a division whose quotient fits.
#[inline(always)]
fn done(width: Width, quotient: Whole, remainder: Whole, ccr: u8) -> Divided
    ensures means { result ≡ divided_of width (whole_of quotient) (whole_of remainder) ccr }
    ensures bound { IsBounded width result }
{
    let value = width.short(quotient.bits());
    let codes = Conditions {
        x: Conditions::of(ccr).x,
        n: value >= width.short_half(),
        z: value == 0,
        v: false,
        c: false,
    };
    Divided::Done {
        quotient: value as u32,
        remainder: width.short(remainder.bits()) as u32,
        ccr: codes.ccr(),
    }
}

/// `dividend` by `divisor`. The quotient is cut towards zero, and the remainder has the dividend's
/// sign. After an overflow N and Z are as before, after a division by zero all but C.
pub fn div(signed: bool, width: Width, divisor: u32, dividend: u64, ccr: u8) -> Divided
    ensures means { result ≡ div_of signed width divisor dividend ccr }
    ensures bound { IsBounded width result }

    // Each of the three cases, exactly where it comes.
    ensures zero_divide { IsZeroDivide result ↔ (divisor % short_values width ≡ 0) }
    ensures overflow { IsOverflow result
        ↔ ((0 < divisor % short_values width) × (has_quotient signed width divisor dividend ≡ false)) }
    ensures done { IsDone result
        ↔ ((0 < divisor % short_values width) × (has_quotient signed width divisor dividend ≡ true)) }
{
    let before = Conditions::of(ccr);
    if width.short(u64::from(divisor)) == 0 {
        let codes = Conditions { c: false, ..before };
        return Divided::ZeroDivide(codes.ccr());
    }
    let by = Whole::short(signed, width, divisor);
    let from = Whole::long(signed, width, dividend);
    let quotient = from.quotient(by);
    if !quotient.fits(signed, width) {
        let codes = Conditions {
            v: true,
            c: false,
            ..before
        };
        return Divided::Overflow(codes.ccr());
    }
    done(width, quotient, from.remainder(by), ccr)
}
