//! Products.

ghost use Rattle.std.specs.Prelude.{◌≡◌, ◌<◌};
ghost use Rattle.mb_alu.specs.Products.{long_values, mul_of, overflows};
ghost use Rattle.mb_alu.specs.Wholes.{whole_of};

use crate::conditions::Conditions;
use crate::whole::Whole;
use crate::width::Width;

/// A product with the condition codes after it.
#[derive(Clone, Copy, PartialEq, Eq)]
pub struct Product {
    /// 32 bits, or 64 of [`Width::Wide`]; the bits above are 0.
    pub value: u64,
    /// X, N, Z, V and C in bits 4 to 0.
    pub ccr: u8,
}

/// V: a long product that does not fit.
#[inline(always)]
fn overflow(signed: bool, width: Width, product: Whole) -> bool
    ensures { result ≡ overflows signed width (whole_of product) }
{
    match width {
        Width::Long => !product.fits(signed, width),
        Width::Word | Width::Wide => false,
    }
}

/// `x` times `y`. At [`Width::Long`] the high half of the product is cut, and V says that it mattered.
#[inline(always)]
pub fn mul(signed: bool, width: Width, x: u32, y: u32, ccr: u8) -> Product
    ensures means { result ≡ mul_of signed width x y ccr }
    ensures bound { result.value < long_values width }
{
    let product = Whole::short(signed, width, x).times(Whole::short(signed, width, y));
    let value = width.long(product.bits());
    let codes = Conditions {
        x: Conditions::of(ccr).x,
        n: value >= width.long_half(),
        z: value == 0,
        v: overflow(signed, width, product),
        c: false,
    };
    Product {
        value,
        ccr: codes.ccr(),
    }
}
