//! Whole numbers of up to 64 bits and a sign.

ghost use Rattle.std.specs.Prelude.{◌≡◌, ◌*◌, ◌%◌, ◌^◌, ◌<◌, ◌≤◌, ◌*ℤ◌, int_div, int_rem};
ghost use Rattle.mb_alu.specs.Signs.{integer_of, fits, modulo};
ghost use Rattle.mb_alu.specs.Products.{short_values, short_of, long_of};
ghost use Rattle.mb_alu.specs.Wholes.{whole_of};

use crate::width::Width;

/// A whole number. The magnitude 0 may have either sign.
#[derive(Clone, Copy)]
pub(crate) struct Whole {
    pub(crate) negative: bool,
    pub(crate) magnitude: u64,
}

impl Whole {
    /// Reads a number below twice `half` unsigned, or signed in two's complement.
    #[inline(always)]
    fn read(signed: bool, half: u64, value: u64) -> Whole
        requires { value < 2 * half }
        ensures value { whole_of result ≡ integer_of signed (2 * half) value }
        ensures bound { result.magnitude ≤ value }
        ensures nonzero { 0 < value → 0 < result.magnitude }
    {
        if signed && value >= half {
            Whole {
                negative: true,
                magnitude: half - (value - half),
            }
        } else {
            Whole {
                negative: false,
                magnitude: value,
            }
        }
    }

    /// Reads a factor or a divisor.
    #[inline(always)]
    pub(crate) fn short(signed: bool, width: Width, value: u32) -> Whole
        ensures value { whole_of result ≡ short_of signed width value }
        ensures bound { result.magnitude < 2 ^ 32 }
        ensures nonzero { 0 < value % short_values width → 0 < result.magnitude }
    {
        match width {
            Width::Word => Whole::read(signed, 0x8000, u64::from(value & 0xFFFF)),
            Width::Long | Width::Wide => Whole::read(signed, 0x8000_0000, u64::from(value)),
        }
    }

    /// Reads a dividend.
    #[inline(always)]
    pub(crate) fn long(signed: bool, width: Width, value: u64) -> Whole
        ensures { whole_of result ≡ long_of signed width value }
    {
        match width {
            Width::Word | Width::Long => Whole::read(signed, 0x8000_0000, value & 0xFFFF_FFFF),
            Width::Wide => Whole::read(signed, 0x8000_0000_0000_0000, value),
        }
    }

    /// The low 64 bits, in two's complement.
    #[inline(always)]
    pub(crate) fn bits(self) -> u64
        ensures { result ≡ modulo (2 ^ 64) (whole_of self) }
    {
        if self.negative {
            self.magnitude.wrapping_neg()
        } else {
            self.magnitude
        }
    }

    /// Whether it is among the numbers below twice `half`, read unsigned or signed.
    #[inline(always)]
    fn is_within(self, signed: bool, half: u64) -> bool
        requires low { 0 < half }
        requires high { half < 2 ^ 32 }
        ensures { result ≡ fits signed (2 * half) (whole_of self) }
    {
        if !signed {
            self.magnitude < 2 * half && (!self.negative || self.magnitude == 0)
        } else if self.negative {
            self.magnitude <= half
        } else {
            self.magnitude < half
        }
    }

    /// Whether it can be a factor or a quotient of the width.
    #[inline(always)]
    pub(crate) fn fits(self, signed: bool, width: Width) -> bool
        ensures { result ≡ fits signed (short_values width) (whole_of self) }
    {
        match width {
            Width::Word => self.is_within(signed, 0x8000),
            Width::Long | Width::Wide => self.is_within(signed, 0x8000_0000),
        }
    }

    /// The product.
    #[inline(always)]
    pub(crate) fn times(self, other: Whole) -> Whole
        requires left { self.magnitude < 2 ^ 32 }
        requires right { other.magnitude < 2 ^ 32 }
        ensures { whole_of result ≡ whole_of self *ℤ whole_of other }
    {
        Whole {
            negative: self.negative != other.negative,
            magnitude: self.magnitude * other.magnitude,
        }
    }

    /// The quotient, cut towards zero.
    #[inline(always)]
    pub(crate) fn quotient(self, divisor: Whole) -> Whole
        requires { 0 < divisor.magnitude }
        ensures { whole_of result ≡ int_div (whole_of self) (whole_of divisor) }
    {
        Whole {
            negative: self.negative != divisor.negative,
            magnitude: self.magnitude / divisor.magnitude,
        }
    }

    /// The remainder, with the sign of the dividend.
    #[inline(always)]
    pub(crate) fn remainder(self, divisor: Whole) -> Whole
        requires { 0 < divisor.magnitude }
        ensures { whole_of result ≡ int_rem (whole_of self) (whole_of divisor) }
    {
        Whole {
            negative: self.negative,
            magnitude: self.magnitude % divisor.magnitude,
        }
    }
}
