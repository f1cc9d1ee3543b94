//! Condition codes.

ghost use Rattle.std.specs.Prelude.{◌≡◌};
ghost use Rattle.mb_alu.specs.Conditions.{conditions_of, ccr_of};

/// The condition codes one by one.
#[derive(Clone, Copy, PartialEq, Eq)]
pub struct Conditions {
    /// Extend: the carry of arithmetic over several operands.
    pub x: bool,
    /// Negative.
    pub n: bool,
    /// Zero.
    pub z: bool,
    /// Overflow.
    pub v: bool,
    /// Carry, or borrow.
    pub c: bool,
}

/// A result with the condition codes after it.
#[derive(Clone, Copy, PartialEq, Eq)]
pub struct Flagged {
    /// Of an operand shorter than a long, the bytes above it are 0.
    pub value: u32,
    /// X, N, Z, V and C in bits 4 to 0.
    pub ccr: u8,
}

impl Conditions {
    /// Those of a condition code register. Bits 7 to 5 do not count.
    #[inline(always)]
    #[tactic(auto, unfolding(crate::specs::Conditions::conditions_of))]
    pub fn of(ccr: u8) -> Conditions
        ensures { result ≡ conditions_of ccr }
    {
        Conditions {
            x: ccr >> 4 & 1 == 1,
            n: ccr >> 3 & 1 == 1,
            z: ccr >> 2 & 1 == 1,
            v: ccr >> 1 & 1 == 1,
            c: ccr & 1 == 1,
        }
    }

    /// The condition code register: X, N, Z, V and C in bits 4 to 0.
    #[inline(always)]
    pub fn ccr(self) -> u8
        ensures { result ≡ ccr_of self }
    {
        let high = (u8::from(self.x) << 1 | u8::from(self.n)) << 1 | u8::from(self.z);
        (high << 1 | u8::from(self.v)) << 1 | u8::from(self.c)
    }
}
