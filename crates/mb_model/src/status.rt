//! The status register.

ghost use Rattle.std.specs.Prelude.{◌≡◌};
ghost use Rattle.mb_model.specs.Status.{kept_status};

/// The bits that the status register has: T1, T0, S, M, the interrupt mask, X, N, Z, V and C.
pub const STATUS_BITS: u32 = 0xF71F;

/// The level of the interrupt that no mask holds back.
pub const NON_MASKABLE: u8 = 7;

/// What the status register keeps of the low half of a number.
#[inline(always)]
pub fn kept_status(word: u32) -> u16
    ensures { result ≡ kept_status word }
{
    (word & STATUS_BITS) as u16
}
