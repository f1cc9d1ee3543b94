//! Single bits of words and longs.

ghost use Rattle.std.specs.Prelude.{◌≡◌, ◌<◌};
ghost use Rattle.mb_port.specs.Bits.{has_bit};

/// Whether a word has a bit, which is a power of two.
#[inline(always)]
pub fn word_has(word: u16, bit: u16) -> bool
    requires { 0 < bit }
    ensures { result ≡ has_bit word bit }
{
    word / bit % 2 == 1
}

/// Whether a long has a bit, which is a power of two.
#[inline(always)]
pub fn long_has(long: u32, bit: u32) -> bool
    requires { 0 < bit }
    ensures { result ≡ has_bit long bit }
{
    long / bit % 2 == 1
}
