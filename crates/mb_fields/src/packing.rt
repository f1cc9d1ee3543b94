//! Packed digits.

ghost use Rattle.std.specs.Prelude.{◌≡◌};
ghost use Rattle.mb_fields.specs.Packing.{pack_of, unpk_of};

/// The byte of the two digits of `x + adjust`: bits 11 to 8 and 3 to 0.
pub fn pack(x: u16, adjust: u16) -> u8
    ensures { result ≡ pack_of x adjust }
{
    let sum = x.wrapping_add(adjust);
    ((sum >> 8 & 0xF) << 4 | sum & 0xF) as u8
}

/// The digits of `x` in bits 11 to 8 and 3 to 0, and `adjust` added to that.
pub fn unpk(x: u8, adjust: u16) -> u16
    ensures { result ≡ unpk_of x adjust }
{
    let digits = u16::from(x >> 4) << 8 | u16::from(x & 0xF);
    digits.wrapping_add(adjust)
}
