//! How much of an operand counts.

ghost use Rattle.std.specs.Prelude.{◌≡◌, ◌<◌};
ghost use Rattle.mb_instr.specs.Sizes.{low_of, values_of, sign_extended};
ghost use Rattle.mb_instr.specs.Sizes.{bytes_of, size_bits, size_of, move_bits, move_size, long_bit, size_of_bit};
ghost use Rattle.mb_instr.specs.Sizes.{chk_bits, not_byte};

/// How much of an operand counts.
#[derive(Clone, Copy, Debug, PartialEq, Eq)]
pub enum Size {
    Byte,
    Word,
    Long,
}

impl Size {
    /// How many bytes: 1, 2 or 4.
    #[inline(always)]
    pub fn bytes(self) -> u8
        ensures { result ≡ bytes_of self }
    {
        match self {
            Size::Byte => 1,
            Size::Word => 2,
            Size::Long => 4,
        }
    }

    /// The low bytes of `value` that count.
    #[inline(always)]
    pub fn low(self, value: u32) -> u32
        ensures value { result ≡ low_of self value }
        ensures range { result < values_of self }
    {
        match self {
            Size::Byte => value & 0xff,
            Size::Word => value & 0xffff,
            Size::Long => value,
        }
    }

    /// The low bytes of `value` that count, extended by their sign.
    #[inline(always)]
    pub fn sign_extend(self, value: u32) -> u32
        ensures { result ≡ sign_extended self value }
    {
        let low = self.low(value);
        match self {
            Size::Byte if low >= 0x80 => low + 0xffff_ff00,
            Size::Word if low >= 0x8000 => low + 0xffff_0000,
            Size::Byte | Size::Word | Size::Long => low,
        }
    }

    /// The size field of most rows.
    #[inline(always)]
    pub fn bits(self) -> u8
        ensures value { result ≡ size_bits self }
        ensures small { result < 3 }
    {
        match self {
            Size::Byte => 0,
            Size::Word => 1,
            Size::Long => 2,
        }
    }

    /// The size that the size field of most rows says.
    #[inline(always)]
    pub fn of(field: u8) -> Option<Size>
        ensures { result ≡ size_of field }
    {
        match field {
            0 => Some(Size::Byte),
            1 => Some(Size::Word),
            2 => Some(Size::Long),
            _ => None,
        }
    }

    /// The size field of MOVE, which is 1 to 3.
    #[inline(always)]
    pub fn move_bits(self) -> u8
        ensures value { result ≡ move_bits self }
        ensures small { result < 4 }
    {
        match self {
            Size::Byte => 1,
            Size::Word => 3,
            Size::Long => 2,
        }
    }

    /// The size that MOVE's line says.
    #[inline(always)]
    pub fn of_move(line: u8) -> Size
        ensures { result ≡ move_size line }
    {
        match line {
            1 => Size::Byte,
            2 => Size::Long,
            _ => Size::Word,
        }
    }

    /// The bit of rows that have words and longs alone.
    #[inline(always)]
    pub fn long_bit(self) -> u8
        ensures value { result ≡ long_bit self }
        ensures small { result < 2 }
    {
        match self {
            Size::Byte | Size::Word => 0,
            Size::Long => 1,
        }
    }

    /// The size that such a bit says.
    #[inline(always)]
    pub fn of_bit(bit: u8) -> Size
        ensures { result ≡ size_of_bit bit }
    {
        if bit == 0 { Size::Word } else { Size::Long }
    }

    /// The size field of CHK.
    #[inline(always)]
    pub fn chk_bits(self) -> u8
        ensures value { result ≡ chk_bits self }
        ensures small { result < 3 }
    {
        match self {
            Size::Byte | Size::Long => 0,
            Size::Word => 2,
        }
    }

    /// Whether rows that have words and longs alone have the size.
    #[inline(always)]
    pub fn is_not_byte(self) -> bool
        ensures { result ≡ not_byte self }
    {
        match self {
            Size::Byte => false,
            Size::Word | Size::Long => true,
        }
    }
}
