//! Bit fields.

ghost use Rattle.std.specs.Prelude.{◌≡◌, ◌<◌, ◌≤◌, ◌+◌, ◌-◌, ◌^◌};
ghost use Rattle.mb_fields.specs.Fields.{field_get_of, field_put_of, field_first_of};

#[inline(always)]
fn ones(width: u8) -> u64
    requires { width ≤ 40 }
    ensures { result ≡ 2 ^ width - 1 }
{
    (1 << width) - 1
}

/// The field of `width` bits that stands behind the `offset` highest bits of a word of `bits` bits.
pub fn field_get(word: u64, bits: u8, offset: u8, width: u8) -> u32
    requires bits { bits ≤ 40 }
    requires word { word < 2 ^ bits }
    requires some { 1 ≤ width }
    requires width { width ≤ 32 }
    requires inside { offset + width ≤ bits }
    ensures means { result ≡ field_get_of word bits offset width }
    ensures bound { result < 2 ^ width }
{
    (word >> (bits - offset - width) & ones(width)) as u32
}

/// The word with another value in that field. Of the value the low `width` bits count.
pub fn field_put(word: u64, bits: u8, offset: u8, width: u8, value: u32) -> u64
    requires bits { bits ≤ 40 }
    requires word { word < 2 ^ bits }
    requires some { 1 ≤ width }
    requires width { width ≤ 32 }
    requires inside { offset + width ≤ bits }
    ensures means { result ≡ field_put_of word bits offset width value }
    ensures bound { result < 2 ^ bits }
{
    let behind = bits - offset - width;
    let before = word >> (behind + width);
    let field = u64::from(value) & ones(width);
    (before << width | field) << behind | word & ones(behind)
}

/// How many zeros stand before the first one in a field of `width` bits: all of them where it is 0.
pub fn field_first(value: u32, width: u8) -> u8
    requires some { 1 ≤ width }
    requires width { width ≤ 32 }
    requires value { value < 2 ^ width }
    ensures means { result ≡ field_first_of value width }
    ensures bound { result ≤ width }
{
    value.leading_zeros() as u8 - (32 - width)
}
