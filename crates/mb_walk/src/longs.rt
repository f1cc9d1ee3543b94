//! Big-endian longs in a slice of bytes.

ghost use Rattle.std.specs.Prelude.{◌≡◌, ◌+◌, ◌≤◌, ◌<◌, ◌^◌, length};
ghost use Rattle.mb_walk.specs.Memory.{number_at, with_number, AreBytes};

use byteorder::{BigEndian, ByteOrder};

/// The long that stands at a place.
#[inline(always)]
pub fn long_at(bytes: &[u8], at: usize) -> u32
    requires { at + 4 ≤ length bytes.now }
    ensures { result ≡ number_at bytes.now at 4 }
{
    BigEndian::read_u32(&bytes[at..])
}

/// Sets it.
#[inline(always)]
pub fn set_long_at(bytes: &mut [u8], at: usize, value: u32)
    requires { at + 4 ≤ length bytes.old }
    ensures { bytes.new ≡ with_number bytes.old at 4 value }
{
    BigEndian::write_u32(&mut bytes[at..at + 4], value);
}

/// How many bytes there are.
#[inline(always)]
pub fn size_of(bytes: &[u8]) -> u32
    requires { length bytes.now < 2 ^ 32 }
    ensures size { result ≡ length bytes.now }
    ensures bytes { AreBytes bytes.now }
{
    bytes.len() as u32
}
