//! Big-endian numbers of 1, 2 or 4 bytes in a slice of bytes.

ghost use Rattle.std.specs.Prelude.{◌≡◌, ◌+◌, ◌<◌, ◌≤◌, ◌^◌, length};
ghost use Rattle.mb_port.specs.Pieces.{IsLength};
ghost use Rattle.mb_walk.specs.Memory.{number_at, overwritten, with_number};

use byteorder::{BigEndian, ByteOrder};

/// The number of 1, 2 or 4 bytes that stands at a place.
#[inline(always)]
pub fn number_at(bytes: &[u8], at: usize, len: u8) -> u32
    requires size { IsLength len }
    requires inside { at + len ≤ length bytes.now }
    ensures value { result ≡ number_at bytes.now at len }
    ensures range { result < 256 ^ len }
{
    let bytes = &bytes[at..];
    match len {
        1 => u32::from(bytes[0]),
        2 => u32::from(BigEndian::read_u16(bytes)),
        _ => BigEndian::read_u32(bytes),
    }
}

/// Writes the low 1, 2 or 4 bytes of a number.
#[inline(always)]
pub fn set_number_at(bytes: &mut [u8], at: usize, len: u8, value: u32)
    requires size { IsLength len }
    requires inside { at + len ≤ length bytes.old }
    ensures { bytes.new ≡ with_number bytes.old at len value }
{
    match len {
        1 => bytes[at] = (value % 0x100) as u8,
        2 => BigEndian::write_u16(&mut bytes[at..at + 2], (value % 0x1_0000) as u16),
        _ => BigEndian::write_u32(&mut bytes[at..at + 4], value),
    }
}

/// Writes other bytes from a place on.
pub fn overwrite(bytes: &mut [u8], at: usize, with: &[u8])
    requires { at + length with.now ≤ length bytes.old }
    ensures { bytes.new ≡ overwritten bytes.old at with.now }
{
    bytes[at..at + with.len()].copy_from_slice(with);
}
