//! What one line says by itself.

ghost use Rattle.std.specs.Prelude.{◌≡◌, ◌≤◌, ◌<◌, ◌^◌, IsTrue, Ok, length};
ghost use Rattle.std.specs.Option.{ok_or};
ghost use Rattle.mb_srec.specs.declared.fault.RecordWhy.TheVariants as why;
ghost use Rattle.mb_srec.specs.declared.record.RecordFault.TheVariants.{Memory};
ghost use Rattle.mb_srec.specs.Kinds.{address_len};
ghost use Rattle.mb_srec.specs.Records.{Data, address_of, bytes_of, checksum_of, data_of, has_its_length};
ghost use Rattle.mb_srec.specs.Records.{meaning_of, record_of, said_by};
ghost use Rattle.mb_srec.specs.Answers.{GivesAlone, said};

use crate::fault::RecordWhy;
use crate::image::Chunk;
use crate::kind::Kind;
use byteorder::{BigEndian, ByteOrder};
use hex::FromHexError;
use std::alloc::{AllocError, Global};

/// What a record says.
#[derive(Drop)]
pub(crate) enum Record {
    Header,
    Data(Chunk),
    /// So many data records came before.
    Count(u32),
    End,
}

/// Why a line has no record.
#[derive(Clone, Copy)]
pub(crate) enum RecordFault {
    Memory,
    Why(RecordWhy),
}

impl From<AllocError> for RecordFault {
    ghost from_gives = { λ _ fault. fault ≡ Memory };

    fn from(_: AllocError) -> RecordFault {
        RecordFault::Memory
    }
}

/// The record that stands in a line.
pub(crate) fn record_of(alloc: Global, line: &[u8]) -> Result<Record, RecordFault>
    ensures { GivesAlone said result (record_of line.now) }
{
    match line {
        [b'S', digit, digits @ ..] => {
            let Some(kind) = Kind::of_digit(*digit) else {
                return Err(RecordFault::Why(RecordWhy::Kind));
            };
            let bytes = bytes_of(alloc, digits)?;
            meaning_of(alloc, kind, &bytes)
        }
        _ => Err(RecordFault::Why(RecordWhy::Kind)),
    }
}

/// The bytes that pairs of digits spell.
fn bytes_of(alloc: Global, digits: &[u8]) -> Result<Vec<u8>, RecordFault>
    ensures { GivesAlone (λ bytes. bytes.items) result (ok_or (bytes_of digits.now) why.Digits) }
{
    match hex::decode(alloc, digits) {
        Ok(bytes) => Ok(bytes),
        Err(FromHexError::OutOfMemory) => Err(RecordFault::Memory),
        Err(_) => Err(RecordFault::Why(RecordWhy::Digits)),
    }
}

/// What a record with these bytes, from its count byte to its checksum, says.
fn meaning_of(alloc: Global, kind: Kind, bytes: &[u8]) -> Result<Record, RecordFault>
    ensures { GivesAlone said result (meaning_of kind bytes.now) }
{
    if !has_its_length(kind, bytes) {
        return Err(RecordFault::Why(RecordWhy::Length));
    }
    let last = bytes.len() - 1;
    if bytes[last] != checksum_of(&bytes[..last]) {
        return Err(RecordFault::Why(RecordWhy::Sum));
    }
    said_by(alloc, kind, bytes)
}

/// What bytes of the right length and checksum say.
fn said_by(alloc: Global, kind: Kind, bytes: &[u8]) -> Result<Record, RecordFault>
    requires { IsTrue (has_its_length kind bytes.now) }
    ensures { GivesAlone said result (Ok (said_by kind bytes.now)) }
{
    match kind {
        Kind::S0 => Ok(Record::Header),
        Kind::S1 | Kind::S2 | Kind::S3 => data_record(alloc, kind, bytes),
        Kind::S5 | Kind::S6 => Ok(Record::Count(address_of(kind, bytes))),
        Kind::S7 | Kind::S8 | Kind::S9 => Ok(Record::End),
    }
}

fn data_record(alloc: Global, kind: Kind, bytes: &[u8]) -> Result<Record, RecordFault>
    requires { IsTrue (has_its_length kind bytes.now) }
    ensures { GivesAlone said result (Ok (Data (address_of kind bytes.now) (data_of kind bytes.now))) }
{
    let data = &bytes[1 + kind.address_len()..bytes.len() - 1];
    let chunk = Chunk::new(address_of(kind, bytes), Vec::from_slice(alloc, data)?);
    Ok(Record::Data(chunk))
}

/// The address, or the count in its place: big-endian behind the count byte.
fn address_of(kind: Kind, bytes: &[u8]) -> u32
    requires { address_len kind < length bytes.now }
    ensures { result ≡ address_of kind bytes.now }
{
    let address = &bytes[1..];
    match kind {
        Kind::S0 | Kind::S1 | Kind::S5 | Kind::S9 => u32::from(BigEndian::read_u16(address)),
        Kind::S2 | Kind::S6 | Kind::S8 => BigEndian::read_u24(address),
        Kind::S3 | Kind::S7 => BigEndian::read_u32(address),
    }
}

/// The count is that of the bytes after it, they have room for address and checksum, and there are
/// data only where the kind holds some.
fn has_its_length(kind: Kind, bytes: &[u8]) -> bool
    ensures tested { result ≡ has_its_length kind bytes.now }
    ensures short { IsTrue result → length bytes.now ≤ 256 }
{
    match bytes {
        [] => false,
        [count, rest @ ..] => {
            let count = usize::from(*count);
            count == rest.len()
                && kind.address_len() < count
                && (kind.may_hold_data() || count == kind.address_len() + 1)
        }
    }
}

/// The ones' complement of the low byte of the sum.
pub(crate) fn checksum_of(bytes: &[u8]) -> u8
    requires { length bytes.now < 2 ^ 16 }
    ensures { result ≡ checksum_of bytes.now }
{
    let sum: u32 = bytes.iter().map(|&byte| u32::from(byte)).sum();
    255 - (sum % 256) as u8
}
