//! Lines of the devices.

ghost use Rattle.std.specs.Prelude.{◌≡◌, codes};
ghost use Rattle.mb_spelling.specs.Admits.{may_of};
ghost use Rattle.mb_spelling.specs.Reads.{Reads, lines_to};
ghost use Rattle.vm_snapshot.specs.Guests.{count, devices as devices_of, long as long_of, status as status_of};
ghost use Rattle.vm_snapshot.specs.Views.{devices_seen};

use crate::line::long;
use mb_spelling::{Numbers, Reader, Stop};

/// The registers of the devices.
#[derive(Clone, Copy)]
pub(crate) struct Devices {
    pub(crate) ctrl: u32,
    pub(crate) status: u32,
    pub(crate) period: u32,
    pub(crate) count: u32,
    pub(crate) pending: u32,
}

/// 0 or 1.
pub(crate) const BIT: Numbers = Numbers::OneOf(0, 1);

/// What STATUS can be: bit 0 where a byte is queued, bit 1, and bit 2 or not.
fn status(queue: &[u8]) -> Numbers
    ensures { may_of result ≡ status_of queue.now }
{
    match queue {
        [] => Numbers::OneOf(2, 6),
        _ => Numbers::OneOf(3, 7),
    }
}

/// What COUNT can be.
fn counts(period: u32) -> Numbers
    ensures { may_of result ≡ count period }
{
    Numbers::Within(u128::from(period.min(1)), u128::from(period))
}

/// Reads STATUS.
fn read_status(reader: &mut Reader, queue: &[u8]) -> Result<u32, Stop>
    ensures reads { Reads (λ n. n) result reader.new.left
        ((long_of (codes "STATUS") (status_of queue.now)).read reader.old.left) }
    ensures lines { lines_to reader.new ≡ lines_to reader.old }
{
    long(reader, b"STATUS ", &status(queue))
}

/// Reads COUNT.
fn read_count(reader: &mut Reader, period: u32) -> Result<u32, Stop>
    ensures reads { Reads (λ n. n) result reader.new.left
        ((long_of (codes "COUNT") (count period)).read reader.old.left) }
    ensures lines { lines_to reader.new ≡ lines_to reader.old }
{
    long(reader, b"COUNT ", &counts(period))
}

/// Reads the registers of the devices beside such a queue.
pub(crate) fn read_devices(reader: &mut Reader, queue: &[u8]) -> Result<Devices, Stop>
    ensures reads { Reads devices_seen result reader.new.left ((devices_of queue.now).read reader.old.left) }
    ensures lines { lines_to reader.new ≡ lines_to reader.old }
{
    let ctrl = long(reader, b"CTRL ", &BIT)?;
    let status = read_status(reader, queue)?;
    let period = long(reader, b"PERIOD ", &Numbers::Any)?;
    let count = read_count(reader, period)?;
    let pending = long(reader, b"PENDING ", &BIT)?;
    Ok(Devices {
        ctrl,
        status,
        period,
        count,
        pending,
    })
}
