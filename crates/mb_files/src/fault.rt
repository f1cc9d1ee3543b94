//! Why a file is not read.

use mb_asm::AsmKind;
use mb_script::LineWhy;
use mb_srec::RecordWhy;

/// Why a line of a file does not stand.
#[derive(Clone, Copy, PartialEq, Eq)]
pub enum Reason {
    /// It is no record of an image, or stands where it may not.
    Record(RecordWhy),
    /// It is no line of a script, of a session file or of a debugger's commands.
    Words(LineWhy),
    /// It is no line of a source, or what it says cannot be assembled.
    Source(AsmKind),
    /// With it the text begins no snapshot.
    Snapshot,
}

/// Why a file is refused, whatever it is read as.
#[derive(Clone, Copy, PartialEq, Eq)]
pub enum FileWhy {
    /// It has more bytes than a file of its kind may have.
    TooLong,
    /// The line of this number, counted from 1, does not stand.
    Line { number: u32, why: Reason },
    /// A byte of data has this address, which is not in RAM, or not on the disk.
    Outside { at: u32 },
    /// No record ends the image.
    NoEnd,
    /// The session has no guest of this number.
    NoGuest { guest: u8 },
}

/// Why a file was not read.
#[derive(Drop)]
pub enum FileFault {
    /// The file of this name is refused.
    Refused(String, FileWhy),
    /// The shelf failed at the file of this name.
    Unread(String),
    /// Memory ran out.
    Memory,
}
