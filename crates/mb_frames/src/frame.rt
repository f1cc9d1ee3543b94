//! Exception frames.

/// A frame on a supervisor stack. `offset` is the vector offset, the low 12 bits of the format word.
#[derive(Clone, Copy, PartialEq, Eq)]
pub enum Frame {
    /// Format $0, 8 bytes: the status register, the program counter and the vector offset.
    Short {
        sr: u16,
        pc: u32,
        offset: u16,
    },
    /// Format $1, 8 bytes: on the interrupt stack, above a frame on the master stack.
    Throwaway {
        sr: u16,
        pc: u32,
        offset: u16,
    },
    /// Format $2, 12 bytes: with the address of the instruction that trapped.
    Address {
        sr: u16,
        pc: u32,
        offset: u16,
        address: u32,
    },
    /// Format $7, 60 bytes: an access error.
    Access {
        sr: u16,
        pc: u32,
        offset: u16,
        access: Access,
    },
}

/// What the frame of an access error holds after the format word, in the order of its bytes.
#[derive(Clone, Copy, Default, PartialEq, Eq)]
pub struct Access {
    /// The effective address: the first byte of the operand that was being accessed.
    pub ea: u32,
    /// The special status word: CT 13, CM 12, MA 11, ATC 10, LK 9, RW 8, SIZE 6-5, TT 4-3, TM 2-0.
    pub ssw: u16,
    /// The status of writeback 3: V 7, SIZE 6-5, TT 4-3, TM 2-0.
    pub wb3s: u16,
    /// The status of writeback 2.
    pub wb2s: u16,
    /// The status of writeback 1.
    pub wb1s: u16,
    /// The fault address: the piece that was refused.
    pub fa: u32,
    /// The address of writeback 3.
    pub wb3a: u32,
    /// The data of writeback 3, in the low bytes.
    pub wb3d: u32,
    /// The address of writeback 2.
    pub wb2a: u32,
    /// The data of writeback 2, in the low bytes.
    pub wb2d: u32,
    /// The address of writeback 1.
    pub wb1a: u32,
    /// The data of writeback 1, where the memory's long has them; of a line, its first long.
    pub wb1d: u32,
    /// The second long of a line; of a MOVEM, the address of the next instruction.
    pub pd1: u32,
    /// The third long of a line; of a MOVEM, its operation and mask words.
    pub pd2: u32,
    /// The fourth long of a line; of a MOVEM, how many transfers are done.
    pub pd3: u32,
}

/// The fields of [`Access`] in the order of the frame. A line says of a field its name, whether it is a word or a long,
/// and its place in the frame. `access_fields!(each, it)` hands all lines to the macro `each`, behind the variable
/// `it`, or behind several.
macro_rules! access_fields {
    ($each:ident, $($it:ident),*) => {
        $each! {
            $($it),*;
            ea: long at 0x08,
            ssw: word at 0x0c,
            wb3s: word at 0x0e,
            wb2s: word at 0x10,
            wb1s: word at 0x12,
            fa: long at 0x14,
            wb3a: long at 0x18,
            wb3d: long at 0x1c,
            wb2a: long at 0x20,
            wb2d: long at 0x24,
            wb1a: long at 0x28,
            wb1d: long at 0x2c,
            pd1: long at 0x30,
            pd2: long at 0x34,
            pd3: long at 0x38,
        }
    };
}

pub(crate) use access_fields;
