//! How an instruction ends.

use arrayvec::ArrayVec;
use mb_ea::ReadFault;
use mb_frames::Pend;
use mb_port::Fault;

/// A refused write of an operand.
#[derive(Debug, PartialEq, Eq, Drop)]
pub struct WriteFault {
    pub fault: Fault,
    /// The logical address of the operand's first byte.
    pub first: u32,
    /// The pieces that are not written, in order: the refused one and those after it.
    pub rest: ArrayVec<Pend, 3>,
}

/// A refused transfer of a MOVEM.
#[derive(Clone, Copy, Debug, PartialEq, Eq)]
pub struct MovemFault {
    pub fault: Fault,
    /// The logical address of the first transfer.
    pub first: u32,
    /// How many whole transfers were done.
    pub done: u8,
}

/// How an instruction ends.
#[derive(Debug, PartialEq, Eq, Drop)]
pub enum Ended {
    /// Carried out. `flow` says that it is an instruction after which T0 asks for a trace.
    Done { flow: bool },
    /// Carried out, with the exception of this vector.
    Trap(u8),
    /// Not carried out, with the exception of this vector.
    Refused(u8),
    /// A read, or a check of a locked operand, was refused. All registers are as they were before the
    /// instruction.
    ReadFault(ReadFault),
    /// A write was refused. The instruction is otherwise complete.
    WriteFault(WriteFault),
    /// The write of a line was refused. The instruction is otherwise complete.
    LineFault { fault: Fault, line: [u32; 4] },
    /// A transfer was refused. What was loaded stays.
    Movem(MovemFault),
}
