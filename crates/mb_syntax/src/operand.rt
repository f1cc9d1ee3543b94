//! Operands.

use crate::mode::Mode;
use crate::word::Name;
use mb_instr::{Caches, ControlRegister};

/// A bit field's offset or width.
#[derive(Drop)]
pub enum FieldNumber<E> {
    /// `Dn`.
    Data(u8),
    Number(E),
}

/// `{o:w}`.
#[derive(Drop)]
pub struct BitField<E> {
    pub offset: FieldNumber<E>,
    pub width: FieldNumber<E>,
}

/// An operand as it is written. `E` is what stands for an expression.
#[derive(Drop)]
pub enum Operand<E> {
    Mode(Mode<E>),
    /// `ea{o:w}`.
    Field { mode: Mode<E>, field: BitField<E> },
    /// `SR`.
    Sr,
    /// `CCR`.
    Ccr,
    /// A control register, `USP` among them.
    Control(ControlRegister),
    /// A register list with at least one `/` or `-`: bits 0 to 7 for D0 to D7, and 8 to 15 for A0 to A7.
    List(u16),
    /// `Dh:Dl`, the numbers in the order in which they are written.
    Pair(u8, u8),
    /// `(Rn):(Rn)`; 0 to 7 are D0 to D7, and 8 to 15 A0 to A7.
    IndirectPair(u8, u8),
    /// `NC`, `DC`, `IC` or `BC`, as the first operand of CINVL, CINVP, CINVA, CPUSHL, CPUSHP or CPUSHA.
    Caches(Caches),
    /// A text with its quotation marks, for DC.B.
    Text(Name),
}
