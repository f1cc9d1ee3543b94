//! The operands that a line of the table has.

use crate::range::Range;
use mb_instr::{OperandClass, Size};

/// Where a register's number goes.
#[derive(Clone, Copy)]
pub enum Place {
    /// Bits 11 to 9 of the first word.
    X,
    /// Bits 2 to 0 of the first word.
    Y,
    /// Bits 15 to 12 of the word behind the first, where an address register has bit 15 set.
    Upper,
    /// Bits 8 to 6 of that word.
    Middle,
    /// Bits 2 to 0 of that word.
    Lower,
    /// `Upper` and `Lower`.
    Both,
}

/// An operand of a line, and what it says of the instruction.
#[derive(Clone, Copy)]
pub enum Pattern {
    /// An addressing mode of the class.
    Mode(OperandClass),
    /// The same, for MOVE's destination.
    Destination(OperandClass),
    /// An addressing mode of the class other than `Dn`.
    Memory(OperandClass),
    /// `Dn` as an addressing mode.
    DataMode,
    /// `ea{o:w}`, with an addressing mode of the class.
    FieldMode(OperandClass),
    /// `Dn`.
    Data(Place),
    /// `An`.
    Address(Place),
    /// `Dn` or `An`.
    Register(Place),
    /// `(An)`.
    Indirect(Place),
    /// `(An)+`.
    PostIncrement(Place),
    /// `-(An)`.
    PreDecrement(Place),
    /// `#e`, an immediate of the operation's size.
    Immediate,
    /// `#e`, a number in the first word.
    Quick(Range),
    /// `#e`, the word behind the first.
    WordNumber,
    /// `#e`, a displacement of the size, which is listed with its sign.
    Distance(Size),
    /// The address that a branch goes to, with a displacement of the size.
    Target(Size),
    /// A register list, or one register.
    RegisterList,
    /// The same, spelled in the other order, with A7 first, as before `-(An)`.
    ReversedList,
    /// `(d16,An)`, as MOVEP has it.
    Displaced,
    /// `e` or `e.L`, as MOVE16 has it.
    Absolute,
    /// `SR`.
    Sr,
    /// `CCR`.
    Ccr,
    /// `USP`.
    Usp,
    /// A control register.
    Control,
    /// `Dh:Dl`, the first register's place and the second's.
    Pair(Place, Place),
    /// `Dn:Dm`, the first register for the first word behind the opcode, and the second for the second.
    Pairs(Place),
    /// `(Rn):(Rm)`, likewise.
    IndirectPairs,
    /// `NC`, `DC`, `IC` or `BC`.
    Caches,
}
