//! Parts of short forms: operands, and what becomes of them.

use mb_instr::Condition;

/// An operand in memory that an address register names without a further word.
#[derive(Clone, Copy)]
pub enum Place {
    /// `(An)`.
    At(u8),
    /// `(An)+`.
    Up(u8),
    /// `-(An)`.
    Down(u8),
}

/// An operand in a register.
#[derive(Clone, Copy)]
pub enum Register {
    /// `Dn`.
    Data(u8),
    /// `An`.
    Address(u8),
}

/// What becomes of an operand that is only read. The number is that of the register which changes, or with which the
/// operand is compared.
#[derive(Clone, Copy)]
pub enum Taking {
    /// `MOVE` to a data register.
    Move(u8),
    /// `MOVEA`.
    MoveAddress(u8),
    /// `ADD` to a data register.
    Add(u8),
    /// `SUB` from a data register.
    Subtract(u8),
    /// `AND` with a data register, which gets the result.
    And(u8),
    /// `OR` with a data register, which gets the result.
    Or(u8),
    /// `CMP` with a data register.
    Compare(u8),
    /// `ADDA`.
    AddAddress(u8),
    /// `SUBA`.
    SubtractAddress(u8),
    /// `CMPA`.
    CompareAddress(u8),
    /// `TST`.
    Test,
}

/// What is written to an operand that is not read.
#[derive(Clone, Copy)]
pub enum Putting {
    /// `MOVE Dn`.
    Data(u8),
    /// `MOVE An`.
    Address(u8),
    /// `CLR`.
    Zero,
}

/// How a data register changes by itself, by a number or a condition in the first word, or by another data register.
#[derive(Clone, Copy)]
pub enum Change {
    /// `CLR`.
    Clear,
    /// `NEG`.
    Negate,
    /// `NOT`.
    Complement,
    /// `ADDQ`.
    AddQuick(u8),
    /// `SUBQ`.
    SubtractQuick(u8),
    /// `Scc`.
    Set(Condition),
    /// `EOR` of that data register.
    ExclusiveOr(u8),
    /// `ADDX` of that data register.
    AddExtended(u8),
    /// `SUBX` of that data register.
    SubtractExtended(u8),
    /// `LSL` by a count.
    ShiftLeft(u8),
    /// `LSR` by a count.
    ShiftRight(u8),
    /// `ASL` by a count.
    ArithmeticLeft(u8),
    /// `ASR` by a count.
    ArithmeticRight(u8),
    /// `ROL` by a count.
    RotateLeft(u8),
    /// `ROR` by a count.
    RotateRight(u8),
}

/// How an operand in memory changes: by a data register, by a number in the first word, or by itself.
#[derive(Clone, Copy)]
pub enum Update {
    /// `ADD` of that data register.
    Add(u8),
    /// `SUB` of that data register.
    Subtract(u8),
    /// `AND` with that data register.
    And(u8),
    /// `OR` with that data register.
    Or(u8),
    /// `EOR` with that data register.
    ExclusiveOr(u8),
    /// `ADDQ`.
    AddQuick(u8),
    /// `SUBQ`.
    SubtractQuick(u8),
    /// `NEG`.
    Negate,
    /// `NOT`.
    Complement,
}
