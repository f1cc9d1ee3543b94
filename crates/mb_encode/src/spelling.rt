//! What a line of the table says of an instruction.

use mb_instr::{Ea, Opcode, Size};

/// The upper ten bits of a first word, before the six of an operand.
#[derive(Clone, Copy)]
pub struct Head {
    /// Bits 15 to 12.
    pub line: u8,
    /// Bits 11 to 9.
    pub upper: u8,
    /// Bit 8.
    pub bit: u8,
    /// Bits 7 and 6.
    pub size: u8,
}

/// What stands behind the first word.
#[derive(Clone, Copy)]
pub enum Further {
    Nothing,
    Word(u16),
    Words(u16, u16),
    Long(u32),
    /// The words of an operand.
    Operand(Size, Ea),
    /// A word, and the words of an operand.
    WordOperand(u16, Size, Ea),
    /// An immediate, and the words of an operand.
    ImmediateOperand(u32, Size, Ea),
    /// The words of the first operand, and of the second.
    Operands(Size, Ea, Ea),
}

/// How an instruction is spelled.
#[derive(Clone, Copy)]
pub struct Spelling {
    /// Whether the row has the classes of the operands, the fixed bits of the words, and the values of fields
    /// that have a range of their own. It says nothing of what fits the bits.
    pub is_legal: bool,
    /// The first word.
    pub opcode: Opcode,
    pub further: Further,
}
