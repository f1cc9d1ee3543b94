//! Statements as they are listed.

ghost use Rattle.std.specs.Prelude.{◌≡◌, ◌≤◌, length};
ghost use Rattle.mb_statement.specs.Answers.{operands_said};

use arrayvec::ArrayVec;
use mb_syntax::{Operand, SizeLetter};

/// At most three operands.
#[derive(Drop)]
pub enum Operands {
    Nothing,
    One([Operand<i64>; 1]),
    Two([Operand<i64>; 2]),
    Three([Operand<i64>; 3]),
}

impl Operands {
    pub fn as_slice(&self) -> &[Operand<i64>]
        ensures operands { result.now ≡ operands_said self.now }
        ensures few { length result.now ≤ 3 }
    {
        match self {
            Operands::Nothing => &[],
            Operands::One(operands) => operands,
            Operands::Two(operands) => operands,
            Operands::Three(operands) => operands,
        }
    }
}

/// A name of at most eight bytes.
pub type Name = ArrayVec<u8, 8>;

/// The name of an operation, its size where one is written, and its operands.
#[derive(Drop)]
pub struct Statement {
    pub name: Name,
    pub size: Option<SizeLetter>,
    pub operands: Operands,
}
