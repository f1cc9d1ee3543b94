//! Statements.

use crate::expression::Expression;
use crate::operand::Operand;
use crate::word::Name;

/// What stands behind the dot of an operation's name, in either case.
#[derive(Clone, Copy)]
pub enum SizeLetter {
    /// `.B`.
    Byte,
    /// `.S`, which branches have for `.B`.
    Short,
    /// `.W`.
    Word,
    /// `.L`.
    Long,
}

/// An instruction or a directive.
#[derive(Drop)]
pub struct Operation {
    pub name: Name,
    pub size: Option<SizeLetter>,
    pub operands: Vec<Operand<Expression>>,
}

/// What a line says. A line of blanks or a comment has neither part.
#[derive(Drop)]
pub struct Statement {
    /// No register's name, and at most 63 bytes long.
    pub label: Option<Name>,
    pub operation: Option<Operation>,
}
