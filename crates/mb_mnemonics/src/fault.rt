//! Why a statement means no instruction.

use thiserror::Error;

/// Why a statement means no instruction. The first that holds, in this order, is told.
#[derive(Clone, Copy, Debug, PartialEq, Eq, Error)]
pub enum MeansFault {
    /// No line of the table has the name.
    #[error("name")]
    Name,
    /// No line with the name has the size and the operands.
    #[error("operand")]
    Operand,
    /// A number is out of its range, or a target out of reach.
    #[error("range")]
    Range,
}
