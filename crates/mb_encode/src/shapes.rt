//! What rows of the table have in common.
ghost use Rattle.std.specs.Prelude.{◌≡◌};
ghost use Rattle.mb_instr.specs.Operands.{mode, lower};
ghost use Rattle.mb_instr.specs.Shapes.{op, on_condition, bare, with_word, with_long, with_ruled};
ghost use Rattle.mb_instr.specs.Shapes.{at_ea, word_ea, immediate_ea, when};
ghost use Rattle.mb_encode.specs.Spellings.{head, row_of};

use crate::spelling::{Further, Head, Spelling};
use crate::writing::{lower, mode};
use mb_instr::{Condition, Ea, Opcode, OperandClass, Size, WordRule};

/// A first word, from bit 15 on.
pub fn op(line: u8, upper: u8, bit: u8, size: u8, mode: u8, lower: u8) -> Opcode
    ensures { result ≡ op line upper bit size mode lower }
{
    Opcode {
        line,
        upper,
        bit,
        size,
        mode,
        lower,
    }
}

/// A first word with a condition in bits 11 to 8.
pub fn on_condition(line: u8, condition: Condition, size: u8, mode: u8, lower: u8) -> Opcode
    ensures { result ≡ on_condition line condition size mode lower }
{
    op(
        line,
        condition.bits() / 2,
        condition.bits() % 2,
        size,
        mode,
        lower,
    )
}

/// A first word before its operand, from bit 15 on.
pub fn head(line: u8, upper: u8, bit: u8, size: u8) -> Head
    ensures { result ≡ head line upper bit size }
{
    Head {
        line,
        upper,
        bit,
        size,
    }
}

impl Head {
    /// The first word with the operand.
    fn at(self, ea: Ea) -> Opcode
        ensures { result ≡ op self.line self.upper self.bit self.size (mode ea) (lower ea) }
    {
        op(
            self.line,
            self.upper,
            self.bit,
            self.size,
            mode(&ea),
            lower(&ea),
        )
    }
}

/// A first word alone.
pub fn bare(opcode: Opcode) -> Spelling
    ensures { row_of result ≡ bare opcode }
{
    Spelling {
        is_legal: true,
        opcode,
        further: Further::Nothing,
    }
}

/// A first word and a word.
pub fn with_word(opcode: Opcode, word: u16) -> Spelling
    ensures { row_of result ≡ with_word opcode word }
{
    Spelling {
        is_legal: true,
        opcode,
        further: Further::Word(word),
    }
}

/// A first word and a long.
pub fn with_long(opcode: Opcode, value: u32) -> Spelling
    ensures { row_of result ≡ with_long opcode value }
{
    Spelling {
        is_legal: true,
        opcode,
        further: Further::Long(value),
    }
}

/// A first word and a word with fixed bits.
pub fn with_ruled(rule: WordRule, opcode: Opcode, word: u16) -> Spelling
    ensures { row_of result ≡ with_ruled rule opcode word }
{
    Spelling {
        is_legal: rule.allows(word),
        opcode,
        further: Further::Word(word),
    }
}

/// A first word and its operand.
pub fn at_ea(class: OperandClass, size: Size, head: Head, ea: Ea) -> Spelling
    ensures { row_of result ≡ at_ea class size head.line head.upper head.bit head.size ea }
{
    Spelling {
        is_legal: class.allows(size, mode(&ea), lower(&ea)),
        opcode: head.at(ea),
        further: Further::Operand(size, ea),
    }
}

/// A first word, a word with fixed bits, and the operand.
pub fn word_ea(
    rule: WordRule,
    class: OperandClass,
    size: Size,
    head: Head,
    word: u16,
    ea: Ea,
) -> Spelling
    ensures { row_of result ≡ word_ea rule class size head.line head.upper head.bit head.size word ea }
{
    Spelling {
        is_legal: rule.allows(word) && class.allows(size, mode(&ea), lower(&ea)),
        opcode: head.at(ea),
        further: Further::WordOperand(word, size, ea),
    }
}

/// A first word with its size, an immediate of the size, and the operand.
pub fn immediate_ea(class: OperandClass, upper: u8, size: Size, immediate: u32, ea: Ea) -> Spelling
    ensures { row_of result ≡ immediate_ea class 0 upper 0 size immediate ea }
{
    Spelling {
        is_legal: class.allows(size, mode(&ea), lower(&ea)),
        opcode: head(0, upper, 0, size.bits()).at(ea),
        further: Further::ImmediateOperand(immediate, size, ea),
    }
}

/// A row for some values alone.
pub fn when(test: bool, row: Spelling) -> Spelling
    ensures { row_of result ≡ when test (row_of row) }
{
    Spelling {
        is_legal: test && row.is_legal,
        opcode: row.opcode,
        further: row.further,
    }
}
