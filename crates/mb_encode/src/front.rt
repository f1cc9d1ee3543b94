//! The words of an instruction.

ghost use Rattle.std.specs.Prelude.{◌≡◌, IfOk, OnErr};
ghost use Rattle.mb_instr.specs.Rows.{row};
ghost use Rattle.mb_instr.specs.Codes.{IsInstr, Codes, AreWords};
ghost use Rattle.mb_encode.specs.Spellings.{row_of};
ghost use Rattle.mb_encode.specs.Encodes.{Gives, written};

use crate::spelling::Spelling;
use crate::table::{arith_row, flow_row, move_row, system_row};
use crate::writing::{Unencodable, Words, write};
use mb_instr::Instr;

/// The words that spell the instruction. A byte immediate, and the words and displacements that values
/// have, are written as they stand. The error says that no row of the table has the value: a register
/// is above 7, an operand is of no class of the row or has no such size, a fixed bit of a word is
/// wrong, or a number is out of the row's range.
pub fn encode(i: &Instr) -> Result<Words, Unencodable>
    ensures codes { IfOk result (λ v. Codes i.now v.items) }
    ensures row { IfOk result (λ v. IsInstr i.now) }
    ensures none { OnErr result (IsInstr i.now → ⊥) }
{
    match write_row(i) {
        Ok(words) => {
            words_fit(words.as_slice());
            Ok(words)
        }
        Err(none) => Err(none),
    }
}

/// Each word is one: it has 16 bits.
#[inline(always)]
fn words_fit(words: &[u16])
    ensures { AreWords words.now }
{}

fn write_row(i: &Instr) -> Result<Words, Unencodable>
    ensures { Gives (λ v. v.items) result (written (row i.now)) }
{
    write(&spelling(i))
}

fn spelling(i: &Instr) -> Spelling
    ensures { row_of result ≡ row i.now }
{
    match i {
        Instr::Move(i) => move_row(i),
        Instr::Arith(i) => arith_row(i),
        Instr::Flow(i) => flow_row(i),
        Instr::System(i) => system_row(i),
    }
}
