//! What a line of the table of mnemonics makes of words.

ghost use Rattle.std.specs.Prelude.{◌≡◌, ◌+◌, ◌*◌, ◌/◌, ◌%◌, ◌^◌, ◌≤◌, ◌++◌, IfSome, IsTrue, drop, length, option_map};
ghost use Rattle.mb_mnemonics.specs.Code.{is_short};
ghost use Rattle.mb_mnemonics.specs.Lines.{ending_name, endings, patterns_of, stem_of};
ghost use Rattle.mb_mnemonics.specs.Operands.{operand_words};
ghost use Rattle.mb_statement.specs.Statements as statements;
ghost use Rattle.mb_statement.specs.Answers.{front_said, operands_said, statement_said};

use crate::modes::word_in;
use crate::operands::{Front, front_of, operand_in};
use crate::statement::{Name, Operands, Statement};
use mb_instr::Size;
use mb_mnemonics::{Line, Pattern, Patterns, SizeField, Sizes, ending_name, operand_words};
use mb_syntax::{Operand, SizeLetter};

/// The size that the first word says.
fn size_field(field: SizeField, first: u16) -> Option<Size>
    ensures { result ≡ statements.size_field field first }
{
    let pair = (first >> 9 & 3) as u8;
    match field {
        SizeField::Usual => Size::of((first >> 6 & 3) as u8),
        SizeField::Bit8 => Some(Size::of_bit((first >> 8 & 1) as u8)),
        SizeField::Bit6 => Some(Size::of_bit((first >> 6 & 1) as u8)),
        SizeField::OfMove => match (first >> 12 & 3) as u8 {
            0 => None,
            bits => Some(Size::of_move(bits)),
        },
        SizeField::OfCas => if pair == 0 { None } else { Size::of(pair - 1) },
        SizeField::OfBounds => Size::of(pair),
        SizeField::OfChk => Some(if first >> 7 & 1 == 1 {
            Size::Word
        } else {
            Size::Long
        }),
    }
}

/// The size of a line's statement, by the first word.
fn size_by(sizes: Sizes, first: u16) -> Option<Size>
    ensures { result ≡ statements.size_by sizes first }
{
    match sizes {
        Sizes::Unsized => Some(Size::Long),
        Sizes::Only(size) | Sizes::Written(size) | Sizes::Stated(size) => Some(size),
        Sizes::Short => Some(Size::Byte),
        Sizes::WordLong(field) | Sizes::Any(field) => size_field(field, first),
    }
}

/// The size as it is listed.
fn letter_by(sizes: Sizes, size: Size) -> Option<SizeLetter>
    ensures { result ≡ statements.letter_by sizes size }
{
    match (sizes, size) {
        (Sizes::Unsized | Sizes::Only(_), _) => None,
        (_, Size::Byte) => Some(SizeLetter::Byte),
        (_, Size::Word) => Some(SizeLetter::Word),
        (_, Size::Long) => Some(SizeLetter::Long),
    }
}

/// The name of a line, by the first word.
fn name_by(line: &Line, first: u16) -> Name
    requires { IsTrue (is_short line.now) }
    ensures name { result.items ≡ stem_of line.now.stem ++ ending_name (endings line.now.ending) (first / 2 ^ 8 % 16) }
    ensures short { length result.items ≤ 8 }
{
    let mut name = Name::new();
    let ending = ending_name(line.ending, (first >> 8 & 15) as u8);
    name.try_extend_from_slice(line.stem.letters()).unwrap();
    name.try_extend_from_slice(ending).unwrap();
    name
}

/// The words behind so many.
fn behind(words: &[u16], count: u8) -> &[u16]
    ensures { result.now ≡ drop count words.now }
{
    &words[words.len().min(count as usize)..]
}

/// What the operands of an instruction have in common: its address, its size, and the words before theirs.
#[derive(Clone, Copy)]
struct Common {
    at: u32,
    size: Size,
    front: Front,
}

/// The operand of a pattern, by its own words, which stand here; where those of the next stand, and what is left.
fn next(common: Common, pattern: Pattern, here: u32, own: &[u16]) -> (Operand<i64>, u32, &[u16])
    ensures operand { result.0
        ≡ statements.operand_in pattern common.size common.at here (front_said common.front) own.now }
    ensures here { result.1 ≡ (here + 2 * operand_words pattern common.size result.0) % 2 ^ 32 }
    ensures own { result.2.now ≡ drop (operand_words pattern common.size result.0) own.now }
{
    let operand = operand_in(pattern, common.size, common.at, here, common.front, own);
    let words = operand_words(pattern, common.size, &operand);
    let there = here.wrapping_add(2 * u32::from(words));
    (operand, there, behind(own, words))
}

/// The operands of patterns, of which the first has its own words here.
fn operands_in(patterns: Patterns, common: Common, here: u32, own: &[u16]) -> Operands
    ensures { operands_said result
        ≡ statements.operands_in (patterns_of patterns) common.size common.at here (front_said common.front) own.now }
{
    match patterns {
        Patterns::Nothing => Operands::Nothing,
        Patterns::One(only) => {
            let (operand, _, _) = next(common, only, here, own);
            Operands::One([operand])
        }
        Patterns::Two(first, second) => {
            let (first, here, own) = next(common, first, here, own);
            let (second, _, _) = next(common, second, here, own);
            Operands::Two([first, second])
        }
        Patterns::Three(first, second, third) => {
            let (first, here, own) = next(common, first, here, own);
            let (second, here, own) = next(common, second, here, own);
            let (third, _, _) = next(common, third, here, own);
            Operands::Three([first, second, third])
        }
    }
}

fn statement_in(line: &Line, size: Size, at: u32, words: &[u16]) -> Statement
    requires { IsTrue (is_short line.now) }
    ensures statement { statement_said result ≡ statements.statement_in line.now size at words.now }
    ensures short { length result.name.items ≤ 8 }
{
    let front = front_of(words);
    let here = at.wrapping_add(2 * (1 + u32::from(line.words)));
    let own = behind(words, 1 + line.words);
    Statement {
        name: name_by(line, front.first),
        size: letter_by(line.sizes, size),
        operands: operands_in(line.operands, Common { at, size, front }, here, own),
    }
}

/// Whether the first word has the bits of the line that belong to no field.
pub fn has_bits(line: &Line, first: u16) -> bool
    ensures { result ≡ statements.has_bits line.now first }
{
    first & line.fixed == line.first
}

/// A line's statement of the words at an address, where the first word says a size that the line has. Whether it says
/// just these words is left open.
#[tactic(auto, unfolding(crate::specs::Statements::statement_by))]
pub fn statement_by(line: &Line, at: u32, words: &[u16]) -> Option<Statement>
    requires { IsTrue (is_short line.now) }
    ensures statement { option_map statement_said result ≡ statements.statement_by line.now at words.now }
    ensures short { IfSome result (λ statement. length statement.name.items ≤ 8) }
{
    let size = size_by(line.sizes, word_in(0, words))?;
    Some(statement_in(line, size, at, words))
}
