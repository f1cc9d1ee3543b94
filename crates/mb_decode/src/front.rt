//! The instruction at the front of some words.

ghost use Rattle.std.specs.Prelude.{◌≡◌, ◌-◌, ◌≤◌, ◌∷◌, length};
ghost use Rattle.mb_instr.specs.declared.instruction.Instr.{Instr};
ghost use Rattle.mb_instr.specs.Codes.{IsInstr};
ghost use Rattle.mb_decode.specs.Decodes.{decode_of, decode_from, no_row, told, Decodes, IfWhole, OnMore};
ghost use Rattle.mb_decode.specs.Decodes.{AllDecoded, OneAnswer, ReadAgain, OneSpelling, NoneBegins};
ghost use Rattle.mb_instr.specs.declared.counts.TheConstants.{MOST_WORDS};

use crate::reading::Stop;
use crate::rows::row;
use mb_instr::{Flow, Instr, Opcode};

/// What some words begin with.
#[derive(Clone, Copy, Debug)]
pub enum Decoded {
    /// An instruction, and how many words it takes: 1 to 11.
    Whole(Instr, u8),
    /// Less than a whole instruction: more words can complete it.
    More,
    /// No instruction, whatever follows, and the first word's top digit is neither $A nor $F.
    Illegal,
    /// No instruction, whatever follows, and the first word's top digit is $A.
    LineA,
    /// No instruction, whatever follows, and the first word's top digit is $F.
    LineF,
}

/// What some words begin with, where the instruction is in a place of its own.
#[derive(Clone, Copy)]
pub enum Decoding {
    /// That instruction, and how many words it takes: 1 to 11.
    Whole(u8),
    /// As [`Decoded::More`].
    More,
    /// As [`Decoded::Illegal`].
    Illegal,
    /// As [`Decoded::LineA`].
    LineA,
    /// As [`Decoded::LineF`].
    LineF,
}

/// The instruction at the front of the words. Words behind it are not looked at.
#[tactic(auto, unfolding(crate::specs::Decodes::decode_of))]
pub fn decode(words: &[u16]) -> Decoded
    ensures means { result ≡ decode_of words.now }
    ensures decodes { Decodes words.now result }
    ensures length { IfWhole result (λ i n. (1 ≤ n) × (n ≤ MOST_WORDS)) }
    ensures unfinished { OnMore result (length words.now ≤ MOST_WORDS - 1) }
    ensures valid { IfWhole result (λ i n. IsInstr i) }
{
    match words {
        [] => Decoded::More,
        [first, rest @ ..] => decode_from(*first, rest),
    }
}

/// The instruction that a first word begins.
fn decode_from(first: u16, rest: &[u16]) -> Decoded
    ensures { result ≡ decode_of (first ∷ rest.now) }
{
    let mut instruction = Instr::Flow(Flow::Nop);
    match decode_into(first, rest, &mut instruction) {
        Decoding::Whole(length) => Decoded::Whole(instruction, length),
        Decoding::More => Decoded::More,
        Decoding::Illegal => Decoded::Illegal,
        Decoding::LineA => Decoded::LineA,
        Decoding::LineF => Decoded::LineF,
    }
}

/// Decodes a first word and the words behind it as [`decode`] does, and puts a whole instruction into its place, where
/// the caller has it without a copy. Where there is none, what stands there then is left open.
pub fn decode_into(first: u16, rest: &[u16], instruction: &mut Instr) -> Decoding
    ensures means { told result instruction.new ≡ decode_of (first ∷ rest.now) }
    ensures decodes { Decodes (first ∷ rest.now) (told result instruction.new) }
    ensures length { IfWhole (told result instruction.new) (λ i n. (1 ≤ n) × (n ≤ MOST_WORDS)) }
    ensures unfinished { OnMore (told result instruction.new) (length (first ∷ rest.now) ≤ MOST_WORDS - 1) }
    ensures valid { IfWhole (told result instruction.new) (λ i n. IsInstr i) }
{
    put_from(first, rest, instruction)
}

/// Puts the instruction that a first word begins.
#[inline(always)]
#[tactic(auto, unfolding(crate::specs::Decodes::decode_of))]
fn put_from(first: u16, rest: &[u16], instruction: &mut Instr) -> Decoding
    ensures { told result instruction.new ≡ decode_of (first ∷ rest.now) }
{
    match row(Opcode::of(first), rest) {
        Ok((whole, after)) => {
            *instruction = whole;
            let length = 1 + (rest.len() - after.len());
            Decoding::Whole(length as u8)
        }
        Err(Stop::More) => Decoding::More,
        Err(Stop::Illegal) => no_row(first),
    }
}

/// What a first word without a row is.
#[inline(always)]
fn no_row(first: u16) -> Decoding
    ensures { (i : Instr) → told result i ≡ no_row first }
{
    match first >> 12 {
        0xa => Decoding::LineA,
        0xf => Decoding::LineF,
        _ => Decoding::Illegal,
    }
}

/// The table as a language: no words have two answers, a spelling is read as its instruction, an
/// instruction has at most one spelling, and no spelling begins another.
pub fn spellings()
    ensures all_decoded { AllDecoded }
    ensures one_answer { OneAnswer }
    ensures read_again { ReadAgain }
    ensures one_spelling { OneSpelling }
    ensures none_begins { NoneBegins }
{}
