//! What is written is read again.

ghost use Rattle.std.specs.Prelude.{◌≡◌, ℕ, List, length, IfOk, OnErr};
ghost use Rattle.mb_instr.specs.Codes.{IsInstr, Codes};
ghost use Rattle.mb_decode.specs.declared.front.Decoded.TheVariants.{Whole};

use mb_decode::{Decoded, decode};
use mb_encode::{Unencodable, encode};
use mb_instr::Instr;

/// Reads the words that spell the instruction: the instruction itself, with the number of its words. The error says
/// that no row of the table has the value.
pub fn read_back(i: &Instr) -> Result<Decoded, Unencodable>
    ensures whole { IfOk result (λ d. (w : List ℕ) × Codes i.now w × (d ≡ Whole i.now (length w))) }
    ensures none { OnErr result (IsInstr i.now → ⊥) }
{
    match encode(i) {
        Ok(words) => Ok(decode(words.as_slice())),
        Err(none) => Err(none),
    }
}

/// Whether an instruction is written with these words.
fn is_written(instruction: &Instr, words: &[u16]) -> bool {
    match encode(instruction) {
        Ok(written) => words == written.as_slice(),
        Err(_) => false,
    }
}

/// Whether the instruction that a first word begins, with words of zeros behind it, is written as it was read, and what
/// is read of that too.
fn is_written_again(first: u16) -> bool {
    let words = [first, 0, 0, 0, 0, 0, 0, 0, 0, 0, 0];
    let Decoded::Whole(instruction, length) = decode(&words) else {
        return true;
    };
    let Some(words) = words.get(..usize::from(length)) else {
        return false;
    };
    match read_back(&instruction) {
        Ok(Decoded::Whole(again, count)) => count == length
            && is_written(&instruction, words)
            && is_written(&again, words),
        _ => false,
    }
}

#[test]
fn each_first_word_is_written_again(rt: HostRuntime) {
    for first in 0..=u16::MAX {
        assert!(rt; is_written_again(first), "at {first:04x}");
    }
}
