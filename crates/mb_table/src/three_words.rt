//! Instructions of three words that were decoded lately.

ghost use Rattle.std.specs.Prelude.{◌≡◌, ◌<◌, [], ◌∷◌, IfSome, length, All};
ghost use Rattle.mb_instr.specs.Codes.{IsInstr};
ghost use Rattle.mb_decode.specs.declared.front.Decoded.TheVariants.{Whole};
ghost use Rattle.mb_decode.specs.Decodes.{decode_of};
ghost use Rattle.mb_table.specs.ThreeWords.{IsRight};

use mb_instr::Instr;
use std::alloc::{AllocError, Global};
use std::marker::Model;

/// How many are kept.
const SLOTS: usize = 2048;

/// Three words, and the instruction that they are, where it is known.
#[derive(Clone, Copy)]
pub struct Three {
    first: u16,
    second: u16,
    third: u16,
    instruction: Option<Instr>,
}

const NOTHING: Three = Three {
    first: 0,
    second: 0,
    third: 0,
    instruction: None,
};

/// Instructions of three words that were decoded lately, each where its words lead. Nothing is seen of which.
#[derive(Drop)]
pub struct ThreeWords {
    slots: Vec<Three>,
}

impl Model for ThreeWords {
    ghost use Rattle.std.specs.Prelude.{◌≡◌, ⊤, length};
    ghost use Rattle.std.specs.List.{All};
    ghost use Rattle.mb_table.specs.ThreeWords.{IsRight};
    ghost use Rattle.mb_table.specs.declared.three_words.TheConstants.{SLOTS};

    ghost Value = { ⊤ };

    ghost view = { λ _. tt };

    ghost invariant = { λ t. (length t.slots.items ≡ SLOTS) × All IsRight t.slots.items };
}

/// Where three words lead.
#[inline(always)]
fn slot(first: u16, second: u16, third: u16) -> usize
    ensures { result < SLOTS }
{
    let front = u32::from(first).wrapping_mul(2531) ^ u32::from(second);
    (front.wrapping_mul(331) ^ u32::from(third)) as usize % SLOTS
}

/// Keeps an instruction in its place.
fn put(kept: &mut Three, first: u16, second: u16, third: u16, instruction: &Instr)
    requires means { decode_of (first ∷ second ∷ third ∷ []) ≡ Whole instruction.now 3 }
    requires valid { IsInstr instruction.now }
    ensures { IsRight kept.new }
{
    *kept = Three {
        first,
        second,
        third,
        instruction: Some(*instruction),
    };
}

impl ThreeWords {
    /// Nothing kept. It takes all the memory that it will need.
    pub fn new(alloc: Global) -> Result<ThreeWords, AllocError> {
        let slots = vec![in alloc; NOTHING; SLOTS]?;
        Ok(ThreeWords { slots })
    }

    /// The instruction that the three words are, where it is kept.
    #[inline(always)]
    pub fn find(&self, first: u16, second: u16, third: u16) -> Option<&Instr>
        ensures means { IfSome result (λ i. decode_of (first ∷ second ∷ third ∷ []) ≡ Whole i.now 3) }
        ensures valid { IfSome result (λ i. IsInstr i.now) }
    {
        let kept = &self.slots[slot(first, second, third)];
        if kept.first == first && kept.second == second && kept.third == third {
            kept.instruction.as_ref()
        } else {
            None
        }
    }

    /// Keeps the instruction that the three words are.
    pub fn keep(&mut self, first: u16, second: u16, third: u16, instruction: &Instr)
        requires means { decode_of (first ∷ second ∷ third ∷ []) ≡ Whole instruction.now 3 }
        requires valid { IsInstr instruction.now }
    {
        put(
            &mut self.slots[slot(first, second, third)],
            first,
            second,
            third,
            instruction,
        );
    }
}
