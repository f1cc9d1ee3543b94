//! What two words begin with, where they came lately.

ghost use Rattle.std.specs.Prelude.{◌≡◌, ◌<◌, [], ◌∷◌, IfSome, length, All};
ghost use Rattle.mb_instr.specs.Codes.{IsInstr};
ghost use Rattle.mb_decode.specs.Decodes.{decode_of, IfWhole};
ghost use Rattle.mb_table.specs.LongerWords.{IsRight};

use mb_decode::{Decoded, decode};
use std::alloc::{AllocError, Global};
use std::marker::Model;

/// How many are kept.
const SLOTS: usize = 8192;

/// Two words, and what they begin with.
#[derive(Clone, Copy)]
pub struct Longer {
    first: u16,
    second: u16,
    decoded: Decoded,
}

/// What two words begin with that were decoded lately, each where its words lead. Nothing is seen of which.
#[derive(Drop)]
pub struct LongerWords {
    slots: Vec<Longer>,
}

impl Model for LongerWords {
    ghost use Rattle.std.specs.Prelude.{◌≡◌, ⊤, length};
    ghost use Rattle.std.specs.List.{All};
    ghost use Rattle.mb_table.specs.LongerWords.{IsRight};
    ghost use Rattle.mb_table.specs.declared.longer_words.TheConstants.{SLOTS};

    ghost Value = { ⊤ };

    ghost view = { λ _. tt };

    ghost invariant = { λ t. (length t.slots.items ≡ SLOTS) × All IsRight t.slots.items };
}

/// Where two words lead.
#[inline(always)]
fn slot(first: u16, second: u16) -> usize
    ensures { result < SLOTS }
{
    (u32::from(first).wrapping_mul(2531) ^ u32::from(second)) as usize % SLOTS
}

/// Two words 0, decoded: every place begins with them.
fn zeros() -> Longer
    ensures { IsRight result }
{
    Longer {
        first: 0,
        second: 0,
        decoded: decode(&[0, 0]),
    }
}

/// Keeps in its place what two words begin with.
fn put(kept: &mut Longer, first: u16, second: u16, decoded: Decoded)
    requires means { decoded ≡ decode_of (first ∷ second ∷ []) }
    requires valid { IfWhole decoded (λ i n. IsInstr i) }
    ensures { IsRight kept.new }
{
    *kept = Longer {
        first,
        second,
        decoded,
    };
}

impl LongerWords {
    /// Nothing is kept but two words 0. It takes all the memory that it will need.
    pub fn new(alloc: Global) -> Result<LongerWords, AllocError> {
        let slots = vec![in alloc; zeros(); SLOTS]?;
        Ok(LongerWords { slots })
    }

    /// What the two words begin with, where it is kept.
    #[inline(always)]
    pub fn find(&self, first: u16, second: u16) -> Option<&Decoded>
        ensures means { IfSome result (λ d. d.now ≡ decode_of (first ∷ second ∷ [])) }
        ensures valid { IfSome result (λ d. IfWhole d.now (λ i n. IsInstr i)) }
    {
        let kept = &self.slots[slot(first, second)];
        if kept.first == first && kept.second == second {
            Some(&kept.decoded)
        } else {
            None
        }
    }

    /// Keeps what the two words begin with.
    pub fn keep(&mut self, first: u16, second: u16, decoded: Decoded)
        requires means { decoded ≡ decode_of (first ∷ second ∷ []) }
        requires valid { IfWhole decoded (λ i n. IsInstr i) }
    {
        put(&mut self.slots[slot(first, second)], first, second, decoded);
    }
}
