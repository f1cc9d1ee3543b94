//! The short form of each first word.

ghost use Rattle.std.specs.Prelude.{◌≡◌, ◌<◌, [], ◌∷◌};
ghost use Rattle.mb_instr.specs.Codes.{IsInstr};
ghost use Rattle.mb_decode.specs.declared.front.Decoded.TheVariants.{Whole, More};
ghost use Rattle.mb_decode.specs.Decodes.{decode_of, IfWhole};
ghost use Rattle.mb_table.specs.FirstWords.{alone};
ghost use Rattle.mb_table.specs.Short.{IsShort};

use crate::finding::{short_of, short_with, short_with_long};
use crate::short::Short;
use mb_decode::{Decoded, spellings};
use mb_instr::{FIRST_WORDS, Instr};
use std::alloc::{AllocError, Global};
use std::marker::Model;

/// The short forms of the first words that came. Which they are does not count, so nothing is seen of it.
#[derive(Drop)]
pub struct Shorts {
    forms: Vec<Short>,
}

impl Model for Shorts {
    ghost use Rattle.std.specs.Prelude.{◌≡◌, ⊤, ℕ, ◌<◌, length, slice_index_or};
    ghost use Rattle.mb_table.specs.declared.short.Short.TheVariants.{Unknown};
    ghost use Rattle.mb_table.specs.Short.{IsShort};
    ghost use Rattle.mb_instr.specs.declared.counts.TheConstants.{FIRST_WORDS};

    ghost Value = { ⊤ };

    ghost view = { λ _. tt };

    ghost invariant = { λ t. (length t.forms.items ≡ FIRST_WORDS)
        × ((first : ℕ) → IsShort first (slice_index_or t.forms.items first Unknown)) };
}

impl Shorts {
    /// No word has come. It takes all the memory that it will need.
    pub fn new(alloc: Global) -> Result<Shorts, AllocError> {
        let forms = vec![in alloc; Short::Unknown; FIRST_WORDS]?;
        Ok(Shorts { forms })
    }

    /// The short form of a first word.
    #[inline(always)]
    pub fn of(&self, first: u16) -> &Short
        ensures { IsShort first result.now }
    {
        &self.forms[usize::from(first)]
    }

    /// A first word came, and this is what it begins with by itself.
    #[inline(never)]
    pub fn learn(&mut self, first: u16, decoded: &Decoded)
        requires means { decoded.now ≡ alone first }
        requires valid { IfWhole decoded.now (λ i n. IsInstr i) }
    {
        self.forms[usize::from(first)] = short_of(decoded);
    }

    /// A first word that wants more came with this second one, and the two are this instruction.
    pub fn learn_with(&mut self, first: u16, second: u16, instruction: &Instr)
        requires more { alone first ≡ More }
        requires means { decode_of (first ∷ second ∷ []) ≡ Whole instruction.now 2 }
        requires valid { IsInstr instruction.now }
    {
        spellings();
        self.forms[usize::from(first)] = short_with(second, instruction);
    }

    /// A first word that wants more came with these two, and the three are this instruction.
    pub fn learn_with_long(&mut self, first: u16, second: u16, third: u16, instruction: &Instr)
        requires means { decode_of (first ∷ second ∷ third ∷ []) ≡ Whole instruction.now 3 }
        requires valid { IsInstr instruction.now }
    {
        spellings();
        let value = u32::from(second) << 16 | u32::from(third);
        self.forms[usize::from(first)] = short_with_long(value, instruction);
    }
}
