//! What first words begin with.

ghost use Rattle.std.specs.Prelude.{◌≡◌, ◌<◌, length, All};
ghost use Rattle.mb_instr.specs.Codes.{IsInstr};
ghost use Rattle.mb_decode.specs.Decodes.{IfWhole};
ghost use Rattle.mb_table.specs.FirstWords.{IsKnown, alone};

use mb_decode::{Decoded, decode};
use mb_instr::FIRST_WORDS;
use std::alloc::{AllocError, Global};
use std::marker::Model;

/// How many of them are known at a time.
const PLACES: usize = 4096;

/// A first word, and what it begins with.
#[derive(Clone, Copy)]
pub struct Known {
    first: u16,
    decoded: Decoded,
}

/// What the first words that came lately begin with. Which they are does not count, so nothing is seen of it.
#[derive(Drop)]
pub struct FirstWords {
    /// Where each first word is known, if it is.
    places: Vec<u16>,
    known: Vec<Known>,
    /// The place that the next one takes; they are taken in turn.
    next: u16,
}

impl Model for FirstWords {
    ghost use Rattle.std.specs.Prelude.{◌≡◌, ⊤, length};
    ghost use Rattle.std.specs.List.{All};
    ghost use Rattle.mb_table.specs.FirstWords.{IsKnown};
    ghost use Rattle.mb_table.specs.declared.first_words.TheConstants.{PLACES};
    ghost use Rattle.mb_instr.specs.declared.counts.TheConstants.{FIRST_WORDS};

    ghost Value = { ⊤ };

    ghost view = { λ _. tt };

    ghost invariant = { λ t. (length t.places.items ≡ FIRST_WORDS) × (length t.known.items ≡ PLACES)
        × All IsKnown t.known.items };
}

/// One of the places.
#[inline(always)]
fn within(place: u16) -> usize
    ensures { result < PLACES }
{
    usize::from(place) % PLACES
}

/// A first word, decoded.
fn decoded(first: u16) -> Known
    ensures right { IsKnown result }
    ensures word { result.first ≡ first }
{
    Known {
        first,
        decoded: decode(&[first]),
    }
}

/// A first word is decoded in this place.
#[inline(never)]
fn learn(known: &mut Known, first: u16)
    ensures right { IsKnown known.new }
    ensures word { known.new.first ≡ first }
{
    *known = decoded(first);
}

impl FirstWords {
    /// Nothing is known but the word 0. It takes all the memory that it will need.
    pub fn new(alloc: Global) -> Result<FirstWords, AllocError> {
        let places = vec![in alloc; 0; FIRST_WORDS]?;
        let known = vec![in alloc; decoded(0); PLACES]?;
        Ok(FirstWords {
            places,
            known,
            next: 1,
        })
    }

    /// What a first word alone begins with: an instruction of one word, or less than a whole one, or none.
    #[inline(always)]
    pub fn of(&mut self, first: u16) -> &Decoded
        ensures means { result.now ≡ alone first }
        ensures valid { IfWhole result.now (λ i n. IsInstr i) }
    {
        let place = within(self.places[usize::from(first)]);
        if self.known[place].first == first {
            return &self.known[place].decoded;
        }
        let place = within(self.next);
        self.places[usize::from(first)] = self.next;
        self.next = self.next.wrapping_add(1);
        learn(&mut self.known[place], first);
        &self.known[place].decoded
    }
}
