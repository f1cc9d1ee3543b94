//! The short forms of words by where these stand.

ghost use Rattle.std.specs.Prelude.{◌≡◌, ◌<◌};
ghost use Rattle.mb_table.specs.PlacedShorts.{IsPlaced};
ghost use Rattle.mb_table.specs.Short.{IsShort};

use crate::short::Short;
use crate::shorts::Shorts;
use std::alloc::{AllocError, Global};
use std::marker::Model;

/// How many are kept.
const PLACES: usize = 4096;

/// A first word, and its short form.
#[derive(Clone, Copy)]
pub struct Placed {
    first: u16,
    form: Short,
}

const NOTHING: Placed = Placed {
    first: 0,
    form: Short::Unknown,
};

/// The short forms of the first words that came lately, each where the word's address leads: so those of a loop lie
/// side by side, and what is done at an address is known before the word there is read, which is compared. Nothing is
/// seen of which words these are.
#[derive(Drop)]
pub struct PlacedShorts {
    placed: Vec<Placed>,
}

impl Model for PlacedShorts {
    ghost use Rattle.std.specs.Prelude.{◌≡◌, ⊤, length};
    ghost use Rattle.std.specs.List.{All};
    ghost use Rattle.mb_table.specs.PlacedShorts.{IsPlaced};
    ghost use Rattle.mb_table.specs.declared.placed_shorts.TheConstants.{PLACES};

    ghost Value = { ⊤ };

    ghost view = { λ _. tt };

    ghost invariant = { λ t. (length t.placed.items ≡ PLACES) × All IsPlaced t.placed.items };
}

/// Where an address leads.
#[inline(always)]
fn place_of(at: u32) -> usize
    ensures { result < PLACES }
{
    (at / 2) as usize % PLACES
}

/// What is kept of a first word.
#[cold]
#[inline(never)]
fn kept(first: u16, shorts: &Shorts) -> Placed
    ensures word { result.first ≡ first }
    ensures short { IsPlaced result }
{
    Placed {
        first,
        form: *shorts.of(first),
    }
}

impl PlacedShorts {
    /// Nothing is kept. It takes all the memory that it will need.
    pub fn new(alloc: Global) -> Result<PlacedShorts, AllocError> {
        let placed = vec![in alloc; NOTHING; PLACES]?;
        Ok(PlacedShorts { placed })
    }

    /// The short form of the first word at an address, as it was when the word came there or was last renewed.
    #[inline(always)]
    pub fn of(&mut self, at: u32, first: u16, shorts: &Shorts) -> &Short
        ensures { IsShort first result.now }
    {
        let place = place_of(at);
        if self.placed[place].first != first {
            self.placed[place] = kept(first, shorts);
        }
        &self.placed[place].form
    }

    /// Keeps the short form that the first word at an address has now.
    #[inline(always)]
    pub fn renew(&mut self, at: u32, first: u16, shorts: &Shorts) {
        self.placed[place_of(at)] = kept(first, shorts);
    }
}
