//! The translations that a guest keeps.

ghost use Rattle.std.specs.Prelude.{◌≡◌, ◌≤◌, ◌==◌, [], length, slice_get, All, IfOk, IfSome};
ghost use Rattle.mb_model.specs.Keeping.{rule_k, NamesPages, Apart, entry_in as entry_of, filled_in, displaced};
ghost use Rattle.mb_model.specs.Keeping.{flushed_in};

use crate::nodes::Nodes;
use mb_model::Kept;
use mb_outside::Memory;
use mb_port::{Flush, Space};
use std::alloc::Global;
use std::marker::Model;

/// The translations that a guest keeps, by its rule: at most 256, of both sides together.
///
/// A contract sees the list of the rule's one class, in order of filling.
#[derive(Drop)]
pub struct Tlb {
    nodes: Nodes,
}

impl Model for Tlb {
    ghost use Rattle.std.specs.Prelude.{List};
    ghost use Rattle.std.specs.List.{All};
    ghost use Rattle.mb_model.specs.declared.kept.Kept.{Kept};
    ghost use Rattle.mb_model.specs.Keeping.{NamesPages, Apart};
    ghost use Rattle.vm_tlb.specs.Links.{links_of, entries, Sound};

    ghost Value = { List Kept };

    ghost view = { λ t. entries (links_of t.nodes) };

    ghost invariant = { λ t.
        Sound t.nodes × All NamesPages (entries (links_of t.nodes)) × Apart (entries (links_of t.nodes)) };
}

impl Tlb {
    /// Nothing kept. It takes all the memory that it will need.
    pub fn new(alloc: Global) -> Result<Tlb, Memory>
        ensures { IfOk result (λ tlb. tlb ≡ []) }
    {
        Ok(Tlb {
            nodes: Nodes::new(alloc)?,
        })
    }

    /// Whether as many entries are kept as can be.
    pub fn is_full(&self) -> bool
        ensures { result ≡ (length self.now == rule_k.capacity) }
    {
        self.nodes.is_full()
    }

    /// The entry of a page of a space. `None` exactly where none is kept.
    #[inline(always)]
    #[tactic(auto, using(mb_model::proofs::NamesLemmas::names))]
    pub fn find(&self, space: Space, page: u32) -> Option<Kept>
        ensures entry { result ≡ entry_of space page self.now }
        ensures names { IfSome result NamesPages }
    {
        self.nodes.find(space, page)
    }

    /// The entry at a place, from the oldest on. `None` exactly where the place is not below the count.
    #[tactic(auto, using(mb_model::proofs::NamesLemmas::names))]
    pub fn entry(&self, place: u32) -> Option<Kept>
        ensures entry { result ≡ slice_get self.now place }
        ensures names { IfSome result NamesPages }
        ensures few { length self.now ≤ rule_k.capacity }
        ensures all { All NamesPages self.now }
        ensures apart { Apart self.now }
    {
        self.nodes.entry(place)
    }

    /// Keeps an entry. An older one of its space and page goes; else, where 256 are kept, the oldest. The answer is the
    /// one that went.
    pub fn fill(&mut self, k: Kept) -> Option<Kept>
        requires { NamesPages k }
        ensures entries { self.new ≡ filled_in rule_k.capacity k self.old }
        ensures gone { result ≡ displaced rule_k.capacity k self.old }
        ensures names { IfSome result NamesPages }
        ensures few { length self.new ≤ rule_k.capacity }
        ensures apart { Apart self.new }
    {
        self.nodes.fill(k)
    }

    /// Drops entries.
    pub fn flush(&mut self, what: Flush)
        ensures entries { self.new ≡ flushed_in what self.old }
        ensures apart { Apart self.new }
    {
        self.nodes.flush(what);
    }
}
