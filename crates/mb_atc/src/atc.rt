//! The translations that the board keeps.

ghost use Rattle.std.specs.Prelude.{◌≡◌, ◌<◌, ◌+◌, ◌%◌, IfOk, IfSome, if◌then◌else◌};
ghost use Rattle.mb_model.specs.Keeping.{NamesPages, entry_for, entry_in, filled, filled_in, flushed, flushed_in};
ghost use Rattle.mb_model.specs.Keeping.{nothing_kept};
ghost use Rattle.mb_model.specs.Keeping.{rule_a};

use arrayvec::ArrayVec;
use mb_model::{CAPACITY, CLASSES, Kept, SIDE_CLASSES, entry_in, place_in};
use mb_outside::Memory;
use mb_port::{Flush, Space};
use std::alloc::Global;
use std::marker::Model;

/// The entries of a class, the oldest first.
type Set = ArrayVec<Kept, CAPACITY>;

/// The translations that the board keeps, by its rule: a class of four for each side and page modulo 16.
///
/// Nothing shows the order of entries of different classes, so a contract sees one list a class, each in order of
/// filling.
#[derive(Drop)]
pub struct Atc {
    sets: Vec<Set>,
}

impl Model for Atc {
    ghost use Rattle.std.specs.Prelude.{◌≡◌, map, length};
    ghost use Rattle.std.specs.List.{All};
    ghost use Rattle.mb_model.specs.declared.rules.TheConstants.{CLASSES};
    ghost use Rattle.mb_model.specs.Keeping.{KeptLists, NamesPages};

    ghost Value = { KeptLists };

    ghost view = { λ a. map (λ set. set.items) a.sets.items };

    ghost invariant = { λ a. (length a.sets.items ≡ CLASSES) × All (λ set. All NamesPages set.items) a.sets.items };
}

/// The class of a side and a page.
#[inline(always)]
fn class_of(code: bool, page: u32) -> usize
    ensures class { result ≡ page % SIDE_CLASSES + (if code then SIDE_CLASSES else 0) }
    ensures inside { result < CLASSES }
{
    (page % SIDE_CLASSES) as usize + if code { SIDE_CLASSES as usize } else { 0 }
}

/// Makes an entry the newest of a set.
#[tactic(auto, using(mb_model::proofs::KeepingLemmas::places))]
fn fill_set(set: &mut Set, k: Kept)
    ensures { set.new.items ≡ filled_in CAPACITY k set.old.items }
{
    match place_in(set, k.space, k.page) {
        Some(older) => {
            set.remove(older);
        }
        None => {
            if set.is_full() {
                set.remove(0);
            }
        }
    }
    set.push(k);
}

/// Drops entries of a set: all of them at once, or those that are covered.
#[inline(always)]
#[tactic(auto, using(crate::proofs::Emptied::none_in))]
fn flush_set(set: &mut Set, what: Flush)
    ensures { set.new.items ≡ flushed_in what set.old.items }
{
    match what {
        Flush::All => set.clear(),
        Flush::AllLocal | Flush::Page(..) | Flush::PageLocal(..) => {
            set.retain(|k| !k.is_covered(what));
        }
    }
}

impl Atc {
    /// Nothing kept. It takes all the memory that it will need.
    pub fn new(alloc: Global) -> Result<Atc, Memory>
        ensures { IfOk result (λ atc. atc ≡ nothing_kept rule_a) }
    {
        match vec![in alloc; Set::new(); CLASSES] {
            Ok(sets) => Ok(Atc { sets }),
            Err(_) => Err(Memory),
        }
    }

    /// The entry for an access of a side, space and page. `None` exactly where none is kept.
    #[inline(always)]
    #[tactic(auto, using(mb_model::proofs::NamesLemmas::names))]
    pub fn find(&self, code: bool, space: Space, page: u32) -> Option<Kept>
        ensures entry { result ≡ entry_for rule_a code space page self.now }
        ensures names { IfSome result NamesPages }
    {
        entry_in(&self.sets[class_of(code, page)], space, page)
    }

    /// Keeps an entry for a side. An older one of its space and page goes; else, where its class is full, the oldest
    /// of the class.
    pub fn fill(&mut self, code: bool, k: Kept)
        requires { NamesPages k }
        ensures { self.new ≡ filled rule_a code k self.old }
    {
        fill_set(&mut self.sets[class_of(code, k.page)], k);
    }

    /// Drops entries of both sides.
    pub fn flush(&mut self, what: Flush)
        ensures { self.new ≡ flushed what self.old }
    {
        for set in self.sets.iter_mut() {
            flush_set(set, what);
        }
    }

    /// Drops all that is kept.
    pub fn clear(&mut self)
        ensures { self.new ≡ nothing_kept rule_a }
    {
        let _ = &self.sets;
        self.flush(Flush::All);
    }
}
