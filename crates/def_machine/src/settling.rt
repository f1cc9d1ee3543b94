//! The stages of an access in which no rule of keeping has a part.

ghost use Rattle.std.specs.Prelude.{◌≡◌, IfSome};
ghost use Rattle.mb_model.specs.Keeping.{NamesPages};
ghost use Rattle.mb_model.specs.Pages.{offset_of};
ghost use Rattle.def_machine.specs.Access.{untranslated, admits, by_entry, marks, root_of, through, LeadsTo};

use crate::reference::{Reference, Settled};
use mb_model::{Kept, PAGE_SIZE};
use mb_port::translation::E;
use mb_port::{Mmu, Space, long_has};
use mb_walk::transparent;

/// Points 1 and 2: whether writes are refused where the physical address is the logical one. `None` where it is not.
#[inline(always)]
pub fn untranslated(mmu: &Mmu, r: Reference) -> Option<bool>
    ensures { result ≡ untranslated mmu.now r }
{
    let matched = if r.code {
        transparent(mmu.itt0, mmu.itt1, r.space, r.at)
    } else {
        transparent(mmu.dtt0, mmu.dtt1, r.space, r.at)
    };
    if matched.is_none() && !long_has(mmu.tc, E) {
        Some(false)
    } else {
        matched
    }
}

/// Whether an entry admits a reference.
#[inline(always)]
pub fn admits(k: &Kept, r: Reference) -> bool
    ensures { result ≡ admits k.now r }
{
    !(k.w && r.write) && !(k.s && matches!(r.space, Space::User))
}

/// Whether a reference is a write that marks the page of its entry first.
#[inline(always)]
pub fn marks(k: &Kept, r: Reference) -> bool
    ensures { result ≡ marks k.now r }
{
    r.write && admits(k, r) && !k.m
}

/// The physical address through an entry. `None` where it refuses.
#[inline(always)]
pub fn through(k: &Kept, r: Reference) -> Option<u32>
    requires { NamesPages k.now }
    ensures place { result ≡ through k.now r }
    ensures offset { IfSome result (λ at. offset_of at ≡ offset_of r.at) }
{
    if admits(k, r) {
        Some(k.frame * PAGE_SIZE + r.at % PAGE_SIZE)
    } else {
        None
    }
}

/// Point 3, and 5 of an entry that is kept.
#[inline(always)]
pub fn by_entry(r: Reference, kept: Option<Kept>) -> Settled
    requires { IfSome kept NamesPages }
    ensures settled { result ≡ by_entry r kept }
    ensures offset { LeadsTo result (λ at. offset_of at ≡ offset_of r.at) }
{
    let Some(k) = kept else {
        return Settled::Unsettled;
    };
    if marks(&k, r) {
        return Settled::Unsettled;
    }
    match through(&k, r) {
        Some(at) => Settled::To(at),
        None => Settled::Refused,
    }
}

/// The root of the tables of a space.
pub fn root(mmu: &Mmu, space: Space) -> u32
    ensures { result ≡ root_of mmu.now space }
{
    match space {
        Space::User => mmu.urp,
        Space::Super => mmu.srp,
    }
}
