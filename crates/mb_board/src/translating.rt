//! Where a reference to memory leads: the stages of an access by the board's rule, and PTEST.

ghost use Rattle.std.specs.Prelude.{◌≡◌, ◌<◌, ◌^◌, length, IfSome, Some, true};
ghost use Rattle.mb_port.specs.Pieces.{IsAligned, IsPiece};
ghost use Rattle.mb_model.specs.Keeping.{after_ptest, rule_a};
ghost use Rattle.mb_model.specs.Pages.{offset_of, page_of as page_number};
ghost use Rattle.def_machine.specs.Access.{searched, translated};
ghost use Rattle.def_machine.specs.Bus.{tested};
ghost use Rattle.def_machine.specs.Places.{in_ram};
ghost use Rattle.mb_mmu.specs.Sound.{IsAccess};

use crate::bus::BoardBus;
use def_machine::{MMUSR_MATCHED, Reference, Settled, root, through};
use mb_model::{has_big_pages, other_half, page_of};
use mb_port::{Flush, Space};
use mb_walk::{Found, search, transparent};

impl BoardBus {
    /// Points 4 and 5: the tables are searched, and what is found is kept, and remembered if it leads into RAM. The
    /// reference is given by its fields.
    #[inline(never)]
    fn searched(&mut self, code: bool, space: Space, at: u32, write: bool) -> Option<u32>
        requires { IsAccess (record { code = code; space = space; at = at; write = write }) }
        ensures means { (result, self.new) ≡ searched rule_a self.old
            (record { code = code; space = space; at = at; write = write }) }
        ensures size { length self.new.ram ≡ length self.old.ram }
        ensures offset { IfSome result (λ to. offset_of to ≡ offset_of at) }
    {
        let r = Reference {
            code,
            space,
            at,
            write,
        };
        let root = root(self.translator.mmu(), r.space);
        let big = has_big_pages(self.translator.mmu());
        match search(self, root, r.space, r.at, r.write, big) {
            Found::Entry(k, _) => {
                self.translator.fill(r.code, k);
                self.translator.settle(r);
                if !r.code {
                    self.translator.settle(Reference {
                        write: !r.write,
                        ..r
                    });
                }
                through(&k, r)
            }
            Found::Invalid | Found::BusError => None,
        }
    }

    /// The physical address that a reference leads to. `None` where it is refused.
    #[inline(always)]
    #[tactic(auto, unfolding(def_machine::specs::Access::translated))]
    pub fn translated(&mut self, r: Reference) -> Option<u32>
        requires { IsAccess r }
        ensures means { (result, self.new) ≡ translated rule_a r self.old }
        ensures size { length self.new.ram ≡ length self.old.ram }
        ensures offset { IfSome result (λ at. offset_of at ≡ offset_of r.at) }
    {
        match self.translator.settle(r) {
            Settled::To(at) => Some(at),
            Settled::Refused => None,
            Settled::Unsettled => self.searched(r.code, r.space, r.at, r.write),
        }
    }

    /// The place in RAM of so many bytes that a reference is known to lead to by the micro-TLB. `None` says nothing.
    #[inline(always)]
    #[tactic(auto, unfolding(def_machine::specs::Access::translated))]
    pub(crate) fn found_in_tlb(&self, r: Reference, len: u8) -> Option<u32>
        requires access { IsAccess r }
        requires piece { IsPiece (record { at = r.at; len = len }) }
        ensures leads { IfSome result (λ at. translated rule_a r self.now ≡ (Some at, self.now)) }
        ensures inside { IfSome result (λ at. in_ram (length self.now.ram) at len ≡ true) }
        ensures aligned { IfSome result (λ at. IsAligned at len) }
    {
        let at = self.translator.place(r)?;
        Some(at)
    }

    /// The same where nothing is translated.
    #[inline(always)]
    #[tactic(auto, unfolding(def_machine::specs::Access::translated))]
    pub(crate) fn found_directly(&self, r: Reference, len: u8) -> Option<u32>
        requires access { IsAccess r }
        requires piece { IsPiece (record { at = r.at; len = len }) }
        ensures leads { IfSome result (λ at. translated rule_a r self.now ≡ (Some at, self.now)) }
        ensures inside { IfSome result (λ at. in_ram (length self.now.ram) at len ≡ true) }
        ensures aligned { IfSome result (λ at. IsAligned at len) }
    {
        let at = self.translator.place_directly(r, len)?;
        Some(at)
    }

    /// The place in RAM of so many bytes that a reference is known to lead to. `None` says nothing.
    #[inline(always)]
    pub fn found_at_once(&self, r: Reference, len: u8) -> Option<u32>
        requires access { IsAccess r }
        requires piece { IsPiece (record { at = r.at; len = len }) }
        ensures leads { IfSome result (λ at. translated rule_a r self.now ≡ (Some at, self.now)) }
        ensures inside { IfSome result (λ at. in_ram (length self.now.ram) at len ≡ true) }
        ensures aligned { IfSome result (λ at. IsAligned at len) }
    {
        if self.translator.is_direct() {
            self.found_directly(r, len)
        } else {
            self.found_in_tlb(r, len)
        }
    }

    /// What PTEST drops of a page, and of the other half of it where pages have 8 KiB.
    fn drop_halves(&mut self, space: Space, page: u32, big: bool)
        requires { page < 2 ^ 20 }
        ensures { self.new ≡ record self.old { kept = after_ptest big space page self.old.kept } }
    {
        self.translator.flush(Flush::Page(space, page));
        if big {
            self.translator.flush(Flush::Page(space, other_half(page)));
        }
    }

    /// PTEST of the page of an address: MMUSR then.
    pub fn tested(&mut self, space: Space, at: u32, write: bool) -> u32
        ensures means { (result, self.new) ≡ tested space (page_number at) write self.old }
        ensures size { length self.new.ram ≡ length self.old.ram }
    {
        let mmu = self.translator.mmu();
        if transparent(mmu.dtt0, mmu.dtt1, space, at).is_some() {
            return MMUSR_MATCHED;
        }
        let big = has_big_pages(self.translator.mmu());
        self.drop_halves(space, page_of(at), big);
        let root = root(self.translator.mmu(), space);
        search(self, root, space, at, write, big).status()
    }
}
