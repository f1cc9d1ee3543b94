//! Where a reference leads by the rule of guests, what is kept of it, and what becomes of the shadow.

ghost use Rattle.std.specs.Prelude.{◌≡◌, ◌*◌, ◌<◌, ◌^◌, IfSome};
ghost use Rattle.mb_model.specs.Keeping.{rule_k, displaced, entry_for, filled as kept_after, NamesPages};
ghost use Rattle.mb_model.specs.Pages.{page_of as page_number, offset_of};
ghost use Rattle.def_machine.specs.Access.{by_entry as by_kept_entry, searched, settled, translated, LeadsTo};
ghost use Rattle.def_guests.specs.Bus.{gone_settled, without_kept, gone, put_entry_of, accessed};
ghost use Rattle.def_guests.specs.Bus.{is_split, is_writable};
ghost use Rattle.vm_port.specs.Watched.{changed_by_access, changed_by_fill, changed_by_put};

use crate::port::GuestPort;
use def_machine::{Reference, Settled, by_entry, root, through, untranslated};
use mb_model::{Kept, PAGE_SIZE, has_big_pages, page_of};
use mb_port::Space;
use mb_walk::{Found, Ram, search, transparent};

impl<R: Ram> GuestPort<'_, R> {
    ghost use Rattle.vm_port.specs.Parts.{world_of, beyond_of, tables_of};

    /// Point 3: what the kept entry of its page says.
    #[inline(always)]
    fn by_kept(&self, r: Reference) -> Settled
        ensures settled { result
            ≡ by_kept_entry r (entry_for rule_k r.code r.space (page_number r.at) (world_of self.now).kept) }
        ensures offset { LeadsTo result (λ at. offset_of at ≡ offset_of r.at) }
    {
        by_entry(r, self.tlb.find(r.space, page_of(r.at)))
    }

    /// What is known of a reference without a search.
    #[inline(always)]
    pub(crate) fn settled(&self, r: Reference) -> Settled
        ensures settled { result ≡ settled rule_k (world_of self.now).mmu (world_of self.now).kept r }
        ensures offset { LeadsTo result (λ at. offset_of at ≡ offset_of r.at) }
    {
        match untranslated(self.registers, r) {
            Some(protected) if protected && r.write => Settled::Refused,
            Some(_) => Settled::To(r.at),
            None => self.by_kept(r),
        }
    }

    /// Keeps what the search for a reference found. The shadow loses the entry of the translation that goes for it.
    fn keep(&mut self, r: Reference, k: Kept)
        requires { NamesPages k }
        ensures world { world_of self.new
            ≡ record (world_of self.old) { kept = kept_after rule_k r.code k (world_of self.old).kept } }
        ensures shadow { tables_of self.new
            ≡ without_kept (displaced rule_k.capacity k self.old.tlb.now) (tables_of self.old) }
        ensures changed { self.new.memory.changed
            ≡ changed_by_fill (displaced rule_k.capacity k self.old.tlb.now) self.old.memory.changed }
        ensures beyond { beyond_of self.new ≡ beyond_of self.old }
    {
        if let Some(gone) = self.tlb.fill(k) {
            self.memory.drop_page(gone.space, gone.page);
        }
    }

    /// Points 4 and 5: the tables are searched, and what is found is kept; the shadow loses the entry of what goes for
    /// it.
    fn searched(&mut self, r: Reference) -> Option<u32>
        requires { settled rule_k (world_of self.old).mmu (world_of self.old).kept r ≡ Settled.Unsettled }
        ensures means { (result, world_of self.new) ≡ searched rule_k (world_of self.old) r }
        ensures shadow { tables_of self.new
            ≡ without_kept (gone_settled (world_of self.old) r Settled.Unsettled) (tables_of self.old) }
        ensures changed { self.new.memory.changed
            ≡ changed_by_fill (gone_settled (world_of self.old) r Settled.Unsettled) self.old.memory.changed }
        ensures beyond { beyond_of self.new ≡ beyond_of self.old }
        ensures offset { IfSome result (λ at. offset_of at ≡ offset_of r.at) }
    {
        let root = root(self.registers, r.space);
        let big = has_big_pages(self.registers);
        match search(&mut self.memory, root, r.space, r.at, r.write, big) {
            Found::Entry(k, _) => {
                self.keep(r, k);
                through(&k, r)
            }
            Found::Invalid | Found::BusError => None,
        }
    }

    /// The physical address that a reference leads to. `None` where it is refused.
    #[inline(always)]
    #[tactic(auto, unfolding(def_machine::specs::Access::translated))]
    fn translated(&mut self, r: Reference) -> Option<u32>
        ensures means { (result, world_of self.new) ≡ translated rule_k r (world_of self.old) }
        ensures shadow { tables_of self.new ≡ without_kept (gone (world_of self.old) r) (tables_of self.old) }
        ensures changed { self.new.memory.changed
            ≡ changed_by_fill (gone (world_of self.old) r) self.old.memory.changed }
        ensures beyond { beyond_of self.new ≡ beyond_of self.old }
        ensures offset { IfSome result (λ at. offset_of at ≡ offset_of r.at) }
    {
        match self.settled(r) {
            Settled::To(at) => Some(at),
            Settled::Refused => None,
            Settled::Unsettled => self.searched(r),
        }
    }

    /// Whether exactly one of the two sides has a transparent register that matches the page.
    pub(crate) fn is_split(&self, space: Space, at: u32) -> bool
        ensures { result ≡ is_split (world_of self.now).mmu space (page_number at) }
    {
        let code = transparent(self.registers.itt0, self.registers.itt1, space, at).is_some();
        let data = transparent(self.registers.dtt0, self.registers.dtt1, space, at).is_some();
        if code { !data } else { data }
    }

    /// Whether a data write to a page needs no search now, and is not refused.
    fn is_writable(&self, space: Space, page: u32) -> bool
        requires { page < 2 ^ 20 }
        ensures { result ≡ is_writable (world_of self.now) space page }
    {
        matches!(
            self.settled(Reference::writing(space, PAGE_SIZE * page)),
            Settled::To(_)
        )
    }

    /// Puts an entry for an access that led to a place, where its page is one of RAM and not split, and the shadow does
    /// not allow it.
    fn put_entry(&mut self, r: Reference, place: Option<u32>)
        ensures shadow { tables_of self.new ≡ put_entry_of (world_of self.old) r (tables_of self.old) place }
        ensures changed { self.new.memory.changed
            ≡ changed_by_put (world_of self.old) r (tables_of self.old) place self.old.memory.changed }
        ensures world { world_of self.new ≡ world_of self.old }
        ensures beyond { beyond_of self.new ≡ beyond_of self.old }
    {
        let Some(at) = place else {
            return;
        };
        if self.memory.is_in_ram(at) && !self.is_split(r.space, r.at) && !self.memory.allows(r) {
            let writable = self.is_writable(r.space, page_of(r.at));
            self.memory
                .put_page(r.space, page_of(r.at), page_of(at), writable);
        }
    }

    /// The physical address that an access leads to, and what it makes of the shadow.
    pub(crate) fn accessed(&mut self, r: Reference) -> Option<u32>
        ensures means { (result, world_of self.new) ≡ translated rule_k r (world_of self.old) }
        ensures shadow { tables_of self.new ≡ accessed r (world_of self.old) (tables_of self.old) }
        ensures changed { self.new.memory.changed
            ≡ changed_by_access r (world_of self.old) (tables_of self.old) self.old.memory.changed }
        ensures beyond { beyond_of self.new ≡ beyond_of self.old }
        ensures offset { IfSome result (λ at. offset_of at ≡ offset_of r.at) }
    {
        let place = self.translated(r);
        self.put_entry(r, place);
        place
    }
}
