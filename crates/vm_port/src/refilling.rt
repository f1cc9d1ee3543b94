//! Reads that the shadow denied, filled and put before their instruction begins again.

ghost use Rattle.std.specs.Prelude.{◌≡◌, Some, true, false, if◌then◌else◌};
ghost use Rattle.def_guests.specs.Refills.{after_access, can_refill};
ghost use Rattle.vm_port.specs.Quiet.{seen, refills_seen};

use crate::port::GuestPort;
use def_machine::{Reference, Settled, root, through};
use mb_model::{has_big_pages, page_of};
use mb_walk::{Ram, quiet_search};

impl<R: Ram> GuestPort<'_, R> {
    ghost use Rattle.vm_port.specs.Parts.{guest_of, beyond_of, world_of};

    /// The physical address that a read leads to, where neither its search changes a byte nor its fill drops an entry.
    /// `None` where one does, or where the read is refused.
    fn seen(&self, r: Reference) -> Option<u32>
        ensures { result ≡ seen (world_of self.now) r }
    {
        match self.settled(r) {
            Settled::To(at) => Some(at),
            Settled::Refused => None,
            Settled::Unsettled => {
                if self.tlb.is_full() {
                    return None;
                }
                let root = root(self.registers, r.space);
                let k = quiet_search(
                    &self.memory,
                    root,
                    r.space,
                    r.at,
                    has_big_pages(self.registers),
                )?;
                through(&k, r)
            }
        }
    }

    /// Whether such a read is of a page of RAM that is not split, for whose entry the slots suffice.
    fn refills(&self, r: Reference, at: u32) -> bool
        ensures { result ≡ refills_seen (guest_of self.now) r (Some at) }
    {
        self.memory.is_in_ram(at)
            && !self.is_split(r.space, r.at)
            && !self
                .memory
                .shadow
                .is_full_for(self.memory.ram, r.space, page_of(r.at))
    }

    /// Whether a read that the shadow denies is filled and put before its instruction begins again: on a page of RAM
    /// that is not split, where nothing shows that it was.
    fn can_refill(&self, r: Reference) -> bool
        ensures { result ≡ can_refill (guest_of self.now) r }
    {
        if r.write {
            return false;
        }
        let _ = self.memory.size();
        let _ = self.tlb.entry(0);
        match self.seen(r) {
            Some(at) => self.refills(r, at),
            None => false,
        }
    }

    /// Fills and puts such a read. Answers whether it did; else nothing has changed.
    pub fn refill(&mut self, r: Reference) -> bool
        ensures can { result ≡ can_refill (guest_of self.old) r }
        ensures means { guest_of self.new
            ≡ if result then after_access r (guest_of self.old) else guest_of self.old }
        ensures still { result ≡ false → self.new ≡ self.old }
        ensures beyond { beyond_of self.new ≡ beyond_of self.old }
    {
        if !self.can_refill(r) {
            return false;
        }
        self.accessed(r);
        true
    }
}
