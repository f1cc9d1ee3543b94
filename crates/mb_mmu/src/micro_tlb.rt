//! A micro-TLB: for each kind of access the pages that it led to last, with their places in RAM.

ghost use Rattle.std.specs.Prelude.{◌≡◌};
ghost use Rattle.mb_mmu.specs.MicroTlb.{entries_for, entry_for, entry_in, entry_to, none, nothing, place_by, with_entry, with_in};
ghost use Rattle.mb_mmu.specs.MicroTlb.{without_class, without_class_in, without_class_of};

use def_machine::Reference;
use mb_model::{SIDE_CLASSES, page_of};
use mb_port::Space;

/// How many entries there are for a kind of access to a space: as many as translations of a side are kept.
pub const ENTRIES: usize = 64;

/// A page of logical addresses that stands whole in RAM.
#[derive(Clone, Copy, Debug, PartialEq, Eq)]
pub struct Entry {
    /// Its number, or 2^20, which no page has.
    pub(crate) page: u32,
    /// What leads from an address of the page to its place, modulo 2^32.
    pub(crate) distance: u32,
}

/// An entry of no page.
const EMPTY: Entry = Entry {
    page: 1 << 20,
    distance: 0,
};

impl Entry {
    /// The page of a reference that leads to a place.
    fn to(r: Reference, place: u32) -> Entry
        ensures { result ≡ entry_to r.at place }
    {
        Entry {
            page: page_of(r.at),
            distance: place.wrapping_sub(r.at),
        }
    }

    /// The place of an address. `None` where it lies in another page.
    #[inline(always)]
    fn place(&self, at: u32) -> Option<u32>
        ensures { result ≡ place_by self.now at }
    {
        if page_of(at) == self.page {
            Some(at.wrapping_add(self.distance))
        } else {
            None
        }
    }
}

/// Drops what stands where entries of a page's class would, which are the pages with the same number modulo 16.
fn clear_class(entries: &mut [Entry; ENTRIES], page: u32)
    ensures { entries.new ≡ without_class entries.old page }
{
    let class = (page % SIDE_CLASSES) as usize;
    entries[class] = EMPTY;
    entries[class + 16] = EMPTY;
    entries[class + 32] = EMPTY;
    entries[class + 48] = EMPTY;
}

/// The entries for a kind of access, by the space and by the page's number modulo 64.
#[derive(Drop)]
pub struct Entries {
    pub(crate) user: [Entry; ENTRIES],
    pub(crate) supervisor: [Entry; ENTRIES],
}

impl Entries {
    /// Entries of no page.
    fn new() -> Entries
        ensures { result ≡ none }
    {
        Entries {
            user: [EMPTY; ENTRIES],
            supervisor: [EMPTY; ENTRIES],
        }
    }

    /// The place of an address of a space, where its page has an entry.
    #[inline(always)]
    fn place(&self, space: Space, at: u32) -> Option<u32>
        ensures { result ≡ place_by (entry_in self.now space at) at }
    {
        let entries = match space {
            Space::User => &self.user,
            Space::Super => &self.supervisor,
        };
        entries[page_of(at) as usize % ENTRIES].place(at)
    }

    /// Remembers an entry of a space.
    fn set(&mut self, space: Space, entry: Entry)
        ensures { self.new ≡ with_in self.old space entry }
    {
        let index = entry.page as usize % ENTRIES;
        match space {
            Space::User => self.user[index] = entry,
            Space::Super => self.supervisor[index] = entry,
        }
    }

    /// Drops what stands where entries of a page's class would.
    fn drop_class(&mut self, page: u32)
        ensures { self.new ≡ without_class_in self.old page }
    {
        clear_class(&mut self.user, page);
        clear_class(&mut self.supervisor, page);
    }
}

/// The pages that fetches, reads and writes led to last.
#[derive(Drop)]
pub struct MicroTlb {
    pub(crate) fetches: Entries,
    pub(crate) reads: Entries,
    pub(crate) writes: Entries,
}

impl MicroTlb {
    /// Entries of no page.
    pub fn new() -> MicroTlb
        ensures { result ≡ nothing }
    {
        MicroTlb {
            fetches: Entries::new(),
            reads: Entries::new(),
            writes: Entries::new(),
        }
    }

    /// The entries for the kind of access that a reference is.
    #[inline(always)]
    fn entries(&self, r: Reference) -> &Entries
        ensures { result.now ≡ entries_for r.code r.write self.now }
    {
        if r.code {
            &self.fetches
        } else if r.write {
            &self.writes
        } else {
            &self.reads
        }
    }

    /// The place that a reference led to, where its page has an entry.
    #[inline(always)]
    pub fn place(&self, r: Reference) -> Option<u32>
        ensures { result ≡ place_by (entry_for self.now r) r.at }
    {
        self.entries(r).place(r.space, r.at)
    }

    /// Remembers that a reference led to a place.
    pub fn set(&mut self, r: Reference, place: u32)
        ensures { self.new ≡ with_entry self.old r (entry_to r.at place) }
    {
        let entry = Entry::to(r, place);
        if r.code {
            self.fetches.set(r.space, entry);
        } else if r.write {
            self.writes.set(r.space, entry);
        } else {
            self.reads.set(r.space, entry);
        }
    }

    /// Drops what stands where entries of a page's class would, of a side: that of instruction words or that of data.
    pub fn drop_class(&mut self, code: bool, page: u32)
        ensures { self.new ≡ without_class_of code page self.old }
    {
        if code {
            self.fetches.drop_class(page);
        } else {
            self.reads.drop_class(page);
            self.writes.drop_class(page);
        }
    }
}
