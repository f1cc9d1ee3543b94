//! The shadow and its calls.

ghost use Rattle.std.specs.Prelude.{◌≡◌, ℕ, ◌+◌, ◌*◌, ◌/◌, ◌%◌, ◌^◌, ◌==◌, ◌≤◌, ◌<◌, [], length};
ghost use Rattle.std.specs.Prelude.{IfOk, MatchOption, None, Some};
ghost use Rattle.vm_shadow.specs.Slots.{placed, number_of, with_table, tables_for, Has, Once};
ghost use Rattle.vm_shadow.specs.Slots.{is_full_for as full_for, pages_of};
ghost use Rattle.vm_shadow.specs.Shadows.{nothing, room_for, with_page_put, dropped, with_entry};
ghost use Rattle.vm_shadow.specs.Mapped.{mapped, root_of, shadowed, BothStand};
ghost use Rattle.vm_shadow.specs.Area.{OnlyArea, longs, in_root as root_place, in_slot as slot_place, entry_of};
ghost use Rattle.law_links.specs.Paths.{updated};
ghost use Rattle.vm_shadow.specs.Area.{Counted, IsPageLong, Laid, Maps, OnlyGo, Pushed, Removed, UsedBut};
ghost use Rattle.vm_shadow.specs.declared.area.TheConstants.{AREA_BYTES};

use crate::area::{in_root, in_slot, led, link, long_in, page_long, set_in, wipe};
use crate::nodes::{Nodes, SLOTS};
use crate::table::Table;
use mb_outside::Memory;
use mb_port::Space;
use mb_walk::{PageDescriptor, Ram, TableDescriptor};
use std::alloc::Global;
use std::marker::Model;

/// Translation tables of a guest in an area of the board's memory: 65,536 bytes, of which two tables of 512 bytes are
/// the roots of both spaces, and the others are 126 slots for a table each.
///
/// A contract sees the area's address, the tables that stand and their slots; `shadowed` of these and of memory has the
/// entries. A table stands as long as an entry needs it.
#[derive(Drop)]
pub struct Shadow {
    area: u32,
    nodes: Nodes,
}

impl Model for Shadow {
    ghost use Rattle.std.specs.Prelude.{◌≡◌, ◌%◌};
    ghost use Rattle.vm_shadow.specs.declared.area.TheConstants.{AREA_BYTES};
    ghost use Rattle.vm_shadow.specs.Slots.{Slots};
    ghost use Rattle.vm_shadow.specs.Links.{links_of, order, tables as tables_in, counts as counts_in, Sound};

    ghost Value = { Slots };

    ghost view = { λ s. record {
      area = s.area;
      tables = tables_in (links_of s.nodes);
      places = order (links_of s.nodes);
      counts = counts_in s.nodes;
    } };

    ghost invariant = { λ s. (s.area % AREA_BYTES ≡ 0) × Sound s.nodes };
}

impl Shadow {
    /// A shadow with an area at an address. It has written no table yet: `clear` comes first. It takes all the memory
    /// that it will need.
    pub fn new(alloc: Global, area: u32) -> Result<Shadow, Memory>
        requires { area % AREA_BYTES ≡ 0 }
        ensures { IfOk result (λ shadow. (shadow.area ≡ area) × (shadow.tables ≡ [])) }
    {
        match Nodes::new(alloc) {
            Ok(nodes) => Ok(Shadow { area, nodes }),
            Err(_) => Err(Memory),
        }
    }

    /// The address of a space's root table.
    pub fn root(&self, space: Space) -> u32
        ensures { result ≡ root_of self.now.area space }
    {
        match space {
            Space::User => self.area,
            Space::Super => self.area + 512,
        }
    }

    /// The address of the area.
    fn area(&self) -> u32
        ensures area { result ≡ self.now.area }
        ensures aligned { result % AREA_BYTES ≡ 0 }
    {
        self.area
    }

    /// How many slots are in use.
    fn count(&self) -> u32
        ensures used { result ≡ length self.now.tables }
        ensures few { result ≤ SLOTS }
    {
        self.nodes.used
    }

    /// Whether all longs of a slot are 0.
    fn is_empty(&self, slot: u32) -> bool
        requires { slot < SLOTS }
        ensures { result ≡ ((placed self.now).count slot == 0) }
    {
        self.nodes.count(slot) == 0
    }

    /// Has a table stand in a free slot.
    fn push(&mut self, table: Table) -> u32
        requires room { length self.old.tables < SLOTS }
        requires new { length self.old.tables ≤ number_of table self.old.tables }
        ensures pushed { Pushed (placed self.old) (placed self.new) table result }
        ensures inside { result < SLOTS }
    {
        self.nodes.push(table)
    }

    /// Frees the slot of a table.
    fn remove(&mut self, table: Table, slot: u32)
        requires stands { Has self.old.tables table }
        requires once { Once self.old.tables }
        requires slot { slot ≡ (placed self.old).slot table }
        ensures { Removed (placed self.old) (placed self.new) table }
    {
        let _ = table;
        self.nodes.remove(slot);
    }

    /// Frees all slots.
    fn empty(&mut self)
        ensures area { self.new.area ≡ self.old.area }
        ensures tables { self.new.tables ≡ [] }
        ensures count { (slot : ℕ) → slot < SLOTS → (placed self.new).count slot ≡ 0 }
    {
        self.nodes.reset();
    }

    /// Sets an entry of a root.
    fn set_root<R: Ram>(&self, ram: &mut R, space: Space, index: u32, long: u32)
        requires index { index < 128 }
        requires inside { self.now.area + AREA_BYTES ≤ length (R.bytes ram.old) }
        ensures longs { longs (R.bytes ram.new) self.now.area
            ≡ updated (longs (R.bytes ram.old) self.now.area) (root_place space index) long }
        ensures outside { OnlyArea self.now.area (R.bytes ram.old) (R.bytes ram.new) }
        ensures rest { R.rest ram.new ≡ R.rest ram.old }
    {
        set_in(ram, self.area(), in_root(space, index), long);
    }

    /// Sets a long of a slot, and counts it.
    fn set<R: Ram>(&mut self, ram: &mut R, slot: u32, index: u32, long: u32)
        requires slot { slot < SLOTS }
        requires index { index < 128 }
        requires inside { self.old.area + AREA_BYTES ≤ length (R.bytes ram.old) }
        requires counted { Counted (placed self.old) (R.bytes ram.old) }
        ensures longs { longs (R.bytes ram.new) self.old.area
            ≡ updated (longs (R.bytes ram.old) self.old.area) (slot_place slot index) long }
        ensures counted { Counted (placed self.new) (R.bytes ram.new) }
        ensures same { self.new ≡ record self.old { counts = self.new.counts } }
        ensures outside { OnlyArea self.old.area (R.bytes ram.old) (R.bytes ram.new) }
        ensures rest { R.rest ram.new ≡ R.rest ram.old }
    {
        let area = self.area();
        let at = in_slot(slot, index);
        let old = long_in(ram, area, at);
        set_in(ram, area, at, long);
        self.nodes.recount(slot, old, long);
    }

    /// Removes all entries and tables, or makes the first.
    pub fn clear<R: Ram>(&mut self, ram: &mut R)
        requires { self.old.area + AREA_BYTES ≤ length (R.bytes ram.old) }
        ensures tables { Maps self.new (R.bytes ram.new) }
        ensures shadow { shadowed self.new (R.bytes ram.new) ≡ nothing }
        ensures area { self.new.area ≡ self.old.area }
        ensures stands { BothStand (R.bytes ram.new) self.new.area }
        ensures outside { OnlyArea self.old.area (R.bytes ram.old) (R.bytes ram.new) }
        ensures rest { R.rest ram.new ≡ R.rest ram.old }
    {
        wipe(ram, self.area());
        self.empty();
    }

    /// The frame of a page's entry, and whether the page takes writes. `None` exactly where it has none.
    pub fn find<R: Ram>(&self, ram: &R, space: Space, page: u32) -> Option<(u32, bool)>
        requires page { page < 2 ^ 20 }
        requires tables { Maps self.now (R.bytes ram.now) }
        ensures entry { result ≡ (shadowed self.now (R.bytes ram.now)).entries space page }
        ensures mapped { result ≡ mapped (R.bytes ram.now) (root_of self.now.area space) page }
    {
        let pointer = ram.long(self.root(space) + 4 * (page / 8192));
        if !TableDescriptor::of(pointer).resident {
            return None;
        }
        let leaf = ram.long(pointer / 512 * 512 + 4 * (page / 64 % 128));
        if !TableDescriptor::of(leaf).resident {
            return None;
        }
        let entry = PageDescriptor::of(ram.long(leaf / 256 * 256 + 4 * (page % 64)));
        if entry.resident {
            Some((entry.frame, !entry.protected))
        } else {
            None
        }
    }

    /// The slot of the pointer table of a root index. `None` exactly where it does not stand.
    fn pointers<R: Ram>(&self, ram: &R, space: Space, index: u32) -> Option<u32>
        requires index { index < 128 }
        requires laid { Laid (placed self.now) (R.bytes ram.now) }
        ensures { MatchOption result
            (length self.now.tables ≤ number_of (Table.Pointers space index) self.now.tables)
            (λ slot. (slot ≡ (placed self.now).slot (Table.Pointers space index))
            × Has self.now.tables (Table.Pointers space index)) }
    {
        let area = self.area();
        led(area, long_in(ram, area, in_root(space, index)))
    }

    /// The slot of a table of 64 pages, as the slot of its pointer table has it.
    fn below<R: Ram>(&self, ram: &R, space: Space, index: u32, above: u32) -> Option<u32>
        requires index { index < 2 ^ 14 }
        requires laid { Laid (placed self.now) (R.bytes ram.now) }
        requires above { Has self.now.tables (Table.Pointers space (index / 128)) }
        requires slot { above ≡ (placed self.now).slot (Table.Pointers space (index / 128)) }
        ensures { MatchOption result
            (length self.now.tables ≤ number_of (Table.Pages space index) self.now.tables)
            (λ slot. (slot ≡ (placed self.now).slot (Table.Pages space index))
            × Has self.now.tables (Table.Pages space index)) }
    {
        let area = self.area();
        let _ = space;
        led(area, long_in(ram, area, in_slot(above, index % 128)))
    }

    /// The slot of a table of 64 pages. `None` exactly where it does not stand.
    fn pages<R: Ram>(&self, ram: &R, space: Space, index: u32) -> Option<u32>
        requires index { index < 2 ^ 14 }
        requires laid { Laid (placed self.now) (R.bytes ram.now) }
        ensures { MatchOption result
            (length self.now.tables ≤ number_of (Table.Pages space index) self.now.tables)
            (λ slot. (slot ≡ (placed self.now).slot (Table.Pages space index))
            × Has self.now.tables (Table.Pages space index)) }
    {
        match self.pointers(ram, space, index / 128) {
            Some(above) => self.below(ram, space, index, above),
            None => None,
        }
    }

    /// Whether a fill of the page would now clear the area.
    pub fn is_full_for<R: Ram>(&self, ram: &R, space: Space, page: u32) -> bool
        requires page { page < 2 ^ 20 }
        requires tables { Maps self.now (R.bytes ram.now) }
        ensures { result ≡ full_for space page self.now.tables }
    {
        let pointers = self.pointers(ram, space, page / 8192).is_none();
        let pages = self.pages(ram, space, page / 64).is_none();
        self.count() + u32::from(pointers) + u32::from(pages) > SLOTS
    }

    /// Sets the entry of a page whose table stands.
    fn put<R: Ram>(&mut self, ram: &mut R, space: Space, page: u32, slot: u32, long: u32)
        requires page { page < 2 ^ 20 }
        requires stands { Has self.old.tables (pages_of space page) }
        requires slot { slot ≡ (placed self.old).slot (pages_of space page) }
        requires long { IsPageLong long }
        requires laid { Laid (placed self.old) (R.bytes ram.old) }
        requires full { UsedBut (pages_of space page) (placed self.old) (R.bytes ram.old) }
        ensures laid { Laid (placed self.new) (R.bytes ram.new) }
        ensures full { UsedBut (pages_of space page) (placed self.new) (R.bytes ram.new) }
        ensures entries { (shadowed self.new (R.bytes ram.new)).entries
            ≡ with_entry space page (entry_of long) (shadowed self.old (R.bytes ram.old)).entries }
        ensures long { longs (R.bytes ram.new) self.new.area (slot_place slot (page % 64)) ≡ long }
        ensures same { self.new ≡ record self.old { counts = self.new.counts } }
        ensures outside { OnlyArea self.old.area (R.bytes ram.old) (R.bytes ram.new) }
        ensures rest { R.rest ram.new ≡ R.rest ram.old }
    {
        let _ = space;
        self.set(ram, slot, page % 64, long);
    }

    /// Frees a table of 64 pages if none has an entry.
    fn free_pages<R: Ram>(&mut self, ram: &mut R, space: Space, index: u32, slot: u32)
        requires index { index < 2 ^ 14 }
        requires stands { Has self.old.tables (Table.Pages space index) }
        requires slot { slot ≡ (placed self.old).slot (Table.Pages space index) }
        requires laid { Laid (placed self.old) (R.bytes ram.old) }
        requires full { UsedBut (Table.Pages space index) (placed self.old) (R.bytes ram.old) }
        ensures laid { Laid (placed self.new) (R.bytes ram.new) }
        ensures full { UsedBut (Table.Pointers space (index / 128)) (placed self.new) (R.bytes ram.new) }
        ensures entries { (shadowed self.new (R.bytes ram.new)).entries
            ≡ (shadowed self.old (R.bytes ram.old)).entries }
        ensures gone { OnlyGo self.old.tables self.new.tables }
        ensures above { Has self.new.tables (Table.Pointers space (index / 128)) }
        ensures area { self.new.area ≡ self.old.area }
        ensures outside { OnlyArea self.old.area (R.bytes ram.old) (R.bytes ram.new) }
        ensures rest { R.rest ram.new ≡ R.rest ram.old }
    {
        if !self.is_empty(slot) {
            return;
        }
        match self.pointers(ram, space, index / 128) {
            Some(above) => self.set(ram, above, index % 128, 0),
            None => unreachable!(),
        }
        self.remove(Table::Pages(space, index), slot);
    }

    /// Frees the pointer table of a root index if it leads to none.
    fn free_pointers<R: Ram>(&mut self, ram: &mut R, space: Space, index: u32)
        requires index { index < 128 }
        requires stands { Has self.old.tables (Table.Pointers space index) }
        requires laid { Laid (placed self.old) (R.bytes ram.old) }
        requires full { UsedBut (Table.Pointers space index) (placed self.old) (R.bytes ram.old) }
        ensures tables { Maps self.new (R.bytes ram.new) }
        ensures entries { (shadowed self.new (R.bytes ram.new)).entries
            ≡ (shadowed self.old (R.bytes ram.old)).entries }
        ensures gone { OnlyGo self.old.tables self.new.tables }
        ensures area { self.new.area ≡ self.old.area }
        ensures outside { OnlyArea self.old.area (R.bytes ram.old) (R.bytes ram.new) }
        ensures rest { R.rest ram.new ≡ R.rest ram.old }
    {
        if let Some(slot) = self.pointers(ram, space, index) {
            if self.is_empty(slot) {
                self.set_root(ram, space, index, 0);
                self.remove(Table::Pointers(space, index), slot);
            }
        }
    }

    /// Removes the entry of a page, if it has one, and each table that no other entry needs.
    pub fn drop_page<R: Ram>(&mut self, ram: &mut R, space: Space, page: u32)
        requires page { page < 2 ^ 20 }
        requires tables { Maps self.old (R.bytes ram.old) }
        ensures tables { Maps self.new (R.bytes ram.new) }
        ensures shadow { shadowed self.new (R.bytes ram.new)
            ≡ dropped space page (shadowed self.old (R.bytes ram.old)) }
        ensures area { self.new.area ≡ self.old.area }
        ensures stands { BothStand (R.bytes ram.new) self.new.area }
        ensures outside { OnlyArea self.old.area (R.bytes ram.old) (R.bytes ram.new) }
        ensures rest { R.rest ram.new ≡ R.rest ram.old }
    {
        if let Some(slot) = self.pages(ram, space, page / 64) {
            self.put(ram, space, page, slot, 0);
            self.free_pages(ram, space, page / 64, slot);
            self.free_pointers(ram, space, page / 8192);
        }
    }

    /// Has the pointer table of a root index stand. The answer is its slot.
    fn stand_pointers<R: Ram>(&mut self, ram: &mut R, space: Space, index: u32) -> u32
        requires index { index < 128 }
        requires room { length (with_table (Table.Pointers space index) self.old.tables) ≤ SLOTS }
        requires tables { Maps self.old (R.bytes ram.old) }
        ensures laid { Laid (placed self.new) (R.bytes ram.new) }
        ensures full { UsedBut (Table.Pointers space index) (placed self.new) (R.bytes ram.new) }
        ensures entries { (shadowed self.new (R.bytes ram.new)).entries
            ≡ (shadowed self.old (R.bytes ram.old)).entries }
        ensures tables { self.new.tables ≡ with_table (Table.Pointers space index) self.old.tables }
        ensures slot { result ≡ (placed self.new).slot (Table.Pointers space index) }
        ensures area { self.new.area ≡ self.old.area }
        ensures outside { OnlyArea self.old.area (R.bytes ram.old) (R.bytes ram.new) }
        ensures rest { R.rest ram.new ≡ R.rest ram.old }
    {
        if let Some(slot) = self.pointers(ram, space, index) {
            return slot;
        }
        let slot = self.push(Table::Pointers(space, index));
        self.set_root(ram, space, index, link(self.area(), slot));
        slot
    }

    /// Has the table of 64 pages stand, whose pointer table stands in a slot. The answer is its slot.
    fn stand_pages<R: Ram>(&mut self, ram: &mut R, space: Space, index: u32, above: u32) -> u32
        requires index { index < 2 ^ 14 }
        requires above { Has self.old.tables (Table.Pointers space (index / 128)) }
        requires slot { above ≡ (placed self.old).slot (Table.Pointers space (index / 128)) }
        requires room { length (with_table (Table.Pages space index) self.old.tables) ≤ SLOTS }
        requires laid { Laid (placed self.old) (R.bytes ram.old) }
        requires full { UsedBut (Table.Pointers space (index / 128)) (placed self.old) (R.bytes ram.old) }
        ensures laid { Laid (placed self.new) (R.bytes ram.new) }
        ensures full { UsedBut (Table.Pages space index) (placed self.new) (R.bytes ram.new) }
        ensures entries { (shadowed self.new (R.bytes ram.new)).entries
            ≡ (shadowed self.old (R.bytes ram.old)).entries }
        ensures tables { self.new.tables ≡ with_table (Table.Pages space index) self.old.tables }
        ensures slot { result ≡ (placed self.new).slot (Table.Pages space index) }
        ensures area { self.new.area ≡ self.old.area }
        ensures outside { OnlyArea self.old.area (R.bytes ram.old) (R.bytes ram.new) }
        ensures rest { R.rest ram.new ≡ R.rest ram.old }
    {
        if let Some(slot) = self.below(ram, space, index, above) {
            return slot;
        }
        let slot = self.push(Table::Pages(space, index));
        self.set(ram, above, index % 128, link(self.area(), slot));
        slot
    }

    /// Clears the area where its slots do not suffice for a page's tables. The answer says whether it did.
    fn make_room<R: Ram>(&mut self, ram: &mut R, space: Space, page: u32) -> bool
        requires page { page < 2 ^ 20 }
        requires tables { Maps self.old (R.bytes ram.old) }
        ensures full { result ≡ full_for space page self.old.tables }
        ensures room { length (tables_for space page self.new.tables) ≤ SLOTS }
        ensures tables { Maps self.new (R.bytes ram.new) }
        ensures shadow { shadowed self.new (R.bytes ram.new)
            ≡ room_for space page (shadowed self.old (R.bytes ram.old)) }
        ensures area { self.new.area ≡ self.old.area }
        ensures outside { OnlyArea self.old.area (R.bytes ram.old) (R.bytes ram.new) }
        ensures rest { R.rest ram.new ≡ R.rest ram.old }
    {
        let full = self.is_full_for(ram, space, page);
        if full {
            self.clear(ram);
        }
        full
    }

    /// Sets the entry of a page, in place of an older one: a frame of the board, and whether the page takes writes.
    /// True exactly where the slots did not suffice, and all else was removed first.
    pub fn fill<R: Ram>(
        &mut self,
        ram: &mut R,
        space: Space,
        page: u32,
        frame: u32,
        writable: bool,
    ) -> bool
        requires page { page < 2 ^ 20 }
        requires frame { frame < 2 ^ 20 }
        requires tables { Maps self.old (R.bytes ram.old) }
        ensures full { result ≡ full_for space page self.old.tables }
        ensures tables { Maps self.new (R.bytes ram.new) }
        ensures shadow { shadowed self.new (R.bytes ram.new)
            ≡ with_page_put space page frame writable (shadowed self.old (R.bytes ram.old)) }
        ensures area { self.new.area ≡ self.old.area }
        ensures stands { BothStand (R.bytes ram.new) self.new.area }
        ensures outside { OnlyArea self.old.area (R.bytes ram.old) (R.bytes ram.new) }
        ensures rest { R.rest ram.new ≡ R.rest ram.old }
    {
        let full = self.make_room(ram, space, page);
        let above = self.stand_pointers(ram, space, page / 8192);
        let slot = self.stand_pages(ram, space, page / 64, above);
        self.put(ram, space, page, slot, page_long(frame, writable));
        full
    }
}
