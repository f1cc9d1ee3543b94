//! A guest's RAM in a part of a board's memory, with the tables of its shadow behind it.

ghost use Rattle.std.specs.Prelude.{◌≡◌, ◌+◌, ◌*◌, ◌%◌, ◌≤◌, ◌<◌, ◌^◌, length, false, true};
ghost use Rattle.mb_model.specs.declared.pages.TheConstants.{PAGE_SIZE};
ghost use Rattle.vm_shadow.specs.declared.area.TheConstants.{AREA_BYTES};
ghost use Rattle.vm_shadow.specs.Area.{Maps};
ghost use Rattle.vm_shadow.specs.Mapped.{shadowed};
ghost use Rattle.vm_shadow.specs.Shadows.{nothing, with_page_put, dropped};
ghost use Rattle.def_guests.specs.Bus.{is_in_ram};
ghost use Rattle.def_guests.specs.Guests.{allows};
ghost use Rattle.vm_port.specs.Own.{IsPlaced};

use def_machine::Reference;
use mb_model::page_of;
use mb_port::{Place, Space};
use mb_walk::Ram;
use vm_shadow::Shadow;

/// A guest's memory. Its tables map the shadow, each entry to its frame in the guest's RAM.
#[derive(Drop)]
pub struct GuestMemory<'a, R: Ram> {
    /// The board's memory.
    pub(crate) ram: &'a mut R,
    pub(crate) shadow: &'a mut Shadow,
    /// Where the guest's RAM begins in it.
    pub(crate) base: u32,
    /// The bytes of the guest's RAM.
    pub(crate) size: u32,
    /// Whether the shadow may have changed since the bus was made.
    pub(crate) changed: bool,
    ghost aligned: { base % AREA_BYTES ≡ 0 },
    ghost whole: { size % AREA_BYTES ≡ 0 },
    ghost small: { length (R.bytes ram.now) < 2 ^ 32 },
    ghost inside: { base + size + AREA_BYTES ≤ length (R.bytes ram.now) },
    ghost area: { shadow.now.area ≡ base + size },
    ghost maps: { Maps shadow.now (R.bytes ram.now) },
    ghost placed: { IsPlaced base (shadowed shadow.now (R.bytes ram.now)) },
}

impl<'a, R: Ram> GuestMemory<'a, R> {
    /// The memory of a guest whose RAM is `size` bytes of `ram` from `base` on, with the area of its tables behind it.
    /// Both are multiples of 65,536.
    pub fn new(ram: &'a mut R, base: u32, size: u32, shadow: &'a mut Shadow) -> GuestMemory<'a, R>
        requires aligned { base % AREA_BYTES ≡ 0 }
        requires whole { size % AREA_BYTES ≡ 0 }
        requires area { shadow.old.area ≡ base + size }
        requires maps { Maps shadow.old (R.bytes ram.old) }
        requires placed { IsPlaced base (shadowed shadow.old (R.bytes ram.old)) }
        ensures ram { (result.ram.ghost_name ≡ ram.entry.ghost_name) × (result.ram.now ≡ ram.old) }
        ensures shadow { (result.shadow.ghost_name ≡ shadow.entry.ghost_name) × (result.shadow.now ≡ shadow.old) }
        ensures place { (result.base ≡ base) × (result.size ≡ size) }
        ensures unchanged { result.changed ≡ false }
    {
        let _ = ram.size();
        GuestMemory {
            ram,
            shadow,
            base,
            size,
            changed: false,
        }
    }
}

impl<R: Ram> GuestMemory<'_, R> {
    ghost use Rattle.vm_port.specs.Parts.{around_of, ram_of, shadow_of};

    /// Whether the page of a place is one of RAM.
    #[tactic(auto, using(crate::proofs::Frames::lengths))]
    pub(crate) fn is_in_ram(&self, at: u32) -> bool
        ensures { result ≡ is_in_ram (length (ram_of self.now)) at }
    {
        page_of(at) < page_of(self.size)
    }

    /// Whether the shadow allows an access.
    #[tactic(auto, using(crate::proofs::Owns::letting))]
    pub(crate) fn allows(&self, r: Reference) -> bool
        ensures { result ≡ allows (shadow_of self.now) r }
    {
        match self.shadow.find(self.ram, r.space, page_of(r.at)) {
            Some((_, writable)) => !r.write || writable,
            None => false,
        }
    }

    /// Puts an entry with a frame of the guest. Where the slots do not suffice, all else goes first.
    pub(crate) fn put_page(&mut self, space: Space, page: u32, frame: u32, writable: bool)
        requires page { page < 2 ^ 20 }
        requires frame { PAGE_SIZE * frame + PAGE_SIZE ≤ self.old.size }
        ensures shadow { shadow_of self.new ≡ with_page_put space page frame writable (shadow_of self.old) }
        ensures changed { self.new.changed ≡ true }
        ensures ram { ram_of self.new ≡ ram_of self.old }
        ensures around { around_of self.new ≡ around_of self.old }
    {
        self.changed = true;
        self.shadow.fill(self.ram, space, page, page_of(self.base) + frame, writable);
    }

    /// Removes the entry of a page.
    pub(crate) fn drop_page(&mut self, space: Space, page: u32)
        requires page { page < 2 ^ 20 }
        ensures shadow { shadow_of self.new ≡ dropped space page (shadow_of self.old) }
        ensures changed { self.new.changed ≡ true }
        ensures ram { ram_of self.new ≡ ram_of self.old }
        ensures around { around_of self.new ≡ around_of self.old }
    {
        self.changed = true;
        self.shadow.drop_page(self.ram, space, page);
    }

    /// Removes all entries and tables.
    pub(crate) fn clear(&mut self)
        ensures shadow { shadow_of self.new ≡ nothing }
        ensures changed { self.new.changed ≡ true }
        ensures ram { ram_of self.new ≡ ram_of self.old }
        ensures around { around_of self.new ≡ around_of self.old }
    {
        self.changed = true;
        self.shadow.clear(self.ram);
    }
}

/// The guest's RAM alone. All else of it is beside that.
impl<R: Ram> Ram for GuestMemory<'_, R> {
    ghost use Rattle.vm_port.specs.Parts.{ram_of, beside_of};
    ghost use Rattle.vm_port.specs.Around.{Beside};

    ghost bytes = { ram_of };

    ghost Rest = { Beside R.Rest };

    ghost rest = { beside_of };

    #[inline(always)]
    #[tactic(auto, using(crate::proofs::Frames::window))]
    fn size(&self) -> u32 {
        let _ = self.ram.size();
        self.size
    }

    #[inline(always)]
    #[tactic(auto, using(crate::proofs::Frames::numbers))]
    fn number(&self, place: Place) -> u32 {
        let at = self.base + place.at;
        self.ram.number(Place { at, ..place })
    }

    #[inline(always)]
    #[tactic(auto, using(crate::proofs::Frames::lengths))]
    fn set_number(&mut self, place: Place, value: u32) {
        let at = self.base + place.at;
        self.ram.set_number(Place { at, ..place }, value);
    }
}
