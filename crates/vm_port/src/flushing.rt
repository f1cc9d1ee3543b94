//! Registers of translation, flushes and tests: what is kept is dropped, and with each kept entry that goes its entry
//! in the shadow.

ghost use Rattle.std.specs.Prelude.{◌≡◌, ◌<◌, ◌^◌, false, true, if◌then◌else◌};
ghost use Rattle.vm_shadow.specs.Shadows.{nothing, dropped};
ghost use Rattle.mb_model.specs.Keeping.{rule_k, flushed, after_ptest as dropped_halves, after_movec, covers, NamesPages};
ghost use Rattle.mb_model.specs.Pages.{page_of as page_number, has_big_pages as has_big};
ghost use Rattle.def_machine.specs.Access.{matched};
ghost use Rattle.def_machine.specs.Bus.{tested, after_set_mmu};
ghost use Rattle.def_guests.specs.Bus.{dropped_all, shadow_after_flush, shadow_after_drop, shadow_after_test};

use crate::port::GuestPort;
use def_machine::{MMUSR_MATCHED, root};
use mb_instr::ControlRegister;
use mb_model::{Kept, has_big_pages, other_half, page_of};
use mb_port::{Flush, MmuReg, Space};
use mb_walk::{Ram, search, transparent};

impl<R: Ram> GuestPort<'_, R> {
    ghost use Rattle.vm_port.specs.Parts.{world_of, beyond_of, tables_of};

    /// The shadow loses the entry of a kept entry, where a flush covers that.
    fn leave_covered(&mut self, what: Flush, k: Kept)
        requires { NamesPages k }
        ensures shadow { tables_of self.new
            ≡ (if covers what k then dropped k.space k.page (tables_of self.old) else tables_of self.old) }
        ensures world { world_of self.new ≡ world_of self.old }
        ensures beyond { beyond_of self.new ≡ beyond_of self.old }
    {
        if k.is_covered(what) {
            self.memory.drop_page(k.space, k.page);
        }
    }

    /// The shadow loses the entry of each kept entry that a flush covers.
    fn leave_all(&mut self, what: Flush)
        ensures shadow { tables_of self.new ≡ dropped_all what self.old.tlb.now (tables_of self.old) }
        ensures world { world_of self.new ≡ world_of self.old }
        ensures beyond { beyond_of self.new ≡ beyond_of self.old }
    {
        let mut place = 0;
        while let Some(k) = self.tlb.entry(place) {
            self.leave_covered(what, k);
            place += 1;
        }
    }

    /// What a flush makes of the shadow.
    fn leave(&mut self, what: Flush)
        ensures shadow { tables_of self.new ≡ shadow_after_flush what (world_of self.old).kept (tables_of self.old) }
        ensures world { world_of self.new ≡ world_of self.old }
        ensures beyond { beyond_of self.new ≡ beyond_of self.old }
    {
        match what {
            Flush::All => self.memory.clear(),
            Flush::AllLocal | Flush::Page(_, _) | Flush::PageLocal(_, _) => self.leave_all(what),
        }
    }

    /// A flush.
    pub(crate) fn flushed(&mut self, what: Flush)
        ensures world { world_of self.new
            ≡ record (world_of self.old) { kept = flushed what (world_of self.old).kept } }
        ensures shadow { tables_of self.new ≡ shadow_after_flush what (world_of self.old).kept (tables_of self.old) }
        ensures changed { self.new.memory.changed ≡ true }
        ensures beyond { beyond_of self.new ≡ beyond_of self.old }
    {
        self.leave(what);
        self.tlb.flush(what);
        self.memory.changed = true;
    }

    /// What PTEST drops of a page, and of the other half of it where pages have 8 KiB.
    fn drop_halves(&mut self, space: Space, page: u32, big: bool)
        requires { page < 2 ^ 20 }
        ensures world { world_of self.new
            ≡ record (world_of self.old) { kept = dropped_halves big space page (world_of self.old).kept } }
        ensures shadow { tables_of self.new
            ≡ shadow_after_drop big space page (world_of self.old).kept (tables_of self.old) }
        ensures changed { self.new.memory.changed ≡ true }
        ensures beyond { beyond_of self.new ≡ beyond_of self.old }
    {
        self.flushed(Flush::Page(space, page));
        if big {
            self.flushed(Flush::Page(space, other_half(page)));
        }
    }

    /// All is forgotten where the rule says so of a register that is written.
    fn forget(&mut self, which: MmuReg)
        ensures world { world_of self.new
            ≡ record (world_of self.old) { kept = after_movec rule_k which (world_of self.old).kept } }
        ensures shadow { tables_of self.new ≡ (if rule_k.forgets which then nothing else tables_of self.old) }
        ensures changed { self.new.memory.changed ≡ (if rule_k.forgets which then true else self.old.memory.changed) }
        ensures beyond { beyond_of self.new ≡ beyond_of self.old }
    {
        match which {
            MmuReg::Mmusr => {}
            MmuReg::Tc
            | MmuReg::Itt0
            | MmuReg::Itt1
            | MmuReg::Dtt0
            | MmuReg::Dtt1
            | MmuReg::Urp
            | MmuReg::Srp => self.flushed(Flush::All),
        }
    }

    /// Sets a register of translation.
    pub(crate) fn set_register(&mut self, which: MmuReg, value: u32)
        ensures world { world_of self.new ≡ after_set_mmu rule_k which value (world_of self.old) }
        ensures shadow { tables_of self.new ≡ (if rule_k.forgets which then nothing else tables_of self.old) }
        ensures changed { self.new.memory.changed ≡ (if rule_k.forgets which then true else self.old.memory.changed) }
        ensures beyond { beyond_of self.new ≡ beyond_of self.old }
    {
        self.forget(which);
        self.registers
            .set(which, value & ControlRegister::Mmu(which).kept_bits());
    }

    /// PTEST of the page of an address: MMUSR then.
    pub(crate) fn tested(&mut self, space: Space, at: u32, write: bool) -> u32
        ensures means { (result, world_of self.new) ≡ tested space (page_number at) write (world_of self.old) }
        ensures shadow { tables_of self.new
            ≡ shadow_after_test (has_big (world_of self.old).mmu)
            (matched false (world_of self.old).mmu space (page_number at)) space (page_number at)
            (world_of self.old).kept (tables_of self.old) }
        ensures changed { self.new.memory.changed ≡ true }
        ensures beyond { beyond_of self.new ≡ beyond_of self.old }
    {
        self.memory.changed = true;
        if transparent(self.registers.dtt0, self.registers.dtt1, space, at).is_some() {
            return MMUSR_MATCHED;
        }
        let big = has_big_pages(self.registers);
        self.drop_halves(space, page_of(at), big);
        let root = root(self.registers, space);
        search(&mut self.memory, root, space, at, write, big).status()
    }
}
