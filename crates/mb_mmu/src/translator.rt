//! Where a reference leads, as far as no table is searched.

ghost use Rattle.std.specs.Prelude.{◌≡◌, ◌+◌, ◌/◌, ◌<◌, ◌≤◌, IfOk, IfSome, true, false};
ghost use Rattle.mb_port.specs.Flushes.{NamesPage};
ghost use Rattle.mb_port.specs.Registers.{with_mmu_register};
ghost use Rattle.mb_model.specs.Keeping.{NamesPages, entry_for, filled, flushed, rule_a};
ghost use Rattle.mb_model.specs.Pages.{offset_of, page_of as page_number};
ghost use Rattle.def_machine.specs.Access.{by_entry as by_kept_entry, LeadsTo};
ghost use Rattle.def_machine.specs.declared.reference.Reference.{Reference};
ghost use Rattle.def_machine.specs.declared.reference.Settled.TheVariants.{To};
ghost use Rattle.mb_mmu.specs.MicroTlb.{nothing};
ghost use Rattle.mb_mmu.specs.Modes.{is_off};
ghost use Rattle.mb_mmu.specs.State.{at_reset, settled_by};
ghost use Rattle.mb_mmu.specs.Sound.{IsAccess, LeadsIntoRam};

use crate::micro_tlb::MicroTlb;
use crate::modes::{Mode, direct_bytes, mode_of};
use def_machine::{MMU_AT_RESET, Reference, Settled, by_entry, untranslated};
use mb_atc::Atc;
use mb_model::{Kept, PAGE_SIZE, page_of};
use mb_outside::Memory;
use mb_port::{Flush, Mmu, MmuReg, Space};
use std::alloc::Global;
use std::marker::Model;

/// The registers of the memory management unit, and the translations that are kept by the board's rule.
#[derive(Drop)]
pub struct Translator {
    mmu: Mmu,
    /// What the registers come to, so that an access need not look at each.
    mode: Mode,
    /// The bytes from address 0 on in which each reference leads to its own address.
    direct: u32,
    kept: Atc,
    /// Where accesses led to last, so that most need not look at what is kept. A register that is written and a flush
    /// empty it, and a fill takes from it what stands where its class does.
    recent: MicroTlb,
    /// Whether something may stand there.
    remembers: bool,
    /// The bytes of RAM.
    ram: u32,
}

impl Model for Translator {
    ghost use Rattle.std.specs.Prelude.{◌≡◌, false};
    ghost use Rattle.mb_mmu.specs.State.{Translation};
    ghost use Rattle.mb_mmu.specs.Modes.{direct_bytes, mode_of};
    ghost use Rattle.mb_mmu.specs.MicroTlb.{nothing};
    ghost use Rattle.mb_mmu.specs.Sound.{IsSound};

    ghost Value = { Translation };

    ghost view = { λ t. record { mmu = t.mmu; kept = t.kept; ram = t.ram } };

    ghost invariant = { λ t. (t.mode ≡ mode_of t.mmu) × (t.direct ≡ direct_bytes t.mmu t.ram)
        × (t.remembers ≡ false → t.recent ≡ nothing)
        × IsSound (record { mmu = t.mmu; kept = t.kept; ram = t.ram }) t.recent };
}

/// Empties a micro-TLB in which something may stand, or nothing does.
fn forget(recent: &mut MicroTlb, remembers: &mut bool)
    requires { remembers.old ≡ false → recent.old ≡ nothing }
    ensures empty { recent.new ≡ nothing }
    ensures forgotten { remembers.new ≡ false }
{
    if *remembers {
        *recent = MicroTlb::new();
        *remembers = false;
    }
}

impl Translator {
    /// Nothing is translated and nothing kept, over so many bytes of RAM.
    pub fn new(alloc: Global, ram: u32) -> Result<Translator, Memory>
        ensures { IfOk result (λ t. t ≡ at_reset ram) }
    {
        let kept = Atc::new(alloc)?;
        let recent = MicroTlb::new();
        Ok(Translator {
            mmu: MMU_AT_RESET,
            mode: Mode::Direct,
            direct: ram,
            kept,
            recent,
            remembers: false,
            ram,
        })
    }

    /// As it is made.
    pub fn reset(&mut self)
        ensures { self.new ≡ at_reset self.old.ram }
    {
        self.mmu = MMU_AT_RESET;
        self.mode = Mode::Direct;
        self.direct = self.ram;
        self.kept.clear();
        forget(&mut self.recent, &mut self.remembers);
    }

    /// The registers.
    pub fn mmu(&self) -> &Mmu
        ensures { result.now ≡ self.now.mmu }
    {
        &self.mmu
    }

    /// Writes a register, with all bits of the value.
    pub fn set_mmu(&mut self, which: MmuReg, value: u32)
        ensures { self.new ≡ record self.old { mmu = with_mmu_register self.old.mmu which value } }
    {
        self.mmu.set(which, value);
        self.mode = mode_of(&self.mmu);
        self.direct = direct_bytes(&self.mmu, self.ram);
        forget(&mut self.recent, &mut self.remembers);
    }

    /// Keeps an entry for a side.
    pub fn fill(&mut self, code: bool, k: Kept)
        requires { NamesPages k }
        ensures { self.new ≡ record self.old { kept = filled rule_a code k self.old.kept } }
    {
        self.kept.fill(code, k);
        if self.remembers {
            self.recent.drop_class(code, k.page);
        }
    }

    /// Drops entries of both sides.
    pub fn flush(&mut self, what: Flush)
        requires { NamesPage what }
        ensures { self.new ≡ record self.old { kept = flushed what self.old.kept } }
    {
        self.kept.flush(what);
        forget(&mut self.recent, &mut self.remembers);
    }

    /// Point 3: what the kept entry of its page says.
    #[inline(always)]
    fn by_kept(&self, r: Reference) -> Settled
        ensures settled { result ≡ by_kept_entry r (entry_for rule_a r.code r.space (page_number r.at) self.now.kept) }
        ensures offset { LeadsTo result (λ at. offset_of at ≡ offset_of r.at) }
    {
        by_entry(r, self.kept.find(r.code, r.space, page_of(r.at)))
    }

    /// What is known of a reference where a transparent register may match it. It is given by its fields, so that it
    /// need not stand in memory where none may.
    #[inline(never)]
    fn by_registers(&self, code: bool, space: Space, at: u32, write: bool) -> Settled
        ensures settled { result
            ≡ settled_by self.now (record { code = code; space = space; at = at; write = write }) }
        ensures offset { LeadsTo result (λ to. offset_of to ≡ offset_of at) }
    {
        let r = Reference {
            code,
            space,
            at,
            write,
        };
        match untranslated(&self.mmu, r) {
            Some(protected) if protected && r.write => Settled::Refused,
            Some(_) => Settled::To(r.at),
            None => self.by_kept(r),
        }
    }

    /// What is known of a reference without a search.
    #[inline(always)]
    #[tactic(auto, using(crate::proofs::Modal::modes))]
    fn settled(&self, r: Reference) -> Settled
        ensures settled { result ≡ settled_by self.now r }
        ensures offset { LeadsTo result (λ at. offset_of at ≡ offset_of r.at) }
    {
        match self.mode {
            Mode::Direct => Settled::To(r.at),
            Mode::Tables => self.by_kept(r),
            Mode::UserTables if matches!(r.space, Space::User) => self.by_kept(r),
            Mode::UserTables | Mode::Registers => {
                self.by_registers(r.code, r.space, r.at, r.write)
            }
        }
    }

    /// Remembers where an access leads, whose page lies whole in RAM.
    fn remember_page(&mut self, r: Reference, place: u32)
        requires access { IsAccess r }
        requires leads { settled_by self.old r ≡ To place }
        requires inside { page_number place < self.old.ram / PAGE_SIZE }
        ensures { self.new ≡ self.old }
    {
        self.recent.set(r, place);
        self.remembers = true;
    }

    /// Remembers where an access leads, if its page lies whole in RAM.
    fn remember(&mut self, r: Reference, place: u32)
        requires access { IsAccess r }
        requires leads { settled_by self.old r ≡ To place }
        ensures { self.new ≡ self.old }
    {
        if page_of(place) < self.ram / PAGE_SIZE {
            self.remember_page(r, place);
        }
    }

    /// What is known of an access without a search. Where it leads is remembered for `place`, if the page lies in RAM.
    #[inline(always)]
    pub fn settle(&mut self, r: Reference) -> Settled
        requires { IsAccess r }
        ensures settled { result ≡ settled_by self.old r }
        ensures offset { LeadsTo result (λ at. offset_of at ≡ offset_of r.at) }
        ensures same { self.new ≡ self.old }
    {
        let settled = self.settled(r);
        if let Settled::To(place) = settled {
            self.remember(r, place);
        }
        settled
    }

    /// Whether translation is off, and so is each transparent register: then each reference leads to its own address.
    #[inline(always)]
    #[tactic(auto, using(crate::proofs::Modal::modes))]
    pub fn is_direct(&self) -> bool
        ensures off { result ≡ is_off self.now.mmu }
    {
        matches!(self.mode, Mode::Direct)
    }

    /// Where so many bytes lie that a reference leads to, which is in RAM, if translation and each transparent register
    /// are off. `None` says nothing.
    #[inline(always)]
    pub fn place_directly(&self, r: Reference, len: u8) -> Option<u32>
        requires some { 0 < len }
        ensures leads { IfSome result (λ at. settled_by self.now r ≡ To at) }
        ensures inside { IfSome result (λ at. at + len ≤ self.now.ram) }
        ensures own { IfSome result (λ at. at ≡ r.at) }
    {
        if u64::from(r.at) + u64::from(len) > u64::from(self.direct) {
            return None;
        }
        Some(r.at)
    }

    /// Where an access leads at once, which is in RAM. `None` says nothing.
    #[inline(always)]
    pub fn place(&self, r: Reference) -> Option<u32>
        requires { IsAccess r }
        ensures { IfSome result (LeadsIntoRam self.now r) }
    {
        self.recent.place(r)
    }
}
