//! Whether a guest's machine can be as saved.

ghost use Rattle.std.specs.Prelude.{◌≡◌, ◌<◌, ◌≤◌, ◌↔◌, All, IsTrue, length};
ghost use Rattle.std.specs.List.{AllPairs};
ghost use Rattle.mb_port.specs.declared.types.MmuReg.{MmuReg as AnyRegister};
ghost use Rattle.mb_port.specs.declared.types.MmuReg.TheVariants.{Tc, Itt0, Itt1, Dtt0, Dtt1, Mmusr, Urp, Srp};
ghost use Rattle.mb_port.specs.Registers.{mmu_register};
ghost use Rattle.mb_instr.specs.declared.control.ControlRegister.TheVariants as control;
ghost use Rattle.mb_instr.specs.Control.{kept_bits};
ghost use Rattle.mb_model.specs.Keeping.{rule_k, Apart, NamesPages};
ghost use Rattle.mb_saved.specs.Saved.{is_stopped, is_zero, AgreesWith, CanBeKept, Fits, HasBits, IsLawful, IsLine, IsRamBytes};

use crate::line::RamLine;
use crate::rooms::{LINE_BYTES, MOST_QUEUED, MOST_RAM, MOST_SENT, RAM_UNIT};
use crate::saved::SavedGuest;
use mb_instr::ControlRegister;
use mb_model::{Cpu, GUEST_CAPACITY, Kept, RunState, entry_in, kept_status};
use mb_port::{Mmu, MmuReg};

/// Whether a guest can have so many bytes of RAM.
fn is_ram(bytes: u32) -> bool
    ensures { IsTrue result ↔ IsRamBytes bytes }
{
    RAM_UNIT <= bytes && bytes <= MOST_RAM && bytes % RAM_UNIT == 0
}

/// Whether a register can hold a value.
fn fits(register: ControlRegister, value: u32) -> bool
    ensures { IsTrue result ↔ Fits (kept_bits register) value }
{
    value & register.kept_bits() == value
}

/// Whether the transparent registers can hold their values.
fn has_transparent_bits(mmu: &Mmu) -> bool
    ensures { IsTrue result
        ↔ (Fits (kept_bits (control.Mmu Itt0)) mmu.now.itt0 × Fits (kept_bits (control.Mmu Itt1)) mmu.now.itt1
        × Fits (kept_bits (control.Mmu Dtt0)) mmu.now.dtt0 × Fits (kept_bits (control.Mmu Dtt1)) mmu.now.dtt1) }
{
    fits(ControlRegister::Mmu(MmuReg::Itt0), mmu.itt0)
        && fits(ControlRegister::Mmu(MmuReg::Itt1), mmu.itt1)
        && fits(ControlRegister::Mmu(MmuReg::Dtt0), mmu.dtt0)
        && fits(ControlRegister::Mmu(MmuReg::Dtt1), mmu.dtt1)
}

/// Whether the registers of the search can hold their values.
fn has_search_bits(mmu: &Mmu) -> bool
    ensures { IsTrue result
        ↔ (Fits (kept_bits (control.Mmu Tc)) mmu.now.tc × Fits (kept_bits (control.Mmu Mmusr)) mmu.now.mmusr
        × Fits (kept_bits (control.Mmu Urp)) mmu.now.urp × Fits (kept_bits (control.Mmu Srp)) mmu.now.srp) }
{
    fits(ControlRegister::Mmu(MmuReg::Tc), mmu.tc)
        && fits(ControlRegister::Mmu(MmuReg::Mmusr), mmu.mmusr)
        && fits(ControlRegister::Mmu(MmuReg::Urp), mmu.urp)
        && fits(ControlRegister::Mmu(MmuReg::Srp), mmu.srp)
}

/// Whether all registers of translation can hold their values.
fn has_translation_bits(mmu: &Mmu) -> bool
    ensures { IsTrue result
        ↔ ((which : AnyRegister) → Fits (kept_bits (control.Mmu which)) (mmu_register mmu.now which)) }
{
    has_transparent_bits(mmu) && has_search_bits(mmu)
}

/// Whether all registers can hold their values.
fn has_bits(cpu: &Cpu, mmu: &Mmu) -> bool
    ensures { IsTrue result ↔ HasBits cpu.now mmu.now }
{
    kept_status(u32::from(cpu.regs.sr)) == cpu.regs.sr
        && fits(ControlRegister::Sfc, u32::from(cpu.sfc))
        && fits(ControlRegister::Dfc, u32::from(cpu.dfc))
        && fits(ControlRegister::Cacr, cpu.cacr)
        && has_translation_bits(mmu)
}

/// Whether STOP holds the processor exactly where it says so.
fn is_held(cpu: &Cpu, state: RunState) -> bool
    ensures { IsTrue result ↔ (cpu.now.stopped ≡ is_stopped state) }
{
    cpu.stopped == (state == RunState::Stopped)
}

/// Whether an entry is of a page and of a frame.
fn names_pages(kept: &Kept) -> bool
    ensures { IsTrue result ↔ NamesPages kept.now }
{
    kept.page < 1 << 20 && kept.frame < 1 << 20
}

fn all_name_pages(kept: &[Kept]) -> bool
    ensures { IsTrue result ↔ All NamesPages kept.now }
{
    kept.iter().all(|k| names_pages(k))
}

/// Whether there is at most one entry of a space and page.
fn are_apart(kept: &[Kept]) -> bool
    ensures { IsTrue result ↔ Apart kept.now }
{
    for place in 0..kept.len() {
        let k = kept[place];
        if entry_in(&kept[place + 1..], k.space, k.page).is_some() {
            return false;
        }
    }
    true
}

/// Whether so much can be kept.
fn can_be_kept(kept: &[Kept]) -> bool
    ensures { IsTrue result ↔ CanBeKept kept.now }
{
    kept.len() <= GUEST_CAPACITY as usize && all_name_pages(kept) && are_apart(kept)
}

/// Whether a row of bytes is all zero.
fn is_zero(row: &[u8]) -> bool
    ensures { result ≡ is_zero row.now }
{
    row.iter().all(|byte| *byte == 0)
}

/// Whether a line is one of so many bytes of RAM.
fn is_line(size: u32, line: &RamLine) -> bool
    ensures { IsTrue result ↔ IsLine size line.now }
{
    line.at % LINE_BYTES == 0
        && LINE_BYTES <= size
        && line.at <= size - LINE_BYTES
        && !is_zero(&line.bytes)
}

fn are_lines(size: u32, lines: &[RamLine]) -> bool
    ensures { IsTrue result ↔ All (IsLine size) lines.now }
{
    lines.iter().all(|line| is_line(size, line))
}

/// Whether each line stands below all later ones.
fn ascend(lines: &[RamLine]) -> bool
    ensures { IsTrue result ↔ AllPairs (λ first later. first.at < later.at) lines.now }
{
    for place in 1..lines.len() {
        if lines[place - 1].at >= lines[place].at {
            return false;
        }
    }
    true
}

/// Whether STATUS can say this beside the queue.
fn agrees(queue: &[u8], status: u32) -> bool
    ensures { IsTrue result ↔ AgreesWith queue.now status }
{
    status == u32::from(!queue.is_empty()) + 2 + 4 * (status / 4 % 2)
}

impl SavedGuest {
    /// The serial line.
    fn has_line(&self) -> bool
        ensures { IsTrue result ↔ ((length self.now.console ≤ MOST_SENT) × (length self.now.queue ≤ MOST_QUEUED)
            × AgreesWith self.now.queue self.now.status × (self.now.ctrl < 2)) }
    {
        self.console().len() <= MOST_SENT
            && self.queue().len() <= MOST_QUEUED
            && agrees(self.queue(), self.status())
            && self.ctrl() < 2
    }

    /// The timer.
    fn has_timer(&self) -> bool
        ensures { IsTrue result ↔ ((self.now.count ≤ self.now.period) × (0 < self.now.period → 0 < self.now.count)
            × (self.now.pending < 2)) }
    {
        self.count() <= self.period()
            && (self.count() > 0 || self.period() == 0)
            && self.pending() < 2
    }

    /// Whether a guest's machine can be so.
    pub fn is_lawful(&self) -> bool
        ensures { IsTrue result ↔ IsLawful self.now }
    {
        is_ram(self.ram())
            && has_bits(self.cpu(), self.mmu())
            && is_held(self.cpu(), self.state())
            && can_be_kept(self.kept())
            && are_lines(self.ram(), self.lines())
            && ascend(self.lines())
            && self.has_line()
            && self.has_timer()
    }
}
