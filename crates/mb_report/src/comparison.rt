//! Outcomes that show the same.

ghost use Rattle.std.specs.Prelude.{◌≡◌, ◌↔◌, IsTrue};
ghost use Rattle.mb_model.specs.Seen.{seen_of};
ghost use Rattle.mb_report.specs.Same.{SameProcessor, SameRun, SameLine, SameTimer, same_seen};

use mb_instr::Regs;
use mb_model::{Cpu, Outcome};
use mb_port::Mmu;

fn same_mmu(a: &Mmu, b: &Mmu) -> bool
    ensures { IsTrue result ↔ (a.now ≡ b.now) }
{
    a == b
}

fn same_registers(a: &Regs, b: &Regs) -> bool
    ensures { IsTrue result ↔ (a.now ≡ b.now) }
{
    a == b
}

fn same_cpu(a: &Cpu, b: &Cpu) -> bool
    ensures { IsTrue result ↔ (a.now ≡ b.now) }
{
    same_registers(&a.regs, &b.regs)
        && a.vbr == b.vbr
        && a.sfc == b.sfc
        && a.dfc == b.dfc
        && a.cacr == b.cacr
        && a.stopped == b.stopped
}

/// The processors and the registers of translation.
fn same_processor(a: &Outcome, b: &Outcome) -> bool
    ensures { IsTrue result ↔ SameProcessor (seen_of a.now) (seen_of b.now) }
{
    same_cpu(a.cpu, b.cpu) && same_mmu(a.mmu, b.mmu)
}

/// What the machines have done so far.
fn same_run(a: &Outcome, b: &Outcome) -> bool
    ensures { IsTrue result ↔ SameRun (seen_of a.now) (seen_of b.now) }
{
    a.steps == b.steps && a.state == b.state && a.ram == b.ram
}

/// The serial lines with their consoles.
fn same_line(a: &Outcome, b: &Outcome) -> bool
    ensures { IsTrue result ↔ SameLine (seen_of a.now) (seen_of b.now) }
{
    a.console == b.console
        && a.lost == b.lost
        && a.queue == b.queue
        && a.ctrl == b.ctrl
        && a.status == b.status
}

/// The timers.
fn same_timer(a: &Outcome, b: &Outcome) -> bool
    ensures { IsTrue result ↔ SameTimer (seen_of a.now) (seen_of b.now) }
{
    a.period == b.period && a.count == b.count && a.pending == b.pending
}

/// Everything that outcomes show.
fn same_parts(a: &Outcome, b: &Outcome) -> bool
    ensures { IsTrue result ↔ (seen_of a.now ≡ seen_of b.now) }
{
    same_processor(a, b) && same_run(a, b) && same_line(a, b) && same_timer(a, b)
}

/// Whether two outcomes show the same in all; then their texts are the same, but for the guest's number.
pub fn same(a: &Outcome, b: &Outcome) -> bool
    ensures tested { result ≡ same_seen (seen_of a.now) (seen_of b.now) }
    ensures equal { IsTrue result ↔ (seen_of a.now ≡ seen_of b.now) }
{
    same_parts(a, b)
}
