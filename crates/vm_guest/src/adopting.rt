//! A guest that goes on from a saved machine.

ghost use Rattle.std.specs.Prelude.{◌≡◌, ◌+◌, ◌^◌, ◌<◌, ◌≤◌, [], length, slice_get, All};
ghost use Rattle.mb_srec.specs.Image.{LiesBelow};
ghost use Rattle.mb_walk.specs.Memory.{overwritten, with_contents, chunk_from, contents_from};
ghost use Rattle.def_machine.specs.Machine.{with_ram};
ghost use Rattle.mb_board.specs.Beside.{but_ram};
ghost use Rattle.mb_board.specs.State.{machine_in, with_machine};
ghost use Rattle.mb_saved.specs.Lines.{content_of, contents_of};
ghost use Rattle.mb_saved.specs.Saved.{CanBeKept, IsLawful};
ghost use Rattle.def_guests.specs.Seats.{turned_on, IsSame, IsSeated};
ghost use Rattle.vm_saved.specs.Saved.{machine_of};
ghost use Rattle.vm_saved.specs.Begins.{beginning};
ghost use Rattle.vm_guest.specs.Memory.{OnlyBetween};

use crate::counts::Counts;
use crate::guest::Guest;
use crate::loading::clear;
use mb_board::{Board, place_behind};
use mb_model::Kept;
use mb_port::Flush;
use mb_saved::{RamLine, SavedGuest};
use mb_walk::Ram;
use vm_tlb::Tlb;

/// Writes a line that lies in memory, its address counted from `base` on.
#[tactic(auto, using(mb_walk::proofs::MemoryLemmas::writes))]
fn load_line(board: &mut Board, base: u32, line: &RamLine)
    requires small { length board.old.world.ram < 2 ^ 32 }
    requires lies { LiesBelow (length board.old.world.ram) (chunk_from base (content_of line.now)) }
    ensures after { board.new ≡ with_machine board.old (with_ram (machine_in board.old)
        (overwritten board.old.world.ram (base + line.now.at) line.now.bytes)) }
    ensures size { length board.new.world.ram ≡ length board.old.world.ram }
{
    board.write_phys(base + line.at, &line.bytes);
}

/// Writes lines that lie in memory, their addresses counted from `base` on.
fn load_lines(board: &mut Board, base: u32, lines: &[RamLine])
    requires small { length board.old.world.ram < 2 ^ 32 }
    requires lie { All (LiesBelow (length board.old.world.ram)) (contents_from base (contents_of lines.now)) }
    ensures after { board.new ≡ with_machine board.old (with_ram (machine_in board.old)
        (with_contents board.old.world.ram (contents_from base (contents_of lines.now)))) }
    ensures size { length board.new.world.ram ≡ length board.old.world.ram }
{
    for line in lines {
        load_line(board, base, line);
    }
}

/// Keeps these entries and no others, in their order.
fn adopt_kept(tlb: &mut Tlb, kept: &[Kept])
    requires { CanBeKept kept.now }
    ensures { tlb.new ≡ kept.now }
{
    tlb.flush(Flush::All);
    for &k in kept {
        tlb.fill(k);
    }
}

impl Guest {
    /// A guest that has taken no step becomes a saved one: its machine, but for its disk, is the saved one, nothing is
    /// in its shadow, and nothing is counted. Of its script counts what comes at later steps than the saved ones. Of
    /// the board nothing changes but the guest's RAM. It takes no memory.
    pub fn adopt(&mut self, board: &mut Board, saved: &SavedGuest)
        requires seated { IsSeated self.old board.old.world.ram }
        requires fresh { self.old.steps ≡ 0 }
        requires lawful { IsLawful saved.now }
        requires size { saved.now.ram ≡ self.old.size }
        ensures begins { turned_on self.new board.new.world.ram [] 0
            ≡ beginning (machine_of self.old.devices.disk saved.now) }
        ensures same { IsSame self.old self.new }
        ensures seated { IsSeated self.new board.new.world.ram }
        ensures within { OnlyBetween self.old.base (self.old.base + self.old.size)
            board.old.world.ram board.new.world.ram }
        ensures others { but_ram board.new ≡ but_ram board.old }
    {
        let _size = board.size();
        clear(board, self.base, self.size);
        load_lines(board, self.base, saved.lines());
        self.devices.adopt(saved);
        adopt_kept(&mut self.tlb, saved.kept());
        self.cpu = *saved.cpu();
        self.mmu = *saved.mmu();
        self.next = place_behind(&self.script, saved.steps());
        self.steps = saved.steps();
        self.state = saved.state();
        self.counts = Counts::none();
    }

    /// What the guest keeps, from the oldest on. `None` exactly where the place is not below the count.
    pub fn kept(&self, place: u32) -> Option<Kept>
        ensures entry { result ≡ slice_get self.now.kept place }
        ensures kept { CanBeKept self.now.kept }
    {
        self.tlb.entry(place)
    }
}
