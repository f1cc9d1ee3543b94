//! Reads that the board was refused, and the instruction that it begins again once they are filled.

ghost use Rattle.std.specs.Prelude.{◌≡◌, ◌<◌, Some, None, false, if◌then◌else◌};
ghost use Rattle.mb_model.specs.Status.{space_of};
ghost use Rattle.def_guests.specs.Refills.{refilled_at};
ghost use Rattle.def_guests.specs.Seats.{end_of, guested_on, IsSeated};
ghost use Rattle.def_guests.specs.Turns.{bus_side};
ghost use Rattle.law_held.specs.Truth.{Fine};
ghost use Rattle.law_turns.specs.Reads.{is_read, read_by_frame};
ghost use Rattle.vm_guest.specs.Memory.{OnlyBetween};
ghost use Rattle.vm_guest.specs.Stops.{with_bus_of};

use crate::guest::Guest;
use def_machine::Reference;
use mb_entry::continues;
use mb_frames::{Access, Frame, LK, RW};
use mb_port::{Space, word_has};
use mb_walk::Ram;
use vm_port::{GuestMemory, GuestPort};

/// Whether a fetch or a read of an operand was refused: of the special status word RW is set, and neither CM nor LK.
fn is_read(access: &Access) -> bool
    ensures { result ≡ is_read access.now }
{
    !continues(access) && word_has(access.ssw, RW) && !word_has(access.ssw, LK)
}

/// The read that was refused, as the guest makes it in this space.
fn read_by_frame(space: Space, frame: &Frame) -> Option<Reference>
    ensures means { result ≡ read_by_frame space frame.now }
{
    match frame {
        Frame::Access { access, .. } if is_read(access) => Some(Reference {
            code: access.ssw & 3 == 2,
            space,
            at: access.fa,
            write: false,
        }),
        _ => None,
    }
}

impl Guest {
    /// Fills and puts the read that the board was refused, where its instruction begins again then. Answers whether it
    /// does.
    pub(crate) fn refill<R: Ram>(&mut self, ram: &mut R, frame: &Frame) -> bool
        requires begun { 0 < self.old.steps }
        requires seated { IsSeated self.old (R.bytes ram.old) }
        ensures reads { refilled_at (bus_side (guested_on self.old (R.bytes ram.old)))
            (read_by_frame (space_of self.old.cpu) frame.now)
            ≡ if result then Some (bus_side (guested_on self.new (R.bytes ram.new))) else None }
        ensures fine { Fine self.old.size (bus_side (guested_on self.old (R.bytes ram.old))) }
        ensures guest { self.new ≡ with_bus_of self.old self.new }
        ensures still { result ≡ false → (self.new ≡ self.old) × (ram.new ≡ ram.old) }
        ensures seated { IsSeated self.new (R.bytes ram.new) }
        ensures within { OnlyBetween self.old.base (end_of self.old) (R.bytes ram.old) (R.bytes ram.new) }
        ensures rest { R.rest ram.new ≡ R.rest ram.old }
    {
        let _ = ram.size();
        let _ = self.tlb.entry(0);
        let Some(read) = read_by_frame(self.cpu.space(), frame) else {
            return false;
        };
        let memory = GuestMemory::new(ram, self.base, self.size, &mut self.shadow);
        let mut port = GuestPort::new(memory, &mut self.devices, &mut self.mmu, &mut self.tlb);
        port.refill(read)
    }
}
