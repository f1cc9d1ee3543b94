//! A guest, and how it is prepared.

ghost use Rattle.std.specs.Prelude.{◌≡◌, ◌+◌, ◌%◌, ◌≤◌, [], length, IfOk, IfErr, All};
ghost use Rattle.mb_srec.specs.Image.{contents_of, LiesBelow};
ghost use Rattle.mb_model.specs.Seen.{seen_of};
ghost use Rattle.def_machine.specs.Machine.{diskless, seen_machine};
ghost use Rattle.mb_board.specs.Beside.{but_ram};
ghost use Rattle.vm_shadow.specs.declared.area.TheConstants.{AREA_BYTES};
ghost use Rattle.def_guests.specs.Turns.{prepared};
ghost use Rattle.def_guests.specs.Seats.{machine_on, turned_on, IsSeated};
ghost use Rattle.def_guests.specs.declared.limits.TheConstants.{MONITOR_BYTES};
ghost use Rattle.vm_guest.specs.Memory.{OnlyBetween};
ghost use Rattle.vm_guest.specs.Counting.{tally_in};

use crate::counts::Counts;
use crate::loading::clear;
use def_machine::MMU_AT_RESET;
use mb_board::{Board, place_behind};
use mb_devices::Devices;
use mb_model::{Cpu, Outcome, RunState};
use mb_outside::Memory;
use mb_port::Mmu;
use mb_script::Script;
use mb_srec::Image;
use mb_step::Decoder;
use mb_walk::Ram;
use std::alloc::Global;
use std::marker::Model;
use vm_shadow::Shadow;
use vm_tlb::Tlb;

/// A guest, but for its RAM and its tables, which stand on a board.
#[derive(Drop)]
pub struct Guest {
    pub(crate) cpu: Cpu,
    pub(crate) mmu: Mmu,
    pub(crate) devices: Devices,
    pub(crate) tlb: Tlb,
    pub(crate) shadow: Shadow,
    pub(crate) script: Script,
    /// The place in the script of what arrives next.
    pub(crate) next: u32,
    pub(crate) steps: u32,
    pub(crate) state: RunState,
    pub(crate) counts: Counts,
    /// Where its RAM begins on the board.
    pub(crate) base: u32,
    /// The bytes of its RAM.
    pub(crate) size: u32,
    /// What its own steps decode with; no part of the guest.
    pub(crate) decoder: Decoder,
}

impl Model for Guest {
    ghost use Rattle.std.specs.Prelude.{◌≡◌, ◌≤◌, []};
    ghost use Rattle.def_guests.specs.Turns.{steps_in};
    ghost use Rattle.def_guests.specs.Seats.{Seat};
    ghost use Rattle.mb_board.specs.Arrivals.{IsNext};
    ghost use Rattle.vm_guest.specs.Counting.{tally_in};

    ghost Value = { Seat };

    ghost view = { λ g. record {
      cpu = g.cpu;
      mmu = g.mmu;
      devices = g.devices;
      kept = g.tlb;
      slots = g.shadow;
      script = g.script;
      steps = g.steps;
      state = g.state;
      tally = tally_in g.counts;
      base = g.base;
      size = g.size;
    } };

    ghost invariant = { λ g. IsNext g.script g.steps g.next × (steps_in (tally_in g.counts) ≤ g.steps)
        × ((tally_in g.counts).refilled ≤ (tally_in g.counts).retired)
        × (g.steps ≡ 0 → g.shadow.tables ≡ []) };
}

impl Guest {
    /// A guest with an image in its RAM and no disk, after reset, with what is to arrive at its terminal: `ram` bytes
    /// of RAM stand on the board from `base` on, and 65,536 bytes for its tables behind them. It takes all the memory
    /// that it will need, and where that runs out, the board stays as it is.
    pub fn prepare(
        alloc: Global,
        image: Image,
        script: Script,
        ram: u32,
        base: u32,
        board: &mut Board,
    ) -> Result<Guest, Memory>
        requires ram { (65536 ≤ ram) × (ram % AREA_BYTES ≡ 0) }
        requires image { All (LiesBelow ram) (contents_of image) }
        requires base { (MONITOR_BYTES ≤ base) × (base % AREA_BYTES ≡ 0) }
        requires inside { base + ram + AREA_BYTES ≤ length board.old.world.ram }
        ensures start { IfOk result (λ guest.
            turned_on guest board.new.world.ram [] 0 ≡ prepared (diskless (contents_of image)) ram) }
        ensures script { IfOk result (λ guest. guest.script ≡ script) }
        ensures place { IfOk result (λ guest. (guest.base ≡ base) × (guest.size ≡ ram)) }
        ensures seated { IfOk result (λ guest. IsSeated guest board.new.world.ram) }
        ensures within { OnlyBetween base (base + ram + AREA_BYTES) board.old.world.ram board.new.world.ram }
        ensures others { but_ram board.new ≡ but_ram board.old }
        ensures refused { IfErr result (λ memory. board.new ≡ board.old) }
    {
        let _size = board.size();
        let Ok(decoder) = Decoder::new(alloc) else {
            return Err(Memory);
        };
        let devices = Devices::new(alloc, ram)?;
        let tlb = Tlb::new(alloc)?;
        let mut shadow = Shadow::new(alloc, base + ram)?;
        clear(board, base, ram);
        board.load(base, image.chunks());
        shadow.clear(board);
        let next = place_behind(&script, 0);
        Ok(Guest {
            cpu: Cpu::at_reset(board.long(base), board.long(base + 4)),
            mmu: MMU_AT_RESET,
            devices,
            tlb,
            shadow,
            script,
            next,
            steps: 0,
            state: RunState::Running,
            counts: Counts::none(),
            base,
            size: ram,
            decoder,
        })
    }

    /// What the guest shows, with its RAM on the board that it was prepared on.
    pub fn outcome<'a>(&'a self, board: &'a Board) -> Outcome<'a>
        requires { self.now.base + self.now.size ≤ length board.now.world.ram }
        ensures { seen_of result ≡ seen_machine (machine_on self.now board.now.world.ram) }
    {
        Outcome {
            cpu: &self.cpu,
            mmu: &self.mmu,
            console: self.devices.console(),
            lost: self.devices.lost(),
            queue: self.devices.queue(),
            ctrl: self.devices.ctrl(),
            status: self.devices.status(),
            period: self.devices.period(),
            count: self.devices.count(),
            pending: self.devices.pending(),
            steps: self.steps,
            state: self.state,
            ram: board.memory(self.base, self.size),
        }
    }

    /// How many steps of each class the guest has taken.
    pub fn counts(&self) -> Counts
        ensures { tally_in result ≡ self.now.tally }
    {
        self.counts
    }

    /// What arrives at the guest's terminal.
    pub fn script(&self) -> &Script
        ensures { result.now ≡ self.now.script }
    {
        &self.script
    }

    /// The guest's devices.
    pub fn devices(&self) -> &Devices
        ensures { result.now ≡ self.now.devices }
    {
        &self.devices
    }
}
