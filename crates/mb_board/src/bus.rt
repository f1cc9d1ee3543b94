//! What the board's bus holds, and what the board does with it beside its calls.

ghost use Rattle.std.specs.Prelude.{◌≡◌, ◌+◌, ◌^◌, ◌<◌, ◌≤◌, length, replicate, if◌then◌else◌, true, false, IfOk};
ghost use Rattle.mb_model.specs.Keeping.{rule_a};
ghost use Rattle.mb_walk.specs.Memory.{overwritten};
ghost use Rattle.mb_devices.specs.Devices.{idle, level_of, restarted, ticked};
ghost use Rattle.def_machine.specs.Machine.{aborts, arrived, world_at_reset};
ghost use Rattle.mb_board.specs.Arrivals.{IsNext};

use crate::ram::BoardRam;
use crate::receiving::{Arrival, receive};
use mb_devices::Devices;
use mb_mmu::Translator;
use mb_model::NON_MASKABLE;
use mb_outside::Memory;
use mb_port::Mmu;
use mb_script::{MOST_BOARD, Script};
use mb_walk::overwrite;
use std::alloc::Global;
use std::marker::Model;

/// The most bytes of RAM.
pub const MOST_BOARD_BYTES: u32 = 1024 * MOST_BOARD;

/// RAM from address 0 on, the memory management unit with the kept translations, and the devices.
#[derive(Drop)]
pub struct BoardBus {
    pub(crate) ram: BoardRam,
    pub(crate) translator: Translator,
    pub(crate) devices: Devices,
}

impl Model for BoardBus {
    ghost use Rattle.std.specs.Prelude.{◌≡◌, vec_len};
    ghost use Rattle.def_machine.specs.World.{World};

    ghost Value = { World };

    ghost view = { λ b. record {
      ram = b.ram.bytes.items;
      mmu = b.translator.mmu;
      devices = b.devices;
      kept = b.translator.kept;
    } };

    ghost invariant = { λ b. b.translator.ram ≡ vec_len b.ram.bytes };
}

impl BoardBus {
    /// A bus with so many bytes of RAM, all 0, idle devices and nothing kept.
    pub fn new(alloc: Global, size: u32) -> Result<BoardBus, Memory>
        requires { size ≤ MOST_BOARD_BYTES }
        ensures { IfOk result (λ bus. bus ≡ world_at_reset rule_a (idle size) (replicate size 0)) }
    {
        let Ok(bytes) = vec![in alloc; 0u8; size as usize] else {
            return Err(Memory);
        };
        Ok(BoardBus {
            ram: BoardRam { bytes },
            translator: Translator::new(alloc, size)?,
            devices: Devices::new(alloc, size)?,
        })
    }

    /// Resets all but RAM and the blocks of a disk.
    pub fn reset(&mut self)
        ensures { self.new ≡ world_at_reset rule_a (restarted self.old.devices) self.old.ram }
    {
        self.translator.reset();
        self.devices.restart();
    }

    /// Receives what arrives at the step after so many.
    #[inline(always)]
    pub fn receive(&mut self, script: &Script, taken: u32, next: u32) -> Arrival
        requires room { taken + 1 < 2 ^ 32 }
        requires next { IsNext script.now taken next }
        ensures means { self.new ≡ record self.old { devices = arrived (taken + 1) script.now self.old.devices } }
        ensures next { IsNext script.now (taken + 1) result.next }
        ensures aborted { result.aborted ≡ aborts (taken + 1) script.now }
    {
        receive(&mut self.devices, script, taken, next)
    }

    /// A step begins: the timer counts it.
    #[inline(always)]
    pub fn tick(&mut self)
        ensures { self.new ≡ record self.old { devices = ticked self.old.devices } }
    {
        self.devices.tick();
    }

    /// Whether the timer stands still.
    #[inline(always)]
    #[tactic(auto, unfolding(mb_devices::specs::Devices::ticked))]
    fn stands_still(&self) -> bool
        ensures { result ≡ true → ticked self.now.devices ≡ self.now.devices }
    {
        self.devices.period() == 0
    }

    /// The interrupt level that the devices ask for.
    #[inline(always)]
    pub fn level(&self) -> u8
        ensures means { result ≡ level_of self.now.devices }
        ensures within { result ≤ 6 }
    {
        self.devices.level()
    }

    /// The interrupt level that a step is asked for, where an abort has arrived for it or has not.
    pub fn asked(&self, aborted: bool) -> u8
        ensures means { result ≡ (if aborted then NON_MASKABLE else level_of self.now.devices) }
        ensures within { result < 8 }
    {
        if aborted { NON_MASKABLE } else { self.level() }
    }

    /// Whether the timer stands still, no interrupt is asked for and the machine is on.
    #[inline(always)]
    pub fn is_calm(&self) -> bool
        ensures still { result ≡ true → ticked self.now.devices ≡ self.now.devices }
        ensures unasked { result ≡ true → level_of self.now.devices ≡ 0 }
        ensures on { result ≡ true → self.now.devices.off ≡ false }
    {
        self.stands_still() && self.level() == 0 && !self.is_off()
    }

    /// Whether the machine is to be switched off at the end of the step.
    #[inline(always)]
    pub fn is_off(&self) -> bool
        ensures { result ≡ self.now.devices.off }
    {
        self.devices.is_off()
    }

    pub fn ram(&self) -> &[u8]
        ensures { result.now ≡ self.now.ram }
    {
        &self.ram.bytes
    }

    pub fn mmu(&self) -> &Mmu
        ensures { result.now ≡ self.now.mmu }
    {
        self.translator.mmu()
    }

    pub fn devices(&self) -> &Devices
        ensures { result.now ≡ self.now.devices }
    {
        &self.devices
    }

    /// Writes RAM from a place on.
    pub fn overwrite(&mut self, at: u32, bytes: &[u8])
        requires { at + length bytes.now ≤ length self.old.ram }
        ensures { self.new ≡ record self.old { ram = overwritten self.old.ram at bytes.now } }
    {
        overwrite(&mut self.ram.bytes, at as usize, bytes);
    }
}
