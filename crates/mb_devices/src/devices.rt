//! The devices.

ghost use Rattle.std.specs.Prelude.{◌≡◌, ◌<◌, ◌≤◌, ◌^◌, ◌↔◌, length, vec_capacity, is_some, option_map};
ghost use Rattle.std.specs.Prelude.{IfOk, IfSome, IsNone, None};
ghost use Rattle.std.specs.Int.{from_bool};
ghost use Rattle.mb_saved.specs.Saved.{IsLawful};
ghost use Rattle.mb_devices.specs.Adopted.{devices_of};
ghost use Rattle.mb_devices.specs.Devices.{passed, IsNotDue};
ghost use Rattle.mb_devices.specs.Devices.{attached, idle, level_of, oldest, received, reset_of, restarted, sent, started};
ghost use Rattle.mb_devices.specs.Devices.{ticked, without_oldest};
ghost use Rattle.mb_devices.specs.Registers.{powered, read_of, register_at, register_row, status_of, write_of};

use crate::disk_slot;
use crate::register::Register;
use arrayvec::ArrayVec;
use circular_buffer::HeapCircularBuffer;
use mb_model::RunState;
use mb_outside::Memory;
use mb_port::Place;
use mb_saved::{MOST_QUEUED, MOST_SENT, SavedGuest};
use std::alloc::Global;
use std::marker::Model;
use vm_disk::Disk;

/// How many received bytes are queued.
pub const QUEUE_ROOM: usize = MOST_QUEUED;

/// How many sent bytes the console keeps.
pub const CONSOLE_ROOM: usize = MOST_SENT;

/// The devices of a board. All memory that they need is taken by `new`.
#[derive(Drop)]
pub struct Devices {
    ram: u32,
    queue: HeapCircularBuffer<u8>,
    overrun: bool,
    enabled: bool,
    console: Vec<u8>,
    lost: u64,
    period: u32,
    count: u32,
    pending: bool,
    off: bool,
    disk: Option<Disk>,
}

impl Model for Devices {
    ghost use Rattle.mb_devices.specs.Devices.{DeviceState};

    ghost Value = { DeviceState };

    ghost use Rattle.mb_devices.specs.Inside.{IsSound, state_of};

    ghost view = { state_of };

    ghost invariant = { IsSound };
}

/// The queue has these bytes and no others.
fn queue_all(queue: &mut HeapCircularBuffer<u8>, bytes: &[u8])
    requires room { length bytes.now ≤ queue.old.capacity }
    ensures items { queue.new.items ≡ bytes.now }
    ensures capacity { queue.new.capacity ≡ queue.old.capacity }
{
    queue.clear();
    queue.fill_from_slice(bytes);
}

/// The console has these bytes and no others.
fn keep_all(console: &mut Vec<u8>, bytes: &[u8])
    requires room { length bytes.now ≤ vec_capacity console.old }
    ensures items { console.new.items ≡ bytes.now }
    ensures capacity { vec_capacity console.new ≡ vec_capacity console.old }
{
    console.clear();
    for &byte in bytes {
        console.push_reserved(byte);
    }
}

impl Devices {
    /// Idle devices of a board with so many bytes of RAM and no disk. They take here all the memory that they need.
    pub fn new(alloc: Global, ram: u32) -> Result<Devices, Memory>
        ensures { IfOk result (λ devices. devices ≡ idle ram) }
    {
        let Ok(queue) = HeapCircularBuffer::with_capacity(alloc, QUEUE_ROOM) else {
            return Err(Memory);
        };
        let Ok(console) = Vec::with_capacity(alloc, CONSOLE_ROOM) else {
            return Err(Memory);
        };
        Ok(Devices {
            ram,
            queue,
            overrun: false,
            enabled: false,
            console,
            lost: 0,
            period: 0,
            count: 0,
            pending: false,
            off: false,
            disk: None,
        })
    }

    /// Attaches a disk.
    pub fn attach(&mut self, disk: Disk)
        requires { self.old.disk ≡ None }
        ensures { self.new ≡ attached disk self.old }
    {
        self.disk = Some(disk);
    }

    /// The disk. `None` comes exactly where none is attached.
    pub fn disk(&self) -> Option<&Disk>
        ensures { option_map (λ disk. disk.now) result ≡ self.now.disk }
    {
        self.disk.as_ref()
    }

    /// The register of just this address and size.
    fn register_at(&self, place: Place) -> Option<Register>
        ensures register { result ≡ register_at self.now place }
        ensures size { IfSome result (λ r. place.len ≡ (register_row r).size) }
    {
        match Register::at(place) {
            Some(register) => Some(register),
            None => disk_slot::register_at(&self.disk, place),
        }
    }

    /// Whether there is a register of just this address and size.
    pub fn has(&self, place: Place) -> bool
        ensures { result ≡ is_some (register_at self.now place) }
    {
        self.register_at(place).is_some()
    }

    /// Takes the oldest received byte; 0 where there is none.
    fn take_byte(&mut self) -> u8
        ensures byte { result ≡ oldest self.old }
        ensures after { self.new ≡ without_oldest self.old }
    {
        self.queue.pop_front().unwrap_or(0)
    }

    /// The console keeps a byte, or counts it as lost.
    fn send(&mut self, byte: u8)
        ensures { self.new ≡ sent byte self.old }
    {
        if self.console.len() < CONSOLE_ROOM {
            self.console.push_reserved(byte);
        } else {
            self.lost = self.lost.saturating_add(1);
        }
    }

    /// Reads a register: bytes and longs in the low bits. `None` comes exactly where there is no
    /// register of just this address and size.
    pub fn read(&mut self, place: Place) -> Option<u32>
        ensures means { (result, self.new) ≡ read_of place self.old }
        ensures none { IsNone result ↔ (register_at self.old place ≡ None) }
        ensures unchanged { IsNone result → self.new ≡ self.old }
        ensures bound { IfSome result (λ value. value < 256 ^ place.len) }
    {
        Some(match self.register_at(place)? {
            Register::Data => u32::from(self.take_byte()),
            Register::Status => self.status(),
            Register::Ctrl => self.ctrl(),
            Register::Period => self.period,
            Register::Count => self.count,
            Register::Ack => self.pending(),
            Register::Power => 0,
            Register::Size => self.ram,
            Register::Disk(register) => disk_slot::read(&mut self.disk, register),
        })
    }

    /// Writes a register; at a byte the low byte counts. A register that can only be read ignores it.
    /// `None` comes exactly where there is no register of just this address and size.
    pub fn write(&mut self, place: Place, value: u32) -> Option<()>
        ensures means { (result, self.new) ≡ write_of place value self.old }
        ensures none { IsNone result ↔ (register_at self.old place ≡ None) }
        ensures unchanged { IsNone result → self.new ≡ self.old }
    {
        match self.register_at(place)? {
            Register::Data => self.send((value & 0xff) as u8),
            Register::Status => self.overrun = false,
            Register::Ctrl => self.enabled = value & 1 == 1,
            Register::Period => self.start(value),
            Register::Ack => self.pending = false,
            Register::Power => self.set_power(value),
            Register::Count | Register::Size => {}
            Register::Disk(register) => disk_slot::write(&mut self.disk, register, value),
        }
        Some(())
    }

    /// Sets PERIOD, and COUNT to start from it.
    fn start(&mut self, period: u32)
        ensures { self.new ≡ started period self.old }
    {
        self.period = period;
        self.count = period;
    }

    /// 1 switches off when the step ends.
    fn set_power(&mut self, value: u32)
        ensures { self.new ≡ powered value self.old }
    {
        if value == 1 {
            self.off = true;
        }
    }

    /// A byte arrives on the serial line. Where the queue is full it is dropped and overrun is set.
    pub fn receive(&mut self, byte: u8)
        ensures { self.new ≡ received byte self.old }
    {
        if self.queue.try_push_back(byte).is_err() {
            self.overrun = true;
        }
    }

    /// One step of the machine passes: the timer counts it.
    #[inline(always)]
    #[tactic(auto, unfolding(crate::specs::Devices::ticked))]
    pub fn tick(&mut self)
        ensures { self.new ≡ ticked self.old }
    {
        if self.period == 0 {
            return;
        }
        self.count -= 1;
        if self.count == 0 {
            self.pending = true;
            self.count = self.period;
        }
    }

    /// So many steps of the machine pass at once: the timer counts them, and does not come to 0.
    pub fn pass(&mut self, n: u32)
        requires { IsNotDue n self.old }
        ensures { self.new ≡ passed n self.old }
    {
        if self.period != 0 {
            self.count -= n;
        }
    }

    /// The interrupt level that is asked for: 0, 4 or 6.
    #[inline(always)]
    pub fn level(&self) -> u8
        ensures means { result ≡ level_of self.now }
        ensures within { result ≤ 6 }
    {
        if self.pending {
            6
        } else if self.enabled && !self.queue.is_empty() {
            4
        } else {
            0
        }
    }

    /// What the instruction RESET does: all but the console, its lost count, the power switch and the blocks of an
    /// attached disk is as at the start.
    pub fn reset(&mut self)
        ensures { self.new ≡ reset_of self.old }
    {
        self.queue.clear();
        self.overrun = false;
        self.enabled = false;
        self.period = 0;
        self.count = 0;
        self.pending = false;
        disk_slot::reset(&mut self.disk);
    }

    /// The devices become as `new` makes them for the same RAM. An attached disk stays attached, its blocks as they
    /// are and all else of it as after RESET.
    pub fn restart(&mut self)
        ensures { self.new ≡ restarted self.old }
    {
        self.reset();
        self.console.clear();
        self.lost = 0;
        self.off = false;
    }

    /// The devices become the saved ones. An attached disk stays as it is. It takes no memory.
    pub fn adopt(&mut self, saved: &SavedGuest)
        requires { IsLawful saved.now }
        ensures { self.new ≡ devices_of self.old.disk saved.now }
    {
        self.ram = saved.ram();
        queue_all(&mut self.queue, saved.queue());
        self.overrun = saved.status() >> 2 & 1 == 1;
        self.enabled = saved.ctrl() == 1;
        keep_all(&mut self.console, saved.console());
        self.lost = saved.lost();
        self.period = saved.period();
        self.count = saved.count();
        self.pending = saved.pending() == 1;
        self.off = saved.state() == RunState::Off;
    }

    /// Whether the machine is to be switched off at the end of the step.
    #[inline(always)]
    pub fn is_off(&self) -> bool
        ensures { result ≡ self.now.off }
    {
        self.off
    }

    /// The bytes that the console keeps, in order of sending: the first 65,536.
    pub fn console(&self) -> &[u8]
        ensures bytes { result.now ≡ self.now.console }
        ensures room { length result.now ≤ CONSOLE_ROOM }
    {
        &self.console
    }

    /// How many bytes were sent and not kept. The count stands still at 2^64 - 1.
    pub fn lost(&self) -> u64
        ensures { result ≡ self.now.lost }
    {
        self.lost
    }

    /// The bytes that were received and not read, the oldest first.
    pub fn queue(&self) -> ArrayVec<u8, 16>
        ensures { result.items ≡ self.now.queue }
    {
        let (first, rest) = self.queue.as_slices();
        let mut queue = ArrayVec::new();
        queue.try_extend_from_slice(first).unwrap();
        queue.try_extend_from_slice(rest).unwrap();
        queue
    }

    /// CTRL: bit 0 is set where a received byte asks for an interrupt.
    pub fn ctrl(&self) -> u32
        ensures { result ≡ from_bool self.now.enabled }
    {
        u32::from(self.enabled)
    }

    /// STATUS: a byte is received in bit 0, bit 1 is set, overrun in bit 2.
    pub fn status(&self) -> u32
        ensures { result ≡ status_of self.now }
    {
        u32::from(!self.queue.is_empty()) + 2 + 4 * u32::from(self.overrun)
    }

    /// After how many steps the timer asks for an interrupt; 0 where it stands still.
    pub fn period(&self) -> u32
        ensures { result ≡ self.now.period }
    {
        self.period
    }

    /// How many of these steps are left: 0 where the timer stands still, and only there.
    pub fn count(&self) -> u32
        ensures value { result ≡ self.now.count }
        ensures within { result ≤ self.now.period }
        ensures runs { 0 < self.now.period → 0 < result }
    {
        self.count
    }

    /// 1 where the timer asks for an interrupt, else 0.
    pub fn pending(&self) -> u32
        ensures { result ≡ from_bool self.now.pending }
    {
        u32::from(self.pending)
    }
}
