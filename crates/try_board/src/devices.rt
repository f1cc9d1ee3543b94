//! What each operation leaves, and each limit once.

use mb_devices::Devices;
use mb_port::Place;
use mb_srec::Image;
use std::alloc::Global;
use vm_disk::Disk;

const BASE: u32 = 0xfff0_0000;

#[derive(Clone, Copy)]
enum Act {
    Receive(u8),
    Read(u32, u8),
    Write(u32, u8, u32),
    Tick,
    Reset,
    Restart,
}

fn place(offset: u32, len: u8) -> Place {
    Place {
        at: BASE.wrapping_add(offset),
        len,
    }
}

/// What a read gives, 0 for any other operation that is taken.
fn answer(devices: &mut Devices, act: Act) -> Option<u32> {
    match act {
        Act::Read(offset, len) => return devices.read(place(offset, len)),
        Act::Write(offset, len, value) => devices.write(place(offset, len), value)?,
        Act::Receive(byte) => devices.receive(byte),
        Act::Tick => devices.tick(),
        Act::Reset => devices.reset(),
        Act::Restart => devices.restart(),
    }
    Some(0)
}

/// STATUS, CTRL, PERIOD, COUNT, pending, the level, how many bytes the console has, and off.
fn left(devices: &Devices) -> [u32; 8] {
    [
        devices.status(),
        devices.ctrl(),
        devices.period(),
        devices.count(),
        devices.pending(),
        u32::from(devices.level()),
        devices.console().len() as u32,
        u32::from(devices.is_off()),
    ]
}

/// What is done, its answer, and what it leaves.
#[rattlefmt::skip]
static OPERATIONS: [(Act, u32, [u32; 8]); 32] = [
    (Act::Tick, 0, [2, 0, 0, 0, 0, 0, 0, 0]),
    (Act::Receive(0x41), 0, [3, 0, 0, 0, 0, 0, 0, 0]),
    (Act::Write(0x02, 1, 0xff), 0, [3, 1, 0, 0, 0, 4, 0, 0]),
    (Act::Read(0x02, 1), 1, [3, 1, 0, 0, 0, 4, 0, 0]),
    (Act::Write(0x02, 1, 0xfe), 0, [3, 0, 0, 0, 0, 0, 0, 0]),
    (Act::Write(0x02, 1, 1), 0, [3, 1, 0, 0, 0, 4, 0, 0]),
    (Act::Write(0x01, 1, 0), 0, [3, 1, 0, 0, 0, 4, 0, 0]),
    (Act::Read(0x01, 1), 3, [3, 1, 0, 0, 0, 4, 0, 0]),
    (Act::Write(0x10, 4, 2), 0, [3, 1, 2, 2, 0, 4, 0, 0]),
    (Act::Tick, 0, [3, 1, 2, 1, 0, 4, 0, 0]),
    (Act::Write(0x14, 4, 9), 0, [3, 1, 2, 1, 0, 4, 0, 0]),
    (Act::Tick, 0, [3, 1, 2, 2, 1, 6, 0, 0]),
    (Act::Read(0x18, 4), 1, [3, 1, 2, 2, 1, 6, 0, 0]),
    (Act::Tick, 0, [3, 1, 2, 1, 1, 6, 0, 0]),
    (Act::Read(0x14, 4), 1, [3, 1, 2, 1, 1, 6, 0, 0]),
    (Act::Write(0x18, 4, 0), 0, [3, 1, 2, 1, 0, 4, 0, 0]),
    (Act::Read(0x18, 4), 0, [3, 1, 2, 1, 0, 4, 0, 0]),
    (Act::Write(0x10, 4, 5), 0, [3, 1, 5, 5, 0, 4, 0, 0]),
    (Act::Read(0x10, 4), 5, [3, 1, 5, 5, 0, 4, 0, 0]),
    (Act::Read(0x00, 1), 0x41, [2, 1, 5, 5, 0, 0, 0, 0]),
    (Act::Read(0x00, 1), 0, [2, 1, 5, 5, 0, 0, 0, 0]),
    (Act::Read(0x24, 4), 0x1_0000, [2, 1, 5, 5, 0, 0, 0, 0]),
    (Act::Write(0x24, 4, 7), 0, [2, 1, 5, 5, 0, 0, 0, 0]),
    (Act::Read(0x24, 4), 0x1_0000, [2, 1, 5, 5, 0, 0, 0, 0]),
    (Act::Read(0x20, 4), 0, [2, 1, 5, 5, 0, 0, 0, 0]),
    (Act::Write(0x20, 4, 2), 0, [2, 1, 5, 5, 0, 0, 0, 0]),
    (Act::Write(0x00, 1, 0x1ff), 0, [2, 1, 5, 5, 0, 0, 1, 0]),
    (Act::Receive(0x42), 0, [3, 1, 5, 5, 0, 4, 1, 0]),
    (Act::Reset, 0, [2, 0, 0, 0, 0, 0, 1, 0]),
    (Act::Write(0x20, 4, 1), 0, [2, 0, 0, 0, 0, 0, 1, 1]),
    (Act::Read(0x20, 4), 0, [2, 0, 0, 0, 0, 0, 1, 1]),
    (Act::Restart, 0, [2, 0, 0, 0, 0, 0, 0, 0]),
];

#[test]
fn each_operation_leaves(rt: HostRuntime) {
    let mut devices = Devices::new(rt.alloc(), 0x1_0000).expect(&rt, "ample memory");
    for (number, &(act, value, after)) in OPERATIONS.iter().enumerate() {
        let answered = answer(&mut devices, act);
        assert!(rt;
            answered == Some(value) && left(&devices) == after,
            "operation {number}"
        );
    }
}

/// The places of the registers, each with its size: first those of all devices, then those of a disk.
static REGISTERS: [(u32, u8); 12] = [
    (0x00, 1),
    (0x01, 1),
    (0x02, 1),
    (0x10, 4),
    (0x14, 4),
    (0x18, 4),
    (0x20, 4),
    (0x24, 4),
    (0x30, 4),
    (0x34, 4),
    (0x38, 4),
    (0x3c, 4),
];

/// The lengths of accesses.
static LENGTHS: [u8; 3] = [1, 2, 4];

/// Whether these are all registers that there are.
fn are_all_registers(devices: &mut Devices, there: &[(u32, u8)]) -> bool {
    for offset in 0..0x50 {
        for &len in &LENGTHS {
            let has = there.contains(&(offset, len));
            let place = place(offset, len);
            if devices.has(place) != has || devices.read(place).is_some() != has {
                return false;
            }
            if !has && devices.write(place, 1).is_some() {
                return false;
            }
        }
    }
    true
}

/// Whether those of all devices are all that there are, and to try them leaves nothing.
fn has_no_disk(devices: &mut Devices) -> bool {
    are_all_registers(devices, &REGISTERS[..8])
        && !devices.has(Place { at: 0x24, len: 4 })
        && left(devices) == [2, 0, 0, 0, 0, 0, 0, 0]
        && devices.disk().is_none()
}

/// Whether all registers are there with a disk of three blocks, which a reset and a restart leave.
fn has_disk(devices: &mut Devices) -> bool {
    if !are_all_registers(devices, &REGISTERS) || devices.read(place(0x30, 4)) != Some(3) {
        return false;
    }
    devices.write(place(0x34, 4), 2);
    devices.reset();
    let block = devices.read(place(0x34, 4));
    devices.restart();
    block == Some(0) && devices.disk().is_some_and(|disk| disk.blocks() == 3)
}

/// Attaches a disk of three blocks, where there is none.
fn attach_disk(alloc: Global, devices: &mut Devices) -> Option<()> {
    let disk = Disk::new(alloc, 3, &Image::new(Vec::new(alloc))).ok()?;
    if devices.disk().is_none() {
        devices.attach(disk);
        return Some(());
    }
    None
}

#[test]
fn a_register_has_one_size(rt: HostRuntime) {
    let mut devices = Devices::new(rt.alloc(), 0x1_0000).expect(&rt, "ample memory");
    assert!(rt; has_no_disk(&mut devices));
    assert!(rt; attach_disk(rt.alloc(), &mut devices).is_some());
    assert!(rt; has_disk(&mut devices));
}

/// The bytes of a full queue.
static QUEUED: [u8; 16] = [0, 1, 2, 3, 4, 5, 6, 7, 8, 9, 10, 11, 12, 13, 14, 15];

/// COUNT after each tick of a timer whose period is 3.
static COUNTS: [u32; 9] = [2, 1, 3, 2, 1, 3, 2, 1, 3];

/// Whether the seventeenth byte is dropped, and all others are read in their order.
fn queues_sixteen(devices: &mut Devices) -> bool {
    for byte in 0..=16 {
        devices.receive(byte);
    }
    if devices.queue().as_slice() != &QUEUED[..] || devices.status() != 7 {
        return false;
    }
    devices.write(place(0x01, 1), 0) == Some(()) && devices.status() == 3 && reads_queue(devices)
}

/// Whether all bytes of a full queue are read, and then it is empty.
fn reads_queue(devices: &mut Devices) -> bool {
    for &byte in &QUEUED {
        if devices.read(place(0x00, 1)) != Some(u32::from(byte)) {
            return false;
        }
    }
    devices.status() == 2
}

/// Whether the timer asks after each period of three ticks, until it is acknowledged.
fn asks_each_period(devices: &mut Devices) -> bool {
    if devices.write(place(0x10, 4), 3) != Some(()) {
        return false;
    }
    for &count in &COUNTS {
        devices.tick();
        if devices.count() != count
            || devices.pending() != u32::from(count == 3)
            || devices.write(place(0x18, 4), 0xffff_ffff) != Some(())
            || devices.pending() != 0
        {
            return false;
        }
    }
    true
}

/// How many bytes the console has, and how many are lost.
fn sent(devices: &Devices) -> (usize, u64) {
    (devices.console().len(), devices.lost())
}

/// Whether two of 65,538 bytes are lost that are sent.
fn loses_two(devices: &mut Devices) -> bool {
    for i in 0..65_538 {
        if devices.write(place(0x00, 1), i) != Some(()) {
            return false;
        }
    }
    sent(devices) == (65_536, 2) && devices.console().get(0x1234) == Some(&0x34)
}

/// Whether a reset leaves a full console, and a restart empties it.
fn is_emptied(devices: &mut Devices) -> bool {
    devices.reset();
    let reset = sent(devices);
    devices.restart();
    reset == (65_536, 2) && sent(devices) == (0, 0)
}

#[test]
fn each_limit_once(rt: HostRuntime) {
    let mut devices = Devices::new(rt.alloc(), 0x1_0000).expect(&rt, "ample memory");
    assert!(rt; queues_sixteen(&mut devices), "queue");
    let mut devices = Devices::new(rt.alloc(), 0x1_0000).expect(&rt, "ample memory");
    assert!(rt; asks_each_period(&mut devices), "timer");
    let mut devices = Devices::new(rt.alloc(), 0x1_0000).expect(&rt, "ample memory");
    assert!(rt; loses_two(&mut devices), "console");
    assert!(rt; is_emptied(&mut devices), "console");
}
