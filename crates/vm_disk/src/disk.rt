//! The disk.

ghost use Rattle.std.specs.Prelude.{◌≡◌, ◌*◌, ◌%◌, ◌<◌, ◌≤◌, ◌^◌, ◌==◌, length, All, IfOk};
ghost use Rattle.std.specs.Int.{from_bool};
ghost use Rattle.mb_srec.specs.Image.{contents_of, LiesBelow};
ghost use Rattle.mb_walk.specs.Memory.{number_at};
ghost use Rattle.vm_disk.specs.Disk.{advanced, blocks_in, commanded, with_next_long, loaded, opened, refusing, rested, stored, IsDisk};
ghost use Rattle.vm_disk.specs.Registers.{read_of, write_of};

use crate::bytes::{clear, part_at, zeros};
use crate::register::DiskRegister;
use mb_outside::Memory;
use mb_srec::Image;
use mb_walk::{long_at, overwrite, set_long_at};
use std::alloc::Global;
use std::marker::Model;

/// The bytes of a block, and of the buffer.
pub const BLOCK_BYTES: usize = 512;

/// A disk has at most so many blocks.
pub const MOST_BLOCKS: u32 = 32_768;

/// A disk. All memory that it needs is taken by `new`.
#[derive(Drop)]
pub struct Disk {
    bytes: Vec<u8>,
    block: u32,
    refused: bool,
    position: u32,
    buffer: Vec<u8>,
}

impl Model for Disk {
    ghost use Rattle.vm_disk.specs.Disk.{DiskState};

    ghost Value = { DiskState };

    ghost use Rattle.vm_disk.specs.Inside.{IsSound, state_of};

    ghost view = { state_of };

    ghost invariant = { IsSound };
}

impl Disk {
    /// A disk of 1 to 32,768 blocks. All is 0 but what the contents give, whose addresses are those on the disk.
    pub fn new(alloc: Global, blocks: u32, contents: &Image) -> Result<Disk, Memory>
        requires blocks { (1 ≤ blocks) × (blocks ≤ MOST_BLOCKS) }
        requires contents { All (LiesBelow (BLOCK_BYTES * blocks)) (contents_of contents.now) }
        ensures { IfOk result (λ disk. disk ≡ opened blocks (contents_of contents.now)) }
    {
        let mut bytes = zeros(alloc, BLOCK_BYTES * blocks as usize)?;
        contents.put_into(&mut bytes);
        let buffer = zeros(alloc, BLOCK_BYTES)?;
        Ok(Disk {
            bytes,
            block: 0,
            refused: false,
            position: 0,
            buffer,
        })
    }

    /// How many blocks there are.
    pub fn blocks(&self) -> u32
        ensures blocks { result ≡ blocks_in self.now }
        ensures shape { IsDisk self.now }
    {
        (self.bytes.len() / BLOCK_BYTES) as u32
    }

    /// The bytes of all blocks, one block behind the other.
    pub fn bytes(&self) -> &[u8]
        ensures bytes { result.now ≡ self.now.bytes }
        ensures few { length result.now ≤ 2 ^ 24 }
    {
        &self.bytes
    }

    /// BLOCK: the block that a command names.
    pub fn block(&self) -> u32
        ensures { result ≡ self.now.block }
    {
        self.block
    }

    /// Whether the last command was refused.
    pub fn is_refused(&self) -> bool
        ensures { result ≡ self.now.refused }
    {
        self.refused
    }

    /// RESULT: 1 where the last command was refused, else 0.
    pub fn outcome(&self) -> u32
        ensures { result ≡ from_bool self.now.refused }
    {
        u32::from(self.refused)
    }

    /// POSITION: where DATA stands in the buffer.
    pub fn position(&self) -> u32
        ensures { result ≡ self.now.position }
    {
        self.position
    }

    /// The 512 bytes of the buffer.
    pub fn buffer(&self) -> &[u8]
        ensures { result.now ≡ self.now.buffer }
    {
        &self.buffer
    }

    /// POSITION rises by a long, and begins again behind the last one.
    fn advance(&mut self)
        ensures { self.new ≡ advanced self.old }
    {
        self.position = (self.position + 4) % BLOCK_BYTES as u32;
    }

    /// The long at POSITION, which then rises.
    fn take_long(&mut self) -> u32
        ensures long { result ≡ number_at self.old.buffer self.old.position 4 }
        ensures after { self.new ≡ advanced self.old }
    {
        let long = long_at(&self.buffer, self.position as usize);
        self.advance();
        long
    }

    /// Stores a long at POSITION, which then rises.
    fn put_long(&mut self, value: u32)
        ensures { self.new ≡ with_next_long value self.old }
    {
        set_long_at(&mut self.buffer, self.position as usize, value);
        self.advance();
    }

    /// Copies the block into the buffer.
    fn load(&mut self)
        requires { self.old.block < blocks_in self.old }
        ensures { self.new ≡ loaded self.old }
    {
        let at = BLOCK_BYTES * self.block as usize;
        self.buffer
            .copy_from_slice(part_at(&self.bytes, at, BLOCK_BYTES));
        self.refused = false;
        self.position = 0;
    }

    /// Copies the buffer into the block.
    fn store(&mut self)
        requires { self.old.block < blocks_in self.old }
        ensures { self.new ≡ stored self.old }
    {
        let at = BLOCK_BYTES * self.block as usize;
        overwrite(&mut self.bytes, at, &self.buffer);
        self.refused = false;
        self.position = 0;
    }

    /// There is no such block, or no such command.
    fn refuse(&mut self)
        ensures { self.new ≡ refusing self.old }
    {
        self.refused = true;
        self.position = 0;
    }

    /// Carries out a command: 1 loads the block into the buffer, 2 stores the buffer in the block.
    fn carry_out(&mut self, command: u32)
        ensures { self.new ≡ commanded command self.old }
    {
        if self.block >= self.blocks() {
            return self.refuse();
        }
        match command {
            1 => self.load(),
            2 => self.store(),
            _ => self.refuse(),
        }
    }

    /// Reads the register at a place behind the base of the devices; 0 where no register stands.
    pub fn read(&mut self, offset: u32) -> u32
        ensures { (result, self.new) ≡ read_of offset self.old }
    {
        match DiskRegister::at(offset) {
            Some(DiskRegister::Blocks) => self.blocks(),
            Some(DiskRegister::Block) => self.block,
            Some(DiskRegister::Command) => self.outcome(),
            Some(DiskRegister::Data) => self.take_long(),
            None => 0,
        }
    }

    /// Writes the register at a place behind the base of the devices. One that can only be read ignores it, and where
    /// no register stands nothing changes.
    pub fn write(&mut self, offset: u32, value: u32)
        ensures { self.new ≡ write_of offset value self.old }
    {
        match DiskRegister::at(offset) {
            Some(DiskRegister::Block) => self.block = value,
            Some(DiskRegister::Command) => self.carry_out(value),
            Some(DiskRegister::Data) => self.put_long(value),
            Some(DiskRegister::Blocks) | None => {}
        }
    }

    /// What the instruction RESET does: all but the blocks becomes 0.
    pub fn reset(&mut self)
        ensures { self.new ≡ rested self.old }
    {
        self.block = 0;
        self.refused = false;
        self.position = 0;
        clear(&mut self.buffer);
    }

    /// All but the blocks becomes this: BLOCK, RESULT, POSITION and the buffer.
    pub fn adopt(&mut self, block: u32, outcome: u32, position: u32, buffer: &[u8; 512])
        requires outcome { outcome ≤ 1 }
        requires position { (position % 4 ≡ 0) × (position < BLOCK_BYTES) }
        ensures { self.new ≡ record self.old {
          block = block;
          refused = outcome == 1;
          position = position;
          buffer = buffer.now;
        } }
    {
        self.block = block;
        self.refused = outcome == 1;
        self.position = position;
        self.buffer.copy_from_slice(buffer);
    }
}
