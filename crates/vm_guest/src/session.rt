//! What a session begins with.

use mb_outside::Memory;
use mb_script::Script;
use mb_srec::Image;
use std::alloc::Global;
use std::marker::Model;
use vm_disk::Disk;

/// What a disk opens with: how many blocks it has, and its contents.
#[derive(Debug, Drop)]
pub struct SessionDisk {
    blocks: u32,
    contents: Image,
}

/// What a guest begins with: its image, what is to arrive at its terminal, its RAM, a bound on its steps, and its disk,
/// where it has one.
#[derive(Drop)]
pub struct SessionGuest {
    image: Image,
    script: Script,
    ram: u32,
    steps: u32,
    disk: Option<SessionDisk>,
}

/// A board, the steps of a turn, and the guests that share the board.
#[derive(Drop)]
pub struct Session {
    board: u32,
    slice: u32,
    guests: Vec<SessionGuest>,
}

impl Model for SessionDisk {
    ghost use Rattle.std.specs.Prelude.{◌*◌, ◌≤◌, All};
    ghost use Rattle.mb_srec.specs.Image.{contents_of, LiesBelow};
    ghost use Rattle.vm_disk.specs.Disk.{DiskState, opened};
    ghost use Rattle.vm_disk.specs.declared.disk.TheConstants.{BLOCK_BYTES, MOST_BLOCKS};

    ghost Value = { DiskState };

    ghost view = { λ d. opened d.blocks (contents_of d.contents) };

    ghost invariant = { λ d. (1 ≤ d.blocks) × (d.blocks ≤ MOST_BLOCKS)
        × All (LiesBelow (BLOCK_BYTES * d.blocks)) (contents_of d.contents) };
}

impl Model for SessionGuest {
    ghost use Rattle.mb_srec.specs.Image.{contents_of};
    ghost use Rattle.vm_guest.specs.Session.{GuestAtStart};

    ghost Value = { GuestAtStart };

    ghost view = { λ g. record {
      opening = record { image = contents_of g.image; disk = g.disk };
      script = g.script;
      ram = g.ram;
      steps = g.steps;
    } };
}

impl Model for Session {
    ghost use Rattle.vm_guest.specs.Session.{SessionAtStart};

    ghost Value = { SessionAtStart };

    ghost view = { λ s. record { board = s.board; slice = s.slice; guests = s.guests.items } };
}

impl SessionDisk {
    ghost use Rattle.std.specs.Prelude.{◌≡◌, ◌*◌, ◌≤◌, All, IfOk};
    ghost use Rattle.mb_srec.specs.Image.{contents_of, LiesBelow};
    ghost use Rattle.vm_disk.specs.Disk.{opened};
    ghost use Rattle.vm_disk.specs.declared.disk.TheConstants.{BLOCK_BYTES, MOST_BLOCKS};

    /// A disk of 1 to 32,768 blocks. The contents' addresses are those on the disk.
    pub fn new(blocks: u32, contents: Image) -> SessionDisk
        requires blocks { (1 ≤ blocks) × (blocks ≤ MOST_BLOCKS) }
        requires contents { All (LiesBelow (BLOCK_BYTES * blocks)) (contents_of contents) }
        ensures { result ≡ opened blocks (contents_of contents) }
    {
        SessionDisk { blocks, contents }
    }

    /// The disk itself.
    pub fn open(&self, alloc: Global) -> Result<Disk, Memory>
        ensures { IfOk result (λ disk. disk ≡ self.now) }
    {
        Disk::new(alloc, self.blocks, &self.contents)
    }
}

impl SessionGuest {
    ghost use Rattle.std.specs.Prelude.{◌≡◌, option_map, Some};
    ghost use Rattle.mb_srec.specs.Image.{contents_of};
    ghost use Rattle.def_machine.specs.Machine.{diskless};

    /// Without a disk. `ram` is in bytes.
    pub fn new(image: Image, script: Script, ram: u32, steps: u32) -> SessionGuest
        ensures { result ≡ record {
          opening = diskless (contents_of image);
          script = script;
          ram = ram;
          steps = steps;
        } }
    {
        SessionGuest {
            image,
            script,
            ram,
            steps,
            disk: None,
        }
    }

    /// The same with a disk.
    pub fn with_disk(self, disk: SessionDisk) -> SessionGuest
        ensures { result ≡ record self { opening = record self.opening { disk = Some disk } } }
    {
        SessionGuest {
            image: self.image,
            script: self.script,
            ram: self.ram,
            steps: self.steps,
            disk: Some(disk),
        }
    }

    /// Its disk, if it has one.
    pub fn disk(&self) -> Option<&SessionDisk>
        ensures { option_map (λ disk. disk.now) result ≡ self.now.opening.disk }
    {
        self.disk.as_ref()
    }

    pub fn image(&self) -> &Image
        ensures { contents_of result.now ≡ self.now.opening.image }
    {
        &self.image
    }

    pub fn script(&self) -> &Script
        ensures { result.now ≡ self.now.script }
    {
        &self.script
    }

    /// The bytes of its RAM.
    pub fn ram(&self) -> u32
        ensures { result ≡ self.now.ram }
    {
        self.ram
    }

    /// How many steps it takes at most.
    pub fn steps(&self) -> u32
        ensures { result ≡ self.now.steps }
    {
        self.steps
    }

    /// Its image, its script, and its disk, if it has one.
    pub fn into_parts(self) -> (Image, Script, Option<SessionDisk>)
        ensures image { let (image, _, _) = result in contents_of image ≡ self.opening.image }
        ensures script { let (_, script, _) = result in script ≡ self.script }
        ensures disk { let (_, _, disk) = result in disk ≡ self.opening.disk }
    {
        (self.image, self.script, self.disk)
    }
}

impl Session {
    ghost use Rattle.std.specs.Prelude.{◌≡◌};

    /// `board` is in bytes, `slice` in steps.
    pub fn new(board: u32, slice: u32, guests: Vec<SessionGuest>) -> Session
        ensures { result ≡ record { board = board; slice = slice; guests = guests.items } }
    {
        Session {
            board,
            slice,
            guests,
        }
    }

    /// The bytes of the board's memory.
    pub fn board(&self) -> u32
        ensures { result ≡ self.now.board }
    {
        self.board
    }

    /// How many steps a guest takes in its turn.
    pub fn slice(&self) -> u32
        ensures { result ≡ self.now.slice }
    {
        self.slice
    }

    /// The guests in their order.
    pub fn guests(&self) -> &[SessionGuest]
        ensures { result.now ≡ self.now.guests }
    {
        &self.guests
    }

    /// The guests in their order.
    pub fn into_guests(self) -> Vec<SessionGuest>
        ensures { result.items ≡ self.guests }
    {
        self.guests
    }
}
