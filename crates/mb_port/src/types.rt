//! The words of the bus.

ghost use Rattle.std.specs.Prelude.{◌≡◌};
ghost use Rattle.mb_port.specs.Registers.{mmu_register, with_mmu_register};

/// The address space of an access: the manual's user or supervisor space.
#[derive(Clone, Copy, Debug, PartialEq, Eq)]
pub enum Space {
    User,
    Super,
}

/// A naturally aligned part of an operand: 1, 2 or 4 bytes at a multiple of their number.
#[derive(Clone, Copy, Default, PartialEq, Eq)]
pub struct Piece {
    /// The logical address of the first byte.
    pub at: u32,
    /// How many bytes: 1, 2 or 4.
    pub len: u8,
}

/// The bytes of a line, which MOVE16 moves.
pub const LINE: u8 = 16;

/// A refused access.
#[derive(Clone, Copy, Debug, PartialEq, Eq)]
pub struct Fault {
    /// The logical address of the piece that was refused.
    pub at: u32,
    /// Its length in bytes; [`LINE`] for a line.
    pub len: u8,
    pub space: Space,
    /// An instruction word, not an operand.
    pub code: bool,
    /// A write, or a check for writing.
    pub write: bool,
    /// Refused by the translation; else nothing answers at the physical place.
    pub atc: bool,
}

/// A physical piece.
#[derive(Clone, Copy, Debug, Default, PartialEq, Eq)]
pub struct Place {
    /// The physical address of the first byte.
    pub at: u32,
    /// How many bytes: 1, 2 or 4.
    pub len: u8,
}

/// The registers of the memory management unit.
#[derive(Clone, Copy, Debug, PartialEq, Eq)]
pub struct Mmu {
    pub tc: u32,
    pub itt0: u32,
    pub itt1: u32,
    pub dtt0: u32,
    pub dtt1: u32,
    pub mmusr: u32,
    pub urp: u32,
    pub srp: u32,
}

/// The name of one register of [`Mmu`].
#[derive(Clone, Copy, Debug, PartialEq, Eq)]
pub enum MmuReg {
    Tc,
    Itt0,
    Itt1,
    Dtt0,
    Dtt1,
    Mmusr,
    Urp,
    Srp,
}

impl Mmu {
    /// Reads one register.
    #[inline(always)]
    pub fn get(&self, which: MmuReg) -> u32
        ensures { result ≡ mmu_register self.now which }
    {
        match which {
            MmuReg::Tc => self.tc,
            MmuReg::Itt0 => self.itt0,
            MmuReg::Itt1 => self.itt1,
            MmuReg::Dtt0 => self.dtt0,
            MmuReg::Dtt1 => self.dtt1,
            MmuReg::Mmusr => self.mmusr,
            MmuReg::Urp => self.urp,
            MmuReg::Srp => self.srp,
        }
    }

    /// Writes one register, with all bits of the value.
    pub fn set(&mut self, which: MmuReg, value: u32)
        ensures { self.new ≡ with_mmu_register self.old which value }
    {
        match which {
            MmuReg::Tc => self.tc = value,
            MmuReg::Itt0 => self.itt0 = value,
            MmuReg::Itt1 => self.itt1 = value,
            MmuReg::Dtt0 => self.dtt0 = value,
            MmuReg::Dtt1 => self.dtt1 = value,
            MmuReg::Mmusr => self.mmusr = value,
            MmuReg::Urp => self.urp = value,
            MmuReg::Srp => self.srp = value,
        }
    }
}

/// Which kept translations are dropped. A page is a number of 4 KiB, below 2^20.
#[derive(Clone, Copy, Debug, PartialEq, Eq)]
pub enum Flush {
    /// All (`PFLUSHA`).
    All,
    /// All without the global bit (`PFLUSHAN`).
    AllLocal,
    /// Those of a page (`PFLUSH`).
    Page(Space, u32),
    /// Those of a page without the global bit (`PFLUSHN`).
    PageLocal(Space, u32),
}
