//! The descriptors of the translation tables.

ghost use Rattle.std.specs.Prelude.{◌≡◌, ◌<◌};
ghost use Rattle.mb_walk.specs.Descriptors.{table_descriptor, page_descriptor, with_bit as bit_set};

use mb_model::page_of;

/// An entry of a root or pointer table.
#[derive(Clone, Copy, PartialEq, Eq)]
pub struct TableDescriptor {
    /// UDT, bits 1 and 0, is 2 or 3: the table below is resident.
    pub resident: bool,
    /// W, bit 2: no page below takes writes.
    pub protected: bool,
    /// U, bit 3: a search met it.
    pub used: bool,
}

/// An entry of a page table.
#[derive(Clone, Copy, PartialEq, Eq)]
pub struct PageDescriptor {
    /// PDT, bits 1 and 0, is 1 or 3.
    pub resident: bool,
    /// PDT is 2: bits 31 to 2 are the address of the page's descriptor.
    pub indirect: bool,
    /// W, bit 2: the page takes no writes.
    pub protected: bool,
    /// U, bit 3: a search met it.
    pub used: bool,
    /// M, bit 4: the page was written.
    pub modified: bool,
    /// S, bit 7: the page is for supervisor space alone.
    pub supervisor: bool,
    /// G, bit 10: a flush of all that is not global leaves what is kept of the page.
    pub global: bool,
    /// The number of the page's frame, bits 31 to 12.
    pub frame: u32,
}

impl TableDescriptor {
    /// The descriptor in a long.
    #[inline(always)]
    pub fn of(long: u32) -> TableDescriptor
        ensures { result ≡ table_descriptor long }
    {
        TableDescriptor {
            resident: long >> 1 & 1 == 1,
            protected: long >> 2 & 1 == 1,
            used: long >> 3 & 1 == 1,
        }
    }
}

impl PageDescriptor {
    /// The descriptor in a long.
    #[inline(always)]
    pub fn of(long: u32) -> PageDescriptor
        ensures { result ≡ page_descriptor long }
    {
        PageDescriptor {
            resident: long & 1 == 1,
            indirect: long & 3 == 2,
            protected: long >> 2 & 1 == 1,
            used: long >> 3 & 1 == 1,
            modified: long >> 4 & 1 == 1,
            supervisor: long >> 7 & 1 == 1,
            global: long >> 10 & 1 == 1,
            frame: page_of(long),
        }
    }
}

/// The long with a bit set.
#[inline(always)]
#[tactic(auto, using(crate::proofs::Bits::setting))]
pub fn with_bit(long: u32, bit: u32) -> u32
    requires { bit < 32 }
    ensures { result ≡ bit_set long bit }
{
    long | 1 << bit
}
