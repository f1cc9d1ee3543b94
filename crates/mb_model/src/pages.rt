//! Pages of memory.

ghost use Rattle.std.specs.Prelude.{◌≡◌, ◌<◌, ◌^◌};
ghost use Rattle.mb_model.specs.Pages.{page_of, has_big_pages as has_big, page_size_by as size_by, other_half as other};

use mb_port::translation::P;
use mb_port::{Mmu, long_has};

/// The bytes of a page, and of a frame.
pub const PAGE_SIZE: u32 = 4096;

/// The bytes of a page of the tables where P is set. Whatever is kept of one is of its halves.
pub const BIG_PAGE_SIZE: u32 = 8192;

/// The number of the page that an address lies in.
#[inline(always)]
pub fn page_of(at: u32) -> u32
    ensures number { result ≡ page_of at }
    ensures range { result < 2 ^ 20 }
{
    at / PAGE_SIZE
}

/// Whether the tables are those of pages of 8 KiB: P of TC.
#[inline(always)]
pub fn has_big_pages(mmu: &Mmu) -> bool
    ensures { result ≡ has_big mmu.now }
{
    long_has(mmu.tc, P)
}

/// The bytes of a page of the tables.
#[inline(always)]
pub fn page_size_by(mmu: &Mmu) -> u32
    ensures value { result ≡ size_by mmu.now }
    ensures some { 0 < result }
{
    if has_big_pages(mmu) {
        BIG_PAGE_SIZE
    } else {
        PAGE_SIZE
    }
}

/// The number of the page of 4 KiB that is the other half of the page of 8 KiB.
#[inline(always)]
pub fn other_half(page: u32) -> u32
    requires { page < 2 ^ 20 }
    ensures number { result ≡ other page }
    ensures range { result < 2 ^ 20 }
{
    if page % 2 == 0 { page + 1 } else { page - 1 }
}
