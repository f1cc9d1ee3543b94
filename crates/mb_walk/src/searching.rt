//! The search through three levels of tables.

ghost use Rattle.std.specs.Prelude.{◌≡◌, ◌+◌, ◌*◌, ◌/◌, ◌%◌, ◌<◌, ◌≤◌, ◌^◌, ◌⊎◌, length, IfErr};
ghost use Rattle.mb_walk.specs.Descriptors.{entry_at, marked, resident_status, shown_of, with_used as used};
ghost use Rattle.mb_walk.specs.Descriptors.{frame_for as in_half, page_table_bytes, page_index};
ghost use Rattle.mb_model.specs.Keeping.{NamesPages};
ghost use Rattle.mb_model.specs.Pages.{page_of as page_number};
ghost use Rattle.mb_walk.specs.Search.{OnEntry};
ghost use Rattle.mb_walk.specs.Search.{descended, paged, pointed, ended, search_of, is_inside as stands_inside};

use crate::descriptors::{PageDescriptor, TableDescriptor, with_bit};
use crate::found::Found;
use crate::ram::Ram;
use mb_model::{Kept, page_of};
use mb_port::Space;

/// The bytes of a root or pointer table.
pub const TABLE_BYTES: u32 = 512;

/// The bytes of a page table.
pub const PAGE_TABLE_BYTES: u32 = 256;

/// Its bytes where pages have 8 KiB.
pub const BIG_PAGE_TABLE_BYTES: u32 = 128;

/// A search, but for the root.
#[derive(Clone, Copy)]
struct Sought {
    space: Space,
    /// The number of the page of 4 KiB.
    page: u32,
    write: bool,
    /// The tables are those of pages of 8 KiB.
    big: bool,
}

/// The place of an entry of the table of so many bytes that a root or a descriptor names.
#[inline(always)]
pub(crate) fn entry_place(table: u32, bytes: u32, index: u32) -> u32
    requires bytes { (bytes ≡ TABLE_BYTES) ⊎ (bytes ≡ PAGE_TABLE_BYTES) ⊎ (bytes ≡ BIG_PAGE_TABLE_BYTES) }
    requires inside { 4 * index < bytes }
    ensures place { result ≡ entry_at table bytes index }
    ensures aligned { result % 4 ≡ 0 }
{
    table / bytes * bytes + 4 * index
}

/// The place of the entry of a page of 4 KiB in the page table that a descriptor names, of pages of 8 KiB or not.
#[inline(always)]
pub(crate) fn page_place(table: u32, page: u32, big: bool) -> u32
    ensures place { result ≡ entry_at table (page_table_bytes big) (page_index big page) }
    ensures aligned { result % 4 ≡ 0 }
{
    if big {
        entry_place(table, BIG_PAGE_TABLE_BYTES, page >> 1 & 0x1F)
    } else {
        entry_place(table, PAGE_TABLE_BYTES, page & 0x3F)
    }
}

/// Whether the descriptor at a place stands in memory.
#[inline(always)]
pub(crate) fn is_inside<R: Ram>(ram: &R, place: u32) -> bool
    ensures { result ≡ stands_inside (R.bytes ram.now) place }
{
    u64::from(place) + 4 <= u64::from(ram.size())
}

#[inline(always)]
fn with_used(long: u32) -> u32
    ensures { result ≡ used long }
{
    with_bit(long, 3)
}

/// The long of a page's descriptor once it is marked.
#[inline(always)]
fn mark(long: u32, protected: bool, sought: Sought) -> u32
    ensures { result ≡ marked long protected sought.space sought.write }
{
    let page = PageDescriptor::of(long);
    let refused = page.supervisor && matches!(sought.space, Space::User);
    if sought.write && !(protected || page.protected) && !refused {
        with_bit(with_used(long), 4)
    } else {
        with_used(long)
    }
}

/// The frame of a page of 4 KiB: that of its descriptor, or of one of 8 KiB the half that bit 12 of the address names.
#[inline(always)]
pub(crate) fn frame_for(frame: u32, page: u32, big: bool) -> u32
    requires { frame < 2 ^ 20 }
    ensures value { result ≡ in_half big frame page }
    ensures range { result < 2 ^ 20 }
{
    if big { frame / 2 * 2 + page % 2 } else { frame }
}

/// The bits of a page's descriptor that MMUSR shows.
#[inline(always)]
fn shown(long: u32, big: bool) -> u32
    ensures value { result ≡ shown_of long big }
    ensures room { result + 5 < 2 ^ 32 }
{
    if big {
        long & 0xFFFF_E7F0
    } else {
        long & 0xFFFF_F7F0
    }
}

/// MMUSR for a page's descriptor, write-protected by it or above it or not.
#[inline(always)]
fn status(long: u32, w: bool, big: bool) -> u32
    ensures { result ≡ resident_status long w big }
{
    shown(long, big) + if w { 5 } else { 1 }
}

/// Reads a table's descriptor, and marks it used where its table is resident.
#[inline(always)]
#[tactic(auto, using(crate::proofs::MemoryLemmas::lengths), unfolding(crate::specs::Search::descended))]
fn descend<R: Ram>(ram: &mut R, place: u32) -> Result<u32, Found>
    requires { place % 4 ≡ 0 }
    ensures level { descended (R.bytes ram.old) place ≡ record { ram = R.bytes ram.new; descriptor = result } }
    ensures end { IfErr result (λ found. (found ≡ Found.Invalid) ⊎ (found ≡ Found.BusError)) }
    ensures size { length (R.bytes ram.new) ≡ length (R.bytes ram.old) }
    ensures rest { R.rest ram.new ≡ R.rest ram.old }
{
    if !is_inside(ram, place) {
        return Err(Found::BusError);
    }
    let long = ram.long(place);
    if TableDescriptor::of(long).resident {
        ram.set_long(place, with_used(long));
        Ok(long)
    } else {
        Err(Found::Invalid)
    }
}

/// Marks the resident descriptor of a page.
#[inline(always)]
#[tactic(auto, using(crate::proofs::MemoryLemmas::lengths))]
fn reach<R: Ram>(ram: &mut R, place: u32, sought: Sought, protected: bool) -> Found
    requires aligned { place % 4 ≡ 0 }
    requires inside { place + 4 ≤ length (R.bytes ram.old) }
    ensures end { paged (R.bytes ram.old) place sought.space sought.page protected sought.write sought.big
        ≡ record { ram = R.bytes ram.new; found = result } }
    ensures entry { OnEntry result (λ k. (k.space ≡ sought.space) × (k.page ≡ sought.page) × (k.frame < 2 ^ 20)) }
    ensures size { length (R.bytes ram.new) ≡ length (R.bytes ram.old) }
    ensures rest { R.rest ram.new ≡ R.rest ram.old }
{
    let long = mark(ram.long(place), protected, sought);
    ram.set_long(place, long);
    let page = PageDescriptor::of(long);
    let kept = Kept {
        space: sought.space,
        page: sought.page,
        frame: frame_for(page.frame, sought.page, sought.big),
        w: protected || page.protected,
        s: page.supervisor,
        g: page.global,
        m: page.modified,
    };
    Found::Entry(kept, status(long, kept.w, sought.big))
}

/// Reads the descriptor that an indirect one names.
#[inline(always)]
#[tactic(auto, unfolding(crate::specs::Search::pointed))]
fn follow<R: Ram>(ram: &mut R, place: u32, sought: Sought, protected: bool) -> Found
    requires { place % 4 ≡ 0 }
    ensures end { pointed (R.bytes ram.old) place sought.space sought.page protected sought.write sought.big
        ≡ record { ram = R.bytes ram.new; found = result } }
    ensures entry { OnEntry result (λ k. (k.space ≡ sought.space) × (k.page ≡ sought.page) × (k.frame < 2 ^ 20)) }
    ensures size { length (R.bytes ram.new) ≡ length (R.bytes ram.old) }
    ensures rest { R.rest ram.new ≡ R.rest ram.old }
{
    if !is_inside(ram, place) {
        Found::BusError
    } else if PageDescriptor::of(ram.long(place)).resident {
        reach(ram, place, sought, protected)
    } else {
        Found::Invalid
    }
}

/// Reads the entry of the page's table.
#[inline(always)]
#[tactic(auto, unfolding(crate::specs::Search::ended))]
fn end<R: Ram>(ram: &mut R, place: u32, sought: Sought, protected: bool) -> Found
    requires { place % 4 ≡ 0 }
    ensures end { ended (R.bytes ram.old) place sought.space sought.page protected sought.write sought.big
        ≡ record { ram = R.bytes ram.new; found = result } }
    ensures entry { OnEntry result (λ k. (k.space ≡ sought.space) × (k.page ≡ sought.page) × (k.frame < 2 ^ 20)) }
    ensures size { length (R.bytes ram.new) ≡ length (R.bytes ram.old) }
    ensures rest { R.rest ram.new ≡ R.rest ram.old }
{
    if !is_inside(ram, place) {
        return Found::BusError;
    }
    let long = ram.long(place);
    let page = PageDescriptor::of(long);
    if page.resident {
        reach(ram, place, sought, protected)
    } else if page.indirect {
        follow(ram, long / 4 * 4, sought, protected)
    } else {
        Found::Invalid
    }
}

/// Searches for the page of 4 KiB of an address of a space, through the tables below a root, for a write or not. Where
/// `big` is set the tables are those of pages of 8 KiB, and what is found is of the half that the address lies in.
///
/// Each descriptor on the way is marked used, and the page's is marked modified where a write is made that it takes.
/// The root's bits 8 to 0 are ignored.
pub fn search<R: Ram>(
    ram: &mut R,
    root: u32,
    space: Space,
    at: u32,
    write: bool,
    big: bool,
) -> Found
    ensures means { search_of (R.bytes ram.old) root space (page_number at) write big
        ≡ record { ram = R.bytes ram.new; found = result } }
    ensures entry { OnEntry result (λ k. (k.space ≡ space) × (k.page ≡ page_number at) × NamesPages k) }
    ensures size { length (R.bytes ram.new) ≡ length (R.bytes ram.old) }
    ensures rest { R.rest ram.new ≡ R.rest ram.old }
{
    let sought = Sought {
        space,
        page: page_of(at),
        write,
        big,
    };
    let pointer = match descend(ram, entry_place(root, TABLE_BYTES, at >> 25)) {
        Ok(pointer) => pointer,
        Err(found) => return found,
    };
    let leaf = match descend(ram, entry_place(pointer, TABLE_BYTES, at >> 18 & 0x7F)) {
        Ok(leaf) => leaf,
        Err(found) => return found,
    };
    let protected = TableDescriptor::of(pointer).protected || TableDescriptor::of(leaf).protected;
    end(ram, page_place(leaf, sought.page, big), sought, protected)
}
