//! A search that changes no byte.

ghost use Rattle.std.specs.Prelude.{◌≡◌, ◌^◌, ◌*◌, ◌<◌, ◌%◌, IfSome};
ghost use Rattle.mb_model.specs.Keeping.{NamesPages};
ghost use Rattle.mb_model.specs.Pages.{page_of as page_number};
ghost use Rattle.mb_walk.specs.Quiet.{used_table, used_page, used_behind, used_entry, found_used};

use crate::descriptors::{PageDescriptor, TableDescriptor};
use crate::ram::Ram;
use crate::searching::{TABLE_BYTES, entry_place, frame_for, is_inside, page_place};
use mb_model::{Kept, page_of};
use mb_port::Space;

/// The descriptor of a resident table, where it is marked as used.
#[tactic(auto, unfolding(crate::specs::Quiet::used_table))]
fn used_table<R: Ram>(ram: &R, place: u32) -> Option<u32>
    requires { place % 4 ≡ 0 }
    ensures { result ≡ used_table (R.bytes ram.now) place }
{
    if !is_inside(ram, place) {
        return None;
    }
    let long = ram.long(place);
    let table = TableDescriptor::of(long);
    if table.resident && table.used {
        Some(long)
    } else {
        None
    }
}

/// What is kept of a resident page, where its descriptor is marked as used.
fn used_page(long: u32, space: Space, page: u32, protected: bool, big: bool) -> Option<Kept>
    ensures means { result ≡ used_page long space page protected big }
    ensures names { IfSome result (λ k. (k.space ≡ space) × (k.page ≡ page) × (k.frame < 2 ^ 20)) }
{
    let d = PageDescriptor::of(long);
    if !d.resident || !d.used {
        return None;
    }
    Some(Kept {
        space,
        page,
        frame: frame_for(d.frame, page, big),
        w: protected || d.protected,
        s: d.supervisor,
        g: d.global,
        m: d.modified,
    })
}

/// The same, behind an indirect descriptor.
fn used_behind<R: Ram>(
    ram: &R,
    place: u32,
    space: Space,
    page: u32,
    protected: bool,
    big: bool,
) -> Option<Kept>
    requires { place % 4 ≡ 0 }
    ensures means { result ≡ used_behind (R.bytes ram.now) place space page protected big }
    ensures names { IfSome result (λ k. (k.space ≡ space) × (k.page ≡ page) × (k.frame < 2 ^ 20)) }
{
    if is_inside(ram, place) {
        used_page(ram.long(place), space, page, protected, big)
    } else {
        None
    }
}

/// The same, by the entry of the page's table.
#[tactic(auto, unfolding(crate::specs::Quiet::used_entry))]
fn used_entry<R: Ram>(
    ram: &R,
    place: u32,
    space: Space,
    page: u32,
    protected: bool,
    big: bool,
) -> Option<Kept>
    requires { place % 4 ≡ 0 }
    ensures means { result ≡ used_entry (R.bytes ram.now) place space page protected big }
    ensures names { IfSome result (λ k. (k.space ≡ space) × (k.page ≡ page) × (k.frame < 2 ^ 20)) }
{
    if !is_inside(ram, place) {
        return None;
    }
    let long = ram.long(place);
    if PageDescriptor::of(long).indirect {
        used_behind(ram, long / 4 * 4, space, page, protected, big)
    } else {
        used_page(long, space, page, protected, big)
    }
}

/// What a search for a read of this address finds, where each descriptor on the way is marked as used: so it changes no
/// byte. `None` where it finds no page, or would mark a descriptor.
pub fn quiet_search<R: Ram>(ram: &R, root: u32, space: Space, at: u32, big: bool) -> Option<Kept>
    ensures means { result ≡ found_used (R.bytes ram.now) root space (page_number at) big }
    ensures names { IfSome result (λ k. (k.space ≡ space) × (k.page ≡ page_number at) × NamesPages k) }
{
    let pointer = used_table(ram, entry_place(root, TABLE_BYTES, at >> 25))?;
    let leaf = used_table(ram, entry_place(pointer, TABLE_BYTES, at >> 18 & 0x7F))?;
    let protected = TableDescriptor::of(pointer).protected || TableDescriptor::of(leaf).protected;
    let page = page_of(at);
    used_entry(
        ram,
        page_place(leaf, page, big),
        space,
        page,
        protected,
        big,
    )
}
