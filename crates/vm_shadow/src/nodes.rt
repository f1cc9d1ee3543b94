//! The slots of an area as linked nodes.

ghost use Rattle.std.specs.Prelude.{◌≡◌, ℕ, ◌+◌, ◌<◌, ◌≤◌, ◌==◌, true, List, [], ◌∷◌, ◌++◌, length, IfOk};
ghost use Rattle.vm_shadow.specs.Area.{one};
ghost use Rattle.law_links.specs.Paths.{updated, times};
ghost use Rattle.vm_shadow.specs.Links.{links_of, order, Sized, Sound};

use crate::table::Table;
use mb_outside::Memory;
use mb_port::Space;
use std::alloc::Global;

/// How many slots an area has. As a link it is the end of a list, and the root of the ring of the slots in use.
pub const SLOTS: u32 = 126;

/// The root of the list of free slots.
pub const FREE: u32 = 127;

/// A slot with its links.
#[derive(Clone, Copy)]
pub struct Node {
    /// The table in it, if it is in use.
    pub table: Table,
    /// How many of its longs are not 0.
    pub count: u32,
    pub older: u32,
    pub newer: u32,
}

/// The slots of an area, linked by number: those in use from the oldest table to the newest and back, and the free
/// ones.
#[derive(Drop)]
pub struct Nodes {
    pub nodes: Vec<Node>,
    pub oldest: u32,
    pub newest: u32,
    /// The first free slot.
    pub free: u32,
    /// How many are in use.
    pub used: u32,
}

/// A count of longs that are not 0, once one of them is written.
fn counted(count: u32, old: u32, new: u32) -> u32
    requires some { one old ≤ count }
    requires few { count ≤ 128 }
    ensures { result + one old ≡ count + one new }
{
    count + u32::from(new != 0) - u32::from(old != 0)
}

impl Nodes {
    /// No slot is in use.
    pub fn new(alloc: Global) -> Result<Nodes, Memory>
        ensures { IfOk result (λ t. Sound t × (order (links_of t) ≡ [])) }
    {
        let node = Node {
            table: Table::Pointers(Space::User, 0),
            count: 0,
            older: SLOTS,
            newer: SLOTS,
        };
        let mut nodes = match vec![in alloc; node; SLOTS as usize] {
            Ok(nodes) => Nodes {
                nodes,
                oldest: SLOTS,
                newest: SLOTS,
                free: SLOTS,
                used: 0,
            },
            Err(_) => return Err(Memory),
        };
        nodes.reset();
        Ok(nodes)
    }

    /// Frees all slots.
    pub fn reset(&mut self)
        requires { Sized self.old }
        ensures sound { Sound self.new }
        ensures order { order (links_of self.new) ≡ [] }
        ensures count { (at : ℕ) → at < SLOTS → (links_of self.new).count at ≡ 0 }
    {
        for at in 0..SLOTS {
            let node = &mut self.nodes[at as usize];
            node.count = 0;
            node.newer = at + 1;
        }
        self.oldest = SLOTS;
        self.newest = SLOTS;
        self.free = 0;
        self.used = 0;
    }

    fn newer(&self, at: u32) -> u32
        requires sized { Sized self.now }
        requires inside { at < 128 }
        ensures { result ≡ (links_of self.now).newer at }
    {
        match at {
            SLOTS => self.oldest,
            FREE => self.free,
            _ => self.nodes[at as usize].newer,
        }
    }

    fn older(&self, at: u32) -> u32
        requires sized { Sized self.now }
        requires inside { at < FREE }
        ensures { result ≡ (links_of self.now).older at }
    {
        if at == SLOTS {
            self.newest
        } else {
            self.nodes[at as usize].older
        }
    }

    fn set_newer(&mut self, at: u32, to: u32)
        requires sized { Sized self.old }
        requires inside { at < 128 }
        ensures links { links_of self.new
            ≡ record (links_of self.old) { newer = updated (links_of self.old).newer at to } }
        ensures sized { Sized self.new }
    {
        match at {
            SLOTS => self.oldest = to,
            FREE => self.free = to,
            _ => self.nodes[at as usize].newer = to,
        }
    }

    fn set_older(&mut self, at: u32, to: u32)
        requires sized { Sized self.old }
        requires inside { at < FREE }
        ensures links { links_of self.new
            ≡ record (links_of self.old) { older = updated (links_of self.old).older at to } }
        ensures sized { Sized self.new }
    {
        if at == SLOTS {
            self.newest = to;
        } else {
            self.nodes[at as usize].older = to;
        }
    }

    fn set_table(&mut self, at: u32, table: Table)
        requires sized { Sized self.old }
        requires inside { at < SLOTS }
        ensures links { links_of self.new
            ≡ record (links_of self.old) { table = updated (links_of self.old).table at table } }
        ensures sized { Sized self.new }
    {
        self.nodes[at as usize].table = table;
    }

    /// How many longs of a slot are not 0.
    pub fn count(&self, at: u32) -> u32
        requires sized { Sized self.now }
        requires inside { at < SLOTS }
        ensures { result ≡ (links_of self.now).count at }
    {
        self.nodes[at as usize].count
    }

    fn set_count(&mut self, at: u32, count: u32)
        requires sized { Sized self.old }
        requires inside { at < SLOTS }
        ensures links { links_of self.new
            ≡ record (links_of self.old) { count = updated (links_of self.old).count at count } }
        ensures sized { Sized self.new }
    {
        self.nodes[at as usize].count = count;
    }

    /// Counts a long of a slot that is written.
    pub fn recount(&mut self, at: u32, old: u32, new: u32)
        requires sound { Sound self.old }
        requires inside { at < SLOTS }
        requires some { one old ≤ (links_of self.old).count at }
        requires few { (links_of self.old).count at ≤ 128 }
        ensures sound { Sound self.new }
        ensures links { links_of self.new ≡ record (links_of self.old) {
          count = updated (links_of self.old).count at ((links_of self.new).count at);
        } }
        ensures count { (links_of self.new).count at + one old ≡ (links_of self.old).count at + one new }
    {
        let count = counted(self.count(at), old, new);
        self.set_count(at, count);
    }

    /// Takes a free slot for a table, which becomes the newest.
    pub fn push(&mut self, table: Table) -> u32
        requires sound { Sound self.old }
        requires room { length (order (links_of self.old)) < SLOTS }
        ensures sound { Sound self.new }
        ensures inside { result < SLOTS }
        ensures free { times result (order (links_of self.old)) ≡ 0 }
        ensures order { order (links_of self.new) ≡ order (links_of self.old) ++ result ∷ [] }
        ensures table { (links_of self.new).table ≡ updated (links_of self.old).table result table }
        ensures count { (links_of self.new).count ≡ (links_of self.old).count }
    {
        let at = self.newer(FREE);
        let next = self.newer(at);
        let newest = self.newest;
        self.set_newer(FREE, next);
        self.set_table(at, table);
        self.set_newer(newest, at);
        self.set_newer(at, SLOTS);
        self.set_older(at, newest);
        self.set_older(SLOTS, at);
        self.used += 1;
        at
    }

    /// Frees a slot.
    pub fn remove(&mut self, at: u32)
        requires sound { Sound self.old }
        requires live { (xs : List ℕ) × (ys : List ℕ) × (order (links_of self.old) ≡ xs ++ at ∷ ys) }
        ensures sound { Sound self.new }
        ensures order { (xs ys : List ℕ) → order (links_of self.old) ≡ xs ++ at ∷ ys
            → order (links_of self.new) ≡ xs ++ ys }
        ensures table { (links_of self.new).table ≡ (links_of self.old).table }
        ensures count { (links_of self.new).count ≡ (links_of self.old).count }
    {
        let older = self.older(at);
        let newer = self.newer(at);
        self.set_newer(older, newer);
        self.set_older(newer, older);
        let free = self.newer(FREE);
        self.set_newer(at, free);
        self.set_newer(FREE, at);
        self.used -= 1;
    }
}
