//! Kept entries as linked nodes.

ghost use Rattle.std.specs.Prelude.{◌≡◌, ℕ, ◌+◌, ◌<◌, ◌≤◌, ◌==◌, true, List, [], ◌∷◌, ◌++◌, length, vec_len};
ghost use Rattle.std.specs.Prelude.{IfOk, slice_get, slice_index_or};
ghost use Rattle.mb_model.specs.declared.kept.Kept.{Kept as KeptValue};
ghost use Rattle.mb_model.specs.Keeping.{is_of, covers, Apart, entry_in, room_for, filled_in, displaced, flushed_in};
ghost use Rattle.vm_tlb.specs.Chains.{before as before_in, chain as chain_in, first_of};
ghost use Rattle.law_links.specs.Paths.{updated};
ghost use Rattle.vm_tlb.specs.Links.{links_of, chain_of as chain_number, number_of, order, vacant, entries};
ghost use Rattle.vm_tlb.specs.Links.{IsFreeBelow, IsLive, Sized, Sound};

use mb_model::{GUEST_CAPACITY, Kept};
use mb_outside::Memory;
use mb_port::{Flush, Space};
use std::alloc::Global;

/// How many nodes there are.
pub const NODES: u32 = GUEST_CAPACITY;

/// The link at the end of a chain. As a node it is the root of the ring: before the oldest, and after the newest.
pub const END: u32 = NODES;

/// How many chains there are. The root of a chain is its number after the nodes.
pub const CHAINS: u32 = 64;

/// The root of the chain of free nodes.
pub const FREE: u32 = NODES + CHAINS;

/// An entry with its links, each the number of a node or `END`.
#[derive(Clone, Copy)]
pub struct Node {
    pub kept: Kept,
    /// The entry that was filled before it.
    pub older: u32,
    /// The entry that was filled after it.
    pub newer: u32,
    /// The next of its chain, or the next free node.
    pub next: u32,
}

/// Entries in nodes that are linked by number: a ring of all of them in order of filling, and each in its chain.
#[derive(Drop)]
pub struct Nodes {
    pub nodes: Vec<Node>,
    /// The first node of each chain, and last the first free one.
    pub heads: Vec<u32>,
    pub oldest: u32,
    pub newest: u32,
}

/// The chain of a page of a space. The same page of the other space is half of all chains away.
#[inline(always)]
fn chain_of(space: Space, page: u32) -> u32
    ensures chain { result ≡ chain_number space page }
    ensures inside { result < CHAINS }
{
    match space {
        Space::User => page % CHAINS,
        Space::Super => (page % CHAINS + CHAINS / 2) % CHAINS,
    }
}

/// All nodes, each before the next in the chain of free ones.
fn free_nodes(alloc: Global) -> Result<Vec<Node>, Memory>
    ensures count { IfOk result (λ nodes. vec_len nodes ≡ NODES) }
    ensures chain { IfOk result (λ nodes. IsFreeBelow NODES nodes.items) }
{
    let node = Node {
        kept: Kept::default(),
        older: END,
        newer: END,
        next: END,
    };
    let Ok(mut nodes) = vec![in alloc; node; NODES as usize] else {
        return Err(Memory);
    };
    for at in 0..NODES {
        nodes[at as usize].next = at + 1;
    }
    Ok(nodes)
}

/// The roots of empty chains, and that of all nodes as free ones.
fn empty_heads(alloc: Global) -> Result<Vec<u32>, Memory>
    ensures count { IfOk result (λ heads. vec_len heads ≡ 65) }
    ensures chains { IfOk result (λ heads. (number : ℕ) → number < CHAINS
        → slice_index_or heads.items number END ≡ END) }
    ensures free { IfOk result (λ heads. slice_index_or heads.items CHAINS END ≡ 0) }
{
    let Ok(mut heads) = vec![in alloc; END; CHAINS as usize + 1] else {
        return Err(Memory);
    };
    heads[CHAINS as usize] = 0;
    Ok(heads)
}

impl Nodes {
    /// No entry, in all the memory that will be needed.
    pub fn new(alloc: Global) -> Result<Nodes, Memory>
        ensures sound { IfOk result Sound }
        ensures entries { IfOk result (λ t. entries (links_of t) ≡ []) }
    {
        Ok(Nodes {
            nodes: free_nodes(alloc)?,
            heads: empty_heads(alloc)?,
            oldest: END,
            newest: END,
        })
    }

    /// Whether no node is free.
    pub fn is_full(&self) -> bool
        requires { Sound self.now }
        ensures { result ≡ (length (entries (links_of self.now)) == NODES) }
    {
        self.next(FREE) == END
    }

    /// The node after a node or a root, in a chain or among the free ones.
    #[inline(always)]
    fn next(&self, at: u32) -> u32
        requires sized { Sized self.now }
        requires inside { at < FREE + 1 }
        ensures { result ≡ (links_of self.now).next at }
    {
        if at < NODES {
            self.nodes[at as usize].next
        } else {
            self.heads[(at - NODES) as usize]
        }
    }

    fn set_next(&mut self, at: u32, to: u32)
        requires sized { Sized self.old }
        requires inside { at < FREE + 1 }
        ensures links { links_of self.new
            ≡ record (links_of self.old) { next = updated (links_of self.old).next at to } }
        ensures sized { Sized self.new }
    {
        if at < NODES {
            self.nodes[at as usize].next = to;
        } else {
            self.heads[(at - NODES) as usize] = to;
        }
    }

    fn set_newer(&mut self, at: u32, to: u32)
        requires sized { Sized self.old }
        requires inside { at ≤ END }
        ensures links { links_of self.new
            ≡ record (links_of self.old) { newer = updated (links_of self.old).newer at to } }
        ensures sized { Sized self.new }
    {
        if at == END {
            self.oldest = to;
        } else {
            self.nodes[at as usize].newer = to;
        }
    }

    fn set_older(&mut self, at: u32, to: u32)
        requires sized { Sized self.old }
        requires inside { at ≤ END }
        ensures links { links_of self.new
            ≡ record (links_of self.old) { older = updated (links_of self.old).older at to } }
        ensures sized { Sized self.new }
    {
        if at == END {
            self.newest = to;
        } else {
            self.nodes[at as usize].older = to;
        }
    }

    fn set_kept(&mut self, at: u32, kept: Kept)
        requires sized { Sized self.old }
        requires inside { at < NODES }
        ensures links { links_of self.new
            ≡ record (links_of self.old) { kept = updated (links_of self.old).kept at kept } }
        ensures sized { Sized self.new }
    {
        self.nodes[at as usize].kept = kept;
    }

    /// The node of a page of a space, or `END`.
    #[inline(always)]
    fn place_of(&self, space: Space, page: u32) -> u32
        requires { Sound self.now }
        ensures place { result ≡ first_of (λ at. is_of space page ((links_of self.now).kept at))
            (chain_in (number_of (links_of self.now).kept) (chain_number space page) (order (links_of self.now))) }
        ensures inside { result ≤ END }
    {
        let mut at = self.next(NODES + chain_of(space, page));
        while at != END {
            let node = &self.nodes[at as usize];
            if node.kept.is_of(space, page) {
                break;
            }
            at = node.next;
        }
        at
    }

    /// The node or root before a node in its chain.
    fn before(&self, at: u32) -> u32
        requires sound { Sound self.now }
        requires live { IsLive (links_of self.now) at }
        ensures place { result ≡ before_in at (NODES + number_of (links_of self.now).kept at)
            (chain_in (number_of (links_of self.now).kept) (number_of (links_of self.now).kept at)
            (order (links_of self.now))) }
        ensures inside { result < FREE + 1 }
    {
        let kept = self.nodes[at as usize].kept;
        let mut before = NODES + chain_of(kept.space, kept.page);
        let mut next = self.next(before);
        while next != at {
            before = next;
            next = self.nodes[next as usize].next;
        }
        before
    }

    /// Takes a node out of the ring and out of its chain, and puts it before the free ones.
    fn unlink(&mut self, at: u32)
        requires sound { Sound self.old }
        requires live { IsLive (links_of self.old) at }
        ensures sound { Sound self.new }
        ensures order { (xs ys : List ℕ) → order (links_of self.old) ≡ xs ++ at ∷ ys
            → order (links_of self.new) ≡ xs ++ ys }
        ensures kept { (links_of self.new).kept ≡ (links_of self.old).kept }
    {
        let before = self.before(at);
        let node = self.nodes[at as usize];
        self.set_newer(node.older, node.newer);
        self.set_older(node.newer, node.older);
        self.set_next(before, node.next);
        let free = self.next(FREE);
        self.set_next(at, free);
        self.set_next(FREE, at);
    }

    /// Makes an entry the newest, in the first free node. It comes first in its chain.
    fn push(&mut self, kept: Kept)
        requires sound { Sound self.old }
        requires room { (at : ℕ) × (rest : List ℕ) × (vacant (links_of self.old) ≡ at ∷ rest) }
        ensures sound { Sound self.new }
        ensures order { (at : ℕ) (rest : List ℕ) → vacant (links_of self.old) ≡ at ∷ rest
            → order (links_of self.new) ≡ order (links_of self.old) ++ at ∷ [] }
        ensures kept { (at : ℕ) (rest : List ℕ) → vacant (links_of self.old) ≡ at ∷ rest
            → (links_of self.new).kept ≡ updated (links_of self.old).kept at kept }
    {
        let at = self.next(FREE);
        let free = self.next(at);
        self.set_next(FREE, free);
        self.set_kept(at, kept);
        let root = NODES + chain_of(kept.space, kept.page);
        let first = self.next(root);
        self.set_next(at, first);
        self.set_next(root, at);
        let newest = self.newest;
        self.set_newer(newest, at);
        self.set_newer(at, END);
        self.set_older(at, newest);
        self.set_older(END, at);
    }

    /// The entry of a page of a space.
    #[inline(always)]
    pub fn find(&self, space: Space, page: u32) -> Option<Kept>
        requires sound { Sound self.now }
        requires apart { Apart (entries (links_of self.now)) }
        ensures { result ≡ entry_in space page (entries (links_of self.now)) }
    {
        let at = self.place_of(space, page);
        if at == END {
            None
        } else {
            Some(self.nodes[at as usize].kept)
        }
    }

    /// The entry at a place, from the oldest on.
    pub fn entry(&self, place: u32) -> Option<Kept>
        requires { Sound self.now }
        ensures { result ≡ slice_get (entries (links_of self.now)) place }
    {
        let mut at = self.oldest;
        let mut left = place;
        while at != END {
            let node = &self.nodes[at as usize];
            if left == 0 {
                return Some(node.kept);
            }
            at = node.newer;
            left -= 1;
        }
        None
    }

    /// Drops the entry of a node. The answer is that entry.
    fn take(&mut self, at: u32) -> Kept
        requires sound { Sound self.old }
        requires live { IsLive (links_of self.old) at }
        ensures sound { Sound self.new }
        ensures order { (xs ys : List ℕ) → order (links_of self.old) ≡ xs ++ at ∷ ys
            → order (links_of self.new) ≡ xs ++ ys }
        ensures kept { (links_of self.new).kept ≡ (links_of self.old).kept }
        ensures gone { result ≡ (links_of self.old).kept at }
    {
        let kept = self.nodes[at as usize].kept;
        self.unlink(at);
        kept
    }

    /// Drops the entry that a new one displaces: an older one of its page, or the oldest where no node is free.
    fn make_room(&mut self, kept: Kept) -> Option<Kept>
        requires sound { Sound self.old }
        requires apart { Apart (entries (links_of self.old)) }
        ensures sound { Sound self.new }
        ensures entries { entries (links_of self.new) ≡ room_for NODES kept (entries (links_of self.old)) }
        ensures few { length (order (links_of self.new)) < NODES }
        ensures gone { result ≡ displaced NODES kept (entries (links_of self.old)) }
    {
        let at = self.place_of(kept.space, kept.page);
        if at != END {
            return Some(self.take(at));
        }
        if self.is_full() {
            let oldest = self.oldest;
            return Some(self.take(oldest));
        }
        None
    }

    /// Makes an entry the newest. The answer is the one that went for it.
    pub fn fill(&mut self, kept: Kept) -> Option<Kept>
        requires sound { Sound self.old }
        requires apart { Apart (entries (links_of self.old)) }
        ensures sound { Sound self.new }
        ensures entries { entries (links_of self.new) ≡ filled_in NODES kept (entries (links_of self.old)) }
        ensures gone { result ≡ displaced NODES kept (entries (links_of self.old)) }
    {
        let gone = self.make_room(kept);
        self.push(kept);
        gone
    }

    /// Drops the entries that a flush covers, from the oldest on.
    fn sweep(&mut self, what: Flush)
        requires { Sound self.old }
        ensures sound { Sound self.new }
        ensures entries { entries (links_of self.new) ≡ flushed_in what (entries (links_of self.old)) }
    {
        let mut at = self.oldest;
        while at != END {
            let node = self.nodes[at as usize];
            if node.kept.is_covered(what) {
                self.unlink(at);
            }
            at = node.newer;
        }
    }

    /// Drops the entry of a page of a space, where a flush of that page covers it.
    fn drop_page(&mut self, space: Space, page: u32, what: Flush)
        requires sound { Sound self.old }
        requires apart { Apart (entries (links_of self.old)) }
        requires page { (k : KeptValue) → covers what k ≡ true → is_of space page k ≡ true }
        ensures sound { Sound self.new }
        ensures entries { entries (links_of self.new) ≡ flushed_in what (entries (links_of self.old)) }
    {
        let at = self.place_of(space, page);
        if at != END && self.nodes[at as usize].kept.is_covered(what) {
            self.unlink(at);
        }
    }

    /// Drops entries.
    pub fn flush(&mut self, what: Flush)
        requires sound { Sound self.old }
        requires apart { Apart (entries (links_of self.old)) }
        ensures sound { Sound self.new }
        ensures entries { entries (links_of self.new) ≡ flushed_in what (entries (links_of self.old)) }
    {
        match what {
            Flush::All | Flush::AllLocal => self.sweep(what),
            Flush::Page(space, page) | Flush::PageLocal(space, page) => self.drop_page(
                space, page, what,
            ),
        }
    }
}
