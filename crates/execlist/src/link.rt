//! A list space linked by raw pointers: each header is the two cells at the ends of its list, and each node
//! a cell. All of it is safe code over the block of cells. No call but a search walks along a list.
ghost use Rattle.std.specs.Prelude.{find, IfSome, ◌≡◌, ℕ, ◌<◌, ◌≤◌, ◌+◌, ◌-◌, ◌++◌, ◌*◌, List, Option, Some, None, length, option_copied, replicate, slice_get, slice_set, vec_len, if◌then◌else◌, vec_capacity};
ghost use Rattle.execlist.specs.{Lists.blank, Lists.sequence, Lists.home, Lists.is_at, Lists.key_at, Lists.times, Lists.ahead, DigestKeys.digest_keys_of, DigestKeys.keys_in, Links.link_at, Chains.IsLinked, Chains.IsLinked-prop, Chains.lists_of, Chains.homes_of, Chains.node_at, Chains.cell_before};
ghost use Rattle.std.specs.Mem.Slots.{lease_ptr, lease_len, lease_heap};

use crate::block::{Block, Cell, reserve};
use crate::digest::DigestKey;
use crate::key::Name;
use crate::search::{LowerThan, Named, Sought};
use crate::space::{HeaderId, ListSpace, NodeId};
use core::slots::Lease;
use std::alloc::{AllocError, Global};

/// A place in a list: the head of a header, before its first node; a node; or the tail, after its last node.
/// RKM Libraries, Exec Lists and Queues: the list header.
#[derive(Clone, Copy, PartialEq, Eq, Debug)]
pub enum Place {
    Head(HeaderId),
    Node(NodeId),
    Tail(HeaderId),
}

/// A list space in one block of cells, with the nodes' keys beside it. Of `nodes` nodes and `headers` headers,
/// node `n` is cell `n`, and header `h` has the cells `nodes + 2 h` (head) and `nodes + 2 h + 1` (tail).
/// The block is given back if the space is dropped.
pub struct LinkSpace {
    block: Block,
    lease: Lease<Cell, Global>,
    alloc: Global,
    headers: usize,
    nodes: usize,
    // No node below this number was in a list since the space was made or reset.
    low: usize,
    // The keys of the nodes up to the last that was given one; each node after it has the key of a new one.
    keys: Vec<DigestKey>,
    ghost low_inside: { low ≤ nodes },
    ghost fresh: { (n : ℕ) → n < low → (link_at block.links n).home ≡ 0 },
    ghost stored: { vec_len keys ≤ nodes },
    ghost keyed: { length (keys_in nodes keys.items) ≡ length (homes_of block.links nodes) },
    ghost key_room: { nodes ≤ vec_capacity keys },
    ghost few: { nodes + headers * 2 ≤ 12288 },
    ghost lease_alloc: { lease_heap lease ≡ alloc },
    ghost lease_base: { lease_ptr lease ≡ block.base },
    ghost lease_cap: { lease_len lease ≡ block.capacity },
    ghost whole: { block.capacity ≡ nodes + headers * 2 },
    ghost linked: { IsLinked nodes headers block.links (lists_of block.links nodes headers) } by { IsLinked-prop nodes headers block.links (lists_of block.links nodes headers) },
    ghost stands: { (h n : ℕ) → times n (sequence (lists_of block.links nodes headers) h)
        ≡ (if is_at (home (homes_of block.links nodes) n) h then 1 else 0) },
}

/// The lesser of two numbers.
#[inline]
fn lesser(a: usize, b: usize) -> usize
    ensures { (result ≤ a) × (result ≤ b) }
{
    if a < b { a } else { b }
}

/// The key that is stored of a node, if one is.
#[inline]
fn stored(keys: &[DigestKey], n: NodeId) -> Option<&DigestKey>
    ensures { option_copied result ≡ slice_get keys.now n }
{
    keys.get(n)
}

/// Gives each node below a number that has no key yet the key of a new one.
fn fill(keys: &mut Vec<DigestKey>, count: usize)
    requires { count ≤ vec_capacity keys.old }
    ensures keys { digest_keys_of keys.new.items ≡ digest_keys_of keys.old.items ++ replicate (count - length keys.old.items) blank }
    ensures capacity { vec_capacity keys.old ≤ vec_capacity keys.new }
{
    for _n in keys.len()..count {
        keys.push(DigestKey::new(0, None)).unwrap();
    }
}

impl Drop for LinkSpace {
    fn drop(self) {
        let LinkSpace {
            block,
            lease,
            alloc,
            headers,
            nodes,
            low: _,
            keys: _,
        } = self;
        block.free(lease, &alloc, nodes + headers * 2);
    }
}

impl LinkSpace {
    /// The cell of the header's head.
    fn head(&self, h: HeaderId) -> usize
        requires { h < self.now.headers }
        ensures { result ≡ self.now.nodes + h * 2 }
    {
        self.nodes + h * 2
    }

    /// The cell after which a node goes: that of a node, or the head of the header for none.
    fn cell_before(&self, h: HeaderId, pred: Option<NodeId>) -> usize
        requires { h < self.now.headers }
        ensures { result ≡ cell_before self.now.nodes h pred }
    {
        match pred {
            None => self.head(h),
            Some(p) => p,
        }
    }

    /// Answers whether the node is sought.
    #[inline]
    fn is_sought<W: Sought>(&self, n: NodeId, wanted: &W) -> bool
        requires { n < length (homes_of self.now.block.links self.now.nodes) }
        ensures { result ≡ W.wanted wanted.now (key_at (keys_in self.now.nodes self.now.keys.items) n) }
    {
        match stored(&self.keys, n) {
            Some(key) => wanted.is_met(key),
            None => wanted.is_met(&DigestKey::new(0, None)),
        }
    }

    /// Answers the first node that is sought, of `from` and of those after it in its list, or none. Goes from
    /// `from` on and from the list's last node back, in turn, until the two meet: neither way waits for the other.
    fn first_sought<W: Sought>(&self, h: HeaderId, from: NodeId, wanted: &W) -> Option<NodeId>
        requires header { h < length (lists_of self.now.block.links self.now.nodes self.now.headers) }
        requires home { home (homes_of self.now.block.links self.now.nodes) from ≡ Some h }
        ensures value { result ≡ find (λ m. W.wanted wanted.now (key_at (keys_in self.now.nodes self.now.keys.items) m))
            (ahead (Some from) (sequence (lists_of self.now.block.links self.now.nodes self.now.headers) h)) }
        ensures home { IfSome result (λ m. home (homes_of self.now.block.links self.now.nodes) m ≡ Some h) }
    {
        let mut next = from;
        let mut back = self.last(h)?;
        // a number that no node has, until the walk back finds one
        let mut found = self.nodes;
        loop {
            if self.is_sought(next, wanted) {
                return Some(next);
            }
            if next == back {
                return self.node_of(found);
            }
            if self.is_sought(back, wanted) {
                found = back;
            }
            next = self.succ(next)?;
            if next == back {
                return self.node_of(found);
            }
            back = self.pred(back)?;
        }
    }

    /// Takes the node out of its list, if it is in one.
    fn take_out(&mut self, n: NodeId)
        requires { n < self.old.nodes }
        ensures nodes { self.new.nodes ≡ self.old.nodes }
        ensures headers { self.new.headers ≡ self.old.headers }
        ensures homes { homes_of self.new.block.links self.new.nodes
            ≡ slice_set (homes_of self.old.block.links self.old.nodes) n None }
    {
        if self.block.home_id(n) != 0 {
            self.block.unlink(n);
        }
    }

    /// The node of a number, or none if no node has it.
    #[inline]
    fn node_of(&self, number: usize) -> Option<NodeId>
        ensures { result ≡ node_at self.now.nodes number }
    {
        if number < self.nodes {
            Some(number)
        } else {
            None
        }
    }

    /// The node that the cell is, or none if it is a header's.
    #[inline]
    fn node_at(&self, cell: u32) -> Option<NodeId>
        ensures { result ≡ node_at self.now.nodes cell }
    {
        self.node_of(cell as usize)
    }
}

impl ListSpace for LinkSpace {
    ghost use Rattle.execlist.specs.DigestKeys.{keys_in};

    ghost sequences = { λ s. lists_of s.block.links s.nodes s.headers };

    ghost homes = { λ s. homes_of s.block.links s.nodes };

    ghost keys = { λ s. keys_in s.nodes s.keys.items };

    fn new(alloc: Global, headers: usize, nodes: usize) -> Result<Self, AllocError> {
        let keys = Vec::with_capacity(alloc, nodes)?;
        match reserve(&alloc, nodes + headers * 2) {
            None => Err(AllocError),
            Some((mut block, lease)) => {
                for i in 0..nodes {
                    block.push(i, i as u32, i, i, 0);
                }
                for h in 0..headers {
                    let head = nodes + h * 2;
                    block.push(head, head as u32, head + 1, head, (h + 1) as u32);
                    block.push(head + 1, (head + 1) as u32, head + 1, head, (h + 1) as u32);
                }
                Ok(LinkSpace {
                    block,
                    lease,
                    alloc,
                    headers,
                    nodes,
                    low: nodes,
                    keys,
                })
            }
        }
    }

    fn insert(&mut self, h: HeaderId, n: NodeId, pred: Option<NodeId>) {
        let before = self.cell_before(h, pred);
        let after = self.block.next_id(before) as usize;
        self.low = lesser(self.low, n);
        self.block.link_between(before, n, after, (h + 1) as u32);
    }

    fn remove(&mut self, n: NodeId) {
        self.block.unlink(n);
    }

    fn reset(&mut self) {
        for n in self.low..self.nodes {
            self.take_out(n);
        }
        self.low = self.nodes;
        self.keys.clear();
    }

    fn first(&self, h: HeaderId) -> Option<NodeId> {
        self.node_at(self.block.next_id(self.head(h)))
    }

    fn last(&self, h: HeaderId) -> Option<NodeId> {
        self.node_at(self.block.prev_id(self.head(h) + 1))
    }

    fn succ(&self, n: NodeId) -> Option<NodeId> {
        self.node_at(self.block.next_id(n))
    }

    fn pred(&self, n: NodeId) -> Option<NodeId> {
        self.node_at(self.block.prev_id(n))
    }

    fn home(&self, n: NodeId) -> Option<HeaderId> {
        let home = self.block.home_id(n);
        if home == 0 {
            None
        } else {
            Some(home as usize - 1)
        }
    }

    fn set_key(&mut self, n: NodeId, pri: i8, name: Option<Name>) {
        fill(&mut self.keys, n + 1);
        self.keys[n] = DigestKey::new(pri, name);
    }

    fn pri(&self, n: NodeId) -> i8 {
        match stored(&self.keys, n) {
            Some(key) => key.pri(),
            None => 0,
        }
    }

    fn has_name(&self, n: NodeId, name: &str) -> bool {
        match stored(&self.keys, n) {
            Some(key) => key.is_named(name),
            None => false,
        }
    }

    // The two searches below have bodies of their own, which go from both ends.
    fn find_name(&self, h: HeaderId, after: Option<NodeId>, name: &str) -> Option<NodeId> {
        let from = match after {
            None => self.first(h),
            Some(n) => self.succ(n),
        };
        self.first_sought(h, from?, &Named::new(name))
    }

    fn enqueue(&mut self, h: HeaderId, n: NodeId) {
        let lower = match self.first(h) {
            None => None,
            Some(front) => self.first_sought(h, front, &LowerThan { pri: self.pri(n) }),
        };
        let after = match lower {
            Some(m) => self.pred(m),
            None => self.last(h),
        };
        self.insert(h, n, after);
    }

    ghost stands = { λ s. s.stands };

    ghost keyed = { λ s. s.keyed };
}

impl LinkSpace {
    ghost use Rattle.execlist.specs.Places.{IsPlace, node_or, next_place, prev_place};

    /// Answers the place after one: from the head of a header its nodes in their order, then its tail.
    /// Answers none after a tail and after a node that is in no list. Takes no memory.
    /// RKM Libraries, Exec Lists and Queues: `ln_Succ`.
    pub fn next_cell(&self, c: Place) -> Option<Place>
        requires { IsPlace (⟦<LinkSpace as ListSpace>⟧.sequences self.now)
            (⟦<LinkSpace as ListSpace>⟧.homes self.now) c }
        ensures { result ≡ next_place (⟦<LinkSpace as ListSpace>⟧.sequences self.now)
            (⟦<LinkSpace as ListSpace>⟧.homes self.now) c }
    {
        match c {
            Place::Head(h) => Some(Self::place_or(self.first(h), Place::Tail(h))),
            Place::Node(n) => {
                let h = self.home(n)?;
                Some(Self::place_or(self.succ(n), Place::Tail(h)))
            }
            Place::Tail(_) => None,
        }
    }

    /// Answers the place before one: from the tail of a header its nodes from the last on, then its head.
    /// Answers none before a head and before a node that is in no list. Takes no memory.
    /// RKM Libraries, Exec Lists and Queues: `ln_Pred`.
    pub fn prev_cell(&self, c: Place) -> Option<Place>
        requires { IsPlace (⟦<LinkSpace as ListSpace>⟧.sequences self.now)
            (⟦<LinkSpace as ListSpace>⟧.homes self.now) c }
        ensures { result ≡ prev_place (⟦<LinkSpace as ListSpace>⟧.sequences self.now)
            (⟦<LinkSpace as ListSpace>⟧.homes self.now) c }
    {
        match c {
            Place::Head(_) => None,
            Place::Node(n) => {
                let h = self.home(n)?;
                Some(Self::place_or(self.pred(n), Place::Head(h)))
            }
            Place::Tail(h) => Some(Self::place_or(self.last(h), Place::Head(h))),
        }
    }

    /// The place of a node, or else that end of its list.
    fn place_or(node: Option<NodeId>, end: Place) -> Place
        ensures { result ≡ node_or end node }
    {
        match node {
            None => end,
            Some(n) => Place::Node(n),
        }
    }
}
