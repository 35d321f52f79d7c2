//! A list space in vectors: one list of all linked nodes, in which the nodes of a header are in their order, and for
//! each node its header and its key. A call reads that list once or twice from end to end, and a walk does so for each
//! node.
ghost use Rattle.std.specs.Prelude.{◌≡◌, ℕ, ◌<◌, ◌≤◌, ◌+◌, List, [], ◌∷◌, ◌++◌, Option, Some, None, true, false, length, insert, remove, slice_set, slice_index, slice_index_or, drop, take, find, map, option_map, All, IfOk, IfSome, IsSome, vec_len, if◌then◌else◌, vec_capacity};
ghost use Rattle.execlist.specs.{Order.first, Order.is_lower, Order.enqueue, Lists.sequence, Lists.blank, Lists.part_from, Lists.home, Lists.pri_of, Lists.is_at, Lists.is_named, Lists.times, Lists.last, Lists.name_is, Plain.nodes_of, Plain.sequences_of, Plain.IsSpace, Keys.key_of, Keys.keys_of};

use crate::key::{Name, NodeKey};
use crate::space::{HeaderId, ListSpace, NodeId};
use std::alloc::{AllocError, Global};

/// A list space in vectors.
#[derive(Drop)]
pub struct PlainSpace {
    headers: usize,
    order: Vec<NodeId>,
    homes: Vec<Option<HeaderId>>,
    keys: Vec<NodeKey>,
    ghost kept: { IsSpace headers order.items homes.items },
    ghost stands: { (h n : ℕ) → times n (sequence (sequences_of headers order.items homes.items) h)
        ≡ (if is_at (home homes.items n) h then 1 else 0) },
    ghost keyed: { vec_len keys ≡ vec_len homes },
    ghost room: { vec_len homes ≤ vec_capacity order },
}

fn is_at(home: Option<HeaderId>, h: HeaderId) -> bool
    ensures { result ≡ is_at home h }
{
    match home {
        Some(k) => k == h,
        None => false,
    }
}

/// The place of a node that is in the list.
fn place_of(all: &[NodeId], n: NodeId) -> usize
    requires { times n all.now ≡ 1 }
    ensures within { result < length all.now }
    ensures there { slice_index all.now result ≡ n }
{
    for (i, m) in all.iter().enumerate() {
        if *m == n {
            return i;
        }
    }
    unreachable!()
}

/// The first node of the header, from a place on.
fn first_of(all: &[NodeId], homes: &[Option<HeaderId>], h: HeaderId, from: usize) -> Option<NodeId>
    requires known { All (λ m. m < length homes.now) all.now }
    ensures value { result ≡ first (nodes_of homes.now h (drop from all.now)) }
    ensures home { IfSome result (λ n. home homes.now n ≡ Some h) }
{
    for i in from..all.len() {
        if is_at(homes[all[i]], h) {
            return Some(all[i]);
        }
    }
    None
}

/// The last node of the header, before a place.
#[tactic(auto, using(crate::proofs::PlainLemmas::last_is, crate::proofs::PlainLemmas::last_before))]
fn last_of(all: &[NodeId], homes: &[Option<HeaderId>], h: HeaderId, to: usize) -> Option<NodeId>
    requires known { All (λ m. m < length homes.now) all.now }
    requires within { to ≤ length all.now }
    ensures value { result ≡ last (nodes_of homes.now h (take to all.now)) }
    ensures home { IfSome result (λ n. home homes.now n ≡ Some h) }
{
    let mut i = to;
    while i > 0 {
        i -= 1;
        if is_at(homes[all[i]], h) {
            return Some(all[i]);
        }
    }
    None
}

impl PlainSpace {
    /// Puts an unlinked node into the list.
    fn place(&mut self, at: usize, h: HeaderId, n: NodeId)
        requires within { at ≤ vec_len self.old.order }
        requires header { h < self.old.headers }
        requires node { n < vec_len self.old.homes }
        requires unlinked { home self.old.homes.items n ≡ None }
        ensures order { self.new.order.items ≡ insert self.old.order.items at n }
        ensures homes { self.new.homes.items ≡ slice_set self.old.homes.items n (Some h) }
        ensures keys { self.new.keys.items ≡ self.old.keys.items }
        ensures headers { self.new.headers ≡ self.old.headers }
    {
        self.order.insert(at, n).unwrap();
        self.homes[n] = Some(h);
    }

    /// Takes the node at a place out of the list.
    fn take_out(&mut self, at: usize, n: NodeId)
        requires within { at < vec_len self.old.order }
        requires there { slice_index self.old.order.items at ≡ n }
        ensures order { self.new.order.items ≡ remove self.old.order.items at }
        ensures homes { self.new.homes.items ≡ slice_set self.old.homes.items n None }
        ensures keys { self.new.keys.items ≡ self.old.keys.items }
        ensures headers { self.new.headers ≡ self.old.headers }
    {
        self.order.remove(at);
        self.homes[n] = None;
    }
}

impl ListSpace for PlainSpace {
    ghost use Rattle.execlist.specs.{Plain.sequences_of, Keys.key_of, Keys.keys_of};
    ghost use Rattle.std.proofs.Common.{arith};
    ghost use Rattle.std.proofs.lemmas.List.{length-map};

    ghost sequences = { λ s. sequences_of s.headers s.order.items s.homes.items };

    ghost homes = { λ s. s.homes.items };

    ghost keys = { λ s. keys_of s.keys.items };

    fn new(alloc: Global, headers: usize, nodes: usize) -> Result<Self, AllocError> {
        let order = Vec::with_capacity(alloc, nodes)?;
        let homes = Vec::from_elem(alloc, None, nodes)?;
        let keys = Vec::from_elem(alloc, NodeKey { pri: 0, name: None }, nodes)?;
        Ok(PlainSpace {
            headers,
            order,
            homes,
            keys,
        })
    }

    fn reset(&mut self) {
        self.order.clear();
        self.homes.fill(None);
        self.keys.fill(NodeKey { pri: 0, name: None });
    }

    fn home(&self, n: NodeId) -> Option<HeaderId> {
        self.homes[n]
    }

    fn first(&self, h: HeaderId) -> Option<NodeId> {
        first_of(&self.order, &self.homes, h, 0)
    }

    fn last(&self, h: HeaderId) -> Option<NodeId> {
        last_of(&self.order, &self.homes, h, self.order.len())
    }

    fn succ(&self, n: NodeId) -> Option<NodeId> {
        match self.homes[n] {
            None => None,
            Some(h) => {
                let at = place_of(&self.order, n);
                first_of(&self.order, &self.homes, h, at + 1)
            }
        }
    }

    fn pred(&self, n: NodeId) -> Option<NodeId> {
        match self.homes[n] {
            None => None,
            Some(h) => {
                let at = place_of(&self.order, n);
                last_of(&self.order, &self.homes, h, at)
            }
        }
    }

    fn insert(&mut self, h: HeaderId, n: NodeId, pred: Option<NodeId>) {
        match pred {
            None => self.place(0, h, n),
            Some(p) => {
                let at = place_of(&self.order, p);
                self.place(at + 1, h, n);
            }
        }
    }

    fn remove(&mut self, n: NodeId) {
        let at = place_of(&self.order, n);
        self.take_out(at, n);
    }

    fn pri(&self, n: NodeId) -> i8 {
        self.keys[n].pri
    }

    fn has_name(&self, n: NodeId, name: &str) -> bool {
        self.keys[n].is_named(name)
    }

    fn set_key(&mut self, n: NodeId, pri: i8, name: Option<Name>) {
        self.keys[n] = NodeKey { pri, name };
    }

    ghost stands = { λ s. s.stands };

    ghost keyed = { λ s. omega (arith, length-map s.keys.items key_of, s.keys.ok.0, s.homes.ok.0, s.keyed) };
}
