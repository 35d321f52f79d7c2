//! The interface of a list space: headers, each of which holds a sequence of nodes, and nodes, each of
//! which has a priority and a name or none. A node is in at most one sequence, and there once.
ghost use Rattle.std.specs.Prelude.{◌≡◌, ℕ, ◌<◌, ◌≤◌, List, [], ◌∷◌, ◌++◌, Option, Some, None, length, replicate, slice_set, drop, take, find, option_map, IfOk, IfSome, IsSome, MatchOption, if◌then◌else◌, ◌-◌};
ghost use Rattle.std.specs.Option.{ForSome};
ghost use Rattle.execlist.specs.Lists.{KeyData, blank, sequence, home, pri_of, part_before, part_after, part_from, put_after, last, is_named, is_at, times};
ghost use Rattle.execlist.specs.Order.{enqueue, first, without_item};

use crate::key::Name;
use std::alloc::{AllocError, Global};

/// The number of a node, from 0.
pub type NodeId = usize;

/// The number of a header, from 0.
pub type HeaderId = usize;

/// Headers and nodes, made once and numbered from 0.
///
/// All room is made by `new`; no other call takes memory. A call on one header leaves the sequence of
/// every other as it was. The sequences need not be sorted: only `enqueue` reads priorities.
/// RKM Libraries, Exec Lists and Queues.
pub trait ListSpace: Drop {
    /// The sequence of each header, by its number.
    ghost sequences: { Self → List (List ℕ) };

    /// The header of each node, by its number, or none.
    ghost homes: { Self → List (Option ℕ) };

    /// The key of each node, by its number.
    ghost keys: { Self → List KeyData };

    /// Makes `headers` empty headers, and `nodes` nodes that are in none, of priority 0 and with no
    /// name. At most 4,096 of each. An error means that memory is refused. Autodoc amiga.lib/NewList.
    fn new(alloc: Global, headers: usize, nodes: usize) -> Result<Self, AllocError>
        requires few_headers { headers ≤ 4096 }
        requires few_nodes { nodes ≤ 4096 }
        ensures empty { IfOk result (λ s. sequences s ≡ replicate headers []) }
        ensures unlinked { IfOk result (λ s. homes s ≡ replicate nodes None) }
        ensures blank { IfOk result (λ s. keys s ≡ replicate nodes blank) };

    /// Makes the space as `new` made it: each header is empty, and each node is in none, of priority 0 and with no
    /// name.
    ///
    /// Source: project rule.
    fn reset(&mut self)
        ensures empty { sequences self.new ≡ replicate (length (sequences self.old)) [] }
        ensures unlinked { homes self.new ≡ replicate (length (homes self.old)) None }
        ensures blank { keys self.new ≡ replicate (length (homes self.old)) blank };

    /// Answers the header whose sequence has the node, or none. Project rule: Exec cannot say.
    fn home(&self, n: NodeId) -> Option<HeaderId>
        requires { n < length (homes self.now) }
        ensures value { result ≡ home (homes self.now) n }
        ensures known { IfSome result (λ h. h < length (sequences self.now)) };

    /// Answers the first node of the header, or none if it is empty, and takes nothing out.
    /// RKM Libraries, Exec Lists and Queues: scanning a list.
    fn first(&self, h: HeaderId) -> Option<NodeId>
        requires { h < length (sequences self.now) }
        ensures value { result ≡ first (sequence (sequences self.now) h) }
        ensures home { IfSome result (λ n. home (homes self.now) n ≡ Some h) };

    /// Answers the last node of the header, or none if it is empty, and takes nothing out.
    /// RKM Libraries, Exec Lists and Queues: scanning a list.
    fn last(&self, h: HeaderId) -> Option<NodeId>
        requires { h < length (sequences self.now) }
        ensures value { result ≡ last (sequence (sequences self.now) h) }
        ensures home { IfSome result (λ n. home (homes self.now) n ≡ Some h) };

    /// Answers the node after `n` in its sequence, or none if `n` is the last. `n` is linked.
    /// RKM Libraries, Exec Lists and Queues: `ln_Succ`.
    fn succ(&self, n: NodeId) -> Option<NodeId>
        requires { IsSome (home (homes self.now) n) }
        ensures value { ForSome (home (homes self.now) n) (λ h. result
            ≡ first (part_after n (sequence (sequences self.now) h))) }
        ensures home { IfSome result (λ m. home (homes self.now) m ≡ home (homes self.now) n) };

    /// Answers the node before `n` in its sequence, or none if `n` is the first. `n` is linked.
    /// RKM Libraries, Exec Lists and Queues: `ln_Pred`.
    fn pred(&self, n: NodeId) -> Option<NodeId>
        requires { IsSome (home (homes self.now) n) }
        ensures value { ForSome (home (homes self.now) n) (λ h. result
            ≡ last (part_before n (sequence (sequences self.now) h))) }
        ensures home { IfSome result (λ m. home (homes self.now) m ≡ home (homes self.now) n) };

    /// Puts the unlinked node `n` after a node of the header, or first for none.
    /// Autodoc exec.library/Insert.
    fn insert(&mut self, h: HeaderId, n: NodeId, pred: Option<NodeId>)
        requires header { h < length (sequences self.old) }
        requires node { n < length (homes self.old) }
        requires unlinked { home (homes self.old) n ≡ None }
        requires pred_in { ForSome pred (λ p. home (homes self.old) p ≡ Some h) }
        ensures placed { sequences self.new
            ≡ slice_set (sequences self.old) h (put_after pred n (sequence (sequences self.old) h)) }
        ensures homes { homes self.new ≡ slice_set (homes self.old) n (Some h) }
        ensures keys { keys self.new ≡ keys self.old };

    /// Takes the linked node `n` out of the sequence that has it; the others keep their order.
    /// Autodoc exec.library/Remove.
    fn remove(&mut self, n: NodeId)
        requires { IsSome (home (homes self.old) n) }
        ensures taken { IfSome (home (homes self.old) n) (λ h. sequences self.new
            ≡ slice_set (sequences self.old) h (without_item n (sequence (sequences self.old) h))) }
        ensures headers { length (sequences self.new) ≡ length (sequences self.old) }
        ensures homes { homes self.new ≡ slice_set (homes self.old) n None }
        ensures keys { keys self.new ≡ keys self.old };

    /// Answers the priority of the node, -128 to 127. RKM Libraries, Exec Lists and Queues: `ln_Pri`.
    fn pri(&self, n: NodeId) -> i8
        requires { n < length (homes self.now) }
        ensures { result ≡ pri_of (keys self.now) n };

    /// Answers whether the node has a name and it is `name`, byte for byte. Project rule: Exec has no
    /// such call.
    fn has_name(&self, n: NodeId, name: &str) -> bool
        requires { n < length (homes self.now) }
        ensures { result ≡ is_named (keys self.now) name.now n };

    /// Gives the unlinked node `n` a priority, and a name or none; every other node keeps its own.
    /// RKM Libraries, Exec Lists and Queues: node initialization.
    fn set_key(&mut self, n: NodeId, pri: i8, name: Option<Name>)
        requires node { n < length (homes self.old) }
        requires unlinked { home (homes self.old) n ≡ None }
        ensures keys { keys self.new
            ≡ slice_set (keys self.old) n (record { pri = pri; name = option_map (λ t. t.bytes) name }) }
        ensures sequences { sequences self.new ≡ sequences self.old }
        ensures homes { homes self.new ≡ homes self.old };

    /// Puts the unlinked node `n` first. Autodoc exec.library/AddHead.
    fn add_head(&mut self, h: HeaderId, n: NodeId)
        requires header { h < length (sequences self.old) }
        requires node { n < length (homes self.old) }
        requires unlinked { home (homes self.old) n ≡ None }
        ensures placed { sequences self.new
            ≡ slice_set (sequences self.old) h (n ∷ sequence (sequences self.old) h) }
        ensures homes { homes self.new ≡ slice_set (homes self.old) n (Some h) }
        ensures keys { keys self.new ≡ keys self.old }
    {
        self.insert(h, n, None);
    }

    /// Puts the unlinked node `n` last. Autodoc exec.library/AddTail.
    fn add_tail(&mut self, h: HeaderId, n: NodeId)
        requires header { h < length (sequences self.old) }
        requires node { n < length (homes self.old) }
        requires unlinked { home (homes self.old) n ≡ None }
        ensures placed { sequences self.new
            ≡ slice_set (sequences self.old) h (sequence (sequences self.old) h ++ n ∷ []) }
        ensures homes { homes self.new ≡ slice_set (homes self.old) n (Some h) }
        ensures keys { keys self.new ≡ keys self.old }
    {
        let last = self.last(h);
        self.insert(h, n, last);
    }

    /// Puts the unlinked node `n` before the first node of lower priority, or last if there is none.
    /// The sequence may be unsorted. Autodoc exec.library/Enqueue.
    fn enqueue(&mut self, h: HeaderId, n: NodeId)
        requires header { h < length (sequences self.old) }
        requires node { n < length (homes self.old) }
        requires unlinked { home (homes self.old) n ≡ None }
        ensures placed { sequences self.new
            ≡ slice_set (sequences self.old) h (enqueue (pri_of (keys self.old)) (sequence (sequences self.old) h) n) }
        ensures homes { homes self.new ≡ slice_set (homes self.old) n (Some h) }
        ensures keys { keys self.new ≡ keys self.old }
    {
        let pri = self.pri(n);
        let mut after = None;
        let mut next = self.first(h);
        while let Some(m) = next {
            if self.pri(m) < pri {
                break;
            }
            after = Some(m);
            next = self.succ(m);
        }
        self.insert(h, n, after);
    }

    /// Takes out the first node and answers it, or answers none if the header is empty.
    /// Autodoc exec.library/RemHead.
    fn rem_head(&mut self, h: HeaderId) -> Option<NodeId>
        requires { h < length (sequences self.old) }
        ensures value { result ≡ first (sequence (sequences self.old) h) }
        ensures taken { sequences self.new
            ≡ slice_set (sequences self.old) h (drop 1 (sequence (sequences self.old) h)) }
        ensures homes { MatchOption result (homes self.new ≡ homes self.old)
            (λ n. homes self.new ≡ slice_set (homes self.old) n None) }
        ensures was_home { IfSome result (λ n. home (homes self.old) n ≡ Some h) }
        ensures keys { keys self.new ≡ keys self.old }
    {
        let n = self.first(h)?;
        self.remove(n);
        Some(n)
    }

    /// Takes out the last node and answers it, or answers none if the header is empty.
    /// Autodoc exec.library/RemTail.
    fn rem_tail(&mut self, h: HeaderId) -> Option<NodeId>
        requires { h < length (sequences self.old) }
        ensures value { result ≡ last (sequence (sequences self.old) h) }
        ensures taken { sequences self.new
            ≡ slice_set (sequences self.old) h
            (take (length (sequence (sequences self.old) h) - 1) (sequence (sequences self.old) h)) }
        ensures homes { MatchOption result (homes self.new ≡ homes self.old)
            (λ n. homes self.new ≡ slice_set (homes self.old) n None) }
        ensures was_home { IfSome result (λ n. home (homes self.old) n ≡ Some h) }
        ensures keys { keys self.new ≡ keys self.old }
    {
        let n = self.last(h)?;
        self.remove(n);
        Some(n)
    }

    /// Answers the first node of that name in the header, or after the node `after` of it, or none.
    /// Names compare byte for byte. Autodoc exec.library/FindName.
    fn find_name(&self, h: HeaderId, after: Option<NodeId>, name: &str) -> Option<NodeId>
        requires header { h < length (sequences self.now) }
        requires after_in { ForSome after (λ n. home (homes self.now) n ≡ Some h) }
        ensures value { result
            ≡ find (is_named (keys self.now) name.now) (part_from after (sequence (sequences self.now) h)) }
        ensures home { IfSome result (λ n. home (homes self.now) n ≡ Some h) }
    {
        let mut next = match after {
            None => self.first(h),
            Some(n) => self.succ(n),
        };
        while let Some(m) = next {
            if self.has_name(m, name) {
                return Some(m);
            }
            next = self.succ(m);
        }
        None
    }

    /// A node is once in the sequence of its header, and in no other.
    ghost stands: { (s : Self) (h n : ℕ) → times n (sequence (sequences s) h)
        ≡ (if is_at (home (homes s) n) h then 1 else 0) };

    /// Each node has a key.
    ghost keyed: { (s : Self) → length (keys s) ≡ length (homes s) };
}
