//! A pool: that many numbers, each of which holds one item or is free. A list space has its headers and nodes by
//! number, and gives out none of them: a pool does.
//!
//! The numbers are an project rule: Exec knows its objects by address alone. The free ones are in a stack with room
//! for all, so that each call but `new` and the resets takes constant time, and none but `new` memory.
ghost use Rattle.std.specs.Prelude.{◌≡◌, ℕ, ◌<◌, ◌≤◌, ◌++◌, length, drop, replicate, vec_capacity, Some, None, IfOk, IfSome, IsSome};
ghost use Rattle.std.specs.List.{range_with_len};
ghost use Rattle.execlist.specs.Pool.{IsStocked, all_free, free_below, given, next_number, released, slot, written};

use std::alloc::{AllocError, Global};
use std::marker::Model;

/// A pool: for each number its item, none if the number is free.
#[derive(Drop)]
pub struct Pool<T: Copy> {
    slots: Vec<Option<T>>,
    free: Vec<usize>,
    // No number in the lowest places of the stack, that many, was given since the pool was made or reset.
    low: usize,
}

impl<T: Copy> Model for Pool<T> {
    ghost use Rattle.std.specs.Prelude.{vec_capacity};
    ghost use Rattle.execlist.specs.Pool.{IsPool, IsFresh, Pooled};

    ghost Value = { Pooled T };

    ghost view = { λ p. record { slots = p.slots.items; free = p.free.items } };

    ghost invariant = { λ p. IsPool p.slots.items p.free.items (vec_capacity p.free) × IsFresh p.low p.free.items };
}

impl<T: Copy> Pool<T> {
    /// A pool of that many numbers, all of them free. An error means that memory is refused.
    pub fn new(alloc: Global, count: usize) -> Result<Self, AllocError>
        ensures { IfOk result (λ pool. pool ≡ all_free count) }
    {
        let slots = vec![in alloc; None; count]?;
        let free = (0..count).collect(alloc)?;
        Ok(Pool {
            slots,
            free,
            low: count,
        })
    }

    /// The number that is given next, none if every number holds an item.
    pub fn next(&self) -> Option<usize>
        ensures value { result ≡ next_number self.now }
        ensures free { IfSome result (λ n. slot self.now.slots n ≡ None) }
        ensures known { IfSome result (λ n. n < length self.now.slots) }
    {
        self.free.last().copied()
    }

    /// Puts an item at the next number, which there is.
    pub fn give(&mut self, item: T)
        requires { IsSome (next_number self.old) }
        ensures { self.new ≡ given item self.old }
    {
        let n = self.free.pop().unwrap();
        self.slots[n] = Some(item);
        let low = self.low.min(self.free.len());
        self.low = low;
    }

    /// Makes a number that holds an item free again.
    pub fn release(&mut self, n: usize)
        requires { IsSome (slot self.old.slots n) }
        ensures { self.new ≡ released n self.old }
    {
        self.slots[n] = None;
        self.free.push(n).unwrap();
    }

    /// The item of a number, none if the number is free or there is no such number.
    pub fn get(&self, n: usize) -> Option<T>
        ensures { result ≡ slot self.now.slots n }
    {
        match self.slots.get(n) {
            Some(item) => *item,
            None => None,
        }
    }

    /// Puts another item in place of that of a number.
    pub fn set(&mut self, n: usize, other: T)
        requires { IsSome (slot self.old.slots n) }
        ensures { self.new ≡ written n other self.old }
    {
        self.slots[n] = Some(other);
    }

    /// Makes all numbers free, as `new` made them. It looks at those alone that may have been given since.
    pub fn reset(&mut self)
        ensures { self.new ≡ all_free (length self.old.slots) }
    {
        let count = self.slots.len();
        self.reset_below(count);
    }

    /// Makes the numbers below `count` free, in the order in which `new` made them; each number from there on holds an
    /// item, which stays. It looks at those alone that may have been given since the pool was made or reset.
    pub fn reset_below(&mut self, count: usize)
        requires known { count ≤ length self.old.slots }
        requires held { (n : ℕ) → count ≤ n → n < length self.old.slots → IsSome (slot self.old.slots n) }
        ensures { self.new ≡ free_below count self.old }
    {
        let low = self.low.min(count);
        empty(&mut self.slots, low, count);
        self.free.truncate(low);
        refill(&mut self.free, count);
        self.low = count;
    }

    /// Does nothing: its clause is what always holds of the number that is next.
    pub fn facts(&self)
        ensures { IsStocked self.now }
    {
        let _ = &self.free;
    }
}

/// Leaves the numbers from `low` on and below `count` free; those below `low` are free already.
fn empty<T: Copy>(slots: &mut Vec<Option<T>>, low: usize, count: usize)
    requires order { low ≤ count }
    requires known { count ≤ length slots.old.items }
    requires free { slots.old.items ≡ replicate low None ++ drop low slots.old.items }
    ensures { slots.new.items ≡ replicate count None ++ drop count slots.old.items }
{
    for n in low..count {
        slots[n] = None;
    }
}

/// Puts the numbers from those in the stack on and below `count` on it.
fn refill(free: &mut Vec<usize>, count: usize)
    requires order { length free.old.items ≤ count }
    requires room { count ≤ vec_capacity free.old }
    requires rising { free.old.items ≡ range_with_len 0 (length free.old.items) }
    ensures numbers { free.new.items ≡ range_with_len 0 count }
    ensures capacity { vec_capacity free.old ≤ vec_capacity free.new }
{
    for n in free.len()..count {
        free.push(n).unwrap();
    }
}
