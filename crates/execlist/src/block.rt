//! One raw block of cells, linked by pointers: the only part of the crate that touches a pointer. Its
//! clauses speak of the cells by their numbers, from 0. No pointer is made from a number or becomes one.
ghost use Rattle.std.specs.Prelude.{◌≡◌, ℕ, ◌*◌, ◌^◌, ◌<◌, ◌≤◌, List, [], ◌∷◌, ◌++◌, ◌+◌, length, IfSome};
ghost use Rattle.execlist.specs.{Links.Link, Links.link_at, Links.link, Links.linked, Links.unlinked, Ownership.block_own, Ownership.block_lent};
ghost use Rattle.std.specs.Mem.Slots.{slots_ptr, slots_len, lease_ptr, lease_len, lease_heap};

use core::slots::{self, Lease, Slots};
use std::alloc::Global;
use std::marker::Model;
use std::ptr::null_mut;

/// A cell of 24 bytes: the pointers to the next cell and to the one before, its own number, and its header.
/// A cell that is in no list may point anywhere in the block.
///
/// RKM Libraries, Exec Lists and Queues: `ln_Succ` and `ln_Pred` of a node, `lh_Head` and `lh_TailPred` of a header.
#[derive(Clone, Copy)]
pub struct Cell {
    next: *mut Cell,
    prev: *mut Cell,
    number: u32,
    /// 0 for none, and one more than the header's number else.
    home: u32,
}

impl Cell {
    /// A cell that points nowhere.
    fn unlinked() -> Cell {
        Cell {
            next: null_mut(),
            prev: null_mut(),
            number: 0,
            home: 0,
        }
    }
}

/// A block with room for `capacity` cells, of which the first `length links` are there.
pub struct Block {
    base: *mut Cell,
    ghost capacity: { ℕ },
    ghost links: { List Link },
    ghost within: { length links ≤ capacity },
}

impl Model for Block {
    ghost also_owns = { λ s. block_own s.base s.capacity s.links };

    ghost also_shares = { λ s _ κ. block_lent s.base s.capacity s.links κ };
}

impl Block {
    /// The block in a row of places: its memory, of which no cell is there yet.
    fn of(places: Slots<Cell>) -> Block
        requires { slots_len places < 2 ^ 32 }
        ensures { (result.base ≡ slots_ptr places) × (result.capacity ≡ slots_len places) × (result.links ≡ []) }
    {
        let parts = unsafe { places.into_raw_parts() };
        Block { base: parts.0 }
    }

    /// The row of places again, whatever lies in them.
    fn into_places(self, capacity: usize) -> Slots<Cell>
        requires { capacity ≡ self.capacity }
        ensures { (slots_ptr result ≡ self.base) × (slots_len result ≡ capacity) }
    {
        let Block { base } = self;
        unsafe { Slots::from_raw_parts(base, capacity) }
    }
}

/// Takes a block with room for `capacity` cells, none of which is there yet, and the lease on its memory, or answers
/// none if no memory is left. Neither can be dropped: only `free` takes them.
pub fn reserve(alloc: &Global, capacity: usize) -> Option<(Block, Lease<Cell, Global>)>
    requires { capacity < 2 ^ 32 }
    ensures { IfSome result (λ r. (r.0.capacity ≡ capacity) × (r.0.links ≡ []) × (lease_heap r.1 ≡ alloc.now)
        × (lease_ptr r.1 ≡ r.0.base) × (lease_len r.1 ≡ capacity)) }
{
    // The kit makes a lease for as many places as a slice has: these cells say how many, and go again.
    let like = Vec::from_elem(*alloc, Cell::unlinked(), capacity).ok()?;
    let (places, lease) = unsafe { slots::reserve(alloc, like.as_slice()) }.ok()?;
    Some((Block::of(places), lease))
}

impl Block {
    /// Gives the block's memory back to the allocator that it was taken from. Both the block and its lease are used up.
    pub fn free(self, lease: Lease<Cell, Global>, alloc: &Global, capacity: usize)
        requires { (lease_heap lease ≡ alloc.now) × (lease_ptr lease ≡ self.base) × (lease_len lease ≡ self.capacity)
            × (capacity ≡ self.capacity) }
    {
        slots::release(alloc, self.into_places(capacity), lease);
    }

    /// Writes the next cell, of number `cell`, with the cells `next` and `prev` on its sides. `home` is 0 for
    /// none, and one more than the header's number else; `number` is `cell` in the cell's own width.
    pub fn push(&mut self, cell: usize, number: u32, next: usize, prev: usize, home: u32)
        requires { (cell ≡ length self.old.links) × (number ≡ length self.old.links)
            × (cell < self.old.capacity) × (next < self.old.capacity) × (prev < self.old.capacity) }
        ensures links { self.new.links ≡ self.old.links ++ link next prev home ∷ [] }
        ensures block { (self.new.base ≡ self.old.base) × (self.new.capacity ≡ self.old.capacity) }
    {
        unsafe {
            self.base.add(cell).write(Cell {
                next: self.base.add(next),
                prev: self.base.add(prev),
                number,
                home,
            });
        }
    }

    /// Answers 0 for a cell that has no header, and one more than the header's number else.
    pub fn home_id(&self, i: usize) -> u32
        requires { i < length self.now.links }
        ensures { result ≡ (link_at self.now.links i).home }
    {
        unsafe { (*self.base.add(i)).home }
    }

    /// Answers the number of the next cell.
    ///
    /// Source: RKM Libraries, Exec Lists and Queues: `ln_Succ`.
    pub fn next_id(&self, i: usize) -> u32
        requires { (i < length self.now.links) × ((link_at self.now.links i).next < length self.now.links) }
        ensures { result ≡ (link_at self.now.links i).next }
    {
        unsafe {
            let next = (*self.base.add(i)).next;
            (*next).number
        }
    }

    /// Answers the number of the cell before.
    ///
    /// Source: RKM Libraries, Exec Lists and Queues: `ln_Pred`.
    pub fn prev_id(&self, i: usize) -> u32
        requires { (i < length self.now.links) × ((link_at self.now.links i).prev < length self.now.links) }
        ensures { result ≡ (link_at self.now.links i).prev }
    {
        unsafe {
            let prev = (*self.base.add(i)).prev;
            (*prev).number
        }
    }

    /// Joins the neighbours of a cell, which has no header from then on. Autodoc exec.library/Remove.
    pub fn unlink(&mut self, c: usize)
        requires { (c < length self.old.links) × ((link_at self.old.links c).next < length self.old.links)
            × ((link_at self.old.links c).prev < length self.old.links) }
        ensures links { self.new.links ≡ unlinked c self.old.links }
        ensures block { (self.new.base ≡ self.old.base) × (self.new.capacity ≡ self.old.capacity) }
    {
        unsafe {
            let cell = self.base.add(c);
            let next = (*cell).next;
            let prev = (*cell).prev;
            (*prev).next = next;
            (*next).prev = prev;
            (*cell).home = 0;
        }
    }

    /// Puts the cell `c` between `a` and `b`, with the header of which `h` is one more than the number.
    /// Autodoc exec.library/Insert.
    pub fn link_between(&mut self, a: usize, c: usize, b: usize, h: u32)
        requires { (a < length self.old.links) × (c < length self.old.links) × (b < length self.old.links) }
        ensures links { self.new.links ≡ linked a c b h self.old.links }
        ensures block { (self.new.base ≡ self.old.base) × (self.new.capacity ≡ self.old.capacity) }
    {
        unsafe {
            let first = self.base.add(a);
            let cell = self.base.add(c);
            let last = self.base.add(b);
            (*cell).next = last;
            (*cell).prev = first;
            (*cell).home = h;
            (*first).next = cell;
            (*last).prev = cell;
        }
    }
}
