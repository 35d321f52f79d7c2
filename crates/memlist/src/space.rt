//! The free memory of one region: a chain of chunks, each inside the memory that it describes.
ghost use Rattle.std.specs.Prelude.{◌≡◌, ◌+◌, ◌-◌, ◌*◌, ◌%◌, ◌<◌, ◌≤◌, List, ◌∷◌, ◌++◌, IfOk, IfSome, None, map, length, slice_get, sum_by};
ghost use Rattle.memlist.specs.{Blocks.stretch, Chain.IsClimbed, Chain.IsLastBelow, Chain.IsLinked, Chain.IsNextBelow, Chain.IsSpot, Chain.IsWalked, Chain.ends_at, Chain.first_or, Chain.last_or, Chain.upper_next, Chain.upper_size, Choice.IsLowest, Fit.greatest, Joins.Around, Readers.gap_from, declared.gap.Gap.Gap};

use crate::chunk::{Chunk, WORD, cut, link, read, word_place, write};
use crate::gap::Gap;
use crate::region::{MEM_BLOCKSIZE, REACH};
use std::alloc::{AllocError, Global};
use std::marker::Model;

/// The words of a region, where the first chunk among them begins, or 0 if nothing is free, and how many bytes the
/// chunks have, as `mh_Free` does.
#[derive(Drop)]
pub struct FreeSpace {
    base: u32,
    words: Vec<u32>,
    head: u32,
    free: u32,
}

impl Model for FreeSpace {
    ghost use Rattle.std.specs.Prelude.{◌+◌, ◌*◌, length};
    ghost use Rattle.memlist.specs.Chain.{IsChained, IsCount, Space, chain};

    ghost Value = { Space };

    ghost view = { λ s. record {
      base = s.base;
      end = s.base + 4 * length s.words.items;
      gaps = chain (length s.words.items) s.base s.words.items s.head;
    } };

    ghost invariant = { λ s. IsChained s.base s.words.items s.head (chain (length s.words.items) s.base s.words.items s.head)
        × IsCount s.free (chain (length s.words.items) s.base s.words.items s.head) };
}

impl FreeSpace {
    /// That many bytes from an address on, all of them free.
    pub fn new(alloc: Global, base: u32, size: u32) -> Result<FreeSpace, AllocError>
        requires place { base % MEM_BLOCKSIZE ≡ 0 }
        requires low { MEM_BLOCKSIZE ≤ base }
        requires some { 0 < size }
        requires whole { size % MEM_BLOCKSIZE ≡ 0 }
        requires reach { base + size ≤ REACH }
        ensures { IfOk result (λ space. space ≡ record { base = base; end = base + size; gaps = stretch base (base + size) }) }
    {
        let mut words = vec![in alloc; 0; (size / WORD) as usize]?;
        write(&mut words, 0, Chunk { next: 0, size });
        Ok(FreeSpace {
            base,
            words,
            head: base,
            free: size,
        })
    }

    /// Makes all bytes free, which are that many, as `new` did.
    pub fn reset(&mut self, size: u32)
        requires all { self.old.base + size ≡ self.old.end }
        requires some { 0 < size }
        requires whole { size % MEM_BLOCKSIZE ≡ 0 }
        ensures { self.new ≡ record self.old { gaps = stretch self.old.base self.old.end } }
    {
        write(&mut self.words, 0, Chunk { next: 0, size });
        self.head = self.base;
        self.free = size;
    }

    /// The words, the first of which represents the lowest address.
    pub fn words(&self) -> &[u32]
        ensures len { self.now.base + WORD * length result.now ≡ self.now.end }
        ensures linked { IsLinked self.now.base result.now self.now.gaps 0 }
    {
        &self.words
    }

    /// Where the first chunk begins, or 0 if there is none.
    ///
    /// Source: RKM Libraries, Exec Memory Allocation: MemHeader, mh_First.
    pub fn head(&self) -> u32
        ensures { result ≡ first_or 0 self.now.gaps }
    {
        self.head
    }

    /// If the chunk after the one at an address begins, or the first if that is 0; 0 if there is none.
    fn next(&self, before: u32) -> u32
        requires { IsWalked self.now.gaps before }
        ensures is { (walk : IsWalked self.now.gaps before) → result ≡ first_or 0 walk.above }
        ensures none { (walk : IsWalked self.now.gaps before) → result ≡ 0 → None ≡ slice_get walk.above 0 }
    {
        if before == 0 {
            self.head
        } else {
            self.words[word_place(self.base, before)]
        }
    }

    /// The gap after the chunk at an address, or the first if that is 0.
    fn after(&self, before: u32) -> Option<Gap>
        requires { IsWalked self.now.gaps before }
        ensures is { (walk : IsWalked self.now.gaps before) → result ≡ slice_get walk.above 0 }
        ensures order { IfSome result (λ gap. before < gap.address) }
        ensures reach { IfSome result (λ gap. gap.address + gap.size ≤ 2147483648) }
        ensures sum { IfSome result (λ gap. (walk : IsWalked self.now.gaps before) → sum_by (λ gap. gap.size) walk.below + gap.size ≤ 2147483648) }
    {
        let address = self.next(before);
        if address == 0 {
            return None;
        }
        let chunk = read(&self.words, word_place(self.base, address));
        Some(Gap {
            address,
            size: chunk.size,
        })
    }

    /// The chunk before the lowest gap of at least that many bytes, or 0 if that gap is the first.
    ///
    /// Source: autodoc exec.library/Allocate: first fit.
    pub fn lowest_gap(&self, size: u64) -> Option<u32>
        ensures { IsLowest size self.now.gaps result }
    {
        let mut before = 0;
        while let Some(gap) = self.after(before) {
            if size <= u64::from(gap.size) {
                return Some(before);
            }
            before = gap.address;
        }
        None
    }

    /// The lowest gap that begins at an address or above it.
    ///
    /// Source: RKM Libraries, Exec Memory Allocation: MemChunk.
    pub fn gap_from(&self, address: u32) -> Option<Gap>
        ensures { result ≡ gap_from address self.now.gaps }
    {
        let mut before = 0;
        while let Some(gap) = self.after(before) {
            if address <= gap.address {
                return Some(gap);
            }
            before = gap.address;
        }
        None
    }

    /// The chunk after the one at an address, or the first if that is 0, if it begins below another address.
    ///
    /// Source: RKM Libraries, Exec Memory Allocation: MemChunk.
    pub fn next_below(&self, before: u32, address: u32) -> Option<u32>
        requires { IsClimbed address self.now.gaps before }
        ensures { IsNextBelow address self.now.gaps before result }
    {
        match self.after(before) {
            Some(gap) => {
                if gap.address < address {
                    Some(gap.address)
                } else {
                    None
                }
            }
            None => None,
        }
    }

    /// Takes that many bytes off the front of the lowest gap that has them, which is the one after the chunk at an
    /// address, and answers where they begin.
    ///
    /// Source: autodoc exec.library/Allocate.
    pub fn take(&mut self, before: u32, size: u32) -> u32
        requires spot { IsSpot size self.old.gaps before }
        requires some { 0 < size }
        requires whole { size % MEM_BLOCKSIZE ≡ 0 }
        ensures { (spot : IsSpot size self.old.gaps before) → (result ≡ spot.gap.address) × (self.new ≡ record self.old { gaps = spot.below ++ (stretch (spot.gap.address + size) (spot.gap.address + spot.gap.size) ++ spot.above) }) }
    {
        let gap = self.after(before).unwrap();
        let next = self.next(gap.address);
        let rest = cut(&mut self.words, self.base, gap, size, next);
        link(&mut self.head, &mut self.words, self.base, before, rest);
        self.free -= size;
        gap.address
    }

    /// Whether the chunk at an address, if that is not 0, ends at another.
    fn ends_at(&self, before: u32, address: u32) -> bool
        requires { IsWalked self.now.gaps before }
        ensures { (walk : IsWalked self.now.gaps before) → result ≡ ends_at address walk.below }
    {
        let base = self.base;
        if before == 0 {
            return false;
        }
        let chunk = read(&self.words, word_place(base, before));
        u64::from(before) + u64::from(chunk.size) == u64::from(address)
    }

    /// The chunk that a block of that many bytes becomes with the gap that begins at its end, if one does, if the chunk
    /// before it begins at an address.
    fn upper(&self, before: u32, end: u32, size: u32) -> Chunk
        requires walk { IsWalked self.now.gaps before }
        requires high { end ≤ self.now.end }
        requires whole { size ≤ end }
        ensures next { (walk : IsWalked self.now.gaps before) → result.next ≡ upper_next end walk.above }
        ensures size { (walk : IsWalked self.now.gaps before) → result.size ≡ upper_size end size walk.above }
    {
        match self.after(before) {
            Some(gap) => {
                if gap.address == end {
                    Chunk {
                        next: self.next(gap.address),
                        size: size + gap.size,
                    }
                } else {
                    Chunk {
                        next: gap.address,
                        size,
                    }
                }
            }
            None => Chunk { next: 0, size },
        }
    }

    /// Frees a block, which joins the gaps that touch it. The chunk before it begins at `before`, which is 0 if there
    /// is none.
    ///
    /// Source: autodoc exec.library/Deallocate.
    pub fn join(&mut self, before: u32, address: u32, size: u32)
        requires before { IsLastBelow address self.old.gaps before }
        requires around { Around self.old.gaps address size }
        requires low { self.old.base ≤ address }
        requires high { address + size ≤ self.old.end }
        requires place { address % MEM_BLOCKSIZE ≡ 0 }
        requires some { 0 < size }
        requires whole { size % MEM_BLOCKSIZE ≡ 0 }
        ensures { (around : Around self.old.gaps address size) → self.new ≡ record self.old { gaps = around.below ++ (record { address = around.start; size = around.end - around.start } ∷ around.above) } }
    {
        let upper = self.upper(before, address + size, size);
        let free = self.free + size;
        if self.ends_at(before, address) {
            let chunk = Chunk {
                next: upper.next,
                size: address - before + upper.size,
            };
            write(&mut self.words, word_place(self.base, before), chunk);
            self.free = free;
        } else {
            write(&mut self.words, word_place(self.base, address), upper);
            link(&mut self.head, &mut self.words, self.base, before, address);
            self.free = free;
        }
    }

    /// The bytes of all gaps.
    ///
    /// Source: autodoc exec.library/AvailMem.
    pub fn total(&self) -> u32
        ensures { result ≡ sum_by (λ gap. gap.size) self.now.gaps }
    {
        self.free
    }

    /// The size of the greatest gap, or 0 if there is none.
    ///
    /// Source: autodoc exec.library/AvailMem: MEMF_LARGEST.
    pub fn largest(&self) -> u32
        ensures { result ≡ greatest (map (λ (gap : Gap). gap.size) self.now.gaps) }
    {
        let mut before = 0;
        let mut largest = 0;
        while let Some(gap) = self.after(before) {
            largest = gap.size.max(largest);
            before = gap.address;
        }
        largest
    }
}
