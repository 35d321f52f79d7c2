//! One region with its blocks and its gaps, as Exec keeps it after a MemHeader.
//!
//! The blocks are in a table with a slot for each unit of 8 bytes, so that a look-up is an index; the gaps are chunks
//! in the region's own words.
ghost use Rattle.std.specs.Prelude.{◌≡◌, ◌-◌, ◌*◌, ◌/◌, ◌%◌, ◌<◌, ◌≤◌, ◌++◌, drop, replicate, [], IsTrue, IsSome, IfOk, IfSome, int_lt, length, map, sum_by};
ghost use Rattle.memlist.specs.{Regions.is_aligned, Regions.is_in_reach, Blocks.block_at, Blocks.freed, Blocks.is_in, Blocks.with_block, Fit.greatest, Fit.is_suitable, Fit.lowest_gap, Chain.IsLinked, Chain.IsSpot, Chain.first_or, Areas.Area, Areas.IsLaidArea, Areas.area_gaps, Areas.empty_slot, Choice.IsLowest, Readers.gap_from, declared.gap.Gap.Gap};

use crate::chunk::WORD;
use crate::descent::chunk_below;
use crate::gap::Gap;
use crate::region::{MEM_BLOCKSIZE, Region};
use crate::slot::Slot;
use crate::space::FreeSpace;
use std::alloc::{AllocError, Global};
use std::marker::Model;

/// A region, what is allocated in it and what is free.
#[derive(Drop)]
pub struct MemHeader {
    region: Region,
    slots: Vec<Slot>,
    space: FreeSpace,
    // No block began at the unit of this place, or of a later one, since the region was made or reset.
    unused: usize,
}

impl Model for MemHeader {
    ghost use Rattle.memlist.specs.Areas.{Area, IsHeader, IsUnused, entries};

    ghost Value = { Area };

    ghost view = { λ h. record { region = h.region; blocks = entries h.region.base h.slots.items } };

    ghost invariant = { λ h. IsHeader h.region h.slots.items h.space × IsUnused h.unused h.slots.items };
}

impl MemHeader {
    /// A region in which nothing is allocated, with a slot for each unit and a word for each 4 bytes.
    pub fn new(alloc: Global, region: Region) -> Result<MemHeader, AllocError>
        requires aligned { IsTrue (is_aligned region) }
        requires in_reach { IsTrue (is_in_reach region) }
        ensures value { IfOk result (λ header. header ≡ record { region = region; blocks = [] }) }
        ensures laid { IfOk result IsLaidArea }
    {
        let units = (region.size / MEM_BLOCKSIZE) as usize;
        let slots = vec![in alloc; Slot::EMPTY; units]?;
        let space = FreeSpace::new(alloc, region.base, region.size)?;
        Ok(MemHeader {
            region,
            slots,
            space,
            unused: 0,
        })
    }

    /// Frees every block. It looks at those units alone at which a block may have begun.
    ///
    /// Source: project rule.
    pub fn reset(&mut self)
        ensures value { self.new ≡ record self.old { blocks = [] } }
        ensures laid { IsLaidArea self.new }
    {
        let unused = self.unused;
        let size = self.region.size;
        empty(&mut self.slots, unused);
        self.unused = 0;
        self.space.reset(size);
    }

    /// The region that it manages.
    pub fn region(&self) -> Region
        ensures { result ≡ self.now.region }
    {
        self.region
    }

    /// Whether the region has all of bits 0 to 2 that are asked for.
    ///
    /// Source: autodoc exec.library/AllocMem: the attributes.
    pub fn is_suitable(&self, reqs: u32) -> bool
        ensures { result ≡ is_suitable reqs self.now.region }
    {
        self.region.attrs & (reqs & REQUIREMENTS) == reqs & REQUIREMENTS
    }

    /// Whether the region's priority is below that of another.
    ///
    /// Source: RKM Libraries, Exec Memory Allocation: priorities of regions.
    pub fn is_below(&self, other: &MemHeader) -> bool
        ensures { result ≡ int_lt self.now.region.pri other.now.region.pri }
    {
        self.region.pri < other.region.pri
    }

    /// The words of the region.
    pub fn words(&self) -> &[u32]
        ensures len { WORD * length result.now ≡ self.now.region.size }
        ensures linked { IsLinked self.now.region.base result.now (area_gaps self.now) 0 }
    {
        self.space.words()
    }

    /// Where the first chunk begins, or 0 if nothing is free.
    ///
    /// Source: RKM Libraries, Exec Memory Allocation: MemHeader, mh_First.
    pub fn head(&self) -> u32
        ensures { result ≡ first_or 0 (area_gaps self.now) }
    {
        self.space.head()
    }

    /// Whether an address lies in the region.
    pub fn holds(&self, address: u32) -> bool
        ensures { result ≡ is_in self.now.region address }
    {
        self.region.base <= address && address < self.region.base + self.region.size
    }

    /// The size and the tag of the block that begins at an address of the region.
    pub fn block_at(&self, address: u32) -> Option<(u32, u32)>
        requires { IsTrue (is_in self.now.region address) }
        ensures { result ≡ block_at address self.now.blocks }
    {
        let place = place_of(self.region, address);
        if address % MEM_BLOCKSIZE == 0 {
            self.slots[place].block()
        } else {
            None
        }
    }

    /// The chunk before the lowest gap of at least that many bytes, or 0 if that gap is the first.
    ///
    /// Source: autodoc exec.library/Allocate: first fit.
    pub fn lowest_gap(&self, size: u64) -> Option<u32>
        ensures { IsLowest size (area_gaps self.now) result }
    {
        self.space.lowest_gap(size)
    }

    /// The lowest gap that begins at an address or above it.
    ///
    /// Source: RKM Libraries, Exec Memory Allocation: MemChunk.
    pub fn gap_from(&self, address: u32) -> Option<Gap>
        ensures { result ≡ gap_from address (area_gaps self.now) }
    {
        self.space.gap_from(address)
    }

    /// Puts a block at the front of the lowest gap that has room for it, which is the one after the chunk at an
    /// address, or the first if that is 0; and answers the block's address.
    ///
    /// Source: autodoc exec.library/Allocate.
    pub fn take(&mut self, before: u32, size: u64, tag: u32) -> u32
        requires some { 0 < size }
        requires whole { size % MEM_BLOCKSIZE ≡ 0 }
        requires fits { IsSpot size (area_gaps self.old) before }
        ensures front { IfSome (lowest_gap size (area_gaps self.old)) (λ gap. result ≡ gap.address) }
        ensures taken { self.new ≡ record self.old { blocks = with_block result size tag self.old.blocks } }
        ensures laid { IsLaidArea self.new }
    {
        let region = self.region;
        let size = size as u32;
        let address = self.space.take(before, size);
        let place = place_of(region, address);
        self.slots[place] = Slot { size, tag };
        let unused = self.unused.max(place + 1);
        self.unused = unused;
        address
    }

    /// Frees the block that begins at an address.
    ///
    /// Source: autodoc exec.library/Deallocate.
    pub fn free(&mut self, address: u32)
        requires { IsSome (block_at address self.old.blocks) }
        ensures freed { self.new ≡ record self.old { blocks = freed address self.old.blocks } }
        ensures laid { IsLaidArea self.new }
    {
        let place = place_of(self.region, address);
        let size = self.slots[place].size;
        let before = chunk_below(self.region.base, &self.slots, &self.space, place, address);
        self.slots[place] = Slot::EMPTY;
        self.space.join(before, address, size);
    }

    /// The bytes that are free.
    ///
    /// Source: autodoc exec.library/AvailMem.
    pub fn free_size(&self) -> u32
        ensures value { result ≡ sum_by (λ (gap : Gap). gap.size) (area_gaps self.now) }
        ensures bound { result ≤ self.now.region.size }
    {
        self.space.total()
    }

    /// The size of the greatest gap, or 0 if there is none.
    ///
    /// Source: autodoc exec.library/AvailMem: MEMF_LARGEST.
    pub fn largest_gap(&self) -> u32
        ensures { result ≡ greatest (map (λ (gap : Gap). gap.size) (area_gaps self.now)) }
    {
        self.space.largest()
    }
}

/// The place in a region's table of the unit at an address.
fn place_of(region: Region, address: u32) -> usize
    requires { region.base ≤ address }
    ensures { result ≡ (address - region.base) / MEM_BLOCKSIZE }
{
    ((address - region.base) / MEM_BLOCKSIZE) as usize
}

/// Empties the first slots of a table, that many.
fn empty(slots: &mut Vec<Slot>, count: usize)
    requires { count ≤ length slots.old.items }
    ensures { slots.new.items ≡ replicate count empty_slot ++ drop count slots.old.items }
{
    for place in 0..count {
        slots[place] = Slot::EMPTY;
    }
}

/// The bits of a requirement that name attributes of regions.
const REQUIREMENTS: u32 = 7;
