//! The memory list: what Exec's MemList is for AllocMem, FreeMem and AvailMem.
ghost use Rattle.std.specs.Prelude.{◌≡◌, ◌+◌, ◌*◌, ◌^◌, ◌<◌, ◌≤◌, not, ◌&&◌, IsTrue, IsSome, IsSomeAnd, IfOk, IfErr, IfSome, OnOk, OnErr, None, Some, is_ok, is_some, int_lt, unwrap_or, length, drop, map, slice_get};
ghost use Rattle.std.specs.List.{list_all};
ghost use Rattle.memlist.specs.{Regions.is_aligned, Regions.is_in_reach, Regions.regions_fault, Blocks.block_at, Blocks.gaps, Chain.first_or, Fit.asks, Fit.avail, Fit.fit, Fit.round, Memory.IsWellFormed, Memory.Memory, Memory.allocated, Memory.can_free, Memory.names, Memory.untouched, Memory.without_block, Areas.Area, Areas.IsFreeChain, Areas.empty_area, Areas.regions_of, Readers.gap_from, Readers.gaps_in, Choice.IsHome, Choice.IsOffer, Choice.free_of, Choice.installed_of, Choice.is_outranked, Choice.largest_of};

use crate::gap::Gap;
use crate::header::MemHeader;
use crate::region::{MemFault, Region, check_regions};
use crate::requirement::{MEMB_LARGEST, MEMB_TOTAL, MEMF_LARGEST, MEMF_TOTAL};
use std::alloc::{AllocError, Global};
use std::marker::Model;
use thiserror::Error;

/// The regions of a machine, the blocks that are allocated in them and the gaps that are left.
///
/// No method takes memory: `new` makes room for each block and each gap that the regions can ever have.
#[derive(Drop)]
pub struct MemList {
    headers: Vec<MemHeader>,
}

impl Model for MemList {
    ghost use Rattle.memlist.specs.{Memory.Memory, Areas.AreMemory, Areas.memory_of};

    ghost Value = { Memory };

    ghost view = { λ m. memory_of m.headers.items };

    ghost invariant = { λ m. AreMemory m.headers.items };
}

/// Why memory is not freed: no plain block begins at the address, or the size does not name it.
#[derive(Clone, Copy, Debug, PartialEq, Eq, Error)]
#[error("no plain block of that size begins there")]
pub struct NotABlock;

/// Where a block may be put: the place of a header, and in it the chunk before the gap, or 0 if the gap is the first.
#[derive(Clone, Copy)]
pub struct Offer {
    pub header: usize,
    pub before: u32,
}

impl MemList {
    /// The memory of a machine with these regions, in the order of its file, which may have `total` bytes in all, with
    /// nothing allocated.
    ///
    /// The fault is that of `check_regions`; if that has none, OutOfMemory is answered if there is no memory for the
    /// list itself.
    pub fn new(alloc: Global, regions: &[Region], total: u32) -> Result<MemList, MemFault>
        ensures value { IfOk result (λ memory. memory ≡ untouched regions.now) }
        ensures sound { OnOk result (regions_fault total regions.now ≡ None) }
        ensures fault { IfErr result (λ fault. fault ≡ unwrap_or (regions_fault total regions.now) MemFault.OutOfMemory) }
    {
        check_regions(regions, total)?;
        match headers(alloc, regions) {
            Ok(headers) => Ok(MemList { headers }),
            Err(_) => Err(MemFault::OutOfMemory),
        }
    }

    /// Frees every block, as `new` made the memory. It looks at those units alone at which a block may have begun.
    ///
    /// Source: project rule.
    pub fn reset(&mut self)
        ensures { self.new ≡ untouched self.old.regions }
    {
        reset_all(&mut self.headers);
    }

    /// The law of every memory list: its blocks lie in its regions, in order and beside one another. It costs nothing.
    pub fn is_well_formed(&self)
        ensures { IsWellFormed self.now.regions self.now.blocks }
    {
        let _ = &self.headers;
    }

    /// Allocates a block of a size in bytes, which is rounded up to a multiple of 8, and answers its address.
    ///
    /// Of `reqs` only bits 0 to 2 count: the block lies in a region that has each of them. Among these the region of
    /// highest priority that has a large enough gap is taken, the earliest of equals, and in it the front of the lowest
    /// such gap. None is answered, and nothing changes, if there is no such gap or the size is 0. A `tag` of 0 makes a
    /// plain block; any other names what owns the block.
    ///
    /// Source: autodoc exec.library/AllocMem; size 0 is a project rule.
    pub fn alloc_mem(&mut self, size: u32, reqs: u32, tag: u32) -> Option<u32>
        ensures address { result ≡ fit self.old.regions self.old.blocks size reqs }
        ensures allocated { self.new ≡ allocated size tag result self.old }
    {
        if size == 0 {
            return None;
        }
        let size = round(size);
        match choose(&self.headers, size, reqs) {
            Some(offer) => Some(self.headers[offer.header].take(offer.before, size, tag)),
            None => None,
        }
    }

    /// Whether `alloc_mem` would find a gap for a block of that size, and changes nothing. Never for size 0.
    ///
    /// Source: autodoc exec.library/AllocMem; to ask beforehand is a project rule.
    pub fn fits(&self, size: u32, reqs: u32) -> bool
        ensures { result ≡ is_some (fit self.now.regions self.now.blocks size reqs) }
    {
        if size == 0 {
            return false;
        }
        choose(&self.headers, round(size), reqs).is_some()
    }

    /// Frees a plain block: its tag is 0, and the size is not 0 and rounds up to the block's size. For anything else
    /// the answer is `NotABlock` and nothing changes.
    ///
    /// Source: autodoc exec.library/FreeMem; the refusals are project rule.
    pub fn free_mem(&mut self, address: u32, size: u32) -> Result<(), NotABlock>
        ensures variant { is_ok result ≡ can_free address size self.old.blocks }
        ensures ok { OnOk result (self.new ≡ without_block address self.old) }
        ensures err { OnErr result (self.new ≡ self.old) }
    {
        if !can_free(self.block_at(address), size) {
            return Err(NotABlock);
        }
        self.free_block(address);
        Ok(())
    }

    /// Frees the block that begins at an address, whatever its tag.
    ///
    /// Source: autodoc exec.library/FreeMem; the tag is a project rule.
    pub fn free_block(&mut self, address: u32)
        requires { IsSome (block_at address self.old.blocks) }
        ensures { self.new ≡ without_block address self.old }
    {
        let place = home(&self.headers, address).unwrap();
        self.headers[place].free(address);
    }

    /// The size, as it was rounded, and the tag of the block that begins at an address.
    pub fn block_at(&self, address: u32) -> Option<(u32, u32)>
        ensures { result ≡ block_at address self.now.blocks }
    {
        match home(&self.headers, address) {
            Some(place) => self.headers[place].block_at(address),
            None => None,
        }
    }

    /// A region, named by its place in the machine's file; none past the last.
    ///
    /// Source: RKM Libraries, Exec Memory Allocation: MemHeader.
    pub fn region(&self, k: usize) -> Option<Region>
        ensures { result ≡ slice_get self.now.regions k }
    {
        match self.headers.get(k) {
            Some(header) => Some(header.region()),
            None => None,
        }
    }

    /// The lowest gap of a region that begins at an address or above it; none if there is none, and past the last
    /// region. The region is named by its place in the machine's file.
    ///
    /// Source: RKM Libraries, Exec Memory Allocation: MemChunk.
    pub fn gap_from(&self, k: usize, address: u32) -> Option<Gap>
        ensures { result ≡ gap_from address (gaps_in (slice_get self.now.regions k) self.now.blocks) }
    {
        match self.headers.get(k) {
            Some(header) => header.gap_from(address),
            None => None,
        }
    }

    /// The words of a region, named by its place in the machine's file: word i represents the region's base plus 4
    /// times i. The first two words of each free chunk are the address of the next chunk, or 0 at the end, and its size
    /// in bytes. Read from `head` on, the chain is exactly the region's gaps, in order of address, and no two of them
    /// touch. It takes no memory.
    ///
    /// Source: RKM Libraries, Exec Memory Allocation (MemChunk); the call is a project rule.
    pub fn words(&self, k: usize) -> &[u32]
        requires { k < length self.now.regions }
        ensures { IfSome (slice_get self.now.regions k) (λ region. IsFreeChain region result.now (gaps region self.now.blocks)) }
    {
        self.headers[k].words()
    }

    /// Where the first free chunk of a region begins, or 0 if nothing of it is free. The region is named by its place
    /// in the machine's file. It takes no memory.
    ///
    /// Source: RKM Libraries, Exec Memory Allocation (MemHeader, mh_First); the call is a project rule.
    pub fn head(&self, k: usize) -> u32
        requires { k < length self.now.regions }
        ensures { IfSome (slice_get self.now.regions k) (λ region. result ≡ first_or 0 (gaps region self.now.blocks)) }
    {
        self.headers[k].head()
    }

    /// The bytes that are free in the regions that have each of bits 0 to 2 that is asked for; with bit 17
    /// (MEMF_LARGEST) the size of their greatest gap, with bit 19 (MEMF_TOTAL) their installed size. No other bit
    /// counts.
    ///
    /// Source: autodoc exec.library/AvailMem.
    pub fn avail(&self, reqs: u32) -> u32
        requires { IsTrue (not (asks MEMB_LARGEST reqs && asks MEMB_TOTAL reqs)) }
        ensures { result ≡ avail self.now.regions self.now.blocks reqs }
    {
        if reqs & MEMF_LARGEST != 0 {
            largest_of(&self.headers, reqs)
        } else if reqs & MEMF_TOTAL != 0 {
            installed_of(&self.headers, reqs)
        } else {
            free_of(&self.headers, reqs)
        }
    }
}

/// A header for each region.
fn headers(alloc: Global, regions: &[Region]) -> Result<Vec<MemHeader>, AllocError>
    requires aligned { IsTrue (list_all is_aligned regions.now) }
    requires in_reach { IsTrue (list_all is_in_reach regions.now) }
    ensures { IfOk result (λ headers. headers.items ≡ map empty_area regions.now) }
{
    let mut headers = Vec::with_capacity(alloc, regions.len())?;
    for region in regions {
        headers.push(MemHeader::new(alloc, *region)?)?;
    }
    Ok(headers)
}

/// Frees every block of each header.
fn reset_all(headers: &mut Vec<MemHeader>)
    ensures { headers.new.items ≡ map empty_area (regions_of headers.old.items) }
{
    for place in 0..headers.len() {
        headers[place].reset();
    }
}

/// The least multiple of 8 that is at least a size. It may be one more than a u32 holds.
fn round(size: u32) -> u64
    ensures { result ≡ round size }
{
    (u64::from(size) + 7) / 8 * 8
}

/// Whether a size names a plain block.
fn can_free(block: Option<(u32, u32)>, size: u32) -> bool
    ensures { result ≡ names size block }
{
    match block {
        Some((block_size, tag)) => tag == 0 && 0 < size && round(size) == u64::from(block_size),
        None => false,
    }
}

/// The place of the header in whose region an address lies.
fn home(headers: &[MemHeader], address: u32) -> Option<usize>
    ensures { IsHome address headers.now result }
{
    for (place, header) in headers.iter().enumerate() {
        if header.holds(address) {
            return Some(place);
        }
    }
    None
}

/// The chosen region among those with a large enough gap, and its lowest such gap. Headers are looked at from the last
/// to the first, so that the earliest of equals is kept.
fn choose(headers: &[MemHeader], size: u64, reqs: u32) -> Option<Offer>
    ensures { IsOffer headers.now size reqs headers.now result }
{
    let mut offer = None;
    for place in (0..headers.len()).rev() {
        offer = better(headers, place, size, reqs, offer);
    }
    offer
}

/// What is chosen once the header at a place is looked at too.
fn better(
    headers: &[MemHeader],
    place: usize,
    size: u64,
    reqs: u32,
    later: Option<Offer>,
) -> Option<Offer>
    requires place { place < length headers.now }
    requires later { IsOffer headers.now size reqs (drop (place + 1) headers.now) later }
    ensures { IsOffer headers.now size reqs (drop place headers.now) result }
{
    let header = &headers[place];
    if !header.is_suitable(reqs) {
        return later;
    }
    if is_outranked(headers, place, later) {
        return later;
    }
    match header.lowest_gap(size) {
        Some(before) => Some(Offer {
            header: place,
            before,
        }),
        None => later,
    }
}

/// Whether an offer is of a region of greater priority than the header at a place.
fn is_outranked(headers: &[MemHeader], place: usize, offer: Option<Offer>) -> bool
    requires place { place < length headers.now }
    requires offer { IfSome offer (λ offer. offer.header < length headers.now) }
    ensures { result ≡ is_outranked headers.now place offer }
{
    match offer {
        Some(offer) => headers[place].is_below(&headers[offer.header]),
        None => false,
    }
}

/// The bytes that are free in the suitable regions.
fn free_of(headers: &[MemHeader], reqs: u32) -> u32
    requires { free_of reqs headers.now < 2 ^ 32 }
    ensures { result ≡ free_of reqs headers.now }
{
    let mut total = 0;
    for header in headers {
        if header.is_suitable(reqs) {
            total += header.free_size();
        }
    }
    total
}

/// The installed size of the suitable regions.
fn installed_of(headers: &[MemHeader], reqs: u32) -> u32
    requires { installed_of reqs headers.now < 2 ^ 32 }
    ensures { result ≡ installed_of reqs headers.now }
{
    let mut total = 0;
    for header in headers {
        if header.is_suitable(reqs) {
            total += header.region().size;
        }
    }
    total
}

/// The size of the greatest gap of the suitable regions, or 0 if there is none.
fn largest_of(headers: &[MemHeader], reqs: u32) -> u32
    ensures { result ≡ largest_of reqs headers.now }
{
    let mut largest = 0;
    for header in headers {
        if header.is_suitable(reqs) {
            largest = header.largest_gap().max(largest);
        }
    }
    largest
}
