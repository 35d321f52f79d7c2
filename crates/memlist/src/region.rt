//! The regions of a machine, and the check that refuses those that it may not have.
ghost use Rattle.std.specs.Prelude.{◌≡◌, ◌≤◌, IsTrue, None, Some, MatchResult, length};
ghost use Rattle.std.specs.List.{list_all, list_any};
ghost use Rattle.memlist.specs.Regions.{are_apart, are_small, fault_number, is_aligned, is_in_reach, overlaps, regions_fault, total_size};

use thiserror::Error;

/// Regions that a machine may have.
const REGION_LIMIT: usize = 8;

/// The address that no region goes past.
pub const REACH: u64 = 2_147_483_648;

/// The lowest address that a region may have.
const LOWEST_BASE: u32 = 4096;

/// The size in bytes of a unit of memory, of which addresses and sizes are multiples (exec/memory.h).
pub const MEM_BLOCKSIZE: u32 = 8;

/// A stretch of the machine's memory, as a MemHeader describes it.
#[derive(Clone, Copy, Debug, PartialEq, Eq)]
pub struct Region {
    /// The address of its first byte.
    pub base: u32,
    /// Its size in bytes.
    pub size: u32,
    /// Its attributes. Bits 0 to 2 may be asked for: MEMF_PUBLIC, MEMF_CHIP and MEMF_FAST.
    pub attrs: u32,
    /// Its priority: AllocMem tries greater ones first.
    pub pri: i8,
}

/// Why regions are refused.
#[derive(Clone, Copy, Debug, PartialEq, Eq, Error)]
pub enum MemFault {
    /// A base or a size is not a multiple of 8, a size is 0, or a base is below 4096.
    #[error("a region is misaligned")]
    Misaligned = 1,
    /// Two regions have a byte in common.
    #[error("two regions overlap")]
    Overlap = 2,
    /// There are more than 8 regions, more bytes than the total in all, or a region that ends past 2,147,483,648.
    #[error("the regions are too large")]
    TooLarge = 3,
    /// There was no memory for the list itself. Only `MemList::new` returns it.
    #[error("no memory")]
    OutOfMemory = 4,
}

impl MemFault {
    /// The number of the fault, 1 to 4 (project rule).
    pub fn number(self) -> u8
        ensures { result ≡ fault_number self }
    {
        self as u8
    }
}

/// Checks the regions of a machine, which may have `total` bytes in all: the first of Misaligned, TooLarge and Overlap
/// that holds of them is the fault. No regions at all are accepted, and so are regions that touch.
///
/// Source: project rule; the attributes and priorities are those of RKM Libraries, Exec Memory Allocation.
#[tactic(auto, unfolding(crate::specs::Regions::regions_fault))]
pub fn check_regions(regions: &[Region], total: u32) -> Result<(), MemFault>
    ensures { MatchResult result (λ _. regions_fault total regions.now ≡ None) (λ fault. regions_fault total regions.now ≡ Some fault) }
{
    if !are_aligned(regions) {
        return Err(MemFault::Misaligned);
    }
    if !are_small(regions, total) {
        return Err(MemFault::TooLarge);
    }
    if !are_apart(regions) {
        return Err(MemFault::Overlap);
    }
    Ok(())
}

fn is_aligned(region: &Region) -> bool
    ensures { result ≡ is_aligned region.now }
{
    region.base % MEM_BLOCKSIZE == 0
        && region.size % MEM_BLOCKSIZE == 0
        && 0 < region.size
        && LOWEST_BASE <= region.base
}

fn are_aligned(regions: &[Region]) -> bool
    ensures { result ≡ list_all is_aligned regions.now }
{
    regions.iter().all(|region| is_aligned(region))
}

fn is_in_reach(region: &Region) -> bool
    ensures { result ≡ is_in_reach region.now }
{
    u64::from(region.base) + u64::from(region.size) <= REACH
}

fn are_small(regions: &[Region], total: u32) -> bool
    ensures { result ≡ are_small total regions.now }
{
    regions.len() <= REGION_LIMIT
        && total_size(regions) <= u64::from(total)
        && are_in_reach(regions)
}

fn are_in_reach(regions: &[Region]) -> bool
    ensures { result ≡ list_all is_in_reach regions.now }
{
    regions.iter().all(|region| is_in_reach(region))
}

fn total_size(regions: &[Region]) -> u64
    requires { length regions.now ≤ REGION_LIMIT }
    ensures { result ≡ total_size regions.now }
{
    let mut total = 0;
    for region in regions {
        total += u64::from(region.size);
    }
    total
}

fn overlaps(a: &Region, b: &Region) -> bool
    ensures { result ≡ overlaps a.now b.now }
{
    u64::from(a.base) < u64::from(b.base) + u64::from(b.size)
        && u64::from(b.base) < u64::from(a.base) + u64::from(a.size)
}

fn are_apart(regions: &[Region]) -> bool
    ensures { result ≡ are_apart regions.now }
{
    for (i, region) in regions.iter().enumerate() {
        if overlaps_any(region, &regions[i + 1..]) {
            return false;
        }
    }
    true
}

fn overlaps_any(region: &Region, others: &[Region]) -> bool
    ensures { result ≡ list_any (overlaps region.now) others.now }
{
    others.iter().any(|other| overlaps(region, other))
}
