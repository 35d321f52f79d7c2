//! Laws of memory: functions without effect whose contracts say what the definitions amount to.
ghost use Rattle.std.specs.Prelude.{◌≡◌, ◌+◌, ◌%◌, ◌<◌, ◌≤◌, ℕ, List, [], None, Some, slice_get};
ghost use Rattle.execlist.specs.Order.{IsEarliestGreatest, chosen};
ghost use Rattle.memlist.specs.{Regions.regions_fault, Blocks.Blocks, Blocks.block_at, Blocks.freed, Blocks.with_block, Fit.fit, Fit.region_pri, Fit.round, Memory.IsWellFormed, Pieces.AreDisjoint, Pieces.IsPlaced, Pieces.IsTiled, declared.region.Region.Region};

use crate::region::MEM_BLOCKSIZE;

/// A rounded size is the least multiple of 8 that is at least the size.
///
/// Source: autodoc exec.library/AllocMem: MEM_BLOCKSIZE.
pub fn rounds_up()
    ensures whole { (n : ℕ) → round n % MEM_BLOCKSIZE ≡ 0 }
    ensures enough { (n : ℕ) → n ≤ round n }
    ensures least { (n m : ℕ) → n ≤ m → m % MEM_BLOCKSIZE ≡ 0 → round n ≤ m }
{}

/// The region that is chosen is the earliest among those of highest priority, and none is chosen of none alone.
///
/// Source: RKM Libraries, Exec Memory Allocation: priorities of regions.
pub fn chosen_is_earliest_of_greatest()
    ensures some { (regions : List Region) (region : Region) → chosen region_pri regions ≡ Some region → IsEarliestGreatest region_pri regions region }
    ensures none { (regions : List Region) → chosen region_pri regions ≡ None → regions ≡ [] }
{}

/// Blocks and gaps tile each region of a well-formed memory.
///
/// Source: RKM Libraries, Exec Memory Allocation: the free chunks of a region.
pub fn regions_are_tiled()
    ensures { (regions : List Region) (blocks : Blocks) (place : ℕ) (region : Region) → IsWellFormed regions blocks → slice_get regions place ≡ Some region → IsTiled region blocks }
{}

/// The blocks of a well-formed memory lie in its regions and do not meet.
pub fn blocks_are_disjoint()
    ensures { (regions : List Region) (blocks : Blocks) → IsWellFormed regions blocks → AreDisjoint regions blocks }
{}

/// If a block fits, no block begins, and there it lies on whole units; so does each block of a well-formed memory. An
/// address is never 0.
///
/// Source: autodoc exec.library/AllocMem: the block's alignment, and 0 if there is none.
pub fn blocks_are_placed()
    ensures fresh { (regions : List Region) (blocks : Blocks) (size reqs address : ℕ) → IsWellFormed regions blocks → fit regions blocks size reqs ≡ Some address → block_at address blocks ≡ None }
    ensures fitted { (regions : List Region) (blocks : Blocks) (size reqs address : ℕ) → IsWellFormed regions blocks → fit regions blocks size reqs ≡ Some address → IsPlaced address (round size) }
    ensures live { (regions : List Region) (blocks : Blocks) (address size tag : ℕ) → IsWellFormed regions blocks → block_at address blocks ≡ Some (size, tag) → IsPlaced address size }
{}

/// A memory in which nothing is allocated is well formed, and it stays so when a block is put if it fits and when one
/// is freed.
pub fn memory_stays_well_formed()
    ensures untouched { (total : ℕ) (regions : List Region) → regions_fault total regions ≡ None → IsWellFormed regions [] }
    ensures allocated { (regions : List Region) (blocks : Blocks) (size reqs tag address : ℕ) → IsWellFormed regions blocks → fit regions blocks size reqs ≡ Some address → IsWellFormed regions (with_block address (round size) tag blocks) }
    ensures freed { (regions : List Region) (blocks : Blocks) (address : ℕ) → IsWellFormed regions blocks → IsWellFormed regions (freed address blocks) }
{}
