//! The chunk below a block, found in the table of blocks: from the block downwards, the first block that does not reach
//! up to the one above it has a gap after it.
ghost use Rattle.std.specs.Prelude.{◌≡◌, ◌+◌, ◌*◌, ◌≤◌, ℕ, List, [], length, take};
ghost use Rattle.memlist.specs.{declared.slot.Slot.Slot, Chain.IsLastBelow, Descent.IsLook, Descent.last_left};

use crate::region::MEM_BLOCKSIZE;
use crate::slot::Slot;
use crate::space::FreeSpace;

/// What a unit says of the last chunk below an address.
#[derive(Clone, Copy)]
pub enum Look {
    /// The chunk begins there.
    Chunk(u32),
    /// It is the last one below that address, and the units further down say which.
    Below(u32),
}

/// Looks at a unit for the last chunk below `top`, if no block begins between the two.
fn look_at(slot: Slot, unit: u32, top: u32) -> Look
    requires { unit ≤ top }
    ensures { (base : ℕ) (slots : List Slot) → unit ≡ base + MEM_BLOCKSIZE * length slots → IsLook base slots slot top result }
{
    if slot.size == 0 {
        Look::Below(top)
    } else if slot.size < top - unit {
        Look::Chunk(unit + slot.size)
    } else {
        Look::Below(unit)
    }
}

/// The chunk at the base if no block begins below `top`, or 0 if that is the base.
fn at_base(base: u32, top: u32) -> u32
    ensures { result ≡ last_left base [] top }
{
    if base < top { base } else { 0 }
}

/// The chunk before a block that has that many units below it, or 0 if there is none. The chain is walked up from its
/// first chunk and the units down from the block, in turn: whichever comes to an end first says where it is.
///
/// Source: autodoc exec.library/Deallocate; how the chunk is looked for is a project rule.
pub fn chunk_below(base: u32, slots: &[Slot], space: &FreeSpace, units: usize, address: u32) -> u32
    requires units { units ≤ length slots.now }
    requires address { address ≡ base + MEM_BLOCKSIZE * units }
    requires left { IsLastBelow address space.now.gaps (last_left base (take units slots.now) address) }
    ensures { IsLastBelow address space.now.gaps result }
{
    let mut before = 0;
    let mut top = address;
    for place in (0..units).rev() {
        match look_at(slots[place], base + place as u32 * MEM_BLOCKSIZE, top) {
            Look::Chunk(chunk) => return chunk,
            Look::Below(lower) => top = lower,
        }
        match space.next_below(before, address) {
            Some(chunk) => before = chunk,
            None => return before,
        }
    }
    at_base(base, top)
}
