//! Memory as Exec keeps it: regions, the blocks that are allocated in them and the gaps that are left.
//!
//! A `MemList` is seen as its regions and a finite map from the address of each block to its size and its tag
//! (`specs/Memory.antt`); where AllocMem takes memory is `fit` of `specs/Fit.antt`.
#![tactic(auto)]

pub use gap::Gap;
pub use memory::{MemList, NotABlock};
pub use region::{MEM_BLOCKSIZE, MemFault, Region, check_regions};
pub use requirement::{
    MEMB_LARGEST, MEMB_TOTAL, MEMF_CHIP, MEMF_CLEAR, MEMF_FAST, MEMF_LARGEST, MEMF_PUBLIC,
    MEMF_TOTAL,
};

mod chunk;
mod descent;
mod gap;
mod header;
pub mod laws;
mod memory;
mod region;
mod requirement;
mod slot;
mod space;
