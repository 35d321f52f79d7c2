//! What memory may be asked for: the attributes of a region, and what AllocMem and AvailMem take beside them, as bits
//! of a word (exec/memory.h).

/// Memory that each task and each interrupt may use.
pub const MEMF_PUBLIC: u32 = 1;

/// Memory that the custom chips reach.
pub const MEMF_CHIP: u32 = 2;

/// Memory that the custom chips do not reach.
pub const MEMF_FAST: u32 = 4;

/// Memory that is to be cleared.
pub const MEMF_CLEAR: u32 = 0x1_0000;

/// The number of the bit that asks AvailMem for the greatest gap.
pub const MEMB_LARGEST: u32 = 17;

/// That bit.
pub const MEMF_LARGEST: u32 = 1 << MEMB_LARGEST;

/// The number of the bit that asks AvailMem for the installed size.
pub const MEMB_TOTAL: u32 = 19;

/// That bit.
pub const MEMF_TOTAL: u32 = 1 << MEMB_TOTAL;
