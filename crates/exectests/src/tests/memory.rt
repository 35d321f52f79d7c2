//! The regions that are refused, and why. Each case is a table.
use super::comparing::same;
use memlist::{MemFault, MemList, Region, check_regions};
use std::alloc::{AllocError, Global};
use std::test::*;

/// A region, by its base and its size.
#[derive(Clone, Copy)]
enum Place {
    /// With attribute 1 and priority 0.
    Plain(u32, u32),
    /// With attributes 3 and priority 5.
    Fast(u32, u32),
}

use Place::*;

/// What a test shows, its regions, and what the check of them answers.
struct Check {
    name: &'static str,
    places: &'static [Place],
    wanted: Result<(), MemFault>,
}

const MISALIGNED: Result<(), MemFault> = Err(MemFault::Misaligned);

const OVERLAP: Result<(), MemFault> = Err(MemFault::Overlap);

const TOO_LARGE: Result<(), MemFault> = Err(MemFault::TooLarge);

/// A base that is not a multiple of 8.
const ODD: Place = Plain(4100, 8);

/// More bytes than a machine may have.
const LARGE: Place = Plain(4096, 2_000_000);

const SAME: Place = Plain(4096, 8);

/// The bytes that the regions of a test may have in all.
const TOTAL: u32 = 1_048_576;

static CHECKS: [Check; 18] = [
    Check {
        name: "a base is below 4096",
        places: &[Plain(4092, 8)],
        wanted: MISALIGNED,
    },
    Check {
        name: "a base is no multiple of 8",
        places: &[ODD],
        wanted: MISALIGNED,
    },
    Check {
        name: "a size is no multiple of 8",
        places: &[Plain(4096, 4)],
        wanted: MISALIGNED,
    },
    Check {
        name: "a size is 0",
        places: &[Plain(4096, 0)],
        wanted: MISALIGNED,
    },
    Check {
        name: "a base that is a multiple of 8 is below 4096",
        places: &[Plain(4088, 8)],
        wanted: MISALIGNED,
    },
    Check {
        name: "a region has more bytes than a machine",
        places: &[Plain(4096, 1_048_584)],
        wanted: TOO_LARGE,
    },
    Check {
        name: "a region goes past the last address",
        places: &[Plain(2_147_483_640, 16)],
        wanted: TOO_LARGE,
    },
    Check {
        name: "the second region begins in the first",
        places: &[Plain(4096, 16), Plain(4104, 16)],
        wanted: OVERLAP,
    },
    Check {
        name: "the first region lies in the second",
        places: &[Plain(4104, 8), Plain(4096, 16)],
        wanted: OVERLAP,
    },
    Check {
        name: "misaligned, and then too large",
        places: &[ODD, LARGE],
        wanted: MISALIGNED,
    },
    Check {
        name: "too large, and then misaligned",
        places: &[LARGE, ODD],
        wanted: MISALIGNED,
    },
    Check {
        name: "a region that is too large overlaps another",
        places: &[LARGE, SAME],
        wanted: TOO_LARGE,
    },
    Check {
        name: "a region overlaps another that is too large",
        places: &[SAME, LARGE],
        wanted: TOO_LARGE,
    },
    Check {
        name: "two misaligned regions overlap",
        places: &[ODD, ODD],
        wanted: MISALIGNED,
    },
    Check {
        name: "a misaligned region overlaps another",
        places: &[ODD, SAME],
        wanted: MISALIGNED,
    },
    Check {
        name: "a region overlaps another that is misaligned",
        places: &[SAME, ODD],
        wanted: MISALIGNED,
    },
    Check {
        name: "there is no region",
        places: &[],
        wanted: Ok(()),
    },
    Check {
        name: "there are nine regions",
        places: &[SAME; 9],
        wanted: TOO_LARGE,
    },
];

/// That many bytes that the regions may have in all, the size of a region, and what the check of it alone answers.
static TOTALS: [(u32, u32, Result<(), MemFault>); 10] = [
    (1_048_576, 1_048_576, Ok(())),
    (1_048_576, 1_048_584, TOO_LARGE),
    (4_194_304, 1_048_584, Ok(())),
    (4_194_304, 4_194_304, Ok(())),
    (4_194_304, 4_194_312, TOO_LARGE),
    (8, 8, Ok(())),
    (8, 16, TOO_LARGE),
    (0, 8, TOO_LARGE),
    (0xFFFF_FFFF, 0x7FFF_F000, Ok(())),
    (0xFFFF_FFFF, 0x7FFF_F008, TOO_LARGE),
];

/// The region that a place names.
fn region(place: Place) -> Region {
    match place {
        Plain(base, size) => Region {
            base,
            size,
            attrs: 1,
            pri: 0,
        },
        Fast(base, size) => Region {
            base,
            size,
            attrs: 3,
            pri: 5,
        },
    }
}

/// The regions that places name.
fn regions(alloc: Global, places: &[Place]) -> Result<Vec<Region>, AllocError> {
    let mut regions = Vec::new(alloc);
    for place in places {
        regions.push(region(*place))?;
    }
    Ok(regions)
}

#[test]
fn regions_are_accepted_or_have_the_first_of_their_faults(rt: HostRuntime) -> Result<(), Fail> {
    for (number, check) in CHECKS.iter().enumerate() {
        let regions = regions(rt.alloc(), check.places)?;
        same(
            &rt,
            check.name,
            number,
            check_regions(&regions, TOTAL),
            check.wanted,
        );
    }
    Ok(())
}

#[test]
fn regions_have_the_total_that_they_may_have(rt: HostRuntime) {
    for (number, (total, size, wanted)) in TOTALS.iter().enumerate() {
        let regions = [region(Plain(4096, *size))];
        same(
            &rt,
            "totals",
            number,
            check_regions(&regions, *total),
            *wanted,
        );
    }
}

#[test]
fn a_memory_is_made_of_regions_that_have_no_fault(rt: HostRuntime) {
    for (number, (total, wanted)) in [(15, TOO_LARGE), (16, Ok(())), (17, Ok(()))]
        .iter()
        .enumerate()
    {
        let made = match MemList::new(rt.alloc(), &[region(Plain(4096, 16))], *total) {
            Ok(_) => Ok(()),
            Err(fault) => Err(fault),
        };
        same(&rt, "a memory", number, made, *wanted);
    }
}
