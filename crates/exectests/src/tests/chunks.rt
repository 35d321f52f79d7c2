//! Free chunks in the memory that they describe: the first two words of each are the address of the next and its size.
//! Each case is a table of steps: calls, each with what it must answer.
ghost use Rattle.std.specs.Prelude.{◌≡◌, length};

use super::comparing::same;
use memlist::{MemFault, MemList, Region};
use std::alloc::{AllocError, Global};
use std::process::Abort;
use std::test::*;

/// A memory, and how many regions it has.
#[derive(Drop)]
struct Driver {
    memory: MemList,
    regions: usize,
    ghost known: { regions ≡ length memory.regions },
}

/// A call, and what it must answer.
#[derive(Clone, Copy)]
enum Step {
    /// A plain block of a size is allocated. Its address.
    Allocs(u32, Option<u32>),
    /// The plain block at an address is freed, by a size.
    Frees(u32, u32),
    /// The head of a region, by its place, and some of its words, by theirs.
    Shows(usize, u32, &'static [(usize, u32)]),
    /// The chain of the first region's chunks, of which each has its address and its size.
    HasChain(&'static [(u32, u32)]),
    /// Blocks of 8 bytes are allocated, at most that many, until there is no room. How many there are.
    Fills(u32, u32),
    /// That many blocks of 8 bytes are freed, every second one from an address on.
    FreesEachSecond(u32, u32),
}

use Step::*;

/// What a test shows, the base and the size of each region, the bytes that they may have in all, and the steps.
struct Case {
    name: &'static str,
    regions: &'static [(u32, u32)],
    total: u32,
    steps: &'static [Step],
}

/// The bytes of the greatest region.
const GREATEST: u32 = 4_194_304;

static CASES: [Case; 6] = [
    Case {
        name: "blocks that are freed join the chunks that touch them",
        regions: &[(4096, 32)],
        total: 32,
        steps: &[
            Shows(0, 4096, &[(0, 0), (1, 32)]),
            Allocs(8, Some(4096)),
            Allocs(8, Some(4104)),
            Allocs(8, Some(4112)),
            Shows(0, 4120, &[(6, 0), (7, 8)]),
            Frees(4096, 8),
            Frees(4112, 8),
            Shows(0, 4096, &[(0, 4112), (1, 8), (4, 0), (5, 16)]),
            Frees(4104, 8),
            Shows(0, 4096, &[(0, 0), (1, 32)]),
            Allocs(32, Some(4096)),
            Shows(0, 0, &[]),
        ],
    },
    Case {
        name: "a region may be one unit",
        regions: &[(4096, 8)],
        total: 8,
        steps: &[
            Shows(0, 4096, &[(0, 0), (1, 8)]),
            Allocs(1, Some(4096)),
            Shows(0, 0, &[]),
        ],
    },
    Case {
        name: "a region may be the greatest",
        regions: &[(4096, GREATEST)],
        total: GREATEST,
        steps: &[
            Shows(0, 4096, &[(0, 0), (1, GREATEST)]),
            Allocs(8, Some(4096)),
            Shows(0, 4104, &[(2, 0), (3, 4_194_296)]),
        ],
    },
    Case {
        name: "chunks of regions that touch stay apart",
        regions: &[(4096, 8), (4104, 8)],
        total: 16,
        steps: &[
            Shows(0, 4096, &[(0, 0), (1, 8)]),
            Shows(1, 4104, &[(0, 0), (1, 8)]),
            Allocs(16, None),
            Allocs(8, Some(4096)),
            Shows(0, 0, &[]),
            Shows(1, 4104, &[(0, 0), (1, 8)]),
        ],
    },
    Case {
        name: "a megabyte comes back from single units",
        regions: &[(4096, 1_048_576)],
        total: 1_048_576,
        steps: &[
            Fills(131_073, 131_072),
            FreesEachSecond(65_536, 4096),
            Allocs(16, None),
            FreesEachSecond(65_536, 4104),
            Allocs(1_048_576, Some(4096)),
        ],
    },
    // Right below, far below, after other blocks, or nowhere.
    Case {
        name: "a block is linked behind the chunk below it, wherever that lies",
        regions: &[(4096, 112)],
        total: 112,
        steps: &[
            Allocs(16, Some(4096)),
            Allocs(16, Some(4112)),
            Allocs(16, Some(4128)),
            Allocs(16, Some(4144)),
            Allocs(16, Some(4160)),
            Allocs(16, Some(4176)),
            Allocs(16, Some(4192)),
            Frees(4144, 16),
            HasChain(&[(4144, 16)]),
            Frees(4096, 16),
            HasChain(&[(4096, 16), (4144, 16)]),
            Frees(4160, 16),
            HasChain(&[(4096, 16), (4144, 32)]),
            Frees(4192, 16),
            HasChain(&[(4096, 16), (4144, 32), (4192, 16)]),
            Frees(4176, 16),
            HasChain(&[(4096, 16), (4144, 64)]),
            Frees(4128, 16),
            HasChain(&[(4096, 16), (4128, 80)]),
            Frees(4112, 16),
            HasChain(&[(4096, 112)]),
        ],
    },
];

impl Driver {
    /// The memory of these regions, which may have that many bytes in all, with nothing allocated.
    fn new(alloc: Global, regions: &[Region], total: u32) -> Result<Self, MemFault> {
        let memory = MemList::new(alloc, regions, total)?;
        Ok(Driver {
            memory,
            regions: regions.len(),
        })
    }

    /// Allocates a plain block of a size.
    fn allocate(&mut self, size: u32) -> Option<u32> {
        match self.memory.alloc_mem(size, 0, 0) {
            Some(address) => Some(address),
            None => None,
        }
    }

    /// Frees a plain block; whether there was one.
    fn free(&mut self, address: u32, size: u32) -> bool {
        match self.memory.free_mem(address, size) {
            Ok(()) => true,
            Err(_) => false,
        }
    }

    /// Allocates blocks of 8 bytes until there is no room, at most that many; how many there are.
    fn fill(&mut self, most: u32) -> u32 {
        for count in 0..most {
            if self.allocate(8).is_none() {
                return count;
            }
        }
        most
    }

    /// Frees that many blocks of 8 bytes, every second one from an address on; whether each was there.
    fn free_each_second(&mut self, blocks: u32, address: u32) -> bool {
        let mut at = address;
        for _ in 0..blocks {
            if !self.free(at, 8) {
                return false;
            }
            at = at.saturating_add(16);
        }
        true
    }

    /// The head of a region, 1 if there is no such region.
    fn head(&self, k: usize) -> u32 {
        if k < self.regions {
            self.memory.head(k)
        } else {
            1
        }
    }

    /// The words of a region.
    fn words(&self, k: usize) -> &[u32] {
        if k < self.regions {
            self.memory.words(k)
        } else {
            &[]
        }
    }
}

/// The words are at these places.
fn stand(rt: &impl Abort, case: &str, number: usize, words: &[u32], wanted: &[(usize, u32)]) {
    for (i, word) in wanted {
        same(rt, case, number, words.get(*i).copied(), Some(*word));
    }
}

/// The first two words from an address on, in the words of a region whose base is 4096.
fn chunk_at(words: &[u32], address: u32) -> Option<(u32, u32)> {
    let place = (address.saturating_sub(4096) / 4) as usize;
    match words.get(place..)? {
        [next, size, ..] => Some((*next, *size)),
        _ => None,
    }
}

/// The chain from the head on is this one.
fn follow(
    rt: &impl Abort,
    case: &str,
    number: usize,
    words: &[u32],
    head: u32,
    chunks: &[(u32, u32)],
) {
    let mut address = head;
    for (wanted, size) in chunks {
        same(rt, case, number, address, *wanted);
        let (next, found) = chunk_at(words, *wanted).unwrap_or((1, 0));
        same(rt, case, number, found, *size);
        address = next;
    }
    same(rt, case, number, address, 0);
}

/// Takes one step of a case.
fn take(rt: &impl Abort, d: &mut Driver, case: &str, number: usize, step: Step) {
    match step {
        Allocs(size, wanted) => same(rt, case, number, d.allocate(size), wanted),
        Frees(address, size) => same(rt, case, number, d.free(address, size), true),
        Shows(k, head, wanted) => {
            same(rt, case, number, d.head(k), head);
            stand(rt, case, number, d.words(k), wanted);
        }
        HasChain(chunks) => follow(rt, case, number, d.words(0), d.head(0), chunks),
        Fills(most, wanted) => same(rt, case, number, d.fill(most), wanted),
        FreesEachSecond(blocks, address) => {
            let are_freed = d.free_each_second(blocks, address);
            same(rt, case, number, are_freed, true);
        }
    }
}

/// Takes the steps of a case.
fn take_all(rt: &impl Abort, d: &mut Driver, case: &str, steps: &[Step]) {
    for (number, step) in steps.iter().enumerate() {
        take(rt, d, case, number, *step);
    }
}

/// Regions with no attributes, by their bases and their sizes.
fn regions(alloc: Global, places: &[(u32, u32)]) -> Result<Vec<Region>, AllocError> {
    let mut regions = Vec::new(alloc);
    for (base, size) in places {
        regions.push(Region {
            base: *base,
            size: *size,
            attrs: 0,
            pri: 0,
        })?;
    }
    Ok(regions)
}

#[test]
fn each_call_answers_as_its_case_says(rt: HostRuntime) -> Result<(), Fail> {
    for case in &CASES {
        let regions = regions(rt.alloc(), case.regions)?;
        let mut d = Driver::new(rt.alloc(), &regions, case.total)?;
        take_all(&rt, &mut d, case.name, case.steps);
    }
    Ok(())
}
