//! Which blocks are objects of which kind, and where each object is; and the libraries, which are loaded into blocks.
//! Here is nothing of what objects hold.
ghost use Rattle.std.specs.Prelude.{◌≡◌, ◌≤◌, ◌↔◌, not, ◌&&◌, true, false, length, map, slice_get, IfOk, IfSome, IsSome, IsTrue, None, Some};
ghost use Rattle.memlist.specs.{Fit.asks, Fit.avail, Fit.fit, Memory.IsWellFormed, Memory.allocated, Memory.can_free, Memory.untouched, Memory.without_block, Readers.gap_from, Readers.gaps_in};
ghost use Rattle.execlist.specs.Pool.{IsStocked, all_free, slot};
ghost use Rattle.execlib.specs.Libraries.{close_fault, count_of, description_of, is_loaded, loaded_at, library_to_open, no_library_loaded, opened_base};
ghost use Rattle.script.specs.Records.{library_view};
ghost use Rattle.execheap.specs.Table.{IsSoundTable, after_asking, base_at, begins_at, emptied, free_pools, library_at, library_closed, library_opened, library_removed, next_object, number_at, pool_of, ready_for, ready_to_open, slots_of, unused, with_object, without_object};
ghost use Rattle.execheap.specs.Numbered.{shown_library};

use crate::tag::{Kind, Tagged, library_in, number_in, read, tag_of};
use execlib::library::{LibInit, Loaded};
use execlib::libs::{LibId, Libs};
use execlist::pool::Pool;
use execlist::space::ListSpace;
use memlist::{Gap, MEMF_PUBLIC, MemList, Region};
use script::LibraryRecord;
use std::alloc::{AllocError, Global};
use std::marker::Model;

/// The blocks of a memory, for each kind the addresses of its objects, by number, and the libraries.
#[derive(Drop)]
pub struct Table<S: ListSpace> {
    memory: MemList,
    pools: [Pool<u32>; 6],
    pool: usize,
    libs: Libs<S>,
}

impl<S: ListSpace> Model for Table<S> {
    ghost use Rattle.execheap.specs.Table.{IsSoundTable, Tabled};

    ghost Value = { Tabled };

    ghost view = { λ t. record { memory = t.memory; pools = t.pools; pool = t.pool; libs = t.libs } };

    ghost invariant = { λ t. IsSoundTable (record { memory = t.memory; pools = t.pools; pool = t.pool; libs = t.libs }) };
}

impl<S: ListSpace> Table<S> {
    /// Memory of these regions in which nothing is allocated, room for that many objects of each kind, and these
    /// libraries, none of them loaded, which are asked for memory or not.
    pub fn new(
        alloc: Global,
        regions: &[Region],
        pool: usize,
        libraries: &[LibInit],
        asks: bool,
    ) -> Result<Self, AllocError>
        requires pool { pool ≤ 1024 }
        requires few { length libraries.now ≤ 32 }
        ensures { IfOk result (λ t. t ≡ unused regions.now pool (map description_of libraries.now) asks) }
    {
        let memory = memory_of(alloc, regions)?;
        let pools = pools_of(alloc, pool)?;
        let libs = Libs::new(alloc, libraries, asks)?;
        Ok(Table {
            memory,
            pools,
            pool,
            libs,
        })
    }

    /// Frees all, as `new` makes it: nothing is allocated, no object lives, and no library is loaded; libraries are
    /// asked for memory or not.
    ///
    /// Source: project rule.
    pub fn reset(&mut self, asks: bool)
        ensures { self.new ≡ unused self.old.memory.regions self.old.pool self.old.libs.known asks }
    {
        self.memory.reset();
        reset_pools(&mut self.pools);
        self.libs.reset(asks);
    }

    /// Whether memory has these regions and no other.
    ///
    /// Source: project rule.
    pub fn has_regions(&self, regions: &[Region]) -> bool
        ensures { (result ≡ true) ↔ (self.now.memory.regions ≡ regions.now) }
    {
        for k in 0..regions.len() {
            if !is_region(self.memory.region(k), regions[k]) {
                return false;
            }
        }
        self.memory.region(regions.len()).is_none()
    }

    /// Whether these libraries are known and no other, by their names, versions and sizes.
    ///
    /// Source: project rule.
    pub fn knows(&self, libraries: &[LibraryRecord]) -> bool
        ensures { (result ≡ true) ↔ (map shown_library self.now.libs.known ≡ map library_view libraries.now) }
    {
        are_libraries(self.libs.libraries(), libraries)
    }

    /// What always holds of the table. It costs nothing.
    pub fn facts(&self)
        ensures sound { IsSoundTable self.now }
        ensures memory { IsWellFormed self.now.memory.regions self.now.memory.blocks }
    {
        self.memory.is_well_formed();
    }

    // ---- plain blocks

    /// A plain block of that many bytes, if one fits, at once or after libraries were asked for memory.
    ///
    /// Source: autodoc exec.library/AllocMem; when libraries are asked: project rule.
    pub fn allocate(&mut self, size: u32, reqs: u32) -> Option<u32>
        ensures answer { let ready = after_asking size reqs self.old in result ≡ fit ready.memory.regions ready.memory.blocks size reqs }
        ensures next { let ready = after_asking size reqs self.old in self.new ≡ record ready { memory = allocated size 0 result ready.memory } }
        ensures sound { IsSoundTable self.old }
        ensures memory { IsWellFormed self.old.memory.regions self.old.memory.blocks }
    {
        self.memory.is_well_formed();
        self.libs.alloc_mem(size, reqs, 0, &mut self.memory)
    }

    /// Frees the plain block that begins at an address, if the size names it.
    ///
    /// Source: autodoc exec.library/FreeMem; the refusal is a project rule.
    pub fn free_plain(&mut self, address: u32, size: u32) -> bool
        ensures answer { result ≡ can_free address size self.old.memory.blocks }
        ensures freed { result ≡ true → self.new ≡ record self.old { memory = without_block address self.old.memory } }
        ensures kept { result ≡ false → self.new ≡ self.old }
    {
        self.memory.is_well_formed();
        self.memory.free_mem(address, size).is_ok()
    }

    /// How much memory there is.
    ///
    /// Source: autodoc exec.library/AvailMem.
    pub fn available(&self, reqs: u32) -> u32
        requires { IsTrue (not (asks 17 reqs && asks 19 reqs)) }
        ensures { result ≡ avail self.now.memory.regions self.now.memory.blocks reqs }
    {
        self.memory.avail(reqs)
    }

    /// How many objects of each kind may live.
    pub fn pool(&self) -> usize
        ensures { result ≡ self.now.pool }
    {
        self.pool
    }

    // ---- objects

    /// The number of the object of a kind that begins at an address, if one does.
    pub fn number_at(&self, kind: Kind, address: u32) -> Option<usize>
        ensures value { result ≡ number_at kind address self.now }
        ensures live { IfSome result (λ n. slot (slots_of kind self.now) n ≡ Some address) }
    {
        match self.memory.block_at(address) {
            Some((_, tag)) => number_in(kind, read(tag)),
            None => None,
        }
    }

    /// The size of the block that begins at an address, and what begins there.
    ///
    /// Source: project rule.
    pub fn begins_at(&self, address: u32) -> Option<(u32, Tagged)>
        ensures { result ≡ begins_at address self.now }
    {
        match self.memory.block_at(address) {
            Some((size, tag)) => Some((size, read(tag))),
            None => None,
        }
    }

    /// The address of the object of a kind and a number, if it lives.
    pub fn address_of(&self, kind: Kind, number: usize) -> Option<u32>
        ensures { result ≡ slot (slots_of kind self.now) number }
    {
        self.pools[kind.code()].get(number)
    }

    /// A new object of a kind, if the pool has one left and its block fits, at once or after libraries were asked for
    /// memory: its number and its address. Nothing is asked if the pool has none left.
    pub fn make(&mut self, kind: Kind) -> Option<(usize, u32)>
        ensures answer { result ≡ next_object kind (ready_for kind self.old) }
        ensures next { self.new ≡ with_object kind result (ready_for kind self.old) }
        ensures sound { IsSoundTable self.old }
        ensures stocked { IsStocked (pool_of kind self.old) }
        ensures memory { IsWellFormed self.old.memory.regions self.old.memory.blocks }
    {
        self.memory.is_well_formed();
        let code = kind.code();
        self.pools[code].facts();
        let number = self.pools[code].next()?;
        let tag = tag_of(kind, number);
        let address = self
            .libs
            .alloc_mem(kind.size(), MEMF_PUBLIC, tag, &mut self.memory)?;
        self.pools[code].give(address);
        Some((number, address))
    }

    /// Frees the object of a kind and a number.
    pub fn free(&mut self, kind: Kind, number: usize, address: u32)
        requires { slot (slots_of kind self.old) number ≡ Some address }
        ensures next { self.new ≡ without_object kind number address self.old }
        ensures sound { IsSoundTable self.old }
        ensures memory { IsWellFormed self.old.memory.regions self.old.memory.blocks }
    {
        self.memory.is_well_formed();
        self.memory.free_block(address);
        self.pools[kind.code()].release(number);
    }

    // ---- libraries

    /// The number of the loaded library that begins at an address, if one does.
    pub fn library_at(&self, address: u32) -> Option<LibId>
        ensures value { result ≡ library_at address self.now }
        ensures live { IfSome result (λ i. base_at i self.now.libs ≡ Some address) }
    {
        match self.memory.block_at(address) {
            Some((_, tag)) => library_in(read(tag)),
            None => None,
        }
    }

    /// What is kept of a library, if it is loaded.
    ///
    /// Source: RKM Libraries, Exec Libraries: `lib_OpenCnt`, `lib_Flags`.
    pub fn loaded_at(&self, i: LibId) -> Option<Loaded>
        ensures { result ≡ loaded_at i self.now.libs }
    {
        self.libs.loaded_at(i)
    }

    /// A region, by its place in the machine's file; none past the last.
    ///
    /// Source: RKM Libraries, Exec Memory Allocation: MemHeader.
    pub fn region(&self, k: usize) -> Option<Region>
        ensures { result ≡ slice_get self.now.memory.regions k }
    {
        self.memory.region(k)
    }

    /// The lowest gap of a region that begins at an address or above it.
    ///
    /// Source: RKM Libraries, Exec Memory Allocation: MemChunk.
    pub fn gap_from(&self, k: usize, address: u32) -> Option<Gap>
        ensures { result ≡ gap_from address (gaps_in (slice_get self.now.memory.regions k) self.now.memory.blocks) }
    {
        self.memory.gap_from(k, address)
    }

    /// How often a loaded library is open.
    ///
    /// Source: RKM Libraries, Exec Libraries: `lib_OpenCnt`.
    pub fn library_count(&self, i: LibId) -> u32
        requires { IsTrue (is_loaded i self.now.libs) }
        ensures { result ≡ count_of i self.now.libs }
    {
        self.libs.count(i)
    }

    /// Opens the library of a name that has at least a version, loading it first if it is absent, and answers its base;
    /// none if there is none such, or it can be opened no more, or its block fits nowhere, even after others were asked
    /// for memory.
    ///
    /// Source: autodoc exec.library/OpenLibrary.
    pub fn open_library(&mut self, name: &str, version: u32) -> Option<u32>
        ensures answer { let found = library_to_open name.now version self.old.libs in let ready = ready_to_open found self.old in result ≡ opened_base found ready.libs ready.memory }
        ensures next { let found = library_to_open name.now version self.old.libs in self.new ≡ library_opened found result (ready_to_open found self.old) }
        ensures sound { IsSoundTable self.old }
        ensures memory { IsWellFormed self.old.memory.regions self.old.memory.blocks }
    {
        self.memory.is_well_formed();
        self.libs.open(name, version, &mut self.memory)
    }

    /// Closes a library that is open once.
    ///
    /// Source: autodoc exec.library/CloseLibrary.
    pub fn close_library(&mut self, i: LibId)
        requires loaded { IsTrue (is_loaded i self.old.libs) }
        requires open { close_fault i self.old.libs ≡ None }
        ensures next { self.new ≡ library_closed i self.old }
        ensures sound { IsSoundTable self.old }
        ensures memory { IsWellFormed self.old.memory.regions self.old.memory.blocks }
    {
        self.memory.is_well_formed();
        self.libs.close(i, &mut self.memory).unwrap();
    }

    /// Removes a loaded library, now or when it is closed for the last time.
    ///
    /// Source: autodoc exec.library/RemLibrary.
    pub fn remove_library(&mut self, i: LibId)
        requires { IsTrue (is_loaded i self.old.libs) }
        ensures next { self.new ≡ library_removed i self.old }
        ensures sound { IsSoundTable self.old }
        ensures memory { IsWellFormed self.old.memory.regions self.old.memory.blocks }
    {
        self.memory.is_well_formed();
        self.libs.remove(i, &mut self.memory);
    }
}

/// The memory of these regions, which `check_regions` accepts, so that out of memory is all that can be in the way of
/// it.
fn memory_of(alloc: Global, regions: &[Region]) -> Result<MemList, AllocError>
    ensures { IfOk result (λ memory. memory ≡ untouched regions.now) }
{
    match MemList::new(alloc, regions, u32::MAX) {
        Ok(memory) => Ok(memory),
        Err(_) => Err(AllocError),
    }
}

/// A pool for each kind, by its code. Pools are made two by two, since each part that can fail multiplies the proof.
fn pools_of(alloc: Global, pool: usize) -> Result<[Pool<u32>; 6], AllocError>
    requires { pool ≤ 1024 }
    ensures { IfOk result (λ pools. pools ≡ free_pools pool) }
{
    let (list, node) = two_pools(alloc, pool)?;
    let (port, message) = two_pools(alloc, pool)?;
    let (semaphore, request) = two_pools(alloc, pool)?;
    Ok([list, node, port, message, semaphore, request])
}

/// Two pools with room for that many items each.
fn two_pools(alloc: Global, pool: usize) -> Result<(Pool<u32>, Pool<u32>), AllocError>
    requires { pool ≤ 1024 }
    ensures { IfOk result (λ pools. pools ≡ (all_free pool, all_free pool)) }
{
    let one = Pool::new(alloc, pool)?;
    let other = Pool::new(alloc, pool)?;
    Ok((one, other))
}

/// Makes each number of the pools free.
fn reset_pools(pools: &mut [Pool<u32>; 6])
    ensures { pools.new ≡ map emptied pools.old }
{
    for kind in 0..6 {
        pools[kind].reset();
    }
}

/// Whether a region, if there is one, is that one.
fn is_region(known: Option<Region>, region: Region) -> bool
    ensures { (result ≡ true) ↔ (known ≡ Some region) }
{
    match known {
        None => false,
        Some(known) => known == region,
    }
}

/// Whether a library is that of a file.
fn is_library(known: &LibInit, library: &LibraryRecord) -> bool
    ensures { (result ≡ true) ↔ (shown_library (description_of known.now) ≡ library_view library.now) }
{
    known.name.as_str() == library.name.as_str()
        && known.version == library.version
        && known.size == library.size
}

/// Whether some libraries are those of a file, in its order.
fn are_libraries(known: &[LibInit], libraries: &[LibraryRecord]) -> bool
    ensures { (result ≡ true) ↔ (map shown_library (map description_of known.now) ≡ map library_view libraries.now) }
{
    if known.len() != libraries.len() {
        return false;
    }
    for i in 0..libraries.len() {
        if !is_library(&known[i], &libraries[i]) {
            return false;
        }
    }
    true
}
