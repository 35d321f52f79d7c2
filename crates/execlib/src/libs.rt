//! The libraries of a machine, by number.
ghost use Rattle.std.specs.Prelude.{◌≡◌, ◌≤◌, ◌<◌, length, map, Some, None, IfOk, IfSome, IsSome, IsTrue, not, nat_eq, [], ◌∷◌};
ghost use Rattle.memlist.specs.{Blocks.block_at, Fit.fit, Memory.allocated};
ghost use Rattle.execlist.specs.Answers.{fault_or, kept_or};
ghost use Rattle.execlib.specs.Libraries.{no_library_loaded, description_of, library_at, library_tag, loaded_at, number_of, is_loaded, base_of, count_of, can_open, library_to_open, base_for, opened_base, opened, memory_for, memory_without, loads, entered, key_of, numbers, most_openings, close_fault, leaves_by_close, closed, memory_after_close, removed, leaves_by_removal, memory_after_removal, expunged, with_loaded, LieIn, after_asking, asked_each, gives_way, lent, ready_to_load, ready_to_open};

use crate::fault::LibFault;
use crate::library::{LibInit, Loaded};
use execlist::space::ListSpace;
use memlist::{MEMF_PUBLIC, MemList};
use std::alloc::{AllocError, Global};
use std::marker::Model;

/// The number of a library, from 0, in the order of the list that `Libs::new` is given.
pub type LibId = usize;

/// The only header of the names.
const NAMES: usize = 0;

/// The greatest count of openings.
const MOST_OPENINGS: u16 = 65535;

/// The tag of the block of library 0; that of library i is greater by i.
const FIRST_TAG: u32 = 0x8000_0000;

/// Libraries, and which of them are loaded.
///
/// All room is made by `new`; no other call takes memory of the host. The memory in which libraries are loaded is lent
/// to each call. RKM Libraries, Exec Libraries.
#[derive(Drop)]
pub struct Libs<S: ListSpace> {
    known: Vec<LibInit>,
    loaded: Vec<Option<Loaded>>,
    asks: bool,
    names: S,
}

impl<S: ListSpace> Model for Libs<S> {
    ghost use Rattle.std.specs.Prelude.{map};
    ghost use Rattle.execlib.specs.Libraries.{Libraries, IsKept, description_of};

    ghost Value = { Libraries };

    ghost view = { λ q. record { known = map description_of q.known.items; loaded = q.loaded.items; asks = q.asks } };

    ghost invariant = { λ q. IsKept (S.sequences q.names) (S.keys q.names) (record { known = map description_of q.known.items; loaded = q.loaded.items; asks = q.asks }) };
}

impl<S: ListSpace> Libs<S> {
    /// Libraries of these names, versions and sizes, at most 32, numbered in the order given. None is loaded. With
    /// `asks` the loaded ones are asked for memory if a block fits nowhere (`alloc_mem`, and `open` if it loads one).
    ///
    /// An error means that memory is refused.
    pub fn new(alloc: Global, libraries: &[LibInit], asks: bool) -> Result<Self, AllocError>
        requires { length libraries.now ≤ 32 }
        ensures { IfOk result (λ q. q ≡ no_library_loaded (map description_of libraries.now) asks) }
    {
        let names = names_of(alloc, libraries)?;
        let loaded = Vec::from_elem(alloc, None, libraries.len())?;
        let known = copy_of(alloc, libraries)?;
        Ok(Libs {
            known,
            loaded,
            asks,
            names,
        })
    }

    /// Leaves no library loaded, as `new` did, and the loaded ones are asked for memory or not, as `asks` says. The
    /// blocks of those that were loaded are left to the caller.
    ///
    /// Source: project rule.
    pub fn reset(&mut self, asks: bool)
        ensures { self.new ≡ no_library_loaded self.old.known asks }
    {
        self.loaded.fill(None);
        self.asks = asks;
    }

    // ---- taking memory

    /// Takes a block of a size in bytes with those requirements and that tag, as `MemList::alloc_mem` does, and answers
    /// its address.
    ///
    /// If the libraries are asked, the size is not 0 and no gap is large enough, the loaded ones are asked in the order
    /// of their numbers: one that is not open is expunged, an open one is to be expunged when it is closed for the last
    /// time (LIBF_DELEXP). After each of them the gaps are looked at again, and the first that is large enough ends the
    /// asking. None is answered if none is large enough then; what was expunged or marked stays so. The loaded
    /// libraries have to lie in the memory.
    ///
    /// Autodocs exec.library/AllocMem, exec.library/RemLibrary; the order of asking: project rule.
    pub fn alloc_mem(&mut self, size: u32, reqs: u32, tag: u32, memory: &mut MemList) -> Option<u32>
        requires blocks { LieIn self.old memory.old }
        ensures answer { result ≡ fit memory.old.regions (after_asking size reqs (lent self.old memory.old)).memory.blocks size reqs }
        ensures libraries { self.new ≡ (after_asking size reqs (lent self.old memory.old)).libraries }
        ensures memory { memory.new ≡ allocated size tag result (after_asking size reqs (lent self.old memory.old)).memory }
    {
        self.ask(size, reqs, memory);
        memory.alloc_mem(size, reqs, tag)
    }

    // ---- opening and closing

    /// Opens the library of a name whose version is at least the one asked for. One that is not loaded is loaded first:
    /// it takes a block of its size, with MEMF_PUBLIC, whose tag is $80000000 and its number, and the other libraries
    /// are asked for memory as in `alloc_mem`. It is open once more, and is not to be expunged any more.
    ///
    /// Answers its base, the address of its block. None is answered, and nothing changes but libraries that were asked
    /// for memory, if there is no library of the name, its version is lower, it is open 65,535 times, or it is to be
    /// loaded and no gap of memory is large enough (the count: project rule). The loaded libraries have to lie in the
    /// memory. Autodoc exec.library/OpenLibrary.
    #[tactic(auto, unfolding(crate::specs::Libraries::ready_to_open))]
    pub fn open(&mut self, name: &str, version: u32, memory: &mut MemList) -> Option<u32>
        requires blocks { LieIn self.old memory.old }
        ensures answer { let found = library_to_open name.now version self.old in let ready = ready_to_open found (lent self.old memory.old) in result ≡ opened_base found ready.libraries ready.memory }
        ensures libraries { let found = library_to_open name.now version self.old in let ready = ready_to_open found (lent self.old memory.old) in self.new ≡ opened found result ready.libraries }
        ensures memory { let found = library_to_open name.now version self.old in let ready = ready_to_open found (lent self.old memory.old) in memory.new ≡ memory_for found result ready.libraries ready.memory }
    {
        let i = self.library_to_open(name, version)?;
        let base = self.base_for(i, memory)?;
        self.enter(i, base);
        Some(base)
    }

    /// Closes a loaded library once. If it is to be expunged and is now open no more, it is: its block is freed, and it
    /// is not loaded any more. One that is not to be expunged stays loaded.
    ///
    /// It is NotOpen if the library is open no more (project rule). The block of the library has to be in the memory.
    /// Autodoc exec.library/CloseLibrary.
    pub fn close(&mut self, i: LibId, memory: &mut MemList) -> Result<(), LibFault>
        requires loaded { IsTrue (is_loaded i self.old) }
        requires block { IsSome (block_at (base_of i self.old) memory.old.blocks) }
        ensures answer { result ≡ fault_or (close_fault i self.old) tt }
        ensures libraries { self.new ≡ kept_or (close_fault i self.old) self.old (closed i self.old) }
        ensures memory { memory.new ≡ kept_or (close_fault i self.old) memory.old (memory_after_close i self.old memory.old) }
    {
        let loaded = self.loaded_library(i);
        if loaded.count == 0 {
            return Err(LibFault::NotOpen);
        }
        if loaded.count == 1 && loaded.delayed_expunge {
            self.expunge(i, memory);
        } else {
            self.set_loaded(
                i,
                Loaded {
                    base: loaded.base,
                    count: loaded.count - 1,
                    delayed_expunge: loaded.delayed_expunge,
                },
            );
        }
        Ok(())
    }

    /// Removes a loaded library: if it is not open it is expunged, and else it is to be expunged when it is closed for
    /// the last time (LIBF_DELEXP). The block of the library has to be in the memory. Autodoc exec.library/RemLibrary.
    pub fn remove(&mut self, i: LibId, memory: &mut MemList)
        requires loaded { IsTrue (is_loaded i self.old) }
        requires block { IsSome (block_at (base_of i self.old) memory.old.blocks) }
        ensures libraries { self.new ≡ removed i self.old }
        ensures memory { memory.new ≡ memory_after_removal i self.old memory.old }
    {
        let loaded = self.loaded_library(i);
        if loaded.count == 0 {
            self.expunge(i, memory);
        } else {
            self.set_loaded(
                i,
                Loaded {
                    base: loaded.base,
                    count: loaded.count,
                    delayed_expunge: true,
                },
            );
        }
    }

    // ---- reading

    /// Lends the libraries as they were given to `new`, in their order.
    ///
    /// Source: project rule.
    pub fn libraries(&self) -> &[LibInit]
        ensures { map description_of result.now ≡ self.now.known }
    {
        &self.known
    }

    /// Answers how often a loaded library is open, 0 to 65,535. RKM Libraries, Exec Libraries: `lib_OpenCnt`.
    pub fn count(&self, i: LibId) -> u32
        requires { IsTrue (is_loaded i self.now) }
        ensures { result ≡ count_of i self.now }
    {
        u32::from(self.loaded_library(i).count)
    }

    /// Answers the address of a loaded library's block. RKM Libraries, Exec Libraries: a library's base.
    pub fn base(&self, i: LibId) -> u32
        requires { IsTrue (is_loaded i self.now) }
        ensures { result ≡ base_of i self.now }
    {
        self.loaded_library(i).base
    }

    /// Answers whether there is a library of that number and it is loaded: whether the calls that ask for one may be
    /// made. Project rule.
    pub fn is_loaded(&self, i: LibId) -> bool
        ensures { result ≡ is_loaded i self.now }
    {
        self.loaded_at(i).is_some()
    }

    /// Answers, of a loaded library, how often it is open, and whether it is to be expunged when it is closed for the
    /// last time; none if it is not loaded. RKM Libraries, Exec Libraries: `lib_OpenCnt`, `lib_Flags`.
    pub fn loaded_at(&self, i: LibId) -> Option<Loaded>
        ensures { result ≡ loaded_at i self.now }
    {
        self.loaded.get(i).copied().unwrap_or(None)
    }

    // ---- parts

    // What is kept of a loaded library.
    fn loaded_library(&self, i: LibId) -> Loaded
        requires { IsTrue (is_loaded i self.now) }
        ensures { Some result ≡ loaded_at i self.now }
    {
        self.loaded_at(i).unwrap()
    }

    // The library of a name, if there is one.
    fn number_of(&self, name: &str) -> Option<LibId>
        ensures value { result ≡ number_of name.now self.now }
        ensures known { IfSome result (λ i. i < length self.now.known) }
    {
        self.names.find_name(NAMES, None, name)
    }

    // How many libraries there are.
    fn how_many(&self) -> usize
        ensures { result ≡ length self.now.known }
    {
        self.known.len()
    }

    // The size of the block that a library takes.
    fn size_of(&self, i: LibId) -> u32
        requires { i < length self.now.known }
        ensures { result ≡ (library_at i self.now).size }
    {
        self.known[i].size
    }

    // The tag of that block.
    fn tag_of(&self, i: LibId) -> u32
        requires { i < length self.now.known }
        ensures { result ≡ library_tag i }
    {
        let _ = &self.known;
        FIRST_TAG + i as u32
    }

    // Whether a library has at least that version and may be opened once more.
    fn can_open(&self, i: LibId, version: u32) -> bool
        requires { i < length self.now.known }
        ensures { result ≡ can_open version i self.now }
    {
        let is_full = match self.loaded_at(i) {
            None => false,
            Some(loaded) => loaded.count == MOST_OPENINGS,
        };
        version <= u32::from(self.known[i].version) && !is_full
    }

    // The library that an opening is of, if it can be opened.
    fn library_to_open(&self, name: &str, version: u32) -> Option<LibId>
        ensures value { result ≡ library_to_open name.now version self.now }
        ensures known { IfSome result (λ i. i < length self.now.known) }
        ensures rarely { IfSome result (λ i. IsTrue (not (nat_eq (count_of i self.now) most_openings))) }
    {
        let i = self.number_of(name)?;
        if self.can_open(i, version) {
            Some(i)
        } else {
            None
        }
    }

    // ---- single changes

    // Where a library is; one that is not loaded takes its block, for which the others are asked for memory.
    fn base_for(&mut self, i: LibId, memory: &mut MemList) -> Option<u32>
        requires known { i < length self.old.known }
        requires blocks { LieIn self.old memory.old }
        ensures value { let ready = ready_to_load i (lent self.old memory.old) in result ≡ base_for i ready.libraries ready.memory }
        ensures libraries { self.new ≡ (ready_to_load i (lent self.old memory.old)).libraries }
        ensures memory { let ready = ready_to_load i (lent self.old memory.old) in memory.new ≡ loads i result ready.libraries ready.memory }
    {
        match self.loaded_at(i) {
            Some(loaded) => Some(loaded.base),
            None => {
                let size = self.size_of(i);
                let tag = self.tag_of(i);
                self.alloc_mem(size, MEMF_PUBLIC, tag, memory)
            }
        }
    }

    // If libraries are asked for memory and a block of that many bytes fits nowhere, they are asked one after another
    // until it fits.
    #[tactic(auto, unfolding(crate::specs::Libraries::after_asking))]
    fn ask(&mut self, size: u32, reqs: u32, memory: &mut MemList)
        requires blocks { LieIn self.old memory.old }
        ensures libraries { self.new ≡ (after_asking size reqs (lent self.old memory.old)).libraries }
        ensures memory { memory.new ≡ (after_asking size reqs (lent self.old memory.old)).memory }
    {
        if self.asks && size != 0 {
            self.ask_each(size, reqs, memory);
        }
    }

    // Libraries are asked for memory one after another as long as a block of that many bytes fits nowhere.
    fn ask_each(&mut self, size: u32, reqs: u32, memory: &mut MemList)
        requires blocks { LieIn self.old memory.old }
        ensures libraries { self.new ≡ (asked_each size reqs (numbers (length self.old.known)) (lent self.old memory.old)).libraries }
        ensures memory { memory.new ≡ (asked_each size reqs (numbers (length self.old.known)) (lent self.old memory.old)).memory }
    {
        for i in 0..self.how_many() {
            if memory.fits(size, reqs) {
                return;
            }
            self.give_way(i, memory);
        }
    }

    // A library that is asked for memory does as if it were removed, if it is loaded: one that is not open is expunged,
    // an open one is marked.
    fn give_way(&mut self, i: LibId, memory: &mut MemList)
        requires blocks { LieIn self.old memory.old }
        ensures libraries { self.new ≡ (gives_way i (lent self.old memory.old)).libraries }
        ensures memory { memory.new ≡ (gives_way i (lent self.old memory.old)).memory }
    {
        if self.is_loaded(i) {
            self.remove(i, memory);
        }
    }

    // A library, which lies at that address, is open once more.
    fn enter(&mut self, i: LibId, base: u32)
        requires { IsTrue (not (nat_eq (count_of i self.old) most_openings)) }
        ensures { self.new ≡ with_loaded i (Some (entered base (loaded_at i self.old))) self.old }
    {
        let count = match self.loaded_at(i) {
            None => 0,
            Some(loaded) => loaded.count,
        };
        self.set_loaded(
            i,
            Loaded {
                base,
                count: count + 1,
                delayed_expunge: false,
            },
        );
    }

    // What is kept of a library becomes another; nothing changes if there is no library of that number.
    fn set_loaded(&mut self, i: LibId, loaded: Loaded)
        ensures { self.new ≡ with_loaded i (Some loaded) self.old }
    {
        if i < self.loaded.len() {
            self.loaded[i] = Some(loaded);
        }
    }

    // A loaded library is not loaded any more, and its block is freed.
    fn expunge(&mut self, i: LibId, memory: &mut MemList)
        requires loaded { IsTrue (is_loaded i self.old) }
        requires block { IsSome (block_at (base_of i self.old) memory.old.blocks) }
        ensures libraries { self.new ≡ expunged i self.old }
        ensures memory { memory.new ≡ memory_without i self.old memory.old }
    {
        memory.free_block(self.loaded_library(i).base);
        if i < self.loaded.len() {
            self.loaded[i] = None;
        }
    }
}

// Nodes with the names of the libraries, all in one header, in the order of the libraries.
fn names_of<S: ListSpace>(alloc: Global, libraries: &[LibInit]) -> Result<S, AllocError>
    requires { length libraries.now ≤ 32 }
    ensures listed { IfOk result (λ s. S.sequences s ≡ numbers (length libraries.now) ∷ []) }
    ensures named { IfOk result (λ s. S.keys s ≡ map key_of (map description_of libraries.now)) }
{
    let mut names = S::new(alloc, 1, libraries.len())?;
    for i in 0..libraries.len() {
        names.set_key(i, 0, Some(libraries[i].name));
        names.add_tail(NAMES, i);
    }
    Ok(names)
}

fn copy_of(alloc: Global, libraries: &[LibInit]) -> Result<Vec<LibInit>, AllocError>
    ensures { IfOk result (λ v. v.items ≡ libraries.now) }
{
    let mut copy = Vec::new(alloc);
    copy.extend_from_slice(libraries)?;
    Ok(copy)
}
