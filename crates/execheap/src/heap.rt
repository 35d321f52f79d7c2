//! The memory of a machine and the objects that live in it, by address. Its value is the memory of the abstract
//! machine, with the public ports in the order in which they are kept. Here is what every kind needs and plain blocks;
//! the calls on objects are in `objects`, in the file of their kind.
ghost use Rattle.std.specs.Prelude.{◌≡◌, ◌≤◌, ◌↔◌, [], true, false, length, map, IfOk};
ghost use Rattle.execlib.specs.Libraries.{description_of};
ghost use Rattle.memlist.specs.Fit.{avail};
ghost use Rattle.script.specs.Records.{library_view};
ghost use Rattle.execmodel.specs.{State.Plain, Memory.block_at, Memory.can_be_asked, Memory.extents, Memory.freed, Memory.is_named, Memory.place_for, Memory.placed, LowMemory.after_asking};
ghost use Rattle.timerdev.specs.Timing.{new_timer};
ghost use Rattle.execheap.specs.{Numbered.shown_library, Resetting.IsAsLarge};

use crate::objects::Objects;
use execlib::library::LibInit;
use execlist::space::ListSpace;
use memlist::Region;
use script::LibraryRecord;
use std::alloc::{AllocError, Global};
use std::marker::Model;

/// The memory of a machine and the objects that live in it: lists and nodes, ports and messages, semaphores, the
/// libraries that are loaded, and requests with the timer that finishes them, over list spaces of the type S.
///
/// An object is named by the address of its block. No method but `add_task` takes memory of the host: `new` makes
/// room for all that can ever live.
#[derive(Drop)]
pub struct Heap<S: ListSpace> {
    pub(crate) objects: Objects<S>,
}

impl<S: ListSpace> Model for Heap<S> {
    ghost use Rattle.execmodel.specs.State.{Memory};
    ghost use Rattle.execheap.specs.Numbered.{shown_memory};

    ghost Value = { Memory };

    ghost view = { λ h. shown_memory h.objects };
}

impl<S: ListSpace> Heap<S> {
    /// The memory of these regions with nothing allocated, and these libraries, at most 32, none of them loaded, which
    /// are asked for memory when a block fits nowhere, if `asks` says so. Of each kind as many objects may live as
    /// `pool` says, there are that many tasks, at most 4,096, numbered from 0, for each of which there is room to wait
    /// for a semaphore, and clock and system time are at 0 and gain `tick_micros` microseconds at each tick. An error
    /// means that the host refuses memory, or that `check_regions` refuses the regions, which no machine file's are.
    pub fn new(
        alloc: Global,
        regions: &[Region],
        pool: u32,
        tasks: usize,
        libraries: &[LibInit],
        asks: bool,
        tick_micros: u32,
    ) -> Result<Self, AllocError>
        requires pool { pool ≤ 1024 }
        requires tasks { tasks ≤ 4096 }
        requires few { length libraries.now ≤ 32 }
        ensures { IfOk result (λ h. h ≡ record { regions = regions.now; libraries = map shown_library (map description_of libraries.now); asks = asks; pool = pool; tasks = tasks; heap = []; public = []; timer = new_timer tick_micros }) }
    {
        let objects = Objects::new(alloc, regions, pool, tasks, libraries, asks, tick_micros)?;
        Ok(Heap { objects })
    }

    /// Makes the memory as `new` makes it of these, if it has the same regions, libraries and numbers of objects and
    /// tasks, and answers whether it has; otherwise nothing changes. It takes no memory of the host, and the time grows
    /// with what was used, not with `pool`.
    ///
    /// Source: project rule.
    pub fn reset(
        &mut self,
        regions: &[Region],
        pool: u32,
        tasks: usize,
        libraries: &[LibraryRecord],
        asks: bool,
        tick_micros: u32,
    ) -> bool
        ensures answer { (result ≡ true) ↔ IsAsLarge regions.now pool tasks (map library_view libraries.now) self.old }
        ensures same { result ≡ true → self.new ≡ record { regions = regions.now; libraries = map library_view libraries.now; asks = asks; pool = pool; tasks = tasks; heap = []; public = []; timer = new_timer tick_micros } }
        ensures kept { result ≡ false → self.new ≡ self.old }
    {
        if !self.objects.is_as_large(regions, pool, tasks, libraries) {
            return false;
        }
        self.objects.reset(asks, tick_micros);
        true
    }

    // ---- memory

    /// Allocates a plain block of a size in bytes, which is rounded up to a multiple of 8, and answers its address: the
    /// front of the lowest gap of the suitable region of highest priority. If no gap is large enough and libraries are
    /// asked for memory, they are asked one after another, in the order of the file, until one is: a library that is
    /// not open is expunged, an open one is marked. None if nothing fits then or the size is 0 (autodoc
    /// exec.library/AllocMem).
    pub fn alloc_mem(&mut self, size: u32, reqs: u32) -> Option<u32>
        ensures address { result ≡ place_for size reqs (after_asking size reqs self.old) }
        ensures next { self.new ≡ placed size Plain result (after_asking size reqs self.old) }
    {
        self.objects.allocate(size, reqs)
    }

    /// Frees the plain block that begins at an address, if the size names it, and answers whether it does; otherwise
    /// nothing changes (autodoc exec.library/FreeMem).
    pub fn free_mem(&mut self, address: u32, size: u32) -> bool
        ensures answer { result ≡ is_named size (block_at address self.old.heap) }
        ensures freed { result ≡ true → self.new ≡ freed address self.old }
        ensures kept { result ≡ false → self.new ≡ self.old }
    {
        self.objects.facts();
        self.objects.free(address, size)
    }

    /// The bytes that are free in the suitable regions, their greatest gap or their installed size (autodoc
    /// exec.library/AvailMem).
    pub fn avail(&self, reqs: u32) -> u32
        requires { can_be_asked reqs ≡ true }
        ensures { result ≡ avail self.now.regions (extents self.now.heap) reqs }
    {
        self.objects.available(reqs)
    }
}
