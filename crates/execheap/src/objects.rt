//! Objects by number, and the blocks in which they live. What a call by address means is in the file of its kind, below
//! this one.
ghost use Rattle.std.specs.Prelude.{◌≡◌, ◌≤◌, not, ◌&&◌, true, false, Some, length, map, IfOk, IfSome, IsSome, IsTrue};
ghost use Rattle.execlib.specs.Libraries.{description_of};
ghost use Rattle.memlist.specs.{Fit.asks, Fit.avail, Memory.can_free, Memory.without_block};
ghost use Rattle.execlist.specs.Pool.{slot};
ghost use Rattle.execmodel.specs.{State.Plain, Memory.freed, Memory.place_for, Memory.placed, LowMemory.after_asking};
ghost use Rattle.execheap.specs.declared.tag.Kind.TheVariants as variant;
ghost use Rattle.execheap.specs.{Table.number_at, Numbered.IsKnown, Numbered.places, Numbered.shown_memory, Changes.unused};

mod libraries;
mod lists;
mod ports;
mod queues;
mod readers;
mod requests;
mod reset;
mod room;
mod semaphores;

use crate::table::Table;
use crate::tag::Kind;
use execlib::library::LibInit;
use execlist::space::ListSpace;
use iorequest::requests::Requests;
use memlist::Region;
use msgport::ports::Ports;
use sigsem::sems::Sems;
use std::alloc::{AllocError, Global};
use std::marker::Model;
use timerdev::timer::Timer;

/// The blocks of a memory, and the objects that live in them by number. The table says where each object is; the list
/// space, the ports, the semaphores and the requests keep what they hold, and give the numbers that the table gives;
/// the timer knows which requests wait. Each request is a message of the ports too, from the beginning on: their
/// numbers are after those of the messages.
#[derive(Drop)]
pub struct Objects<S: ListSpace> {
    table: Table<S>,
    space: S,
    ports: Ports<S>,
    sems: Sems<S>,
    requests: Requests,
    timer: Timer<S>,
    // How many tasks may wait at the semaphores.
    tasks: usize,
}

impl<S: ListSpace> Model for Objects<S> {
    ghost use Rattle.execheap.specs.Numbered.{IsKept, Numbered};

    ghost Value = { Numbered };

    ghost view = { λ o. record {
      table = o.table;
      sequences = S.sequences o.space;
      homes = S.homes o.space;
      keys = S.keys o.space;
      ports = o.ports;
      sems = o.sems;
      requests = o.requests;
      timing = o.timer;
      tasks = o.tasks;
    } };

    ghost invariant = { λ o. IsKept (record {
      table = o.table;
      sequences = S.sequences o.space;
      homes = S.homes o.space;
      keys = S.keys o.space;
      ports = o.ports;
      sems = o.sems;
      requests = o.requests;
      timing = o.timer;
      tasks = o.tasks;
    }) };
}

impl<S: ListSpace> Objects<S> {
    /// Memory of these regions in which nothing is allocated, room for that many objects of each kind and for that many
    /// tasks to wait at semaphores, these libraries, none of them loaded, which are asked for memory or not, and a
    /// clock at 0 that gains that many microseconds at each tick.
    pub fn new(
        alloc: Global,
        regions: &[Region],
        pool: u32,
        tasks: usize,
        libraries: &[LibInit],
        asks: bool,
        tick_micros: u32,
    ) -> Result<Self, AllocError>
        requires pool { pool ≤ 1024 }
        requires tasks { tasks ≤ 4096 }
        requires few { length libraries.now ≤ 32 }
        ensures { IfOk result (λ o. o ≡ unused regions.now pool tasks (map description_of libraries.now) asks tick_micros) }
    {
        let pool = pool as usize;
        let table = Table::new(alloc, regions, pool, libraries, asks)?;
        let (space, sems) = room::lists_and_semaphores(alloc, pool, tasks)?;
        let ports = room::ports_of(alloc, pool)?;
        let (held, timer) = room::requests_and_timer(alloc, pool, tick_micros)?;
        Ok(Objects {
            table,
            space,
            ports,
            sems,
            requests: held,
            timer,
            tasks,
        })
    }

    /// What always holds of the objects. It costs nothing.
    pub fn facts(&self)
        ensures { IsKnown self.now }
    {
        let _ = &self.space;
        self.table.facts();
        self.ports.facts();
        self.sems.facts();
        self.requests.facts();
    }

    // ---- plain blocks

    /// A plain block of that many bytes, if one fits, at once or after libraries were asked for memory: its address.
    ///
    /// Source: autodoc exec.library/AllocMem; when libraries are asked: project rule.
    pub fn allocate(&mut self, size: u32, reqs: u32) -> Option<u32>
        ensures address { result ≡ place_for size reqs (after_asking size reqs (shown_memory self.old)) }
        ensures next { shown_memory self.new ≡ placed size Plain result (after_asking size reqs (shown_memory self.old)) }
    {
        self.table.allocate(size, reqs)
    }

    /// Frees the plain block that begins at an address, if the size names it.
    ///
    /// Source: autodoc exec.library/FreeMem; the refusal is a project rule.
    pub fn free(&mut self, address: u32, size: u32) -> bool
        ensures answer { result ≡ can_free address size self.old.table.memory.blocks }
        ensures freed { result ≡ true → self.new ≡ record self.old { table = record self.old.table { memory = without_block address self.old.table.memory } } }
        ensures kept { result ≡ false → self.new ≡ self.old }
    {
        self.table.free_plain(address, size)
    }

    /// How much memory there is.
    ///
    /// Source: autodoc exec.library/AvailMem.
    pub fn available(&self, reqs: u32) -> u32
        requires { IsTrue (not (asks 17 reqs && asks 19 reqs)) }
        ensures { result ≡ avail self.now.table.memory.regions self.now.table.memory.blocks reqs }
    {
        self.table.available(reqs)
    }

    // ---- numbers and addresses

    /// The number of the object of a kind that begins at an address, if one does. A call on objects begins here, and
    /// learns here what always holds of them.
    pub fn number_at(&self, kind: Kind, address: u32) -> Option<usize>
        ensures value { result ≡ number_at kind address self.now.table }
        ensures live { IfSome result (λ n. slot (places kind self.now) n ≡ Some address) }
        ensures known { IsKnown self.now }
    {
        self.facts();
        self.table.number_at(kind, address)
    }

    /// The address of a live object of a kind.
    pub fn address_of(&self, kind: Kind, number: usize) -> u32
        requires { IsSome (slot (places kind self.now) number) }
        ensures { slot (places kind self.now) number ≡ Some result }
    {
        self.table.address_of(kind, number).unwrap()
    }
}
