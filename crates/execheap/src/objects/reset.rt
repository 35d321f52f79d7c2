//! How the objects of a memory that was used are put back to their first state.
ghost use Rattle.std.specs.Prelude.{◌≡◌, ◌↔◌, [], map, true};
ghost use Rattle.script.specs.Records.{library_view};
ghost use Rattle.timerdev.specs.Timing.{new_timer};
ghost use Rattle.execheap.specs.{Numbered.shown_library, Numbered.shown_memory, Resetting.IsAsLarge};

use crate::objects::Objects;
use execlist::space::ListSpace;
use memlist::Region;
use script::LibraryRecord;

impl<S: ListSpace> Objects<S> {
    /// Whether the memory has these regions, room for that many objects of each kind and for that many tasks, and these
    /// libraries.
    ///
    /// Source: project rule.
    pub fn is_as_large(
        &self,
        regions: &[Region],
        pool: u32,
        tasks: usize,
        libraries: &[LibraryRecord],
    ) -> bool
        ensures { (result ≡ true) ↔ IsAsLarge regions.now pool tasks (map library_view libraries.now) (shown_memory self.now) }
    {
        self.table.pool() == pool as usize
            && self.tasks == tasks
            && self.table.has_regions(regions)
            && self.table.knows(libraries)
    }

    /// Frees all, as `new` makes it: nothing is allocated, no object lives, no library is loaded, and the clock is at
    /// 0. Libraries are asked for memory or not, and the clock gains that many microseconds at each tick. It takes no
    /// memory, and the time grows with what was used.
    ///
    /// Source: project rule.
    pub fn reset(&mut self, asks: bool, tick_micros: u32)
        ensures { shown_memory self.new ≡ record {
          regions = self.old.table.memory.regions;
          libraries = map shown_library self.old.table.libs.known;
          asks = asks;
          pool = self.old.table.pool;
          tasks = self.old.tasks;
          heap = [];
          public = [];
          timer = new_timer tick_micros;
        } }
    {
        self.facts();
        let pool = self.table.pool();
        self.table.reset(asks);
        self.space.reset();
        self.ports.reset(pool);
        self.sems.reset();
        self.requests.reset();
        self.timer.reset(tick_micros);
    }
}
