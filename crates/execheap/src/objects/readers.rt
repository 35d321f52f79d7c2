//! What is seen of the memory, of the objects in it and of the timer, by number and by address. Nothing here changes
//! any of them.
ghost use Rattle.std.specs.Prelude.{◌≡◌, slice_get, option_map};
ghost use Rattle.execlist.specs.Lists.{key_at};
ghost use Rattle.memlist.specs.Readers.{gap_from as first_from, gaps_in};
ghost use Rattle.execmodel.specs.Memory.{block_at};
ghost use Rattle.execheap.specs.{BlockViews.block_view, BlockViews.object_view, BlockViews.port_view, Queues.gap_from, Numbered.object_of, Numbered.shown_heap, Numbered.shown_tagged};
ghost use Rattle.msgport.specs.Ports.{port_at};

use crate::heap::Heap;
use crate::objects::Objects;
use crate::tag::{Kind, Tagged};
use crate::view::{BlockView, LibraryView, ObjectView, PortView};
use execlib::libs::LibId;
use execlist::space::{ListSpace, NodeId};
use memlist::{Gap, Region};
use msgport::ports::PortId;

impl<S: ListSpace> Objects<S> {
    /// What is seen of the block that begins at an address, if one does.
    ///
    /// Source: project rule.
    pub fn block(&self, address: u32) -> Option<BlockView>
        ensures { result ≡ option_map block_view (block_at address (shown_heap self.now)) }
    {
        match self.table.begins_at(address) {
            None => None,
            Some((size, begins)) => Some(BlockView {
                size,
                object: self.view_of(begins),
            }),
        }
    }

    /// The lowest gap of a region that begins at an address or above it.
    ///
    /// Source: RKM Libraries, Exec Memory Allocation: MemChunk.
    pub fn gap_from(&self, k: usize, address: u32) -> Option<Gap>
        ensures { result ≡ first_from address (gaps_in (slice_get self.now.table.memory.regions k) self.now.table.memory.blocks) }
    {
        self.table.gap_from(k, address)
    }

    // What is seen of what begins at a block.
    fn view_of(&self, begins: Tagged) -> ObjectView
        ensures { result ≡ object_view (shown_tagged self.now begins) }
    {
        match begins {
            Tagged::Plain => ObjectView::Plain,
            Tagged::Object(kind, n) => self.object_view(kind, n),
            Tagged::Library(i) => ObjectView::Library(self.library_view(i)),
        }
    }

    // What is seen of an object by its kind and its number.
    fn object_view(&self, kind: Kind, n: usize) -> ObjectView
        ensures { result ≡ object_view (object_of kind n self.now) }
    {
        match kind {
            Kind::List => ObjectView::List,
            Kind::Node => ObjectView::Node(self.node_pri(n)),
            Kind::Port => ObjectView::Port(self.port_view(n)),
            Kind::Message => ObjectView::Message(self.ports.message_at(n)),
            Kind::Semaphore => ObjectView::Semaphore(self.sems.sem_at(n)),
            Kind::Request => ObjectView::Request(self.requests.request_at(n)),
        }
    }

    // The priority of a node; 0 if there is none of that number.
    fn node_pri(&self, n: NodeId) -> i8
        ensures { result ≡ (key_at self.now.keys n).pri }
    {
        self.facts();
        if n < self.table.pool() {
            self.space.pri(n)
        } else {
            0
        }
    }

    // What is seen of a port.
    fn port_view(&self, p: PortId) -> PortView
        ensures { result ≡ port_view (port_at p self.now.ports) }
    {
        let port = self.ports.port_at(p);
        let (task, signal) = port.owner();
        PortView {
            task,
            signal,
            action: port.action(),
        }
    }

    // What is seen of a library.
    fn library_view(&self, i: LibId) -> LibraryView
        ensures { ObjectView.Library result ≡ object_view (shown_tagged self.now (Tagged.Library i)) }
    {
        match self.table.loaded_at(i) {
            None => LibraryView {
                number: i,
                count: 0,
                is_delayed: false,
            },
            Some(loaded) => LibraryView {
                number: i,
                count: loaded.count,
                is_delayed: loaded.delayed_expunge,
            },
        }
    }
}

impl<S: ListSpace> Heap<S> {
    // ---- memory

    /// A region, by its place in the machine's file; none past the last.
    ///
    /// Source: RKM Libraries, Exec Memory Allocation: MemHeader.
    pub fn region(&self, k: usize) -> Option<Region>
        ensures { result ≡ slice_get self.now.regions k }
    {
        self.objects.table.region(k)
    }

    /// The lowest gap of a region that begins at an address or above it; none if there is none, and past the last
    /// region.
    ///
    /// Source: RKM Libraries, Exec Memory Allocation: MemChunk.
    pub fn gap_from(&self, k: usize, address: u32) -> Option<Gap>
        ensures { result ≡ gap_from k address self.now }
    {
        self.objects.gap_from(k, address)
    }

    /// What is seen of the block that begins at an address, if one does.
    ///
    /// Source: project rule.
    pub fn block(&self, address: u32) -> Option<BlockView>
        ensures { result ≡ option_map block_view (block_at address self.now.heap) }
    {
        self.objects.block(address)
    }

    // ---- the timer

    /// What the clock shows, in microseconds.
    ///
    /// Source: RKM Devices, timer device: UNIT_VBLANK; that the clock begins at 0 and counts ticks alone: project rule.
    pub fn clock(&self) -> u64
        ensures { result ≡ self.now.timer.clock }
    {
        self.objects.timer.now()
    }

    /// System time, in microseconds.
    ///
    /// Source: autodoc timer.device: TR_GETSYSTIME.
    pub fn system_time(&self) -> u64
        ensures { result ≡ self.now.timer.system }
    {
        self.objects.timer.sys_now()
    }
}
