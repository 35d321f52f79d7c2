//! Memory: blocks that AllocMem gives and FreeMem takes back.
ghost use Rattle.std.specs.Prelude.{◌≡◌, true, false};
ghost use Rattle.memlist.specs.Fit.{avail};
ghost use Rattle.script.specs.declared.word.memory.MemoryWord.TheVariants as words;
ghost use Rattle.execmodel.specs.{State.Plain, LowMemory.after_asking, Memory.block_at, Memory.can_be_asked, Memory.extents, Memory.freed, Memory.has_only, Memory.is_named, Memory.place_for, Memory.placed, Memory.does_memory};
ghost use Rattle.execsim.specs.{Callers.HasTask, Agreement.Follows, Views.call_view};

use crate::call::Call;
use crate::kernel::Kernel;
use execlist::space::ListSpace;
use exectrace::Witness;
use memlist::{MEMF_CHIP, MEMF_CLEAR, MEMF_FAST, MEMF_LARGEST, MEMF_PUBLIC, MEMF_TOTAL};
use script::{Alert, MemoryWord};
use taskq::TaskId;

/// What AllocMem may be asked for.
const ALLOC_BITS: u32 = MEMF_PUBLIC | MEMF_CHIP | MEMF_FAST | MEMF_CLEAR;

/// What AvailMem may be asked for.
const AVAIL_BITS: u32 = ALLOC_BITS | MEMF_LARGEST | MEMF_TOTAL;

/// Whether requirements have no other bits than these.
fn has_only(bits: u32, reqs: u32) -> bool
    ensures { result ≡ has_only bits reqs }
{
    reqs & bits == reqs
}

/// Whether AvailMem may be asked for this: not for the greatest gap and the installed size at once.
fn can_be_asked(reqs: u32) -> bool
    ensures { result ≡ can_be_asked reqs }
{
    has_only(AVAIL_BITS, reqs) && !(reqs & MEMF_LARGEST != 0 && reqs & MEMF_TOTAL != 0)
}

impl<S: ListSpace> Kernel<S> {
    /// A plain block of that many bytes, if one fits, at once or after libraries were asked for memory.
    fn allocate(&mut self, size: u32, reqs: u32) -> Option<u32>
        ensures answer { result ≡ place_for size reqs (after_asking size reqs self.old.memory) }
        ensures next { self.new ≡ record self.old { memory = placed size Plain result (after_asking size reqs self.old.memory) } }
    {
        self.memory.alloc_mem(size, reqs)
    }

    /// Frees the plain block that begins at an address, if the size names it.
    fn free(&mut self, address: u32, size: u32) -> bool
        ensures answer { result ≡ is_named size (block_at address self.old.memory.heap) }
        ensures freed { result ≡ true → self.new ≡ record self.old { memory = freed address self.old.memory } }
        ensures kept { result ≡ false → self.new ≡ self.old }
    {
        self.memory.free_mem(address, size)
    }

    /// How much memory there is.
    fn available(&self, reqs: u32) -> u32
        requires { can_be_asked reqs ≡ true }
        ensures { result ≡ avail self.now.memory.regions (extents self.now.memory.heap) reqs }
    {
        self.memory.avail(reqs)
    }

    /// AllocMem size reqs: answers the address of a plain block, or 0 if none fits, even after libraries were asked for
    /// memory, or the size is 0. VALUE if the requirements have other bits than MEMF_PUBLIC, MEMF_CHIP, MEMF_FAST and
    /// MEMF_CLEAR (autodoc exec.library/AllocMem; size 0, and the alert: project rule).
    fn alloc_mem<W: Witness>(&mut self, t: TaskId, call: &Call, out: &mut W)
        requires { HasTask t self.old }
        ensures { Follows W.hearing (does_memory words.AllocMem t (call_view call.now)) self.old self.new (W.told out.old) (W.told out.new) }
    {
        let size = call.number(0);
        let reqs = call.number(1);
        if !has_only(ALLOC_BITS, reqs) {
            self.alert(Alert::Value, t, call, out);
        } else {
            let place = self.allocate(size, reqs);
            self.answer(t, call, place.unwrap_or(0), out);
        }
    }

    /// FreeMem addr size (autodoc exec.library/FreeMem).
    fn free_mem<W: Witness>(&mut self, t: TaskId, call: &Call, out: &mut W)
        requires { HasTask t self.old }
        ensures { Follows W.hearing (does_memory words.FreeMem t (call_view call.now)) self.old self.new (W.told out.old) (W.told out.new) }
    {
        let address = call.number(0);
        let size = call.number(1);
        if self.free(address, size) {
            self.end_call(t, call, out);
        } else {
            self.alert(Alert::Mem, t, call, out);
        }
    }

    /// AvailMem reqs (autodoc exec.library/AvailMem).
    fn avail_mem<W: Witness>(&mut self, t: TaskId, call: &Call, out: &mut W)
        requires { HasTask t self.old }
        ensures { Follows W.hearing (does_memory words.AvailMem t (call_view call.now)) self.old self.new (W.told out.old) (W.told out.new) }
    {
        let reqs = call.number(0);
        if !can_be_asked(reqs) {
            self.alert(Alert::Value, t, call, out);
        } else {
            let answer = self.available(reqs);
            self.answer(t, call, answer, out);
        }
    }

    /// A call of task t on memory, by its word.
    pub(crate) fn does_memory<W: Witness>(
        &mut self,
        word: MemoryWord,
        t: TaskId,
        call: &Call,
        out: &mut W,
    )
        requires { HasTask t self.old }
        ensures { Follows W.hearing (does_memory word t (call_view call.now)) self.old self.new (W.told out.old) (W.told out.new) }
    {
        match word {
            MemoryWord::AllocMem => self.alloc_mem(t, call, out),
            MemoryWord::FreeMem => self.free_mem(t, call, out),
            MemoryWord::AvailMem => self.avail_mem(t, call, out),
        }
    }
}
