//! Signals of tasks.
ghost use Rattle.std.specs.Prelude.{◌≡◌, ◌-◌, true, nat_eq};
ghost use Rattle.std.specs.Int.{cast_signed, cast_unsigned, w32};
ghost use Rattle.execlist.specs.Disciplines.{by_priority};
ghost use Rattle.scheduler.specs.{Schedule.signals_of, Schedule.come_for, Schedule.after_wait, Schedule.allocates_signal, Schedule.frees_signal, Schedule.sets_signals, Dispatch.signalled};
ghost use Rattle.signals.specs.Signals.{grant, grant_number, is_own_signal};
ghost use Rattle.execmodel.specs.Signals.{is_mask, does_alloc_signal, does_free_signal, does_set_signal, does_signal_by, does_wait, does_signals};
ghost use Rattle.execsim.specs.{Callers.HasTask, Callers.Runs, Callers.HasCaller, Agreement.Follows, Views.call_view, Views.caller_view};

use crate::call::{Call, Caller};
use crate::kernel::Kernel;
use execlist::space::ListSpace;
use exectrace::Witness;
use script::{Alert, SignalWord};
use taskq::TaskId;

/// Whether the mask holds only signals that scripts may name: 12 to 31.
pub(crate) fn is_mask(mask: u32) -> bool
    ensures { result ≡ is_mask mask }
{
    mask & 0xfff == 0
}

/// Whether a number represents no signal: -1.
fn is_no_signal(n: u32) -> bool
    ensures { result ≡ nat_eq n 0xffffffff }
{
    n == 0xffff_ffff
}

/// Whether a signal is one of those that a task may allocate: 16 to 31.
fn is_own_signal(n: u32) -> bool
    ensures { result ≡ is_own_signal n }
{
    16 <= n && n < 32
}

impl<S: ListSpace> Kernel<S> {
    /// The running task allocates a signal; its number, or the word of -1 for none. The word of -1 asks for the highest
    /// free one.
    pub(crate) fn allocate_signal(&mut self, t: TaskId, asked: u32) -> u32
        requires { Runs t self.old }
        ensures answer { result ≡ cast_unsigned w32 (grant_number (grant (cast_signed w32 asked) (signals_of self.old.schedule t))) }
        ensures next { self.new ≡ record self.old { schedule = allocates_signal t (cast_signed w32 asked) self.old.schedule } }
    {
        self.sched.alloc_signal(asked.cast_signed()).cast_unsigned()
    }

    /// A signal of task t is not allocated any more.
    pub(crate) fn deallocate_signal(&mut self, t: TaskId, n: u32)
        requires known { HasTask t self.old }
        requires own { is_own_signal n ≡ true }
        ensures { self.new ≡ record self.old { schedule = frees_signal t n self.old.schedule } }
    {
        self.sched.free_signal(t, n);
    }

    /// The received signals of the mask become those of `new`, for the running task; its received signals before.
    pub(crate) fn change_signals(&mut self, t: TaskId, new: u32, mask: u32) -> u32
        requires { Runs t self.old }
        ensures answer { result ≡ (signals_of self.old.schedule t).received }
        ensures next { self.new ≡ record self.old { schedule = sets_signals t new mask self.old.schedule } }
    {
        self.sched.set_signal(new, mask)
    }

    /// AllocSignal a (autodoc exec.library/AllocSignal).
    #[tactic(auto, using(crate::proofs::Signalling::allocated))]
    fn alloc_signal<W: Witness>(&mut self, t: TaskId, call: &Call, out: &mut W)
        requires known { HasTask t self.old }
        requires runs { Runs t self.old }
        ensures { Follows W.hearing (does_alloc_signal t (call_view call.now)) self.old self.new (W.told out.old) (W.told out.new) }
    {
        let signal = self.allocate_signal(t, call.number(0));
        self.answer(t, call, signal, out);
    }

    /// FreeSignal a (autodoc exec.library/FreeSignal).
    fn free_signal<W: Witness>(&mut self, t: TaskId, call: &Call, out: &mut W)
        requires { HasTask t self.old }
        ensures { Follows W.hearing (does_free_signal t (call_view call.now)) self.old self.new (W.told out.old) (W.told out.new) }
    {
        let n = call.number(0);
        if is_no_signal(n) {
            self.end_call(t, call, out);
        } else if !is_own_signal(n) {
            self.alert(Alert::Mask, t, call, out);
        } else {
            self.deallocate_signal(t, n);
            self.end_call(t, call, out);
        }
    }

    /// SetSignal new mask (autodoc exec.library/SetSignal).
    fn set_signal<W: Witness>(&mut self, t: TaskId, call: &Call, out: &mut W)
        requires known { HasTask t self.old }
        requires runs { Runs t self.old }
        ensures { Follows W.hearing (does_set_signal t (call_view call.now)) self.old self.new (W.told out.old) (W.told out.new) }
    {
        let new = call.number(0);
        let mask = call.number(1);
        if !is_mask(mask) {
            self.alert(Alert::Mask, t, call, out);
        } else {
            let received = self.change_signals(t, new, mask);
            self.answer(t, call, received, out);
        }
    }

    /// Task t of the file, if it is live, receives the signals.
    pub(crate) fn signal_task(&mut self, t: TaskId, mask: u32)
        requires { HasTask t self.old }
        ensures { self.new ≡ record self.old { schedule = signalled by_priority t mask self.old.schedule } }
    {
        self.sched.signal(t, mask);
    }

    /// The running task takes signals of the mask, or waits for them.
    fn wait_for(&mut self, t: TaskId, mask: u32) -> Option<u32>
        requires { Runs t self.old }
        ensures answer { result ≡ come_for mask (signals_of self.old.schedule t) }
        ensures next { self.new ≡ record self.old { schedule = after_wait t mask self.old.schedule } }
    {
        self.sched.wait(mask)
    }

    /// Signal t mask: the task of that number receives the signals of the mask. HANDLE if there is no such task, MASK
    /// if the mask holds a signal that scripts may not name (autodoc exec.library/Signal; the alerts: project rule).
    pub(crate) fn signal<W: Witness>(&mut self, caller: &Caller, call: &Call, out: &mut W)
        requires { HasCaller caller.now self.old }
        ensures { Follows W.hearing (does_signal_by (caller_view caller.now) (call_view call.now)) self.old self.new (W.told out.old) (W.told out.new) }
    {
        let other = call.number(0);
        let mask = call.number(1);
        if !self.is_task(other) {
            self.alert_by(Alert::Handle, caller, call, out);
        } else if !is_mask(mask) {
            self.alert_by(Alert::Mask, caller, call, out);
        } else {
            self.signal_task(other as usize - 1, mask);
            self.end_call_by(caller, call, out);
        }
    }

    /// Wait mask (autodoc exec.library/Wait).
    fn wait<W: Witness>(&mut self, t: TaskId, call: &Call, out: &mut W)
        requires known { HasTask t self.old }
        requires runs { Runs t self.old }
        ensures { Follows W.hearing (does_wait t (call_view call.now)) self.old self.new (W.told out.old) (W.told out.new) }
    {
        let mask = call.number(0);
        if !is_mask(mask) {
            self.alert(Alert::Mask, t, call, out);
        } else {
            match self.wait_for(t, mask) {
                Some(common) => self.answer(t, call, common, out),
                None => self.waiting(t, call, out),
            }
        }
    }

    /// A call of task t on signals, by its word.
    #[tactic(auto, unfolding(execmodel::specs::Signals::does_signal))]
    pub(crate) fn does_signals<W: Witness>(
        &mut self,
        word: SignalWord,
        t: TaskId,
        call: &Call,
        out: &mut W,
    )
        requires known { HasTask t self.old }
        requires runs { Runs t self.old }
        ensures { Follows W.hearing (does_signals word t (call_view call.now)) self.old self.new (W.told out.old) (W.told out.new) }
    {
        match word {
            SignalWord::AllocSignal => self.alloc_signal(t, call, out),
            SignalWord::FreeSignal => self.free_signal(t, call, out),
            SignalWord::SetSignal => self.set_signal(t, call, out),
            SignalWord::Signal => self.signal(&Caller::Task(t), call, out),
            SignalWord::Wait => self.wait(t, call, out),
        }
    }
}
