//! The machine as its callers see it: made from a machine file, started once, and given one event after another.
ghost use Rattle.std.specs.Prelude.{◌≡◌, ◌↔◌, ◌+◌, ℕ, true, false, sum_by, IfOk, IsOk};
ghost use Rattle.exectrace.specs.{Sink.Writes, Trace.printed, declared.sinks.SinkState.SinkState};
ghost use Rattle.script.specs.Events.{event_ticks};
ghost use Rattle.execmodel.specs.{State.State, State.booted, State.andthen, Step.starts, Step.event, Step.events};
ghost use Rattle.execsim.specs.{Advancing.Advances, Advancing.Ends, Agreement.Agrees, Headline.Acts, Headline.StaysFailed, Headline.Finishes, Headline.flow_of, Playing.Plays, Reached.QueuesAgree, Resetting.HasRoomFor, Time.HasTimeFor};

mod adding;
mod feeding;
mod queues;
mod readers;
mod waiting_lines;

use crate::boot::kernel_of;
use crate::kernel::Kernel;
pub use adding::AddFault;
use execlist::space::ListSpace;
use exectrace::sinks::written;
use exectrace::{Sink, Witness, WriteFault};
pub use readers::{MachineView, TaskView};
use script::{Event, MachineFile};
use std::alloc::{AllocError, Global};
use std::marker::Model;

/// Whether a machine goes on.
#[derive(Clone, Copy, PartialEq, Eq)]
pub enum Flow {
    /// It goes on.
    Going,
    /// An alert has stopped it for good.
    Alerted,
}

/// A machine over list spaces of the type S.
#[derive(Drop)]
pub struct Machine<S: ListSpace> {
    kernel: Kernel<S>,
    failed: bool,
    // If it is true, nothing is due, so that a plain word is a whole step.
    is_settled: bool,
}

impl<S: ListSpace> Model for Machine<S> {
    ghost use Rattle.std.specs.Prelude.{◌≡◌, true, false};
    ghost use Rattle.execsim.specs.{Headline.Shown, Resting.IsSettled, Time.IsKnown};

    ghost Value = { Shown };

    ghost view = { λ m. record { seen = m.kernel; failed = m.failed } };

    ghost invariant = { λ m. (m.failed ≡ false → IsKnown m.kernel) × (m.is_settled ≡ true → IsSettled m.kernel) };
}

/// Whether a machine goes on, by whether an alert has stopped it.
fn flow_for(stopped: bool) -> Flow
    ensures { result ≡ flow_of stopped }
{
    if stopped { Flow::Alerted } else { Flow::Going }
}

/// Answers whether a machine goes on, or notes that it has failed if the sink has failed.
fn flow_or_fault<W: Sink>(stopped: bool, failed: &mut bool, out: &W) -> Result<Flow, WriteFault>
    requires { failed.old ≡ false }
    ensures { Finishes stopped failed.new (W.tape out.now) result }
{
    match written(out) {
        Ok(()) => Ok(flow_for(stopped)),
        Err(fault) => {
            *failed = true;
            Err(fault)
        }
    }
}

/// Answers how many steps were done, or notes that a machine has failed if the sink has failed.
fn steps_or_fault<W: Sink>(steps: u32, failed: &mut bool, out: &W) -> Result<u32, WriteFault>
    requires { failed.old ≡ false }
    ensures { Ends steps failed.new (W.tape out.now) result }
{
    match written(out) {
        Ok(()) => Ok(steps),
        Err(fault) => {
            *failed = true;
            Err(fault)
        }
    }
}

impl<S: ListSpace> Machine<S> {
    /// Makes the machine that a file states, before its start.
    ///
    /// All room that the machine ever needs is made here: `start` and `event` take no memory.
    ///
    /// # Errors
    ///
    /// Memory is refused.
    pub fn boot(alloc: Global, file: &MachineFile) -> Result<Machine<S>, AllocError>
        ensures agrees { IfOk result (λ m. Agrees m.seen (booted file.now)) }
        ensures whole { IfOk result (λ m. m.failed ≡ false) }
        ensures time { IfOk result (λ m. HasTimeFor 1000000 m.seen) }
    {
        let kernel = kernel_of(alloc, file)?;
        Ok(Machine {
            kernel,
            failed: false,
            is_settled: false,
        })
    }

    /// Puts the machine back to its first state, that of a file before its start, if it was made of a file that is as
    /// large, and answers whether it was. No memory is taken, and the time grows with what the machine used, not with
    /// `pool`.
    ///
    /// A machine is as large if the file has the same regions and libraries, the same number of objects of each kind,
    /// as many tasks, software interrupts and servers, each with as many commands, and the same names, sources,
    /// priorities and claims of the interrupts. Of the same file it always is. If it is not, the machine has failed. A
    /// machine that has failed can be reset too.
    ///
    /// Source: project rule.
    pub fn reset(&mut self, file: &MachineFile) -> bool
        ensures answer { (result ≡ true) ↔ HasRoomFor file.now self.old.seen }
        ensures agrees { result ≡ true → Agrees self.new.seen (booted file.now) }
        ensures whole { result ≡ true → self.new.failed ≡ false }
        ensures time { result ≡ true → HasTimeFor 1000000 self.new.seen }
        ensures other { result ≡ false → self.new.failed ≡ true }
    {
        let is_reset = self.kernel.reset(file);
        self.failed = !is_reset;
        self.is_settled = false;
        is_reset
    }

    /// Starts the machine: its tasks are added in the order of the file, and it settles once. It is called once, before
    /// the first event, and once after each `reset`.
    ///
    /// The lines that the start prints are written to `out`, which is good unless the machine has failed.
    ///
    /// # Errors
    ///
    /// A write failed: a prefix of the lines was taken, the sink is then failed or has taken nothing 16 times in a row,
    /// and the machine has failed. What it holds then is of no account: a machine that has failed writes nothing and
    /// answers the same again.
    pub fn start<W: Sink>(&mut self, out: &mut W) -> Result<Flow, WriteFault>
        requires { self.old.failed ≡ false → (W.tape out.old).state ≡ SinkState.Good }
        ensures acts { self.old.failed ≡ false → Acts starts self.old self.new (W.tape out.old) (W.tape out.new) result }
        ensures time_left { self.old.failed ≡ false → IsOk result
            → (ticks : ℕ) → HasTimeFor ticks self.old.seen → HasTimeFor ticks self.new.seen }
        ensures good { IsOk result → (W.tape out.new).state ≡ SinkState.Good }
        ensures failed { self.old.failed ≡ true → StaysFailed self.old self.new (W.tape out.old) (W.tape out.new) result }
    {
        if self.failed {
            return Err(WriteFault);
        }
        self.is_settled = false;
        self.kernel.start(out);
        let stopped = self.kernel.is_stopped();
        flow_or_fault(stopped, &mut self.failed, out)
    }

    /// Does one event: that many steps or ticks, each followed by a settle, or a request of an interrupt, followed by
    /// one. After an alert nothing happens, and the answer is `Alerted`.
    ///
    /// The lines that the event prints are written to `out`, which is good unless the machine has failed. The sums of
    /// the clock are to stay below 2 to the power 64 microseconds: each tick adds the file's `tick_micros` to it, which
    /// a machine bears for a million ticks at least, and what system time and the time of a request add is less than 2
    /// to the power 54.
    ///
    /// # Errors
    ///
    /// As those of `start`. After a failed write the rest of the event is not simulated.
    pub fn event<W: Sink>(&mut self, one: Event, out: &mut W) -> Result<Flow, WriteFault>
        requires good { self.old.failed ≡ false → (W.tape out.old).state ≡ SinkState.Good }
        requires time { self.old.failed ≡ false → HasTimeFor (event_ticks one) self.old.seen }
        ensures acts { self.old.failed ≡ false → Acts (event one) self.old self.new (W.tape out.old) (W.tape out.new) result }
        ensures time_left { self.old.failed ≡ false → IsOk result
            → (ticks : ℕ) → HasTimeFor (event_ticks one + ticks) self.old.seen → HasTimeFor ticks self.new.seen }
        ensures good { IsOk result → (W.tape out.new).state ≡ SinkState.Good }
        ensures failed { self.old.failed ≡ true → StaysFailed self.old self.new (W.tape out.old) (W.tape out.new) result }
    {
        if self.failed {
            return Err(WriteFault);
        }
        self.is_settled = false;
        self.kernel.event(one, out);
        let stopped = self.kernel.is_stopped();
        flow_or_fault(stopped, &mut self.failed, out)
    }

    /// Does a step, and after it steps that print nothing: plain words of the running task, or those of an idle
    /// machine; at most `more` of these. The answer is how many these were, so one step more was done. It may be 0
    /// though the next step would print nothing.
    ///
    /// # Errors
    ///
    /// As those of `event`.
    ///
    /// Source: project rule.
    #[inline(always)]
    pub fn advance<W: Sink>(&mut self, more: u32, out: &mut W) -> Result<u32, WriteFault>
        requires going { self.old.failed ≡ false }
        requires good { (W.tape out.old).state ≡ SinkState.Good }
        ensures advances { Advances more self.old self.new (W.tape out.old) (W.tape out.new) result }
        ensures time_left { IsOk result → (ticks : ℕ) → HasTimeFor ticks self.old.seen → HasTimeFor ticks self.new.seen }
        ensures good { IsOk result → (W.tape out.new).state ≡ SinkState.Good }
    {
        let silent = self.kernel.advance(&mut self.is_settled, more, out);
        steps_or_fault(silent, &mut self.failed, out)
    }

    /// Does nothing: its clause is what always holds of a machine that has not failed. Just the running task has the
    /// state of one, and it waits for no semaphore; and exactly the tasks that wait for a semaphore are in its queue,
    /// each in one and once.
    pub fn facts(&self)
        ensures { self.now.failed ≡ false → QueuesAgree self.now.seen }
    {
        let _ = &self.kernel;
    }

    /// Plays a run: starts the machine, does one event after another, and says to `witness` what happens, as it
    /// happens.
    ///
    /// A witness that listens no more ends the run, and the machine has failed. After it the machine can be looked at.
    ///
    /// Source: project rule.
    pub fn play<W: Witness>(&mut self, list: &[Event], witness: &mut W) -> Flow
        requires going { self.old.failed ≡ false }
        requires listens { W.hearing.good (W.told witness.old) ≡ true }
        requires time { HasTimeFor (sum_by event_ticks list.now) self.old.seen }
        ensures { Plays W.hearing (andthen starts (events list.now)) self.old self.new (W.told witness.old) (W.told witness.new) result }
    {
        self.is_settled = false;
        self.kernel.start(witness);
        self.kernel.events(list, witness);
        self.failed = !witness.is_good();
        flow_for(self.kernel.is_stopped())
    }

    /// Starts the machine and does one event after another.
    pub(crate) fn run<W: Sink>(&mut self, list: &[Event], out: &mut W) -> Result<Flow, WriteFault>
        requires going { self.old.failed ≡ false }
        requires good { (W.tape out.old).state ≡ SinkState.Good }
        requires time { HasTimeFor (sum_by event_ticks list.now) self.old.seen }
        ensures { Acts (andthen starts (events list.now)) self.old self.new (W.tape out.old) (W.tape out.new) result }
    {
        self.is_settled = false;
        self.kernel.start(out);
        self.kernel.events(list, out);
        let stopped = self.kernel.is_stopped();
        flow_or_fault(stopped, &mut self.failed, out)
    }
}
