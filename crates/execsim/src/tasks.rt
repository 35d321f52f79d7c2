//! How tasks are begun and ended, and their priorities.
ghost use Rattle.std.specs.Prelude.{◌≡◌, ◌≢◌, ◌<◌, ◌≤◌, ℕ, length, Some, IsTrue, if◌then◌else◌, option_map};
ghost use Rattle.std.specs.Int.{cast_signed, cast_unsigned, w32};
ghost use Rattle.execlist.specs.{Lists.times, Disciplines.by_priority};
ghost use Rattle.taskq.specs.Tasks.{is_live, is_ready};
ghost use Rattle.scheduler.specs.{Schedule.status_of, Schedule.priority_of, Schedule.is_absent, Schedule.leaves, Schedule.task_removed, Dispatch.added, Dispatch.reprioritized};
ghost use Rattle.execmodel.specs.{State.on_heap, Semaphores.dropped, Tasks.is_live_task, Tasks.is_priority, Tasks.is_caller, Tasks.found_number, Tasks.does_set_task_pri, Tasks.does_add_task, Tasks.does_rem_task, Tasks.does_find_task, Tasks.does_tasks};
ghost use Rattle.execsim.specs.{Callers.HasTask, Callers.Runs, Agreement.Follows, Views.call_view};

use crate::call::Call;
use crate::kernel::Kernel;
use execlist::space::ListSpace;
use exectrace::{Name, Witness};
use script::{Alert, TaskWord};
use taskq::TaskId;

/// Whether a task may have the priority that the word is, read as a signed one.
pub(crate) fn is_priority(word: u32) -> bool
    ensures { result ≡ is_priority (cast_signed w32 word) }
{
    let pri = word.cast_signed();
    -128 <= pri && pri <= 127
}

/// Whether the number names task t itself: 0, or its own.
fn is_caller(t: TaskId, number: u32) -> bool
    ensures { result ≡ is_caller t number }
{
    number == 0 || number as usize - 1 == t
}

/// What AddTask answers: the number of a task that begins, and else 0.
fn begun(begins: bool, number: u32) -> u32
    ensures { result ≡ (if begins then number else 0) }
{
    if begins { number } else { 0 }
}

impl<S: ListSpace> Kernel<S> {
    /// Whether there is a live task of that number.
    fn is_live_task(&self, number: u32) -> bool
        ensures { result ≡ is_live_task number self.now.scripts self.now.schedule }
    {
        self.is_task(number) && self.sched.is_live(number as usize - 1)
    }

    /// Gives a task the priority that the word is, read as a signed one, and answers the old one as a word.
    fn set_pri(&mut self, t: TaskId, word: u32) -> u32
        requires known { HasTask t self.old }
        requires inside { IsTrue (is_priority (cast_signed w32 word)) }
        ensures answer { result ≡ cast_unsigned w32 (priority_of self.old.schedule t) }
        ensures next { self.new ≡ record self.old { schedule = reprioritized by_priority t (cast_signed w32 word) self.old.schedule } }
        ensures ready { (n : ℕ) → times n self.old.schedule.queue.ready ≡ (if is_ready (status_of self.old.schedule n) then 1 else 0) }
    {
        self.sched.facts();
        let pri = word.cast_signed() as i8;
        i32::from(self.sched.set_pri(t, pri)).cast_unsigned()
    }

    /// Begins a task that never was added, and answers whether it is one.
    pub(crate) fn add(&mut self, t: TaskId) -> bool
        requires { HasTask t self.old }
        ensures answer { result ≡ is_absent (status_of self.old.schedule t) }
        ensures next { self.new ≡ record self.old { schedule = added by_priority t self.old.schedule } }
    {
        self.sched.add(t)
    }

    /// Ends the running task.
    pub(crate) fn leave(&mut self, t: TaskId)
        requires { Runs t self.old }
        ensures { self.new ≡ record self.old { schedule = leaves t self.old.schedule } }
    {
        self.sched.leave();
    }

    /// Ends a live task that does not run; if it waits for a semaphore, it leaves that queue.
    fn remove_task(&mut self, t: TaskId)
        requires live { IsTrue (is_live (status_of self.old.schedule t)) }
        requires known { HasTask t self.old }
        requires stopped { self.old.schedule.running ≢ Some t }
        requires room { t < self.old.memory.tasks }
        ensures { self.new ≡ record self.old {
          schedule = task_removed t self.old.schedule;
          memory = on_heap (dropped t) self.old.memory;
        } }
    {
        self.memory.drop_waiter(t);
        self.sched.remove(t);
    }

    /// SetTaskPri task pri (autodoc exec.library/SetTaskPri).
    fn set_task_pri<W: Witness>(&mut self, t: TaskId, call: &Call, out: &mut W)
        requires { HasTask t self.old }
        ensures { Follows W.hearing (does_set_task_pri t (call_view call.now)) self.old self.new (W.told out.old) (W.told out.new) }
    {
        let other = call.number(0);
        let pri = call.number(1);
        if !self.is_live_task(other) {
            self.alert(Alert::Handle, t, call, out);
        } else if !is_priority(pri) {
            self.alert(Alert::Value, t, call, out);
        } else {
            let old = self.set_pri(other as usize - 1, pri);
            self.answer(t, call, old, out);
        }
    }

    /// AddTask task (autodoc exec.library/AddTask).
    fn add_task<W: Witness>(&mut self, t: TaskId, call: &Call, out: &mut W)
        requires { HasTask t self.old }
        ensures { Follows W.hearing (does_add_task t (call_view call.now)) self.old self.new (W.told out.old) (W.told out.new) }
    {
        let other = call.number(0);
        if !self.is_task(other) {
            self.alert(Alert::Handle, t, call, out);
        } else {
            let begins = self.add(other as usize - 1);
            self.answer(t, call, begun(begins, other), out);
        }
    }

    /// RemTask task (autodoc exec.library/RemTask).
    fn rem_task<W: Witness>(&mut self, t: TaskId, call: &Call, out: &mut W)
        requires known { HasTask t self.old }
        requires runs { Runs t self.old }
        requires room { length self.old.scripts.programs ≤ self.old.memory.tasks }
        ensures { Follows W.hearing (does_rem_task t (call_view call.now)) self.old self.new (W.told out.old) (W.told out.new) }
    {
        let other = call.number(0);
        if is_caller(t, other) {
            self.leave(t);
            self.end_call(t, call, out);
        } else if !self.is_live_task(other) {
            self.alert(Alert::Handle, t, call, out);
        } else {
            self.remove_task(other as usize - 1);
            self.end_call(t, call, out);
        }
    }

    /// The number of the live task of that name, or 0; if no name is given, that of task t.
    fn found_number(&self, t: TaskId, name: Option<Name>) -> u32
        requires { HasTask t self.now }
        ensures { result ≡ found_number t (option_map (λ n. n.bytes) name) self.now.schedule }
    {
        match name {
            None => t as u32 + 1,
            Some(name) => match self.sched.find(name.as_str()) {
                None => 0,
                Some(other) => other as u32 + 1,
            },
        }
    }

    /// FindTask name (autodoc exec.library/FindTask).
    #[tactic(auto, using(crate::proofs::Tasking::task_found))]
    fn find_task<W: Witness>(&mut self, t: TaskId, call: &Call, out: &mut W)
        requires { HasTask t self.old }
        ensures { Follows W.hearing (does_find_task t (call_view call.now)) self.old self.new (W.told out.old) (W.told out.new) }
    {
        let answer = self.found_number(t, call.name(0));
        self.answer(t, call, answer, out);
    }

    /// A call of task t on tasks, by its word.
    pub(crate) fn does_tasks<W: Witness>(
        &mut self,
        word: TaskWord,
        t: TaskId,
        call: &Call,
        out: &mut W,
    )
        requires known { HasTask t self.old }
        requires runs { Runs t self.old }
        requires room { length self.old.scripts.programs ≤ self.old.memory.tasks }
        ensures { Follows W.hearing (does_tasks word t (call_view call.now)) self.old self.new (W.told out.old) (W.told out.new) }
    {
        match word {
            TaskWord::SetTaskPri => self.set_task_pri(t, call, out),
            TaskWord::AddTask => self.add_task(t, call, out),
            TaskWord::RemTask => self.rem_task(t, call, out),
            TaskWord::FindTask => self.find_task(t, call, out),
        }
    }
}
