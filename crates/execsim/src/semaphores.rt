//! Signal semaphores: how they are made and freed, obtained and released. A semaphore is named by the address of its
//! block. The calls of `Heap` have the effects on memory; which task waits and which is made ready is done here.
ghost use Rattle.std.specs.Prelude.{◌≡◌, ◌<◌, [], if◌then◌else◌, IfOk, IfSome};
ghost use Rattle.execlist.specs.Disciplines.{by_priority};
ghost use Rattle.taskq.specs.{declared.TaskState.TaskState, declared.Why.Why};
ghost use Rattle.scheduler.specs.{Schedule.status_of, Schedule.waits_at_semaphore, Dispatch.arrives};
ghost use Rattle.sigsem.specs.Semaphores.{free_sem};
ghost use Rattle.execmodel.specs.Semaphores.{is_semaphore, is_tried_again, semaphore_size, does_semaphores, does_new_sem, does_free_sem, does_obtain_semaphore, does_attempt_semaphore, does_release_semaphore};
ghost use Rattle.execmodel.specs.{State.Semaphore, Calls.argument, Memory.placed, LowMemory.after_asking_for_object, Objects.place_for_object, Agreement.WaitsForNone};
ghost use Rattle.execsim.specs.{Callers.HasTask, Callers.Runs, Actions.obtains_or_alerted, Actions.passes_or_alerted, Agreement.Follows, Reached.IsInOrder, Reached.QueuesAgree, Views.call_view};

use crate::call::Call;
use crate::kernel::Kernel;
use execheap::Refusal;
use execlist::space::ListSpace;
use exectrace::Witness;
use script::SemaphoreWord;
use sigsem::semaphore::Obtained;
use taskq::TaskId;

/// What AttemptSemaphore answers: 1 for a task that has the semaphore, and else 0.
fn attempted(has: bool) -> u32
    ensures { result ≡ (if has then 1 else 0) }
{
    if has { 1 } else { 0 }
}

impl<S: ListSpace> Kernel<S> {
    // ---- made and freed

    /// A new semaphore, which no task owns, if there is room for one, at once or after libraries were asked for memory.
    fn make_semaphore(&mut self) -> Option<u32>
        ensures address { result ≡ place_for_object is_semaphore semaphore_size (after_asking_for_object is_semaphore semaphore_size self.old.memory) }
        ensures next { self.new ≡ record self.old {
          memory = placed semaphore_size (Semaphore free_sem []) result (after_asking_for_object is_semaphore semaphore_size self.old.memory);
        } }
    {
        self.memory.new_semaphore()
    }

    /// NewSem: answers the address of a new semaphore, which no task owns, or 0 (autodoc exec.library/InitSemaphore;
    /// that it takes the memory: project rule).
    #[tactic(auto, using(crate::proofs::Obtaining::semaphore_made))]
    fn new_sem<W: Witness>(&mut self, t: TaskId, call: &Call, out: &mut W)
        requires { HasTask t self.old }
        ensures { Follows W.hearing (does_new_sem t (call_view call.now)) self.old self.new (W.told out.old) (W.told out.new) }
    {
        let semaphore = self.make_semaphore();
        self.answer(t, call, semaphore.unwrap_or(0), out);
    }

    /// FreeSem semaphore: frees a semaphore. HANDLE if none begins there, SEM if a task owns it (project rule).
    fn free_sem<W: Witness>(&mut self, t: TaskId, call: &Call, out: &mut W)
        requires { HasTask t self.old }
        ensures { Follows W.hearing (does_free_sem t (call_view call.now)) self.old self.new (W.told out.old) (W.told out.new) }
    {
        let semaphore = call.number(0);
        let tried = self.memory.free_semaphore(semaphore);
        self.conclude(tried, t, call, out);
    }

    // ---- obtaining

    /// Whether task t has waited in the call that it tries.
    pub(crate) fn is_tried_again(&self, t: TaskId) -> bool
        requires { HasTask t self.now }
        ensures { result ≡ is_tried_again t self.now.scripts }
    {
        self.program(t).kept().is_some()
    }

    /// The running task waits for a semaphore.
    fn wait_at_semaphore(&mut self, t: TaskId)
        requires { Runs t self.old }
        ensures { self.new ≡ record self.old { schedule = waits_at_semaphore t self.old.schedule } }
    {
        self.sched.wait_sem();
    }

    /// A call by which task t asks for a semaphore: it is done if the task has it, else the task waits; or it is
    /// refused by its alert.
    fn obtains<W: Witness>(
        &mut self,
        tried: Result<Obtained, Refusal>,
        t: TaskId,
        call: &Call,
        out: &mut W,
    )
        requires known { HasTask t self.old }
        requires runs { Runs t self.old }
        ensures { Follows W.hearing (obtains_or_alerted tried (argument 0 (call_view call.now)) t (call_view call.now)) self.old self.new (W.told out.old) (W.told out.new) }
    {
        match tried {
            Ok(how) => match how {
                Obtained::Owner => self.end_call(t, call, out),
                Obtained::Waits => {
                    self.wait_at_semaphore(t);
                    self.waiting(t, call, out);
                }
            },
            Err(why) => self.refuse(why, t, call, out),
        }
    }

    /// ObtainSemaphore semaphore: a free semaphore is the caller's, with the count 1; the owner's count is one more;
    /// any other task waits, after those that asked before. The call of a task that has waited is complete. HANDLE if
    /// no semaphore begins there, SEM if the count would go past 32767 (autodoc exec.library/ObtainSemaphore; the
    /// alerts: project rule).
    fn obtain_semaphore<W: Witness>(&mut self, t: TaskId, call: &Call, out: &mut W)
        requires known { HasTask t self.old }
        requires runs { Runs t self.old }
        requires stopped { WaitsForNone t self.old.memory.heap }
        requires room { t < self.old.memory.tasks }
        ensures { Follows W.hearing (does_obtain_semaphore t (call_view call.now)) self.old self.new (W.told out.old) (W.told out.new) }
    {
        if self.is_tried_again(t) {
            self.end_call(t, call, out);
        } else {
            let semaphore = call.number(0);
            let tried = self.memory.obtain_semaphore(t, semaphore);
            self.obtains(tried, t, call, out);
        }
    }

    /// AttemptSemaphore semaphore: as ObtainSemaphore if no wait is needed, and answers 1; else nothing changes and the
    /// answer is 0. HANDLE if no semaphore begins there, SEM if the count would go past 32767 (autodoc
    /// exec.library/AttemptSemaphore; the alerts: project rule).
    fn attempt_semaphore<W: Witness>(&mut self, t: TaskId, call: &Call, out: &mut W)
        requires { HasTask t self.old }
        ensures { Follows W.hearing (does_attempt_semaphore t (call_view call.now)) self.old self.new (W.told out.old) (W.told out.new) }
    {
        let semaphore = call.number(0);
        match self.memory.attempt_semaphore(t, semaphore) {
            Ok(has) => self.answer(t, call, attempted(has), out),
            Err(why) => self.refuse(why, t, call, out),
        }
    }

    // ---- releasing

    /// A task that waits for a semaphore becomes ready.
    fn wake(&mut self, t: TaskId)
        requires { status_of self.old.schedule t ≡ TaskState.Waiting Why.Sem }
        ensures { self.new ≡ record self.old { schedule = arrives by_priority t self.old.schedule } }
    {
        self.sched.wake_sem(t);
    }

    /// A call that releases a semaphore: the new owner, if there is one, becomes ready; or the call is refused by its
    /// alert.
    fn passes<W: Witness>(
        &mut self,
        tried: Result<Option<TaskId>, Refusal>,
        t: TaskId,
        call: &Call,
        out: &mut W,
    )
        requires known { HasTask t self.old }
        requires waits { IfOk tried (λ heir. IfSome heir (λ owner. status_of self.old.schedule owner ≡ TaskState.Waiting Why.Sem)) }
        ensures { Follows W.hearing (passes_or_alerted tried (argument 0 (call_view call.now)) t (call_view call.now)) self.old self.new (W.told out.old) (W.told out.new) }
    {
        match tried {
            Ok(heir) => match heir {
                Some(owner) => {
                    self.wake(owner);
                    self.end_call(t, call, out);
                }
                None => self.end_call(t, call, out),
            },
            Err(why) => self.refuse(why, t, call, out),
        }
    }

    /// ReleaseSemaphore semaphore: the owner has to release the semaphore once less. The last release hands it on: the
    /// first of the tasks that wait there is the owner with the count 1, and ready; if none waits, no task owns it.
    /// HANDLE if no semaphore begins there, SEM if the caller does not own it (autodoc exec.library/ReleaseSemaphore;
    /// the alerts: project rule).
    fn release_semaphore<W: Witness>(&mut self, t: TaskId, call: &Call, out: &mut W)
        requires known { HasTask t self.old }
        requires agree { QueuesAgree self.old }
        ensures { Follows W.hearing (does_release_semaphore t (call_view call.now)) self.old self.new (W.told out.old) (W.told out.new) }
    {
        let semaphore = call.number(0);
        let tried = self.memory.release_semaphore(t, semaphore);
        self.passes(tried, t, call, out);
    }

    /// A call of task t on semaphores, by its word.
    pub(crate) fn does_semaphores<W: Witness>(
        &mut self,
        word: SemaphoreWord,
        t: TaskId,
        call: &Call,
        out: &mut W,
    )
        requires known { HasTask t self.old }
        requires runs { Runs t self.old }
        requires agree { IsInOrder self.old }
        ensures { Follows W.hearing (does_semaphores word t (call_view call.now)) self.old self.new (W.told out.old) (W.told out.new) }
    {
        match word {
            SemaphoreWord::NewSem => self.new_sem(t, call, out),
            SemaphoreWord::FreeSem => self.free_sem(t, call, out),
            SemaphoreWord::ObtainSemaphore => self.obtain_semaphore(t, call, out),
            SemaphoreWord::AttemptSemaphore => self.attempt_semaphore(t, call, out),
            SemaphoreWord::ReleaseSemaphore => self.release_semaphore(t, call, out),
        }
    }
}
