//! The running task, its quantum, and the signals and the nesting of each task. A `Sched` decides which task runs; what
//! a task does while it runs is not kept here. Its calls on signals are in `task_signals`, and those of Forbid and
//! Disable in `nesting`.
#![tactic(auto)]

ghost use Rattle.std.specs.Prelude.{◌≡◌, ◌≢◌, ℕ, ◌<◌, ◌≤◌, ◌+◌, [], ◌∷◌, ◌++◌, length, slice_set, map, if◌then◌else◌, Some, None, IsTrue, IsSome, IfSome, IfOk};
ghost use Rattle.execlist.specs.{Lists.times, Order.enqueue, Disciplines.by_priority, Disciplines.pri_at};
ghost use Rattle.taskq.specs.Tasks.{state_at, is_live, is_ready};
ghost use Rattle.signals.specs.Signals.{initial_sets};
ghost use Rattle.forbid.specs.Nesting.{initial_nesting};
ghost use Rattle.scheduler.specs.Schedule.{task_count, task_name, priority_of, status_of, unstarted, is_absent, leaves, task_removed, found, switch_for, IsToOneOf, takes_over, begins, renewed, quantum_ticked, waits_at_semaphore, is_at_semaphore};
ghost use Rattle.scheduler.specs.{Dispatch.arrives, Dispatch.displaced, Dispatch.switch_of, Dispatch.after_switch, Dispatch.rescheduled, Dispatch.added, Dispatch.reprioritized, Sound.is_stopped, Sound.IsToReady, Settled.begins_anew, Settled.stays, Joining.joined_by};

mod nesting;
mod status;
mod task_signals;

use execlist::key::Name;
use execlist::space::ListSpace;
use forbid::Nest;
use signals::SigState;
pub use status::TaskStatus;
use std::alloc::{AllocError, Global};
use std::marker::Model;
use taskq::{TaskId, TaskInit, TaskQ, TaskState, Why};

/// What a machine turns to: another task, or nothing.
#[derive(Clone, Copy)]
pub enum Switch {
    /// This task runs from now on.
    To(TaskId),
    /// No task is ready, and the machine is idle from now on.
    Idle,
}

/// The tasks of a machine, the running one of them, and each one's signals and nesting.
///
/// All room is made by `new` and `with_new_task`; no other call takes memory. Source: RKM Libraries, Exec Tasks.
#[derive(Drop)]
pub struct Sched<S: ListSpace> {
    queue: TaskQ<S>,
    running: Option<TaskId>,
    signals: Vec<SigState>,
    nests: Vec<Nest>,
    quantum: u8,
    left: u8,
    idle: bool,
    // That `reschedule` found nothing to do, and nothing has changed since.
    settled: bool,
}

impl<S: ListSpace> Model for Sched<S> {
    ghost use Rattle.std.specs.Prelude.{◌≡◌, true, if◌then◌else◌};
    ghost use Rattle.scheduler.specs.{Schedule.Schedule, Sound.IsSoundSchedule, Settled.is_settled};

    ghost Value = { Schedule };

    ghost view = { λ s. record {
      queue = s.queue;
      running = s.running;
      signals = s.signals.items;
      nestings = s.nests.items;
      quantum = s.quantum;
      left = s.left;
      idle = s.idle;
    } };

    ghost invariant = { λ s. IsSoundSchedule s.queue.states s.running s.signals.items s.nests.items
        × ((if s.settled then is_settled (record {
          queue = s.queue;
          running = s.running;
          signals = s.signals.items;
          nestings = s.nests.items;
          quantum = s.quantum;
          left = s.left;
          idle = s.idle;
        }) else true) ≡ true) };
}

impl<S: ListSpace> Sched<S> {
    /// Makes the schedule of tasks of these names and first priorities, at most 4,096, numbered in the order
    /// given. `quantum` is the length of a full quantum, in servings of VERTB.
    ///
    /// No task was added, none runs, and the machine was not yet reported as idle. Each task has the signals and
    /// the nesting of one that begins. An error means that memory is refused.
    ///
    /// Source: RKM Libraries, Exec Tasks. Project rule: the quantum in servings.
    pub fn new(alloc: Global, tasks: &[TaskInit], quantum: u8) -> Result<Self, AllocError>
        requires { length tasks.now ≤ 4096 }
        ensures { IfOk result (λ s. s ≡ unstarted (length tasks.now) (map (λ t. t.pri) tasks.now)
            (map (λ t. t.name.bytes) tasks.now) quantum) }
    {
        let queue = TaskQ::new(alloc, tasks)?;
        let signals = Vec::from_elem(alloc, SigState::new(), tasks.len())?;
        let nests = Vec::from_elem(alloc, Nest::new(), tasks.len())?;
        Ok(Sched {
            queue,
            running: None,
            signals,
            nests,
            quantum,
            left: 0,
            idle: false,
            settled: false,
        })
    }

    /// Makes the same schedule with one more task after the others, which was never added; this one stays. At most
    /// 4,096 tasks will be there. An error means that memory is refused.
    ///
    /// Source: project rule.
    pub fn with_new_task(&self, alloc: Global, task: TaskInit) -> Result<Self, AllocError>
        requires { task_count self.now + 1 ≤ 4096 }
        ensures { IfOk result (λ s. s ≡ joined_by task.pri task.name.bytes self.now) }
    {
        let queue = self.queue.with_new_task(alloc, task)?;
        let signals = self.signals_with_new(alloc)?;
        let nests = self.nests_with_new(alloc)?;
        Ok(Sched {
            queue,
            running: self.running,
            signals,
            nests,
            quantum: self.quantum,
            left: self.left,
            idle: self.idle,
            settled: false,
        })
    }

    /// The signals of each task, and of one more, to which none was sent.
    fn signals_with_new(&self, alloc: Global) -> Result<Vec<SigState>, AllocError>
        ensures { IfOk result (λ v. v.items ≡ self.now.signals ++ initial_sets ∷ []) }
    {
        let mut signals = Vec::from_slice(alloc, &self.signals)?;
        signals.push(SigState::new())?;
        Ok(signals)
    }

    /// The nesting of each task, and of one more, which has forbidden and disabled nothing.
    fn nests_with_new(&self, alloc: Global) -> Result<Vec<Nest>, AllocError>
        ensures { IfOk result (λ v. v.items ≡ self.now.nestings ++ initial_nesting ∷ []) }
    {
        let mut nests = Vec::from_slice(alloc, &self.nests)?;
        nests.push(Nest::new())?;
        Ok(nests)
    }

    /// Makes the schedule as `new` made it, with these names, first priorities and full quantum: of as many tasks as
    /// there are.
    ///
    /// Source: project rule.
    pub fn reset(&mut self, tasks: &[TaskInit], quantum: u8)
        requires { length tasks.now ≡ task_count self.old }
        ensures { self.new ≡ unstarted (length tasks.now) (map (λ t. t.pri) tasks.now)
            (map (λ t. t.name.bytes) tasks.now) quantum }
    {
        self.queue.reset(tasks);
        self.running = None;
        self.signals.fill(SigState::new());
        self.nests.fill(Nest::new());
        self.quantum = quantum;
        self.left = 0;
        self.idle = false;
        self.settled = false;
    }

    /// Answers the running task, or none.
    ///
    /// Source: RKM Libraries, Exec Tasks: `ThisTask`.
    pub fn running(&self) -> Option<TaskId>
        ensures value { result ≡ self.now.running }
        ensures known { IfSome result (λ t. t < task_count self.now) }
        ensures runs { IfSome result (λ t. status_of self.now t ≡ TaskState.Running) }
    {
        // While it runs it is not among the ready ones.
        self.running
    }

    // The running task, which there is.
    fn runner(&self) -> TaskId
        requires { IsSome self.now.running }
        ensures value { self.now.running ≡ Some result }
        ensures known { result < task_count self.now }
        ensures runs { status_of self.now result ≡ TaskState.Running }
    {
        match self.running {
            Some(t) => t,
            None => unreachable!(),
        }
    }

    /// Answers whether a task was added and has not ended.
    ///
    /// Source: RKM Libraries, Exec Tasks: task states.
    pub fn is_live(&self, t: TaskId) -> bool
        requires { t < task_count self.now }
        ensures { result ≡ is_live (status_of self.now t) }
    {
        self.queue.is_live(t)
    }

    /// Answers the state of a task.
    ///
    /// Source: RKM Libraries, Exec Tasks: task states.
    pub fn state(&self, t: TaskId) -> TaskState
        requires { t < task_count self.now }
        ensures { result ≡ status_of self.now t }
    {
        self.queue.state(t)
    }

    /// Does nothing: its clauses are what always holds of the ready sequence, in which a ready task is once, and
    /// any other not at all, and of the priorities, of which each task has one.
    pub fn facts(&self)
        ensures ready { (t : ℕ) → times t self.now.queue.ready ≡ (if is_ready (status_of self.now t) then 1 else 0) }
        ensures pris { length self.now.queue.pris ≡ task_count self.now }
    {
        self.queue.facts();
    }

    /// Lends the name of a task.
    ///
    /// Source: RKM Libraries, Exec Tasks: `ln_Name`.
    pub fn name(&self, t: TaskId) -> &Name
        requires { t < task_count self.now }
        ensures { result.now.bytes ≡ task_name self.now t }
    {
        self.queue.name(t)
    }

    /// Answers the live task of that name, or none. Names compare byte for byte; if several live tasks have
    /// the name, the first in the order of their numbers is answered.
    ///
    /// Source: autodoc exec.library/FindTask.
    #[tactic(auto, unfolding(crate::specs::Schedule::found))]
    pub fn find(&self, name: &str) -> Option<TaskId>
        ensures value { result ≡ found name.now self.now }
        ensures known { IfSome result (λ t. t < task_count self.now) }
        ensures live { IfSome result (λ t. IsTrue (is_live (status_of self.now t))) }
    {
        self.queue.find(name)
    }
}

/// How a task is added and ends, and its priority.
impl<S: ListSpace> Sched<S> {
    /// Adds a task that never was added, which then is ready, and answers true; for any other it changes
    /// nothing and answers false.
    ///
    /// Source: autodoc exec.library/AddTask. Project rule: a task that was removed is not added again.
    #[tactic(auto, unfolding(crate::specs::Dispatch::added))]
    pub fn add(&mut self, t: TaskId) -> bool
        requires { t < task_count self.old }
        ensures answer { result ≡ is_absent (status_of self.old t) }
        ensures next { self.new ≡ added by_priority t self.old }
        ensures tasks { task_count self.new ≡ task_count self.old }
    {
        if let TaskState::Absent = self.queue.state(t) {
            self.arrive(t);
            true
        } else {
            false
        }
    }

    // Makes a task ready that neither is ready, nor runs, nor has ended.
    fn arrive(&mut self, t: TaskId)
        requires known { t < task_count self.old }
        requires stopped { IsTrue (is_stopped (status_of self.old t)) }
        ensures next { self.new ≡ arrives by_priority t self.old }
        ensures tasks { task_count self.new ≡ task_count self.old }
    {
        self.settled = false;
        self.queue.make_ready(t);
    }

    /// Ends the running task for good; no task runs then. The next `reschedule` chooses another one.
    ///
    /// Source: autodoc exec.library/RemTask.
    pub fn leave(&mut self)
        requires { IsSome self.old.running }
        ensures next { IfSome self.old.running (λ t. self.new ≡ leaves t self.old) }
        ensures tasks { task_count self.new ≡ task_count self.old }
    {
        let t = self.runner();
        self.retire(t);
    }

    // Ends the running task, which is not among the ready ones.
    fn retire(&mut self, r: TaskId)
        requires { self.old.running ≡ Some r }
        ensures next { self.new ≡ leaves r self.old }
        ensures tasks { task_count self.new ≡ task_count self.old }
    {
        self.settled = false;
        self.queue.facts();
        self.queue.remove(r);
        self.running = None;
    }

    /// Ends a live task for good that does not run.
    ///
    /// Source: autodoc exec.library/RemTask.
    pub fn remove(&mut self, t: TaskId)
        requires live { IsTrue (is_live (status_of self.old t)) }
        requires stopped { self.old.running ≢ Some t }
        ensures next { self.new ≡ task_removed t self.old }
        ensures tasks { task_count self.new ≡ task_count self.old }
    {
        self.settled = false;
        self.queue.remove(t);
    }

    /// Gives a task another priority (-128 to 127) and answers the old one. A ready task arrives anew, also
    /// if the priority stays; no switch is made.
    ///
    /// Source: autodoc exec.library/SetTaskPri. Project rule: that a ready task arrives anew.
    pub fn set_pri(&mut self, t: TaskId, pri: i8) -> i8
        requires { t < task_count self.old }
        ensures answer { result ≡ priority_of self.old t }
        ensures next { self.new ≡ reprioritized by_priority t pri self.old }
        ensures tasks { task_count self.new ≡ task_count self.old }
    {
        self.settled = false;
        self.queue.set_pri(t, pri)
    }
}

/// Which task runs, and for how long.
impl<S: ListSpace> Sched<S> {
    /// Lets another task run, or the machine be idle, if that is due, and answers what the machine turned
    /// to.
    ///
    /// If no task runs, the first ready task does, and if there is none the machine is idle, which is answered once. A
    /// running task that allows switching is pre-empted by a ready one of higher priority, and by one of equal priority
    /// if its quantum has ended; it then is ready, after those of its priority. A quantum that has ended otherwise
    /// begins anew. A task that begins to run has a full quantum.
    ///
    /// Source: RKM Libraries, Exec Tasks: task scheduling. Project rule: when a quantum begins.
    #[inline(always)]
    pub fn reschedule(&mut self) -> Option<Switch>
        ensures answer { result ≡ switch_of by_priority self.old }
        ensures next { self.new ≡ rescheduled by_priority self.old }
        ensures known { IsToOneOf result (task_count self.new) }
        ensures tasks { task_count self.new ≡ task_count self.old }
    {
        if self.settled { None } else { self.decide() }
    }

    // Does what `reschedule` does if something may have changed, and finds out whether that was nothing.
    #[inline(always)]
    fn decide(&mut self) -> Option<Switch>
        ensures answer { result ≡ switch_of by_priority self.old }
        ensures next { self.new ≡ rescheduled by_priority self.old }
        ensures known { IsToOneOf result (task_count self.new) }
        ensures tasks { task_count self.new ≡ task_count self.old }
    {
        let switch = self.due_switch();
        if self.stays(switch) {
            self.settled = true;
        } else {
            self.turn(switch);
        }
        switch
    }

    // Whether that switch, if it is due, is none, and no quantum begins anew.
    fn stays(&self, switch: Option<Switch>) -> bool
        ensures { result ≡ stays switch self.now }
    {
        match switch {
            None => !self.begins_anew(),
            Some(_) => false,
        }
    }

    // Whether the running task's quantum has ended and switching is allowed.
    fn begins_anew(&self) -> bool
        ensures { result ≡ begins_anew self.now.running self.now }
    {
        self.left == 0 && self.running.is_some() && self.may_switch()
    }

    // The switch that is due, if any.
    fn due_switch(&self) -> Option<Switch>
        ensures value { result ≡ switch_of by_priority self.now }
        ensures ready { IsToReady result self.now.queue.states }
    {
        match self.queue.pick() {
            None => self.due_idling(),
            Some(t) => {
                if self.gives_way(t) {
                    Some(Switch::To(t))
                } else {
                    None
                }
            }
        }
    }

    // Whether ready task `t`, which is chosen, is to run now.
    fn gives_way(&self, t: TaskId) -> bool
        requires { t < task_count self.now }
        ensures { switch_for self.now.running (Some t) self.now
            ≡ (if result then Some (Switch.To t) else None) }
    {
        match self.running {
            None => true,
            Some(r) => self.allows_switch(r) && self.takes_over(t, r),
        }
    }

    // Being idle, if no task is ready and none runs, and the machine is not idle yet.
    fn due_idling(&self) -> Option<Switch>
        ensures value { result ≡ switch_for self.now.running None self.now }
        ensures ready { IsToReady result self.now.queue.states }
    {
        if self.running.is_some() || self.idle {
            None
        } else {
            Some(Switch::Idle)
        }
    }

    // Whether ready task `t` takes the place of running task `r`.
    fn takes_over(&self, t: TaskId, r: TaskId) -> bool
        requires ready_known { t < task_count self.now }
        requires running_known { r < task_count self.now }
        ensures { result ≡ takes_over t r self.now }
    {
        let own = self.queue.pri(r);
        let other = self.queue.pri(t);
        own < other || (own <= other && self.left == 0)
    }

    // Makes a switch, or if there is none lets a quantum that has ended begin anew.
    #[inline(never)]
    fn turn(&mut self, switch: Option<Switch>)
        requires { IsToReady switch self.old.queue.states }
        ensures next { self.new ≡ after_switch by_priority switch self.old }
        ensures tasks { task_count self.new ≡ task_count self.old }
    {
        match switch {
            None => self.renew(),
            Some(due) => self.make_switch(due),
        }
    }

    // Makes a switch.
    fn make_switch(&mut self, switch: Switch)
        requires { IsToReady (Some switch) self.old.queue.states }
        ensures next { self.new ≡ after_switch by_priority (Some switch) self.old }
        ensures tasks { task_count self.new ≡ task_count self.old }
    {
        match switch {
            Switch::Idle => {
                self.settled = false;
                self.idle = true;
            }
            Switch::To(t) => {
                self.displace();
                self.begin(t);
            }
        }
    }

    // Makes the running task ready, if any, so that no task runs.
    fn displace(&mut self)
        ensures next { self.new ≡ record (displaced by_priority self.old.running self.old) { running = None } }
        ensures tasks { task_count self.new ≡ task_count self.old }
    {
        if let Some(r) = self.running {
            self.settled = false;
            put_back(&mut self.queue, r);
            self.running = None;
        }
    }

    // Lets a ready task run if no task runs.
    fn begin(&mut self, t: TaskId)
        requires ready { status_of self.old t ≡ TaskState.Ready }
        requires vacant { self.old.running ≡ None }
        ensures next { self.new ≡ begins t self.old }
        ensures tasks { task_count self.new ≡ task_count self.old }
    {
        self.settled = false;
        self.queue.run(t);
        self.running = Some(t);
        self.left = self.quantum;
        self.idle = false;
    }

    // Lets the running task's quantum begin anew if it has ended and switching is allowed.
    fn renew(&mut self)
        ensures next { self.new ≡ renewed self.old.running self.old }
        ensures tasks { task_count self.new ≡ task_count self.old }
    {
        if self.begins_anew() {
            self.settled = false;
            self.left = self.quantum;
        }
    }

    /// Counts one serving of VERTB against the quantum of the running task, which does not go below zero. If
    /// no task runs nothing changes.
    ///
    /// Source: RKM Libraries, Exec Tasks: task scheduling. Project rule: the quantum in servings.
    #[tactic(auto, unfolding(crate::specs::Schedule::quantum_ticked))]
    pub fn quantum_tick(&mut self)
        ensures next { self.new ≡ quantum_ticked self.old }
        ensures tasks { task_count self.new ≡ task_count self.old }
    {
        if self.running.is_some() {
            self.settled = false;
            self.left = self.left.saturating_sub(1);
        }
    }
}

/// Waiting for a semaphore.
impl<S: ListSpace> Sched<S> {
    /// The running task waits for a semaphore: no task runs. Its signals stay as they are. As after `wait`, Forbid and
    /// Disable of the waiting task hold again when it runs again.
    ///
    /// Source: autodoc exec.library/ObtainSemaphore.
    pub fn wait_sem(&mut self)
        requires { IsSome self.old.running }
        ensures next { IfSome self.old.running (λ t. self.new ≡ waits_at_semaphore t self.old) }
        ensures tasks { task_count self.new ≡ task_count self.old }
    {
        let t = self.runner();
        self.wait_at_semaphore(t);
    }

    // Lets the running task wait for a semaphore.
    fn wait_at_semaphore(&mut self, t: TaskId)
        requires { self.old.running ≡ Some t }
        ensures next { self.new ≡ waits_at_semaphore t self.old }
        ensures tasks { task_count self.new ≡ task_count self.old }
    {
        self.settled = false;
        self.queue.block(t, Why::Sem);
        self.running = None;
    }

    /// Makes a task ready that waits for a semaphore, after the ready ones of its priority. Its signals stay.
    ///
    /// Source: autodoc exec.library/ReleaseSemaphore.
    pub fn wake_sem(&mut self, t: TaskId)
        requires { status_of self.old t ≡ TaskState.Waiting Why.Sem }
        ensures next { self.new ≡ arrives by_priority t self.old }
        ensures tasks { task_count self.new ≡ task_count self.old }
    {
        // The running task, if any, goes on: no switch is made.
        self.arrive(t);
    }

    /// Answers whether a task waits for a semaphore.
    ///
    /// Source: autodoc exec.library/ObtainSemaphore.
    pub fn is_at_semaphore(&self, t: TaskId) -> bool
        requires { t < task_count self.now }
        ensures { result ≡ is_at_semaphore (status_of self.now t) }
    {
        match self.queue.state(t) {
            TaskState::Waiting(Why::Sem) => true,
            _ => false,
        }
    }
}

// Makes a running task ready, as one that arrives: after the ready ones of its priority.
#[tactic(auto, using(crate::proofs::ScheduleLemmas::is_known))]
fn put_back<S: ListSpace>(queue: &mut TaskQ<S>, r: TaskId)
    requires { state_at queue.old.states r ≡ TaskState.Running }
    ensures { queue.new ≡ record queue.old {
      ready = enqueue (pri_at queue.old.pris) queue.old.ready r;
      states = slice_set queue.old.states r TaskState.Ready;
    } }
{
    queue.make_ready(r);
}
