//! Task states and the ready sequence.
//! A `TaskQ` knows the state, the priority and the name of each task, and which ready task is to run next.
#![tactic(auto)]

ghost use Rattle.std.specs.Prelude.{◌≡◌, ◌≢◌, ℕ, ◌<◌, ◌≤◌, ◌+◌, List, [], ◌∷◌, ◌++◌, Option, Some, None, length, replicate, slice_set, map, find, true, IfOk, IfSome, IsTrue, if◌then◌else◌};
ghost use Rattle.std.specs.List.{range_with_len};
ghost use Rattle.execlist.specs.{Order.enqueue, Order.first, Order.without_item, Lists.part_after, Lists.part_from, Lists.times, Disciplines.pri_at};
ghost use Rattle.taskq.specs.Tasks.{state_at, name_at, is_ready, is_live, is_live_named, pris_of};

mod names;

use crate::names::Names;
use execlist::copying::copy_sequences;
use execlist::key::Name;
use execlist::space::ListSpace;
use execlist::walk::next_node;
use std::alloc::{AllocError, Global};
use std::marker::Model;

/// The number of a task, from 0, in the order of the list that `TaskQ::new` is given.
pub type TaskId = usize;

/// The name (at most 31 bytes) and the first priority (-128 to 127) of a task.
#[derive(Clone, Copy)]
pub struct TaskInit {
    pub name: Name,
    pub pri: i8,
}

/// What a task waits for.
#[derive(Clone, Copy, Debug, PartialEq, Eq)]
pub enum Why {
    /// Any of the signals of this mask. Autodoc exec.library/Wait.
    Signals(u32),
    /// A semaphore, until a release makes the task its owner. Autodoc exec.library/ObtainSemaphore.
    Sem,
}

/// Where a task is in its life. RKM Libraries, Exec Tasks: task states.
#[derive(Clone, Copy, Debug, PartialEq, Eq)]
pub enum TaskState {
    /// It was never added.
    Absent,
    /// It may run, and another one runs or none has been chosen.
    Ready,
    /// It runs.
    Running,
    /// It sleeps until what it waits for has come.
    Waiting(Why),
    /// It has ended, or was ended, and does not come back.
    Removed,
}

/// The tasks of a machine, and the ready ones in the order in which they are to run.
///
/// All room is made by `new` and `with_new_task`; no other call takes memory.
#[derive(Drop)]
pub struct TaskQ<S: ListSpace> {
    space: S,
    states: Vec<TaskState>,
    names: Names,
}

impl<S: ListSpace> Model for TaskQ<S> {
    ghost use Rattle.std.specs.Prelude.{length, map};
    ghost use Rattle.execlist.specs.Lists.{sequence};
    ghost use Rattle.taskq.specs.Tasks.{Tasks, pris_of, IsSoundQueue};

    ghost Value = { Tasks };

    ghost view = { λ q. record {
      ready = sequence (S.sequences q.space) 0;
      states = q.states.items;
      pris = pris_of (S.keys q.space);
      names = q.names;
    } };

    ghost invariant = { λ q. IsSoundQueue
        (length (S.sequences q.space)) (S.homes q.space) q.states.items (length q.names) };
}

#[tactic(auto, using(crate::proofs::TaskLemmas::changes))]
impl<S: ListSpace> TaskQ<S> {
    /// Makes absent tasks of these names and priorities, at most 4,096, numbered in the order given.
    /// An error means that memory is refused.
    pub fn new(alloc: Global, tasks: &[TaskInit]) -> Result<Self, AllocError>
        requires { length tasks.now ≤ 4096 }
        ensures ready { IfOk result (λ q. q.ready ≡ []) }
        ensures states { IfOk result (λ q. q.states ≡ replicate (length tasks.now) TaskState.Absent) }
        ensures pris { IfOk result (λ q. q.pris ≡ map (λ t. t.pri) tasks.now) }
        ensures names { IfOk result (λ q. q.names ≡ map (λ t. t.name.bytes) tasks.now) }
    {
        let mut space = S::new(alloc, 1, tasks.len())?;
        let states = Vec::from_elem(alloc, TaskState::Absent, tasks.len())?;
        let names = Names::new(alloc, tasks)?;
        set_pris(&mut space, tasks);
        Ok(TaskQ {
            space,
            states,
            names,
        })
    }

    /// Makes the same tasks, as they are, and one more after them, which is absent; these stay. At most 4,096 tasks
    /// will be there. An error means that memory is refused.
    ///
    /// Source: project rule.
    pub fn with_new_task(&self, alloc: Global, task: TaskInit) -> Result<Self, AllocError>
        requires { length self.now.states + 1 ≤ 4096 }
        ensures ready { IfOk result (λ q. q.ready ≡ self.now.ready) }
        ensures states { IfOk result (λ q. q.states ≡ self.now.states ++ TaskState.Absent ∷ []) }
        ensures pris { IfOk result (λ q. q.pris ≡ self.now.pris ++ task.pri ∷ []) }
        ensures names { IfOk result (λ q. q.names ≡ self.now.names ++ task.name.bytes ∷ []) }
    {
        let inits = self.inits_with(alloc, task)?;
        let mut space = S::new(alloc, 1, inits.len())?;
        let states = self.states_with_absent(alloc)?;
        let names = Names::new(alloc, &inits)?;
        set_pris(&mut space, &inits);
        copy_sequences(&self.space, &mut space, 1);
        Ok(TaskQ {
            space,
            states,
            names,
        })
    }

    // The names and the priorities of the tasks, and of one more.
    fn inits_with(&self, alloc: Global, task: TaskInit) -> Result<Vec<TaskInit>, AllocError>
        ensures count { IfOk result (λ v. length v.items ≡ length self.now.states + 1) }
        ensures pris { IfOk result (λ v. map (λ t. t.pri) v.items ≡ self.now.pris ++ task.pri ∷ []) }
        ensures names { IfOk result (λ v. map (λ t. t.name.bytes) v.items ≡ self.now.names ++ task.name.bytes ∷ []) }
    {
        self.facts();
        let mut inits = Vec::with_capacity(alloc, self.states.len() + 1)?;
        for t in 0..self.states.len() {
            inits.push(TaskInit {
                name: *self.name(t),
                pri: self.pri(t),
            })?;
        }
        inits.push(task)?;
        Ok(inits)
    }

    // The states of the tasks, and of one more, which is absent.
    fn states_with_absent(&self, alloc: Global) -> Result<Vec<TaskState>, AllocError>
        ensures { IfOk result (λ v. v.items ≡ self.now.states ++ TaskState.Absent ∷ []) }
    {
        let mut states = Vec::from_slice(alloc, &self.states)?;
        states.push(TaskState::Absent)?;
        Ok(states)
    }

    /// Makes the tasks absent, with these names and priorities, as `new` made them: as many as there are, in the order
    /// given.
    ///
    /// Source: project rule.
    pub fn reset(&mut self, tasks: &[TaskInit])
        requires { length tasks.now ≡ length self.old.states }
        ensures ready { self.new.ready ≡ [] }
        ensures states { self.new.states ≡ replicate (length tasks.now) TaskState.Absent }
        ensures pris { self.new.pris ≡ map (λ t. t.pri) tasks.now }
        ensures names { self.new.names ≡ map (λ t. t.name.bytes) tasks.now }
    {
        self.space.reset();
        set_pris(&mut self.space, tasks);
        self.states.fill(TaskState::Absent);
        self.names.set(tasks);
    }

    /// Answers the task that is to run next, which stays ready, or none if no task is ready.
    /// RKM Libraries, Exec Tasks: scheduling.
    pub fn pick(&self) -> Option<TaskId>
        ensures value { result ≡ first self.now.ready }
        ensures ready { IfSome result (λ t. state_at self.now.states t ≡ TaskState.Ready) }
    {
        self.space.first(0)
    }

    /// Answers the ready task that is to run after `after`, or the one that is to run next for none; none at the end,
    /// and if `after` is not ready. RKM Libraries, Exec Tasks: scheduling.
    pub fn ready_after(&self, after: Option<TaskId>) -> Option<TaskId>
        ensures value { result ≡ first (part_from after self.now.ready) }
        ensures ready { IfSome result (λ t. state_at self.now.states t ≡ TaskState.Ready) }
    {
        match after {
            None => self.pick(),
            Some(t) => self.next_ready(t),
        }
    }

    // The ready task after this one, if it is ready and not the last.
    fn next_ready(&self, t: TaskId) -> Option<TaskId>
        ensures value { result ≡ first (part_after t self.now.ready) }
        ensures ready { IfSome result (λ t. state_at self.now.states t ≡ TaskState.Ready) }
    {
        if t < self.states.len() {
            next_node(&self.space, 0, Some(t))
        } else {
            None
        }
    }

    /// Makes an absent, running or waiting task ready, after the ready ones of its priority.
    /// RKM Libraries, Exec Tasks: scheduling.
    pub fn make_ready(&mut self, t: TaskId)
        requires known { t < length self.old.states }
        requires not_ready { state_at self.old.states t ≢ TaskState.Ready }
        requires not_removed { state_at self.old.states t ≢ TaskState.Removed }
        ensures ready { self.new.ready ≡ enqueue (pri_at self.old.pris) self.old.ready t }
        ensures states { self.new.states ≡ slice_set self.old.states t TaskState.Ready }
        ensures pris { self.new.pris ≡ self.old.pris }
        ensures names { self.new.names ≡ self.old.names }
    {
        self.space.enqueue(0, t);
        self.states[t] = TaskState::Ready;
    }

    /// Lets a ready task run: it leaves the ready ones. It is the caller who sees to it that one task runs
    /// at a time. RKM Libraries, Exec Tasks: scheduling.
    pub fn run(&mut self, t: TaskId)
        requires ready { state_at self.old.states t ≡ TaskState.Ready }
        ensures ready { self.new.ready ≡ without_item t self.old.ready }
        ensures states { self.new.states ≡ slice_set self.old.states t TaskState.Running }
        ensures pris { self.new.pris ≡ self.old.pris }
        ensures names { self.new.names ≡ self.old.names }
    {
        self.space.remove(t);
        self.states[t] = TaskState::Running;
    }

    /// Lets a running task wait for what `why` says. Autodoc exec.library/Wait.
    pub fn block(&mut self, t: TaskId, why: Why)
        requires running { state_at self.old.states t ≡ TaskState.Running }
        ensures ready { self.new.ready ≡ self.old.ready }
        ensures states { self.new.states ≡ slice_set self.old.states t (TaskState.Waiting why) }
        ensures pris { self.new.pris ≡ self.old.pris }
        ensures names { self.new.names ≡ self.old.names }
    {
        self.states[t] = TaskState::Waiting(why);
    }

    /// Gives a task another priority (-128 to 127) and answers the old one. A ready task arrives anew,
    /// also if the priority stays; for any other the number alone changes.
    /// Autodoc exec.library/SetTaskPri.
    pub fn set_pri(&mut self, t: TaskId, pri: i8) -> i8
        requires { t < length self.old.states }
        ensures value { result ≡ pri_at self.old.pris t }
        ensures ready { self.new.ready ≡ (if is_ready (state_at self.old.states t)
            then enqueue (pri_at self.new.pris) (without_item t self.old.ready) t
            else self.old.ready) }
        ensures states { self.new.states ≡ self.old.states }
        ensures pris { self.new.pris ≡ slice_set self.old.pris t pri }
        ensures names { self.new.names ≡ self.old.names }
    {
        let old = self.space.pri(t);
        if let TaskState::Ready = self.states[t] {
            self.space.remove(t);
            self.space.set_key(t, pri, None);
            self.space.enqueue(0, t);
        } else {
            self.space.set_key(t, pri, None);
        }
        old
    }

    /// Ends a live task for good: a ready one leaves the ready ones.
    /// Autodoc exec.library/RemTask.
    pub fn remove(&mut self, t: TaskId)
        requires live { IsTrue (is_live (state_at self.old.states t)) }
        ensures ready { self.new.ready ≡ without_item t self.old.ready }
        ensures states { self.new.states ≡ slice_set self.old.states t TaskState.Removed }
        ensures pris { self.new.pris ≡ self.old.pris }
        ensures names { self.new.names ≡ self.old.names }
    {
        if let TaskState::Ready = self.states[t] {
            self.space.remove(t);
        }
        self.states[t] = TaskState::Removed;
    }

    /// Answers the live task of that name, or none. Names compare byte for byte; if several live tasks
    /// have the name, the first in the order of their numbers is answered.
    /// Autodoc exec.library/FindTask.
    pub fn find(&self, name: &str) -> Option<TaskId>
        ensures value { result
            ≡ find (is_live_named self.now name.now) (range_with_len 0 (length self.now.states)) }
        ensures known { IfSome result (λ t. t < length self.now.states) }
        ensures live { IfSome result (λ t. IsTrue (is_live (state_at self.now.states t))) }
    {
        for t in self.names.start(name)..self.states.len() {
            if self.is_live(t) && self.names.get(t).as_str() == name {
                return Some(t);
            }
        }
        None
    }

    /// Answers whether a task was added and not removed.
    ///
    /// Source: RKM Libraries, Exec Tasks: task states.
    pub fn is_live(&self, t: TaskId) -> bool
        requires { t < length self.now.states }
        ensures { result ≡ is_live (state_at self.now.states t) }
    {
        match self.states[t] {
            TaskState::Absent | TaskState::Removed => false,
            _ => true,
        }
    }

    /// Does nothing: its clauses are what always holds of the tasks. A ready task is once among the
    /// ready ones and any other not at all; each task has one state, one priority and one name.
    pub fn facts(&self)
        ensures ready { (t : ℕ) → times t self.now.ready
            ≡ (if is_ready (state_at self.now.states t) then 1 else 0) }
        ensures pris { length self.now.pris ≡ length self.now.states }
        ensures names { length self.now.names ≡ length self.now.states }
    {
        let _ = &self.space;
    }

    /// Answers the priority of a task, -128 to 127. RKM Libraries, Exec Tasks: `ln_Pri`.
    pub fn pri(&self, t: TaskId) -> i8
        requires { t < length self.now.states }
        ensures { result ≡ pri_at self.now.pris t }
    {
        self.space.pri(t)
    }

    /// Lends the name of a task. RKM Libraries, Exec Tasks: `ln_Name`.
    pub fn name(&self, t: TaskId) -> &Name
        requires { t < length self.now.states }
        ensures { result.now.bytes ≡ name_at self.now.names t }
    {
        self.names.get(t)
    }

    /// Answers the state of a task. RKM Libraries, Exec Tasks: `tc_State`.
    pub fn state(&self, t: TaskId) -> TaskState
        requires { t < length self.now.states }
        ensures { result ≡ state_at self.now.states t }
    {
        self.states[t]
    }
}

/// Gives the tasks, none of which is ready, their priorities.
fn set_pris<S: ListSpace>(space: &mut S, tasks: &[TaskInit])
    requires empty { S.sequences space.old ≡ [] ∷ [] }
    requires unlinked { S.homes space.old ≡ replicate (length tasks.now) None }
    ensures empty { S.sequences space.new ≡ [] ∷ [] }
    ensures unlinked { S.homes space.new ≡ replicate (length tasks.now) None }
    ensures pris { pris_of (S.keys space.new) ≡ map (λ t. t.pri) tasks.now }
{
    for t in 0..tasks.len() {
        space.set_key(t, tasks[t].pri, None);
    }
}
