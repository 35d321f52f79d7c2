//! The semaphores of a machine, by number.
ghost use Rattle.std.specs.Prelude.{◌≡◌, ◌<◌, ◌≤◌, ◌+◌, length, not, is_some, Some, None, IfOk, IfSome, IsTrue, OnErr, OnOk, ok_or};
ghost use Rattle.execlist.specs.{Order.first, Pool.IsStocked, Pool.next_number, Answers.fault_or, Answers.kept_or};
ghost use Rattle.sigsem.specs.NewTask.{with_new_task};
ghost use Rattle.sigsem.specs.Semaphores.{IsSoundSemaphores, is_sem, is_owned, is_free_for, sem_at, waiters_of, waits_at, free_fault, deep_fault, release_fault, outcome_for, heir, no_sems, sem_made, sem_freed, with_sem, queued, obtained, attempted, handed_on, let_go, dropped};

mod readers;

use crate::fault::SemFault;
use crate::semaphore::{Obtained, Sem, TaskId};
use execlist::copying::copy_sequences;
use execlist::pool::Pool;
use execlist::space::ListSpace;
use std::alloc::{AllocError, Global};
use std::marker::Model;

/// The number of a semaphore, from 0.
pub type SemId = usize;

/// The greatest count of a semaphore.
const DEEPEST: u16 = 32767;

/// A semaphore that no task owns.
const FREE: Sem = Sem {
    owner: None,
    count: 0,
};

/// Signal semaphores, and the tasks that wait at them.
///
/// All room is made by `new` and `add_task`; no other call takes memory, and none but these and `reset` looks at all
/// semaphores or all tasks. RKM Libraries, Exec Semaphores.
#[derive(Drop)]
pub struct Sems<S: ListSpace> {
    sems: Pool<Sem>,
    waiters: S,
}

impl<S: ListSpace> Model for Sems<S> {
    ghost use Rattle.sigsem.specs.Semaphores.{KeepsSemaphores, Semaphores};

    ghost Value = { Semaphores };

    ghost view = { λ q. record { sems = q.sems; queues = S.sequences q.waiters; places = S.homes q.waiters } };

    ghost invariant = { λ q. KeepsSemaphores (record { sems = q.sems; queues = S.sequences q.waiters; places = S.homes q.waiters }) };
}

impl<S: ListSpace> Sems<S> {
    /// Room for that many semaphores and for tasks of that many numbers, at most 4,096 of each. There is no semaphore
    /// yet.
    ///
    /// An error means that memory is refused.
    pub fn new(alloc: Global, sems: usize, tasks: usize) -> Result<Self, AllocError>
        requires few_sems { sems ≤ 4096 }
        requires few_tasks { tasks ≤ 4096 }
        ensures { IfOk result (λ q. q ≡ no_sems sems tasks) }
    {
        let numbers = Pool::new(alloc, sems)?;
        let waiters = S::new(alloc, sems, tasks)?;
        Ok(Sems {
            sems: numbers,
            waiters,
        })
    }

    /// Frees every semaphore, and no task waits, as `new` made them.
    ///
    /// Source: project rule.
    pub fn reset(&mut self)
        ensures { self.new ≡ no_sems (length self.old.sems.slots) (length self.old.places) }
    {
        self.sems.reset();
        self.waiters.reset();
    }

    /// Makes room for one more task, which waits nowhere; nothing else changes. `sems` and `tasks` are of how many
    /// there is room for; at most 4,096 tasks will be.
    ///
    /// An error means that memory is refused: nothing changes then. Project rule.
    pub fn add_task(&mut self, alloc: Global, sems: usize, tasks: usize) -> Result<(), AllocError>
        requires sems { sems ≡ length self.old.queues }
        requires tasks { tasks ≡ length self.old.places }
        requires few_sems { sems ≤ 4096 }
        requires few_tasks { tasks + 1 ≤ 4096 }
        ensures added { OnOk result (self.new ≡ with_new_task self.old) }
        ensures kept { OnErr result (self.new ≡ self.old) }
    {
        let mut waiters = S::new(alloc, sems, tasks + 1)?;
        copy_sequences(&self.waiters, &mut waiters, sems);
        self.waiters = waiters;
        Ok(())
    }

    // ---- making and freeing

    /// Makes a semaphore, which is free.
    ///
    /// Answers its number, or PoolFull if every semaphore is in use. Autodoc exec.library/InitSemaphore; the refusal:
    /// project rule.
    pub fn make(&mut self) -> Result<SemId, SemFault>
        ensures answer { result ≡ ok_or (next_number self.old.sems) SemFault.PoolFull }
        ensures next { self.new ≡ sem_made self.old }
        ensures live { IfOk result (λ s. IsTrue (is_sem s self.new)) }
        ensures free { IfOk result (λ s. IsTrue (not (is_owned (sem_at s self.new)))) }
    {
        match self.next_sem() {
            Some(s) => {
                self.sems.give(FREE);
                Ok(s)
            }
            None => Err(SemFault::PoolFull),
        }
    }

    /// Frees a semaphore: its number may be given again. No task waits at a semaphore that may be freed.
    ///
    /// It is Busy if a task owns the semaphore. Project rule: Exec leaves the memory of semaphores to the program.
    pub fn free(&mut self, s: SemId) -> Result<(), SemFault>
        requires { IsTrue (is_sem s self.old) }
        ensures answer { result ≡ fault_or (free_fault s self.old) tt }
        ensures next { self.new ≡ kept_or (free_fault s self.old) self.old (sem_freed s self.old) }
    {
        if self.is_owned(s) {
            return Err(SemFault::Busy);
        }
        self.sems.release(s);
        Ok(())
    }

    // ---- obtaining and releasing

    /// Asks for a semaphore for a task that waits at none. A free one is the task's, with the count 1; the owner's
    /// count is one more; any other task waits, after those that asked before. Answers which of these came of it.
    ///
    /// It is TooDeep if the task owns the semaphore and its count would go past 32767 (project rule).
    /// Autodoc exec.library/ObtainSemaphore.
    pub fn obtain(&mut self, s: SemId, t: TaskId) -> Result<Obtained, SemFault>
        requires live { IsTrue (is_sem s self.old) }
        requires task { t < length self.old.places }
        requires stopped { waits_at t self.old ≡ None }
        ensures answer { result ≡ fault_or (deep_fault s t self.old) (outcome_for t (sem_at s self.old)) }
        ensures next { self.new ≡ kept_or (deep_fault s t self.old) self.old (obtained s t self.old) }
    {
        if self.attempt(s, t)? {
            return Ok(Obtained::Owner);
        }
        self.append(s, t);
        Ok(Obtained::Waits)
    }

    /// Asks for a semaphore for a task that is not to wait. If `obtain` would make the task the owner this does the
    /// same and answers true; if the task would have to wait, nothing changes and the answer is false.
    ///
    /// It is TooDeep if the task owns the semaphore and its count would go past 32767 (project rule).
    /// Autodoc exec.library/AttemptSemaphore.
    pub fn attempt(&mut self, s: SemId, t: TaskId) -> Result<bool, SemFault>
        requires { IsTrue (is_sem s self.old) }
        ensures answer { result ≡ fault_or (deep_fault s t self.old) (is_free_for t (sem_at s self.old)) }
        ensures next { self.new ≡ kept_or (deep_fault s t self.old) self.old (attempted s t self.old) }
    {
        let sem = self.sem(s);
        match sem.owner {
            None => {
                self.set_owner(s, t, 1);
                Ok(true)
            }
            Some(owner) => {
                if owner != t {
                    Ok(false)
                } else if sem.count == DEEPEST {
                    Err(SemFault::TooDeep)
                } else {
                    self.set_owner(s, t, sem.count + 1);
                    Ok(true)
                }
            }
        }
    }

    /// Releases a semaphore once, for its owner. The last release hands it on: the first of the tasks that wait there
    /// waits no more and is the owner with the count 1, and if none waits the semaphore is free.
    ///
    /// Answers the new owner, or none if the owner stays or no task is the owner any more. It is NotOwner if the task
    /// does not own the semaphore (project rule). Autodoc exec.library/ReleaseSemaphore.
    pub fn release(&mut self, s: SemId, t: TaskId) -> Result<Option<TaskId>, SemFault>
        requires { IsTrue (is_sem s self.old) }
        ensures answer { result ≡ fault_or (release_fault s t self.old) (heir s self.old) }
        ensures next { self.new ≡ kept_or (release_fault s t self.old) self.old (let_go s self.old) }
        ensures waited { IfOk result (λ heir. IfSome heir (λ n. waits_at n self.old ≡ Some s)) }
    {
        let sem = self.sem(s);
        if sem.owner != Some(t) {
            return Err(SemFault::NotOwner);
        }
        if sem.count == 1 {
            return Ok(self.hand_on(s));
        }
        self.set_owner(s, t, sem.count - 1);
        Ok(None)
    }

    /// Takes a task out of the queue of the semaphore where it waits, if it waits at one. The others there keep their
    /// order. Project rule: a task that waits may be removed.
    pub fn drop_waiter(&mut self, t: TaskId)
        requires { t < length self.old.places }
        ensures { self.new ≡ dropped t self.old }
    {
        if self.waits_at(t).is_some() {
            self.waiters.remove(t);
        }
    }

    // ---- reading

    /// Answers the number that `make` would give, or none if every semaphore is in use. Project rule.
    pub fn next_sem(&self) -> Option<SemId>
        ensures value { result ≡ next_number self.now.sems }
        ensures known { IfSome result (λ s. s < length self.now.sems.slots) }
        ensures free { IfSome result (λ s. IsTrue (not (is_sem s self.now))) }
    {
        self.sems.next()
    }

    /// Answers whether there is a semaphore of that number: whether the calls that ask for one may be made. Project
    /// rule.
    pub fn is_sem(&self, s: SemId) -> bool
        ensures { result ≡ is_sem s self.now }
    {
        self.sems.get(s).is_some()
    }

    /// Answers whether some task owns a semaphore. RKM Libraries, Exec Semaphores: `ss_Owner`.
    pub fn is_owned(&self, s: SemId) -> bool
        requires { IsTrue (is_sem s self.now) }
        ensures { result ≡ is_owned (sem_at s self.now) }
    {
        self.sem(s).owner.is_some()
    }

    /// Answers the semaphore at which a task waits, or none: whether the task may ask for one. Project rule: Exec
    /// cannot say.
    pub fn waits_at(&self, t: TaskId) -> Option<SemId>
        requires { t < length self.now.places }
        ensures value { result ≡ waits_at t self.now }
        ensures owned { IfSome result (λ s. IsTrue (is_owned (sem_at s self.now))) }
    {
        self.waiters.home(t)
    }

    /// Does nothing: its clauses are what always holds of the semaphores, and of the number that is next.
    pub fn facts(&self)
        ensures sound { IsSoundSemaphores self.now }
        ensures sems { IsStocked self.now.sems }
    {
        let _ = &self.waiters;
        self.sems.facts();
    }

    // ---- single changes

    // A semaphore.
    fn sem(&self, s: SemId) -> Sem
        requires { IsTrue (is_sem s self.now) }
        ensures value { result ≡ sem_at s self.now }
        ensures at_most { result.count ≤ 32767 }
        ensures at_least { IfSome result.owner (λ t. 1 ≤ result.count) }
        ensures free { result.owner ≡ None → result.count ≡ 0 }
    {
        self.sems.get(s).unwrap()
    }

    // Makes a task the owner of a semaphore, with a count.
    fn set_owner(&mut self, s: SemId, t: TaskId, count: u16)
        requires live { IsTrue (is_sem s self.old) }
        requires at_least { 1 ≤ count }
        requires at_most { count ≤ 32767 }
        ensures { self.new ≡ with_sem s (record { owner = Some t; count = count }) self.old }
    {
        self.sems.set(
            s,
            Sem {
                owner: Some(t),
                count,
            },
        );
    }

    // Makes a task that waits nowhere wait at a semaphore that is owned.
    fn append(&mut self, s: SemId, t: TaskId)
        requires live { IsTrue (is_sem s self.old) }
        requires owned { IsTrue (is_owned (sem_at s self.old)) }
        requires task { t < length self.old.places }
        requires stopped { waits_at t self.old ≡ None }
        ensures { self.new ≡ queued s t self.old }
    {
        self.waiters.add_tail(s, t);
    }

    // Makes the first task that waits at a semaphore its owner, or the semaphore free if none waits. Answers the new
    // owner.
    fn hand_on(&mut self, s: SemId) -> Option<TaskId>
        requires { IsTrue (is_sem s self.old) }
        ensures value { result ≡ first (waiters_of s self.old) }
        ensures next { self.new ≡ handed_on s (first (waiters_of s self.old)) self.old }
        ensures waited { IfSome result (λ n. waits_at n self.old ≡ Some s) }
    {
        match self.waiters.rem_head(s) {
            Some(t) => {
                self.sems.set(
                    s,
                    Sem {
                        owner: Some(t),
                        count: 1,
                    },
                );
                Some(t)
            }
            None => {
                self.sems.set(s, FREE);
                None
            }
        }
    }
}
