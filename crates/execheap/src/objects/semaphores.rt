//! Semaphores: by number, with the blocks in which they live; how they are found by address; and the calls by address.
ghost use Rattle.std.specs.Prelude.{◌≡◌, ◌<◌, suc, not, [], None, Some, IsTrue, IfOk, OnErr, OnOk};
ghost use Rattle.execlist.specs.{Pool.slot, Answers.fault_or, Answers.kept_or};
ghost use Rattle.sigsem.specs.Semaphores.{attempted, deep_fault, dropped, free_sem, heir, is_free_for, is_owned, is_sem, let_go, obtained, outcome_for, release_fault, sem_at, waits_at};
ghost use Rattle.execmodel.specs.{State.Semaphore, State.on_heap, Memory.freed, Memory.placed, LowMemory.after_asking_for_object, Objects.place_for_object, Agreement.WaitsForNone};
ghost use Rattle.execheap.specs.{Numbered.places, Numbered.shown_memory, Numbered.IsKnown, Numbered.shown_heap, Changes.on_semaphores, NewTask.with_one_more_task, Refusals.alert_of};
ghost use Rattle.execheap.specs.declared.tag.Kind.TheVariants as variant;
ghost use Rattle.execmodel.specs.Semaphores as model;

use crate::heap::Heap;
use crate::objects::Objects;
use crate::refusal::{Refusal, as_refusal};
use crate::tag::Kind;
use execlist::space::ListSpace;
use sigsem::fault::SemFault;
use sigsem::semaphore::{Obtained, TaskId};
use sigsem::sems::{SemId, Sems};
use std::alloc::{AllocError, Global};

/// How many tasks there is room for at most.
const MOST_TASKS: usize = 4096;

impl<S: ListSpace> Objects<S> {
    /// The semaphores.
    pub fn sems(&self) -> &Sems<S>
        ensures { result.now ≡ self.now.sems }
    {
        &self.sems
    }

    // ---- made and freed

    /// A new semaphore, which no task owns, if the pool has one left and its block fits, at once or after libraries
    /// were asked for memory: its address.
    ///
    /// Source: autodoc exec.library/InitSemaphore; that it takes the memory is a project rule.
    pub fn make_semaphore(&mut self) -> Option<u32>
        ensures address { result ≡ place_for_object model.is_semaphore model.semaphore_size (after_asking_for_object model.is_semaphore model.semaphore_size (shown_memory self.old)) }
        ensures next { shown_memory self.new ≡ placed model.semaphore_size (Semaphore free_sem []) result (after_asking_for_object model.is_semaphore model.semaphore_size (shown_memory self.old)) }
    {
        self.sems.facts();
        let (_, semaphore) = self.table.make(Kind::Semaphore)?;
        self.sems.make().unwrap();
        Some(semaphore)
    }

    /// Frees a semaphore that no task owns.
    pub fn free_semaphore(&mut self, n: SemId, address: u32)
        requires live { slot (places variant.Semaphore self.old) n ≡ Some address }
        requires unowned { IsTrue (not (is_owned (sem_at n self.old.sems))) }
        ensures { shown_memory self.new ≡ freed address (shown_memory self.old) }
    {
        self.table.free(Kind::Semaphore, n, address);
        self.sems.free(n).unwrap();
    }

    // ---- obtaining and releasing

    /// Asks for a semaphore for a task that is not to wait, and answers whether it has it.
    ///
    /// Source: autodoc exec.library/AttemptSemaphore.
    pub fn attempt(&mut self, n: SemId, t: TaskId) -> Result<bool, SemFault>
        requires { IsTrue (is_sem n self.old.sems) }
        ensures answer { result ≡ fault_or (deep_fault n t self.old.sems) (is_free_for t (sem_at n self.old.sems)) }
        ensures next { self.new ≡ on_semaphores (λ m. kept_or (deep_fault n t m) m (attempted n t m)) self.old }
    {
        self.sems.attempt(n, t)
    }

    /// Asks for a semaphore for a task that waits for none. It has the semaphore then, or waits for it.
    ///
    /// Source: autodoc exec.library/ObtainSemaphore.
    pub fn obtain(&mut self, n: SemId, t: TaskId) -> Result<Obtained, SemFault>
        requires live { IsTrue (is_sem n self.old.sems) }
        requires task { t < self.old.tasks }
        requires stopped { waits_at t self.old.sems ≡ None }
        ensures answer { result ≡ fault_or (deep_fault n t self.old.sems) (outcome_for t (sem_at n self.old.sems)) }
        ensures next { self.new ≡ on_semaphores (λ m. kept_or (deep_fault n t m) m (obtained n t m)) self.old }
    {
        self.sems.obtain(n, t)
    }

    /// Releases a semaphore once, for its owner, and answers the new owner, if another task becomes it.
    ///
    /// Source: autodoc exec.library/ReleaseSemaphore.
    pub fn release(&mut self, n: SemId, t: TaskId) -> Result<Option<TaskId>, SemFault>
        requires { IsTrue (is_sem n self.old.sems) }
        ensures answer { result ≡ fault_or (release_fault n t self.old.sems) (heir n self.old.sems) }
        ensures next { self.new ≡ on_semaphores (λ m. kept_or (release_fault n t m) m (let_go n m)) self.old }
    {
        self.sems.release(n, t)
    }

    /// A task waits for no semaphore any more.
    pub fn drop_waiter(&mut self, t: TaskId)
        requires { t < self.old.tasks }
        ensures { self.new ≡ on_semaphores (dropped t) self.old }
    {
        self.sems.drop_waiter(t);
    }

    /// Makes room for one more task to wait at semaphores. An error means that memory is refused, or that there is room
    /// for 4,096 tasks already.
    ///
    /// Source: project rule.
    pub fn add_task(&mut self, alloc: Global) -> Result<(), AllocError>
        ensures added { OnOk result (self.new ≡ with_one_more_task self.old) }
        ensures kept { OnErr result (self.new ≡ self.old) }
    {
        if self.tasks >= MOST_TASKS {
            return Err(AllocError);
        }
        self.facts();
        let pool = self.table.pool();
        self.sems.add_task(alloc, pool, self.tasks)?;
        self.tasks += 1;
        Ok(())
    }

    // ---- found by address; or why the call is refused

    /// The semaphore that begins at an address.
    pub fn semaphore_at(&self, semaphore: u32) -> Result<SemId, Refusal>
        ensures alert { alert_of result ≡ model.semaphore_alert semaphore (shown_heap self.now) }
        ensures found { IfOk result (λ n. slot (places variant.Semaphore self.now) n ≡ Some semaphore) }
        ensures live { IfOk result (λ n. IsTrue (is_sem n self.now.sems)) }
        ensures known { IsKnown self.now }
    {
        match self.number_at(Kind::Semaphore, semaphore) {
            Some(n) => Ok(n),
            None => Err(Refusal::Handle),
        }
    }

    /// The semaphore that begins at an address, which no task owns.
    pub fn semaphore_to_free(&self, semaphore: u32) -> Result<SemId, Refusal>
        ensures alert { alert_of result ≡ model.free_sem_alert semaphore (shown_heap self.now) }
        ensures found { IfOk result (λ n. slot (places variant.Semaphore self.now) n ≡ Some semaphore) }
        ensures unowned { IfOk result (λ n. IsTrue (not (is_owned (sem_at n self.now.sems)))) }
        ensures known { IsKnown self.now }
    {
        let n = self.semaphore_at(semaphore)?;
        let owned = self.sems().is_owned(n);
        if owned { Err(Refusal::Sem) } else { Ok(n) }
    }
}

impl<S: ListSpace> Heap<S> {
    // ---- semaphores made and freed

    /// Makes a semaphore, which no task owns, and answers its address; none if the pool has no semaphore left, which
    /// asks nothing, or its block fits nowhere, even after libraries were asked for memory (autodoc
    /// exec.library/InitSemaphore; that it takes the memory: project rule).
    pub fn new_semaphore(&mut self) -> Option<u32>
        ensures address { result ≡ place_for_object model.is_semaphore model.semaphore_size (after_asking_for_object model.is_semaphore model.semaphore_size self.old) }
        ensures next { self.new ≡ placed model.semaphore_size (Semaphore free_sem []) result (after_asking_for_object model.is_semaphore model.semaphore_size self.old) }
    {
        self.objects.make_semaphore()
    }

    /// Frees a semaphore. It is refused if no semaphore begins at the address (Handle), and if a task owns it (Sem);
    /// project rule.
    pub fn free_semaphore(&mut self, semaphore: u32) -> Result<(), Refusal>
        ensures alert { alert_of result ≡ model.free_sem_alert semaphore self.old.heap }
        ensures next { OnOk result (self.new ≡ freed semaphore self.old) }
        ensures kept { OnErr result (self.new ≡ self.old) }
    {
        let n = self.objects.semaphore_to_free(semaphore)?;
        self.objects.free_semaphore(n, semaphore);
        Ok(())
    }

    // ---- obtaining and releasing

    /// Asks for a semaphore for one of the tasks, which waits for none. A free one is the task's, with the count 1; the
    /// owner's count is one more; any other task waits, after those that asked before. Answers which of these came of
    /// it. It is refused if no semaphore begins at the address (Handle), and if the count would go past 32767 (Sem).
    /// Autodoc exec.library/ObtainSemaphore; the refusals: project rule.
    pub fn obtain_semaphore(&mut self, task: TaskId, semaphore: u32) -> Result<Obtained, Refusal>
        requires task { task < self.old.tasks }
        requires stopped { WaitsForNone task self.old.heap }
        ensures alert { alert_of result ≡ model.obtain_alert task semaphore self.old.heap }
        ensures answer { IfOk result (λ how. how ≡ outcome_for task (model.sem_of semaphore self.old.heap)) }
        ensures next { OnOk result (self.new ≡ on_heap (model.obtained semaphore task) self.old) }
        ensures kept { OnErr result (self.new ≡ self.old) }
    {
        let n = self.objects.semaphore_at(semaphore)?;
        as_refusal(self.objects.obtain(n, task))
    }

    /// Asks for a semaphore for a task that is not to wait, and answers whether it has it: if it would have to wait,
    /// nothing changes. It is refused if no semaphore begins at the address (Handle), and if the count would go past
    /// 32767 (Sem). Autodoc exec.library/AttemptSemaphore; the refusals: project rule.
    pub fn attempt_semaphore(&mut self, task: TaskId, semaphore: u32) -> Result<bool, Refusal>
        ensures alert { alert_of result ≡ model.obtain_alert task semaphore self.old.heap }
        ensures answer { IfOk result (λ has. has ≡ is_free_for task (model.sem_of semaphore self.old.heap)) }
        ensures next { OnOk result (self.new ≡ on_heap (model.attempted semaphore task) self.old) }
        ensures kept { OnErr result (self.new ≡ self.old) }
    {
        let n = self.objects.semaphore_at(semaphore)?;
        as_refusal(self.objects.attempt(n, task))
    }

    /// Releases a semaphore once, for its owner. The last release hands it on: the first of the tasks that wait there
    /// waits no more and is the owner with the count 1, and if none waits no task owns it. Answers the new owner, or
    /// none if the owner stays or no task is the owner any more. It is refused if no semaphore begins at the address
    /// (Handle), and if the task does not own it (Sem). Autodoc exec.library/ReleaseSemaphore; the refusals: project
    /// rule.
    pub fn release_semaphore(
        &mut self,
        task: TaskId,
        semaphore: u32,
    ) -> Result<Option<TaskId>, Refusal>
        ensures alert { alert_of result ≡ model.release_alert task semaphore self.old.heap }
        ensures answer { IfOk result (λ owner. owner ≡ model.heir semaphore self.old.heap) }
        ensures next { OnOk result (self.new ≡ on_heap (model.released semaphore) self.old) }
        ensures kept { OnErr result (self.new ≡ self.old) }
    {
        let n = self.objects.semaphore_at(semaphore)?;
        as_refusal(self.objects.release(n, task))
    }

    /// One of the tasks waits for no semaphore any more; the others keep their order. Project rule: a task that waits
    /// may be removed.
    pub fn drop_waiter(&mut self, task: TaskId)
        requires { task < self.old.tasks }
        ensures { self.new ≡ on_heap (model.dropped task) self.old }
    {
        self.objects.facts();
        self.objects.drop_waiter(task);
    }

    /// Makes room for one more task, numbered after the others, to wait for semaphores. Nothing else changes.
    ///
    /// An error means that memory of the host is refused, or that there is room for 4,096 tasks already; nothing
    /// changes. Project rule.
    pub fn add_task(&mut self, alloc: Global) -> Result<(), AllocError>
        ensures added { OnOk result (self.new ≡ record self.old { tasks = suc self.old.tasks }) }
        ensures kept { OnErr result (self.new ≡ self.old) }
    {
        self.objects.add_task(alloc)
    }
}
