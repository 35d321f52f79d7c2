//! What a machine shows: its tasks, the ready ones, its variables, its clock, and the interrupts that are pending.
//! Nothing here changes the machine, and nothing takes memory. Each call may be made between any two events.
ghost use Rattle.std.specs.Prelude.{◌≡◌, IfSome, is_some, length, nat_lt, option_copied, slice_get, option_map};
ghost use Rattle.execlist.specs.{Lists.part_from, Order.first};
ghost use Rattle.scheduler.specs.Schedule.{task_name};
ghost use Rattle.execheap.specs.BlockViews.{block_view};
ghost use Rattle.execmodel.specs.{Memory.block_at, State.program_of};
ghost use Rattle.execsim.specs.{Actions.softint_seen, Readers.actor_seen, Readers.machine_view, Readers.task_seen, Views.call_view};

use super::Machine;
use crate::call::Call;
use crate::kernel::Kernel;
use execheap::BlockView;
use execlist::space::ListSpace;
use memlist::Region;
use softint::caused::IntId;
use softint::latches::Latches;
use taskq::{TaskId, TaskState};

/// What is seen of a task.
#[derive(Clone, Copy, Debug)]
pub struct TaskView {
    /// If it is in its life, and what it waits for.
    pub state: TaskState,
    /// Its priority, -128 to 127.
    pub pri: i8,
    /// The signals that it has received: bit n is signal n.
    pub received: u32,
    /// The signals that it has allocated.
    pub allocated: u32,
    /// Its count of Forbid, -1 to 127.
    pub forbids: i8,
    /// Its count of Disable, -1 to 127.
    pub disables: i8,
    /// The place of its next command in its code, from 0; the number of commands at the end. A task that waits in a
    /// call is at the place of that call.
    pub place: usize,
}

/// What is seen of a machine beside its tasks and its memory.
#[derive(Clone, Copy, Debug)]
pub struct MachineView {
    /// How many tasks there are, of any state.
    pub tasks: usize,
    /// The task that runs, or none.
    pub running: Option<TaskId>,
    /// The servings of VERTB that are left to it in its quantum.
    pub quantum_left: u8,
    /// What the clock of the timer shows, in microseconds.
    pub clock: u64,
    /// System time, in microseconds.
    pub system_time: u64,
    /// Which sources of interrupts ask to be served.
    pub latches: Latches,
    /// Whether an alert has stopped the machine.
    pub stopped: bool,
}

impl<S: ListSpace> Machine<S> {
    // ---- tasks

    /// Answers what is seen of a task, by its number from 0 in the order of the file; none past the last.
    ///
    /// Source: RKM Libraries, Exec Tasks: `struct Task`.
    #[inline(always)]
    pub fn task(&self, t: TaskId) -> Option<TaskView>
        ensures { result ≡ task_seen t self.now.seen }
    {
        if t < self.kernel.programs.len() {
            let status = self.kernel.sched.status(t);
            Some(TaskView {
                state: status.state,
                pri: status.pri,
                received: status.received,
                allocated: status.allocated,
                forbids: status.forbids,
                disables: status.disables,
                place: self.kernel.programs[t].place(),
            })
        } else {
            None
        }
    }

    /// Lends the name of a task; none past the last.
    ///
    /// Source: RKM Libraries, Exec Tasks: `ln_Name`.
    pub fn task_name(&self, t: TaskId) -> Option<&str>
        ensures known { is_some result ≡ nat_lt t (length self.now.seen.scripts.programs) }
        ensures name { IfSome result (λ name. name.now ≡ task_name self.now.seen.schedule t) }
    {
        if t < self.kernel.programs.len() {
            Some(self.kernel.sched.name(t).as_str())
        } else {
            None
        }
    }

    /// Lends the call that a task waits in, or is to try again when it runs next, with the values that its arguments
    /// had when it was made; none for a task that is in no call.
    ///
    /// Source: project rule.
    pub fn call(&self, t: TaskId) -> Option<&Call>
        ensures { option_map call_view (option_copied result) ≡ (program_of self.now.seen.scripts t).kept }
    {
        match self.kernel.programs.get(t) {
            Some(program) => program.kept(),
            None => None,
        }
    }

    /// Lends the variables of a task, by number; none past the last task.
    ///
    /// Source: project rule.
    pub fn variables(&self, t: TaskId) -> &[u32]
        ensures { result.now ≡ (program_of self.now.seen.scripts t).variables }
    {
        match self.kernel.programs.get(t) {
            Some(program) => program.variables(),
            None => &[],
        }
    }

    /// Answers the ready task that is to run after `after`, or the one that is to run next for none; none at the end,
    /// and if `after` is not ready.
    ///
    /// Source: RKM Libraries, Exec Tasks: task scheduling.
    pub fn ready_after(&self, after: Option<TaskId>) -> Option<TaskId>
        ensures { result ≡ first (part_from after self.now.seen.schedule.queue.ready) }
    {
        self.kernel.sched.ready_after(after)
    }

    /// Answers the task whose command or end the next step is; none if no task runs, a software interrupt runs first,
    /// or an alert has stopped the machine.
    ///
    /// Source: RKM Libraries, Exec Tasks and Exec Interrupts.
    #[inline(always)]
    pub fn next_actor(&self) -> Option<TaskId>
        ensures { result ≡ actor_seen self.now.seen }
    {
        if self.kernel.stopped || self.kernel.softint_runs_next() {
            None
        } else {
            self.kernel.sched.running()
        }
    }

    // ---- the machine

    /// Answers what is seen of the machine beside its tasks and its memory.
    ///
    /// Source: RKM Libraries, Exec Tasks and Exec Interrupts; RKM Devices, timer device.
    pub fn view(&self) -> MachineView
        ensures { result ≡ machine_view self.now.seen }
    {
        let kernel = &self.kernel;
        MachineView {
            tasks: kernel.sched.count(),
            running: kernel.sched.running(),
            quantum_left: kernel.sched.left(),
            clock: kernel.memory.clock(),
            system_time: kernel.memory.system_time(),
            latches: kernel.ints.latches(),
            stopped: kernel.stopped,
        }
    }

    /// Lends the variables that all bodies share, by number.
    ///
    /// Source: project rule.
    pub fn shared_variables(&self) -> &[u32]
        ensures { result.now ≡ self.now.seen.scripts.shared }
    {
        &self.kernel.shared
    }

    /// Answers the caused software interrupt that is to run after `after`, or the one that is to run next for none, by
    /// its number from 0 in the order of the file; none at the end, and if `after` is not caused.
    ///
    /// Source: RKM Libraries, Exec Interrupts: software interrupts.
    pub fn caused_after(&self, after: Option<IntId>) -> Option<IntId>
        ensures { result ≡ first (part_from after self.now.seen.pending.caused) }
    {
        self.kernel.ints.caused_after(after)
    }

    // ---- the memory

    /// Answers a region of the memory, by its place in the file, from 0; none past the last.
    ///
    /// Source: RKM Libraries, Exec Memory Allocation: MemHeader.
    pub fn region(&self, k: usize) -> Option<Region>
        ensures { result ≡ slice_get self.now.seen.memory.regions k }
    {
        self.kernel.memory.region(k)
    }

    /// Answers what is seen of the block of memory that begins at an address, and of the object in it; none if no block
    /// begins there.
    ///
    /// Source: RKM Libraries, Exec Memory Allocation; project rule: Exec keeps no kinds of objects.
    pub fn block(&self, address: u32) -> Option<BlockView>
        ensures { result ≡ option_map block_view (block_at address self.now.seen.memory.heap) }
    {
        self.kernel.memory.block(address)
    }
}

impl<S: ListSpace> Kernel<S> {
    /// Whether a software interrupt runs before any task's command.
    pub(super) fn softint_runs_next(&self) -> bool
        ensures { result ≡ is_some (softint_seen self.now) }
    {
        if self.sched.may_interrupt() {
            self.ints.any_caused()
        } else {
            false
        }
    }
}
