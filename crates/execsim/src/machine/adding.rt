//! A machine to which tasks are added while it runs. The law `execmodel::feeding` says that what comes of it is what
//! comes of the machine whose tasks are all there from the start.
ghost use Rattle.std.specs.Prelude.{◌≡◌, ℕ, ◌≤◌, ◌+◌, length, if◌then◌else◌, IfOk, MatchResult, OnErr, OnOk};
ghost use Rattle.execlist.specs.Lists.{times};
ghost use Rattle.taskq.specs.Tasks.{is_ready};
ghost use Rattle.scheduler.specs.{Schedule.status_of, Schedule.task_count};
ghost use Rattle.execmodel.specs.Feeding.{with_new};
ghost use Rattle.execsim.specs.{Adding.new_task, Adding.seen_with_new, Agreement.Moves, declared.machine.adding.AddFault.AddFault};

use super::Machine;
use crate::kernel::Kernel;
use crate::progress::Program;
use execlist::space::ListSpace;
use exectrace::Name;
use std::alloc::{AllocError, Global};
use taskq::{TaskId, TaskInit};

/// How many tasks a machine has at most.
const MOST_TASKS: usize = 4096;

/// Why no task is added to a machine.
#[derive(Clone, Copy, PartialEq, Eq, Debug)]
pub enum AddFault {
    /// It has 4,096 tasks.
    Full,
    /// Memory is refused.
    OutOfMemory,
}

impl<S: ListSpace> Machine<S> {
    /// Adds a task of that name and that priority after the others, and answers its number, from 0. It is absent, until
    /// the word AddTask adds it, and its body is empty: `feed` gives it commands. Nothing else changes. A machine file
    /// has it as its last task, with `start = false`. That its name is a name, which no other task, software interrupt
    /// or server has, is the caller's to see to, who wants one.
    ///
    /// # Errors
    ///
    /// The machine has 4,096 tasks, or memory is refused. The machine stays as it is.
    ///
    /// Source: project rule.
    pub fn add_task(&mut self, alloc: Global, name: Name, pri: i8) -> Result<TaskId, AddFault>
        ensures number { IfOk result (λ t. t ≡ length self.old.seen.scripts.programs) }
        ensures added { OnOk result (self.new ≡ record self.old { seen = seen_with_new (new_task name.bytes pri) self.old.seen }) }
        ensures moves { OnOk result (Moves (with_new (new_task name.bytes pri)) self.old.seen self.new.seen) }
        ensures full { MatchResult result (λ t. Unit {0}) (λ fault. fault ≡ AddFault.Full → 4096 ≤ length self.old.seen.scripts.programs) }
        ensures kept { OnErr result (self.new ≡ self.old) }
    {
        self.is_settled = false;
        self.kernel.append_task(alloc, name, pri)
    }
}

impl<S: ListSpace> Kernel<S> {
    /// One more task, of that name and that priority, is after the others, which was never added, and whose body is
    /// empty. Answers its number.
    fn append_task(&mut self, alloc: Global, name: Name, pri: i8) -> Result<TaskId, AddFault>
        ensures number { IfOk result (λ t. t ≡ length self.old.scripts.programs) }
        ensures joined { OnOk result (self.new ≡ seen_with_new (new_task name.bytes pri) self.old) }
        ensures full { MatchResult result (λ t. Unit {0}) (λ fault. fault ≡ AddFault.Full → 4096 ≤ length self.old.scripts.programs) }
        ensures kept { OnErr result (self.new ≡ self.old) }
        ensures ready { (t : ℕ) → times t self.old.schedule.queue.ready ≡ (if is_ready (status_of self.old.schedule t) then 1 else 0) }
        ensures pris { length self.old.schedule.queue.pris ≡ task_count self.old.schedule }
    {
        self.sched.facts();
        let number = self.programs.len();
        if number >= MOST_TASKS {
            return Err(AddFault::Full);
        }
        match self.join_task(alloc, TaskInit { name, pri }) {
            Ok(()) => Ok(number),
            Err(_) => Err(AddFault::OutOfMemory),
        }
    }

    /// The same, if there is room for its number.
    fn join_task(&mut self, alloc: Global, init: TaskInit) -> Result<(), AllocError>
        requires { length self.old.scripts.programs + 1 ≤ 4096 }
        ensures joined { OnOk result (self.new ≡ seen_with_new (new_task init.name.bytes init.pri) self.old) }
        ensures kept { OnErr result (self.new ≡ self.old) }
    {
        let sched = self.sched.with_new_task(alloc, init)?;
        let inits = self.inits_with_new(alloc)?;
        self.programs.reserve(1)?;
        self.memory.add_task(alloc)?;
        self.programs
            .push(Program::new(Vec::new(alloc), false))
            .unwrap();
        self.sched = sched;
        self.inits = inits;
        Ok(())
    }

    /// Room for as many names and priorities as there are tasks, and for one more.
    fn inits_with_new(&self, alloc: Global) -> Result<Vec<TaskInit>, AllocError>
        ensures { IfOk result (λ v. length v.items ≡ length self.now.scripts.programs + 1) }
    {
        let mut inits = Vec::from_slice(alloc, &self.inits)?;
        inits.push(TaskInit {
            name: Name::new(),
            pri: 0,
        })?;
        Ok(inits)
    }
}
