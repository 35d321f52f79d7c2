//! What is seen of one task, of the ready tasks and of the quantum. Nothing here changes the schedule.
ghost use Rattle.std.specs.Prelude.{◌≡◌, ◌<◌, IfSome};
ghost use Rattle.execlist.specs.{Lists.part_from, Order.first};
ghost use Rattle.scheduler.specs.{Schedule.task_count, Status.status_seen};

use crate::Sched;
use execlist::space::ListSpace;
use taskq::{TaskId, TaskState};

/// What is seen of a task.
#[derive(Clone, Copy)]
pub struct TaskStatus {
    /// If it is in its life, and what it waits for.
    pub state: TaskState,
    /// Its priority, -128 to 127.
    pub pri: i8,
    /// The signals that it has received: bit n is signal n.
    pub received: u32,
    /// The signals that it has allocated.
    pub allocated: u32,
    /// Its count of Forbid, -1 to 127.
    pub forbids: i8,
    /// Its count of Disable, -1 to 127.
    pub disables: i8,
}

impl<S: ListSpace> Sched<S> {
    /// Answers what is seen of a task.
    ///
    /// Source: RKM Libraries, Exec Tasks: `struct Task`.
    pub fn status(&self, t: TaskId) -> TaskStatus
        requires { t < task_count self.now }
        ensures { result ≡ status_seen self.now t }
    {
        let signals = self.signals[t];
        let nesting = self.nests[t];
        TaskStatus {
            state: self.queue.state(t),
            pri: self.queue.pri(t),
            received: signals.received(),
            allocated: signals.allocated(),
            forbids: nesting.forbids(),
            disables: nesting.disables(),
        }
    }

    /// Answers how many tasks there are.
    ///
    /// Source: project rule.
    pub fn count(&self) -> usize
        ensures { result ≡ task_count self.now }
    {
        self.nests.len()
    }

    /// Answers the ready task that is to run after `after`, or the one that is to run next for none; none at the end,
    /// and if `after` is not ready.
    ///
    /// Source: RKM Libraries, Exec Tasks: task scheduling.
    pub fn ready_after(&self, after: Option<TaskId>) -> Option<TaskId>
        ensures value { result ≡ first (part_from after self.now.queue.ready) }
        ensures known { IfSome result (λ t. t < task_count self.now) }
    {
        self.queue.ready_after(after)
    }

    /// Answers the servings of VERTB that are left to the running task in its quantum.
    ///
    /// Source: RKM Libraries, Exec Tasks: task scheduling. Project rule: the quantum in servings.
    pub fn left(&self) -> u8
        ensures { result ≡ self.now.left }
    {
        self.left
    }
}
