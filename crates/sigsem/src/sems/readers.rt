//! What is seen of semaphores. Nothing here changes them.
ghost use Rattle.std.specs.Prelude.{◌≡◌, ◌<◌, IfSome, IsTrue, length};
ghost use Rattle.std.specs.Option.{ForSome};
ghost use Rattle.execlist.specs.{Lists.part_from, Order.first};
ghost use Rattle.sigsem.specs.Semaphores.{is_sem, sem_at, waiters_of};

use super::{FREE, SemId, Sems};
use crate::semaphore::{Sem, TaskId};
use execlist::space::ListSpace;
use execlist::walk::next_node;

impl<S: ListSpace> Sems<S> {
    /// A semaphore beside those that wait for it; a free one if there is none of that number.
    ///
    /// Source: RKM Libraries, Exec Semaphores: `struct SignalSemaphore`.
    pub fn sem_at(&self, s: SemId) -> Sem
        ensures { result ≡ sem_at s self.now }
    {
        match self.sems.get(s) {
            Some(sem) => sem,
            None => FREE,
        }
    }

    /// Answers the task that waits at a semaphore after `after`, or the first one for none; none at the end, and if
    /// `after` does not wait there.
    ///
    /// Source: RKM Libraries, Exec Semaphores: `ss_WaitQueue`.
    pub fn waiter_after(&self, s: SemId, after: Option<TaskId>) -> Option<TaskId>
        requires live { IsTrue (is_sem s self.now) }
        requires task { ForSome after (λ t. t < length self.now.places) }
        ensures value { result ≡ first (part_from after (waiters_of s self.now)) }
        ensures known { IfSome result (λ t. t < length self.now.places) }
    {
        next_node(&self.waiters, s, after)
    }
}
