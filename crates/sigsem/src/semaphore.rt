//! One semaphore beside those that wait for it, and what comes of asking for it.

/// The number of a task, from 0.
pub type TaskId = usize;

/// A semaphore without the tasks that wait for it: its owner, and how often the owner has to release it. A free one has
/// no owner and the count 0. RKM Libraries, Exec Semaphores: `ss_Owner` and `ss_NestCount`.
#[derive(Clone, Copy, Debug)]
pub struct Sem {
    pub owner: Option<TaskId>,
    pub count: u16,
}

/// What comes of asking for a semaphore. Whoever keeps the tasks has to make the task wait.
#[derive(Clone, Copy)]
pub enum Obtained {
    /// The task is the owner.
    Owner,
    /// The task waits until a release makes it the owner.
    Waits,
}
