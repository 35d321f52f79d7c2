//! What a task gets that looks for a request.

/// What a task gets that looks for a request (autodoc exec.library/WaitIO).
#[derive(Clone, Copy, PartialEq, Eq)]
pub enum Awaited {
    /// The request is done, with this error; its reply, if it had one, is taken.
    Done(i8),
    /// The request is in progress: its reply port signals the task by the signal of this number (0 to 31).
    UnderWay(u32),
}
