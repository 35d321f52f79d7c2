//! What a port does for a message that arrives, and what that comes to.

/// The number of a task, from 0.
pub type TaskId = usize;

/// The number of a software interrupt, from 0.
pub type IntId = usize;

/// What a port does when a message arrives. RKM Libraries, Exec Messages and Ports: `mp_Flags`.
#[derive(Clone, Copy, Debug)]
pub enum PortAction {
    /// PA_SIGNAL: it signals its task.
    Signal,
    /// PA_SOFTINT: it causes the software interrupt of this number.
    Cause(IntId),
    /// PA_IGNORE: it does nothing.
    Ignore,
}

/// What is to be done for a message that has arrived. Whoever keeps the ports has to do it.
#[derive(Clone, Copy)]
pub enum Action {
    /// The task of this number gets the signals of this mask.
    Signal(TaskId, u32),
    /// The software interrupt of this number is caused.
    Cause(IntId),
    /// There is nothing to be done.
    Nothing,
}
