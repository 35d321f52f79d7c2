//! The calls that a task makes of its commands: since at most one argument of a command is a name, the name is beside
//! the arguments. And who makes a call.
ghost use Rattle.std.specs.Prelude.{◌≤◌};

use exectrace::{Name, ShortArg};
use script::{Variable, Word};
use taskq::TaskId;

/// A command of a task with the values that its arguments had when it was first tried.
#[derive(Clone, Copy)]
pub struct Call {
    pub word: Word,
    /// Where the answer goes.
    pub target: Option<Variable>,
    /// The arguments from left to right; past the first `count` of them they mean nothing.
    pub arguments: [ShortArg; 4],
    pub count: usize,
    /// The name among the arguments; if none is a name, it means nothing.
    pub quoted: Name,
    /// The place of the command after it.
    pub next: usize,
    /// The signals that the task waits for, if it waits in the call at a port; else 0.
    pub awaited: u32,
    ghost few: { count ≤ 4 },
}

/// Who makes a call.
#[derive(Clone, Copy)]
pub enum Caller {
    /// A task.
    Task(TaskId),
    /// The body of a software interrupt or of a server, by its name.
    Body(Name),
}
