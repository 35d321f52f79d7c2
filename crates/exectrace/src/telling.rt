//! What a machine says.

use crate::lines::{CallOutcome, Name, ShortArg};
use script::{Alert, Word};
use softint::source::Source;

/// What a machine says, as it happens. A name is that of a task, a software interrupt or a server.
#[derive(Clone, Copy)]
pub enum Said<'a> {
    /// A task begins to run.
    Switch(&'a Name),
    /// No task runs.
    Idle,
    /// A call was made by a task or a body of that name, and this is how it ends. An argument that is a name is the one
    /// beside the arguments.
    Call {
        by: &'a Name,
        word: Word,
        arguments: &'a [ShortArg],
        quoted: &'a Name,
        ends: CallOutcome,
    },
    /// An interrupt source is served.
    Serve(Source),
    /// The request at this address finishes: at a serving of VERTB, or after system time was set.
    Timer(u32),
    /// The body of a server begins.
    Server(&'a Name),
    /// The body of a software interrupt begins.
    Softint(&'a Name),
    /// A call of a task or a body of that name was refused, and the machine stops.
    Alert {
        code: Alert,
        by: &'a Name,
        word: Word,
    },
}
