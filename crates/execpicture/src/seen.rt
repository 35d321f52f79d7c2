//! What a picture shows of a task, of the interrupts and of an object at one point.
use crate::deeds::waits;
use crate::film::Shown;
use execsim::{Call, ObjectView};
use exectrace::ShortArg;
use iorequest::request::ReqState;
use script::{PortWord, RequestWord, SemaphoreWord, Word};
use taskq::{TaskId, TaskState};

/// What a task waits for in a call.
#[derive(Clone, Copy, PartialEq)]
pub(crate) enum Awaits {
    /// It waits in no call.
    Nothing,
    /// Signals of a mask.
    Signals(u32),
    /// An object of a kind, at an address.
    Object(Kind, u32),
}

/// What is shown of a task.
#[derive(Clone, Copy, PartialEq)]
pub(crate) struct TaskSeen {
    /// If it is in its life, and what it waits for.
    pub state: TaskState,
    /// What the call is about that it waits in.
    pub awaits: Awaits,
}

/// What is shown of an object.
#[derive(Clone, Copy, PartialEq)]
pub(crate) enum ObjectSeen {
    /// There is none.
    Absent,
    /// A semaphore, with its owner.
    Semaphore(Option<TaskId>),
    /// A message port, with the number of its messages.
    Port(u32),
    /// A request that is not in progress.
    Idle,
    /// A request that waits for a time, in microseconds.
    Busy(u64),
    /// A request that waits until a system time, in microseconds.
    BusyUntil(u64),
}

/// Which kind of object is shown.
#[derive(Clone, Copy, PartialEq)]
pub(crate) enum Kind {
    /// A semaphore.
    Semaphore,
    /// A message port.
    Port,
    /// A timer request.
    Request,
}

/// The first argument of a call.
fn first_argument(call: &Call) -> u32 {
    match call.arguments[0] {
        ShortArg::Value(value) => value,
        ShortArg::Quoted => 0,
    }
}

/// What a task waits for in a call.
fn awaits_in(word: Word, argument: u32) -> Awaits {
    match word {
        Word::Ports(PortWord::WaitPort) => Awaits::Object(Kind::Port, argument),
        Word::Requests(RequestWord::WaitIO | RequestWord::DoIO) => {
            Awaits::Object(Kind::Request, argument)
        }
        Word::Semaphores(SemaphoreWord::ObtainSemaphore) => {
            Awaits::Object(Kind::Semaphore, argument)
        }
        _ => Awaits::Signals(argument),
    }
}

/// What is shown of a task that is in a state.
pub(crate) fn task_seen(machine: &Shown, t: TaskId, state: TaskState) -> TaskSeen {
    let mut awaits = Awaits::Nothing;
    if waits(state) {
        if let Some(call) = machine.call(t) {
            awaits = awaits_in(call.word, first_argument(call));
        }
    }
    TaskSeen { state, awaits }
}

/// Whether interrupts are disabled.
pub(crate) fn is_shut(machine: &Shown) -> bool {
    let Some(t) = machine.view().running else {
        return false;
    };
    match machine.task(t) {
        Some(view) => view.disables >= 0,
        None => false,
    }
}

/// How many messages a port has, of which there are at most as many as objects.
fn messages(machine: &Shown, port: u32) -> u32 {
    let mut last = None;
    for count in 0..MOST_MESSAGES {
        last = machine.message_after(port, last);
        if last.is_none() {
            return count;
        }
    }
    MOST_MESSAGES
}

/// More messages than a machine may have: 1,024, and as many requests.
const MOST_MESSAGES: u32 = 2_048;

/// What is shown of the object of a kind at an address.
pub(crate) fn object_seen(machine: &Shown, kind: Kind, address: u32) -> ObjectSeen {
    let Some(block) = machine.block(address) else {
        return ObjectSeen::Absent;
    };
    match (kind, block.object) {
        (Kind::Semaphore, ObjectView::Semaphore(view)) => ObjectSeen::Semaphore(view.owner),
        (Kind::Port, ObjectView::Port(_)) => ObjectSeen::Port(messages(machine, address)),
        (Kind::Request, ObjectView::Request(view)) => match view.state {
            ReqState::UnderWay => {
                if view.is_until() {
                    ObjectSeen::BusyUntil(view.time())
                } else {
                    ObjectSeen::Busy(view.time())
                }
            }
            _ => ObjectSeen::Idle,
        },
        _ => ObjectSeen::Absent,
    }
}
