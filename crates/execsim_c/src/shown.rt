//! What C sees of a machine, of a task and of a block: structs of numbers.
ghost use Rattle.std.specs.Prelude.{◌≡◌};
ghost use Rattle.execsim_c.specs.Shown.{latches_shown, machine_shown, state_shown, task_shown, number_shown, waits_shown};

use execheap::{BlockView, ObjectView};
use execsim::{MachineView, TaskView};
use iorequest::request::ReqState;
use softint::latches::Latches;
use taskq::{TaskId, TaskState, Why};

/// What is shown of no task.
const NONE: u64 = u64::MAX;

/// What is shown of a machine beside its tasks and its memory.
#[repr(C)]
#[derive(Clone, Copy)]
pub struct MachineShown {
    /// The clock, in microseconds.
    pub clock: u64,
    /// System time, in microseconds.
    pub system_time: u64,
    /// How many tasks there are.
    pub tasks: u64,
    /// The task that runs, from 0, or `NONE`.
    pub running: u64,
    /// The servings of VERTB that are left to it in its quantum.
    pub quantum_left: u32,
    /// The sources that ask to be served: bit 0 is PORTS, bit 1 VERTB, bit 2 EXTER.
    pub latches: u32,
    /// 1 if an alert has stopped the machine, and 0 otherwise.
    pub stopped: u32,
}

/// What is shown of a task.
#[repr(C)]
#[derive(Clone, Copy)]
pub struct TaskShown {
    /// The place of its next command in its code, from 0.
    pub place: u64,
    /// 0 if it was never added, 1 if it is ready, 2 if it runs, 3 if it waits for signals, 4 if for a semaphore, 5 if
    /// it was removed.
    pub state: u32,
    /// The signals that it waits for.
    pub waits_for: u32,
    /// The signals that it has received.
    pub received: u32,
    /// The signals that it has allocated.
    pub allocated: u32,
    /// Its priority.
    pub priority: i32,
    /// Its count of Forbid.
    pub forbids: i32,
    /// Its count of Disable.
    pub disables: i32,
}

/// What is shown of a block and of the object in it. What an object of its kind does not have is 0, or `NONE` for a
/// task.
#[repr(C)]
#[derive(Clone, Copy)]
pub struct BlockShown {
    /// The task of a port, or the owner of a semaphore, from 0, or `NONE`.
    pub task: u64,
    /// Its size in bytes.
    pub size: u32,
    /// 0 for plain memory, 1 a list, 2 a node, 3 a port, 4 a message, 5 a semaphore, 6 a library, 7 a timer request.
    pub kind: u32,
    /// How often the owner of a semaphore has to release it, or how often a library is open.
    pub count: u32,
    /// The number of the signal of a port.
    pub signal: u32,
    /// The word of a message.
    pub word: u32,
    /// The address of the reply port of a message or of a request.
    pub reply_port: u32,
    /// 0 if a request was never begun, 1 if it is in progress, 2 if it was finished at once, 3 if it was replied.
    pub state: u32,
    /// The priority of a node.
    pub priority: i32,
}

/// A task's number, or `NONE`.
pub(crate) fn number_of(task: Option<TaskId>) -> u64
    ensures { result ≡ number_shown task }
{
    match task {
        Some(task) => task as u64,
        None => NONE,
    }
}

/// The sources that ask to be served, as bits.
fn latches_of(latches: Latches) -> u32
    ensures { result ≡ latches_shown latches }
{
    match (latches.exter, latches.vertb, latches.ports) {
        (false, false, false) => 0,
        (false, false, true) => 1,
        (false, true, false) => 2,
        (false, true, true) => 3,
        (true, false, false) => 4,
        (true, false, true) => 5,
        (true, true, false) => 6,
        (true, true, true) => 7,
    }
}

/// The number of a task's state.
fn state_of(state: TaskState) -> u32
    ensures { result ≡ state_shown state }
{
    match state {
        TaskState::Absent => 0,
        TaskState::Ready => 1,
        TaskState::Running => 2,
        TaskState::Waiting(Why::Signals(_)) => 3,
        TaskState::Waiting(Why::Sem) => 4,
        TaskState::Removed => 5,
    }
}

/// The signals that a task waits for.
fn waits_of(state: TaskState) -> u32
    ensures { result ≡ waits_shown state }
{
    match state {
        TaskState::Waiting(Why::Signals(mask)) => mask,
        _ => 0,
    }
}

/// What is shown of a machine.
pub(crate) fn machine_of(view: MachineView) -> MachineShown
    ensures { result ≡ machine_shown view }
{
    MachineShown {
        clock: view.clock,
        system_time: view.system_time,
        tasks: view.tasks as u64,
        running: number_of(view.running),
        quantum_left: u32::from(view.quantum_left),
        latches: latches_of(view.latches),
        stopped: u32::from(view.stopped),
    }
}

/// What is shown of a task.
pub(crate) fn task_of(view: TaskView) -> TaskShown
    ensures { result ≡ task_shown view }
{
    TaskShown {
        place: view.place as u64,
        state: state_of(view.state),
        waits_for: waits_of(view.state),
        received: view.received,
        allocated: view.allocated,
        priority: i32::from(view.pri),
        forbids: i32::from(view.forbids),
        disables: i32::from(view.disables),
    }
}

/// The number of a request's state.
fn request_state_of(state: ReqState) -> u32 {
    match state {
        ReqState::Idle => 0,
        ReqState::UnderWay => 1,
        ReqState::Quick => 2,
        ReqState::Replied => 3,
    }
}

/// A block in which nothing is.
fn plain_of(size: u32, kind: u32) -> BlockShown {
    BlockShown {
        task: NONE,
        size,
        kind,
        count: 0,
        signal: 0,
        word: 0,
        reply_port: 0,
        state: 0,
        priority: 0,
    }
}

/// What is shown of a block.
pub(crate) fn block_of(view: BlockView) -> BlockShown {
    match view.object {
        ObjectView::Plain => plain_of(view.size, 0),
        ObjectView::List => plain_of(view.size, 1),
        ObjectView::Node(priority) => BlockShown {
            priority: i32::from(priority),
            ..plain_of(view.size, 2)
        },
        ObjectView::Port(port) => BlockShown {
            task: port.task as u64,
            signal: port.signal,
            ..plain_of(view.size, 3)
        },
        ObjectView::Message(message) => BlockShown {
            word: message.word,
            reply_port: message.reply,
            ..plain_of(view.size, 4)
        },
        ObjectView::Semaphore(semaphore) => BlockShown {
            task: number_of(semaphore.owner),
            count: u32::from(semaphore.count),
            ..plain_of(view.size, 5)
        },
        ObjectView::Library(library) => BlockShown {
            count: u32::from(library.count),
            ..plain_of(view.size, 6)
        },
        ObjectView::Request(request) => BlockShown {
            reply_port: request.port,
            state: request_state_of(request.state),
            ..plain_of(view.size, 7)
        },
    }
}
