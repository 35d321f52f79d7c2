//! Who does what to whom: the arrows of a picture.
use crate::film::Shown;
use crate::lines::{CallLine, TraceLine, read_line};
use execsim::{ObjectView, TaskView};
use msgport::action::PortAction;
use script::{
    InterruptWord, MachineFile, PortWord, RequestWord, SemaphoreWord, SignalWord, Source, Word,
};
use std::alloc::AllocError;
use taskq::{TaskId, TaskState};

/// Who does something.
#[derive(Clone, Copy)]
pub(crate) enum Doer {
    /// A task.
    Task(TaskId),
    /// A server of a source.
    Server(Source),
    /// A software interrupt.
    Softint(usize),
    /// The timer.
    Timer,
}

/// To whom it is done.
#[derive(Clone, Copy)]
pub(crate) enum Aim {
    /// A task.
    Task(TaskId),
    /// A software interrupt.
    Softint(usize),
}

/// What is done.
#[derive(Clone, Copy)]
pub(crate) enum Means {
    /// Signals are sent.
    Signal,
    /// A message is put at a port.
    Message,
    /// A message is replied.
    Reply,
    /// A semaphore is handed on.
    Semaphore,
    /// A request is finished.
    Request,
    /// A software interrupt is caused.
    Cause,
}

/// One does something to another.
#[derive(Clone, Copy)]
pub(crate) struct Arrow {
    pub doer: Doer,
    pub aim: Aim,
    pub means: Means,
    /// The first argument of the call, or the address of the request.
    pub about: u32,
    /// Whether the task waited, and does no more.
    pub wakes: bool,
}

/// The task, the server or the software interrupt of a name.
pub(crate) fn doer_named(file: &MachineFile, name: &str) -> Option<Doer> {
    for (t, task) in file.tasks().iter().enumerate() {
        if task.name.as_str() == name {
            return Some(Doer::Task(t));
        }
    }
    if let Some(i) = softint_named(file, name) {
        return Some(Doer::Softint(i));
    }
    for server in file.servers() {
        if server.name.as_str() == name {
            return Some(Doer::Server(server.source));
        }
    }
    None
}

/// The software interrupt of a name.
fn softint_named(file: &MachineFile, name: &str) -> Option<usize> {
    for (i, softint) in file.softints().iter().enumerate() {
        if softint.name.as_str() == name {
            return Some(i);
        }
    }
    None
}

/// Whom a port reports a message to.
fn aim_of_port(machine: &Shown, port: u32) -> Option<Aim> {
    match machine.block(port)?.object {
        ObjectView::Port(view) => match view.action {
            PortAction::Signal => Some(Aim::Task(view.task)),
            PortAction::Cause(i) => Some(Aim::Softint(i)),
            PortAction::Ignore => None,
        },
        _ => None,
    }
}

/// Whom the reply of a message or of a request is reported to.
fn aim_of_reply(machine: &Shown, message: u32) -> Option<Aim> {
    match machine.block(message)?.object {
        ObjectView::Message(view) => aim_of_port(machine, view.reply),
        ObjectView::Request(view) => aim_of_port(machine, view.port),
        _ => None,
    }
}

/// The owner of a semaphore.
fn aim_of_semaphore(machine: &Shown, semaphore: u32) -> Option<Aim> {
    match machine.block(semaphore)?.object {
        ObjectView::Semaphore(view) => Some(Aim::Task(view.owner?)),
        _ => None,
    }
}

/// The task of a number in a call; the first task is 1.
fn aim_of_number(file: &MachineFile, number: u32) -> Option<Aim> {
    let t = number.checked_sub(1)? as usize;
    if t < file.tasks().len() {
        Some(Aim::Task(t))
    } else {
        None
    }
}

/// The software interrupt of a name between double quotes.
fn aim_of_name(file: &MachineFile, said: &str) -> Option<Aim> {
    let name = said.rsplit_once(' ')?.1;
    Some(Aim::Softint(softint_named(file, name.trim_matches('"'))?))
}

/// What a word does to another, if it does.
fn means_of(word: Word) -> Option<Means> {
    match word {
        Word::Signals(SignalWord::Signal) => Some(Means::Signal),
        Word::Ports(PortWord::PutMsg) => Some(Means::Message),
        Word::Ports(PortWord::ReplyMsg) => Some(Means::Reply),
        Word::Requests(RequestWord::AbortIO) => Some(Means::Request),
        Word::Semaphores(SemaphoreWord::ReleaseSemaphore) => Some(Means::Semaphore),
        Word::Interrupts(InterruptWord::Cause) => Some(Means::Cause),
        _ => None,
    }
}

/// To whom a call does that.
fn aim_of(file: &MachineFile, machine: &Shown, means: Means, call: &CallLine<'_>) -> Option<Aim> {
    if matches!(means, Means::Cause) {
        return aim_of_name(file, call.said);
    }
    let first = call.first?;
    match means {
        Means::Signal => aim_of_number(file, first),
        Means::Message => aim_of_port(machine, first),
        Means::Semaphore => aim_of_semaphore(machine, first),
        _ => aim_of_reply(machine, first),
    }
}

/// What a line says that one does to another; not yet whether it wakes.
fn act_of(file: &MachineFile, machine: &Shown, line: &str) -> Option<Arrow> {
    match read_line(line) {
        TraceLine::Timer(request) => Some(Arrow {
            doer: Doer::Timer,
            aim: aim_of_reply(machine, request)?,
            means: Means::Request,
            about: request,
            wakes: false,
        }),
        TraceLine::Call(call) => {
            let doer = doer_named(file, call.who)?;
            let means = means_of(call.word)?;
            let aim = aim_of(file, machine, means, &call)?;
            Some(Arrow {
                doer,
                aim,
                means,
                about: call.first.unwrap_or(0),
                wakes: false,
            })
        }
        _ => None,
    }
}

/// Whether a task in that state waits.
pub(crate) fn waits(state: TaskState) -> bool {
    matches!(state, TaskState::Waiting(_))
}

/// Whether a deed wakes whom it reaches, a task that was as in `before`; none if it reaches no one: the task that does
/// it, or one that was not added or has ended.
fn wakes(machine: &Shown, deed: &Arrow, before: &[TaskState]) -> Option<bool> {
    let Aim::Task(t) = deed.aim else {
        return Some(true);
    };
    let is = machine.task(t)?.state;
    if matches!(is, TaskState::Absent | TaskState::Removed)
        || matches!(deed.doer, Doer::Task(by) if by == t)
    {
        return None;
    }
    match before.get(t) {
        Some(was) => Some(waits(*was) && !waits(is)),
        None => Some(false),
    }
}

/// What a line says that one does to another.
fn deed_of(file: &MachineFile, machine: &Shown, before: &[TaskState], line: &str) -> Option<Arrow> {
    let mut deed = act_of(file, machine, line)?;
    deed.wakes = wakes(machine, &deed, before)?;
    Some(deed)
}

/// Leaves in `deeds` what was done since the point before, at which the tasks were as in `before`.
pub(crate) fn read_deeds(
    file: &MachineFile,
    machine: &Shown,
    before: &[TaskState],
    text: &str,
    deeds: &mut Vec<Arrow>,
) -> Result<(), AllocError> {
    deeds.clear();
    for line in text.lines() {
        if let Some(deed) = deed_of(file, machine, before, line) {
            deeds.push(deed)?;
        }
    }
    Ok(())
}

/// Leaves in `states` how the tasks are.
pub(crate) fn read_states(machine: &Shown, states: &mut Vec<TaskState>) -> Result<(), AllocError> {
    states.clear();
    for t in 0..machine.view().tasks {
        if let Some(TaskView { state, .. }) = machine.task(t) {
            states.push(state)?;
        }
    }
    Ok(())
}
