//! A machine that C keeps between calls: it is opened, does events, gives its lines, and is closed.
ghost use Rattle.std.specs.Prelude.{◌≡◌, ◌+◌, ◌⊎◌, IfOk, MatchResult, None, Ok, Err, Some, false, sum_by, true};
ghost use Rattle.script.specs.Events.{event_ticks};
ghost use Rattle.taskscript.specs.{Events.script_of, File.file_of, declared.fault.FileFault.FileFault, declared.fault.EventFault.EventFault};
ghost use Rattle.execmodel.specs.Step.{events};
ghost use Rattle.execsim_c.specs.{Buffers.RefusesFile, Handles.Goes, Handles.Opens, Handles.Takes, Stepping.Does, Stepping.IsStarted};

use crate::handle::MachineHandle;
use crate::put::put;
use crate::refusal::refuse;
use crate::session::Session;
use crate::status::{EVENTS_REFUSED, NO_MACHINE, NO_MEMORY, RAN, TOO_LONG, status_if};
use execsim::SimFault;
use script::{Event, Events};
use std::alloc::{AllocError, Global};
use taskscript::{EventFault, FileFault, read_events, read_machine};

/// The machine of a machine file, which has started.
fn started(alloc: Global, file: &[u8]) -> Result<Box<Session>, FileFault>
    ensures { MatchResult result (λ session. IsStarted (file_of file.now) session.value.machine.seen session.value.lines.items) (λ why. ¬ (why ≡ FileFault.OutOfMemory) → file_of file.now ≡ Err why) }
{
    let file = match read_machine(alloc, file) {
        Ok(file) => file,
        Err(fault) => return Err(fault),
    };
    match Session::start(alloc, &file) {
        Ok(session) => match Box::new(alloc, session) {
            Ok(session) => Ok(session),
            Err(_) => Err(FileFault::OutOfMemory),
        },
        Err(_) => Err(FileFault::OutOfMemory),
    }
}

/// The events of an event text, and how many ticks are left to a machine after them.
fn events_for(alloc: Global, session: &Session, events: &[u8]) -> Result<(Events, u64), EventFault>
    ensures { IfOk result (λ found. (script_of events.now ≡ Ok found.0) × (found.1 + sum_by event_ticks found.0 ≡ session.now.ticks_left)) }
{
    let events = match read_events(alloc, events) {
        Ok(events) => events,
        Err(fault) => return Err(fault),
    };
    match session.ticks_after(events.list()) {
        Some(left) => Ok((events, left)),
        None => Err(EventFault::TooMany),
    }
}

/// The machine after some events.
fn after(
    alloc: Global,
    session: Box<Session>,
    list: &[Event],
    left: u64,
) -> Result<Box<Session>, AllocError>
    requires { left + sum_by event_ticks list.now ≡ session.value.ticks_left }
    ensures { IfOk result (λ next. Does (events list.now) session.value.machine.seen next.value.machine.seen (Some session.value.lines.items) (Some next.value.lines.items)) }
{
    let next = Box::into_inner(session).after(list, left)?;
    Ok(Box::new(alloc, next)?)
}

/// Reads a machine file, starts its machine, and puts that into the handle. A machine that the handle had is closed
/// first.
///
/// 0 if the machine goes on, and 3 if an alert has stopped it at its start: the handle has it, and it has the lines of
/// the start. Otherwise the handle has no machine, and `out` begins with the words of the fault, as far as there is
/// room, which are `length` bytes: 1 if the machine file is refused, and 4 if memory was refused.
///
/// Source: project rule.
#[unsafe(no_mangle)]
pub extern "C" fn execsim_open(
    alloc: Global,
    handle: &mut MachineHandle,
    machine: &[u8],
    out: &mut [u8],
    length: &mut u64,
) -> u32
    ensures ran { result ≡ 0 → Opens (file_of machine.now) handle.new.session false }
    ensures alerted { result ≡ 3 → Opens (file_of machine.now) handle.new.session true }
    ensures refused { result ≡ 1 → RefusesFile (file_of machine.now) }
    ensures closed { (result ≡ 1) ⊎ (result ≡ 4) → handle.new.session ≡ None }
{
    drop(handle.take(alloc));
    match started(alloc, machine) {
        Ok(session) => {
            let stopped = session.is_stopped();
            handle.put(session);
            status_if(stopped)
        }
        Err(why) => refuse(SimFault::File(why), out, length),
    }
}

/// Does the events of an event text, as `run 1`, one after another, and keeps their lines.
///
/// 0 if the machine goes on, and 3 if an alert has stopped it. 2 if the event text is refused, or asks for more ticks
/// than the machine has left, a million from its start on: the machine is as it was, and `out` begins with the words of
/// the fault, as far as there is room, which are `length` bytes. 4 if memory was refused: the machine is closed. 6 if
/// the handle has none.
///
/// Source: project rule.
#[unsafe(no_mangle)]
pub extern "C" fn execsim_events(
    alloc: Global,
    handle: &mut MachineHandle,
    events: &[u8],
    out: &mut [u8],
    length: &mut u64,
) -> u32
    ensures ran { result ≡ 0 → Goes (script_of events.now) handle.old.session handle.new.session false }
    ensures alerted { result ≡ 3 → Goes (script_of events.now) handle.old.session handle.new.session true }
    ensures refused { result ≡ 2 → handle.new.session ≡ handle.old.session }
    ensures closed { (result ≡ 4) ⊎ (result ≡ 6) → handle.new.session ≡ None }
{
    let session = match handle.take(alloc) {
        Some(session) => session,
        None => return NO_MACHINE,
    };
    match events_for(alloc, &session, events) {
        Ok((events, left)) => match after(alloc, session, events.list(), left) {
            Ok(session) => {
                let stopped = session.is_stopped();
                handle.put(session);
                status_if(stopped)
            }
            Err(_) => NO_MEMORY,
        },
        Err(why) => {
            let status = refuse(SimFault::Events(why), out, length);
            if status == EVENTS_REFUSED {
                handle.put(session);
            }
            status
        }
    }
}

/// Moves the lines that the machine has printed since they were taken last to the front of `out`, and puts their length
/// in bytes in `length`.
///
/// 0 if they were moved. 5 if they are longer than `out`: all is as it was, and `length` says how long. 6 if the handle
/// has no machine.
///
/// Source: project rule.
#[unsafe(no_mangle)]
pub extern "C" fn execsim_take(
    alloc: Global,
    handle: &mut MachineHandle,
    out: &mut [u8],
    length: &mut u64,
) -> u32
    ensures taken { result ≡ 0 → Takes handle.old.session handle.new.session out.old out.new length.new }
    ensures longer { result ≡ 5 → (handle.new.session ≡ handle.old.session) × (out.new ≡ out.old) }
{
    let mut session = match handle.take(alloc) {
        Some(session) => session,
        None => return NO_MACHINE,
    };
    *length = session.lines.len() as u64;
    if out.len() < session.lines.len() {
        handle.put(session);
        return TOO_LONG;
    }
    put(session.lines.as_slice(), out);
    session.lines.clear();
    handle.put(session);
    RAN
}

/// Closes the machine of the handle, if it has one.
///
/// Source: project rule.
#[unsafe(no_mangle)]
pub extern "C" fn execsim_close(alloc: Global, handle: &mut MachineHandle)
    ensures { handle.new.session ≡ None }
{
    drop(handle.take(alloc));
}
