//! A machine that C keeps, to which tasks are added between its events.
ghost use Rattle.std.specs.Prelude.{◌≡◌, ◌≢◌, ◌≤◌, ◌⊎◌, false, length, true, IsUtf8, MatchOption};
ghost use Rattle.script.specs.Names.{is_name};
ghost use Rattle.execmodel.specs.Tasks.{is_priority};
ghost use Rattle.execsim.specs.Adding.{new_task};
ghost use Rattle.execsim_c.specs.{Adding.AddsTask, Adding.CannotBeAdded, Adding.HasAdded, Handles.Sees};

use crate::handle::MachineHandle;
use crate::session::Session;
use crate::status::{ALERTED, MACHINE_REFUSED, NO_MACHINE, NO_MEMORY, RAN, TOO_MANY};
use execsim::AddFault;
use script::{Name, is_name};
use std::alloc::Global;
use std::str::from_utf8;

/// The name that these bytes are, if they are one.
fn name_of(bytes: &[u8]) -> Option<Name>
    ensures { MatchOption result (IsUtf8 bytes.now → is_name bytes.now ≡ false) (λ n. n.bytes ≡ bytes.now) }
{
    if !is_name(bytes) {
        return None;
    }
    let text = match from_utf8(bytes) {
        Ok(text) => text,
        Err(_) => return None,
    };
    match Name::from(text) {
        Ok(name) => Some(name),
        Err(_) => None,
    }
}

/// The priority of a task that a number is, if it is one.
fn priority_of(number: i32) -> Option<i8>
    ensures { MatchOption result (is_priority number ≡ false) (λ pri. pri ≡ number) }
{
    if number < -128 || 127 < number {
        return None;
    }
    Some(number as i8)
}

/// Adds a task to a machine that goes on, and answers the status. `task` is its number then.
fn add_to_going(alloc: Global, session: &mut Session, name: Name, pri: i8, task: &mut u64) -> u32
    requires { session.old.machine.seen.stopped ≡ false }
    ensures added { result ≡ 0 → AddsTask (new_task name.bytes pri) session.old session.new }
    ensures number { result ≡ 0 → task.new ≡ length session.old.machine.seen.scripts.programs }
    ensures full { result ≡ 8 → 4096 ≤ length session.old.machine.seen.scripts.programs }
    ensures same { result ≢ 0 → session.new ≡ session.old }
    ensures others { (result ≡ 0) ⊎ ((result ≡ 4) ⊎ (result ≡ 8)) }
{
    match session.add_task(alloc, name, pri) {
        Ok(number) => {
            *task = number as u64;
            RAN
        }
        Err(AddFault::Full) => TOO_MANY,
        Err(AddFault::OutOfMemory) => NO_MEMORY,
    }
}

/// Adds a task to a machine, unless an alert has stopped it, and answers the status.
fn add_to(alloc: Global, session: &mut Session, name: Name, pri: i8, task: &mut u64) -> u32
    ensures added { result ≡ 0 → AddsTask (new_task name.bytes pri) session.old session.new }
    ensures number { result ≡ 0 → task.new ≡ length session.old.machine.seen.scripts.programs }
    ensures stopped { result ≡ 3 → session.old.machine.seen.stopped ≡ true }
    ensures full { result ≡ 8 → 4096 ≤ length session.old.machine.seen.scripts.programs }
    ensures same { result ≢ 0 → session.new ≡ session.old }
    ensures unrefused { result ≢ 1 }
{
    if session.is_stopped() {
        return ALERTED;
    }
    add_to_going(alloc, session, name, pri, task)
}

/// Adds a task of a name and a priority to a machine, and answers the status.
fn add_named(
    alloc: Global,
    session: &mut Session,
    name: &[u8],
    priority: i32,
    task: &mut u64,
) -> u32
    ensures added { result ≡ 0 → AddsTask (new_task name.now priority) session.old session.new }
    ensures number { result ≡ 0 → task.new ≡ length session.old.machine.seen.scripts.programs }
    ensures refused { result ≡ 1 → CannotBeAdded name.now priority }
    ensures stopped { result ≡ 3 → session.old.machine.seen.stopped ≡ true }
    ensures full { result ≡ 8 → 4096 ≤ length session.old.machine.seen.scripts.programs }
    ensures same { result ≢ 0 → session.new ≡ session.old }
{
    let Some(own) = name_of(name) else {
        return MACHINE_REFUSED;
    };
    match priority_of(priority) {
        Some(pri) => add_to(alloc, session, own, pri, task),
        None => MACHINE_REFUSED,
    }
}

/// Adds a task of that name and that priority after the others, with an empty body, and puts its number from 0 in
/// `task`. It was never added, until the word AddTask adds it. The run is that of the machine file that has it as its
/// last task from the start, with `start = false`.
///
/// 0 if it is there. Otherwise the machine is as it was: 1 if the name is none of a machine file, or the priority is
/// not from -128 to 127; 3 if an alert has stopped the machine, 8 if it has 4,096 tasks, 4 if memory was refused, and 6
/// if the handle has no machine.
///
/// Source: project rule.
#[unsafe(no_mangle)]
pub extern "C" fn execsim_add_task(
    alloc: Global,
    handle: &mut MachineHandle,
    name: &[u8],
    priority: i32,
    task: &mut u64,
) -> u32
    ensures added { result ≡ 0 → HasAdded name.now priority task.new handle.old.session handle.new.session }
    ensures refused { result ≡ 1 → CannotBeAdded name.now priority }
    ensures stopped { result ≡ 3 → Sees handle.old.session handle.new.session (λ m. m.seen.stopped ≡ true) }
    ensures full { result ≡ 8 → Sees handle.old.session handle.new.session (λ m. 4096 ≤ length m.seen.scripts.programs) }
    ensures same { result ≢ 0 → handle.new.session ≡ handle.old.session }
{
    let mut session = match handle.take(alloc) {
        Some(session) => session,
        None => return NO_MACHINE,
    };
    let status = add_named(alloc, &mut session, name, priority, task);
    handle.put(session);
    status
}
