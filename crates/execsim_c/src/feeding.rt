//! A machine that C keeps, whose bodies grow between its events: a line is fed to a task at the end of its body, and
//! the end of a body is seen.
ghost use Rattle.std.specs.Prelude.{◌≡◌, ◌≢◌, ◌⊎◌, IsSome, MatchResult, None};
ghost use Rattle.script.specs.Commands.{command_view};
ghost use Rattle.taskscript.specs.{Feeding.IsFed, declared.fault.FileFault.FileFault};
ghost use Rattle.execmodel.specs.{Feeding.at_end, State.State};
ghost use Rattle.execsim.specs.{Agreement.Agrees, Readers.task_seen};
ghost use Rattle.execsim_c.specs.{Feeding.CannotBeFed, Feeding.FeedsLine, Feeding.FeedsCommand, Feeding.IsFedTo, Handles.Sees, Shown.number_shown};

use crate::handle::MachineHandle;
use crate::session::Session;
use crate::shown::number_of;
use crate::status::{MACHINE_REFUSED, NO_MACHINE, NO_MEMORY, NOT_THERE, RAN};
use script::Command;
use std::alloc::Global;
use std::str::from_utf8;
use taskscript::{FileFault, read_fed};

/// The command that a line says which may be fed.
fn command_of(alloc: Global, line: &[u8]) -> Result<Command, FileFault>
    ensures { MatchResult result
        (λ c. IsFed line.now (command_view c))
        (λ fault. ¬ (fault ≡ FileFault.OutOfMemory) → CannotBeFed line.now) }
{
    match from_utf8(line) {
        Ok(text) => read_fed(alloc, text),
        Err(_) => Err(FileFault::BadCommand),
    }
}

/// Feeds a command to a task that is there, and answers the status.
fn feed_task(session: &mut Session, task: usize, command: Command) -> u32
    requires { IsSome (task_seen task session.old.machine.seen) }
    ensures fed { result ≡ 0 → FeedsCommand task (command_view command) session.old session.new }
    ensures same { result ≢ 0 → session.new ≡ session.old }
    ensures others { (result ≡ 0) ⊎ (result ≡ 4) }
{
    match session.feed(task, command) {
        Ok(()) => RAN,
        Err(_) => NO_MEMORY,
    }
}

/// Feeds a command to a task, if there is such a task, and answers the status.
fn feed_command(session: &mut Session, task: usize, command: Command) -> u32
    ensures fed { result ≡ 0 → FeedsCommand task (command_view command) session.old session.new }
    ensures none { result ≡ 7 → task_seen task session.old.machine.seen ≡ None }
    ensures same { result ≢ 0 → session.new ≡ session.old }
    ensures unrefused { result ≢ 1 }
{
    match session.machine.task(task) {
        None => NOT_THERE,
        Some(_) => feed_task(session, task, command),
    }
}

/// Feeds a line to a task, and answers the status.
fn feed_line(alloc: Global, session: &mut Session, task: usize, line: &[u8]) -> u32
    ensures fed { result ≡ 0 → FeedsLine task line.now session.old session.new }
    ensures refused { result ≡ 1 → CannotBeFed line.now }
    ensures none { result ≡ 7 → task_seen task session.old.machine.seen ≡ None }
    ensures same { result ≢ 0 → session.new ≡ session.old }
{
    match command_of(alloc, line) {
        Ok(command) => feed_command(session, task, command),
        Err(FileFault::OutOfMemory) => NO_MEMORY,
        Err(_) => MACHINE_REFUSED,
    }
}

/// Feeds a line to a task, by its number from 0 in the order of the file: its command is the last one of the task's
/// body then. If no step has found the task at the end of its body before, the run is that of the machine file whose
/// body has the line from the start.
///
/// 0 if it is fed. Otherwise the machine is as it was: 1 if the line is not a command, or has a variable or a jump; 7
/// if there is no such task, 4 if memory was refused, and 6 if the handle has no machine.
///
/// Source: project rule.
#[unsafe(no_mangle)]
pub extern "C" fn execsim_feed(
    alloc: Global,
    handle: &mut MachineHandle,
    task: usize,
    line: &[u8],
) -> u32
    ensures fed { result ≡ 0 → IsFedTo task line.now handle.old.session handle.new.session }
    ensures refused { result ≡ 1 → CannotBeFed line.now }
    ensures none { result ≡ 7 → Sees handle.old.session handle.new.session (λ m. task_seen task m.seen ≡ None) }
    ensures same { result ≢ 0 → handle.new.session ≡ handle.old.session }
{
    let mut session = match handle.take(alloc) {
        Some(session) => session,
        None => return NO_MACHINE,
    };
    let status = feed_line(alloc, &mut session, task, line);
    handle.put(session);
    status
}

/// Puts the task that the next step finds at the end of its body in `task`, by its number from 0, or `u64::MAX` for
/// none. That step ends the task, unless it is fed before.
///
/// 0 if it is there, and 6 if the handle has no machine.
///
/// Source: project rule.
#[unsafe(no_mangle)]
pub extern "C" fn execsim_at_end(alloc: Global, handle: &mut MachineHandle, task: &mut u64) -> u32
    ensures shown { result ≡ 0 → Sees handle.old.session handle.new.session (λ m. (s : State) → Agrees m.seen s → task.new ≡ number_shown (at_end s)) }
    ensures same { handle.new.session ≡ handle.old.session }
{
    let session = match handle.take(alloc) {
        Some(session) => session,
        None => return NO_MACHINE,
    };
    *task = number_of(session.machine.at_end());
    handle.put(session);
    RAN
}
