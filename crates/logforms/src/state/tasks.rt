//! What a machine shows of its tasks.

use crate::page::Page;
use crate::run::Run;
use crate::values::{push_number, push_signed, push_word};
use execlist::space::ListSpace;
use execsim::{Call, Machine, TaskView};
use exectrace::ShortArg;
use taskq::{TaskState, Why};

/// Adds how far a task is in its life, and what it waits for.
fn push_state(page: &mut Page, state: TaskState) {
    match state {
        TaskState::Absent => page.push_str("was not added"),
        TaskState::Ready => page.push_str("is ready"),
        TaskState::Running => page.push_str("runs"),
        TaskState::Waiting(Why::Sem) => page.push_str("waits for a semaphore"),
        TaskState::Waiting(Why::Signals(mask)) => {
            page.push_str("waits for signals ");
            push_word(page, mask);
        }
        TaskState::Removed => page.push_str("has ended"),
    }
}

/// Adds the place of the next command.
fn push_place(page: &mut Page, run: &Run, task: usize, place: usize) {
    let Some(body) = run.book.tasks.get(task) else {
        return;
    };
    let Some(command) = body.places.get(place) else {
        page.push_str("  at the end of its code\n");
        return;
    };
    page.push_str("  at");
    if let Some(line) = command.line {
        page.push_str(" line ");
        push_number(page, u64::from(line));
        page.push_str(":");
    }
    page.push_str(" ");
    page.push_str(command.source.as_str());
    page.push_str("\n");
}

/// Adds an argument of a call.
fn push_argument(page: &mut Page, call: &Call, argument: ShortArg) {
    match argument {
        ShortArg::Value(value) => push_word(page, value),
        ShortArg::Quoted => {
            page.push_str("\"");
            page.push_str(call.quoted.as_str());
            page.push_str("\"");
        }
    }
}

/// Adds the call that a task waits in.
fn push_call(page: &mut Page, call: &Call) {
    page.push_str("  in the call ");
    page.push_str(call.word.text());
    for argument in call.arguments.iter().take(call.count) {
        page.push_str(" ");
        push_argument(page, call, *argument);
    }
    page.push_str("\n");
}

/// Adds the signals and the nest counts of a task.
fn push_signals(page: &mut Page, view: &TaskView) {
    page.push_str("  signals: received ");
    push_word(page, view.received);
    page.push_str(", allocated ");
    push_word(page, view.allocated);
    page.push_str("; nest counts: Forbid ");
    push_signed(page, i64::from(view.forbids));
    page.push_str(", Disable ");
    push_signed(page, i64::from(view.disables));
    page.push_str("\n");
}

/// Adds the variables of a task by name.
fn push_variables<S: ListSpace>(page: &mut Page, machine: &Machine<S>, run: &Run, task: usize) {
    let Some(listing) = run.listed.listing.tasks().get(task) else {
        return;
    };
    let mut is_first = true;
    for (i, value) in machine.variables(task).iter().enumerate() {
        let Some(name) = listing.private_name(i.min(255) as u8) else {
            break;
        };
        page.push_str(if is_first { "  variables: " } else { ", " });
        is_first = false;
        page.push_str(name.as_str());
        page.push_str(" = ");
        push_word(page, *value);
    }
    if !is_first {
        page.push_str("\n");
    }
}

/// Adds a task.
fn push_task<S: ListSpace>(
    page: &mut Page,
    machine: &Machine<S>,
    run: &Run,
    task: usize,
    view: &TaskView,
) {
    page.push_str("\ntask ");
    push_number(page, (task as u64).saturating_add(1));
    page.push_str(", ");
    page.push_str(machine.task_name(task).unwrap_or(""));
    page.push_str(", priority ");
    push_signed(page, i64::from(view.pri));
    page.push_str(": ");
    push_state(page, view.state);
    page.push_str("\n");
    if view.state == TaskState::Absent || view.state == TaskState::Removed {
        push_variables(page, machine, run, task);
        return;
    }
    push_place(page, run, task, view.place);
    if let Some(call) = machine.call(task) {
        push_call(page, call);
    }
    push_signals(page, view);
    push_variables(page, machine, run, task);
}

/// Adds what a machine shows of its tasks.
///
/// Source: project rule.
pub fn push_tasks<S: ListSpace>(page: &mut Page, machine: &Machine<S>, run: &Run) {
    for task in 0..run.book.tasks.len() {
        if let Some(view) = machine.task(task) {
            push_task(page, machine, run, task, &view);
        }
    }
}
