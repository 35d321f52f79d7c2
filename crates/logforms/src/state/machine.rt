//! What a machine shows beside its tasks and its memory.

use crate::page::Page;
use crate::run::Run;
use crate::values::{push_millis, push_number, push_word};
use execlist::space::ListSpace;
use execsim::{Machine, MachineView};
use softint::latches::Latches;

/// The most tasks and software interrupts that a machine has.
const MOST: usize = 64;

/// Adds the name of a task.
///
/// Source: project rule.
pub fn push_task_name<S: ListSpace>(page: &mut Page, machine: &Machine<S>, task: usize) {
    page.push_str(machine.task_name(task).unwrap_or("nobody"));
}

/// Adds the clock and system time.
fn push_times(page: &mut Page, view: &MachineView) {
    page.push_str("clock: ");
    push_millis(page, view.clock);
    page.push_str(" ms; system time: ");
    push_millis(page, view.system_time);
    page.push_str(" ms\n");
}

/// Adds how long a task runs yet.
fn push_left(page: &mut Page, servings: u8) {
    page.push_str(", with ");
    push_number(page, u64::from(servings));
    page.push_str(if servings == 1 {
        " serving"
    } else {
        " servings"
    });
    page.push_str(" of VERTB left in its quantum\n");
}

/// Adds who runs.
fn push_running<S: ListSpace>(page: &mut Page, machine: &Machine<S>, view: &MachineView) {
    if view.stopped {
        page.push_str("an alert has stopped the machine\n");
    }
    page.push_str("running: ");
    match view.running {
        None => page.push_str("no task\n"),
        Some(task) => {
            push_task_name(page, machine, task);
            push_left(page, view.quantum_left);
        }
    }
}

/// Adds the ready tasks, as they are to run.
fn push_ready<S: ListSpace>(page: &mut Page, machine: &Machine<S>) {
    page.push_str("ready:");
    let mut after = None;
    for _task in 0..MOST {
        match machine.ready_after(after) {
            None => break,
            Some(task) => {
                page.push_str(if after.is_some() { ", " } else { " " });
                push_task_name(page, machine, task);
                after = Some(task);
            }
        }
    }
    page.push_str(if after.is_some() { "\n" } else { " none\n" });
}

/// Adds the sources whose requests wait.
fn push_latches(page: &mut Page, latches: Latches) {
    page.push_str("latched sources:");
    if latches.exter {
        page.push_str(" EXTER");
    }
    if latches.vertb {
        page.push_str(" VERTB");
    }
    if latches.ports {
        page.push_str(" PORTS");
    }
    if latches.exter || latches.vertb || latches.ports {
        page.push_str("\n");
    } else {
        page.push_str(" none\n");
    }
}

/// Adds the caused software interrupts, as they are to run.
fn push_caused<S: ListSpace>(page: &mut Page, machine: &Machine<S>, run: &Run) {
    page.push_str("caused software interrupts:");
    let mut after = None;
    for _one in 0..MOST {
        match machine.caused_after(after) {
            None => break,
            Some(number) => {
                page.push_str(if after.is_some() { ", " } else { " " });
                if let Some(body) = run.book.interrupts.get(number) {
                    page.push_str(body.name.as_str());
                }
                after = Some(number);
            }
        }
    }
    page.push_str(if after.is_some() { "\n" } else { " none\n" });
}

/// Adds the shared variables by name.
fn push_shared<S: ListSpace>(page: &mut Page, machine: &Machine<S>, run: &Run) {
    page.push_str("shared variables:");
    let mut is_first = true;
    for (i, value) in machine.shared_variables().iter().enumerate() {
        let Some(name) = run.listed.listing.shared_name(i.min(255) as u8) else {
            break;
        };
        page.push_str(if is_first { " @" } else { ", @" });
        is_first = false;
        page.push_str(name.as_str());
        page.push_str(" = ");
        push_word(page, *value);
    }
    page.push_str(if is_first { " none\n" } else { "\n" });
}

/// Adds what a machine shows beside its tasks and its memory.
///
/// Source: project rule.
pub fn push_machine<S: ListSpace>(page: &mut Page, machine: &Machine<S>, run: &Run) {
    let view = machine.view();
    push_times(page, &view);
    push_running(page, machine, &view);
    push_ready(page, machine);
    push_latches(page, view.latches);
    push_caused(page, machine, run);
    push_shared(page, machine, run);
}
