//! The variables that hold an address.

use crate::page::Page;
use crate::run::Run;
use execlist::space::ListSpace;
use execsim::Machine;

/// Adds what is before a variable: an opening bracket before the first one, and else a comma.
fn push_before(page: &mut Page, count: usize) {
    page.push_str(if count == 0 { " (" } else { ", " });
}

/// Adds the variables of a task that hold an address, and answers how many have been added by then.
fn push_private<S: ListSpace>(
    page: &mut Page,
    machine: &Machine<S>,
    run: &Run,
    task: usize,
    address: u32,
    count: usize,
) -> usize {
    let mut count = count;
    let Some(listing) = run.listed.listing.tasks().get(task) else {
        return count;
    };
    for (i, value) in machine.variables(task).iter().enumerate() {
        if *value == address {
            if let Some(name) = listing.private_name(i.min(255) as u8) {
                push_before(page, count);
                page.push_str(name.as_str());
                page.push_str(" of ");
                page.push_str(machine.task_name(task).unwrap_or(""));
                count = count.saturating_add(1);
            }
        }
    }
    count
}

/// Adds the shared variables that hold an address, and answers how many have been added.
fn push_shared<S: ListSpace>(
    page: &mut Page,
    machine: &Machine<S>,
    run: &Run,
    address: u32,
) -> usize {
    let mut count = 0usize;
    for (i, value) in machine.shared_variables().iter().enumerate() {
        if *value == address {
            if let Some(name) = run.listed.listing.shared_name(i.min(255) as u8) {
                push_before(page, count);
                page.push_str("@");
                page.push_str(name.as_str());
                count = count.saturating_add(1);
            }
        }
    }
    count
}

/// Adds the variables that hold an address, in brackets; nothing if none does.
///
/// Source: project rule.
pub fn push_holders<S: ListSpace>(page: &mut Page, machine: &Machine<S>, run: &Run, address: u32) {
    let mut count = push_shared(page, machine, run, address);
    for task in 0..run.book.tasks.len() {
        count = push_private(page, machine, run, task, address, count);
    }
    if count > 0 {
        page.push_str(")");
    }
}
