//! What a machine shows of an object in its memory, in words.

use super::Known;
use super::holders::push_holders;
use super::machine::push_task_name;
use crate::page::Page;
use crate::public_ports::PublicPorts;
use crate::run::Run;
use crate::values::{push_millis, push_number, push_signed, push_word};
use execlist::space::ListSpace;
use execsim::{DueTime, LibraryView, Machine, ObjectView, PortView};
use iorequest::request::{ReqState, Request};
use msgport::action::PortAction;
use msgport::message::{Message, NT_FREEMSG, NT_MESSAGE, NT_REPLYMSG};
use sigsem::semaphore::Sem;

/// The most objects or tasks that are shown of a list, a port or a semaphore; none has more.
const MOST: usize = 1_024;

/// Adds the nodes of a list.
fn push_nodes<S: ListSpace>(page: &mut Page, machine: &Machine<S>, list: u32) {
    let mut after = None;
    for _node in 0..MOST {
        match machine.node_after(list, after) {
            None => break,
            Some(node) => {
                page.push_str(if after.is_some() { ", " } else { ": " });
                push_word(page, node);
                after = Some(node);
            }
        }
    }
    if after.is_none() {
        page.push_str(", empty");
    }
}

/// Adds what a port does when a message arrives.
fn push_action(page: &mut Page, run: &Run, port: &PortView) {
    match port.action {
        PortAction::Signal => {
            page.push_str("PA_SIGNAL, signal ");
            push_number(page, u64::from(port.signal));
        }
        PortAction::Ignore => page.push_str("PA_IGNORE"),
        PortAction::Cause(number) => {
            page.push_str("PA_SOFTINT, causes ");
            match run.book.interrupts.get(number) {
                None => {}
                Some(body) => page.push_str(body.name.as_str()),
            }
        }
    }
}

/// Adds the messages of a port.
fn push_messages<S: ListSpace>(page: &mut Page, machine: &Machine<S>, port: u32) {
    let mut after = None;
    for _message in 0..MOST {
        match machine.message_after(port, after) {
            None => break,
            Some(message) => {
                page.push_str(if after.is_some() { ", " } else { "; messages " });
                push_word(page, message);
                after = Some(message);
            }
        }
    }
    if after.is_none() {
        page.push_str("; no message");
    }
}

/// Adds that an object is a port, and its public name, if it is public.
fn push_public(page: &mut Page, public: &PublicPorts, address: u32) {
    match public.name_of(address) {
        None => page.push_str("port of "),
        Some(name) => {
            page.push_str("public port \"");
            page.push_str(name);
            page.push_str("\" of ");
        }
    }
}

/// Adds a port.
fn push_port<S: ListSpace>(
    page: &mut Page,
    machine: &Machine<S>,
    known: &Known<'_>,
    address: u32,
    port: &PortView,
) {
    push_public(page, known.public, address);
    push_task_name(page, machine, port.task);
    page.push_str(", ");
    push_action(page, known.run, port);
    push_messages(page, machine, address);
}

/// The name of a type of messages.
fn kind_name(kind: u8) -> &'static str {
    if kind == NT_MESSAGE {
        "NT_MESSAGE"
    } else if kind == NT_REPLYMSG {
        "NT_REPLYMSG"
    } else if kind == NT_FREEMSG {
        "NT_FREEMSG"
    } else {
        "new"
    }
}

/// Adds the port that has a message, or the reply of a request.
fn push_where<S: ListSpace>(page: &mut Page, machine: &Machine<S>, address: u32) {
    match machine.port_with(address) {
        None => page.push_str("; in no port"),
        Some(port) => {
            page.push_str("; in port ");
            push_word(page, port);
        }
    }
}

/// Adds a message.
fn push_message<S: ListSpace>(
    page: &mut Page,
    machine: &Machine<S>,
    address: u32,
    message: &Message,
) {
    page.push_str("message, ");
    page.push_str(kind_name(message.kind));
    page.push_str(", word ");
    push_word(page, message.word);
    page.push_str(", reply port ");
    push_word(page, message.reply);
    push_where(page, machine, address);
}

/// Adds the tasks that wait for a semaphore.
fn push_waiters<S: ListSpace>(page: &mut Page, machine: &Machine<S>, address: u32) {
    let mut after = None;
    for _task in 0..MOST {
        match machine.waiter_after(address, after) {
            None => break,
            Some(task) => {
                page.push_str(if after.is_some() { ", " } else { "; waiting: " });
                push_task_name(page, machine, task);
                after = Some(task);
            }
        }
    }
}

/// Adds a semaphore.
fn push_semaphore<S: ListSpace>(
    page: &mut Page,
    machine: &Machine<S>,
    address: u32,
    semaphore: &Sem,
) {
    match semaphore.owner {
        None => page.push_str("semaphore, free"),
        Some(owner) => {
            page.push_str("semaphore of ");
            push_task_name(page, machine, owner);
            page.push_str(", count ");
            push_number(page, u64::from(semaphore.count));
        }
    }
    push_waiters(page, machine, address);
}

/// Adds a library.
fn push_library(page: &mut Page, run: &Run, library: &LibraryView) {
    page.push_str("library ");
    if let Some(record) = run.listed.machine.libraries().get(library.number) {
        page.push_str(record.name.as_str());
    }
    page.push_str(", open count ");
    push_number(page, u64::from(library.count));
    if library.is_delayed {
        page.push_str(", to be expunged when it is closed");
    }
}

/// How far a request has come.
fn state_name(state: ReqState) -> &'static str {
    match state {
        ReqState::Idle => "idle",
        ReqState::UnderWay => "in progress",
        ReqState::Quick => "done at once",
        ReqState::Replied => "replied",
    }
}

/// Adds the time for which a request waits.
fn push_due<S: ListSpace>(page: &mut Page, machine: &Machine<S>, address: u32) {
    match machine.due(address) {
        None => {}
        Some(DueTime::Clock(micros)) => {
            page.push_str("; due at ");
            push_millis(page, micros);
            page.push_str(" ms of the clock");
        }
        Some(DueTime::System(micros)) => {
            page.push_str("; due at ");
            push_millis(page, micros);
            page.push_str(" ms of system time");
        }
    }
}

/// Adds a timer request.
fn push_request<S: ListSpace>(
    page: &mut Page,
    machine: &Machine<S>,
    address: u32,
    request: &Request,
) {
    page.push_str("timer request, ");
    page.push_str(state_name(request.state));
    match request.unit {
        None => page.push_str(", not open"),
        Some(unit) => {
            page.push_str(", unit ");
            push_number(page, u64::from(unit));
        }
    }
    page.push_str(", command ");
    push_number(page, u64::from(request.command));
    page.push_str(", time ");
    push_number(page, u64::from(request.secs));
    page.push_str(" s ");
    push_number(page, u64::from(request.micros));
    page.push_str(" us, error ");
    push_signed(page, i64::from(request.error));
    page.push_str(", reply port ");
    push_word(page, request.port);
    push_due(page, machine, address);
    push_where(page, machine, address);
}

/// Adds what an object is.
fn push_kind<S: ListSpace>(
    page: &mut Page,
    machine: &Machine<S>,
    known: &Known<'_>,
    address: u32,
    object: &ObjectView,
) {
    match object {
        ObjectView::Plain => page.push_str("allocated memory"),
        ObjectView::List => {
            page.push_str("list");
            push_nodes(page, machine, address);
        }
        ObjectView::Node(pri) => {
            page.push_str("node, priority ");
            push_signed(page, i64::from(*pri));
        }
        ObjectView::Port(port) => push_port(page, machine, known, address, port),
        ObjectView::Message(message) => push_message(page, machine, address, message),
        ObjectView::Semaphore(semaphore) => push_semaphore(page, machine, address, semaphore),
        ObjectView::Library(library) => push_library(page, known.run, library),
        ObjectView::Request(request) => push_request(page, machine, address, request),
    }
}

/// Adds an object in words, and the variables that hold its address.
///
/// Source: project rule.
pub fn push_object<S: ListSpace>(
    page: &mut Page,
    machine: &Machine<S>,
    known: &Known<'_>,
    address: u32,
    object: &ObjectView,
) {
    push_kind(page, machine, known, address, object);
    push_holders(page, machine, known.run, address);
}
