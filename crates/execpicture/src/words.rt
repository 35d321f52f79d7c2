//! How states are said in words.
use crate::objects::{Objects, kind_text};
use crate::page::Page;
use crate::page::Value::{Hex, Millis, Plain};
use crate::seen::{Awaits, TaskSeen};
use taskq::TaskState;

/// Writes what a task waits for in a call.
fn write_awaited(objects: &Objects<'_>, awaits: Awaits, page: &mut Page) {
    match awaits {
        Awaits::Nothing => page.push_str("a call"),
        Awaits::Signals(mask) => page.fill("signals {}", &[Hex(mask)]),
        Awaits::Object(kind, address) => match objects.label(kind, address) {
            Some(label) => page.push_str(label),
            None => page.fill("{} {}", &[Plain(kind_text(kind)), Hex(address)]),
        },
    }
}

/// Writes the state of a task in words: `running`, `waits for port p of a`.
pub(crate) fn write_state(objects: &Objects<'_>, seen: &TaskSeen, page: &mut Page) {
    match seen.state {
        TaskState::Absent => page.push_str("not added"),
        TaskState::Ready => page.push_str("ready"),
        TaskState::Running => page.push_str("running"),
        TaskState::Removed => page.push_str("removed"),
        TaskState::Waiting(_) => {
            page.push_str("waits for ");
            write_awaited(objects, seen.awaits, page)
        }
    }
}

/// Writes the time of a request in progress, in microseconds: for how long, or until when.
pub(crate) fn write_time(is_until: bool, micros: u64, page: &mut Page) {
    let before = if is_until { "until " } else { "" };
    page.fill("{}{} ms", &[Plain(before), Millis(micros)]);
}
