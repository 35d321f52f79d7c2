//! The flows: from who does something to the task that it reaches.
use super::records::Process;
use crate::deeds::{Aim, Arrow, Doer, Means};
use crate::page::Page;
use crate::page::Value::{Count, Number, Plain};
use script::Source;

/// The track of the software interrupts.
pub(super) const SOFTINT_TRACK: usize = 4;

/// The track of the timer.
pub(super) const TIMER_TRACK: usize = 5;

/// The track of a source.
pub(super) fn source_track(source: Source) -> usize {
    match source {
        Source::Exter => 1,
        Source::Vertb => 2,
        Source::Ports => 3,
    }
}

/// The track of who does something.
pub(super) fn track_of(doer: Doer) -> (Process, usize) {
    match doer {
        Doer::Task(t) => (Process::Tasks, t.saturating_add(1)),
        Doer::Server(source) => (Process::Interrupts, source_track(source)),
        Doer::Softint(_) => (Process::Interrupts, SOFTINT_TRACK),
        Doer::Timer => (Process::Interrupts, TIMER_TRACK),
    }
}

/// What is done, as the name of a flow.
fn flow_name(means: Means) -> &'static str {
    match means {
        Means::Signal => "signal",
        Means::Message => "message",
        Means::Reply => "reply",
        Means::Semaphore => "semaphore",
        Means::Request => "request",
        Means::Cause => "cause",
    }
}

/// The beginning of a flow, and its end.
const BEGIN: &str =
    "{\"ph\":\"s\",\"id\":{},\"cat\":\"{}\",\"name\":\"{}\",\"pid\":{},\"tid\":{},\"ts\":{}.5},\n";

const END: &str =
    "{\"ph\":\"f\",\"bp\":\"e\",\"id\":{},\"cat\":\"{}\",\"name\":\"{}\",\"pid\":{},\"tid\":{},\"ts\":{}.5,\"args\":{\"wakes\":{}}},\n";

/// Writes where a flow begins: in the middle of step `number`, on the track of who does something.
fn begin_flow(deed: &Arrow, number: u64, id: u64, page: &mut Page) {
    let name = Plain(flow_name(deed.means));
    let (process, track) = track_of(deed.doer);
    page.fill(
        BEGIN,
        &[
            Number(id),
            name,
            name,
            Number(process.number()),
            Count(track),
            Number(number.saturating_sub(1)),
        ],
    );
}

/// Writes where a flow ends: at what a task is after step `number`.
fn end_flow(deed: &Arrow, t: usize, number: u64, id: u64, page: &mut Page) {
    let name = Plain(flow_name(deed.means));
    page.fill(
        END,
        &[
            Number(id),
            name,
            name,
            Number(Process::Tasks.number()),
            Count(t.saturating_add(1)),
            Number(number),
            Plain(if deed.wakes { "true" } else { "false" }),
        ],
    );
}

/// Writes the flows of a step; `done` were written before it. Answers how many were written by then.
pub(super) fn write_flows(deeds: &[Arrow], number: u64, done: u64, page: &mut Page) -> u64 {
    let mut id = done;
    for deed in deeds {
        if let Aim::Task(t) = deed.aim {
            id = id.saturating_add(1);
            begin_flow(deed, number, id, page);
            end_flow(deed, t, number, id, page);
        }
    }
    id
}
