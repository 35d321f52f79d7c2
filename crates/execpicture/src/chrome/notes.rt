//! The instants of calls and alerts, the slices of what was served, and the counter of the clock.
use super::flows::{SOFTINT_TRACK, TIMER_TRACK, source_track, track_of};
use super::records::{Process, Slice, write_slice};
use crate::deeds::doer_named;
use crate::film::Point;
use crate::lines::{TraceLine, read_line};
use crate::page::Page;
use crate::page::Value::{Count, Json, Millis, Number, Plain};
use script::{MachineFile, Source};

/// An instant.
const INSTANT: &str =
    "{\"ph\":\"i\",\"s\":\"{}\",\"pid\":{},\"tid\":{},\"ts\":{}.5,\"name\":{}},\n";

/// Writes an instant of a track, in the middle of a step.
fn write_instant<'a>(
    process: Process,
    track: usize,
    number: u64,
    scope: &'a str,
    name: &'a str,
    page: &mut Page,
) {
    page.fill(
        INSTANT,
        &[
            Plain(scope),
            Number(process.number()),
            Count(track),
            Number(number.saturating_sub(1)),
            Json(name),
        ],
    );
}

/// Writes the instant of a line, if it is a call or an alert.
fn write_line(file: &MachineFile, number: u64, line: &str, page: &mut Page) {
    match read_line(line) {
        TraceLine::Call(call) => {
            if let Some(doer) = doer_named(file, call.who) {
                let (process, track) = track_of(doer);
                write_instant(process, track, number, "t", call.said, page);
            }
        }
        TraceLine::Alert(_) => write_instant(Process::Tasks, 0, number, "g", line, page),
        _ => {}
    }
}

/// Writes the calls of a step, and its alert.
pub(super) fn write_calls(file: &MachineFile, point: &Point, text: &str, page: &mut Page) {
    for line in text.lines() {
        write_line(file, point.number, line, page);
    }
}

/// The track and the name of what a line says is served.
fn served_of(line: &str) -> Option<(usize, &str)> {
    match read_line(line) {
        TraceLine::Serve(name) => Some((source_track(Source::named(name)?), line)),
        TraceLine::Softint(name) => Some((SOFTINT_TRACK, name)),
        TraceLine::Timer(_) => Some((TIMER_TRACK, line)),
        _ => None,
    }
}

/// Writes what was served in a step: sources, software interrupts, and requests of the timer.
pub(super) fn write_served(point: &Point, text: &str, page: &mut Page) {
    for line in text.lines() {
        if let Some((track, name)) = served_of(line) {
            let slice = Slice {
                process: Process::Interrupts,
                track,
                from: point.number.saturating_sub(1),
                to: point.number,
                name,
            };
            write_slice(&slice, page);
        }
    }
}

/// Writes what the clock shows at a point, in milliseconds.
pub(super) fn write_clock(point: &Point, page: &mut Page) {
    page.fill(
        "{\"ph\":\"C\",\"pid\":{},\"ts\":{},\"name\":\"clock\",\"args\":{\"ms\":{}}},\n",
        &[
            Number(Process::Ports.number()),
            Number(point.number),
            Millis(point.clock),
        ],
    );
}
