//! The records of the format that name processes and threads, and the beginnings of the others.
use crate::page::Page;
use crate::page::Value::{Count, Json, Number, Plain};

/// A group of tracks, which the format calls a process.
#[derive(Clone, Copy)]
pub(super) enum Process {
    Tasks,
    Interrupts,
    Objects,
    Ports,
}

impl Process {
    /// Its number.
    pub fn number(self) -> u64 {
        match self {
            Process::Tasks => 1,
            Process::Interrupts => 2,
            Process::Objects => 3,
            Process::Ports => 4,
        }
    }

    /// Its name.
    fn name(self) -> &'static str {
        match self {
            Process::Tasks => "tasks",
            Process::Interrupts => "interrupts",
            Process::Objects => "semaphores and requests",
            Process::Ports => "ports and the clock",
        }
    }
}

/// The names of a group of tracks and of a track, each with where it is among the others.
const PROCESS: &str =
    "{\"ph\":\"M\",\"pid\":{},\"name\":\"process_name\",\"args\":{\"name\":\"{}\"}},\n\
{\"ph\":\"M\",\"pid\":{},\"name\":\"process_sort_index\",\"args\":{\"sort_index\":{}}},\n";

const THREAD: &str =
    "{\"ph\":\"M\",\"pid\":{},\"tid\":{},\"name\":\"thread_name\",\"args\":{\"name\":{}}},\n\
{\"ph\":\"M\",\"pid\":{},\"tid\":{},\"name\":\"thread_sort_index\",\"args\":{\"sort_index\":{}}},\n";

/// A slice of a track.
const SLICE: &str = "{\"ph\":\"X\",\"pid\":{},\"tid\":{},\"ts\":{},\"dur\":{},\"name\":{}},\n";

/// Writes the name of a group of tracks.
pub(super) fn write_process(process: Process, page: &mut Page) {
    let number = Number(process.number());
    let name = Plain(process.name());
    page.fill(PROCESS, &[number, name, number, number]);
}

/// Writes the name of a track.
pub(super) fn write_thread(process: Process, track: usize, name: &str, page: &mut Page) {
    let number = Number(process.number());
    let track = Count(track);
    page.fill(THREAD, &[number, track, Json(name), number, track, track]);
}

/// A slice of a track.
#[derive(Clone, Copy)]
pub(super) struct Slice<'a> {
    pub process: Process,
    pub track: usize,
    /// The numbers at which it begins and ends.
    pub from: u64,
    pub to: u64,
    pub name: &'a str,
}

/// Writes a slice.
pub(super) fn write_slice(slice: &Slice<'_>, page: &mut Page) {
    page.fill(
        SLICE,
        &[
            Number(slice.process.number()),
            Count(slice.track),
            Number(slice.from),
            Number(slice.to.saturating_sub(slice.from)),
            Json(slice.name),
        ],
    );
}

/// Writes the last record of a document, after which none comes.
pub(super) fn write_last(at: u64, page: &mut Page) {
    page.fill(
        "{\"ph\":\"i\",\"s\":\"g\",\"pid\":1,\"tid\":0,\"ts\":{},\"name\":\"done\"}\n",
        &[Number(at)],
    );
}
