//! A run as a document in the Trace Event Format.
//!
//! A microsecond of the document is one step, tick or request: what the machine shows after number n begins at n, and
//! step n + 1 is in the middle between n and n + 1. What the clock shows is a counter of its own.
ghost use Rattle.std.specs.Prelude.{◌≡◌};
ghost use Rattle.exectrace.specs.declared.sinks.SinkState.{SinkState};

mod flows;
mod notes;
mod records;
mod slices;

use crate::deeds::{Arrow, read_deeds, read_states};
use crate::fault::PictureFault;
use crate::film::{Point, Shown, Watch, film};
use crate::objects::Objects;
use crate::page::Page;
use crate::page::Value::Json;
use crate::stretch::Stretch;
use exectrace::Sink;
use exectrace::sinks::{put, written};
use flows::write_flows;
use notes::{write_calls, write_clock, write_served};
use records::{Process, write_last, write_process};
use script::Events;
use slices::{Slices, write_threads};
use std::alloc::{AllocError, Global};
use taskq::TaskState;
use taskscript::Listed;

/// The beginning of the document.
const HEAD: &str =
    "{\"displayTimeUnit\":\"ns\",\"otherData\":{\"run\":{},\"time\":\"one microsecond is one step, tick or request of an interrupt\"},\"traceEvents\":[\n";

/// What is kept from one point to the next while a document is written: nothing of it grows with the run.
#[derive(Drop)]
struct Chrome<'a, W> {
    file: &'a Listed,
    /// The number after which the part begins.
    from: u64,
    /// The number of the last point that was seen.
    last: u64,
    /// What the clock showed at the last point that was written.
    clock: Option<u64>,
    /// How the tasks were at the last point.
    states: Vec<TaskState>,
    deeds: Vec<Arrow>,
    /// How many flows were written.
    flows: u64,
    objects: Objects<'a>,
    slices: Slices,
    /// What is to be written next.
    page: Page,
    out: &'a mut W,
}

impl<'a, W: Sink> Chrome<'a, W> {
    /// A document of which nothing was written yet.
    fn new(
        alloc: Global,
        file: &'a Listed,
        from: u64,
        out: &'a mut W,
    ) -> Result<Chrome<'a, W>, AllocError> {
        let slices = Slices::new(alloc, file.machine.tasks().len())?;
        Ok(Chrome {
            file,
            from,
            last: 0,
            clock: None,
            states: Vec::new(alloc),
            deeds: Vec::new(alloc),
            flows: 0,
            objects: Objects::new(alloc, file),
            slices,
            page: Page::new(alloc),
            out,
        })
    }

    /// Hands over what is to be written.
    fn flush(&mut self) -> Result<(), AllocError> {
        put(self.page.text()?.as_bytes(), self.out);
        self.page.clear();
        Ok(())
    }

    /// Writes the beginning of the document.
    fn begin(&mut self, title: &str) -> Result<(), AllocError> {
        self.page.fill(HEAD, &[Json(title)]);
        write_process(Process::Tasks, &mut self.page);
        write_process(Process::Interrupts, &mut self.page);
        write_process(Process::Objects, &mut self.page);
        write_process(Process::Ports, &mut self.page);
        write_threads(self.file, &mut self.page);
        self.flush()
    }

    /// Writes all of the document, up to number `to`. Answers whether an alert has stopped the machine.
    fn write(
        &mut self,
        alloc: Global,
        events: &Events,
        title: &str,
        to: u64,
    ) -> Result<bool, PictureFault> {
        self.begin(title)?;
        let file = self.file;
        let ending = film(alloc, &file.machine, events, to, self)?;
        self.finish()?;
        Ok(ending.stopped)
    }

    /// Writes what was done since the point before.
    fn write_turn(&mut self, machine: &Shown, point: &Point, text: &str) -> Result<(), AllocError> {
        let file = &self.file.machine;
        read_deeds(file, machine, &self.states, text, &mut self.deeds)?;
        write_calls(file, point, text, &mut self.page);
        write_served(point, text, &mut self.page);
        self.flows = write_flows(&self.deeds, point.number, self.flows, &mut self.page);
        Ok(())
    }

    /// Writes what is new at a point.
    fn write_point(
        &mut self,
        machine: &Shown,
        point: &Point,
        text: &str,
    ) -> Result<(), AllocError> {
        if point.number > self.from {
            self.write_turn(machine, point, text)?;
        }
        self.slices
            .note(machine, &self.objects, point.number, &mut self.page)?;
        if self.clock != Some(point.clock) {
            self.clock = Some(point.clock);
            write_clock(point, &mut self.page);
        }
        self.flush()
    }

    /// Writes what is still open, and the end of the document.
    fn finish(&mut self) -> Result<(), AllocError> {
        let end = self.last.saturating_add(1);
        self.slices.close(&self.objects, end, &mut self.page);
        write_last(end, &mut self.page);
        self.page.push_str("]}\n");
        self.flush()
    }
}

impl<W: Sink> Watch for Chrome<'_, W> {
    fn see(&mut self, machine: &Shown, point: &Point, text: &str) -> Result<(), PictureFault> {
        self.last = point.number;
        self.objects.learn(point, text)?;
        if point.number >= self.from {
            self.write_point(machine, point, text)?;
        }
        read_states(machine, &mut self.states)?;
        Ok(())
    }
}

/// Runs the machine of a file over the events, and writes one document of a part of the run in the Trace Event Format
/// to `out`, which is good: a track for each task, with what it waits for, one for each source of interrupts and for
/// the software interrupts, one for each semaphore and each request, instants for calls and alerts, flows from who does
/// something to the task that it reaches, and counters for the messages of ports and for the clock. `title` is kept in
/// it. Memory does not grow with the run. Answers whether an alert has stopped the machine, with which the document
/// ends.
///
/// # Errors
///
/// `Empty` if the part has no column: nothing was written. `Memory` if memory was refused, and `Write` if the sink did
/// not take all: a prefix of the document was taken. A part that begins past the end of the run gives a document
/// without a slice.
///
/// Source: project rule.
pub fn write_chrome<W: Sink>(
    alloc: Global,
    file: &Listed,
    events: &Events,
    title: &str,
    part: Stretch,
    out: &mut W,
) -> Result<bool, PictureFault>
    requires { (W.tape out.old).state ≡ SinkState.Good }
{
    if part.is_empty() {
        return Err(PictureFault::Empty);
    }
    let ended = {
        let mut chrome = Chrome::new(alloc, file, part.from, &mut *out)?;
        chrome.write(alloc, events, title, part.to)
    };
    let stopped = ended?;
    match written(out) {
        Ok(()) => Ok(stopped),
        Err(_) => Err(PictureFault::Write),
    }
}
