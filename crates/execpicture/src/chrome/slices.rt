//! The slices of tasks, semaphores and requests, and the counters of ports: what is open, until it changes.
use super::flows::{SOFTINT_TRACK, TIMER_TRACK, source_track};
use super::records::{Process, Slice, write_slice, write_thread};
use crate::film::Shown;
use crate::objects::{Object, Objects};
use crate::page::Page;
use crate::page::Value::{Json, Number};
use crate::seen::{Awaits, Kind, ObjectSeen, TaskSeen, object_seen, task_seen};
use crate::words::{write_state, write_time};
use script::Source;
use std::alloc::{AllocError, Global};
use taskq::TaskState;
use taskscript::Listed;

/// What is shown of a task from a number on.
#[derive(Clone, Copy)]
struct OpenTask {
    from: u64,
    shown: TaskSeen,
}

/// What is shown of an object from a number on.
#[derive(Clone, Copy)]
struct OpenObject {
    from: u64,
    shown: ObjectSeen,
}

/// What is open.
#[derive(Drop)]
pub(super) struct Slices {
    tasks: Vec<OpenTask>,
    /// In the order of the objects.
    objects: Vec<OpenObject>,
}

/// Writes the names of the tracks that a file states.
pub(super) fn write_threads(file: &Listed, page: &mut Page) {
    for (t, task) in file.machine.tasks().iter().enumerate() {
        write_thread(
            Process::Tasks,
            t.saturating_add(1),
            task.name.as_str(),
            page,
        );
    }
    for source in [Source::Exter, Source::Vertb, Source::Ports] {
        write_thread(
            Process::Interrupts,
            source_track(source),
            source.text(),
            page,
        );
    }
    write_thread(
        Process::Interrupts,
        SOFTINT_TRACK,
        "software interrupts",
        page,
    );
    write_thread(Process::Interrupts, TIMER_TRACK, "timer", page);
}

/// Writes the slice of a task that was so from a number up to another; one that was never added, and one that was
/// removed, has none.
fn write_task(objects: &Objects<'_>, t: usize, open: OpenTask, to: u64, page: &mut Page) {
    if matches!(open.shown.state, TaskState::Absent | TaskState::Removed) {
        return;
    }
    let mut name = page.draft();
    write_state(objects, &open.shown, &mut name);
    let slice = Slice {
        process: Process::Tasks,
        track: t.saturating_add(1),
        from: open.from,
        to,
        name: page.read(&name),
    };
    write_slice(&slice, page);
}

/// Writes what the slice of an object is named: the owner of a semaphore, or the time of a request in progress; nothing
/// else has one. Answers whether it has one.
fn write_name(objects: &Objects<'_>, shown: ObjectSeen, page: &mut Page) -> bool {
    match shown {
        ObjectSeen::Semaphore(Some(t)) => page.push_str(objects.task_name(t)),
        ObjectSeen::Busy(micros) => write_time(false, micros, page),
        ObjectSeen::BusyUntil(micros) => write_time(true, micros, page),
        _ => return false,
    }
    true
}

/// Writes the slice of an object that was so from a number up to another: an owner of a semaphore, or a request in
/// progress.
fn write_object(objects: &Objects<'_>, track: usize, open: OpenObject, to: u64, page: &mut Page) {
    let mut name = page.draft();
    if write_name(objects, open.shown, &mut name) {
        let slice = Slice {
            process: Process::Objects,
            track: track.saturating_add(1),
            from: open.from,
            to,
            name: page.read(&name),
        };
        write_slice(&slice, page);
    }
}

/// Writes how many messages a port has from a number on.
fn write_messages(object: &Object, seen: ObjectSeen, number: u64, page: &mut Page) {
    let many = match (object.kind, seen) {
        (Kind::Port, ObjectSeen::Port(many)) => many,
        (Kind::Port, ObjectSeen::Absent) => 0,
        _ => return,
    };
    page.fill(
        "{\"ph\":\"C\",\"pid\":{},\"ts\":{},\"name\":{},\"args\":{\"messages\":{}}},\n",
        &[
            Number(Process::Ports.number()),
            Number(number),
            Json(&object.label),
            Number(u64::from(many)),
        ],
    );
}

impl Slices {
    /// Nothing is shown, of that many tasks.
    pub fn new(alloc: Global, tasks: usize) -> Result<Slices, AllocError> {
        let mut open = Vec::new(alloc);
        for _task in 0..tasks {
            open.push(OpenTask {
                from: 0,
                shown: TaskSeen {
                    state: TaskState::Absent,
                    awaits: Awaits::Nothing,
                },
            })?;
        }
        Ok(Slices {
            tasks: open,
            objects: Vec::new(alloc),
        })
    }

    /// Notes what a machine shows of its tasks at a number, and writes what ended there.
    fn note_tasks(&mut self, machine: &Shown, objects: &Objects<'_>, number: u64, page: &mut Page) {
        for (t, open) in self.tasks.iter_mut().enumerate() {
            let Some(view) = machine.task(t) else {
                return;
            };
            let shown = task_seen(machine, t, view.state);
            if open.shown != shown {
                write_task(objects, t, *open, number, page);
                *open = OpenTask {
                    from: number,
                    shown,
                };
            }
        }
    }

    /// Opens the tracks of the objects that are new.
    fn open_objects(
        &mut self,
        objects: &Objects<'_>,
        number: u64,
        page: &mut Page,
    ) -> Result<(), AllocError> {
        for object in objects.list().iter().skip(self.objects.len()) {
            self.objects.push(OpenObject {
                from: number,
                shown: ObjectSeen::Absent,
            })?;
            if object.kind != Kind::Port {
                write_thread(Process::Objects, self.objects.len(), &object.label, page);
            }
        }
        Ok(())
    }

    /// Notes what a machine shows of its objects at a number, and writes what ended there.
    fn note_objects(
        &mut self,
        machine: &Shown,
        objects: &Objects<'_>,
        number: u64,
        page: &mut Page,
    ) -> Result<(), AllocError> {
        self.open_objects(objects, number, page)?;
        for (k, open) in self.objects.iter_mut().enumerate() {
            let Some(object) = objects.list().get(k) else {
                return Ok(());
            };
            let shown = object_seen(machine, object.kind, object.address);
            if open.shown != shown {
                write_object(objects, k, *open, number, page);
                write_messages(object, shown, number, page);
                *open = OpenObject {
                    from: number,
                    shown,
                };
            }
        }
        Ok(())
    }

    /// Notes what a machine shows at a number, and writes what ended there.
    pub fn note(
        &mut self,
        machine: &Shown,
        objects: &Objects<'_>,
        number: u64,
        page: &mut Page,
    ) -> Result<(), AllocError> {
        self.note_tasks(machine, objects, number, page);
        self.note_objects(machine, objects, number, page)
    }

    /// Writes what is still open, up to a number.
    pub fn close(&self, objects: &Objects<'_>, to: u64, page: &mut Page) {
        for (t, open) in self.tasks.iter().enumerate() {
            write_task(objects, t, *open, to, page);
        }
        for (k, open) in self.objects.iter().enumerate() {
            write_object(objects, k, *open, to, page);
        }
    }
}
