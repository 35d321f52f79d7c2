//! What a picture shows of a run, point by point: the columns, and the tracks of tasks, interrupts and objects.
//!
//! Column 0 is the point at which the picture begins; what is shown after column k is what the machine shows at that
//! point.
use crate::deeds::{Arrow, read_deeds, read_states};
use crate::fault::PictureFault;
use crate::film::{Point, Shown, Watch};
use crate::forms::count;
use crate::objects::Objects;
use crate::seen::{ObjectSeen, TaskSeen, is_shut, object_seen, task_seen};
use crate::track::Track;
use softint::latches::Latches;
use std::alloc::{AllocError, Global};
use taskq::TaskState;
use taskscript::Listed;

/// A step, a tick or a request of an interrupt.
#[derive(Drop)]
pub(crate) struct Column {
    /// Its number.
    pub number: u32,
    /// What was done, and by whom.
    pub point: Point,
    /// What was printed.
    pub text: String,
    /// What one did to another.
    pub deeds: Vec<Arrow>,
    /// Which sources asked to be served after it.
    pub latches: Latches,
}

/// The track of a task.
#[derive(Drop)]
pub(crate) struct TaskTrack {
    pub seen: Track<TaskSeen>,
    /// Whether the task runs, and forbids switches.
    pub forbids: Track<bool>,
    /// Whether the task runs, and disables interrupts.
    pub disables: Track<bool>,
}

impl TaskTrack {
    /// Adds what a machine shows of the task of a number, which has it.
    fn note(&mut self, machine: &Shown, t: usize) -> Result<(), AllocError> {
        let Some(view) = machine.task(t) else {
            return Ok(());
        };
        let runs = view.state == TaskState::Running;
        self.seen.note(task_seen(machine, t, view.state))?;
        self.forbids.note(runs && view.forbids >= 0)?;
        self.disables.note(runs && view.disables >= 0)
    }
}

/// What a picture shows.
#[derive(Drop)]
pub(crate) struct Scene<'a> {
    alloc: Global,
    pub file: &'a Listed,
    /// The number of the point at which the picture begins.
    pub from: u64,
    /// How many columns are kept at most.
    most: u32,
    /// How the tasks were at the last point.
    states: Vec<TaskState>,
    /// The columns, that of number 0 included; no more than `most` after it.
    pub columns: Vec<Column>,
    pub tasks: Vec<TaskTrack>,
    /// Whether interrupts are disabled.
    pub shut: Track<bool>,
    pub objects: Objects<'a>,
    /// The tracks of the objects, in their order.
    pub object_tracks: Vec<Track<ObjectSeen>>,
}

impl<'a> Scene<'a> {
    /// A picture that shows nothing yet.
    ///
    /// # Errors
    ///
    /// Memory was refused.
    pub fn new(
        alloc: Global,
        file: &'a Listed,
        from: u64,
        most: u32,
    ) -> Result<Scene<'a>, AllocError> {
        let mut tasks = Vec::new(alloc);
        for _task in 0..file.machine.tasks().len() {
            tasks.push(TaskTrack {
                seen: Track::new(alloc, 0),
                forbids: Track::new(alloc, 0),
                disables: Track::new(alloc, 0),
            })?;
        }
        Ok(Scene {
            alloc,
            file,
            from,
            most,
            states: Vec::new(alloc),
            columns: Vec::new(alloc),
            tasks,
            shut: Track::new(alloc, 0),
            objects: Objects::new(alloc, file),
            object_tracks: Vec::new(alloc),
        })
    }

    /// The number of the last column.
    pub fn last_column(&self) -> u32 {
        count(self.columns.len()).saturating_sub(1)
    }

    /// The number of the point after a column.
    pub fn number_of(&self, column: u32) -> u64 {
        self.from.saturating_add(u64::from(column))
    }

    /// Keeps what the machine shows of its tasks after a column.
    fn note_tasks(&mut self, machine: &Shown) -> Result<(), AllocError> {
        for (t, track) in self.tasks.iter_mut().enumerate() {
            track.note(machine, t)?;
        }
        Ok(())
    }

    /// Keeps what the machine shows of the objects after a column; an object that was made in it gets a track first.
    fn note_objects(&mut self, machine: &Shown, column: u32) -> Result<(), AllocError> {
        for (place, object) in self.objects.list().iter().enumerate() {
            if place == self.object_tracks.len() {
                self.object_tracks.push(Track::new(self.alloc, column))?;
            }
            if let Some(track) = self.object_tracks.get_mut(place) {
                track.note(object_seen(machine, object.kind, object.address))?;
            }
        }
        Ok(())
    }

    /// Keeps a column.
    fn push_column(
        &mut self,
        machine: &Shown,
        point: &Point,
        text: &str,
    ) -> Result<(), AllocError> {
        self.columns.push(Column {
            number: count(self.columns.len()),
            point: *point,
            text: String::from_str(self.alloc, text)?,
            deeds: Vec::new(self.alloc),
            latches: machine.view().latches,
        })?;
        match self.columns.last_mut() {
            Some(column) => read_deeds(
                &self.file.machine,
                machine,
                &self.states,
                text,
                &mut column.deeds,
            ),
            None => Ok(()),
        }
    }

    /// Keeps what is seen at a point that is shown.
    fn keep(&mut self, machine: &Shown, point: &Point, text: &str) -> Result<(), AllocError> {
        self.push_column(machine, point, text)?;
        let column = self.last_column();
        self.note_tasks(machine)?;
        self.note_objects(machine, column)?;
        self.shut.note(is_shut(machine))
    }
}

impl Watch for Scene<'_> {
    fn see(&mut self, machine: &Shown, point: &Point, text: &str) -> Result<(), PictureFault> {
        self.objects.learn(point, text)?;
        if point.number >= self.from && self.columns.len() <= self.most as usize {
            self.keep(machine, point, text)?;
        }
        read_states(machine, &mut self.states)?;
        Ok(())
    }
}
