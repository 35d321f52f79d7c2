//! Where each part of a picture is.
use crate::film::PointKind;
use crate::forms::{Px, count, width_of};
use crate::scene::Scene;
use crate::seen::{Kind, ObjectSeen};
use script::Source;
use std::alloc::{AllocError, Global};

/// From how many tasks on their rows are dense.
const MANY_TASKS: usize = 13;

/// From how many objects on their rows are dense.
const MANY_OBJECTS: usize = 13;

/// What is above the rows: the title, the events, the numbers and the clock.
pub(super) const RULER: Px = Px(98);

/// The middle of the first row of the interrupts.
pub(super) const FIRST_ROW: Px = Px(164);

/// How high a row of the interrupts is.
const ROW: Px = Px(22);

/// How far the rows go on after the last column.
const TAIL: Px = Px(12);

/// What is free at the left and at the right.
pub(super) const MARGIN: Px = Px(20);

/// Where each part of a picture is.
#[derive(Clone, Copy)]
pub(super) struct Plan<'a> {
    /// Where the first column begins.
    pub left: Px,
    /// How wide a column is.
    step: Px,
    /// The number of the last column.
    pub last: u32,
    /// The middles of the rows of the sources that have one.
    exter: Option<Px>,
    vertb: Option<Px>,
    ports: Option<Px>,
    /// The middle of the row of the software interrupts, if there are any.
    pub softints: Option<Px>,
    /// Where the rows of the tasks begin.
    pub tasks_top: Px,
    /// Whether the rows of the tasks are dense.
    pub dense: bool,
    /// Where the rows of the objects begin.
    pub objects_top: Px,
    /// How high a row of an object is.
    object_height: Px,
    /// The places of the objects that have a row, from the top.
    pub objects: &'a [usize],
    /// Where the calls begin.
    pub calls_top: Px,
    /// Where the legend is.
    pub legend: Px,
    pub width: Px,
    pub height: Px,
}

impl Plan<'_> {
    /// Where a column ends, and what is shown after it begins.
    pub fn x(&self, column: u32) -> Px {
        if column > self.last {
            self.end()
        } else {
            self.left + self.step.times(column)
        }
    }

    /// Where the rows end.
    pub fn end(&self) -> Px {
        self.left + self.step.times(self.last) + TAIL
    }

    /// Where a column begins.
    pub fn start(&self, column: u32) -> Px {
        self.x(column.saturating_sub(1))
    }

    /// The middle of a column.
    pub fn mid(&self, column: u32) -> Px {
        self.start(column).middle(self.x(column))
    }

    /// The middle of the row of a task.
    pub fn task(&self, t: usize) -> Px {
        self.tasks_top + Px(36) + task_height(self.dense).times(count(t))
    }

    /// The middle of the row of a source, if it has one.
    pub fn source(&self, source: Source) -> Option<Px> {
        match source {
            Source::Exter => self.exter,
            Source::Vertb => self.vertb,
            Source::Ports => self.ports,
        }
    }

    /// The middle of a row of the objects, which are numbered from 0.
    pub fn object_row(&self, row: usize) -> Px {
        self.objects_top + Px(34) + self.object_height.times(count(row))
    }

    /// The middle of the row of the object at that place, if it has one.
    pub fn object(&self, place: usize) -> Option<Px> {
        for (row, object) in self.objects.iter().enumerate() {
            if *object == place {
                return Some(self.object_row(row));
            }
        }
        None
    }
}

/// How high the row of a task is.
fn task_height(dense: bool) -> Px {
    if dense { Px(28) } else { Px(54) }
}

/// Whether a source is to have a row: it has a server, or it asked to be served.
fn is_shown(scene: &Scene<'_>, source: Source) -> bool {
    for server in scene.file.machine.servers() {
        if server.source == source {
            return true;
        }
    }
    for column in scene.columns.iter() {
        if requests(column.point.kind, source) {
            return true;
        }
    }
    false
}

/// Whether what is done requests an interrupt of a source.
pub(super) fn requests(kind: PointKind, source: Source) -> bool {
    match kind {
        PointKind::Tick => source == Source::Vertb,
        PointKind::Request(other) => source == other,
        _ => false,
    }
}

/// The longest text that is at the left of a row.
fn longest_label(scene: &Scene<'_>) -> usize {
    let mut longest = 18;
    for task in scene.file.machine.tasks() {
        longest = longest.max(task.name.len());
    }
    for object in scene.objects.list() {
        longest = longest.max(object.label.len());
    }
    longest
}

/// Whether an object is shown at any point of the picture: what is shown of it changes, or is something all the time.
fn is_object_shown(scene: &Scene<'_>, object: usize) -> bool {
    let Some(track) = scene.object_tracks.get(object) else {
        return false;
    };
    match track.spans() {
        [] => false,
        [only] => only.shown != ObjectSeen::Absent,
        _ => true,
    }
}

/// The places of the objects that have a row, from the top: semaphores, ports and requests.
pub(super) fn object_rows(alloc: Global, scene: &Scene<'_>) -> Result<Vec<usize>, AllocError> {
    let mut rows = Vec::new(alloc);
    for kind in [Kind::Semaphore, Kind::Port, Kind::Request] {
        for (place, object) in scene.objects.list().iter().enumerate() {
            if object.kind == kind && is_object_shown(scene, place) {
                rows.push(place)?;
            }
        }
    }
    Ok(rows)
}

/// The middle of the row of a source, if it has one, below which the next row is.
fn row_if(has_row: bool, y: &mut Px) -> Option<Px> {
    if !has_row {
        return None;
    }
    let middle = *y;
    *y = middle + ROW;
    Some(middle)
}

/// How wide a column is: wider if there are few.
fn step_for(last: u32) -> Px {
    if last <= 24 {
        Px(32)
    } else if last <= 60 {
        Px(24)
    } else {
        Px(20)
    }
}

/// Where each part of the picture of a scene is, with the places of the objects that have a row. `longest` is how many
/// characters the longest call has.
pub(super) fn plan_of<'a>(scene: &Scene<'_>, objects: &'a [usize], longest: usize) -> Plan<'a> {
    let many = scene.file.machine.tasks().len();
    let dense = many >= MANY_TASKS;
    let last = scene.last_column();
    let step = step_for(last);
    let left = MARGIN + width_of(longest_label(scene), 11) + Px(20);
    let mut y = FIRST_ROW;
    let exter = row_if(is_shown(scene, Source::Exter), &mut y);
    let vertb = row_if(is_shown(scene, Source::Vertb), &mut y);
    let ports = row_if(is_shown(scene, Source::Ports), &mut y);
    let softints = row_if(!scene.file.machine.softints().is_empty(), &mut y);
    let tasks_top = y;
    let tasks_end = tasks_top + Px(36) + task_height(dense).times(count(many));
    let objects_top = tasks_end - if dense { Px(2) } else { Px(16) };
    let is_full = scene.objects.list().len() >= MANY_OBJECTS;
    let object_height = if is_full { Px(20) } else { Px(28) };
    let calls_top = if objects.is_empty() {
        objects_top
    } else {
        objects_top + Px(30) + object_height.times(count(objects.len()))
    };
    let legend = calls_top + (width_of(longest, 9) + Px(30)).max(Px(66)) + Px(30);
    Plan {
        left,
        step,
        last,
        exter,
        vertb,
        ports,
        softints,
        tasks_top,
        dense,
        objects_top,
        object_height,
        objects,
        calls_top,
        legend,
        width: (left + step.times(last) + TAIL + MARGIN).max(Px(900)),
        height: legend + Px(52),
    }
}
