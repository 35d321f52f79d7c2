//! A run as an SVG document.
ghost use Rattle.std.specs.Prelude.{◌≡◌};
ghost use Rattle.exectrace.specs.declared.sinks.SinkState.{SinkState};

mod arrows;
mod calls;
mod columns;
mod frame;
mod interrupts;
mod names;
mod objects;
mod plan;
mod ruler;
mod shapes;
mod style;
mod tasks;

use crate::fault::PictureFault;
use crate::film::{Ending, film};
use crate::page::Page;
use crate::scene::Scene;
use crate::stretch::Stretch;
use exectrace::Sink;
use exectrace::sinks::{put, written};
use plan::{object_rows, plan_of};
use script::{Event, Events};
use std::alloc::{AllocError, Global};
use taskscript::Listed;

/// How many steps, ticks and requests a picture shows at most.
pub const LIMIT: u32 = 200;

/// Draws a scene.
fn draw(
    alloc: Global,
    scene: &Scene<'_>,
    list: &[Event],
    title: &str,
    page: &mut Page,
) -> Result<(), AllocError> {
    let longest = calls::longest(scene, page);
    let rows = object_rows(alloc, scene)?;
    let plan = plan_of(scene, &rows, longest);
    frame::write_head(scene, &plan, title, page);
    columns::write_columns(scene, &plan, page);
    ruler::write_ruler(scene, &plan, list, page);
    interrupts::write_interrupts(scene, &plan, page);
    tasks::write_tasks(scene, &plan, page);
    objects::write_objects(scene, &plan, page);
    arrows::write_arrows(scene, &plan, page);
    tasks::write_labels(scene, &plan, page);
    calls::write_calls(scene, &plan, page);
    frame::write_foot(&plan, page);
    Ok(())
}

/// Runs a machine over the events, and keeps what a scene shows of a part of the run. Answers whether an alert has
/// stopped the machine.
fn film_scene(
    alloc: Global,
    events: &Events,
    part: Stretch,
    scene: &mut Scene<'_>,
) -> Result<bool, PictureFault> {
    let file = scene.file;
    let Ending { last, stopped } = film(alloc, &file.machine, events, part.to, scene)?;
    if last < part.from || (last == part.from && last > 0) {
        return Err(PictureFault::PastEnd(last));
    }
    if last - part.from > u64::from(LIMIT) {
        return Err(PictureFault::TooLong(last - part.from));
    }
    Ok(stopped)
}

/// Draws a part of the run of a machine file. Answers whether an alert has stopped the machine.
fn draw_run(
    alloc: Global,
    file: &Listed,
    events: &Events,
    title: &str,
    part: Stretch,
    page: &mut Page,
) -> Result<bool, PictureFault> {
    let mut scene = Scene::new(alloc, file, part.from, LIMIT)?;
    let stopped = film_scene(alloc, events, part, &mut scene)?;
    draw(alloc, &scene, events.list(), title, page)?;
    Ok(stopped)
}

/// Runs the machine of a file over the events, and writes one picture of a part of the run to `out`, which is good: an
/// SVG document that shows, from above, the events and the clock; the interrupts; the state of each task from step to
/// step; who owns a semaphore, what is in a port and which request is in progress; and the calls. Objects are named by
/// the variable that got their address, or by their public name. `title` is the headline. Answers whether an alert has
/// stopped the machine, with which the picture ends.
///
/// # Errors
///
/// `Memory` if memory was refused. `Empty`, `PastEnd` or `TooLong` if the part has no column, begins where the run is
/// over, or has more than `LIMIT` columns. In all these cases nothing was written. `Write` if the sink did not take
/// all: it has taken a prefix of the picture.
///
/// Source: project rule.
pub fn write_svg<W: Sink>(
    alloc: Global,
    file: &Listed,
    events: &Events,
    title: &str,
    part: Stretch,
    out: &mut W,
) -> Result<bool, PictureFault>
    requires { (W.tape out.old).state ≡ SinkState.Good }
{
    if part.is_empty() {
        return Err(PictureFault::Empty);
    }
    let mut page = Page::new(alloc);
    let stopped = draw_run(alloc, file, events, title, part, &mut page)?;
    put(page.text()?.as_bytes(), out);
    match written(out) {
        Ok(()) => Ok(stopped),
        Err(_) => Err(PictureFault::Write),
    }
}
