//! The rows of the tasks: which state each has from where to where.
use super::frame::{write_cross, write_part};
use super::names::colour_of;
use super::plan::{MARGIN, Plan};
use super::shapes::{Area, across, open_text, rect, text};
use crate::deeds::waits;
use crate::forms::{Px, width_of};
use crate::page::Page;
use crate::page::Value::{At, Count, Number, Plain, Xml};
use crate::scene::Scene;
use crate::seen::TaskSeen;
use crate::track::{Span, Track};
use crate::words::write_state;
use taskq::{TaskState, Why};

/// After how many columns the name of a task is written again.
const NAME_AGAIN: u32 = 60;

/// How a state is called in the data of a bar.
fn state_word(state: TaskState) -> &'static str {
    match state {
        TaskState::Absent => "absent",
        TaskState::Ready => "ready",
        TaskState::Running => "running",
        TaskState::Waiting(_) => "waiting",
        TaskState::Removed => "removed",
    }
}

/// Opens the group of a bar, with what a program needs to know of it: the task, counted from 1, its state, and the
/// numbers at which the bar begins and ends.
fn open_bar(scene: &Scene<'_>, t: usize, span: &Span<TaskSeen>, page: &mut Page) {
    let from = Number(scene.number_of(span.from));
    let to = Number(scene.number_of(span.to));
    let task = Count(t.saturating_add(1));
    let state = Plain(state_word(span.shown.state));
    page.fill(
        "<g data-task=\"{}\" data-state=\"{}\" data-from=\"{}\" data-to=\"{}\">",
        &[task, state, from, to],
    );
    let mut draft = page.draft();
    write_state(&scene.objects, &span.shown, &mut draft);
    let words = page.read(&draft);
    let name = scene.objects.task_name(t);
    page.fill("<title>{}: ", &[Xml(name)]);
    page.fill("{}, from {} to {}</title>\n", &[Xml(words), from, to]);
}

/// Draws the bar of a span of a task: high if it runs, flat if it is ready, and a line if it waits, dashed for a
/// semaphore.
fn draw_bar(plan: &Plan<'_>, t: usize, span: &Span<TaskSeen>, page: &mut Page) {
    let from = plan.x(span.from);
    let to = plan.x(span.to);
    let y = plan.task(t);
    let colour = colour_of(t);
    let thin = if plan.dense { Px(8) } else { Px(12) };
    match span.shown.state {
        TaskState::Running => {
            let full = thin + if plan.dense { Px(8) } else { Px(12) };
            rect(page, Area::around(from, to, y, full), 3, colour.fill)
        }
        TaskState::Ready => rect(page, Area::around(from, to, y, thin), 2, colour.pale),
        TaskState::Waiting(Why::Signals(_)) => {
            across(page, from, to, y, "rest", " stroke-width=\"1.6\"")
        }
        TaskState::Waiting(Why::Sem) => {
            let dashes = " stroke-width=\"2.2\" stroke-dasharray=\"4 3\"";
            across(page, from, to, y, colour.stroke, dashes)
        }
        TaskState::Removed => write_cross(from + Px(6), y, page),
        TaskState::Absent => {}
    }
}

/// Writes the bars of a task.
fn write_bars(
    scene: &Scene<'_>,
    plan: &Plan<'_>,
    t: usize,
    spans: &[Span<TaskSeen>],
    page: &mut Page,
) {
    for span in spans {
        open_bar(scene, t, span, page);
        draw_bar(plan, t, span, page);
        page.push_str("</g>\n");
    }
}

/// Writes a bracket under a row, from where to where a count of Forbid or Disable is outstanding while the task runs.
fn write_bracket<'a>(from: Px, to: Px, y: Px, class: &'a str, said: &'a str, page: &mut Page) {
    page.fill(
        "<path d=\"M{},{} v-4 H{} v4\" class=\"{} none\" stroke-width=\"1.8\"><title>{}</title></path>\n",
        &[At(from), At(y), At(to), Plain(class), Plain(said)],
    );
    if (to - from).is_above(Px(38)) {
        text(page, from.middle(to), y + Px(8), 9, "soft middle", said);
    }
}

/// Writes brackets under the row of a task, wherever the track says so.
fn write_nesting<'a>(
    plan: &Plan<'_>,
    t: usize,
    track: &Track<bool>,
    class: &'a str,
    said: &'a str,
    page: &mut Page,
) {
    let y = plan.task(t) + if plan.dense { Px(14) } else { Px(20) };
    for span in track.spans() {
        if span.shown {
            write_bracket(plan.x(span.from), plan.x(span.to), y, class, said, page);
        }
    }
}

/// Writes the priority of a task, which ends a text.
fn write_priority(pri: i8, page: &mut Page) {
    write!(page, "{pri}</text>\n")
}

/// Writes the name of a task at the left of its row: after its number if the row is dense, or else above its number and
/// its priority.
fn write_name(scene: &Scene<'_>, plan: &Plan<'_>, t: usize, page: &mut Page) {
    let Some(task) = scene.file.machine.tasks().get(t) else {
        return;
    };
    let y = plan.task(t);
    let mark = Area {
        x: MARGIN,
        y: y - Px(10),
        width: Px(4),
        height: Px(20),
    };
    rect(page, mark, 2, colour_of(t).fill);
    let x = MARGIN + Px(10);
    let number = t.saturating_add(1);
    let name = task.name.as_str();
    if plan.dense {
        open_text(page, x, y + Px(4), 11, "ink");
        page.fill("{} {}</text>\n", &[Count(number), Xml(name)]);
        return;
    }
    text(page, x, y + Px(1), 13, "ink strong", name);
    open_text(page, x, y + Px(14), 10, "faint");
    page.fill("task {}, priority ", &[Count(number)]);
    write_priority(task.pri, page);
}

/// Writes what a task waits for over its line, if it waits and there is room.
fn write_label(scene: &Scene<'_>, plan: &Plan<'_>, y: Px, span: &Span<TaskSeen>, page: &mut Page) {
    if !waits(span.shown.state) {
        return;
    }
    let from = plan.x(span.from);
    let to = plan.x(span.to);
    let mut draft = page.draft();
    write_state(&scene.objects, &span.shown, &mut draft);
    let words = page.read(&draft);
    if (to - from).is_above(width_of(words.len(), 9)) {
        text(page, from + Px(4), y - Px(5), 10, "soft ringed", words);
    }
}

/// Writes the name of a task again over its row, at each sixtieth column, so that it is seen in each part of a wide
/// picture.
fn write_name_again(plan: &Plan<'_>, y: Px, name: &str, page: &mut Page) {
    let foot = if plan.dense { y + Px(4) } else { y - Px(15) };
    for column in 1..plan.last {
        if column % NAME_AGAIN == 0 {
            let x = plan.x(column) + Px(4);
            text(page, x, foot, 10, "soft strong ringed", name);
        }
    }
}

/// Writes over the arrows what each task waits for, if the rows are not dense, and the names of the tasks in a wide
/// picture.
pub(super) fn write_labels(scene: &Scene<'_>, plan: &Plan<'_>, page: &mut Page) {
    for (t, track) in scene.tasks.iter().enumerate() {
        let y = plan.task(t);
        if !plan.dense {
            for span in track.seen.spans() {
                write_label(scene, plan, y, span, page);
            }
        }
        write_name_again(plan, y, scene.objects.task_name(t), page);
    }
}

/// Writes the rows of the tasks.
pub(super) fn write_tasks(scene: &Scene<'_>, plan: &Plan<'_>, page: &mut Page) {
    let top = plan.tasks_top;
    write_part(page, plan, top - Px(6), top + Px(10), "TASKS");
    for (t, track) in scene.tasks.iter().enumerate() {
        write_name(scene, plan, t, page);
        write_bars(scene, plan, t, track.seen.spans(), page);
        write_nesting(plan, t, &track.forbids, "line", "Forbid", page);
        write_nesting(plan, t, &track.disables, "stops", "Disable", page);
    }
}
