//! The calls: one in a column, read downwards.
use super::frame::write_part;
use super::names::colour_of;
use super::plan::{MARGIN, Plan};
use super::shapes::{dot, line, open_text, text};
use crate::film::{Actor, PointKind};
use crate::forms::Px;
use crate::lines::{TraceLine, read_line};
use crate::objects::command_at;
use crate::page::Page;
use crate::page::Value::{At, Count, Hex, Plain, Xml};
use crate::scene::{Column, Scene};
use taskscript::number_of;

/// Writes a field of a call: a number without leading zeros, and an arrow before the answer.
fn write_field(field: &str, page: &mut Page) {
    if field == "->" {
        return page.push_str("\u{2192}");
    }
    if field.starts_with('$') {
        if let Some(number) = number_of(field.as_bytes()) {
            return page.push(Hex(number));
        }
    }
    page.push(Xml(field))
}

/// Writes a call.
fn write_call(said: &str, page: &mut Page) {
    let mut is_first = true;
    for field in said.split(' ') {
        if !is_first {
            page.push_str(" ");
        }
        is_first = false;
        write_field(field, page);
    }
}

/// What is written in a column, beside its alert.
#[derive(Clone, Copy)]
struct ColumnText<'a> {
    said: &'a str,
    class: &'a str,
    /// The number of the task, counted from 1; 0 if it is not a task's.
    task: usize,
}

/// The first line of a column that is a call of a task.
fn call_in<'a>(column: &'a Column, name: &str) -> Option<&'a str> {
    for said in column.text.lines() {
        if let TraceLine::Call(call) = read_line(said) {
            if call.who == name {
                return Some(call.said);
            }
        }
    }
    None
}

/// The alert of a column, whoever made the call.
pub(super) fn alert_in(column: &Column) -> Option<&str> {
    column
        .text
        .lines()
        .find(|said| matches!(read_line(said), TraceLine::Alert(_)))
}

/// Whether an alert is that of a call of a task.
fn is_of(alert: &str, name: &str) -> bool {
    alert.split(' ').nth(2) == Some(name)
}

/// What is written for a command that prints nothing: its word.
fn silent_word(scene: &Scene<'_>, actor: Actor) -> &'static str {
    match command_at(scene.file, actor) {
        Some(command) => command.word.text(),
        None => "",
    }
}

/// What is written for a step of a task that has made no call: its word, or nothing if the call was refused.
fn entry_without_call<'a>(
    scene: &'a Scene<'_>,
    column: &'a Column,
    actor: Actor,
) -> ColumnText<'a> {
    let name = scene.objects.task_name(actor.task);
    let (said, class) = match alert_in(column) {
        Some(alert) if is_of(alert, name) => ("", "ink"),
        _ => (silent_word(scene, actor), "faint slant"),
    };
    ColumnText {
        said,
        class,
        task: actor.task.saturating_add(1),
    }
}

/// What is written for a step of a task.
fn entry_of_task<'a>(scene: &'a Scene<'_>, column: &'a Column, actor: Actor) -> ColumnText<'a> {
    match call_in(column, scene.objects.task_name(actor.task)) {
        Some(said) => ColumnText {
            said,
            class: colour_of(actor.task).fill,
            task: actor.task.saturating_add(1),
        },
        None => entry_without_call(scene, column, actor),
    }
}

/// Whether a source was served in a column.
fn has_served(column: &Column) -> bool {
    for line in column.text.lines() {
        if let TraceLine::Serve(_) = read_line(line) {
            return true;
        }
    }
    false
}

/// What is written in a column.
fn entry_of<'a>(scene: &'a Scene<'_>, column: &'a Column) -> ColumnText<'a> {
    let (said, class) = match (column.point.kind, has_served(column)) {
        (PointKind::Step | PointKind::Start, _) => match column.point.actor {
            Some(actor) => return entry_of_task(scene, column, actor),
            None => (column.text.lines().next().unwrap_or(""), "ink"),
        },
        (PointKind::Tick, true) => ("tick, served", "soft"),
        (PointKind::Tick, false) => ("tick, latched", "soft"),
        (PointKind::Request(_), true) => ("request, served", "soft"),
        (PointKind::Request(_), false) => ("request, latched", "soft"),
    };
    ColumnText {
        said,
        class,
        task: 0,
    }
}

/// Writes what a column has: its entry, and its alert after that.
fn write_entry(entry: &ColumnText<'_>, alert: Option<&str>, page: &mut Page) {
    write_call(entry.said, page);
    if let Some(alert) = alert {
        let gap = if entry.said.is_empty() { "" } else { ", " };
        page.fill(
            "<tspan class=\"stop strong\">{}{}</tspan>",
            &[Plain(gap), Xml(alert)],
        );
    }
}

/// How many characters a column has.
fn length_of(scene: &Scene<'_>, column: &Column, page: &mut Page) -> usize {
    let mut draft = page.draft();
    write_call(entry_of(scene, column).said, &mut draft);
    let alert = alert_in(column).unwrap_or("");
    let gap = if alert.is_empty() { 0 } else { 2 };
    let count = page.read(&draft).chars().count();
    count.saturating_add(gap).saturating_add(alert.len())
}

/// How many characters the longest column has.
pub(super) fn longest(scene: &Scene<'_>, page: &mut Page) -> usize {
    let mut most = 0;
    for column in scene.columns.iter().skip(1) {
        most = most.max(length_of(scene, column, page));
    }
    most
}

/// Writes the text of a column, turned by a quarter.
fn write_turned(plan: &Plan<'_>, entry: &ColumnText<'_>, column: &Column, page: &mut Page) {
    page.fill(
        "<text transform=\"translate({},{}) rotate(90)\" font-size=\"10\" class=\"{}\">",
        &[
            At(plan.mid(column.number) - Px(3)),
            At(plan.calls_top + Px(22)),
            Plain(entry.class),
        ],
    );
    write_entry(entry, alert_in(column), page);
    page.fill("<title>{}</title></text>\n", &[Xml(&column.text)]);
}

/// Writes the number of the task over a call: a second sign beside its colour.
fn write_number(x: Px, y: Px, task: usize, page: &mut Page) {
    if task > 0 {
        open_text(page, x, y, 9, "faint middle");
        page.fill("{}</text>\n", &[Count(task)]);
    }
}

/// Writes what happened in a column; an alert stops the machine with a line at its end.
fn write_column(scene: &Scene<'_>, plan: &Plan<'_>, column: &Column, page: &mut Page) {
    let entry = entry_of(scene, column);
    let top = plan.calls_top;
    let mid = plan.mid(column.number);
    let has_alert = alert_in(column).is_some();
    if entry.said.is_empty() && !has_alert {
        return dot(page, mid, top + Px(12), 2, "faint", "nothing runs");
    }
    if has_alert {
        let x = plan.x(column.number);
        line(
            page,
            (x, plan.tasks_top),
            (x, top),
            "stops",
            " stroke-width=\"3\"",
        );
    }
    write_number(mid, top + Px(15), entry.task, page);
    write_turned(plan, &entry, column, page);
}

/// Writes a line of how the calls are read.
fn write_note(y: Px, said: &str, page: &mut Page) {
    text(page, MARGIN, y, 10, "faint", said);
}

/// Writes the calls.
pub(super) fn write_calls(scene: &Scene<'_>, plan: &Plan<'_>, page: &mut Page) {
    let top = plan.calls_top;
    write_part(page, plan, top, top + Px(15), "CALLS");
    write_note(top + Px(29), "number of the task,", page);
    write_note(top + Px(41), "and its call; slanted:", page);
    write_note(top + Px(53), "a word that prints nothing", page);
    for column in scene.columns.iter().skip(1) {
        write_column(scene, plan, column, page);
    }
}
