//! The ruler: the events of the event text, the numbers of the points, and the clock.
use super::plan::{MARGIN, Plan, RULER};
use super::shapes::{Area, across, line, open_text, rect, text};
use crate::film::{Point, PointKind};
use crate::forms::{Px, width_of};
use crate::page::Page;
use crate::page::Value::{Millis, Number, Plain};
use crate::scene::Scene;
use script::Event;

/// How far the labels reach in each of three lines of labels.
#[derive(Clone, Copy)]
struct Lanes {
    first: Px,
    second: Px,
    third: Px,
}

impl Lanes {
    /// Puts a label into the lowest line in which it has room, and answers how far that is above the lowest; none if it
    /// has room in none.
    fn put(&mut self, from: Px, to: Px) -> Option<Px> {
        if from.is_above(self.first) {
            self.first = to;
            Some(Px(0))
        } else if from.is_above(self.second) {
            self.second = to;
            Some(Px(13))
        } else if from.is_above(self.third) {
            self.third = to;
            Some(Px(26))
        } else {
            None
        }
    }
}

/// Writes an event as it is in the event text.
fn write_event(event: Event, page: &mut Page) {
    match event {
        Event::Run(n) => page.fill("run {}", &[Number(u64::from(n))]),
        Event::Tick(n) => page.fill("tick {}", &[Number(u64::from(n))]),
        Event::Irq(source) => page.fill("irq {}", &[Plain(source.text())]),
    }
}

/// Writes the label of an event between two places: in their middle if it has room there, else from the first on.
fn write_label(from: Px, to: Px, event: Event, lanes: &mut Lanes, page: &mut Page) {
    let mut draft = page.draft();
    write_event(event, &mut draft);
    let said = page.read(&draft);
    let wide = width_of(said.len(), 11);
    let start = if to.is_above(from + wide) {
        from.middle(to) - wide.half()
    } else {
        from
    };
    if let Some(up) = lanes.put(start, start + wide + Px(3)) {
        text(page, start, RULER - up - Px(4), 11, "soft", said);
    }
}

/// Tints the columns between two places.
fn write_tint(plan: &Plan<'_>, from: Px, to: Px, class: &str, page: &mut Page) {
    let area = Area {
        x: from,
        y: RULER + Px(4),
        width: to - from,
        height: plan.calls_top - RULER - Px(8),
    };
    rect(page, area, 0, class);
}

/// Writes the line of an event between two places, and tints the columns between them if it is not a run.
fn write_group(plan: &Plan<'_>, from: Px, to: Px, event: Event, page: &mut Page) {
    match event {
        Event::Run(_) => {}
        Event::Tick(_) => write_tint(plan, from, to, "tick", page),
        Event::Irq(_) => write_tint(plan, from, to, "irq", page),
    }
    let more = " stroke-width=\"1.4\"";
    across(page, from + Px(2), to - Px(2), RULER, "rest", more);
}

/// The point after a column, if the picture shows it.
fn point_after<'a>(scene: &'a Scene<'_>, column: u32) -> Option<&'a Point> {
    let after = scene.columns.get((column as usize).saturating_add(1))?;
    Some(&after.point)
}

/// Writes the events.
fn write_events(scene: &Scene<'_>, plan: &Plan<'_>, list: &[Event], page: &mut Page) {
    let mut lanes = Lanes {
        first: Px(0),
        second: Px(0),
        third: Px(0),
    };
    let mut from = plan.left;
    for column in scene.columns.iter().skip(1) {
        let event = column.point.event;
        let after = point_after(scene, column.number);
        if !matches!(after, Some(point) if point.event == event) {
            let to = plan.x(column.number);
            if let Some(event) = list.get(event) {
                write_group(plan, from, to, *event, page);
                write_label(from, to, *event, &mut lanes, page);
            }
            from = to;
        }
    }
}

/// Writes the number of each tenth point, with a line down to the calls.
fn write_numbers(scene: &Scene<'_>, plan: &Plan<'_>, page: &mut Page) {
    for column in 0..plan.last.saturating_add(1) {
        let number = scene.number_of(column);
        if number % 10 == 0 || column == 0 {
            let x = plan.x(column);
            let foot = plan.calls_top - Px(4);
            line(page, (x, RULER + Px(22)), (x, foot), "grid", "");
            open_text(page, x, RULER + Px(17), 10, "faint middle");
            page.fill("{}</text>\n", &[Number(number)]);
        }
    }
}

/// Whether the clock is shown at a point: after the start and after the last of several ticks.
fn shows_clock(scene: &Scene<'_>, column: u32, kind: PointKind) -> bool {
    if let Some(after) = point_after(scene, column) {
        if matches!(after.kind, PointKind::Tick) {
            return false;
        }
    }
    column == 0 || matches!(kind, PointKind::Tick)
}

/// Writes what the clock shows, if there is room for it.
fn write_clock(scene: &Scene<'_>, plan: &Plan<'_>, page: &mut Page) {
    let mut free = Px(0);
    for column in scene.columns.iter() {
        let x = plan.x(column.number) + Px(3);
        if x.is_above(free) && shows_clock(scene, column.number, column.point.kind) {
            open_text(page, x, RULER + Px(30), 10, "time strong");
            page.fill("{} ms</text>\n", &[Millis(column.point.clock)]);
            free = x + Px(52);
        }
    }
}

/// Writes the ruler.
pub(super) fn write_ruler(scene: &Scene<'_>, plan: &Plan<'_>, list: &[Event], page: &mut Page) {
    text(page, MARGIN, RULER - Px(4), 11, "faint", "events");
    text(page, MARGIN, RULER + Px(17), 10, "faint", "number");
    text(page, MARGIN, RULER + Px(30), 10, "faint", "clock");
    write_events(scene, plan, list, page);
    write_numbers(scene, plan, page);
    write_clock(scene, plan, page);
}
