//! The rows of the objects: who owns a semaphore and who waits for it, what is in a port, and which request is in
//! progress.
use super::frame::write_part;
use super::names::colour_of;
use super::plan::{MARGIN, Plan};
use super::shapes::{Area, across, open_rect, open_text, text};
use crate::forms::{Px, width_of};
use crate::page::Page;
use crate::page::Value::{Count, Hex, Number, Plain, Xml};
use crate::scene::{Scene, TaskTrack};
use crate::seen::{Awaits, Kind, ObjectSeen, TaskSeen};
use crate::track::{Span, Track};
use crate::words::write_time;

/// From where to where something is shown in a row.
#[derive(Clone, Copy)]
struct Reach {
    from: Px,
    to: Px,
    /// The middle of the row.
    y: Px,
}

impl Reach {
    /// Writes a text in it, if there is room for it with some pixels beside it.
    fn write(self, start: Px, beside: Px, class: &str, said: &str, page: &mut Page) {
        if (self.to - self.from).is_above(width_of(said.len(), 10) + beside) {
            text(page, self.from + start, self.y + Px(4), 10, class, said);
        }
    }
}

/// Draws that a task owns a semaphore.
fn draw_owner(scene: &Scene<'_>, reach: Reach, t: usize, page: &mut Page) {
    let name = scene.objects.task_name(t);
    let area = Area::around(reach.from, reach.to, reach.y, Px(16));
    open_rect(page, area, 3, colour_of(t).fill);
    page.fill("><title>{} owns it</title></rect>\n", &[Xml(name)]);
    reach.write(Px(6), Px(8), "on strong", name, page);
}

/// Draws the messages of a port: a bar that is higher if there are more, and their number.
fn draw_messages(reach: Reach, many: u32, page: &mut Page) {
    let height = Px(5).times(many.min(3));
    let width = reach.to - reach.from;
    let area = Area {
        x: reach.from,
        y: reach.y + Px(7) - height,
        width,
        height,
    };
    let number = Number(u64::from(many));
    open_rect(page, area, 1, "mail thin");
    page.fill("><title>messages: {}</title></rect>\n", &[number]);
    open_text(page, reach.from + Px(3), area.y - Px(2), 9, "post");
    let unit = match (width.is_above(Px(64)), many) {
        (false, _) => "",
        (true, 1) => " message",
        (true, _) => " messages",
    };
    page.fill("{}{}</text>\n", &[number, Plain(unit)]);
}

/// Draws a request that is in progress, and its time.
fn draw_request(reach: Reach, is_until: bool, micros: u64, page: &mut Page) {
    let mut draft = page.draft();
    write_time(is_until, micros, &mut draft);
    let said = page.read(&draft);
    let area = Area::around(reach.from, reach.to, reach.y, Px(14));
    open_rect(page, area, 3, "wait times");
    page.fill("><title>in progress: {}</title></rect>\n", &[Plain(said)]);
    reach.write(Px(5), Px(4), "time", said, page);
}

/// Draws a line, at which nothing happens.
fn draw_rest(reach: Reach, y: Px, page: &mut Page) {
    across(
        page,
        reach.from,
        reach.to,
        y,
        "rest",
        " stroke-width=\"1.4\"",
    );
}

/// Draws what is seen of an object.
fn draw_seen(scene: &Scene<'_>, reach: Reach, seen: ObjectSeen, page: &mut Page) {
    match seen {
        ObjectSeen::Absent => {}
        ObjectSeen::Semaphore(None) | ObjectSeen::Idle => draw_rest(reach, reach.y, page),
        ObjectSeen::Semaphore(Some(t)) => draw_owner(scene, reach, t, page),
        ObjectSeen::Port(many) => {
            draw_rest(reach, reach.y + Px(7), page);
            if many > 0 {
                draw_messages(reach, many, page);
            }
        }
        ObjectSeen::Busy(micros) => draw_request(reach, false, micros, page),
        ObjectSeen::BusyUntil(micros) => draw_request(reach, true, micros, page),
    }
}

/// Whether a task waits for the semaphore at an address.
fn waits_at(seen: TaskSeen, address: u32) -> bool {
    match seen.awaits {
        Awaits::Object(Kind::Semaphore, at) => at == address,
        _ => false,
    }
}

/// Draws a strip for each time that a task waits for a semaphore. Answers whether it does at all.
fn draw_waits(
    scene: &Scene<'_>,
    plan: &Plan<'_>,
    t: usize,
    track: &TaskTrack,
    address: u32,
    y: Px,
    page: &mut Page,
) -> bool {
    let mut any = false;
    for span in track.seen.spans() {
        if waits_at(span.shown, address) {
            any = true;
            let from = plan.x(span.from);
            let area = Area {
                x: from,
                y,
                width: plan.x(span.to) - from,
                height: Px(3),
            };
            open_rect(page, area, 0, colour_of(t).fill);
            let name = Xml(scene.objects.task_name(t));
            page.fill("><title>{} waits for it</title></rect>\n", &[name]);
        }
    }
    any
}

/// Draws who waits for a semaphore: a strip for each task, one below another.
fn draw_waiters(scene: &Scene<'_>, plan: &Plan<'_>, address: u32, y: Px, page: &mut Page) {
    let mut below = y + Px(9);
    for (t, track) in scene.tasks.iter().enumerate() {
        let any = draw_waits(scene, plan, t, track, address, below, page);
        if any && (y + Px(12)).is_above(below) {
            below = below + Px(4);
        }
    }
}

/// What a program needs to know of a span: a semaphore's owner, counted from 1 and 0 for none; how many messages a port
/// has; or whether a request is in progress.
fn facts_of(seen: ObjectSeen) -> (&'static str, usize) {
    match seen {
        ObjectSeen::Absent => ("", 0),
        ObjectSeen::Semaphore(None) => (" data-owner=\"{}\"", 0),
        ObjectSeen::Semaphore(Some(t)) => (" data-owner=\"{}\"", t.saturating_add(1)),
        ObjectSeen::Port(many) => (" data-messages=\"{}\"", many as usize),
        ObjectSeen::Idle => (" data-busy=\"{}\"", 0),
        ObjectSeen::Busy(_) | ObjectSeen::BusyUntil(_) => (" data-busy=\"{}\"", 1),
    }
}

/// Opens the group of a span of an object: its address, the numbers at which the span begins and ends, and what is
/// seen.
fn open_span(scene: &Scene<'_>, address: u32, span: &Span<ObjectSeen>, page: &mut Page) {
    let from = scene.number_of(span.from);
    let to = scene.number_of(span.to);
    page.fill(
        "<g data-object=\"{}\" data-from=\"{}\" data-to=\"{}\"",
        &[Hex(address), Number(from), Number(to)],
    );
    let (form, number) = facts_of(span.shown);
    page.fill(form, &[Count(number)]);
    page.push_str(">");
}

/// Draws the spans of an object at an address.
fn draw_spans(
    scene: &Scene<'_>,
    plan: &Plan<'_>,
    y: Px,
    address: u32,
    track: &Track<ObjectSeen>,
    page: &mut Page,
) {
    for span in track.spans() {
        let reach = Reach {
            from: plan.x(span.from),
            to: plan.x(span.to),
            y,
        };
        open_span(scene, address, span, page);
        draw_seen(scene, reach, span.shown, page);
        page.push_str("</g>\n");
    }
}

/// Writes the row of an object.
fn write_row(scene: &Scene<'_>, plan: &Plan<'_>, place: usize, y: Px, page: &mut Page) {
    let Some(object) = scene.objects.list().get(place) else {
        return;
    };
    text(page, MARGIN, y + Px(4), 11, "ink", &object.label);
    across(page, plan.left, plan.end(), y, "grid", "");
    if let Some(track) = scene.object_tracks.get(place) {
        draw_spans(scene, plan, y, object.address, track, page);
    }
    if object.kind == Kind::Semaphore {
        draw_waiters(scene, plan, object.address, y, page);
    }
}

/// Writes the rows of the objects.
pub(super) fn write_objects(scene: &Scene<'_>, plan: &Plan<'_>, page: &mut Page) {
    if plan.objects.is_empty() {
        return;
    }
    let top = plan.objects_top;
    write_part(page, plan, top, top + Px(14), "OBJECTS");
    for (row, place) in plan.objects.iter().enumerate() {
        write_row(scene, plan, *place, plan.object_row(row), page);
    }
}
