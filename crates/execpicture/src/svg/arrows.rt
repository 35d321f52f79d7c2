//! The arrows: who does something, and whom it reaches.
use super::names::{aim_text, doer_text, means_text};
use super::plan::Plan;
use crate::deeds::{Aim, Arrow, Doer, Means};
use crate::forms::Px;
use crate::page::Page;
use crate::page::Value::{At, Plain, Xml};
use crate::scene::Scene;
use crate::seen::Kind;

/// An arrow's ground and its line, up to what it is marked with.
const SHAFT: &str = "<path d=\"M{},{} V{}\" class=\"halo none\" stroke-width=\"4\"/>\n\
<path d=\"M{},{} V{}\" class=\"{} none\" stroke-width=\"1.5\"{} marker-end=\"url(#{})\">";

/// What an arrow says.
const SAID: &str = "<title>{} {} {}{}</title></path>\n";

/// The dot at which an arrow begins.
const START: &str = "<circle cx=\"{}\" cy=\"{}\" r=\"3\" class=\"ink halo\"/>\n";

/// An envelope.
const MAIL: &str = "<path d=\"M{},{} m-7,-5 h14 v10 h-14 z l7,6 l7,-6\" class=\"mail\"/>\n";

/// A lock.
const LOCK: &str =
    "<path d=\"M{},{} m-6,-3 h12 v9 h-12 z m2.6,0 v-2.4 a3.4,3.4 0 0 1 6.8,0 v2.4\" class=\"ground line\"/>\n";

/// The middle of the row of who does something.
fn row_of(scene: &Scene<'_>, plan: &Plan<'_>, deed: &Arrow) -> Option<Px> {
    match deed.doer {
        Doer::Task(t) => Some(plan.task(t)),
        Doer::Server(source) => plan.source(source),
        Doer::Softint(_) => plan.softints,
        Doer::Timer => plan.object(scene.objects.place_of(Kind::Request, deed.about)?),
    }
}

/// Where an arrow ends: at the bar of a task, or at the row of the software interrupts.
fn end_of(plan: &Plan<'_>, aim: Aim, from: Px) -> Option<Px> {
    let (middle, half) = match aim {
        Aim::Task(t) => (plan.task(t), if plan.dense { Px(9) } else { Px(13) }),
        Aim::Softint(_) => (plan.softints?, Px(8)),
    };
    if middle.is_above(from) {
        Some(middle - half)
    } else {
        Some(middle + half)
    }
}

/// Draws the line of an arrow, whole if it wakes and dashed if not.
fn draw_shaft(deed: &Arrow, x: Px, from: Px, to: Px, page: &mut Page) {
    let (class, tip) = match deed.doer {
        Doer::Timer => ("times", "run-time"),
        _ => ("line", "run-tip"),
    };
    let dashes = if deed.wakes {
        ""
    } else {
        " stroke-dasharray=\"3 2\""
    };
    page.fill(
        SHAFT,
        &[
            At(x),
            At(from),
            At(to),
            At(x),
            At(from),
            At(to),
            Plain(class),
            Plain(dashes),
            Plain(tip),
        ],
    );
}

/// Writes a deed in words.
fn write_said(scene: &Scene<'_>, deed: &Arrow, page: &mut Page) {
    let doer = doer_text(scene, deed.doer);
    let aim = aim_text(scene, deed.aim);
    let more = if deed.wakes { ", which wakes" } else { "" };
    page.fill(
        SAID,
        &[
            Xml(doer),
            Plain(means_text(deed.means)),
            Xml(aim),
            Plain(more),
        ],
    );
}

/// Writes the arrow of a deed, with its sign between the first two rows.
fn write_arrow(scene: &Scene<'_>, plan: &Plan<'_>, deed: &Arrow, x: Px, page: &mut Page) {
    let Some(from) = row_of(scene, plan, deed) else {
        return;
    };
    let Some(to) = end_of(plan, deed.aim, from) else {
        return;
    };
    draw_shaft(deed, x, from, to, page);
    write_said(scene, deed, page);
    page.fill(START, &[At(x), At(from)]);
    let far = if plan.dense { Px(14) } else { Px(25) };
    let sign = if to.is_above(from) {
        from + far
    } else {
        from - far
    };
    match deed.means {
        Means::Message | Means::Reply => page.fill(MAIL, &[At(x), At(sign)]),
        Means::Semaphore => page.fill(LOCK, &[At(x), At(sign)]),
        _ => {}
    }
}

/// Writes all arrows, those of a column side by side.
pub(super) fn write_arrows(scene: &Scene<'_>, plan: &Plan<'_>, page: &mut Page) {
    for column in scene.columns.iter().skip(1) {
        let mut x = plan.x(column.number) - Px(5);
        for deed in column.deeds.iter() {
            write_arrow(scene, plan, deed, x, page);
            x = (x - Px(6)).max(plan.start(column.number));
        }
    }
}
