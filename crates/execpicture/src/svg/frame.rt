//! The frame of a picture: its ground, its title, what a screen reader reads, and the legend.
use super::calls::alert_in;
use super::plan::{MARGIN, Plan};
use super::shapes::{Area, across, dot, open_rect, rect, text};
use super::style::STYLE;
use crate::forms::{Px, width_of};
use crate::page::Page;
use crate::page::Value::{At, Count, Number, Plain, Xml};
use crate::scene::{Scene, TaskTrack};
use crate::words::write_state;

/// How a whole arrow, a dashed one and the hatching of disabled interrupts are drawn.
const DEFINITIONS: &str = "<defs>\
<marker id=\"run-tip\" viewBox=\"0 0 8 8\" refX=\"7\" refY=\"4\" markerWidth=\"7\" markerHeight=\"7\" orient=\"auto\"><path class=\"ink\" d=\"M0,0.6 L8,4 L0,7.4 L2,4 z\"/></marker>\
<marker id=\"run-time\" viewBox=\"0 0 8 8\" refX=\"7\" refY=\"4\" markerWidth=\"7\" markerHeight=\"7\" orient=\"auto\"><path class=\"time\" d=\"M0,0.6 L8,4 L0,7.4 L2,4 z\"/></marker>\
<pattern id=\"run-shut\" width=\"6\" height=\"6\" patternUnits=\"userSpaceOnUse\" patternTransform=\"rotate(45)\"><rect width=\"2\" height=\"6\" class=\"stop\" fill-opacity=\".45\"/></pattern>\
</defs>\n";

/// The beginning of the document, up to what a screen reader reads.
const HEAD: &str =
    "<svg xmlns=\"http://www.w3.org/2000/svg\" viewBox=\"0 0 {} {}\" width=\"{}\" height=\"{}\" data-from=\"{}\" data-to=\"{}\" \
class=\"run\" role=\"img\" aria-labelledby=\"run-title run-text\">\n\
<title id=\"run-title\">{}</title>\n<desc id=\"run-text\">";

/// How a picture is read, below its title.
const READING: &str =
    "each column is one step; a tinted one is a tick or a request of an interrupt";

/// Writes how one task was, in words: each state with the numbers after which it begins and ends.
fn write_story(scene: &Scene<'_>, plan: &Plan<'_>, t: usize, track: &TaskTrack, page: &mut Page) {
    page.fill("Task {}:", &[Plain(scene.objects.task_name(t))]);
    for span in track.seen.spans() {
        page.push_str(if span.from == 0 { " " } else { ", " });
        write_state(&scene.objects, &span.shown, page);
        let from = scene.number_of(span.from);
        let to = scene.number_of(span.to.min(plan.last));
        page.fill(" from {} to {}", &[Number(from), Number(to)]);
    }
    page.push_str(". ");
}

/// Writes which alert ends the run, if one does, in words.
fn write_ending(scene: &Scene<'_>, page: &mut Page) {
    for column in scene.columns.iter().skip(1) {
        if let Some(alert) = alert_in(column) {
            let number = Number(scene.number_of(column.number));
            page.fill("Number {} ends the run: {}. ", &[number, Xml(alert)]);
        }
    }
}

/// Writes what a screen reader reads of the picture.
fn write_description(scene: &Scene<'_>, plan: &Plan<'_>, page: &mut Page) {
    page.fill(
        "{} tasks over {} steps, ticks and requests of interrupts, after number {}. ",
        &[
            Count(scene.tasks.len()),
            Number(u64::from(plan.last)),
            Number(scene.from),
        ],
    );
    for (t, track) in scene.tasks.iter().enumerate() {
        write_story(scene, plan, t, track, page);
    }
    write_ending(scene, page);
    page.push_str("</desc>\n<style>\n");
}

/// Writes the beginning of the document, up to what a screen reader reads.
fn open_document(scene: &Scene<'_>, plan: &Plan<'_>, title: &str, page: &mut Page) {
    page.fill(
        HEAD,
        &[
            At(plan.width),
            At(plan.height),
            At(plan.width),
            At(plan.height),
            Number(scene.from),
            Number(scene.number_of(plan.last)),
            Xml(title),
        ],
    );
}

/// Writes the beginning of the document.
pub(super) fn write_head(scene: &Scene<'_>, plan: &Plan<'_>, title: &str, page: &mut Page) {
    open_document(scene, plan, title, page);
    write_description(scene, plan, page);
    page.push_str(STYLE);
    page.push_str("</style>\n");
    page.push_str(DEFINITIONS);
    let ground = Area {
        x: Px(0),
        y: Px(0),
        width: plan.width,
        height: plan.height,
    };
    rect(page, ground, 0, "ground");
    text(page, MARGIN, Px(30), 19, "ink strong", title);
    text(page, MARGIN, Px(49), 12, "soft", READING);
}

/// Writes the line above a part of the picture, and its name.
pub(super) fn write_part(page: &mut Page, plan: &Plan<'_>, top: Px, y: Px, said: &str) {
    across(page, MARGIN, plan.end(), top, "grid", "");
    text(page, MARGIN, y, 9, "faint wide", said);
}

/// Writes a cross, at which a task is removed.
pub(super) fn write_cross(x: Px, y: Px, page: &mut Page) {
    page.fill(
        "<path d=\"M{},{} m-4,-4 l8,8 m0,-8 l-8,8\" class=\"rest none\" stroke-width=\"1.8\"/>\n",
        &[At(x), At(y)],
    );
}

/// What the legend explains.
#[derive(Clone, Copy)]
enum Sample {
    /// A rectangle: its height, how round it is, and its class.
    Bar(Px, u64, &'static str),
    /// A line: its class, and how it is drawn.
    Stroke(&'static str, &'static str),
    Cross,
    Dots,
    Bracket,
    Hatching,
}

/// What the looks of tasks mean.
const STATES: [(Sample, &str); 5] = [
    (Sample::Bar(Px(18), 3, "t0"), "running"),
    (Sample::Bar(Px(12), 2, "t0 k0 pale thin"), "ready"),
    (
        Sample::Stroke("rest", " stroke-width=\"1.6\""),
        "waits for signals",
    ),
    (
        Sample::Stroke("k1", " stroke-width=\"2.2\" stroke-dasharray=\"4 3\""),
        "waits for a semaphore",
    ),
    (Sample::Cross, "removed"),
];

/// What the arrows and the signs of interrupts mean.
const SIGNS: [(Sample, &str); 5] = [
    (
        Sample::Stroke("line", " stroke-width=\"1.5\" marker-end=\"url(#run-tip)\""),
        "wakes",
    ),
    (
        Sample::Stroke(
            "line",
            " stroke-width=\"1.5\" stroke-dasharray=\"3 2\" marker-end=\"url(#run-tip)\"",
        ),
        "reaches one that does not wait for it",
    ),
    (Sample::Dots, "interrupt served, and latched"),
    (Sample::Bracket, "Forbid, Disable"),
    (Sample::Hatching, "interrupts are disabled"),
];

/// Draws what the legend explains.
fn draw_sample(sample: Sample, x: Px, y: Px, page: &mut Page) {
    let right = x + Px(26);
    match sample {
        Sample::Bar(height, round, class) => {
            rect(page, Area::around(x, right, y, height), round, class)
        }
        Sample::Stroke(class, more) => across(page, x, right, y, class, more),
        Sample::Cross => write_cross(x + Px(9), y, page),
        Sample::Dots => {
            dot(page, x + Px(6), y, 5, "ink", "served");
            dot(page, x + Px(20), y, 4, "ground line", "latched");
        }
        Sample::Bracket => page.fill(
            "<path d=\"M{},{} v-4 h26 v4\" class=\"line none\" stroke-width=\"1.8\"/>\n",
            &[At(x), At(y)],
        ),
        Sample::Hatching => {
            open_rect(page, Area::around(x, right, y, Px(16)), 0, "shut");
            page.push_str(" fill=\"url(#run-shut)\"/>\n");
        }
    }
}

/// Writes a line of the legend.
fn write_legend(samples: &[(Sample, &str)], y: Px, page: &mut Page) {
    let mut x = MARGIN;
    for (sample, said) in samples {
        draw_sample(*sample, x, y, page);
        let start = x + Px(34);
        text(page, start, y + Px(4), 11, "soft", said);
        x = start + width_of(said.len(), 10) + Px(16);
    }
}

/// Writes what the signs mean, and ends the document.
pub(super) fn write_foot(plan: &Plan<'_>, page: &mut Page) {
    write_legend(&STATES, plan.legend, page);
    write_legend(&SIGNS, plan.legend + Px(26), page);
    page.push_str("</svg>\n");
}
