//! The rows of the interrupts: what is requested, what is served, and from where to where interrupts are disabled.
use super::plan::{FIRST_ROW, MARGIN, Plan, requests};
use super::shapes::{Area, across, dot, open_rect, text};
use crate::forms::{Px, width_of};
use crate::lines::{TraceLine, read_line};
use crate::page::Page;
use crate::page::Value::Xml;
use crate::scene::{Column, Scene};
use script::Source;
use softint::latches::Latches;

/// How the line is drawn from where a source was requested to where it is served.
const DASHES: &str = " stroke-width=\"1.3\" stroke-dasharray=\"2 2\"";

/// The row of a source, and what was drawn in it so far.
#[derive(Clone, Copy)]
struct Row {
    source: Source,
    /// Its middle.
    y: Px,
    /// Where the source was requested, if it was not served yet.
    asked: Option<Px>,
    /// From which place on there is room for a name.
    free: Px,
}

impl Row {
    /// Draws that the source is not served from where it was requested up to a place, if it was.
    fn draw_wait(&mut self, to: Px, page: &mut Page) {
        if let Some(from) = self.asked {
            across(page, from + Px(5), to, self.y, "line", DASHES);
        }
        self.asked = None;
    }

    /// Draws that the source is served.
    fn draw_served(&mut self, x: Px, page: &mut Page) {
        self.draw_wait(x - Px(5), page);
        dot(page, x, self.y, 5, "ink", "served");
    }

    /// Draws that the source is requested, if that is not drawn yet.
    fn draw_asked(&mut self, x: Px, page: &mut Page) {
        if self.asked.is_none() {
            self.asked = Some(x);
            dot(
                page,
                x,
                self.y,
                4,
                "ground line",
                "requested, and not served yet",
            );
        }
    }

    /// Writes the name of a server that ran, if there is room up to the next that was served. Answers whether it was
    /// written.
    fn write_server(&mut self, x: Px, name: &str, page: &mut Page) -> bool {
        let fits = x.is_above(self.free);
        if fits {
            text(page, x, self.y - Px(7), 10, "soft", name);
            self.free = x + width_of(name.len(), 10);
        }
        fits
    }

    /// Writes what became of the source in a column.
    fn write_column(&mut self, column: &Column, mid: Px, page: &mut Page) {
        let mut is_served = false;
        let mut ours = false;
        for said in column.text.lines() {
            match read_line(said) {
                TraceLine::Serve(name) => {
                    ours = name == self.source.text();
                    if ours && !is_served {
                        is_served = true;
                        self.draw_served(mid, page);
                    }
                }
                TraceLine::Server(name) => {
                    ours = ours && !self.write_server(mid + Px(7), name, page);
                }
                _ => {}
            }
        }
        if !is_served && requests(column.point.kind, self.source) {
            self.draw_asked(mid, page);
        }
    }
}

/// Whether a source asks to be served.
fn is_latched(latches: Latches, source: Source) -> bool {
    match source {
        Source::Exter => latches.exter,
        Source::Vertb => latches.vertb,
        Source::Ports => latches.ports,
    }
}

/// Writes the row of a source.
fn write_source(scene: &Scene<'_>, plan: &Plan<'_>, source: Source, y: Px, page: &mut Page) {
    write_row(page, plan, y, source.text());
    let mut row = Row {
        source,
        y,
        asked: None,
        free: Px(0),
    };
    for column in scene.columns.iter() {
        if column.number > 0 {
            row.write_column(column, plan.mid(column.number), page);
        } else if is_latched(column.latches, source) {
            row.asked = Some(plan.left);
        }
    }
    row.draw_wait(plan.end(), page);
}

/// Writes the line and the name of a row.
fn write_row(page: &mut Page, plan: &Plan<'_>, y: Px, name: &str) {
    across(page, plan.left, plan.end(), y, "grid", "");
    text(page, MARGIN, y + Px(4), 11, "ink", name);
}

/// Writes a software interrupt that ran in a column, with its name if that is free from before it. Answers from where
/// it is free then.
fn write_softint(plan: &Plan<'_>, y: Px, column: u32, name: &str, free: Px, page: &mut Page) -> Px {
    let from = plan.start(column) + Px(1);
    let to = plan.x(column) - Px(1);
    open_rect(page, Area::around(from, to, y, Px(14)), 2, "ink");
    page.fill(
        "><title>software interrupt {} runs</title></rect>\n",
        &[Xml(name)],
    );
    if !from.is_above(free) {
        return free;
    }
    text(page, to + Px(4), y + Px(4), 10, "soft", name);
    to + width_of(name.len(), 10) + Px(6)
}

/// Writes the row of the software interrupts.
fn write_softints(scene: &Scene<'_>, plan: &Plan<'_>, y: Px, page: &mut Page) {
    write_row(page, plan, y, "softints");
    let mut free = Px(0);
    for column in scene.columns.iter() {
        for said in column.text.lines() {
            if let TraceLine::Softint(name) = read_line(said) {
                free = write_softint(plan, y, column.number, name, free, page);
            }
        }
    }
}

/// Hatches the rows of the interrupts wherever interrupts are disabled.
fn write_shut(scene: &Scene<'_>, plan: &Plan<'_>, page: &mut Page) {
    for span in scene.shut.spans() {
        if span.shown {
            let from = plan.x(span.from);
            let area = Area {
                x: from,
                y: FIRST_ROW - Px(10),
                width: plan.x(span.to) - from,
                height: plan.tasks_top - FIRST_ROW - Px(2),
            };
            open_rect(page, area, 0, "shut");
            page.push_str(
                " fill=\"url(#run-shut)\"><title>interrupts are disabled</title></rect>\n",
            );
        }
    }
}

/// Writes the rows of the interrupts.
pub(super) fn write_interrupts(scene: &Scene<'_>, plan: &Plan<'_>, page: &mut Page) {
    if !plan.tasks_top.is_above(FIRST_ROW) {
        return;
    }
    let y = FIRST_ROW - Px(18);
    text(page, MARGIN, y, 9, "faint wide", "INTERRUPTS");
    write_shut(scene, plan, page);
    for source in [Source::Exter, Source::Vertb, Source::Ports] {
        if let Some(y) = plan.source(source) {
            write_source(scene, plan, source, y, page);
        }
    }
    if let Some(y) = plan.softints {
        write_softints(scene, plan, y, page);
    }
}
