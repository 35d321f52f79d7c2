//! The columns: unseen, for a page that marks a point of the run.
use super::plan::Plan;
use super::shapes::{Area, open_rect};
use crate::forms::Px;
use crate::page::Page;
use crate::page::Value::{Number, Xml};
use crate::scene::{Column, Scene};

/// Writes a column: the number of its step, tick or request, and the lines that it printed.
fn write_column(scene: &Scene<'_>, plan: &Plan<'_>, column: &Column, page: &mut Page) {
    let x = plan.start(column.number);
    let area = Area {
        x,
        y: Px(60),
        width: plan.x(column.number) - x,
        height: plan.legend - Px(80),
    };
    open_rect(page, area, 0, "at");
    page.fill(
        " data-step=\"{}\"><title>{}</title></rect>\n",
        &[Number(scene.number_of(column.number)), Xml(&column.text)],
    );
}

/// Writes the columns.
pub(super) fn write_columns(scene: &Scene<'_>, plan: &Plan<'_>, page: &mut Page) {
    for column in scene.columns.iter().skip(1) {
        write_column(scene, plan, column, page);
    }
}
