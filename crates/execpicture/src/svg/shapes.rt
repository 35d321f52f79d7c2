//! The shapes that a picture is made of.
use crate::forms::Px;
use crate::page::Page;
use crate::page::Value::{At, Number, Plain, Xml};

/// A rectangle.
#[derive(Clone, Copy)]
pub(super) struct Area {
    pub x: Px,
    pub y: Px,
    pub width: Px,
    pub height: Px,
}

impl Area {
    /// The rectangle between two places, around a middle.
    pub fn around(from: Px, to: Px, middle: Px, height: Px) -> Area {
        Area {
            x: from,
            y: middle - height.half(),
            width: to - from,
            height,
        }
    }
}

/// Opens a text.
pub(super) fn open_text(page: &mut Page, x: Px, y: Px, size: u64, class: &str) {
    page.fill(
        "<text x=\"{}\" y=\"{}\" font-size=\"{}\" class=\"{}\">",
        &[At(x), At(y), Number(size), Plain(class)],
    );
}

/// Writes a text.
pub(super) fn text(page: &mut Page, x: Px, y: Px, size: u64, class: &str, said: &str) {
    open_text(page, x, y, size, class);
    page.fill("{}</text>\n", &[Xml(said)]);
}

/// Writes a line.
pub(super) fn line<'a>(
    page: &mut Page,
    from: (Px, Px),
    to: (Px, Px),
    class: &'a str,
    more: &'a str,
) {
    let (x, y) = from;
    let (right, bottom) = to;
    page.fill(
        "<line x1=\"{}\" y1=\"{}\" x2=\"{}\" y2=\"{}\" class=\"{}\"{}/>\n",
        &[
            At(x),
            At(y),
            At(right),
            At(bottom),
            Plain(class),
            Plain(more),
        ],
    );
}

/// Writes a line across.
pub(super) fn across<'a>(page: &mut Page, from: Px, to: Px, y: Px, class: &'a str, more: &'a str) {
    line(page, (from, y), (to, y), class, more);
}

/// Writes a rectangle with rounded corners, without what it is closed with.
pub(super) fn open_rect(page: &mut Page, area: Area, round: u64, class: &str) {
    page.fill(
        "<rect x=\"{}\" y=\"{}\" width=\"{}\" height=\"{}\" rx=\"{}\" class=\"{}\"",
        &[
            At(area.x),
            At(area.y),
            At(area.width),
            At(area.height),
            Number(round),
            Plain(class),
        ],
    );
}

/// Writes a rectangle with rounded corners, of which nothing is to be said.
pub(super) fn rect(page: &mut Page, area: Area, round: u64, class: &str) {
    open_rect(page, area, round, class);
    page.push_str("/>\n");
}

/// Writes a dot.
pub(super) fn dot<'a>(page: &mut Page, x: Px, y: Px, radius: u64, class: &'a str, title: &'a str) {
    page.fill(
        "<circle cx=\"{}\" cy=\"{}\" r=\"{}\" class=\"{}\"><title>{}</title></circle>\n",
        &[At(x), At(y), Number(radius), Plain(class), Xml(title)],
    );
}
