//! The bodies of a machine file, and their lines.

use crate::made::Made;
use crate::said::{Said, said_by};
use std::alloc::Global;
use taskscript::{Array, LinePlace, Owner, items_at, line_in, lines_of};
use toml::{Table, Value};

/// The array of what has a body.
pub fn array_of(owner: Owner) -> Array {
    match owner {
        Owner::Softint => Array::Softint,
        Owner::Server => Array::Server,
        Owner::Task => Array::Task,
    }
}

/// Whether the body of an owner is that of an interrupt.
pub(crate) fn is_interrupt(owner: Owner) -> bool {
    match owner {
        Owner::Softint | Owner::Server => true,
        Owner::Task => false,
    }
}

/// The lines of the body that a place is in.
pub fn body_at(table: &Table, place: LinePlace) -> &[Value] {
    match items_at(table, array_of(place.owner).key()).get(place.item) {
        None => &[],
        Some(owner) => lines_of(owner),
    }
}

/// The line at a place, or the empty text.
pub fn line_at(table: &Table, place: LinePlace) -> &str {
    match body_at(table, place).get(place.line) {
        None => "",
        Some(item) => line_in(item),
    }
}

/// A line of a file that has a word.
#[derive(Drop)]
pub struct Spoken<'a> {
    pub place: LinePlace,
    pub line: &'a str,
    pub said: Said<'a>,
}

/// A body of a file.
#[derive(Drop)]
pub struct Body<'a> {
    /// The place of its first line.
    pub place: LinePlace,
    pub lines: &'a [Value],
    /// Its lines that have a word.
    pub spoken: Vec<Spoken<'a>>,
}

impl<'a> Body<'a> {
    /// The body of these lines. `place` is that of the first.
    fn new(alloc: Global, place: LinePlace, lines: &'a [Value]) -> Made<Body<'a>> {
        let mut spoken = Vec::new(alloc);
        for (number, value) in lines.iter().enumerate() {
            let (line, text) = (number, line_in(value));
            if let Some(said) = said_by(alloc, text)? {
                spoken.push(Spoken {
                    place: LinePlace { line, ..place },
                    line: text,
                    said,
                })?;
            }
        }
        Ok(Body {
            place,
            lines,
            spoken,
        })
    }
}

/// The bodies of a file: those of the software interrupts, of the servers and of the tasks.
pub fn bodies_in(alloc: Global, table: &Table) -> Made<Vec<Body<'_>>> {
    let mut bodies = Vec::new(alloc);
    for owner in [Owner::Softint, Owner::Server, Owner::Task] {
        let items = items_at(table, array_of(owner).key());
        for (item, value) in items.iter().enumerate() {
            let line = 0usize;
            let place = LinePlace { owner, item, line };
            bodies.push(Body::new(alloc, place, lines_of(value))?)?;
        }
    }
    Ok(bodies)
}
