//! A text that is asked about, with where its parts are written, and places in it as the protocol has them.

use crate::made::Made;
use execadvice::{FilePlace, Span, Written};
use languageprotocol::{characters_before, units_before};
use serde_json::{Value, json};
use std::alloc::Global;
use taskscript::LinePlace;

/// A text that is asked about.
#[derive(Drop)]
pub struct Query<'a> {
    pub alloc: Global,
    /// The name of its document.
    pub uri: &'a str,
    /// Where its parts are written.
    pub written: Written<'a>,
    /// Its lines.
    lines: Vec<&'a str>,
}

/// A place of the protocol: a line and a place in it, from 0.
fn point(alloc: Global, line: usize, character: usize) -> Made<Value> {
    json!(in alloc; {"line": line, "character": character})
}

impl<'a> Query<'a> {
    /// A text that is asked about.
    pub(crate) fn new(alloc: Global, uri: &'a str, text: &'a str) -> Made<Query<'a>> {
        let text = text.strip_prefix("\u{FEFF}").unwrap_or(text);
        Ok(Query {
            alloc,
            uri,
            written: Written::new(alloc, text)?,
            lines: text.lines().collect(alloc)?,
        })
    }

    /// The line of a number, from 1.
    pub(crate) fn line(&self, number: usize) -> &'a str {
        self.lines
            .get(number.saturating_sub(1))
            .copied()
            .unwrap_or("")
    }

    /// The place of a line and a number of UTF-16 code units in it, both from 0.
    pub(crate) fn place_at(&self, line: usize, units: usize) -> FilePlace {
        let line = line.saturating_add(1);
        let column = characters_before(self.line(line), units).saturating_add(1);
        FilePlace { line, column }
    }

    /// A place as the protocol has it.
    pub(crate) fn point_of(&self, place: FilePlace) -> Made<Value> {
        let units = units_before(self.line(place.line), place.column.saturating_sub(1));
        point(self.alloc, place.line.saturating_sub(1), units)
    }

    /// The range from one place to another.
    pub(crate) fn range(&self, from: FilePlace, to: FilePlace) -> Made<Value> {
        let (start, end) = (self.point_of(from)?, self.point_of(to)?);
        json!(in self.alloc; {"start": start, "end": end})
    }

    /// The range of a text that is written at a place.
    pub(crate) fn range_of(&self, place: FilePlace, text: &str) -> Made<Value> {
        self.range(place, place.after(text))
    }

    /// The range of a part of a line of code.
    pub(crate) fn code_range(&self, place: LinePlace, span: Span) -> Made<Value> {
        let end = span.start.saturating_add(span.width);
        let first = FilePlace { line: 1, column: 1 };
        let from = self
            .written
            .place_of_code(place, span.start)
            .unwrap_or(first);
        let to = self.written.place_of_code(place, end).unwrap_or(first);
        self.range(from, to)
    }

    /// A range of this document, with its name.
    pub(crate) fn location(&self, range: Value) -> Made<Value> {
        json!(in self.alloc; {"uri": self.uri, "range": range})
    }
}
