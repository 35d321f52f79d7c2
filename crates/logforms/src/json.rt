//! The log as JSON: one object a line, for each line of the trace, and for each word that prints nothing, if that is
//! asked for.

use crate::events::event_of;
use crate::rows::{Row, Written, rows_shown};
use crate::words::note_variables;
use execlist::space::ListSpace;
use execlog::{Actor, Before, Filter, Form, Moment, Page, Spot, line_of, source_at};
use execsim::Machine;
use serde_json::{Map, Value, put};
use std::alloc::{AllocError, Global};
use std::str::from_utf8;

/// The form of JSON.
#[derive(Clone, Copy)]
pub struct Json<'a> {
    /// What memory is taken from.
    pub alloc: Global,
    /// The machine file.
    pub written: Written<'a>,
    /// Which rows are shown.
    pub filter: Filter,
    /// The number of the last step, tick or request of each event.
    pub ends: &'a [u64],
}

type Object = Map<String, Value>;

/// Adds a member that is a text.
fn put_text(object: &mut Object, alloc: Global, key: &str, bytes: &[u8]) -> Result<(), AllocError> {
    let text = from_utf8(bytes).unwrap_or("");
    let value = Value::try_from_str(alloc, text)?;
    put(object, alloc, key, value)
}

/// Adds a member that is a number.
fn put_number(
    object: &mut Object,
    alloc: Global,
    key: &str,
    number: u64,
) -> Result<(), AllocError> {
    put(object, alloc, key, Value::from(number))
}

impl Json<'_> {
    /// Adds who acts, if the row is that of an action.
    fn put_actor(&self, object: &mut Object, spot: Spot) -> Result<(), AllocError> {
        let book = self.written.book;
        match spot {
            Spot::Machine => Ok(()),
            Spot::Task(task, _) => match book.tasks.get(task) {
                None => Ok(()),
                Some(body) => put_text(object, self.alloc, "task", body.name.as_str().as_bytes()),
            },
            Spot::Interrupt(number, _) => match book.interrupts.get(number) {
                None => Ok(()),
                Some(body) => put_text(object, self.alloc, "body", body.name.as_str().as_bytes()),
            },
        }
    }

    /// Adds when it was.
    fn put_moment(&self, object: &mut Object, moment: &Moment) -> Result<(), AllocError> {
        let event = event_of(self.ends, moment.number);
        put_number(object, self.alloc, "step", moment.number)?;
        put_number(object, self.alloc, "clock_us", moment.clock)?;
        put_number(object, self.alloc, "event", event as u64)
    }

    /// Adds the text of a row, and that of its command.
    fn put_texts(&self, object: &mut Object, row: &Row) -> Result<(), AllocError> {
        let key = if row.is_silent { "plain" } else { "trace" };
        put_text(object, self.alloc, key, &row.text)?;
        let source = source_at(self.written.book, row.spot);
        if source.is_empty() {
            return Ok(());
        }
        put_text(object, self.alloc, "source", source)
    }

    /// Adds a row, if it is shown.
    fn push(&self, moment: &Moment, row: &Row, page: &mut Vec<u8>) -> Result<(), AllocError> {
        let line = line_of(self.written.book, row.spot);
        if !self.filter.shows(moment.number, line, row.spot) {
            return Ok(());
        }
        let mut object = Map::new(self.alloc);
        self.put_moment(&mut object, moment)?;
        self.put_actor(&mut object, row.spot)?;
        if let Some(line) = line {
            put_number(&mut object, self.alloc, "line", u64::from(line))?;
        }
        self.put_texts(&mut object, row)?;
        let text = Value::Object(object).to_string(self.alloc)?;
        page.extend_from_slice(text.as_str().as_bytes())?;
        page.push(b'\n')?;
        Ok(())
    }
}

impl Form for Json<'_> {
    ghost use Rattle.std.specs.Prelude.{⊤};

    ghost shows = { λ f e bytes. ⊤ };

    fn note<S: ListSpace>(
        &self,
        machine: &Machine<S>,
        number: u64,
        actor: Option<Actor>,
        before: &mut Before,
    ) {
        if self.written.plain_words && number >= self.filter.from {
            note_variables(machine, actor, before);
        }
    }

    fn shows_silent(&self) -> bool {
        self.written.plain_words
    }

    fn push_entry(
        &self,
        before: &Before,
        moment: &Moment,
        text: &[u8],
        page: &mut Page,
    ) -> Result<(), AllocError> {
        let rows = rows_shown(self.alloc, self.written, self.filter, before, moment, text)?;
        let mut shown = Vec::new(self.alloc);
        for row in &rows {
            self.push(moment, row, &mut shown)?;
        }
        page.extend_from_slice(&shown)
    }
}
