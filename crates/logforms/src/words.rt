//! The plain form of a log with the words that print nothing in the trace, each after a tilde.

use crate::rows::{Row, Written, rows_shown};
use execlist::space::ListSpace;
use execlog::{Actor, Before, Filter, Form, Moment, Page, line_of, push_row, source_at};
use execsim::Machine;
use std::alloc::{AllocError, Global};

/// The plain form with the words that print nothing.
#[derive(Clone, Copy)]
pub struct Words<'a> {
    /// What memory is taken from.
    pub alloc: Global,
    /// The machine file.
    pub written: Written<'a>,
    /// Which rows are shown.
    pub filter: Filter,
}

/// Notes what the variables of a task hold.
fn note_private(values: &[u32], before: &mut Before) {
    for (i, value) in values.iter().enumerate() {
        if i < before.private.len() {
            before.private[i] = *value;
        }
    }
}

/// Notes what the variables of a machine hold.
///
/// Source: project rule.
pub fn note_variables<S: ListSpace>(
    machine: &Machine<S>,
    actor: Option<Actor>,
    before: &mut Before,
) {
    for (i, value) in machine.shared_variables().iter().enumerate() {
        if i < before.shared.len() {
            before.shared[i] = *value;
        }
    }
    if let Some(actor) = actor {
        note_private(machine.variables(actor.task), before);
    }
}

impl Words<'_> {
    /// Adds a row, if it is shown.
    fn push(&self, moment: &Moment, row: &Row, page: &mut Vec<u8>) -> Result<(), AllocError> {
        let book = self.written.book;
        let line = line_of(book, row.spot);
        if !self.filter.shows(moment.number, line, row.spot) {
            return Ok(());
        }
        if !row.is_silent {
            return push_row(page, moment, line, &row.text, source_at(book, row.spot));
        }
        let mut text = Vec::new(self.alloc);
        text.extend_from_slice(b"~ ")?;
        text.extend_from_slice(&row.text)?;
        push_row(page, moment, line, &text, source_at(book, row.spot))
    }
}

impl Form for Words<'_> {
    ghost use Rattle.std.specs.Prelude.{⊤};

    ghost shows = { λ f e bytes. ⊤ };

    fn note<S: ListSpace>(
        &self,
        machine: &Machine<S>,
        number: u64,
        actor: Option<Actor>,
        before: &mut Before,
    ) {
        if number >= self.filter.from {
            note_variables(machine, actor, before);
        }
    }

    fn shows_silent(&self) -> bool {
        true
    }

    fn push_entry(
        &self,
        before: &Before,
        moment: &Moment,
        text: &[u8],
        page: &mut Page,
    ) -> Result<(), AllocError> {
        let rows = rows_shown(self.alloc, self.written, self.filter, before, moment, text)?;
        let mut shown = Vec::new(self.alloc);
        for row in &rows {
            self.push(moment, row, &mut shown)?;
        }
        page.extend_from_slice(&shown)
    }
}
