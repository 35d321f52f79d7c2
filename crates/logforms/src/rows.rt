//! The rows of an entry, one after another: the lines that it printed, and among them, if that is asked for, the words
//! that print nothing.

use crate::plain_words::{Names, line_of};
use crate::replay::Replay;
use crate::values::answer_in;
use execlog::{Actor, Before, Book, Cursor, Filter, Moment, Spot, cut_line, place_at};
use std::alloc::{AllocError, Global};
use taskscript::Listing;

/// A row of an entry.
#[derive(Drop)]
pub struct Row {
    /// Whose it is.
    pub spot: Spot,
    /// Whether the trace has no line of it.
    pub is_silent: bool,
    /// Its text.
    pub text: Vec<u8>,
}

/// A machine file as rows need it.
#[derive(Clone, Copy)]
pub struct Written<'a> {
    /// The bodies and their commands.
    pub book: &'a Book,
    /// The names of the variables.
    pub listing: &'a Listing,
    /// Whether words that print nothing are shown.
    pub plain_words: bool,
}

/// The rows of an entry that are found one after another.
#[derive(Drop)]
struct Walk<'a> {
    alloc: Global,
    written: Written<'a>,
    replay: Replay,
    rows: Vec<Row>,
}

/// The name after the word with which the line of a body begins.
fn name_in(line: &[u8]) -> Option<&[u8]> {
    match line.strip_prefix(b"server ") {
        Some(name) => Some(name),
        None => line.strip_prefix(b"softint "),
    }
}

/// Whether a line is that of an alert: the word `alert` and a code in capital letters.
fn is_alert(line: &[u8]) -> bool {
    match line.strip_prefix(b"alert ") {
        None => false,
        Some(rest) => match rest.get(1) {
            None => false,
            Some(b) => b.is_ascii_uppercase(),
        },
    }
}

/// The names of the variables of a software interrupt or a server.
fn interrupt_names(listing: &Listing, number: usize) -> Option<Names<'_>> {
    let softints = listing.softints();
    let body = match softints.get(number) {
        Some(body) => body,
        None => listing
            .servers()
            .get(number.saturating_sub(softints.len()))?,
    };
    Some(Names { listing, body })
}

impl<'a> Walk<'a> {
    /// Adds a row.
    fn push(&mut self, spot: Spot, is_silent: bool, text: &[u8]) -> Result<(), AllocError> {
        let mut kept = Vec::new(self.alloc);
        kept.extend_from_slice(text)?;
        self.rows.push(Row {
            spot,
            is_silent,
            text: kept,
        })?;
        Ok(())
    }

    /// Adds the row of the task's command, if it prints nothing.
    fn push_silent_task(&mut self, actor: Option<Actor>) -> Result<(), AllocError> {
        let Some(actor) = actor else { return Ok(()) };
        let written = self.written;
        let (Some(body), Some(names)) = (
            written.book.tasks.get(actor.task),
            written.listing.tasks().get(actor.task),
        ) else {
            return Ok(());
        };
        let Some(place) = body.places.get(actor.place) else {
            return Ok(());
        };
        if !place.is_silent {
            return Ok(());
        }
        let names = Names {
            listing: written.listing,
            body: names,
        };
        let line = line_of(self.alloc, body, names, &mut self.replay, place)?;
        self.push(
            Spot::Task(actor.task, actor.place),
            true,
            line.as_str().as_bytes(),
        )
    }

    /// Adds the rows of the commands of an interrupt's body that print nothing, from a place up to the first that
    /// prints.
    fn push_silent_run(&mut self, number: usize, from: usize) -> Result<(), AllocError> {
        let written = self.written;
        let (Some(body), Some(names)) = (
            written.book.interrupts.get(number),
            interrupt_names(written.listing, number),
        ) else {
            return Ok(());
        };
        for (i, place) in body.places.iter().enumerate().skip(from) {
            if !place.is_silent {
                return Ok(());
            }
            let line = line_of(self.alloc, body, names, &mut self.replay, place)?;
            self.push(Spot::Interrupt(number, i), true, line.as_str().as_bytes())?;
        }
        Ok(())
    }

    /// Adds the words that print nothing and are done after a line.
    fn push_silent_after(&mut self, spot: Spot, line: &[u8]) -> Result<(), AllocError> {
        match spot {
            Spot::Task(_, _) => Ok(()),
            Spot::Interrupt(number, place) => {
                if is_alert(line) {
                    Ok(())
                } else {
                    self.push_silent_run(number, place.saturating_add(1))
                }
            }
            Spot::Machine => match name_in(line) {
                None => Ok(()),
                Some(name) => match self.written.book.interrupt_named(name) {
                    None => Ok(()),
                    Some(number) => self.push_silent_run(number, 0),
                },
            },
        }
    }

    /// Notes what a call has given to its target.
    fn note_answer(&mut self, spot: Spot, line: &[u8]) {
        let Some(place) = place_at(self.written.book, spot) else {
            return;
        };
        if let (Some(target), Some(value)) = (place.command.target, answer_in(line)) {
            self.replay.set(target, value);
        }
    }

    /// Adds the row of a line, and the words that print nothing after it.
    fn push_line(&mut self, spot: Spot, line: &[u8]) -> Result<(), AllocError> {
        self.push(spot, false, line)?;
        if self.written.plain_words {
            self.note_answer(spot, line);
            self.push_silent_after(spot, line)?;
        }
        Ok(())
    }
}

/// The rows of an entry.
fn rows_of(
    alloc: Global,
    written: Written<'_>,
    before: &Before,
    moment: &Moment,
    text: &[u8],
) -> Result<Vec<Row>, AllocError> {
    let mut walk = Walk {
        alloc,
        written,
        replay: Replay::new(before),
        rows: Vec::new(alloc),
    };
    if written.plain_words {
        walk.push_silent_task(moment.actor)?;
    }
    let mut cursor = Cursor::new(moment.actor);
    let mut rest = text;
    while let Some((line, after)) = cut_line(rest) {
        let spot = cursor.next(written.book, line);
        walk.push_line(spot, line)?;
        rest = after;
    }
    Ok(walk.rows)
}

/// The rows of an entry; none if it comes before the first step, tick or request that is shown.
///
/// # Errors
///
/// When memory is refused.
///
/// Source: project rule.
pub fn rows_shown(
    alloc: Global,
    written: Written<'_>,
    filter: Filter,
    before: &Before,
    moment: &Moment,
    text: &[u8],
) -> Result<Vec<Row>, AllocError> {
    if moment.number < filter.from {
        return Ok(Vec::new(alloc));
    }
    rows_of(alloc, written, before, moment, text)
}
