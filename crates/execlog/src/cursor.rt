//! Whose the lines of an entry are: the first is that of a task's command, if the step was one that prints; after the
//! line of a server or of a software interrupt come those of its body, one for each command that prints, unless an
//! alert ends the run.

use crate::book::{Book, Place};
use crate::moment::Actor;

/// Whose a line of a trace is.
#[derive(Clone, Copy, PartialEq, Eq)]
pub enum Spot {
    /// The machine's own.
    Machine,
    /// That of a task's command, or of its end: by the number of the task, and the place in its code.
    Task(usize, usize),
    /// That of a command of a software interrupt or of a server, by its number among both, and the place in its code.
    Interrupt(usize, usize),
}

/// How far the lines of an entry have come.
#[derive(Clone, Copy)]
pub struct Cursor {
    actor: Option<Actor>,
    /// The body whose lines come, and the place from which it goes on.
    body: Option<(usize, usize)>,
}

/// What is after one of the words that begin the lines of a body, if it is a name. The first eight bytes are compared
/// at once.
#[inline(always)]
fn body_name(line: &[u8]) -> Option<&[u8]> {
    let (first, after) = line.split_first_chunk::<8>()?;
    let word = u64::from_le_bytes(*first);
    if word == u64::from_le_bytes(*b"softint ") {
        return Some(after);
    }
    // The eighth byte is the first of the name.
    if word << 8 == u64::from_le_bytes(*b"\0server ") {
        return Some(&line[7..]);
    }
    None
}

impl Cursor {
    /// At the first line of an entry.
    ///
    /// Source: project rule.
    pub fn new(actor: Option<Actor>) -> Cursor {
        Cursor { actor, body: None }
    }

    /// Behind the line of the task's command.
    pub(crate) fn after_task() -> Cursor {
        Cursor {
            actor: None,
            body: None,
        }
    }

    /// The place of the line of the task's command, if there is one.
    fn of_task(&mut self, book: &Book) -> Option<Spot> {
        let actor = self.actor?;
        self.actor = None;
        if is_silent(book, actor) {
            None
        } else {
            Some(Spot::Task(actor.task, actor.place))
        }
    }

    /// The place of the next line of the body, if there is one.
    fn of_body(&mut self, book: &Book) -> Option<Spot> {
        let (number, from) = self.body?;
        let body = book.interrupts.get(number)?;
        match body.printing_from(from) {
            None => {
                self.body = None;
                None
            }
            Some(place) => {
                self.body = Some((number, place.saturating_add(1)));
                Some(Spot::Interrupt(number, place))
            }
        }
    }

    /// Whose the next line is.
    ///
    /// Source: project rule.
    #[inline(always)]
    pub fn next(&mut self, book: &Book, line: &[u8]) -> Spot {
        if let Some(spot) = self.of_task(book) {
            return spot;
        }
        if let Some(spot) = self.of_body(book) {
            return spot;
        }
        if let Some(name) = body_name(line) {
            self.body = match book.interrupt_named(name) {
                None => None,
                Some(number) => Some((number, 0)),
            };
        }
        Spot::Machine
    }
}

/// Whether the command of a task prints nothing.
fn is_silent(book: &Book, actor: Actor) -> bool {
    match place_at(book, Spot::Task(actor.task, actor.place)) {
        None => false,
        Some(place) => place.is_silent,
    }
}

/// The command that a line is of, if it is of one.
///
/// Source: project rule.
pub fn place_at(book: &Book, spot: Spot) -> Option<&Place> {
    match spot {
        Spot::Machine => None,
        Spot::Task(task, place) => book.tasks.get(task)?.places.get(place),
        Spot::Interrupt(number, place) => book.interrupts.get(number)?.places.get(place),
    }
}
