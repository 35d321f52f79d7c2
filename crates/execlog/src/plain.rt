//! The plain form of a log: a row for each line of the trace, with the number of the step, the time, the line of the
//! command and its text.
ghost use Rattle.std.specs.Prelude.{◌≡◌, ◌≤◌, ◌<◌, ◌++◌, ◌+◌, ◌-◌, length, slice_index, IfSome, List, None, OnOk, Option, Some, ℕ};
ghost use Rattle.execlog.specs.{Books.ShowsAll, Books.line_at, Log.Entry, Log.Gains, Rows.FollowsRows, Rows.IsCut, Rows.IsCutAt, Rows.IsFeedAt, Rows.IsRow, Rows.LaysOut};

use crate::book::{Book, Place};
use crate::cursor::{Cursor, Spot, place_at};
use crate::feed::{feed_of, is_line};
use crate::filter::Filter;
use crate::form::{Before, Form};
use crate::head::Head;
use crate::moment::{Actor, Moment};
use crate::page::Page;
use crate::rows::{push_bare, push_framed};
use execlist::space::ListSpace;
use execsim::Machine;
use std::alloc::AllocError;

/// The plain form.
#[derive(Clone, Copy)]
pub struct Plain<'a> {
    /// What is written where in the machine file.
    pub book: &'a Book,
    /// Which rows are shown.
    pub filter: Filter,
}

/// The first line of a text, without its line feed, and what is after it; none if there is no line feed.
///
/// Source: project rule.
pub fn cut_line(text: &[u8]) -> Option<(&[u8], &[u8])>
    ensures { IsCutAt text.now result }
{
    match feed_of(text) {
        None => None,
        Some(end) => Some((&text[..end], &text[end + 1..])),
    }
}

/// A line without its line feed, which is at that place of a text, and what is after it.
#[inline(always)]
fn cut_at(text: &[u8], end: usize) -> (&[u8], &[u8])
    requires { IsFeedAt text.now (Some end) }
    ensures cut { IsCut text.now result.0.now result.1.now }
    ensures rest { length result.1.now ≡ length text.now - (end + 1) }
{
    (&text[..end], &text[end + 1..])
}

/// The text of the command that a line is of; empty for none.
///
/// Source: project rule.
pub fn source_at(book: &Book, spot: Spot) -> &[u8] {
    match place_at(book, spot) {
        None => &[],
        Some(place) => place.source.as_str().as_bytes(),
    }
}

/// The line of the file of the command that a line is of, if it is known.
///
/// Source: project rule.
pub fn line_of(book: &Book, spot: Spot) -> Option<u32> {
    match place_at(book, spot) {
        None => None,
        Some(place) => place.line,
    }
}

/// Adds what is after the last line feed, which is mostly nothing.
#[inline(always)]
fn push_rest(page: &mut Page, rest: &[u8]) -> Result<(), AllocError>
    ensures { OnOk result (page.new ≡ page.old ++ rest.now) }
{
    if rest.is_empty() {
        return Ok(());
    }
    page.extend_from_slice(rest)
}

/// An entry as its rows need it.
#[derive(Clone, Copy)]
struct Heading<'a> {
    moment: Moment,
    /// The columns of its number and its time.
    head: &'a Head,
    ghost number: { head.now.number ≡ moment.number },
    ghost clock: { head.now.clock ≡ moment.clock },
}

impl Plain<'_> {
    /// Adds the row of a line of the trace that is of a command, if it is shown.
    #[inline(always)]
    fn push_command(
        &self,
        heading: Heading<'_>,
        spot: Spot,
        place: &Place,
        line: &[u8],
        page: &mut Page,
    ) -> Result<(), AllocError>
        ensures { OnOk result (Gains (IsRow (ShowsAll self.now.filter) heading.entry.moment place.now.line line.now) page.old page.new) }
    {
        if self.filter.shows(heading.moment.number, place.line, spot) {
            push_framed(page, heading.head, &place.frame, line)
        } else {
            Ok(())
        }
    }

    /// Adds the row of a line of the trace that is of no command, if it is shown.
    #[inline(always)]
    fn push_other(
        &self,
        heading: Heading<'_>,
        spot: Spot,
        line: &[u8],
        page: &mut Page,
    ) -> Result<(), AllocError>
        ensures { OnOk result (Gains (IsRow (ShowsAll self.now.filter) heading.entry.moment None line.now) page.old page.new) }
    {
        if self.filter.shows(heading.moment.number, None, spot) {
            push_bare(page, heading.head, line)
        } else {
            Ok(())
        }
    }

    /// Adds the row of a line of the trace, if it is shown.
    #[inline(always)]
    fn push_line(
        &self,
        heading: Heading<'_>,
        spot: Spot,
        line: &[u8],
        page: &mut Page,
    ) -> Result<(), AllocError>
        ensures { OnOk result ((number : Option ℕ) × Gains (IsRow (ShowsAll self.now.filter) heading.entry.moment number line.now) page.old page.new) }
    {
        match place_at(self.book, spot) {
            None => self.push_other(heading, spot, line, page),
            Some(place) => self.push_command(heading, spot, place, line, page),
        }
    }

    /// Adds the row of the first line of a text, which is of no command, if it is shown. The answer is whose lines come
    /// next.
    #[inline(always)]
    fn push_first_other(
        &self,
        heading: Heading<'_>,
        cursor: Cursor,
        line: &[u8],
        page: &mut Page,
    ) -> Result<Cursor, AllocError>
        ensures { OnOk result (Gains (IsRow (ShowsAll self.now.filter) heading.entry.moment None line.now) page.old page.new) }
    {
        let mut cursor = cursor;
        let spot = cursor.next(self.book, line);
        self.push_other(heading, spot, line, page)?;
        Ok(cursor)
    }

    /// Adds the row of the first line of a text that a step of a task has printed, if it is shown. The answer is whose
    /// lines come next.
    #[inline(always)]
    fn push_first_of_step(
        &self,
        heading: Heading<'_>,
        actor: Actor,
        line: &[u8],
        page: &mut Page,
    ) -> Result<Cursor, AllocError>
        ensures { OnOk result (Gains (IsRow (ShowsAll self.now.filter) heading.entry.moment (line_at self.now.book.now (Some actor)) line.now) page.old page.new) }
    {
        match self.book.command_at(actor) {
            None => self.push_first_other(heading, Cursor::new(Some(actor)), line, page),
            Some(place) => {
                if place.is_silent {
                    self.push_first_other(heading, Cursor::after_task(), line, page)
                } else {
                    let spot = Spot::Task(actor.task, actor.place);
                    self.push_command(heading, spot, place, line, page)?;
                    Ok(Cursor::after_task())
                }
            }
        }
    }

    /// Adds the row of the first line of a text, if it is shown. The answer is whose lines come next.
    #[inline(always)]
    fn push_first(
        &self,
        heading: Heading<'_>,
        line: &[u8],
        page: &mut Page,
    ) -> Result<Cursor, AllocError>
        ensures { OnOk result (Gains (IsRow (ShowsAll self.now.filter) heading.entry.moment (line_at self.now.book.now heading.entry.moment.actor) line.now) page.old page.new) }
    {
        match heading.moment.actor {
            None => self.push_first_other(heading, Cursor::after_task(), line, page),
            Some(actor) => self.push_first_of_step(heading, actor, line, page),
        }
    }

    /// Adds the rows of the lines of a text whose first line was cut off.
    #[inline(always)]
    #[tactic(auto, using(crate::proofs::Laying::goes_begin, crate::proofs::Laying::goes_on, crate::proofs::Laying::goes_end))]
    fn push_lines(
        &self,
        heading: Heading<'_>,
        cursor: Cursor,
        text: &[u8],
        page: &mut Page,
    ) -> Result<(), AllocError>
        ensures { OnOk result (Gains (FollowsRows (ShowsAll self.now.filter) heading.entry.moment text.now) page.old page.new) }
    {
        let mut cursor = cursor;
        let mut rest = text;
        while let Some((line, after)) = cut_line(rest) {
            let spot = cursor.next(self.book, line);
            self.push_line(heading, spot, line, page)?;
            rest = after;
        }
        push_rest(page, rest)
    }

    /// Adds the rows of the lines of a text.
    #[inline(never)]
    fn push_rows(
        &self,
        heading: Heading<'_>,
        text: &[u8],
        page: &mut Page,
    ) -> Result<(), AllocError>
        ensures { OnOk result (Gains (LaysOut (ShowsAll self.now.filter) heading.entry.moment (line_at self.now.book.now heading.entry.moment.actor) text.now) page.old page.new) }
    {
        match cut_line(text) {
            None => push_rest(page, text),
            Some((line, rest)) => {
                let cursor = self.push_first(heading, line, page)?;
                self.push_lines(heading, cursor, rest, page)
            }
        }
    }

    /// Adds the row of a text that is one line, which is of that command of a task.
    #[inline(always)]
    fn push_only(
        &self,
        heading: Heading<'_>,
        actor: Actor,
        place: &Place,
        text: &[u8],
        page: &mut Page,
    ) -> Result<(), AllocError>
        requires { IsFeedAt text.now (Some (length text.now - 1)) }
        ensures { OnOk result (Gains (LaysOut (ShowsAll self.now.filter) heading.entry.moment place.now.line text.now) page.old page.new) }
    {
        let (line, _) = cut_at(text, text.len() - 1);
        let spot = Spot::Task(actor.task, actor.place);
        self.push_command(heading, spot, place, line, page)
    }

    /// Adds the rows of a text that is one line, and that a step of a task has printed.
    #[inline(always)]
    fn push_only_of_step(
        &self,
        heading: Heading<'_>,
        actor: Actor,
        text: &[u8],
        page: &mut Page,
    ) -> Result<(), AllocError>
        requires acts { heading.moment.actor ≡ Some actor }
        requires one { IsFeedAt text.now (Some (length text.now - 1)) }
        ensures { OnOk result (Gains (LaysOut (ShowsAll self.now.filter) heading.entry.moment (line_at self.now.book.now heading.entry.moment.actor) text.now) page.old page.new) }
    {
        match self.book.command_at(actor) {
            None => self.push_rows(heading, text, page),
            Some(place) => {
                if place.is_silent {
                    self.push_rows(heading, text, page)
                } else {
                    self.push_only(heading, actor, place, text, page)
                }
            }
        }
    }

    /// Adds the rows of the lines of a text, which mostly is one line that is of a command of a task.
    #[inline(always)]
    fn push_text(
        &self,
        heading: Heading<'_>,
        text: &[u8],
        page: &mut Page,
    ) -> Result<(), AllocError>
        ensures { OnOk result (Gains (LaysOut (ShowsAll self.now.filter) heading.entry.moment (line_at self.now.book.now heading.entry.moment.actor) text.now) page.old page.new) }
    {
        match heading.moment.actor {
            None => self.push_rows(heading, text, page),
            Some(actor) => {
                if is_line(text) {
                    self.push_only_of_step(heading, actor, text, page)
                } else {
                    self.push_rows(heading, text, page)
                }
            }
        }
    }

    /// Adds the rows of the lines of a text, whose number and time were not foreseen.
    #[cold]
    #[inline(never)]
    fn push_anew(&self, moment: Moment, text: &[u8], page: &mut Page) -> Result<(), AllocError>
        ensures { OnOk result (Gains (LaysOut (ShowsAll self.now.filter) moment (line_at self.now.book.now moment.actor) text.now) page.old page.new) }
    {
        let head = Head::of(moment.number, moment.clock);
        let heading = Heading {
            moment,
            head: &head,
        };
        self.push_rows(heading, text, page)
    }
}

impl Form for Plain<'_> {
    ghost use Rattle.execlog.specs.{Books.ShowsAll, Books.line_at, Rows.LaysOut};

    ghost shows = { λ f e bytes. LaysOut (ShowsAll f.filter) e.moment (line_at f.book.now e.moment.actor) e.text bytes };

    #[inline(always)]
    fn note<S: ListSpace>(
        &self,
        machine: &Machine<S>,
        number: u64,
        actor: Option<Actor>,
        before: &mut Before,
    ) {
        before
            .head
            .foresee(number, machine.view().clock, actor.is_some());
    }

    fn shows_silent(&self) -> bool {
        false
    }

    #[inline(always)]
    fn push_entry(
        &self,
        before: &Before,
        moment: &Moment,
        text: &[u8],
        page: &mut Page,
    ) -> Result<(), AllocError> {
        if text.is_empty() {
            return Ok(());
        }
        if before.head.number == moment.number && before.head.clock == moment.clock {
            let heading = Heading {
                moment: *moment,
                head: &before.head,
            };
            self.push_text(heading, text, page)
        } else {
            self.push_anew(*moment, text, page)
        }
    }
}
