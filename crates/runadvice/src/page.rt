//! What was found of a run: each finding with its place in the file, its line and marks.
ghost use Rattle.std.specs.Prelude.{◌≡◌, option_map};
ghost use Rattle.taskscript.specs.declared.place.Owner.{Owner};
ghost use Rattle.runadvice.specs.Alerts.{line_in, name_in};

use execadvice::{
    Advice, Bearer, Diagnostic, FileSpan, Related, Severity, Span, Written, field_span, line_at,
    line_found, said_by, span_in, width_of,
};
use script::MachineFile;
use std::alloc::{AllocError, Global};
use taskscript::{Array, LinePlace, Listed, Listing, Owner};
use toml::Table;

/// A command of the file.
#[derive(Clone, Copy, PartialEq, Eq)]
pub struct Spot {
    /// What has the body, and its number among all that are of its kind, from 0.
    pub owner: Owner,
    pub item: usize,
    /// The place of the command in the code, from 0.
    pub place: usize,
}

impl Spot {
    /// The command of a task at a place of its code.
    pub fn of_task(task: usize, place: usize) -> Spot
        ensures { result ≡ record { owner = Owner.Task; item = task; place = place } }
    {
        Spot {
            owner: Owner::Task,
            item: task,
            place,
        }
    }

    /// The number of the task, if it is one of a task.
    pub fn task(self) -> Option<usize> {
        match self.owner {
            Owner::Task => Some(self.item),
            _ => None,
        }
    }

    /// The line of its code in which it is written, from 0, if it has one: the end of the code has none.
    pub fn line_in(self, listing: &Listing) -> Option<usize>
        ensures { result ≡ line_in listing.now self.owner self.item self.place }
    {
        let body = match self.owner {
            Owner::Task => listing.tasks().get(self.item)?,
            Owner::Server => listing.servers().get(self.item)?,
            Owner::Softint => listing.softints().get(self.item)?,
        };
        Some(body.line_of(self.place)? as usize)
    }

    /// The number, from 1, of the line of its code in which it is written; 0 if it has none.
    pub fn number_in(self, listing: &Listing) -> usize {
        match self.line_in(listing) {
            None => 0,
            Some(line) => line.saturating_add(1),
        }
    }
}

/// How grave a finding is, and its rule.
pub type Grade = (Severity, &'static str);

/// What was found so far.
#[derive(Drop)]
pub struct Page<'a> {
    pub alloc: Global,
    table: &'a Table,
    written: Written<'a>,
    pub listing: &'a Listing,
    file: &'a MachineFile,
    pub found: Vec<Diagnostic>,
}

/// The name of what has a body.
pub fn name_of<'a>(file: &'a MachineFile, owner: Owner, item: usize) -> Option<&'a str>
    ensures { option_map (λ name. name.now) result ≡ name_in file.now owner item }
{
    Some(match owner {
        Owner::Task => file.tasks().get(item)?.name.as_str(),
        Owner::Server => file.servers().get(item)?.name.as_str(),
        Owner::Softint => file.softints().get(item)?.name.as_str(),
    })
}

/// The part of a line that has marks: an argument, from 0, or the word.
fn span_of(alloc: Global, line: &str, argument: Option<usize>) -> Result<Span, AllocError> {
    let number = match (said_by(alloc, line)?, argument) {
        (None, _) => 0,
        (Some(said), None) => said.place_of_word(),
        (Some(said), Some(number)) => said.place_of(number),
    };
    Ok(field_span(line, number))
}

/// The field of a line that is an argument.
pub fn argument_text(alloc: Global, line: &str, number: usize) -> Result<String, AllocError> {
    let text = match said_by(alloc, line)? {
        None => "",
        Some(said) => said.arguments.get(number).copied().unwrap_or(""),
    };
    format!(in alloc; "{text}")
}

impl<'a> Page<'a> {
    /// Nothing was found yet.
    pub(crate) fn new(
        alloc: Global,
        text: &'a str,
        table: &'a Table,
        listed: &'a Listed,
    ) -> Result<Page<'a>, AllocError> {
        Ok(Page {
            alloc,
            table,
            written: Written::new(alloc, text)?,
            listing: &listed.listing,
            file: &listed.machine,
            found: Vec::new(alloc),
        })
    }

    /// The place of the line of a command, if it has one.
    fn line_place(&self, spot: Spot) -> Option<LinePlace> {
        let line = spot.line_in(self.listing)?;
        Some(LinePlace {
            owner: spot.owner,
            item: spot.item,
            line,
        })
    }

    /// The line of a command.
    pub(crate) fn line(&self, spot: Spot) -> &str {
        match self.line_place(spot) {
            None => "",
            Some(place) => line_at(self.table, place),
        }
    }

    /// What is said of a task whose code has no command.
    fn of_empty(&self, task: usize, grade: Grade, reason: &str) -> Result<Diagnostic, AllocError> {
        let alloc = self.alloc;
        let name = String::from_str(alloc, name_of(self.file, Owner::Task, task).unwrap_or(""))?;
        let reason = String::from_str(alloc, reason)?;
        let mut found = Diagnostic::new(alloc, grade.0, grade.1, reason);
        found.at = match self.written.head(Array::Task, task) {
            None => None,
            Some(head) => Some(FileSpan::of_width(head.place, width_of(head.text))),
        };
        found.whose = format!(in alloc; "in task \"{}\"", name.as_str())?;
        let owner = Owner::Task;
        found.bearer = Some(Bearer { owner, name });
        Ok(found)
    }

    /// What is said of an argument of a command, from 0, or of its word.
    pub(crate) fn finding(
        &self,
        spot: Spot,
        argument: Option<usize>,
        grade: Grade,
        reason: &str,
    ) -> Result<Diagnostic, AllocError> {
        let alloc = self.alloc;
        let Some(place) = self.line_place(spot) else {
            return self.of_empty(spot.item, grade, reason);
        };
        let span = span_of(alloc, line_at(self.table, place), argument)?;
        let advice = Advice::new(alloc, span, reason)?;
        line_found(alloc, &self.written, self.table, place, grade, advice)
    }

    /// The word of a command that has to do with what was found, if it has a line, with a sentence.
    pub(crate) fn related(
        &self,
        spot: Spot,
        sentence: &str,
    ) -> Result<Option<Related>, AllocError> {
        let Some(place) = self.line_place(spot) else {
            return Ok(None);
        };
        let span = span_of(self.alloc, line_at(self.table, place), None)?;
        match span_in(&self.written, place, span) {
            None => Ok(None),
            Some(span) => Ok(Some(Related {
                span,
                sentence: String::from_str(self.alloc, sentence)?,
            })),
        }
    }

    /// Adds to what was found that a command has to do with it, if it was one of a body.
    pub(crate) fn relate(
        &self,
        found: &mut Diagnostic,
        spot: Option<Spot>,
        sentence: &str,
    ) -> Result<(), AllocError> {
        let Some(spot) = spot else {
            return Ok(());
        };
        if let Some(related) = self.related(spot, sentence)? {
            found.related.push(related)?;
        }
        Ok(())
    }

    /// Adds what is said of the word of a command.
    pub(crate) fn add(&mut self, spot: Spot, grade: Grade, reason: &str) -> Result<(), AllocError> {
        let found = self.finding(spot, None, grade, reason)?;
        self.found.push(found)?;
        Ok(())
    }

    /// Adds a warning at the word of a command.
    pub(crate) fn warn(
        &mut self,
        spot: Spot,
        rule: &'static str,
        reason: &str,
    ) -> Result<(), AllocError> {
        self.add(spot, (Severity::Warning, rule), reason)
    }
}
