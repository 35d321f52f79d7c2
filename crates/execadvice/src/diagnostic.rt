//! What is found at a place of a text, as a value. `render` makes text of it.

use crate::show::{Advice, Span};
use crate::written::FilePlace;
use std::alloc::{AllocError, Global};
use taskscript::Owner;

/// How grave what was found is.
#[derive(Clone, Copy, PartialEq, Eq)]
pub enum Severity {
    /// A text is refused, or an alert ended the run.
    Error,
    /// It is most likely not meant.
    Warning,
    /// It may well be meant.
    Note,
}

impl Severity {
    /// The word that is printed for it.
    pub fn name(self) -> &'static str {
        match self {
            Severity::Error => "error",
            Severity::Warning => "warning",
            Severity::Note => "note",
        }
    }
}

/// A part of a text: the characters from a place on that are before another.
#[derive(Clone, Copy)]
pub struct FileSpan {
    pub start: FilePlace,
    pub end: FilePlace,
}

impl FileSpan {
    /// That many characters of a line from a place on, one at least.
    pub fn of_width(start: FilePlace, width: usize) -> FileSpan {
        let FilePlace { line, column } = start;
        let column = column.saturating_add(width.max(1));
        FileSpan {
            start,
            end: FilePlace { line, column },
        }
    }

    /// The characters between two places, or the one at the first if there are none.
    pub(crate) fn between(start: FilePlace, end: FilePlace) -> FileSpan {
        let is_before = start.line < end.line
            || start.line == end.line && start.column < end.column;
        if is_before {
            FileSpan { start, end }
        } else {
            FileSpan::of_width(start, 1)
        }
    }
}

/// A line that is shown below what is said of it, and the part of it that has marks.
#[derive(Drop)]
pub struct Shown {
    pub line: String,
    pub span: Span,
}

/// Another part of the machine file that has to do with what was found.
#[derive(Drop)]
pub struct Related {
    pub span: FileSpan,
    pub sentence: String,
}

/// A text that is proposed in place of a part of a file, as it is to be written there.
#[derive(Drop)]
pub struct Edit {
    pub span: FileSpan,
    pub text: String,
}

/// What has a body in a machine file, by its kind and its name.
#[derive(Drop)]
pub struct Bearer {
    pub owner: Owner,
    pub name: String,
}

/// What was found at a place of a machine file or an event text.
#[derive(Drop)]
pub struct Diagnostic {
    pub severity: Severity,
    /// The name of the fault, the code of the alert, or the name of the warning.
    pub rule: &'static str,
    /// The part of the text; none if it is the text as a whole.
    pub at: Option<FileSpan>,
    /// The place in words, as `in task "a", line 1 of its code`; nothing if there are none.
    pub whose: String,
    /// In whose body it is, if it is in one.
    pub bearer: Option<Bearer>,
    /// Why, in one sentence.
    pub reason: String,
    /// What is likely meant in place of a part of the line, if that is known.
    pub meant: Option<String>,
    pub shown: Option<Shown>,
    /// What puts it there, if the file shows where.
    pub fix: Option<Edit>,
    pub related: Vec<Related>,
}

impl Diagnostic {
    /// What is said for a reason, of a text as a whole.
    pub fn new(
        alloc: Global,
        severity: Severity,
        rule: &'static str,
        reason: String,
    ) -> Diagnostic {
        Diagnostic {
            severity,
            rule,
            at: None,
            whose: String::new(alloc),
            bearer: None,
            reason,
            meant: None,
            shown: None,
            fix: None,
            related: Vec::new(alloc),
        }
    }

    /// That a text is refused for a fault.
    pub(crate) fn refusal(alloc: Global, rule: &'static str, reason: String) -> Diagnostic {
        Diagnostic::new(alloc, Severity::Error, rule, reason)
    }

    /// The same, with a line that is shown, and marks under a part of it.
    ///
    /// # Errors
    ///
    /// If memory is refused.
    pub(crate) fn showing(
        self,
        alloc: Global,
        line: &str,
        span: Span,
    ) -> Result<Diagnostic, AllocError> {
        let line = String::from_str(alloc, line)?;
        let mut found = self;
        found.shown = Some(Shown { line, span });
        Ok(found)
    }

    /// The same, with what is likely meant, which is written as it is said in place of a part of the file.
    ///
    /// # Errors
    ///
    /// If memory is refused.
    pub(crate) fn proposing(
        self,
        alloc: Global,
        text: &str,
        span: Option<FileSpan>,
    ) -> Result<Diagnostic, AllocError> {
        let mut found = self;
        found.meant = Some(String::from_str(alloc, text)?);
        if let Some(span) = span {
            let text = String::from_str(alloc, text)?;
            found.fix = Some(Edit { span, text });
        }
        Ok(found)
    }

    /// The reason, and after it the question that proposes what is likely meant, if that is known.
    ///
    /// # Errors
    ///
    /// If memory is refused.
    pub fn sentence(&self, alloc: Global) -> Result<String, AllocError> {
        let reason = self.reason.as_str();
        match &self.meant {
            None => String::from_str(alloc, reason),
            Some(text) => {
                let text = text.as_str();
                format!(in alloc; "{reason}; did you mean {text}?")
            }
        }
    }

    /// The first character of its part of the text.
    pub(crate) fn place(&self) -> Option<FilePlace> {
        Some(self.at?.start)
    }
}

/// Whether a warning or an error is among what was found.
pub fn are_grave(found: &[Diagnostic]) -> bool {
    found.iter().any(|one| one.severity != Severity::Note)
}

/// A character of a line of a text, by its number from 0, and that of the line from 1.
fn place_in(line: usize, character: usize) -> FilePlace {
    let column = character.saturating_add(1);
    FilePlace { line, column }
}

/// What is said of a line of a text that is read by lines, of that number from 1.
///
/// # Errors
///
/// If memory is refused.
pub(crate) fn of_line(
    alloc: Global,
    rule: &'static str,
    line: &str,
    number: usize,
    advice: Advice,
) -> Result<Diagnostic, AllocError> {
    let Advice { span, reason, fix } = advice;
    let mut found = Diagnostic::refusal(alloc, rule, reason);
    found.at = Some(FileSpan::of_width(place_in(number, span.start), span.width));
    if let Some(fix) = fix {
        let Span { start, width } = fix.span;
        let span = FileSpan {
            start: place_in(number, start),
            end: place_in(number, start.saturating_add(width)),
        };
        found = found.proposing(alloc, fix.text.as_str(), Some(span))?;
    }
    found.showing(alloc, line, span)
}
