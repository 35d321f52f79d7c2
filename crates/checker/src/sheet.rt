//! What was found in the texts of a run, and how it is written.
ghost use Rattle.std.specs.Prelude.{IfErr};
ghost use Rattle.checker.specs.Failing.{IsUsage};

use crate::failure::Failure;
use crate::options::Form;
use crate::sarif::document;
use execadvice::{Diagnostic, Severity, are_grave, rendered};
use std::alloc::{AllocError, Global};
use std::io::Write;

/// What was found in a text, with the path that is before its places.
#[derive(Drop)]
pub struct Part {
    pub path: String,
    pub found: Vec<Diagnostic>,
}

/// What was found in the texts of a run.
#[derive(Drop)]
pub struct Sheet {
    pub parts: Vec<Part>,
    /// What is said before all that was found: what was written into the files.
    pub head: String,
}

/// Whether somebody of these names has the body that something was found in.
fn is_of(one: &Diagnostic, names: &[&str]) -> bool {
    match &one.bearer {
        None => false,
        Some(bearer) => names.contains(&bearer.name.as_str()),
    }
}

impl Sheet {
    /// Nothing was found yet.
    pub(crate) fn new(alloc: Global) -> Sheet {
        Sheet {
            parts: Vec::new(alloc),
            head: String::new(alloc),
        }
    }

    /// Adds what was found in the text at a path.
    pub(crate) fn add(
        &mut self,
        alloc: Global,
        path: &str,
        found: Vec<Diagnostic>,
    ) -> Result<(), AllocError> {
        let path = String::from_str(alloc, path)?;
        self.parts.push(Part { path, found })?;
        Ok(())
    }

    /// Makes notes of the warnings of those that serve others.
    pub(crate) fn excuse(&mut self, serves: &[&str]) {
        for part in self.parts.iter_mut() {
            for one in part.found.iter_mut() {
                if one.severity == Severity::Warning && is_of(one, serves) {
                    one.severity = Severity::Note;
                }
            }
        }
    }

    /// Whether there is more than notes.
    pub(crate) fn is_grave(&self) -> bool {
        self.parts.iter().any(|part| are_grave(&part.found))
    }

    /// What was found as it is written.
    fn text(&self, alloc: Global, form: Form) -> Result<String, AllocError> {
        let Form::Lines(look) = form else {
            return document(alloc, &self.parts);
        };
        let mut text = String::from_str(alloc, self.head.as_str())?;
        for part in &self.parts {
            text.push_str(rendered(alloc, part.path.as_str(), &part.found, look)?.as_str())?;
        }
        Ok(text)
    }

    /// Writes what was found, so that it is before what comes later, on standard error too.
    pub fn write<'a, W: Write>(
        &self,
        alloc: Global,
        form: Form,
        out: &mut W,
    ) -> Result<(), Failure<'a>>
        ensures { IfErr result (λ failure. ¬ IsUsage failure) }
    {
        let text = self.text(alloc, form)?;
        if out.write_all(text.as_str().as_bytes()).is_err() || out.flush().is_err() {
            return Err(Failure::WriteFailed);
        }
        Ok(())
    }
}
