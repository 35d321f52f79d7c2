//! The variables of the lines of a file: private ones of each body, and shared ones.
ghost use Rattle.std.specs.Prelude.{◌≡◌, is_some};
ghost use Rattle.taskscript.specs.Parsing.{variable_of};

use crate::bodies::{Spoken, bodies_in};
use crate::made::Made;
use crate::show::{Advice, field_span};
use std::alloc::Global;
use std::collections::HashSet;
use taskscript::{PRIVATE_LIMIT, SHARED_LIMIT, variable_of};
use toml::Table;

/// Whether a field is a variable, private or shared.
pub fn is_variable(field: &str) -> bool
    ensures { result ≡ is_some (variable_of field.now) }
{
    variable_of(field).is_some()
}

/// Whether `@` is before the name of a variable.
pub fn is_shared(name: &str) -> bool {
    name.starts_with("@")
}

/// Some variables: private ones of one body, and shared ones of the file.
#[derive(Drop)]
pub struct Variables<'a> {
    private: HashSet<&'a str>,
    shared: HashSet<&'a str>,
}

impl<'a> Variables<'a> {
    /// No variable.
    pub fn new(alloc: Global) -> Variables<'a> {
        Variables {
            private: HashSet::new(alloc),
            shared: HashSet::new(alloc),
        }
    }

    /// Whether a variable is one of these.
    pub fn has(&self, name: &'a str) -> bool {
        if is_shared(name) {
            self.shared.contains(name)
        } else {
            self.private.contains(name)
        }
    }

    /// Adds a variable.
    pub fn add(&mut self, name: &'a str) -> Made<()> {
        if is_shared(name) {
            self.shared.insert(name)?;
        } else {
            self.private.insert(name)?;
        }
        Ok(())
    }

    /// Goes on to another body: the private ones are forgotten.
    pub fn leave_body(&mut self, alloc: Global) {
        self.private = HashSet::new(alloc);
    }

    /// Why they are past a limit, if they are.
    fn past_limit(&self) -> Option<&'static str> {
        if self.private.len() > PRIVATE_LIMIT {
            Some("one variable too many: a body has at most 32 private ones")
        } else if self.shared.len() > SHARED_LIMIT {
            Some("one variable too many: a file has at most 64 shared ones")
        } else {
            None
        }
    }

    /// Adds the variables of a line up to the first that is past its limit, with that variable, and why.
    fn add_line(&mut self, alloc: Global, one: &Spoken<'a>) -> Made<Option<Advice>> {
        for (part, field) in &one.said.values(alloc)? {
            if is_variable(*field) {
                self.add(*field)?;
                if let Some(reason) = self.past_limit() {
                    let span = field_span(one.line, *part);
                    return Ok(Some(Advice::new(alloc, span, reason)?));
                }
            }
        }
        Ok(None)
    }
}

/// The first variable of a file past its limit: the part of its line that it is, and why.
pub fn past_limit_in(alloc: Global, table: &Table) -> Made<Option<Advice>> {
    let mut seen = Variables::new(alloc);
    for body in &bodies_in(alloc, table)? {
        seen.leave_body(alloc);
        for one in &body.spoken {
            if let Some(advice) = seen.add_line(alloc, one)? {
                return Ok(Some(advice));
            }
        }
    }
    Ok(None)
}
