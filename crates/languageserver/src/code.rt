//! The lines of code of a text.

use crate::made::Made;
use crate::query::Query;
use std::alloc::{AllocError, Global};
use taskscript::{Array, LinePlace, Owner};
use toml_parser::{ParseError, quoted, starts_string};

/// What has code.
pub const OWNERS: [Owner; 3] = [Owner::Softint, Owner::Server, Owner::Task];

/// The array of what has code.
pub(crate) fn array_of(owner: Owner) -> Array {
    match owner {
        Owner::Softint => Array::Softint,
        Owner::Server => Array::Server,
        Owner::Task => Array::Task,
    }
}

/// What a string of a text is, or the empty text if it is none.
pub(crate) fn string_in(alloc: Global, written: &str) -> Made<String> {
    if !starts_string(written) {
        return Ok(String::new(alloc));
    }
    match quoted(alloc, written) {
        Ok((text, _)) => Ok(text),
        Err(ParseError::OutOfMemory) => Err(AllocError),
        Err(_) => Ok(String::new(alloc)),
    }
}

/// A line of code and its place.
#[derive(Drop)]
pub struct CodeLine {
    pub place: LinePlace,
    pub code: String,
}

impl CodeLine {
    /// Whether the line gives a variable a value.
    pub(crate) fn sets(&self, variable: &str) -> bool {
        match self.code.as_str().strip_prefix(variable) {
            None => false,
            Some(rest) => rest.starts_with(" = "),
        }
    }

    /// The variable to which the line gives a value, if it does.
    pub(crate) fn target(&self) -> Option<&str> {
        let (target, _) = self.code.as_str().split_once(" = ")?;
        Some(target)
    }

    /// The name of the label that the line is, if it is one.
    pub(crate) fn label(&self) -> Option<&str> {
        self.code.as_str().strip_suffix(':')
    }
}

impl Query<'_> {
    /// Adds the lines of a body.
    fn add_body(&self, lines: &mut Vec<CodeLine>, owner: Owner, item: usize) -> Made<()> {
        let Some(one) = self.written.items(array_of(owner)).get(item) else {
            return Ok(());
        };
        for (line, part) in one.lines.iter().enumerate() {
            let code = string_in(self.alloc, part.text)?;
            lines.push(CodeLine {
                place: LinePlace { owner, item, line },
                code,
            })?;
        }
        Ok(())
    }

    /// The lines of a body, in their order.
    pub(crate) fn body(&self, owner: Owner, item: usize) -> Made<Vec<CodeLine>> {
        let mut lines = Vec::new(self.alloc);
        self.add_body(&mut lines, owner, item)?;
        Ok(lines)
    }

    /// Adds the lines of all bodies of one kind.
    fn add_bodies(&self, lines: &mut Vec<CodeLine>, owner: Owner) -> Made<()> {
        for item in 0..self.written.items(array_of(owner)).len() {
            self.add_body(lines, owner, item)?;
        }
        Ok(())
    }

    /// The lines of all bodies.
    pub(crate) fn all_code(&self) -> Made<Vec<CodeLine>> {
        let mut lines = Vec::new(self.alloc);
        for owner in OWNERS {
            self.add_bodies(&mut lines, owner)?;
        }
        Ok(lines)
    }
}
