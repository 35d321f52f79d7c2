//! The book of a machine file: its bodies with the line and the text of each command.

use execadvice::Written;
use execlog::{Body, Book, Place};
use script::{Command, Name, PlainWord, Word};
use std::alloc::{AllocError, Global};
use std::str::from_utf8;
use taskscript::{Array, BodyListing, LinePlace, Listed, Owner};
use toml_parser::{ParseError, quoted, starts_string};

/// Whether a word prints nothing.
fn is_silent(word: Word) -> bool {
    match word {
        Word::Plain(PlainWord::Print) => false,
        Word::Plain(_) => true,
        _ => false,
    }
}

/// The text of a string, as the file has it with its quotes: escapes are read, and what is left out of it is not there.
/// Empty for what is not a string.
fn text_of(alloc: Global, string: &str) -> Result<String, AllocError> {
    if !starts_string(string) {
        return Ok(String::new(alloc));
    }
    match quoted(alloc, string) {
        Ok((text, _)) => Ok(text),
        Err(ParseError::OutOfMemory) => Err(AllocError),
        Err(_) => Ok(String::new(alloc)),
    }
}

/// The bodies of one kind, as the file has them.
#[derive(Clone, Copy)]
struct Owners<'w, 'a> {
    written: &'w Written<'a>,
    owner: Owner,
    array: Array,
}

impl Owners<'_, '_> {
    /// The line in which the command of a string begins.
    fn line_of(self, item: usize, string: usize) -> Option<u32> {
        let place = LinePlace {
            owner: self.owner,
            item,
            line: string,
        };
        u32::try_from(self.written.place_of_code(place, 0)?.line).ok()
    }

    /// The text of the command of a string.
    fn source_of(self, alloc: Global, item: usize, string: usize) -> Result<String, AllocError> {
        match self.written.line(self.array, item, string) {
            None => Ok(String::new(alloc)),
            Some(part) => text_of(alloc, part.text),
        }
    }

    /// A command of a body, which is in the string of that number.
    fn place_of(
        self,
        alloc: Global,
        item: usize,
        string: usize,
        command: &Command,
    ) -> Result<Place, AllocError> {
        Place::new(
            alloc,
            self.line_of(item, string),
            self.source_of(alloc, item, string)?,
            is_silent(command.word),
            *command,
        )
    }

    /// The body of that number.
    fn body_of(
        self,
        alloc: Global,
        item: usize,
        name: Name,
        code: &[Command],
        listing: &BodyListing,
    ) -> Result<Body, AllocError> {
        let mut places = Vec::new(alloc);
        for (i, command) in code.iter().enumerate() {
            let string = listing.line_of(i).unwrap_or(0) as usize;
            places.push(self.place_of(alloc, item, string, command)?)?;
        }
        Ok(Body { name, places })
    }
}

/// Adds the software interrupts.
fn push_softints(
    alloc: Global,
    written: &Written<'_>,
    listed: &Listed,
    bodies: &mut Vec<Body>,
) -> Result<(), AllocError> {
    let owners = Owners {
        written,
        owner: Owner::Softint,
        array: Array::Softint,
    };
    for (i, one) in listed.machine.softints().iter().enumerate() {
        if let Some(listing) = listed.listing.softints().get(i) {
            bodies.push(owners.body_of(alloc, i, one.name, &one.code, listing)?)?;
        }
    }
    Ok(())
}

/// Adds the servers.
fn push_servers(
    alloc: Global,
    written: &Written<'_>,
    listed: &Listed,
    bodies: &mut Vec<Body>,
) -> Result<(), AllocError> {
    let owners = Owners {
        written,
        owner: Owner::Server,
        array: Array::Server,
    };
    for (i, one) in listed.machine.servers().iter().enumerate() {
        if let Some(listing) = listed.listing.servers().get(i) {
            bodies.push(owners.body_of(alloc, i, one.name, &one.code, listing)?)?;
        }
    }
    Ok(())
}

/// Adds the tasks.
fn push_tasks(
    alloc: Global,
    written: &Written<'_>,
    listed: &Listed,
    bodies: &mut Vec<Body>,
) -> Result<(), AllocError> {
    let owners = Owners {
        written,
        owner: Owner::Task,
        array: Array::Task,
    };
    for (i, one) in listed.machine.tasks().iter().enumerate() {
        if let Some(listing) = listed.listing.tasks().get(i) {
            bodies.push(owners.body_of(alloc, i, one.name, &one.code, listing)?)?;
        }
    }
    Ok(())
}

/// The book of a machine file that was accepted, by its bytes and its listing: each command is where `execcheck` places
/// it.
///
/// # Errors
///
/// When memory is refused.
///
/// Source: project rule.
pub fn book_of(alloc: Global, bytes: &[u8], listed: &Listed) -> Result<Book, AllocError> {
    let written = Written::new(alloc, from_utf8(bytes).unwrap_or(""))?;
    let mut tasks = Vec::new(alloc);
    let mut interrupts = Vec::new(alloc);
    push_softints(alloc, &written, listed, &mut interrupts)?;
    push_servers(alloc, &written, listed, &mut interrupts)?;
    push_tasks(alloc, &written, listed, &mut tasks)?;
    Ok(Book::new(tasks, interrupts))
}
