//! What is written where in a machine file: the names of its bodies, and of each command the line of the file and the
//! text.
ghost use Rattle.std.specs.Prelude.{◌≡◌, true, option_copied, string_bytes, IfOk};
ghost use Rattle.execlog.specs.Rows.{IsFrame};

use crate::frame::Frame;
use crate::index::Index;
use crate::moment::Actor;
use script::{Command, Name};
use std::alloc::{AllocError, Global};

/// How many bytes of names are compared one by one, at most.
const MOST_BYTES: usize = 8;

/// A command as it is written.
#[derive(Drop)]
pub struct Place {
    /// Its line in the file, from 1, if it is known.
    pub line: Option<u32>,
    /// Its text.
    pub source: String,
    /// Whether its word prints nothing: it sets a variable, calculates or jumps.
    pub is_silent: bool,
    /// What it says.
    pub command: Command,
    pub(crate) frame: Frame,
    ghost framed: { IsFrame line (string_bytes source) frame.before.items frame.after.items frame.gap },
}

/// A body: a task, a software interrupt or a server.
#[derive(Drop)]
pub struct Body {
    /// Its name.
    pub name: Name,
    /// Its commands, in their order.
    pub places: Vec<Place>,
}

/// The bodies of a machine file.
#[derive(Drop)]
pub struct Book {
    /// The tasks, in the order of the file.
    pub tasks: Vec<Body>,
    /// The software interrupts, and after them the servers, each in the order of the file.
    pub interrupts: Vec<Body>,
    index: Index,
}

impl Place {
    /// A command.
    ///
    /// # Errors
    ///
    /// When memory is refused.
    ///
    /// Source: project rule.
    pub fn new(
        alloc: Global,
        line: Option<u32>,
        source: String,
        is_silent: bool,
        command: Command,
    ) -> Result<Place, AllocError>
        ensures line { IfOk result (λ p. p.line ≡ line) }
        ensures source { IfOk result (λ p. p.source ≡ source) }
        ensures is_silent { IfOk result (λ p. p.is_silent ≡ is_silent) }
        ensures command { IfOk result (λ p. p.command ≡ command) }
    {
        let frame = Frame::new(alloc, line, source.as_str().as_bytes())?;
        Ok(Place {
            line,
            source,
            is_silent,
            command,
            frame,
        })
    }
}

impl Body {
    /// The first command at a place or after it that prints.
    ///
    /// Source: project rule.
    pub fn printing_from(&self, place: usize) -> Option<usize> {
        for i in place..self.places.len() {
            if !self.places[i].is_silent {
                return Some(i);
            }
        }
        None
    }
}

impl Book {
    ghost use Rattle.execlog.specs.Books.{command_at};

    /// The bodies of a machine file.
    ///
    /// Source: project rule.
    pub fn new(tasks: Vec<Body>, interrupts: Vec<Body>) -> Book
        ensures tasks { result.tasks ≡ tasks }
        ensures interrupts { result.interrupts ≡ interrupts }
    {
        let index = Index::new(&interrupts);
        Book {
            tasks,
            interrupts,
            index,
        }
    }

    /// The command at which a task is, if it is at one.
    ///
    /// Source: project rule.
    #[inline(always)]
    pub fn command_at(&self, actor: Actor) -> Option<&Place>
        ensures { option_copied result ≡ command_at self.now actor }
    {
        match self.tasks.get(actor.task) {
            None => None,
            Some(task) => task.places.get(actor.place),
        }
    }

    /// The software interrupt or server of a name, by its number among both.
    ///
    /// Source: project rule.
    #[inline(always)]
    pub fn interrupt_named(&self, name: &[u8]) -> Option<usize> {
        let place = self.index.place_of(name);
        match self.interrupts.get(place) {
            None => None,
            Some(body) => {
                if is_same(body.name.as_str().as_bytes(), name) {
                    Some(place)
                } else {
                    place_named(&self.interrupts, name)
                }
            }
        }
    }

    /// The task of a name, by its number from 0.
    ///
    /// Source: project rule.
    pub fn task_named(&self, name: &[u8]) -> Option<usize> {
        place_named(&self.tasks, name)
    }
}

/// Whether two names are the same. Most are short, and are compared byte by byte.
#[inline(always)]
fn is_same(one: &[u8], other: &[u8]) -> bool
    ensures { result ≡ true → one.now ≡ other.now }
{
    if one.len() != other.len() {
        return false;
    }
    if one.len() > MOST_BYTES {
        return one == other;
    }
    for i in 0..one.len() {
        if one[i] != other[i] {
            return false;
        }
    }
    true
}

/// The place of the first body of a name.
fn place_named(bodies: &[Body], name: &[u8]) -> Option<usize> {
    for (i, body) in bodies.iter().enumerate() {
        if body.name.as_str().as_bytes() == name {
            return Some(i);
        }
    }
    None
}
