//! A run that was read.

use execlog::Book;
use script::Events;
use taskscript::Listed;

/// The texts of a run.
#[derive(Drop)]
pub struct Run {
    /// The machine, the lines of its commands and the names of its variables.
    pub listed: Listed,
    /// The events.
    pub events: Events,
    /// What is written where in the machine file.
    pub book: Book,
}
