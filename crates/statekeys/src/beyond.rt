//! The first command of a machine file whose word the keys do not cover.
use crate::bare::is_bare_word;
use script::{Command, MachineFile, Name, Word};

/// A command whose word the keys do not cover.
#[derive(Clone, Copy)]
pub struct Beyond {
    /// What has the command: `task`, `softint` or `server`.
    pub owner: &'static str,
    /// Its name.
    pub name: Name,
    /// The number of the command in its code, from 1.
    pub number: usize,
    /// The word.
    pub word: Word,
}

/// The first command of some code whose word the keys do not cover.
fn beyond_in(owner: &'static str, name: Name, code: &[Command]) -> Option<Beyond> {
    let place = code.iter().position(|command| !is_bare_word(command.word))?;
    let command = code.get(place)?;
    Some(Beyond {
        owner,
        name,
        number: place.saturating_add(1),
        word: command.word,
    })
}

/// The first command of a machine file whose word asks for memory or touches what lies in it: those of tasks come
/// first, then those of software interrupts and of servers. None if there is none.
///
/// Source: project rule.
pub fn first_beyond(file: &MachineFile) -> Option<Beyond> {
    for task in file.tasks() {
        if let Some(found) = beyond_in("task", task.name, &task.code) {
            return Some(found);
        }
    }
    for softint in file.softints() {
        if let Some(found) = beyond_in("softint", softint.name, &softint.code) {
            return Some(found);
        }
    }
    for server in file.servers() {
        if let Some(found) = beyond_in("server", server.name, &server.code) {
            return Some(found);
        }
    }
    None
}
