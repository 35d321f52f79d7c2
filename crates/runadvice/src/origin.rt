//! Where a value comes from: the command that set a variable, or freed what is at an address.
use crate::bodies::command_at;
use crate::failing::cause_text;
use crate::handles::Asking;
use crate::page::name_of;
use crate::step::{Site, when_text};
use crate::value::held_by;
use crate::words::row_of;
use script::{Argument, Command, Variable, Word};
use std::alloc::{AllocError, Global};
use taskscript::Owner;

/// What has a body, in words.
pub(crate) fn kind_of_owner(owner: Owner) -> &'static str {
    match owner {
        Owner::Task => "task",
        Owner::Server => "server",
        Owner::Softint => "software interrupt",
    }
}

/// Why a word has answered 0 that takes memory of a machine that has none.
const NO_REGION: &str = ", since there is no memory: the file has no [[region]]";

/// Whether one of the arguments of a command is a name.
fn has_name(command: &Command) -> bool {
    command
        .arguments
        .iter()
        .take(command.count as usize)
        .any(|argument| matches!(argument, Argument::Quoted))
}

/// The word of a command with the name between double quotes, if it has one.
fn call_text(alloc: Global, command: &Command) -> Result<String, AllocError> {
    let (word, name) = (command.word.text(), command.name.as_str());
    if has_name(command) {
        format!(in alloc; "{word} \"{name}\"")
    } else {
        format!(in alloc; "{word}")
    }
}

impl Asking<'_, '_> {
    /// The place of a command: its line, and its body if that is not the one of the refused call.
    pub(crate) fn site_text(&self, site: Site) -> Result<String, AllocError> {
        let (spot, who) = (site.spot, self.refused.spot);
        let line = spot.number_in(self.listing);
        if who.owner == spot.owner && who.item == spot.item {
            return format!(in self.alloc; "in line {line}");
        }
        let kind = kind_of_owner(spot.owner);
        let name = name_of(self.course.file, spot.owner, spot.item).unwrap_or("");
        format!(in self.alloc; "in line {line} of {kind} \"{name}\"")
    }

    /// The command that was done.
    pub fn command_at(&self, site: Site) -> Option<&Command> {
        command_at(self.course.file, site.spot)
    }

    /// What has set a variable to this value.
    fn setting_text(&self, site: Site, value: u32) -> Result<String, AllocError> {
        let Some(command) = self.command_at(site) else {
            return Ok(String::new(self.alloc));
        };
        let place = self.site_text(site)?;
        let time = when_text(self.alloc, site.when)?;
        let call = call_text(self.alloc, command)?;
        let verb = match command.word {
            Word::Plain(_) => "gave",
            _ => "returned",
        };
        let reason = self.reason(site, command, value)?;
        let value = if value == 0 { "0" } else { "it" };
        format!(in self.alloc; ": {call} {place} {verb} {value} {time}{reason}")
    }

    /// Why a command has answered a value, as the end of a sentence; nothing if it was as the caller wants it.
    fn reason(&self, site: Site, command: &Command, value: u32) -> Result<String, AllocError> {
        let row = row_of(command.word);
        if value != 0 && value != u32::MAX {
            return Ok(String::new(self.alloc));
        }
        if row.takes && self.machine.region(0).is_none() {
            return String::from_str(self.alloc, NO_REGION);
        }
        match self.course.failings.cause(site) {
            Some(cause) => cause_text(self.alloc, cause),
            None if value == 0 => String::from_str(self.alloc, row.zero),
            None => Ok(String::new(self.alloc)),
        }
    }

    /// Where the value of a variable comes from, as the end of a sentence; nothing if that is not known.
    pub fn origin(&self, variable: Variable, value: u32) -> Result<String, AllocError> {
        let task = self.refused.task();
        match self.course.setting_of(task, variable) {
            Some(site) if held_by(self.machine, task, variable) == value => {
                self.setting_text(site, value)
            }
            None if value == 0 => format!(in self.alloc; ": nothing has set it"),
            _ => Ok(String::new(self.alloc)),
        }
    }

    /// The command that was done to what is at an address, as the end of a sentence; nothing if none was.
    fn done_text(&self, site: Option<Site>, verb: &str) -> Result<String, AllocError> {
        match site {
            None => Ok(String::new(self.alloc)),
            Some(site) => {
                let word = self
                    .command_at(site)
                    .map_or("", |command| command.word.text());
                let place = self.site_text(site)?;
                let time = when_text(self.alloc, site.when)?;
                format!(in self.alloc; ": {word} {place} {verb} it {time}")
            }
        }
    }

    /// What has freed the object or the block at an address, as the end of a sentence; nothing if nothing has.
    pub fn freed_text(&self, address: u32) -> Result<String, AllocError> {
        self.done_text(self.course.freed.get(&address).copied(), "freed")
    }

    /// What has closed the library or the request at an address, as the end of a sentence; nothing if nothing has.
    pub(crate) fn closed_text(&self, address: u32) -> Result<String, AllocError> {
        self.done_text(self.course.closed.get(&address).copied(), "closed")
    }
}
