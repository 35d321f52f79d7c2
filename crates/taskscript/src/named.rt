//! What a line says, with names for variables and labels.
ghost use Rattle.std.specs.Prelude.{◌≡◌, length};
ghost use Rattle.script.specs.Words.{kinds};

use crate::label::LabelName;
use crate::variable::NamedVariable;
use script::{Name, Word};

/// An argument, as a line names it.
#[derive(Clone, Copy)]
pub enum NamedArgument {
    Number(u32),
    Variable(NamedVariable),
    Label(LabelName),
    Quoted(Name),
}

/// A command, as a line names it.
#[derive(Drop)]
pub struct NamedCommand {
    pub word: Word,
    pub target: Option<NamedVariable>,
    /// One of each kind that the word has.
    pub arguments: Vec<NamedArgument>,
    ghost complete: { length arguments.items ≡ length (kinds word) },
}

/// What one line says.
#[derive(Drop)]
pub enum Line {
    /// A label, which names the command after it.
    Label(LabelName),
    Command(NamedCommand),
}
