//! A body as it is read: its commands so far and their lines, with the names of its private variables and its labels.
use crate::label::LabelName;
use crate::named::NamedCommand;
use crate::variable::VariableName;
use indexmap::{IndexMap, IndexSet};

/// What was read of a body.
#[derive(Drop)]
pub struct Body {
    pub commands: Vec<NamedCommand>,
    /// The number (from 0) of the line of each command.
    pub lines: Vec<u16>,
    /// The names of the private variables in the order of first sight.
    pub private: IndexSet<VariableName>,
    /// Each label with the number of the commands before it.
    pub labels: IndexMap<LabelName, u32>,
}
