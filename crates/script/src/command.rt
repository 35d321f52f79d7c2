//! Commands: what the lines of a body say, with numbers for the names of variables. Since at most one argument of a
//! command is a name, the name is beside the arguments.
ghost use Rattle.std.specs.Prelude.{◌≤◌};

use crate::name::Name;
use crate::variable::Variable;
use crate::word::Word;

/// An argument of a command.
#[derive(Clone, Copy)]
pub enum Argument {
    /// A number, as a word of 32 bits.
    Number(u32),
    /// What a variable holds when the command runs.
    Variable(Variable),
    /// The name of the command, which was between double quotes.
    Quoted,
    /// The place (from 0) of a command of the body, or the number of its commands.
    Place(u32),
}

/// One command of a body.
#[derive(Clone, Copy)]
pub struct Command {
    /// What it does.
    pub word: Word,
    /// Where the answer goes.
    pub target: Option<Variable>,
    /// The arguments, from left to right; past the first `count` of them they mean nothing.
    pub arguments: [Argument; 4],
    /// How many arguments there are: 0 to 4.
    pub count: u8,
    /// The name among the arguments; if none is a name, it means nothing.
    pub name: Name,
    ghost few: { count ≤ 4 },
}
