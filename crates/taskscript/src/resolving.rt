//! Commands with numbers and places for their names, once the whole body was read.
ghost use Rattle.std.specs.Prelude.{◌≡◌, ◌≤◌, ℕ, List, [], ◌∷◌, All, length, map, take};
ghost use Rattle.script.specs.{Commands.argument_view, Commands.command_view, Commands.first_name, Commands.ArgumentFits, Commands.CommandFits, Commands.IsNamed, Machines.QuotesOnce};
ghost use Rattle.taskscript.specs.{Faults.Judges, Labels.are_marked, Labels.jumps_faults_in, Labels.marks_view, Labels.place_at, Labels.Resolves, Lines.named_argument_view, Lines.named_command_view, Numbering.argument_in, Numbering.command_in, Numbering.labels_of_arguments, Numbering.names_view, Numbering.Names};

use crate::fault::FileFault;
use crate::label::LabelName;
use crate::named::{NamedArgument, NamedCommand};
use crate::numbering::{target_in, variable_in};
use crate::place::Owner;
use crate::refused::{Refused, at_line};
use crate::variable::VariableName;
use indexmap::{IndexMap, IndexSet};
use script::{Argument, Command, Name};
use std::alloc::Global;

// An argument with the number of its variable, or the place of its label, and without its name.
fn argument_in(
    argument: NamedArgument,
    private: &IndexSet<VariableName>,
    shared: &IndexSet<VariableName>,
    labels: &IndexMap<LabelName, u32>,
) -> Result<Argument, FileFault>
    requires { ArgumentFits (argument_in (names_view private.now.keys shared.now.keys) (place_at (marks_view labels.now.entries)) (named_argument_view argument)) }
    ensures { let marks = marks_view labels.now.entries in
        let found = argument_in (names_view private.now.keys shared.now.keys) (place_at marks) (named_argument_view argument) in
        Resolves result
        (are_marked marks (labels_of_arguments (named_argument_view argument ∷ [])))
        (λ a. (name : List ℕ) → IsNamed name found → argument_view name a ≡ found) }
{
    match argument {
        NamedArgument::Number(n) => Ok(Argument::Number(n)),
        NamedArgument::Variable(variable) => {
            Ok(Argument::Variable(variable_in(variable, private, shared)))
        }
        NamedArgument::Quoted(_) => Ok(Argument::Quoted),
        NamedArgument::Label(name) => match labels.get(&name).copied() {
            None => Err(FileFault::BadLabel),
            Some(place) => Ok(Argument::Place(place)),
        },
    }
}

// The arguments from left to right; what is past them is unused.
fn arguments_in(
    named: &[NamedArgument],
    private: &IndexSet<VariableName>,
    shared: &IndexSet<VariableName>,
    labels: &IndexMap<LabelName, u32>,
) -> Result<[Argument; 4], FileFault>
    requires few { length named.now ≤ 4 }
    requires fit { All ArgumentFits (map (argument_in (names_view private.now.keys shared.now.keys) (place_at (marks_view labels.now.entries))) (map named_argument_view named.now)) }
    ensures { let marks = marks_view labels.now.entries in
        let found = map (argument_in (names_view private.now.keys shared.now.keys) (place_at marks)) (map named_argument_view named.now) in
        Resolves result
        (are_marked marks (labels_of_arguments (map named_argument_view named.now)))
        (λ a. (name : List ℕ) → All (IsNamed name) found → map (argument_view name) (take (length named.now) a) ≡ found) }
{
    let mut arguments = [Argument::Number(0); 4];
    for (i, argument) in named.iter().enumerate() {
        arguments[i] = argument_in(*argument, private, shared, labels)?;
    }
    Ok(arguments)
}

// The first name among the arguments, or an empty one.
fn name_among(named: &[NamedArgument]) -> Name
    ensures { (names : Names) (places : List ℕ → ℕ) → result.bytes ≡ first_name (map (argument_in names places) (map named_argument_view named.now)) }
{
    for argument in named {
        if let NamedArgument::Quoted(name) = argument {
            return *name;
        }
    }
    Name::new()
}

/// A command with numbers and places for its names, or BadLabel if it jumps to a label that is not among these.
pub fn command_in(
    named: &NamedCommand,
    private: &IndexSet<VariableName>,
    shared: &IndexSet<VariableName>,
    labels: &IndexMap<LabelName, u32>,
) -> Result<Command, FileFault>
    requires fits { CommandFits (command_in (names_view private.now.keys shared.now.keys) (place_at (marks_view labels.now.entries)) (named_command_view named.now)) }
    requires once { QuotesOnce (command_in (names_view private.now.keys shared.now.keys) (place_at (marks_view labels.now.entries)) (named_command_view named.now)) }
    ensures { let marks = marks_view labels.now.entries in
        let all = named_command_view named.now in
        Resolves result
        (are_marked marks (labels_of_arguments all.arguments))
        (λ c. command_view c ≡ command_in (names_view private.now.keys shared.now.keys) (place_at marks) all) }
{
    let arguments = named.arguments.as_slice();
    Ok(Command {
        word: named.word,
        target: target_in(named.target, private, shared),
        arguments: arguments_in(arguments, private, shared, labels)?,
        count: arguments.len() as u8,
        name: name_among(arguments),
    })
}

/// The commands of the body of the item of that number with numbers and places for their names, or BadLabel if one
/// jumps to a label that is not among these, at its line, which `lines` has. Their variables are within the limits, and
/// at most one argument of each is a name.
pub fn commands_in(
    alloc: Global,
    owner: Owner,
    number: usize,
    lines: &[u16],
    commands: &[NamedCommand],
    private: &IndexSet<VariableName>,
    shared: &IndexSet<VariableName>,
    labels: &IndexMap<LabelName, u32>,
) -> Result<Vec<Command>, Refused>
    requires lines { length lines.now ≡ length commands.now }
    requires fit { All CommandFits (map (command_in (names_view private.now.keys shared.now.keys) (place_at (marks_view labels.now.entries))) (map named_command_view commands.now)) }
    requires once { All QuotesOnce (map (command_in (names_view private.now.keys shared.now.keys) (place_at (marks_view labels.now.entries))) (map named_command_view commands.now)) }
    ensures { let names = names_view private.now.keys shared.now.keys in
        let marks = marks_view labels.now.entries in
        let all = map named_command_view commands.now in
        Judges result
        (jumps_faults_in owner number marks lines.now all)
        (λ code. map command_view code.items ≡ map (command_in names (place_at marks)) all) }
{
    let mut code = Vec::with_capacity(alloc, commands.len())?;
    for (i, named) in commands.iter().enumerate() {
        let line = lines[i] as usize;
        match command_in(named, private, shared, labels) {
            Err(fault) => return Err(at_line(owner, number, line, fault)),
            Ok(command) => code.push(command)?,
        }
    }
    Ok(code)
}
