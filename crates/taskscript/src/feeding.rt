//! A line that is fed to a task of a machine that runs. It has no label, no jump and no variable, so it says the same
//! in whichever body it is.
ghost use Rattle.std.specs.Prelude.{◌≡◌, ℕ, List, None, MatchResult, true};
ghost use Rattle.std.specs.List.{list_all};
ghost use Rattle.script.specs.{Commands.command_view, Machines.QuotesOnce};
ghost use Rattle.taskscript.specs.{Feeding.IsFed, Feeding.fed_said, Feeding.is_fixed, Feeding.may_be_fed, Lines.named_argument_view, Lines.named_command_view, Meaning.line_meaning, Numbering.Names, Numbering.command_in};

use crate::fault::FileFault;
use crate::label::LabelName;
use crate::line::read_line;
use crate::named::{Line, NamedArgument, NamedCommand};
use crate::resolving::command_in;
use crate::variable::VariableName;
use indexmap::{IndexMap, IndexSet};
use script::Command;
use std::alloc::Global;

// An argument that is the same in each body.
fn is_fixed(argument: &NamedArgument) -> bool
    ensures { result ≡ is_fixed (named_argument_view argument.now) }
{
    match argument {
        NamedArgument::Number(_) | NamedArgument::Quoted(_) => true,
        NamedArgument::Variable(_) | NamedArgument::Label(_) => false,
    }
}

fn are_fixed(arguments: &[NamedArgument]) -> bool
    ensures { result ≡ list_all (λ a. is_fixed (named_argument_view a)) arguments.now }
{
    arguments.iter().all(|argument| is_fixed(argument))
}

// A command with no variable and no jump.
fn may_be_fed(command: &NamedCommand) -> bool
    ensures { result ≡ may_be_fed (named_command_view command.now) }
{
    match command.target {
        None => are_fixed(command.arguments.as_slice()),
        Some(_) => false,
    }
}

// The command, as it is in each body.
fn fixed_command(alloc: Global, named: &NamedCommand) -> Result<Command, FileFault>
    requires fixed { may_be_fed (named_command_view named.now) ≡ true }
    requires once { (names : Names) (places : List ℕ → ℕ) → QuotesOnce (command_in names places (named_command_view named.now)) }
    ensures { MatchResult result
        (λ c. (names : Names) (places : List ℕ → ℕ) → command_in names places (named_command_view named.now) ≡ command_view c)
        (λ _. ⊥) }
{
    let private: IndexSet<VariableName> = IndexSet::new(alloc);
    let shared: IndexSet<VariableName> = IndexSet::new(alloc);
    let labels: IndexMap<LabelName, u32> = IndexMap::new(alloc);
    command_in(named, &private, &shared, &labels)
}

/// Reads the command of a line that is fed to a task while its machine runs. It says the same in whichever body it is.
///
/// # Errors
///
/// `BadCommand` if the line says nothing, if it is a label, or if it has a variable or a jump, and `OutOfMemory` if
/// memory is refused.
///
/// Source: project rule.
pub fn read_fed(alloc: Global, line: &str) -> Result<Command, FileFault>
    ensures { MatchResult result
        (λ c. IsFed line.now (command_view c))
        (λ fault. ¬ (fault ≡ FileFault.OutOfMemory) → (fault ≡ FileFault.BadCommand) × (fed_said (line_meaning line.now) ≡ None)) }
{
    match read_line(alloc, line)? {
        Line::Label(_) => Err(FileFault::BadCommand),
        Line::Command(named) => {
            if may_be_fed(&named) {
                fixed_command(alloc, &named)
            } else {
                Err(FileFault::BadCommand)
            }
        }
    }
}
