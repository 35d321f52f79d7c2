//! Numbers for the names of variables, in the order of first sight: a name is seen, and then it has a
//! number.
ghost use Rattle.std.specs.Prelude.{◌≡◌, [], ◌∷◌, nat_lt, map, option_map, IfSome, OnOk};
ghost use Rattle.script.specs.Names.{texts};
ghost use Rattle.taskscript.specs.Numbering.{names_view, place_of_name, seen_after, variable_in, variables_of, variables_of_arguments, variables_of_target, Sees, SeesAll};
ghost use Rattle.script.specs.Commands.{VariableFits};
ghost use Rattle.taskscript.specs.{Lines.named_variable_view, Lines.named_argument_view, Lines.named_command_view};

use crate::fault::FileFault;
use crate::named::{NamedArgument, NamedCommand};
use crate::variable::{NamedVariable, VariableName};
use indexmap::IndexSet;
use script::Variable;

/// The greatest number of private variables of one body.
pub const PRIVATE_LIMIT: usize = 32;

/// The greatest number of shared variables of a file.
pub const SHARED_LIMIT: usize = 64;

// A name is seen; TooMany if its place in the order of first sight is past the limit.
fn see(
    names: &mut IndexSet<VariableName>,
    name: VariableName,
    limit: usize,
) -> Result<(), FileFault>
    ensures room { Sees result (nat_lt (place_of_name (texts names.old.keys) name.bytes) limit) }
    ensures seen { OnOk result (texts names.new.keys ≡ seen_after (texts names.old.keys) name.bytes) }
{
    let (index, _is_new) = names.insert_full(name)?;
    if index < limit {
        Ok(())
    } else {
        Err(FileFault::TooMany)
    }
}

fn see_variable(
    variable: NamedVariable,
    private: &mut IndexSet<VariableName>,
    shared: &mut IndexSet<VariableName>,
) -> Result<(), FileFault>
    ensures { SeesAll result
        (names_view private.old.keys shared.old.keys)
        (names_view private.new.keys shared.new.keys)
        (named_variable_view variable ∷ []) }
{
    if variable.is_shared {
        see(shared, variable.name, SHARED_LIMIT)
    } else {
        see(private, variable.name, PRIVATE_LIMIT)
    }
}

fn see_target(
    target: Option<NamedVariable>,
    private: &mut IndexSet<VariableName>,
    shared: &mut IndexSet<VariableName>,
) -> Result<(), FileFault>
    ensures { SeesAll result
        (names_view private.old.keys shared.old.keys)
        (names_view private.new.keys shared.new.keys)
        (variables_of_target (option_map named_variable_view target)) }
{
    match target {
        None => Ok(()),
        Some(variable) => see_variable(variable, private, shared),
    }
}

fn see_argument(
    argument: NamedArgument,
    private: &mut IndexSet<VariableName>,
    shared: &mut IndexSet<VariableName>,
) -> Result<(), FileFault>
    ensures { SeesAll result
        (names_view private.old.keys shared.old.keys)
        (names_view private.new.keys shared.new.keys)
        (variables_of_arguments (named_argument_view argument ∷ [])) }
{
    match argument {
        NamedArgument::Number(_) | NamedArgument::Label(_) | NamedArgument::Quoted(_) => Ok(()),
        NamedArgument::Variable(variable) => see_variable(variable, private, shared),
    }
}

fn see_arguments(
    arguments: &[NamedArgument],
    private: &mut IndexSet<VariableName>,
    shared: &mut IndexSet<VariableName>,
) -> Result<(), FileFault>
    ensures { SeesAll result
        (names_view private.old.keys shared.old.keys)
        (names_view private.new.keys shared.new.keys)
        (variables_of_arguments (map named_argument_view arguments.now)) }
{
    for argument in arguments {
        see_argument(*argument, private, shared)?;
    }
    Ok(())
}

/// The names of a command are seen, the target's first, and then those of the arguments from left to
/// right.
///
/// `private` has the names of the body, and `shared` those of the file. TooMany if a number is past its limit.
pub fn see_command(
    command: &NamedCommand,
    private: &mut IndexSet<VariableName>,
    shared: &mut IndexSet<VariableName>,
) -> Result<(), FileFault>
    ensures { SeesAll result
        (names_view private.old.keys shared.old.keys)
        (names_view private.new.keys shared.new.keys)
        (variables_of (named_command_view command.now)) }
{
    see_target(command.target, private, shared)?;
    see_arguments(command.arguments.as_slice(), private, shared)
}

// The place of a name in the order of first sight; after the others, if it was not seen.
fn number_in(names: &IndexSet<VariableName>, name: VariableName) -> usize
    ensures { result ≡ place_of_name (texts names.now.keys) name.bytes }
{
    match names.get_index_of(&name) {
        Some(index) => index,
        None => names.len(),
    }
}

/// A variable by its number, which is within its limit.
pub fn variable_in(
    variable: NamedVariable,
    private: &IndexSet<VariableName>,
    shared: &IndexSet<VariableName>,
) -> Variable
    requires { VariableFits (variable_in (names_view private.now.keys shared.now.keys) (named_variable_view variable)) }
    ensures { result ≡ variable_in (names_view private.now.keys shared.now.keys) (named_variable_view variable) }
{
    if variable.is_shared {
        Variable::Shared(number_in(shared, variable.name) as u8)
    } else {
        Variable::Private(number_in(private, variable.name) as u8)
    }
}

/// A target by its number, if there is one; the number is within its limit.
pub fn target_in(
    target: Option<NamedVariable>,
    private: &IndexSet<VariableName>,
    shared: &IndexSet<VariableName>,
) -> Option<Variable>
    requires { let names = names_view private.now.keys shared.now.keys in
        IfSome (option_map (variable_in names) (option_map named_variable_view target)) VariableFits }
    ensures { let names = names_view private.now.keys shared.now.keys in
        result ≡ option_map (variable_in names) (option_map named_variable_view target) }
{
    match target {
        None => None,
        Some(variable) => Some(variable_in(variable, private, shared)),
    }
}
