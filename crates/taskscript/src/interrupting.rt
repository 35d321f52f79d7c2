//! Which commands a body may have: that of a software interrupt or of a server has few words and no variables of its
//! own, and a word that names a software interrupt names one of the file.
ghost use Rattle.std.specs.Prelude.{◌≡◌, ◌++◌, ◌∷◌, [], bytes_eq, length, map, option_map};
ghost use Rattle.std.specs.List.{list_all, list_any};
ghost use Rattle.script.specs.Interrupting.{is_word_of_interrupt};
ghost use Rattle.taskscript.specs.Interrupting.{is_of_interrupt, is_open, may_have, names_softints, softints_among};
ghost use Rattle.script.specs.Names.{texts};
ghost use Rattle.taskscript.specs.{Faults.check, Faults.JudgesLine, Lines.named_argument_view, Lines.named_command_view, Lines.named_variable_view, Numbering.variables_of_target, Records.setting_view};

use crate::fault::FileFault;
use crate::name::is_among;
use crate::named::{NamedArgument, NamedCommand};
use crate::variable::NamedVariable;
use script::{Kind, Name, is_word_of_interrupt};

/// What a body is judged by, besides its lines.
#[derive(Clone, Copy)]
pub struct Setting<'a> {
    /// Whether it is the body of a software interrupt or of a server.
    pub of_interrupt: bool,
    /// The names of the software interrupts of the file.
    pub softints: &'a [Name],
}

// An argument that is not a private variable.
fn is_open(argument: &NamedArgument) -> bool
    ensures { result ≡ is_open (named_argument_view argument.now) }
{
    match argument {
        NamedArgument::Variable(variable) => variable.is_shared,
        _ => true,
    }
}

fn are_open(arguments: &[NamedArgument]) -> bool
    ensures { result ≡ list_all (λ a. is_open (named_argument_view a)) arguments.now }
{
    arguments.iter().all(|argument| is_open(argument))
}

fn is_target_open(target: Option<NamedVariable>) -> bool
    ensures { result ≡ list_all (λ v. v.is_shared) (variables_of_target (option_map named_variable_view target)) }
{
    match target {
        None => true,
        Some(variable) => variable.is_shared,
    }
}

// A command that the body of an interrupt may have.
fn is_of_interrupt(command: &NamedCommand) -> bool
    ensures { result ≡ is_of_interrupt (named_command_view command.now) }
{
    if !is_word_of_interrupt(command.word) {
        return false;
    }
    if !is_target_open(command.target) {
        return false;
    }
    are_open(command.arguments.as_slice())
}

// An argument of a kind that is not a name of a software interrupt, or is one of these.
fn is_known(softints: &[Name], kind: Kind, argument: &NamedArgument) -> bool
    ensures { result ≡ list_all (λ name. list_any (bytes_eq name) (texts softints.now)) (softints_among (kind ∷ []) (named_argument_view argument.now ∷ [])) }
{
    match kind {
        Kind::Softint => match argument {
            NamedArgument::Quoted(name) => is_among(softints, name.as_str()),
            NamedArgument::Number(_) | NamedArgument::Variable(_) | NamedArgument::Label(_) => true,
        },
        Kind::Value | Kind::Label | Kind::Name | Kind::NameOrNone => true,
    }
}

fn are_known(softints: &[Name], kinds: &[Kind], arguments: &[NamedArgument]) -> bool
    requires { length arguments.now ≡ length kinds.now }
    ensures { result ≡ list_all (λ name. list_any (bytes_eq name) (texts softints.now)) (softints_among kinds.now (map named_argument_view arguments.now)) }
{
    for (i, argument) in arguments.iter().enumerate() {
        if !is_known(softints, kinds[i], argument) {
            return false;
        }
    }
    true
}

/// Judges a command by its body: BadCommand if it names a software interrupt that the file lacks, and NotInInterrupt
/// where it may not be in the body of an interrupt. The words of interrupts are a project rule.
pub fn judge_command(setting: Setting<'_>, command: &NamedCommand) -> Result<(), FileFault>
    ensures { let s = setting_view setting.entry in
        let said = named_command_view command.now in
        JudgesLine result
        (check (names_softints s said) FileFault.BadCommand ++ check (may_have s said) FileFault.NotInInterrupt)
        (λ _. Unit {0}) }
{
    if !are_known(
        setting.softints,
        command.word.kinds(),
        command.arguments.as_slice(),
    ) {
        return Err(FileFault::BadCommand);
    }
    if setting.of_interrupt && !is_of_interrupt(command) {
        return Err(FileFault::NotInInterrupt);
    }
    Ok(())
}
