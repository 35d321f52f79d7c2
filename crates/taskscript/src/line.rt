//! One line of a body: from its text to a label, or to a command with names for variables and labels.
ghost use Rattle.std.specs.Prelude.{◌≡◌, length, map, IfOk, option_map};
ghost use Rattle.taskscript.specs.{Lines.fields, Lines.quoted, Lines.Reads, Lines.line_view, Lines.named_argument_view, Lines.named_command_view, Lines.named_variable_view, Meaning.line_meaning, Parsing.argument_of, Parsing.arguments_of, Parsing.with_word, Parsing.command_of, Parsing.label_of, Parsing.quoted_in, Parsing.target_of};

use crate::fault::FileFault;
use crate::identifier::identifier_of;
use crate::label::{LabelName, label_in};
use crate::named::{Line, NamedArgument, NamedCommand};
use crate::number::number_of;
use crate::quoted::quoted_in;
use crate::variable::{NamedVariable, variable_of};
use script::{Kind, word_of};
use std::alloc::{AllocError, Global};

/// The parts of a line between single spaces. Two spaces in a row, or one at an end, make an empty part (project rule).
///
/// # Errors
///
/// If memory is refused.
pub fn fields_of(alloc: Global, line: &str) -> Result<Vec<&str>, AllocError>
    ensures { IfOk result (λ v. map (λ f. f.now) v.items ≡ fields line.now) }
{
    line.split(' ').collect(alloc)
}

fn quoted_argument(field: &str) -> Option<NamedArgument>
    ensures { option_map named_argument_view result ≡ option_map quoted (quoted_in field.now) }
{
    match quoted_in(field) {
        Some(name) => Some(NamedArgument::Quoted(name)),
        None => None,
    }
}

fn argument_of(kind: Kind, field: &str) -> Option<NamedArgument>
    ensures { option_map named_argument_view result ≡ argument_of kind field.now }
{
    match kind {
        Kind::Value => match variable_of(field) {
            Some(variable) => Some(NamedArgument::Variable(variable)),
            None => match number_of(field.as_bytes()) {
                Some(number) => Some(NamedArgument::Number(number)),
                None => None,
            },
        },
        Kind::Label => match identifier_of(field) {
            Some(name) => Some(NamedArgument::Label(name)),
            None => None,
        },
        Kind::Name | Kind::Softint => quoted_argument(field),
        Kind::NameOrNone => {
            if field == "0" {
                Some(NamedArgument::Number(0))
            } else {
                quoted_argument(field)
            }
        }
    }
}

// One argument of each kind. An `Err` is BadCommand, or out of memory.
fn arguments_of(
    alloc: Global,
    kinds: &[Kind],
    fields: &[&str],
) -> Result<Vec<NamedArgument>, FileFault>
    ensures read { Reads result
        (λ v. map named_argument_view v.items)
        (arguments_of kinds.now (map (λ f. f.now) fields.now)) }
    ensures counted { IfOk result (λ v. length v.items ≡ length kinds.now) }
{
    if kinds.len() != fields.len() {
        return Err(FileFault::BadCommand);
    }
    let mut arguments = Vec::new(alloc);
    for (i, kind) in kinds.iter().enumerate() {
        match argument_of(*kind, fields[i]) {
            None => return Err(FileFault::BadCommand),
            Some(argument) => arguments.push(argument)?,
        }
    }
    Ok(arguments)
}

fn target_of(may: bool, target: Option<&str>) -> Option<Option<NamedVariable>>
    ensures { option_map (λ t. option_map named_variable_view t) result
        ≡ target_of may (option_map (λ t. t.now) target.entry) }
{
    match target {
        None => Some(None),
        Some(field) => {
            if !may {
                return None;
            }
            match variable_of(field) {
                None => None,
                Some(variable) => Some(Some(variable)),
            }
        }
    }
}

// The command of a target, which may be absent, and of the fields from the word on.
#[tactic(auto, unfolding(crate::specs::Parsing::with_word))]
fn with_word(
    alloc: Global,
    target: Option<&str>,
    fields: &[&str],
) -> Result<NamedCommand, FileFault>
    ensures { Reads result
        named_command_view
        (with_word (option_map (λ t. t.now) target.entry) (map (λ f. f.now) fields.now)) }
{
    let (text, after) = match fields {
        [] => return Err(FileFault::BadCommand),
        [text, after @ ..] => (*text, after),
    };
    let word = match word_of(text) {
        None => return Err(FileFault::BadCommand),
        Some(word) => word,
    };
    let target = match target_of(word.answers(), target) {
        None => return Err(FileFault::BadCommand),
        Some(target) => target,
    };
    let arguments = arguments_of(alloc, word.kinds(), after)?;
    Ok(NamedCommand {
        word,
        target,
        arguments,
    })
}

// The command of the fields of a line, `[TARGET = ]WORD{ ARGUMENT}`.
fn read_command(alloc: Global, fields: &[&str]) -> Result<NamedCommand, FileFault>
    ensures { Reads result named_command_view (command_of (map (λ f. f.now) fields.now)) }
{
    match fields {
        [target, equals, after @ ..] if *equals == "=" => with_word(alloc, Some(*target), after),
        whole => with_word(alloc, None, whole),
    }
}

fn label_of(fields: &[&str]) -> Option<LabelName>
    ensures { option_map (λ n. n.bytes) result ≡ label_of (map (λ f. f.now) fields.now) }
{
    match fields {
        [field] => label_in(*field),
        _ => None,
    }
}

/// What a line says, or BadCommand if it says nothing.
///
/// `LABEL:` or `[TARGET = ]WORD{ ARGUMENT}` with single spaces (project rule).
#[tactic(auto, using(crate::proofs::Readings::says_is_read))]
pub fn read_line(alloc: Global, line: &str) -> Result<Line, FileFault>
    ensures { Reads result line_view (line_meaning line.now) }
{
    let all = fields_of(alloc, line)?;
    match label_of(&all) {
        Some(name) => Ok(Line::Label(name)),
        None => {
            let command = read_command(alloc, &all)?;
            Ok(Line::Command(command))
        }
    }
}
