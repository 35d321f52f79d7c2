//! Whether a line says something, as the reader of machine files reads it. Here nothing is made of what it says.
ghost use Rattle.std.specs.Prelude.{◌≡◌, is_some, map, option_map, IfOk};
ghost use Rattle.taskscript.specs.{Identifiers.identifier_in, Meaning.line_meaning, Numbers.number_written, Parsing.argument_of, Parsing.arguments_of, Parsing.command_of, Parsing.label_in, Parsing.label_of, Parsing.quoted_in, Parsing.target_of, Parsing.with_word};

use crate::made::Made;
use crate::variables::is_variable;
use script::{Kind, word_of};
use std::alloc::Global;
use taskscript::{fields_of, is_identifier, label_in, number_of, quoted_in};

/// Whether a field is a number.
pub(crate) fn is_number(field: &str) -> bool
    ensures { result ≡ is_some (number_written field.now) }
{
    number_of(field.as_bytes()).is_some()
}

/// Whether a field is a name between double quotes.
pub(crate) fn is_quoted(field: &str) -> bool
    ensures { result ≡ is_some (quoted_in field.now) }
{
    quoted_in(field).is_some()
}

/// Whether a field is the name of a label.
fn is_label_name(field: &str) -> bool
    ensures { result ≡ is_some (identifier_in field.now) }
{
    is_identifier(field.as_bytes())
}

/// Whether a field is an argument of that kind.
#[tactic(auto, using(crate::proofs::Reading::either, crate::proofs::Reading::made))]
fn is_argument(kind: Kind, field: &str) -> bool
    ensures { result ≡ is_some (argument_of kind field.now) }
{
    match kind {
        Kind::Value => is_variable(field) || is_number(field),
        Kind::Label => is_label_name(field),
        Kind::Name | Kind::Softint => is_quoted(field),
        Kind::NameOrNone => field == "0" || is_quoted(field),
    }
}

/// Whether there is one field for each kind, and it is an argument of it.
fn are_arguments(kinds: &[Kind], fields: &[&str]) -> bool
    ensures { result ≡ is_some (arguments_of kinds.now (map (λ f. f.now) fields.now)) }
{
    match kinds {
        [] => fields.is_empty(),
        [kind, others @ ..] => match fields {
            [] => false,
            [field, after @ ..] => is_argument(*kind, *field) && are_arguments(others, after),
        },
    }
}

/// Whether a target may be there, if one is, and is a variable.
#[tactic(auto, using(crate::proofs::Reading::made))]
fn is_target(may: bool, target: Option<&str>) -> bool
    ensures { result ≡ is_some (target_of may (option_map (λ t. t.now) target.entry)) }
{
    match target {
        None => true,
        Some(field) => may && is_variable(field),
    }
}

/// Whether fields from the word on are a command, with that target or none.
#[tactic(auto, unfolding(taskscript::specs::Parsing::with_word))]
fn has_word(target: Option<&str>, fields: &[&str]) -> bool
    ensures { result ≡ is_some (with_word (option_map (λ t. t.now) target.entry) (map (λ f. f.now) fields.now)) }
{
    let [text, after @ ..] = fields else {
        return false;
    };
    match word_of(text) {
        None => false,
        Some(word) => { is_target(word.answers(), target) && are_arguments(word.kinds(), after) }
    }
}

/// Whether the fields of a line are a command.
fn is_command(fields: &[&str]) -> bool
    ensures { result ≡ is_some (command_of (map (λ f. f.now) fields.now)) }
{
    match fields {
        [target, equals, after @ ..] if *equals == "=" => has_word(Some(*target), after),
        whole => has_word(None, whole),
    }
}

/// Whether a field is a label with its colon.
fn is_label_field(field: &str) -> bool
    ensures { result ≡ is_some (label_in field.now) }
{
    label_in(field).is_some()
}

/// Whether the fields of a line are a label.
fn is_label(fields: &[&str]) -> bool
    ensures { result ≡ is_some (label_of (map (λ f. f.now) fields.now)) }
{
    match fields {
        [field] => is_label_field(*field),
        _ => false,
    }
}

/// Whether a line is a label or a command.
#[tactic(auto, using(taskscript::proofs::Readings::says_is_read, crate::proofs::Reading::either))]
pub(crate) fn says_something(alloc: Global, line: &str) -> Made<bool>
    ensures { IfOk result (λ says. says ≡ is_some (line_meaning line.now)) }
{
    let fields = fields_of(alloc, line)?;
    Ok(is_label(&fields) || is_command(&fields))
}
