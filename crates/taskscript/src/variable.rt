//! Variables, by their names in a line.
ghost use Rattle.std.specs.Prelude.{◌≡◌, option_map};
ghost use Rattle.taskscript.specs.{Lines.named_variable_view, Parsing.named, Parsing.variable_of};

use crate::identifier::{Identifier, identifier_of};

/// The name of a variable, the `@` of a shared one left out.
pub type VariableName = Identifier;

/// A variable, as a line names it.
#[derive(Clone, Copy)]
pub struct NamedVariable {
    pub is_shared: bool,
    pub name: VariableName,
}

fn named(is_shared: bool, text: &str) -> Option<NamedVariable>
    ensures { option_map named_variable_view result ≡ named is_shared text.now }
{
    match identifier_of(text) {
        None => None,
        Some(name) => Some(NamedVariable { is_shared, name }),
    }
}

/// The variable that a field names, if it names one: `name`, or `@name` for a shared one (project rule).
pub fn variable_of(text: &str) -> Option<NamedVariable>
    ensures { option_map named_variable_view result ≡ variable_of text.now }
{
    if text.is_empty() {
        return None;
    }
    if text.as_bytes()[0] == b'@' {
        named(true, &text[1..])
    } else {
        named(false, text)
    }
}
