//! Labels, which name the command after them.
ghost use Rattle.std.specs.Prelude.{◌≡◌, option_map};
ghost use Rattle.taskscript.specs.Parsing.{label_in};

use crate::identifier::{Identifier, identifier_of};

/// The name of a label.
pub type LabelName = Identifier;

/// The label of a label line, which is its name and `:` (project rule).
pub fn label_in(field: &str) -> Option<LabelName>
    ensures { option_map (λ n. n.bytes) result ≡ label_in field.now }
{
    let bytes = field.as_bytes();
    let length = bytes.len();
    if length < 1 {
        return None;
    }
    if bytes[length - 1] != b':' {
        return None;
    }
    identifier_of(&field[..length - 1])
}
