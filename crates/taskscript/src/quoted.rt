//! Names between double quotes.
ghost use Rattle.std.specs.Prelude.{◌≡◌, option_map};
ghost use Rattle.taskscript.specs.Parsing.{quoted_in};

use script::{Name, is_name};

/// The name between double quotes, if the field is one (project rule).
pub fn quoted_in(field: &str) -> Option<Name>
    ensures { option_map (λ n. n.bytes) result ≡ quoted_in field.now }
{
    let bytes = field.as_bytes();
    let length = bytes.len();
    if length < 2 {
        return None;
    }
    if bytes[0] != b'"' || bytes[length - 1] != b'"' {
        return None;
    }
    let inside = &field[1..length - 1];
    if !is_name(inside.as_bytes()) {
        return None;
    }
    match Name::from(inside) {
        Err(_) => None,
        Ok(name) => Some(name),
    }
}
