//! Names of variables and labels.
ghost use Rattle.std.specs.Prelude.{◌≡◌, option_map};
ghost use Rattle.std.specs.List.{list_all};
ghost use Rattle.taskscript.specs.Identifiers.{identifier_in, is_identifier, is_identifier_byte};

use arrayvec::ArrayString;

/// The name of a variable or of a label: 1 to 16 characters, the `@` of a shared variable left out.
pub type Identifier = ArrayString<16>;

fn has_identifier_bytes(bytes: &[u8]) -> bool
    ensures { result ≡ list_all is_identifier_byte bytes.now }
{
    bytes.iter().all(|b| {
        (b'a' <= *b && *b <= b'z') || ((b'0' <= *b && *b <= b'9') || *b == b'_')
    })
}

/// Whether the bytes are the name of a variable or of a label: a letter `a` to `z`, then letters, digits and `_`, 1 to
/// 16 characters together.
///
/// Source: project rule.
pub fn is_identifier(bytes: &[u8]) -> bool
    ensures { result ≡ is_identifier bytes.now }
{
    if bytes.len() < 1 || bytes.len() > 16 {
        return false;
    }
    if bytes[0] < b'a' || bytes[0] > b'z' {
        return false;
    }
    has_identifier_bytes(bytes)
}

/// The text as a name, if it is one: a letter `a` to `z`, then letters, digits and `_`, 1 to 16
/// characters together (project rule).
pub fn identifier_of(text: &str) -> Option<Identifier>
    ensures { option_map (λ n. n.bytes) result ≡ identifier_in text.now }
{
    if !is_identifier(text.as_bytes()) {
        return None;
    }
    match Identifier::from(text) {
        Err(_) => None,
        Ok(name) => Some(name),
    }
}
