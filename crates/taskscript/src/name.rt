//! A name among others.
ghost use Rattle.std.specs.Prelude.{◌≡◌, bytes_eq};
ghost use Rattle.std.specs.List.{list_any};
ghost use Rattle.script.specs.Names.{texts};

use script::Name;

fn any_named(names: &[Name], text: &str) -> bool
    ensures { result ≡ list_any (λ n. bytes_eq text.now n.bytes) names.now }
{
    names.iter().any(|name| text == name.as_str())
}

/// Whether the text is one of these names.
#[tactic(auto, using(crate::proofs::Names::any_texts))]
pub fn is_among(names: &[Name], text: &str) -> bool
    ensures { result ≡ list_any (bytes_eq text.now) (texts names.now) }
{
    any_named(names, text)
}
