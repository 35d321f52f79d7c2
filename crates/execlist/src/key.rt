//! What a space keeps of a node besides its place: a priority, and a name or none.
ghost use Rattle.std.specs.Prelude.{◌≡◌};
ghost use Rattle.execlist.specs.Lists.{name_is};

use arrayvec::ArrayString;

/// A name of at most 31 bytes.
pub type Name = ArrayString<31>;

/// The priority (-128 to 127) and the name of a node.
#[derive(Clone, Copy)]
pub struct NodeKey {
    pub pri: i8,
    pub name: Option<Name>,
}

impl NodeKey {
    ghost use Rattle.execlist.specs.Keys.{key_of};

    /// Whether there is a name and it is `name`, byte for byte.
    ///
    /// Source: autodoc exec.library/FindName: the comparison is case sensitive.
    pub fn is_named(&self, name: &str) -> bool
        ensures { result ≡ name_is ((key_of self.now).name) name.now }
    {
        match self.name {
            Some(own) => own.as_str() == name,
            None => false,
        }
    }
}
