//! What a search along a list asks of the key of each node.
ghost use Rattle.std.specs.Prelude.{◌≡◌, Bool, int_lt};
ghost use Rattle.execlist.specs.{Lists.KeyData, Lists.name_is, Digest.digest_of};

use crate::digest::{DigestKey, digest};

/// What a search asks of the key of each node.
pub trait Sought {
    /// Whether a node of this key is sought.
    ghost wanted: { Self → KeyData → Bool };

    ghost use Rattle.execlist.specs.DigestKeys.{digest_key_of};

    /// Answers whether a node of this key is sought.
    fn is_met(&self, key: &DigestKey) -> bool
        ensures { result ≡ wanted self.now (digest_key_of key.now) };
}

/// A node of lower priority than this one, -128 to 127. Autodoc exec.library/Enqueue.
#[derive(Drop)]
pub struct LowerThan {
    pub pri: i8,
}

impl Sought for LowerThan {
    ghost wanted = { λ s k. int_lt k.pri s.pri };

    #[inline]
    fn is_met(&self, key: &DigestKey) -> bool {
        key.pri() < self.pri
    }
}

/// A node of this name, byte for byte. Autodoc exec.library/FindName.
#[derive(Drop)]
pub struct Named<'a> {
    name: &'a str,
    digest: u64,
    ghost digested: { digest ≡ digest_of name.now },
}

impl<'a> Named<'a> {
    /// Makes what asks for the name.
    pub fn new(name: &'a str) -> Named<'a>
        ensures { result.name.now ≡ name.now }
    {
        let digest = digest(name);
        Named { name, digest }
    }
}

impl<'a> Sought for Named<'a> {
    ghost wanted = { λ s k. name_is k.name s.name.now };

    #[inline]
    fn is_met(&self, key: &DigestKey) -> bool {
        key.matches(self.digest, self.name)
    }
}
