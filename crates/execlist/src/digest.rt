//! A key that is searched by a number made of its name, so that a search compares few names.
ghost use Rattle.std.specs.Prelude.{◌≡◌, None, option_map};
ghost use Rattle.execlist.specs.{Lists.blank, Lists.name_is, Digest.digest_of, Digest.digest_or};

use crate::key::Name;

/// Makes a number of a name. Equal names have equal numbers; others seldom do. Project rule.
pub fn digest(name: &str) -> u64
    ensures { result ≡ digest_of name.now }
{
    let mut all = 0_u64;
    for byte in name.as_bytes() {
        all = all.wrapping_mul(31).wrapping_add(*byte as u64);
    }
    all
}

/// The priority (-128 to 127) and the name of a node, after the digest of the name.
#[derive(Clone, Copy)]
pub struct DigestKey {
    digest: u64,
    pri: i8,
    name: Option<Name>,
    ghost digested: { digest ≡ digest_or (option_map (λ t. t.bytes) name) },
}

impl DigestKey {
    ghost use Rattle.execlist.specs.DigestKeys.{digest_key_of};

    /// Makes the key of this priority, and of this name or none.
    pub fn new(pri: i8, name: Option<Name>) -> DigestKey
        ensures { digest_key_of result ≡ record { pri = pri; name = option_map (λ t. t.bytes) name } }
    {
        let digest = match &name {
            Some(own) => digest(own.as_str()),
            None => 0,
        };
        DigestKey { digest, pri, name }
    }

    /// Answers the priority, -128 to 127.
    ///
    /// Source: RKM Libraries, Exec Lists and Queues: `ln_Pri`.
    #[inline]
    pub fn pri(&self) -> i8
        ensures { result ≡ (digest_key_of self.now).pri }
    {
        self.pri
    }

    /// Whether there is a name and it is `name`, byte for byte.
    ///
    /// Source: autodoc exec.library/FindName: the comparison is case sensitive.
    pub fn is_named(&self, name: &str) -> bool
        ensures { result ≡ name_is ((digest_key_of self.now).name) name.now }
    {
        match &self.name {
            Some(own) => own.as_str() == name,
            None => false,
        }
    }

    /// The same, if the digest of `name` is known.
    ///
    /// Source: autodoc exec.library/FindName; the digest is a project rule.
    #[inline]
    pub fn matches(&self, digest: u64, name: &str) -> bool
        requires { digest ≡ digest_of name.now }
        ensures { result ≡ name_is ((digest_key_of self.now).name) name.now }
    {
        self.digest == digest && self.is_named(name)
    }
}
