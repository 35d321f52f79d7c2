//! The sequences of a list space are copied to another one, which has room for one more node.
ghost use Rattle.std.specs.Prelude.{◌≡◌, ℕ, ◌<◌, ◌≤◌, ◌+◌, ◌++◌, [], ◌∷◌, None, Some, length, replicate, slice_set};
ghost use Rattle.execlist.specs.Lists.{home, sequence};

use crate::space::{HeaderId, ListSpace};

/// Puts the nodes of a header into the header of that number of another space, which is empty, in their order.
fn copy_sequence<S: ListSpace>(from: &S, to: &mut S, h: HeaderId)
    requires header { h < length (S.sequences from.now) }
    requires headers { length (S.sequences to.old) ≡ length (S.sequences from.now) }
    requires nodes { length (S.homes from.now) ≤ length (S.homes to.old) }
    requires empty { sequence (S.sequences to.old) h ≡ [] }
    requires unlinked { (n : ℕ) → home (S.homes from.now) n ≡ Some h → home (S.homes to.old) n ≡ None }
    ensures copied { S.sequences to.new ≡ slice_set (S.sequences to.old) h (sequence (S.sequences from.now) h) }
    ensures nodes { length (S.homes to.new) ≡ length (S.homes to.old) }
    ensures keys { S.keys to.new ≡ S.keys to.old }
{
    let mut next = from.first(h);
    while let Some(n) = next {
        to.add_tail(h, n);
        next = from.succ(n);
    }
}

/// Puts the nodes of each header into the header of that number of another space, whose headers are empty, in their
/// order. The other space has as many headers and one more node, which stays in none. `headers` is how many headers
/// there are.
///
/// Source: project rule.
pub fn copy_sequences<S: ListSpace>(from: &S, to: &mut S, headers: usize)
    requires headers { headers ≡ length (S.sequences from.now) }
    requires nodes { length (S.homes to.old) ≡ length (S.homes from.now) + 1 }
    requires empty { S.sequences to.old ≡ replicate headers [] }
    ensures sequences { S.sequences to.new ≡ S.sequences from.now }
    ensures homes { S.homes to.new ≡ S.homes from.now ++ None ∷ [] }
    ensures keys { S.keys to.new ≡ S.keys to.old }
{
    for h in 0..headers {
        copy_sequence(from, to, h);
    }
}
