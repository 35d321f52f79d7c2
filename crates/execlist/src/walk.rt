//! A walk along a sequence, one node after another, for callers that show it.
ghost use Rattle.std.specs.Prelude.{◌≡◌, ◌<◌, length, Some, IfSome};
ghost use Rattle.std.specs.Option.{ForSome};
ghost use Rattle.execlist.specs.{Order.first, Lists.sequence, Lists.home, Lists.part_from};

use crate::space::{HeaderId, ListSpace, NodeId};

/// The node after `after` in the sequence of a header, or the first one for none. None at the end, and if `after` is
/// not in that sequence.
///
/// Source: RKM Libraries, Exec Lists and Queues: scanning a list.
pub fn next_node<S: ListSpace>(space: &S, h: HeaderId, after: Option<NodeId>) -> Option<NodeId>
    requires header { h < length (S.sequences space.now) }
    requires node { ForSome after (λ n. n < length (S.homes space.now)) }
    ensures value { result ≡ first (part_from after (sequence (S.sequences space.now) h)) }
    ensures home { IfSome result (λ n. home (S.homes space.now) n ≡ Some h) }
{
    match after {
        None => space.first(h),
        Some(n) => {
            if space.home(n) == Some(h) {
                space.succ(n)
            } else {
                None
            }
        }
    }
}
