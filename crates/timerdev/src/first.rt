//! Which of the requests that wait comes first.
ghost use Rattle.std.specs.Prelude.{◌≡◌, ◌<◌, ◌≤◌, ◌&&◌, ◌||◌, length, Some, IfSome, find, nat_eq, nat_le, nat_lt};
ghost use Rattle.execlist.specs.Lists.{sequence, home};
ghost use Rattle.timerdev.specs.Held.{Rises, due_at, is_before};

use crate::place::ALL;
use execlist::space::{HeaderId, ListSpace, NodeId};

/// The first request of a header that is due by that time, or none if none is.
///
/// The requests of the header are by their times.
///
/// Source: RKM Devices, timer device: TR_ADDREQUEST.
pub fn first_come<S: ListSpace>(space: &S, h: HeaderId, dues: &[u64], time: u64) -> Option<NodeId>
    requires header { h < length (S.sequences space.now) }
    requires each { length (S.homes space.now) ≡ length dues.now }
    requires sorted { Rises (due_at dues.now) (sequence (S.sequences space.now) h) }
    ensures value { result ≡ find (λ r. nat_le (due_at dues.now r) time) (sequence (S.sequences space.now) h) }
    ensures home { IfSome result (λ r. home (S.homes space.now) r ≡ Some h) }
    ensures come { IfSome result (λ r. due_at dues.now r ≤ time) }
{
    let r = space.first(h)?;
    if dues[r] > time {
        return None;
    }
    Some(r)
}

/// Whether request `a` comes before request `b`, which waits too: it is later by now than the other, or as late and was
/// begun before.
pub fn is_first<S: ListSpace>(space: &S, a: NodeId, late_a: u64, b: NodeId, late_b: u64) -> bool
    requires { home (S.homes space.now) b ≡ Some ALL }
    ensures { result ≡ (nat_lt late_b late_a || nat_eq late_b late_a && is_before a b (sequence (S.sequences space.now) ALL)) }
{
    late_b < late_a || late_b == late_a && is_before(space, a, b)
}

/// Whether request `a` was begun before request `b`, which waits: a walk from the second back to the first of all.
pub fn is_before<S: ListSpace>(space: &S, a: NodeId, b: NodeId) -> bool
    requires { home (S.homes space.now) b ≡ Some ALL }
    ensures { result ≡ is_before a b (sequence (S.sequences space.now) ALL) }
{
    let mut next = space.pred(b);
    while let Some(m) = next {
        if m == a {
            return true;
        }
        next = space.pred(m);
    }
    false
}
