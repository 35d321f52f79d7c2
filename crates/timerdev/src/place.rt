//! Where a request goes among those that wait.
ghost use Rattle.std.specs.Prelude.{◌≡◌, ℕ, ◌<◌, length, Some};
ghost use Rattle.std.specs.Option.{ForSome};
ghost use Rattle.execlist.specs.{Order.enqueue, Lists.sequence, Lists.home, Lists.put_after};
ghost use Rattle.timerdev.specs.Held.{Rises, due_at, sooner_of};

use execlist::space::{HeaderId, ListSpace, NodeId};

/// The header of the requests that wait for a time of the clock.
pub const CLOCK: HeaderId = 0;

/// The header of the requests that wait for a system time.
pub const SYSTEM: HeaderId = 1;

/// The only header of the other space: that of all requests that wait.
pub const ALL: HeaderId = 0;

/// The request of a header after which one goes that is due at that time, or none if it goes first: after those that
/// are due by then.
///
/// The requests of the header are by their times. The walk begins at the last of them, since a new request mostly is
/// due last.
pub fn place_after<S: ListSpace>(space: &S, h: HeaderId, dues: &[u64], due: u64) -> Option<NodeId>
    requires header { h < length (S.sequences space.now) }
    requires each { length (S.homes space.now) ≡ length dues.now }
    requires sorted { Rises (due_at dues.now) (sequence (S.sequences space.now) h) }
    ensures home { ForSome result (λ p. home (S.homes space.now) p ≡ Some h) }
    ensures place { (r : ℕ) → due_at dues.now r ≡ due → put_after result r (sequence (S.sequences space.now) h)
        ≡ enqueue (sooner_of dues.now) (sequence (S.sequences space.now) h) r }
{
    let mut after = space.last(h);
    while let Some(m) = after {
        if dues[m] <= due {
            return after;
        }
        after = space.pred(m);
    }
    None
}
