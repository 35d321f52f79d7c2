//! The caused software interrupts: a header for each priority, the highest first.
ghost use Rattle.std.specs.Prelude.{◌≡◌, ◌<◌, ◌+◌, drop, length, IfSome, IsSome};
ghost use Rattle.execlist.specs.{Order.first, Lists.home, Lists.part_after};
ghost use Rattle.softint.specs.Interrupts.{IsPriority, header_pri, joined};

use execlist::space::{HeaderId, ListSpace};

/// The number of a software interrupt, from 0, in the order of the list that `Ints::new` is given.
pub type IntId = usize;

/// How many priorities a software interrupt may have.
pub const PRIORITIES: usize = 5;

/// The header of the software interrupts of a priority.
///
/// Source: RKM Libraries, Exec Interrupts: software interrupts.
pub fn header_of(pri: i8) -> HeaderId
    requires { IsPriority pri }
    ensures within { result < 5 }
    ensures same { header_pri result ≡ pri }
{
    match pri {
        32 => 0,
        16 => 1,
        0 => 2,
        -16 => 3,
        _ => 4,
    }
}

/// The first software interrupt of the first header that has one, or none.
///
/// Source: RKM Libraries, Exec Interrupts: software interrupts.
pub fn first_caused<S: ListSpace>(caused: &S) -> Option<IntId>
    requires { length (S.sequences caused.now) ≡ 5 }
    ensures value { result ≡ first (joined (S.sequences caused.now)) }
    ensures home { IfSome result (λ i. IsSome (home (S.homes caused.now) i)) }
{
    for h in 0..PRIORITIES {
        let i = caused.first(h);
        if i.is_some() {
            return i;
        }
    }
    None
}

/// The caused software interrupt that is to run after this one, if this one is caused and not the last.
///
/// Source: RKM Libraries, Exec Interrupts: software interrupts.
pub fn next_caused<S: ListSpace>(caused: &S, i: IntId) -> Option<IntId>
    requires few { length (S.sequences caused.now) ≡ 5 }
    requires known { i < length (S.homes caused.now) }
    ensures { result ≡ first (part_after i (joined (S.sequences caused.now))) }
{
    match caused.home(i) {
        None => None,
        Some(h) => match caused.succ(i) {
            None => first_below(caused, h),
            Some(next) => Some(next),
        },
    }
}

/// The first software interrupt of the first header below this one that has one, or none.
///
/// Source: RKM Libraries, Exec Interrupts: software interrupts.
fn first_below<S: ListSpace>(caused: &S, h: HeaderId) -> Option<IntId>
    requires few { length (S.sequences caused.now) ≡ 5 }
    requires known { h < 5 }
    ensures { result ≡ first (joined (drop (h + 1) (S.sequences caused.now))) }
{
    for k in h + 1..PRIORITIES {
        let i = caused.first(k);
        if i.is_some() {
            return i;
        }
    }
    None
}
