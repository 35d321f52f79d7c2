//! What bounds a search: the kinds of extras, the ticks of a way and the number of ways.
ghost use Rattle.std.specs.Prelude.{◌≡◌, ◌≤◌, ◌+◌, ◌-◌, ◌^◌, min, IfErr, IfOk, OnOk, sum_by};
ghost use Rattle.std.specs.List.{list_any};
ghost use Rattle.script.specs.Events.{event_ticks};
ghost use Rattle.ways.specs.Ways.{count_all};
ghost use Rattle.execexplore.specs.{Framing.IsOfTicks, Framing.IsOfWays, Framing.is_tick, Framing.most_ticks, Kinds.AreKindsFor, Kinds.IsOfKinds};

use crate::failure::Failure;
use crate::options::{kinds_listed, kinds_served};
use script::{Event, MachineFile};
use std::alloc::Global;
use ways::Sizes;

/// How many ways are tried at most.
pub const MOST_WAYS: u64 = 1_099_511_627_776;

/// How many ticks a way may have.
const MOST_TICKS: u64 = 1_000_000;

/// The kinds of extras that are asked for, or those of the machine file.
///
/// # Errors
///
/// `NoMemory` if memory is refused, and `Option` if the list names something else, or one twice.
///
/// Source: project rule.
pub fn kinds_for<'a>(
    alloc: Global,
    of: Option<&str>,
    file: &MachineFile,
) -> Result<Vec<Event>, Failure<'a>>
    ensures kinds { IfOk result (λ kinds. AreKindsFor of.entry file.now kinds.items) }
    ensures failure { IfErr result (IsOfKinds of.entry) }
{
    match of {
        None => match kinds_served(alloc, file) {
            Ok(kinds) => Ok(kinds),
            Err(_) => Err(Failure::NoMemory),
        },
        Some(list) => match kinds_listed(alloc, list) {
            Ok(Some(kinds)) => Ok(kinds),
            Ok(None) => Err(Failure::Option(
                "--of takes tick, PORTS and EXTER, each at most once, with commas between",
            )),
            Err(_) => Err(Failure::NoMemory),
        },
    }
}

/// The number of ticks of some actions and of that many more, as far as 64 bits have it.
#[tactic(auto, using(crate::proofs::TickLemmas::one_more))]
fn ticks_with(actions: &[Event], more: u64) -> u64
    ensures { result ≡ min (sum_by event_ticks actions.now + more) (2 ^ 64 - 1) }
{
    let mut ticks = more;
    for action in actions {
        ticks = ticks.saturating_add(action.ticks() as u64);
    }
    ticks
}

/// Whether extras of a kind are ticks.
fn is_tick(kind: Event) -> bool
    ensures { result ≡ is_tick kind }
{
    match kind {
        Event::Tick(_) => true,
        Event::Run(_) | Event::Irq(_) => false,
    }
}

/// Whether ticks are one of some kinds.
fn has_ticks(kinds: &[Event]) -> bool
    ensures { result ≡ list_any is_tick kinds.now }
{
    kinds.iter().any(|kind| is_tick(*kind))
}

/// Refuses a search that has ways with too many ticks.
///
/// # Errors
///
/// `TooManyTicks`, with the number of ticks that a way has at most.
///
/// Source: project rule.
pub fn check_ticks<'a>(actions: &[Event], kinds: &[Event], extra: usize) -> Result<(), Failure<'a>>
    ensures few { OnOk result (most_ticks kinds.now extra actions.now ≤ 1000000) }
    ensures many { IfErr result (IsOfTicks (most_ticks kinds.now extra actions.now)) }
{
    let more = if has_ticks(kinds) { extra as u64 } else { 0 };
    let ticks = ticks_with(actions, more);
    if ticks > MOST_TICKS {
        Err(Failure::TooManyTicks(ticks))
    } else {
        Ok(())
    }
}

/// The number of all ways.
pub fn number_of<'a>(sizes: &Sizes, actions: usize) -> Result<u64, Failure<'a>>
    requires { actions ≤ sizes.now.places }
    ensures number { IfOk result (λ ways. ways ≡ count_all sizes.now.kinds sizes.now.most actions) }
    ensures few { IfOk result (λ ways. ways ≤ 1099511627776) }
    ensures many { IfErr result (IsOfWays (count_all sizes.now.kinds sizes.now.most actions)) }
{
    match sizes.all(actions) {
        None => Err(Failure::TooManyWays(None, MOST_WAYS)),
        Some(ways) if ways > MOST_WAYS => Err(Failure::TooManyWays(Some(ways), MOST_WAYS)),
        Some(ways) => Ok(ways),
    }
}
