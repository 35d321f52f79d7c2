//! The events of a run by the numbers that a log gives to steps, ticks and requests.
ghost use Rattle.std.specs.Prelude.{◌≡◌, ◌≤◌, IfOk, sum_by};
ghost use Rattle.script.specs.Events.{event_ticks};
ghost use Rattle.execlog.specs.Log.{turns};

use script::Event;
use std::alloc::{AllocError, Global};

/// The most steps, ticks and requests of a run: an event text has a million steps, a million ticks and 100,000 events
/// at most.
const MOST_TURNS: u64 = 4_000_000;

/// The most ticks of a run.
const MOST_TICKS: u64 = 1_000_000;

/// How many steps, ticks and requests an event is.
///
/// Source: project rule.
#[tactic(auto, using(crate::proofs::Turns::turns_of_one))]
pub fn turns_of(event: Event) -> u64
    ensures { result ≡ turns event }
{
    match event {
        Event::Run(n) | Event::Tick(n) => u64::from(n),
        Event::Irq(_) => 1,
    }
}

/// How many ticks an event is.
fn ticks_of(event: Event) -> u64
    ensures { result ≡ event_ticks event }
{
    match event {
        Event::Tick(n) => u64::from(n),
        Event::Run(_) | Event::Irq(_) => 0,
    }
}

/// How many steps, ticks and requests some events are: the number of the last one.
///
/// Source: project rule.
pub fn last_number(events: &[Event]) -> u64 {
    let mut number = 0u64;
    for event in events {
        number = number.saturating_add(turns_of(*event));
    }
    number
}

/// An event that is cut off after that many steps or ticks.
fn shortened(event: Event, left: u64) -> Event {
    let most = u32::try_from(left).unwrap_or(u32::MAX);
    match event {
        Event::Run(n) => Event::Run(n.min(most)),
        Event::Tick(n) => Event::Tick(n.min(most)),
        Event::Irq(source) => Event::Irq(source),
    }
}

/// The events up to the step, tick or request of a number; no more than an event text may ask for.
///
/// # Errors
///
/// When memory is refused.
///
/// Source: project rule.
#[tactic(auto, using(crate::proofs::Turns::sum_more))]
pub fn events_up_to(alloc: Global, events: &[Event], number: u64) -> Result<Vec<Event>, AllocError>
    ensures few { IfOk result (λ part. sum_by turns part.items ≤ 4000000) }
    ensures time { IfOk result (λ part. sum_by event_ticks part.items ≤ 1000000) }
{
    let mut part = Vec::new(alloc);
    let mut turns = 0u64;
    let mut ticks = 0u64;
    for event in events {
        let one = shortened(*event, number.saturating_sub(turns));
        let more_turns = turns_of(one);
        let more_ticks = ticks_of(one);
        if turns >= number || turns + more_turns > MOST_TURNS || ticks + more_ticks > MOST_TICKS {
            return Ok(part);
        }
        turns += more_turns;
        ticks += more_ticks;
        part.push(one)?;
    }
    Ok(part)
}

/// The number of the last step, tick or request of each event.
///
/// # Errors
///
/// When memory is refused.
///
/// Source: project rule.
pub fn ends_of(alloc: Global, events: &[Event]) -> Result<Vec<u64>, AllocError> {
    let mut number = 0u64;
    let mut ends = Vec::with_capacity(alloc, events.len())?;
    for event in events {
        number = number.saturating_add(turns_of(*event));
        ends.push(number)?;
    }
    Ok(ends)
}

/// The number from 1 of the event that the step, tick or request of a number is of; 0 for the start.
///
/// Source: project rule.
pub fn event_of(ends: &[u64], number: u64) -> usize {
    if number == 0 {
        return 0;
    }
    let mut low = 0usize;
    let mut size = ends.len();
    for _half in 0..64 {
        if size == 0 {
            return low.saturating_add(1);
        }
        let middle = low.saturating_add(size / 2);
        match ends.get(middle) {
            Some(end) if *end < number => {
                low = middle.saturating_add(1);
                size = size.saturating_sub(size / 2).saturating_sub(1);
            }
            _ => size = size / 2,
        }
    }
    low.saturating_add(1)
}
