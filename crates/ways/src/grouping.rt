//! The actions that events ask for, and the fewest events that ask for some actions.
ghost use Rattle.std.specs.Prelude.{◌≡◌, ◌+◌, ◌++◌, IfOk, OnOk, replicate};
ghost use Rattle.ways.specs.{Ways.actions, Ways.actions_in, Grouping.Joins, Grouping.grouped, Grouping.joined};

use script::Event;
use std::alloc::{AllocError, Global};

/// Adds an action that many times.
fn push_times(actions: &mut Vec<Event>, action: Event, times: u32) -> Result<(), AllocError>
    ensures { OnOk result (actions.new.items ≡ actions.old.items ++ replicate times action) }
{
    for _ in 0..times {
        actions.push(action)?;
    }
    Ok(())
}

/// Adds the actions of one event.
fn push_actions(actions: &mut Vec<Event>, event: Event) -> Result<(), AllocError>
    ensures { OnOk result (actions.new.items ≡ actions.old.items ++ actions_in event) }
{
    match event {
        Event::Run(steps) => push_times(actions, Event::Run(1), steps),
        Event::Tick(ticks) => push_times(actions, Event::Tick(1), ticks),
        Event::Irq(source) => push_times(actions, Event::Irq(source), 1),
    }
}

/// The actions of some events: each step, each tick and each request by itself.
///
/// # Errors
///
/// Memory was refused.
///
/// Source: project rule.
pub fn actions_of(alloc: Global, events: &[Event]) -> Result<Vec<Event>, AllocError>
    ensures { IfOk result (λ found. found.items ≡ actions events.now) }
{
    let mut found = Vec::new(alloc);
    for event in events {
        push_actions(&mut found, *event)?;
    }
    Ok(found)
}

/// The event that asks for what two ask for, if one can. Memory is refused for more than 32 bits count.
fn both(event: Event, next: Event) -> Result<Option<Event>, AllocError>
    ensures { IfOk result (Joins event next) }
{
    match event {
        Event::Run(n) => match next {
            Event::Run(more) => Ok(Some(Event::Run(sum(n, more)?))),
            Event::Tick(_) | Event::Irq(_) => Ok(None),
        },
        Event::Tick(n) => match next {
            Event::Tick(more) => Ok(Some(Event::Tick(sum(n, more)?))),
            Event::Run(_) | Event::Irq(_) => Ok(None),
        },
        Event::Irq(_) => Ok(None),
    }
}

/// The sum of two numbers of 32 bits.
fn sum(n: u32, more: u32) -> Result<u32, AllocError>
    ensures { IfOk result (λ both. both ≡ n + more) }
{
    match n.checked_add(more) {
        None => Err(AllocError),
        Some(both) => Ok(both),
    }
}

/// Adds the events that ask for an action and the ones after it.
fn push_events(found: &mut Vec<Event>, first: Event, rest: &[Event]) -> Result<(), AllocError>
    ensures { OnOk result (found.new.items ≡ found.old.items ++ joined first (grouped rest.now)) }
{
    let mut event = first;
    for action in rest {
        match both(event, *action)? {
            Some(one) => event = one,
            None => {
                found.push(event)?;
                event = *action;
            }
        }
    }
    found.push(event)?;
    Ok(())
}

/// The events that ask for some actions, as few as can be.
///
/// # Errors
///
/// Memory was refused.
///
/// Source: project rule.
pub fn events_for(alloc: Global, way: &[Event]) -> Result<Vec<Event>, AllocError>
    ensures { IfOk result (λ found. found.items ≡ grouped way.now) }
{
    let mut found = Vec::new(alloc);
    if let Some((first, rest)) = way.split_first() {
        push_events(&mut found, *first, rest)?;
    }
    Ok(found)
}
