//! The text of a way: the fewest events that ask for its actions.
ghost use Rattle.std.specs.Prelude.{◌≡◌, ◌++◌, IfOk, OnOk, codes, flat_map, string_bytes};
ghost use Rattle.ways.specs.Grouping.{grouped};
ghost use Rattle.wayreport.specs.Events.{event_line, event_text, listed, marked_event};

use script::Event;
use std::alloc::{AllocError, Global};
use ways::events_for;

/// An event, as an event text has it.
fn event_text(alloc: Global, event: Event) -> Result<String, AllocError>
    ensures { IfOk result (λ text. string_bytes text ≡ event_text event) }
{
    match event {
        Event::Run(steps) => format!(in alloc; "run {steps}"),
        Event::Tick(ticks) => format!(in alloc; "tick {ticks}"),
        Event::Irq(source) => {
            let name = source.text();
            format!(in alloc; "irq {name}")
        }
    }
}

/// Adds an event after a comma.
fn push_marked(alloc: Global, out: &mut String, event: Event) -> Result<(), AllocError>
    ensures { OnOk result (string_bytes out.new ≡ string_bytes out.old ++ marked_event event) }
{
    let text = event_text(alloc, event)?;
    let marked = format!(in alloc; ", {text}")?;
    out.push_str(marked.as_str())
}

/// Adds events, each after a comma.
fn push_rest(alloc: Global, out: &mut String, events: &[Event]) -> Result<(), AllocError>
    ensures { OnOk result (string_bytes out.new ≡ string_bytes out.old ++ flat_map marked_event events.now) }
{
    for event in events {
        push_marked(alloc, out, *event)?;
    }
    Ok(())
}

/// Some events in one line.
fn listed(alloc: Global, events: &[Event]) -> Result<String, AllocError>
    ensures { IfOk result (λ text. string_bytes text ≡ listed events.now) }
{
    match events.split_first() {
        None => format!(in alloc; "no event"),
        Some((first, rest)) => {
            let mut text = event_text(alloc, *first)?;
            push_rest(alloc, &mut text, rest)?;
            Ok(text)
        }
    }
}

/// The text of a way in one line, as `run 14, tick 1, irq EXTER`.
///
/// # Errors
///
/// Memory was refused.
///
/// Source: project rule.
pub fn first_text(alloc: Global, way: &[Event]) -> Result<String, AllocError>
    ensures { IfOk result (λ text. string_bytes text ≡ listed (grouped way.now)) }
{
    let events = events_for(alloc, way)?;
    listed(alloc, events.as_slice())
}

/// Adds an event on a line of its own.
fn push_line(alloc: Global, out: &mut String, event: Event) -> Result<(), AllocError>
    ensures { OnOk result (string_bytes out.new ≡ string_bytes out.old ++ event_line event) }
{
    let text = event_text(alloc, event)?;
    let line = format!(in alloc; "{text}\n")?;
    out.push_str(line.as_str())
}

/// Adds events, each on a line of its own.
fn push_lines(alloc: Global, out: &mut String, events: &[Event]) -> Result<(), AllocError>
    ensures { OnOk result (string_bytes out.new ≡ string_bytes out.old ++ flat_map event_line events.now) }
{
    for event in events {
        push_line(alloc, out, *event)?;
    }
    Ok(())
}

/// A way as an event text, an event a line.
///
/// # Errors
///
/// Memory was refused.
///
/// Source: project rule.
pub fn lines_of(alloc: Global, way: &[Event]) -> Result<String, AllocError>
    ensures { IfOk result (λ text. string_bytes text ≡ flat_map event_line (grouped way.now)) }
{
    let events = events_for(alloc, way)?;
    let mut out = String::new(alloc);
    push_lines(alloc, &mut out, events.as_slice())?;
    Ok(out)
}
