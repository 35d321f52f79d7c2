//! Reading an event text: bytes, cut at line feeds and never decoded.
ghost use Rattle.std.specs.Prelude.{◌≡◌, map, [], IfOk, Ok, Err, MatchResult};
ghost use Rattle.script.specs.{Events.are_within, Sources.requested_source_of};
ghost use Rattle.taskscript.specs.{Events.turns_of, Events.event_of, Events.is_skipped, Events.text_lines, Events.event_faults, Events.events_of, Events.script_of, Events.JudgesLines, declared.fault.EventFault.TheVariants.OutOfMemory};

use crate::fault::EventFault;
use crate::number::decimal_of;
use script::{Event, Events, Source};
use std::alloc::{AllocError, Global};

fn turns_of(digits: &[u8]) -> Option<u32>
    ensures { result ≡ turns_of digits.now }
{
    match decimal_of(digits) {
        None => None,
        Some(n) => {
            if 1 <= n && n <= 1_000_000 {
                Some(n)
            } else {
                None
            }
        }
    }
}

/// The source that an event may request, by its name.
fn requested_source_of(name: &[u8]) -> Option<Source>
    ensures { result ≡ requested_source_of name.now }
{
    if name == b"PORTS".as_slice() {
        Some(Source::Ports)
    } else if name == b"EXTER".as_slice() {
        Some(Source::Exter)
    } else {
        None
    }
}

#[tactic(auto, unfolding(crate::specs::Events::event_of))]
fn event_of(line: &[u8]) -> Option<Event>
    ensures { result ≡ event_of line.now }
{
    if let Some(digits) = line.strip_prefix(b"run ") {
        match turns_of(digits) {
            None => None,
            Some(n) => Some(Event::Run(n)),
        }
    } else if let Some(digits) = line.strip_prefix(b"tick ") {
        match turns_of(digits) {
            None => None,
            Some(n) => Some(Event::Tick(n)),
        }
    } else if let Some(name) = line.strip_prefix(b"irq ") {
        match requested_source_of(name) {
            None => None,
            Some(source) => Some(Event::Irq(source)),
        }
    } else {
        None
    }
}

fn is_skipped(line: &[u8]) -> bool
    ensures { result ≡ is_skipped line.now }
{
    match line {
        [] => true,
        [first, ..] => *first == b'#',
    }
}

fn lines_of(alloc: Global, text: &[u8]) -> Result<Vec<&[u8]>, AllocError>
    ensures { IfOk result (λ v. map (λ l. l.now) v.items ≡ text_lines text.now) }
{
    text.split(|b| *b == 10).collect(alloc)
}

fn are_within(steps: u64, ticks: u64, count: usize) -> bool
    ensures { result ≡ are_within steps ticks count }
{
    steps <= 1_000_000 && ticks <= 1_000_000 && count <= 100_000
}

fn events_of(alloc: Global, lines: &[&[u8]]) -> Result<Events, EventFault>
    ensures { JudgesLines result (event_faults [] (map (λ l. l.now) lines.now)) (λ v. v ≡ events_of (map (λ l. l.now) lines.now)) }
{
    let mut events = Vec::new(alloc);
    let mut steps = 0u64;
    let mut ticks = 0u64;
    for (i, line) in lines.iter().enumerate() {
        if is_skipped(line) {
            continue;
        }
        let event = match event_of(line) {
            None => return Err(EventFault::BadLine(i + 1)),
            Some(event) => event,
        };
        steps += u64::from(event.steps());
        ticks += u64::from(event.ticks());
        if !are_within(steps, ticks, events.len() + 1) {
            return Err(EventFault::TooMany);
        }
        events.push(event)?;
    }
    Ok(Events::new(events))
}

/// Reads an event text.
///
/// Lines end with a line feed; the last one may lack it. An empty line and a line that begins with `#` are skipped,
/// whatever bytes follow. Every other line is `run N` or `tick N`, with one space and N in decimal without leading
/// zeros from 1 to 1000000, or `irq PORTS` or `irq EXTER`.
///
/// # Errors
///
/// The first faulty line decides: `BadLine` if it is not an event, `TooMany` if it takes the sum of the steps or that
/// of the ticks past 1,000,000 or the events past 100,000. `OutOfMemory` may come wherever memory is refused.
///
/// The format is a project rule.
pub fn read_events(alloc: Global, text: &[u8]) -> Result<Events, EventFault>
    ensures { MatchResult result (λ events. script_of text.now ≡ Ok events) (λ f. ¬ (f ≡ OutOfMemory) → script_of text.now ≡ Err f) }
{
    let lines = lines_of(alloc, text)?;
    events_of(alloc, &lines)
}
