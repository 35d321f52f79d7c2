//! The kinds of events that lists are made of.
use script::{Event, MachineFile, Source};
use std::alloc::{AllocError, Global};

/// The kind of event that a word names.
fn kind_named(word: &str) -> Option<Event> {
    match word {
        "tick" => Some(Event::Tick(1)),
        "PORTS" => Some(Event::Irq(Source::Ports)),
        "EXTER" => Some(Event::Irq(Source::Exter)),
        _ => None,
    }
}

/// A step, and the kinds that a list names, or none if it names something else, or one twice.
pub(crate) fn kinds_listed(alloc: Global, list: &str) -> Result<Option<Vec<Event>>, AllocError> {
    let mut kinds = Vec::new(alloc);
    kinds.push(Event::Run(1))?;
    for word in list.split(',') {
        let Some(kind) = kind_named(word) else {
            return Ok(None);
        };
        if kinds.contains(&kind) {
            return Ok(None);
        }
        kinds.push(kind)?;
    }
    Ok(Some(kinds))
}

/// Whether a server of the file serves a source.
fn is_served(file: &MachineFile, source: Source) -> bool {
    file.servers().iter().any(|server| server.source == source)
}

/// The kinds of a machine file: a step, a tick, and each source that a server serves and an event may request.
pub(crate) fn kinds_served(alloc: Global, file: &MachineFile) -> Result<Vec<Event>, AllocError> {
    let mut kinds = Vec::new(alloc);
    kinds.push(Event::Run(1))?;
    kinds.push(Event::Tick(1))?;
    if is_served(file, Source::Ports) {
        kinds.push(Event::Irq(Source::Ports))?;
    }
    if is_served(file, Source::Exter) {
        kinds.push(Event::Irq(Source::Exter))?;
    }
    Ok(kinds)
}
