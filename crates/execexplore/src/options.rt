//! What the options of a command line ask for.
ghost use Rattle.std.specs.Prelude.{◌≡◌, ◌≤◌, ◌++◌, IfOk, IfSome, OnOk, Some, flat_map, string_bytes};
ghost use Rattle.std.specs.List.{list_any};
ghost use Rattle.execexplore.specs.Kinds.{is_exter, is_ports, is_served, kinds_served, request_if};
ghost use Rattle.execexplore.specs.Reporting.{kind_text, kinds_text, marked_kind};

use crate::stretch::Stretch;
use script::{Event, MachineFile, ServerRecord, Source};
use std::alloc::{AllocError, Global};
use wayrun::See;

/// How many extras a way may have.
pub const MOST_EXTRAS: usize = 8;

/// What the options of a search ask for.
#[derive(Clone, Copy)]
pub struct Options<'a> {
    /// How many extras a way has at most, at most `MOST_EXTRAS`.
    pub extra: usize,
    ghost few: { extra ≤ 8 },
    /// The kinds of the extras, as they are listed; none for those that the machine file serves.
    pub of: Option<&'a str>,
    /// What is seen.
    pub see: See,
    /// The part, if not all ways are searched.
    pub part: Option<Stretch>,
    /// The outcome of which only the events are printed, from 1.
    pub events: Option<u64>,
    /// Whether a long search reports.
    pub progress: bool,
}

impl<'a> Options<'a> {
    /// The same options for a part of the ways.
    pub(crate) fn of_part(&self, part: Stretch) -> Options<'a>
        ensures see { result.see ≡ self.now.see }
        ensures part { result.part ≡ Some part }
        ensures events { result.events ≡ self.now.events }
    {
        Options {
            extra: self.extra,
            of: self.of,
            see: self.see,
            part: Some(part),
            events: self.events,
            progress: self.progress,
        }
    }
}

/// The number of outcomes that a word gives, from 1.
pub fn outcome_number(word: &str) -> Option<u64>
    ensures { IfSome result (λ number. 1 ≤ number) }
{
    match word.parse::<u64>() {
        Ok(number) if number >= 1 => Some(number),
        _ => None,
    }
}

/// The number of extras that a word gives.
pub fn extras_in(word: &str) -> Option<usize>
    ensures { IfSome result (λ number. number ≤ 8) }
{
    let Ok(number) = word.parse::<usize>() else {
        return None;
    };
    if number <= MOST_EXTRAS {
        Some(number)
    } else {
        None
    }
}

/// The kind of extra that a word names.
fn kind_named(word: &str) -> Option<Event> {
    match word {
        "tick" => Some(Event::Tick(1)),
        "PORTS" => Some(Event::Irq(Source::Ports)),
        "EXTER" => Some(Event::Irq(Source::Exter)),
        _ => None,
    }
}

/// The word for a kind of extra.
pub fn kind_text(kind: Event) -> &'static str
    ensures { result.now ≡ kind_text kind }
{
    match kind {
        Event::Irq(source) => source.text(),
        Event::Run(_) | Event::Tick(_) => "tick",
    }
}

/// Some kinds, if their text is a list.
fn kinds_if_listed(
    alloc: Global,
    kinds: Vec<Event>,
    list: &str,
) -> Result<Option<Vec<Event>>, AllocError>
    ensures { IfOk result (λ found. IfSome found (λ kinds. kinds_text kinds.items ≡ list.now)) }
{
    let text = kinds_text(alloc, &kinds)?;
    if text.as_str().as_bytes() == list.as_bytes() {
        Ok(Some(kinds))
    } else {
        Ok(None)
    }
}

/// The kinds that a list names, or none if it names something else, or one twice.
pub fn kinds_listed(alloc: Global, list: &str) -> Result<Option<Vec<Event>>, AllocError>
    ensures { IfOk result (λ found. IfSome found (λ kinds. kinds_text kinds.items ≡ list.now)) }
{
    let mut kinds = Vec::new(alloc);
    for word in list.split(',') {
        let Some(kind) = kind_named(word) else {
            return Ok(None);
        };
        if kinds.contains(&kind) {
            return Ok(None);
        }
        kinds.push(kind)?;
    }
    kinds_if_listed(alloc, kinds, list)
}

/// Whether a source is PORTS.
fn is_ports(source: Source) -> bool
    ensures { result ≡ is_ports source }
{
    match source {
        Source::Ports => true,
        Source::Vertb | Source::Exter => false,
    }
}

/// Whether a source is EXTER.
fn is_exter(source: Source) -> bool
    ensures { result ≡ is_exter source }
{
    match source {
        Source::Exter => true,
        Source::Ports | Source::Vertb => false,
    }
}

/// Whether one of some servers serves PORTS.
fn has_ports(servers: &[ServerRecord]) -> bool
    ensures { result ≡ list_any (λ s. is_ports s.source) servers.now }
{
    servers.iter().any(|server| is_ports(server.source))
}

/// Whether one of some servers serves EXTER.
fn has_exter(servers: &[ServerRecord]) -> bool
    ensures { result ≡ list_any (λ s. is_exter s.source) servers.now }
{
    servers.iter().any(|server| is_exter(server.source))
}

/// Whether a server of the file serves PORTS.
fn serves_ports(file: &MachineFile) -> bool
    ensures { result ≡ is_served is_ports file.now.servers }
{
    has_ports(file.servers())
}

/// Whether a server of the file serves EXTER.
fn serves_exter(file: &MachineFile) -> bool
    ensures { result ≡ is_served is_exter file.now.servers }
{
    has_exter(file.servers())
}

/// Adds a request by a source, if it is served.
fn push_request(kinds: &mut Vec<Event>, is_served: bool, source: Source) -> Result<(), AllocError>
    ensures { OnOk result (kinds.new.items ≡ kinds.old.items ++ request_if is_served source) }
{
    if is_served {
        kinds.push(Event::Irq(source))?;
    }
    Ok(())
}

/// The kinds of a machine file: ticks, and each source that a server serves and an event may request.
pub fn kinds_served(alloc: Global, file: &MachineFile) -> Result<Vec<Event>, AllocError>
    ensures { IfOk result (λ kinds. kinds.items ≡ kinds_served file.now.servers) }
{
    let mut kinds = Vec::new(alloc);
    kinds.push(Event::Tick(1))?;
    push_request(&mut kinds, serves_ports(file), Source::Ports)?;
    push_request(&mut kinds, serves_exter(file), Source::Exter)?;
    Ok(kinds)
}

/// Adds a kind after a comma.
fn push_kind(alloc: Global, out: &mut String, kind: Event) -> Result<(), AllocError>
    ensures { OnOk result (string_bytes out.new ≡ string_bytes out.old ++ marked_kind kind) }
{
    let text = kind_text(kind);
    let marked = format!(in alloc; ",{text}")?;
    out.push_str(marked.as_str())
}

/// Adds kinds, each after a comma.
fn push_kinds(alloc: Global, out: &mut String, kinds: &[Event]) -> Result<(), AllocError>
    ensures { OnOk result (string_bytes out.new ≡ string_bytes out.old ++ flat_map marked_kind kinds.now) }
{
    for kind in kinds {
        push_kind(alloc, out, *kind)?;
    }
    Ok(())
}

/// The words for some kinds, with commas between.
pub fn kinds_text(alloc: Global, kinds: &[Event]) -> Result<String, AllocError>
    ensures { IfOk result (λ text. string_bytes text ≡ kinds_text kinds.now) }
{
    let mut text = String::new(alloc);
    if let Some((first, rest)) = kinds.split_first() {
        text.push_str(kind_text(*first))?;
        push_kinds(alloc, &mut text, rest)?;
    }
    Ok(text)
}
