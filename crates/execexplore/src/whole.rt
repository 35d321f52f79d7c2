//! The search that a command line asks for, from two texts to the text of its report.
ghost use Rattle.std.specs.Prelude.{◌≡◌, ◌⊎◌, ◌≤◌, IfErr, IfOk, None, length, option_map, string_bytes};
ghost use Rattle.taskscript.specs.{Events.script_of, File.file_of};
ghost use Rattle.ways.specs.{Entries.entries_of, Ways.actions};
ghost use Rattle.wayreport.specs.Reports.{report_view, text_of};
ghost use Rattle.execrun.specs.Texts.{IsTextAt};
ghost use Rattle.execexplore.specs.{Failing.IsOfMachine, Failing.IsOfScript, Failing.IsUnread, Framing.FailsTexts, Framing.FramesTexts, Framing.IsFrameOf, Framing.IsOfFrame, Framing.IsOfSizes, Framing.IsOneOf};
ghost use Rattle.execexplore.specs.Answering.{IsOfSearch, is_mixed, left_in, skip_in};
ghost use Rattle.execexplore.specs.Reporting.{alerts_in, limits_text, names_text, part_in, report_in, report_with, table_in, title_text};

use crate::bounds::{MOST_WAYS, check_ticks, kinds_for, number_of};
use crate::failure::Failure;
use crate::frame::Frame;
use crate::options::{Options, kinds_text};
use crate::stretch::{Stretch, stretch_window};
use escape::Shown;
use execrun::{Texts, read_text};
use script::{Event, Events, MachineFile};
use std::alloc::{AllocError, Global};
use taskscript::{read_events, read_machine};
use wayreport::{Part, Report, digest, found_of, lines_of, report_text};
use wayrun::search;
use ways::{Outcome, Sizes, Watcher, Window, actions_of};

/// The paths of both texts.
#[derive(Clone, Copy)]
pub struct Paths<'a> {
    pub machine: &'a str,
    pub events: &'a str,
}

/// The last part of a path.
fn name_in(path: &str) -> &str {
    match path.rsplit_once("/") {
        None => path,
        Some((_, name)) => name,
    }
}

impl<'a> Paths<'a> {
    /// The names of both files, without their folders: so the parts of a search may be run in different folders.
    pub fn names(self) -> Paths<'a> {
        Paths {
            machine: name_in(self.machine),
            events: name_in(self.events),
        }
    }
}

/// The machine file of a text.
#[tactic(auto, using(crate::proofs::FailLemmas::of_machine_fault))]
fn file_of<'a>(alloc: Global, bytes: &[u8]) -> Result<MachineFile, Failure<'a>>
    ensures file { IfOk result (λ file. file_of bytes.now ≡ Ok file) }
    ensures failure { IfErr result (IsOfMachine bytes.now) }
{
    match read_machine(alloc, bytes) {
        Ok(file) => Ok(file),
        Err(fault) => Err(Failure::of_machine(fault)),
    }
}

/// The events of a text.
#[tactic(auto, using(crate::proofs::FailLemmas::of_script_fault))]
fn events_of<'a>(alloc: Global, bytes: &[u8]) -> Result<Events, Failure<'a>>
    ensures events { IfOk result (λ events. script_of bytes.now ≡ Ok events) }
    ensures failure { IfErr result (IsOfScript bytes.now) }
{
    match read_events(alloc, bytes) {
        Ok(events) => Ok(events),
        Err(fault) => Err(Failure::of_script(fault)),
    }
}

/// The actions of an accepted event text.
#[tactic(auto, using(crate::proofs::FailLemmas::few_actions))]
fn actions_in<'a>(alloc: Global, script: &Events) -> Result<Vec<Event>, Failure<'a>>
    ensures actions { IfOk result (λ found. found.items ≡ actions script.now) }
    ensures few { IfOk result (λ found. length found.items ≤ 2100000) }
    ensures failure { IfErr result (λ failure. failure ≡ Failure.NoMemory) }
{
    match actions_of(alloc, script.list()) {
        Ok(found) => Ok(found),
        Err(_) => Err(Failure::NoMemory),
    }
}

/// How many ways there are, by how many actions and kinds there are.
fn sizes_of<'a>(
    alloc: Global,
    kinds: usize,
    extra: usize,
    actions: usize,
) -> Result<Sizes, Failure<'a>>
    requires most { extra ≤ 8 }
    requires places { actions ≤ 2100000 }
    ensures kinds { IfOk result (λ sizes. sizes.kinds ≡ kinds) }
    ensures most { IfOk result (λ sizes. sizes.most ≡ extra) }
    ensures places { IfOk result (λ sizes. sizes.places ≡ actions) }
    ensures failure { IfErr result IsOfSizes }
{
    match Sizes::new(alloc, kinds, extra, actions) {
        Ok(Some(sizes)) => Ok(sizes),
        Ok(None) => Err(Failure::TooManyWays(None, MOST_WAYS)),
        Err(_) => Err(Failure::NoMemory),
    }
}

/// What is searched, by the bytes of both texts and the options.
///
/// # Errors
///
/// If memory is refused, a text is, the options have a value that they do not take, or there are too many ways.
///
/// Source: project rule.
#[tactic(auto, using(crate::proofs::FailLemmas::by_machine, crate::proofs::FailLemmas::by_script, crate::proofs::FailLemmas::by_kinds, crate::proofs::FailLemmas::by_ticks, crate::proofs::FailLemmas::by_sizes, crate::proofs::FailLemmas::by_ways, crate::proofs::FailLemmas::by_memory))]
pub fn frame_in<'a>(
    alloc: Global,
    machine: &[u8],
    events: &[u8],
    options: &Options<'a>,
) -> Result<Frame, Failure<'a>>
    ensures frame { IfOk result (IsFrameOf machine.now events.now options.now) }
    ensures failure { IfErr result (IsOfFrame machine.now events.now options.now.of) }
{
    let file = file_of(alloc, machine)?;
    let script = events_of(alloc, events)?;
    let actions = actions_in(alloc, &script)?;
    let kinds = kinds_for(alloc, options.of, &file)?;
    check_ticks(&actions, &kinds, options.extra)?;
    let sizes = sizes_of(alloc, kinds.len(), options.extra, actions.len())?;
    let ways = number_of(&sizes, actions.len())?;
    let machine = digest(alloc, machine)?;
    let events = digest(alloc, events)?;
    Ok(Frame {
        file,
        actions,
        kinds,
        sizes,
        ways,
        machine,
        events,
    })
}

/// The bytes of the text at a path.
#[tactic(auto, using(crate::proofs::FailLemmas::unread_text))]
fn text_at<'a, T: Texts>(texts: &T, alloc: Global, path: &'a str) -> Result<Vec<u8>, Failure<'a>>
    ensures bytes { IfOk result (λ bytes. IsTextAt (T.text_at texts.now) path.now bytes.items) }
    ensures failure { IfErr result (IsUnread (λ other. other ≡ path.entry)) }
{
    match read_text(texts, alloc, path) {
        Ok(bytes) => Ok(bytes),
        Err(fault) => Err(Failure::of_text(path, fault)),
    }
}

/// What is searched, by the texts at both paths and the options. Nothing is judged before both are read.
///
/// # Errors
///
/// If memory is refused or a text cannot be read, and as those of `frame_in`.
///
/// Source: project rule.
#[tactic(auto, using(crate::proofs::FailLemmas::unread_machine, crate::proofs::FailLemmas::unread_events))]
pub fn frame_of<'a, T: Texts>(
    texts: &T,
    alloc: Global,
    paths: Paths<'a>,
    options: &Options<'a>,
) -> Result<Frame, Failure<'a>>
    ensures frame { IfOk result (FramesTexts (T.text_at texts.now) paths.entry options.now) }
    ensures failure { IfErr result (λ why. IsUnread (IsOneOf paths.entry) why ⊎ FailsTexts (T.text_at texts.now) paths.entry options.now.of why) }
{
    let machine = text_at(texts, alloc, paths.machine)?;
    let events = text_at(texts, alloc, paths.events)?;
    frame_in(alloc, &machine, &events, options)
}

/// The ways that are searched.
///
/// Source: project rule.
pub fn window_of(frame: &Frame, options: &Options<'_>) -> Window
    ensures skip { result.skip ≡ skip_in frame.now options.now.part }
    ensures left { result.left ≡ left_in frame.now options.now.part }
{
    match options.part {
        None => Window {
            skip: 0,
            left: frame.ways,
        },
        Some(stretch) => stretch_window(frame.ways, stretch),
    }
}

/// The names of both files, as they are shown.
fn names_text(alloc: Global, names: Paths<'_>) -> Result<String, AllocError>
    ensures { IfOk result (λ text. string_bytes text ≡ names_text names.entry) }
{
    let machine = Shown(names.machine);
    let events = Shown(names.events);
    format!(in alloc; "{machine}, {events}: ")
}

/// The number of actions, and that of extras.
fn limits_text(alloc: Global, actions: usize, extra: usize) -> Result<String, AllocError>
    ensures { IfOk result (λ text. string_bytes text ≡ limits_text actions extra) }
{
    format!(in alloc; "{actions} actions, at most {extra} more of ")
}

/// What a report says of what was searched.
fn title_of(alloc: Global, names: Paths<'_>, frame: &Frame) -> Result<String, AllocError>
    ensures { IfOk result (λ text. string_bytes text ≡ title_text names.entry frame.now.sizes.most frame.now) }
{
    let mut text = names_text(alloc, names)?;
    let limits = limits_text(alloc, frame.actions.len(), frame.sizes.most)?;
    text.push_str(limits.as_str())?;
    let kinds = kinds_text(alloc, &frame.kinds)?;
    text.push_str(kinds.as_str())?;
    Ok(text)
}

/// A copy of a text.
fn owned(alloc: Global, text: &str) -> Result<String, AllocError>
    ensures { IfOk result (λ copy. string_bytes copy ≡ text.now) }
{
    let mut copy = String::new(alloc);
    copy.push_str(text)?;
    Ok(copy)
}

/// The part that a report is of.
fn part_of(stretch: Option<Stretch>, window: Window) -> Option<Part>
    ensures { result ≡ option_map (λ s. part_in s window) stretch }
{
    match stretch {
        None => None,
        Some(stretch) => Some(Part {
            number: stretch.number,
            of: stretch.of,
            ways: window.left,
        }),
    }
}

/// The report of what a search found.
fn report_of(
    alloc: Global,
    names: Paths<'_>,
    options: &Options<'_>,
    frame: &Frame,
    window: Window,
    outcomes: &[Outcome],
    alerts: u64,
) -> Result<Report, AllocError>
    ensures { IfOk result (λ report. report_view report ≡ report_with names.entry options.now.see options.now.part frame.now window alerts (entries_of outcomes.now)) }
{
    Ok(Report {
        title: title_of(alloc, names, frame)?,
        all: frame.ways,
        machine: owned(alloc, frame.machine.as_str())?,
        events: owned(alloc, frame.events.as_str())?,
        see: owned(alloc, options.see.text())?,
        part: part_of(options.part, window),
        alerts,
        found: found_of(alloc, outcomes)?,
    })
}

/// The events of the first way of the outcome of a number, or none if there are fewer.
fn events_text(
    alloc: Global,
    outcomes: &[Outcome],
    number: u64,
) -> Result<Option<String>, AllocError> {
    if number == 0 || number > outcomes.len() as u64 {
        return Ok(None);
    }
    Ok(Some(lines_of(alloc, &outcomes[number as usize - 1].first)?))
}

/// What a search prints, and whether it found more than one outcome, or an alert.
#[derive(Drop)]
pub struct Answer {
    pub text: Vec<u8>,
    pub is_mixed: bool,
}

/// The text of the report of what a search found.
fn reported(
    alloc: Global,
    names: Paths<'_>,
    options: &Options<'_>,
    frame: &Frame,
    window: Window,
    outcomes: &[Outcome],
    alerts: u64,
) -> Result<Vec<u8>, AllocError>
    ensures { IfOk result (λ text. text.items ≡ text_of (report_with names.entry options.now.see options.now.part frame.now window alerts (entries_of outcomes.now))) }
{
    let report = report_of(alloc, names, options, frame, window, outcomes, alerts)?;
    let text = report_text(alloc, &report)?;
    Ok(text)
}

/// The events of the first way of the outcome that is asked for, as an event text.
fn events_wanted<'a>(
    alloc: Global,
    outcomes: &[Outcome],
    number: u64,
) -> Result<Vec<u8>, Failure<'a>>
    ensures { IfErr result IsOfSearch }
{
    match events_text(alloc, outcomes, number) {
        Err(_) => Err(Failure::NoMemory),
        Ok(None) => Err(Failure::NoOutcome(number, outcomes.len())),
        Ok(Some(text)) => Ok(text.into_bytes()),
    }
}

/// Whether there are several outcomes, or an alert.
fn is_mixed(outcomes: &[Outcome], alerts: u64) -> bool
    ensures { result ≡ is_mixed (length outcomes.now) alerts }
{
    outcomes.len() > 1 || alerts > 0
}

/// Makes a search of some ways, and answers what is printed: the text of the report, or the events that are asked for.
///
/// # Errors
///
/// As those of `search`; `NoOutcome` if there are fewer outcomes.
///
/// Source: project rule.
#[tactic(auto, using(crate::proofs::SearchLemmas::by_fault, crate::proofs::SearchLemmas::by_memory))]
pub fn searched<'a, P: Watcher + Drop>(
    alloc: Global,
    names: Paths<'a>,
    options: &Options<'a>,
    frame: &Frame,
    window: Window,
    watcher: P,
) -> Result<Answer, Failure<'a>>
    ensures text { IfOk result (λ answer. options.now.events ≡ None
        → answer.text.items ≡ text_of (report_in names.entry options.now.see options.now.part frame.now window)) }
    ensures mixed { IfOk result (λ answer. answer.is_mixed ≡ is_mixed (length (table_in options.now.see frame.now window)) (alerts_in frame.now window)) }
    ensures failure { IfErr result IsOfSearch }
{
    let found = search(
        alloc,
        &frame.file,
        options.see,
        watcher,
        &frame.sizes,
        &frame.kinds,
        &frame.actions,
        window,
    )?;
    let alerts = found.alerts();
    let outcomes = found.into_outcomes()?;
    let text = match options.events {
        None => reported(alloc, names, options, frame, window, &outcomes, alerts)?,
        Some(number) => events_wanted(alloc, &outcomes, number)?,
    };
    let mixed = is_mixed(&outcomes, alerts);
    Ok(Answer {
        text,
        is_mixed: mixed,
    })
}
