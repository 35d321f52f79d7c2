//! The reading of a report.
ghost use Rattle.std.specs.Prelude.{◌≡◌, ◌+◌, ◌<◌, ◌≤◌, ◌^◌, ◌++◌, [], ◌∷◌, ℕ, List, true, All, IfErr, IfOk, IfSome, IsOk, OnOk, Option, codes, decimal, length, map, string_bytes};
ghost use Rattle.std.specs.{List.AllByRecursion, List.list_all, Str.IsUtf8, Str.chars};
ghost use Rattle.script.specs.Events.{turns};
ghost use Rattle.taskscript.specs.declared.fault.EventFault.TheVariants.{OutOfMemory as NoMemory};
ghost use Rattle.ways.specs.Tables.{Entry};
ghost use Rattle.escape.specs.Shown.{is_plain_character};
ghost use Rattle.wayreport.specs.Events.{event_text, listed};
ghost use Rattle.wayreport.specs.Reports.{IsFirst, ReportData, body_of, found_view, head_text, outcomes_text, part_text, program_line, report_view, sealed, text_of, ways_text};
ghost use Rattle.wayreport.specs.Right.{IsRight};
ghost use Rattle.wayreport.specs.declared.reading.ReportFault.TheVariants.{OutOfMemory};
ghost use Rattle.wayreport.specs.Written.{AreLeft, IsAsked, IsBelow, IsLine, IsWritten, IsWrittenEntry, IsWrittenPart, IsWrittenWay, Line, Make, Reads, heading, lacks_again, lacks_mark, line_text, shown, turns_in, with_line, with_seen};

use crate::events::first_text;
use crate::report::{Found, Part, Report};
use crate::right::check_right;
use crate::text::{VERSION, closing_line, report_text};
use escape::is_plain;
use script::{Event, Events};
use std::alloc::{AllocError, AllocFailed, Global};
use taskscript::{EventFault, read_events};
use ways::actions_of;

/// How many actions a way may have: those of the longest event text and a few more.
const MOST_ACTIONS: u64 = 2_100_008;

/// How many bytes a report may have.
pub const REPORT_LIMIT: usize = 268_435_456;

/// What is before the digest in the last line.
const CLOSING: &str = "lines above: SHA-256 ";

/// Why a text is not a report.
#[derive(Clone, Copy)]
pub enum ReportFault {
    /// Memory was refused.
    OutOfMemory,
    /// The text is not what a search prints.
    NotAReport,
    /// The last line is not that of the lines above it: the report was cut off or changed.
    IsChanged,
    /// The report is of another version of the program.
    IsOtherVersion,
    /// The text is longer than `REPORT_LIMIT`.
    TooLong,
}

impl From<AllocError> for ReportFault {
    ghost from_gives = { λ _ fault. fault ≡ OutOfMemory };

    fn from(_error: AllocError) -> ReportFault {
        ReportFault::OutOfMemory
    }
}

impl<T: Drop> From<AllocFailed<T>> for ReportFault {
    ghost from_gives = { λ _ fault. fault ≡ OutOfMemory };

    fn from(_error: AllocFailed<T>) -> ReportFault {
        ReportFault::OutOfMemory
    }
}

/// A number in decimal digits.
fn number_in(text: &str) -> Result<u64, ReportFault>
    ensures { (n : ℕ) → n < 2 ^ 64 → text.now ≡ decimal n → Reads result (λ number. number ≡ n) }
{
    match text.parse::<u64>() {
        Ok(number) => Ok(number),
        Err(_) => Err(ReportFault::NotAReport),
    }
}

/// A number of 32 bits in decimal digits.
fn small_number_in(text: &str) -> Result<u32, ReportFault>
    ensures { (n : ℕ) → n < 2 ^ 32 → text.now ≡ decimal n → Reads result (λ number. number ≡ n) }
{
    match text.parse::<u32>() {
        Ok(number) => Ok(number),
        Err(_) => Err(ReportFault::NotAReport),
    }
}

/// What is before and after the first mark in a text.
fn cut<'a>(text: &'a str, mark: &str) -> Result<(&'a str, &'a str), ReportFault>
    ensures parts { (front back : List ℕ) → lacks_mark mark.now front ≡ true → text.now ≡ front ++ (mark.now ++ back)
        → Reads result (λ parts. (parts.0.now ≡ front) × (parts.1.now ≡ back)) }
    ensures shorter { IfOk result (λ parts. length parts.1.now + length mark.now ≤ length text.now) }
{
    match text.split_once(mark) {
        None => Err(ReportFault::NotAReport),
        Some(parts) => Ok(parts),
    }
}

/// What is after the front of a text.
fn after<'a>(text: &'a str, front: &str) -> Result<&'a str, ReportFault>
    ensures { (rest : List ℕ) → text.now ≡ front.now ++ rest → Reads result (λ found. found.now ≡ rest) }
{
    match text.strip_prefix(front) {
        None => Err(ReportFault::NotAReport),
        Some(rest) => Ok(rest),
    }
}

/// What is between the front of a text and the first mark after it, and what is after the mark.
fn between<'a>(text: &'a str, front: &str, mark: &str) -> Result<(&'a str, &'a str), ReportFault>
    ensures { (inside rest : List ℕ) → lacks_mark mark.now inside ≡ true → text.now ≡ front.now ++ (inside ++ (mark.now ++ rest))
        → Reads result (λ parts. (parts.0.now ≡ inside) × (parts.1.now ≡ rest)) }
{
    cut(after(text, front)?, mark)
}

/// What is before and after the last mark in a text.
fn cut_last<'a>(text: &'a str, mark: &str) -> Result<(&'a str, &'a str), ReportFault>
    ensures { (front back : List ℕ) → lacks_again mark.now back ≡ true → text.now ≡ front ++ (mark.now ++ back)
        → Reads result (λ parts. (parts.0.now ≡ front) × (parts.1.now ≡ back)) }
{
    match text.rsplit_once(mark) {
        None => Err(ReportFault::NotAReport),
        Some(parts) => Ok(parts),
    }
}

/// What is said of the search in the first line, and the number of all ways; the number of outcomes follows.
fn title_in(line: &str) -> Result<(&str, u64), ReportFault>
    ensures { (title : List ℕ) (all outcomes : ℕ) → all < 2 ^ 64 → outcomes < 2 ^ 64
        → line.now ≡ title ++ (codes ": " ++ (ways_text all ++ (codes ", " ++ outcomes_text outcomes)))
        → Reads result (λ read. (read.0.now ≡ title) × (read.1 ≡ all)) }
{
    let (front, _) = cut_last(line, ", ")?;
    let (title, ways) = cut_last(front, ": ")?;
    let (all, _) = cut(ways, " way")?;
    Ok((title, number_in(all)?))
}

/// The part that a line names, as `part 2 of 4: 226 ways`.
fn part_in(line: &str) -> Result<Part, ReportFault>
    ensures { (part : Part) → IsWrittenPart part
        → line.now ≡ codes "part " ++ (decimal part.number ++ (codes " of " ++ (decimal part.of ++ (codes ": " ++ ways_text part.ways))))
        → Reads result (λ read. read ≡ part) }
{
    let (number, rest) = between(line, "part ", " of ")?;
    let (of, rest) = cut(rest, ": ")?;
    let (ways, _) = cut(rest, " way")?;
    Ok(Part {
        number: small_number_in(number)?,
        of: small_number_in(of)?,
        ways: number_in(ways)?,
    })
}

/// The outcome that a line begins, as `outcome 3: 71 ways, first run 1, tick 1`, of which nothing was seen yet.
fn found_on(alloc: Global, line: &str) -> Result<Found, ReportFault>
    ensures { (number count : ℕ) (first : List ℕ) → number < 2 ^ 64 → count < 2 ^ 64 → line.now ≡ line_text (heading number count first)
        → Reads result (λ found. found_view found ≡ record { seen = []; count = count; first = first }) }
{
    let (_, rest) = between(line, "outcome ", ": ")?;
    let (ways, first) = cut(rest, ", first ")?;
    let (count, _) = cut(ways, " way")?;
    Ok(Found {
        seen: Vec::new(alloc),
        count: number_in(count)?,
        first: String::from_str(alloc, first)?,
    })
}

/// Adds a line of what was seen of the last outcome.
fn push_seen(found: &mut Vec<Found>, line: &str) -> Result<(), ReportFault>
    ensures { (text : List ℕ) → 0 < length found.old.items → line.now ≡ line_text (shown text)
        → Reads result (λ _. map found_view found.new.items ≡ with_seen text (map found_view found.old.items)) }
{
    let seen = after(line, "  ")?;
    match found.pop() {
        None => Err(ReportFault::NotAReport),
        Some(mut last) => {
            last.seen.extend_from_slice(seen.as_bytes())?;
            last.seen.push(10)?;
            found.push(last)?;
            Ok(())
        }
    }
}

/// Adds a line after the head.
fn push_line(alloc: Global, found: &mut Vec<Found>, line: &str) -> Result<(), ReportFault>
    ensures { (said : Line) → IsLine said → IsBelow (map found_view found.old.items) said → line.now ≡ line_text said
        → Reads result (λ _. map found_view found.new.items ≡ with_line (map found_view found.old.items) said) }
{
    if line.starts_with("outcome ") {
        found.push(found_on(alloc, line)?)?;
    } else if !line.is_empty() {
        push_seen(found, line)?;
    }
    Ok(())
}

/// The outcomes in the lines after the head.
fn found_in(alloc: Global, text: &str) -> Result<Vec<Found>, ReportFault>
    ensures { (entries : List (Entry (List ℕ))) → Make [] text.now entries → Reads result (λ found. map found_view found.items ≡ entries) }
{
    let mut found = Vec::new(alloc);
    let mut rest = text;
    while !rest.is_empty() {
        let (line, later) = cut(rest, "\n")?;
        push_line(alloc, &mut found, line)?;
        rest = later;
    }
    Ok(found)
}

/// What is in the lines before the outcomes, and what is after them.
#[derive(Clone, Copy)]
struct Head<'a> {
    title: &'a str,
    all: u64,
    part: Option<Part>,
    machine: &'a str,
    events: &'a str,
    see: &'a str,
    alerts: u64,
    after: &'a str,
}

/// The part that the next line names, if it names one, and what is after that line.
fn part_before(text: &str) -> Result<(Option<Part>, &str), ReportFault>
    ensures { (part : Option Part) (later : List ℕ) → IfSome part IsWrittenPart → text.now ≡ part_text part ++ (program_line ++ later)
        → Reads result (λ read. (read.0 ≡ part) × (read.1.now ≡ program_line ++ later)) }
{
    let (line, rest) = cut(text, "\n")?;
    if line.starts_with("part ") {
        Ok((Some(part_in(line)?), rest))
    } else {
        Ok((None, text))
    }
}

/// The lines before the outcomes.
fn head_in(text: &str) -> Result<Head<'_>, ReportFault>
    ensures { (r : ReportData) (later : List ℕ) → IsWritten r → text.now ≡ head_text (length r.entries) r ++ later
        → Reads result (λ head. (head.title.now ≡ r.title) × (head.all ≡ r.all) × (head.part ≡ r.part) × (head.machine.now ≡ r.machine)
        × (head.events.now ≡ r.events) × (head.see.now ≡ r.see) × (head.alerts ≡ r.alerts) × (head.after.now ≡ later)) }
{
    let (line, rest) = cut(text, "\n")?;
    let (title, all) = title_in(line)?;
    let (part, rest) = part_before(rest)?;
    let (version, rest) = between(rest, "program: execexplore ", "\n")?;
    if version != VERSION {
        return Err(ReportFault::IsOtherVersion);
    }
    let (machine, rest) = between(rest, "machine file: SHA-256 ", "\n")?;
    let (events, rest) = between(rest, "event text: SHA-256 ", "\n")?;
    let (see, rest) = between(rest, "seen of a way: ", "\n")?;
    let (alerts, after) = between(rest, "ways that end in an alert: ", "\n")?;
    Ok(Head {
        title,
        all,
        part,
        machine,
        events,
        see,
        alerts: number_in(alerts)?,
        after,
    })
}

/// Whether a last line has this after its front.
fn ends_with_sum(closing: &str, sum: &str) -> bool
    ensures { closing.now ≡ codes "lines above: SHA-256 " ++ sum.now → result ≡ true }
{
    match closing.strip_prefix(CLOSING) {
        None => false,
        Some(digits) => digits == sum,
    }
}

/// The lines above the last one, if that is theirs.
fn lines_above(alloc: Global, text: &str) -> Result<&str, ReportFault>
    ensures { (body : List ℕ) → text.now ≡ sealed body → Reads result (λ above. above.now ≡ body) }
{
    let (above, sum) = cut_last(text, CLOSING)?;
    let closing = closing_line(alloc, above.as_bytes())?;
    if ends_with_sum(closing.as_str(), sum) {
        Ok(above)
    } else {
        Err(ReportFault::IsChanged)
    }
}

/// The report that the lines of a text above its last one have, if it is one.
fn report_in(alloc: Global, text: &str) -> Result<Report, ReportFault>
    ensures { (r : ReportData) → IsWritten r → text.now ≡ body_of r → Reads result (λ report. report_view report ≡ r) }
{
    let head = head_in(text)?;
    Ok(Report {
        title: String::from_str(alloc, head.title)?,
        all: head.all,
        machine: String::from_str(alloc, head.machine)?,
        events: String::from_str(alloc, head.events)?,
        see: String::from_str(alloc, head.see)?,
        part: head.part,
        alerts: head.alerts,
        found: found_in(alloc, head.after)?,
    })
}

/// The event of a list of one.
fn one_of(events: &Events) -> Result<Event, ReportFault>
    ensures { (event : Event) → events.now ≡ event ∷ [] → Reads result (λ read. read ≡ event) }
{
    let list = events.list();
    if list.len() == 1 {
        Ok(list[0])
    } else {
        Err(ReportFault::NotAReport)
    }
}

/// Why the text of an event was refused.
fn event_fault_of(fault: EventFault) -> ReportFault
    ensures { fault ≡ NoMemory → result ≡ OutOfMemory }
{
    match fault {
        EventFault::OutOfMemory => ReportFault::OutOfMemory,
        EventFault::BadLine(_) | EventFault::TooMany => ReportFault::NotAReport,
    }
}

/// The event of a text.
fn event_in(alloc: Global, text: &str) -> Result<Event, ReportFault>
    ensures { (event : Event) → IsAsked event → text.now ≡ event_text event → Reads result (λ read. read ≡ event) }
{
    match read_events(alloc, text.as_bytes()) {
        Ok(events) => one_of(&events),
        Err(fault) => Err(event_fault_of(fault)),
    }
}

/// The number of actions for which an event asks.
fn actions_in(event: Event) -> u64
    ensures { result ≡ turns event }
{
    match event {
        Event::Run(count) | Event::Tick(count) => u64::from(count),
        Event::Irq(_) => 1,
    }
}

/// Adds the event of a text, and returns how many more actions a way may have.
fn push_event(
    alloc: Global,
    events: &mut Vec<Event>,
    left: u64,
    text: &str,
) -> Result<u64, ReportFault>
    ensures { (event : Event) → IsAsked event → turns event ≤ left → text.now ≡ event_text event
        → Reads result (λ less. (less + turns event ≡ left) × (events.new.items ≡ events.old.items ++ event ∷ [])) }
{
    let event = event_in(alloc, text)?;
    match left.checked_sub(actions_in(event)) {
        None => Err(ReportFault::NotAReport),
        Some(less) => {
            events.push(event)?;
            Ok(less)
        }
    }
}

/// Some events in a line, as `run 14, tick 1, irq EXTER`.
fn some_events_in(alloc: Global, text: &str) -> Result<Vec<Event>, ReportFault>
    ensures { (events : List Event) → AreLeft [] text.now 2100008 events → Reads result (λ read. read.items ≡ events) }
{
    let mut events = Vec::new(alloc);
    let mut left = MOST_ACTIONS;
    let mut rest = text;
    while let Some((first, later)) = rest.split_once(", ") {
        left = push_event(alloc, &mut events, left, first)?;
        rest = later;
    }
    push_event(alloc, &mut events, left, rest)?;
    Ok(events)
}

/// The events in a line, if it has any.
fn events_in(alloc: Global, text: &str) -> Result<Vec<Event>, ReportFault>
    ensures { (events : List Event) → AllByRecursion IsAsked events → turns_in events ≤ 2100008 → text.now ≡ listed events
        → Reads result (λ read. read.items ≡ events) }
{
    if text == "no event" {
        Ok(Vec::new(alloc))
    } else {
        some_events_in(alloc, text)
    }
}

/// Refuses a text that is not that of a way.
fn check_first(alloc: Global, text: &str) -> Result<(), ReportFault>
    ensures ok { OnOk result (IsFirst text.now) }
    ensures err { IsWrittenWay text.now → IfErr result (λ fault. fault ≡ OutOfMemory) }
{
    let events = events_in(alloc, text)?;
    let way = actions_of(alloc, &events)?;
    let printed = first_text(alloc, &way)?;
    if printed.as_str() == text {
        Ok(())
    } else {
        Err(ReportFault::NotAReport)
    }
}

/// Refuses outcomes whose first ways are not those of ways.
fn check_firsts(alloc: Global, found: &[Found]) -> Result<(), ReportFault>
    ensures ok { OnOk result (All (λ f. IsFirst (string_bytes f.first)) found.now) }
    ensures err { AllByRecursion IsWrittenEntry (map found_view found.now) → IfErr result (λ fault. fault ≡ OutOfMemory) }
{
    for i in 0..found.len() {
        check_first(alloc, found[i].first.as_str())?;
    }
    Ok(())
}

/// The text of some bytes, if a terminal shows it as it is.
fn plain_text(bytes: &[u8]) -> Result<&str, ReportFault>
    ensures same { IfOk result (λ text. text.now ≡ bytes.now) }
    ensures plain { IfOk result (λ text. list_all is_plain_character (chars text.now) ≡ true) }
    ensures err { IsUtf8 bytes.now → list_all is_plain_character (chars bytes.now) ≡ true → IsOk result }
{
    match std::str::from_utf8(bytes) {
        Ok(text) if is_plain(text) => Ok(text),
        _ => Err(ReportFault::NotAReport),
    }
}

/// Reads a report. What is read prints the same text again, byte for byte, its numbers fit together, each first way is
/// the text of a way, and a terminal shows each character as it is: any other text is refused.
///
/// # Errors
///
/// `TooLong`; `IsChanged` if the last line is not that of the lines above it, `IsOtherVersion`, `NotAReport`, and
/// `OutOfMemory`.
///
/// Source: project rule.
pub fn read_report(alloc: Global, text: &[u8]) -> Result<Report, ReportFault>
    ensures text { IfOk result (λ report. text_of (report_view report) ≡ text.now) }
    ensures right { IfOk result (λ report. IsRight (report_view report)) }
    ensures firsts { IfOk result (λ report. All (λ f. IsFirst (string_bytes f.first)) report.found.items) }
    ensures plain { OnOk result (list_all is_plain_character (chars text.now) ≡ true) }
    // The text of a report that a search writes is read as that report, unless memory is refused.
    ensures written { (r : ReportData) → IsWritten r → text.now ≡ text_of r → Reads result (λ report. report_view report ≡ r) }
{
    if text.len() > REPORT_LIMIT {
        return Err(ReportFault::TooLong);
    }
    let shown = plain_text(text)?;
    let report = report_in(alloc, lines_above(alloc, shown)?)?;
    check_right(alloc, &report)?;
    check_firsts(alloc, &report.found)?;
    let printed = report_text(alloc, &report)?;
    if printed.as_slice() == text {
        Ok(report)
    } else {
        Err(ReportFault::NotAReport)
    }
}
