//! A table of runs: a text that begins with a comment, and then has for each run, after an empty line,
//!
//! ```text
//! == what the run shows
//! the machine file
//! -- events
//! the event text
//! -- status 0, 1 or 3
//! the trace, or the line of the fault
//! -- cases
//! a part of the texts => a part of what is written
//! ```
//!
//! The last section may lack. Where it is, the run is made once with each of its lines: the machine file or the event
//! text has `{}` at the place of the line's first part, and what is written has it at that of the second, or has no
//! place.
use crate::case::{Case, compare_run};
use crate::tally::Tally;
use std::alloc::{AllocError, Global};
use std::io;

/// The run of an entry without its cases, and its cases, a line for each.
#[derive(Clone, Copy)]
struct Entry<'a> {
    case: Case<'a>,
    cases: Option<&'a str>,
}

/// The status that the program ends with over two texts that memory suffices for.
fn status_of(text: &str) -> Option<u8> {
    match text {
        "0" => Some(0),
        "1" => Some(1),
        "3" => Some(3),
        _ => None,
    }
}

/// The entry of a text that begins after `== `, or none if it does not have its form.
fn entry_of<'a>(text: &'a str) -> Option<Entry<'a>> {
    let (name, rest) = text.split_once("\n")?;
    let (machine, rest) = rest.split_once("-- events\n")?;
    let (events, rest) = rest.split_once("-- status ")?;
    let (status, rest) = rest.split_once("\n")?;
    let (written, cases) = match rest.split_once("-- cases\n") {
        Some((written, cases)) => (written, Some(cases)),
        None => (rest, None),
    };
    let case = Case {
        name,
        machine,
        events,
        status: status_of(status)?,
        written,
    };
    Some(Entry { case, cases })
}

/// The text with a part at its place `{}`, or none if it has no place.
fn filled(alloc: Global, text: &str, part: &str) -> Result<Option<String>, AllocError> {
    match text.split_once("{}") {
        Some((before, after)) => Ok(Some(format!(in alloc; "{before}{part}{after}")?)),
        None => Ok(None),
    }
}

/// The filled text, or the text that had no place.
fn either<'a>(filled: &'a Option<String>, text: &'a str) -> &'a str {
    match filled {
        Some(filled) => filled.as_str(),
        None => text,
    }
}

/// Compares the run of an entry with the parts of one line of its cases.
fn compare_case(rt: &HostRuntime, table: &str, case: &Case<'_>, line: &str) -> io::Result<Tally> {
    let (part, shown) = line.split_once(" => ").unwrap_or((line, ""));
    let machine = filled(rt.alloc(), case.machine, part)?;
    let events = filled(rt.alloc(), case.events, part)?;
    let written = filled(rt.alloc(), case.written, shown)?;
    if machine.is_none() && events.is_none() {
        let name = case.name;
        println!(rt; "{table}: {name}: neither text has a place for a case")?;
        return Ok(Tally::of_one(false));
    }
    let case = Case {
        name: case.name,
        machine: either(&machine, case.machine),
        events: either(&events, case.events),
        status: case.status,
        written: either(&written, case.written),
    };
    let compared = compare_run(rt, table, &case)?;
    if compared.differing != 0 {
        println!(rt; "  in the case: {line}")?;
    }
    Ok(compared)
}

/// Compares the runs of an entry.
fn compare_entry(rt: &HostRuntime, table: &str, entry: &Entry<'_>) -> io::Result<Tally> {
    let Some(cases) = entry.cases else {
        return compare_run(rt, table, &entry.case);
    };
    let mut tally = Tally::none();
    for line in cases.lines() {
        tally = tally.with(compare_case(rt, table, &entry.case, line)?);
    }
    Ok(tally)
}

/// Compares each run of a table's text. An entry without the form of one is reported, and counts as a run that differs.
///
/// # Errors
///
/// If memory is refused, or standard output does not take what is printed.
pub fn compare_table(rt: &HostRuntime, table: &str, text: &str) -> io::Result<Tally> {
    let mut tally = Tally::none();
    for text in text.split("\n== ").skip(1) {
        let compared = match entry_of(text) {
            Some(entry) => compare_entry(rt, table, &entry)?,
            None => {
                let name = text.lines().next().unwrap_or("");
                println!(rt; "{table}: {name}: not the form of a run")?;
                Tally::of_one(false)
            }
        };
        tally = tally.with(compared);
    }
    Ok(tally)
}
