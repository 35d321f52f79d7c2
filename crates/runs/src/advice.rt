//! Tables of mistakes: texts that are checked, each with the answer that the checker has to give. A table has machine
//! files, `NAME.machines`, event texts, `NAME.events`, or both texts of a run, `NAME.endings`. It begins with a
//! comment, and then has for each text, after an empty line,
//!
//! ```text
//! == what is wrong
//! the text
//! -- status 0, 1 or 3
//! the answer
//! ```
//!
//! The texts of a run are one after the other, with the line `-- events` between them.
use crate::tally::Tally;
use execadvice::{Diagnostic, Look, are_grave, check_events, check_machine, rendered};
use runadvice::check_run;
use std::io;

/// The path that is before the places of each text.
const PATH: &str = "text";

/// A text and the answer that is wanted.
#[derive(Clone, Copy)]
struct Case<'a> {
    name: &'a str,
    text: &'a str,
    status: &'a str,
    answer: &'a str,
}

/// The case of a text that begins after `== `, or none if it does not have its form.
fn case_of(text: &str) -> Option<Case<'_>> {
    let (name, rest) = text.split_once("\n")?;
    let (text, rest) = rest.split_once("-- status ")?;
    let (status, answer) = rest.split_once("\n")?;
    Some(Case {
        name,
        text,
        status,
        answer,
    })
}

/// The status of what was found in a text.
fn status_of(is_refused: bool, found: &[Diagnostic]) -> &'static str {
    if is_refused {
        "1"
    } else if are_grave(found) {
        "3"
    } else {
        "0"
    }
}

/// What was found in the text of a case of a table, and whether the text is refused.
fn found_in(rt: &HostRuntime, table: &str, text: &str) -> io::Result<(bool, Vec<Diagnostic>)> {
    let alloc = rt.alloc();
    if table.ends_with(".endings") {
        let (machine, events) = text.split_once("-- events\n").unwrap_or((text, ""));
        let report = check_run(alloc, machine.as_bytes(), events.as_bytes())?;
        return Ok((false, report.found));
    }
    if table.ends_with(".events") {
        let finding = check_events(alloc, text.as_bytes())?;
        return Ok((finding.fault.is_some(), finding.found));
    }
    let finding = check_machine(alloc, text.as_bytes())?;
    Ok((finding.fault.is_some(), finding.found))
}

/// Whether the answer to a text is as it is wanted. If it is not, it is printed.
fn is_as_wanted(rt: &HostRuntime, table: &str, case: &Case<'_>) -> io::Result<bool> {
    let (is_refused, found) = found_in(rt, table, case.text)?;
    let status = status_of(is_refused, &found);
    let answer = rendered(rt.alloc(), PATH, &found, Look::PLAIN)?;
    let answer = answer.as_str();
    if status == case.status && answer == case.answer {
        return Ok(true);
    }
    let name = case.name;
    println!(rt; "{table}: {name}: the answer differs, status {status}:")?;
    println!(rt; "{answer}")?;
    Ok(false)
}

/// Compares each answer of a table's text. An entry without the form of one counts as one that differs.
pub(crate) fn compare_answers(rt: &HostRuntime, table: &str, text: &str) -> io::Result<Tally> {
    let mut tally = Tally::none();
    for text in text.split("\n== ").skip(1) {
        let same = match case_of(text) {
            Some(case) => is_as_wanted(rt, table, &case)?,
            None => {
                let name = text.lines().next().unwrap_or("");
                println!(rt; "{table}: {name}: not the form of a text and its answer")?;
                false
            }
        };
        tally = tally.with(Tally::of_one(same));
    }
    Ok(tally)
}
