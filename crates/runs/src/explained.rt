//! The sections that explain what may be found: the first texts of each have it, and the second do not.
use crate::tally::Tally;
use execadvice::{Diagnostic, check_events, check_machine};
use explain::{Example, sections};
use runadvice::check_run;
use std::io;

/// Whether something of a rule is among what was found.
fn has_rule(found: &[Diagnostic], rule: &str) -> bool {
    found.iter().any(|one| one.rule == rule)
}

/// Whether something of a rule is found in the texts of an example.
fn shows(rt: &HostRuntime, example: &Example, rule: &str) -> io::Result<bool> {
    let (alloc, machine) = (rt.alloc(), example.machine.as_bytes());
    let of_machine = check_machine(alloc, machine)?;
    let Some(events) = example.events else {
        return Ok(has_rule(&of_machine.found, rule));
    };
    let of_events = check_events(alloc, events.as_bytes())?;
    let of_run = check_run(alloc, machine, events.as_bytes())?;
    Ok(
        has_rule(&of_machine.found, rule)
            || has_rule(&of_events.found, rule)
            || has_rule(&of_run.found, rule),
    )
}

/// Whether the texts of an example have what they are to have. If not, that is printed.
fn is_as_said(
    rt: &HostRuntime,
    name: &str,
    example: &Example,
    has: bool,
    which: &str,
) -> io::Result<bool> {
    if shows(rt, example, name)? == has {
        return Ok(true);
    }
    println!(rt; "{name}: not so in its {which} texts")?;
    Ok(false)
}

/// Compares what is found in the texts of an example, if there is one, with whether they are to have it.
fn compare_example(
    rt: &HostRuntime,
    name: &str,
    example: Option<Example>,
    has: bool,
    which: &str,
) -> io::Result<Tally> {
    match example {
        None => Ok(Tally::none()),
        Some(example) => Ok(Tally::of_one(is_as_said(rt, name, &example, has, which)?)),
    }
}

/// Compares what is found in the texts of each section with what it says of them.
pub(crate) fn compare_sections(rt: &HostRuntime) -> io::Result<Tally> {
    let mut tally = Tally::none();
    for section in &sections(rt.alloc())? {
        let name = section.name;
        let first = compare_example(rt, name, section.shows, true, "first")?;
        let second = compare_example(rt, name, section.mended, false, "second")?;
        tally = tally.with(first).with(second);
    }
    Ok(tally)
}
