//! Makes whole runs of the simulator and whole answers of the checker, and compares each with what is in its data.
//!
//! Each argument is a table of runs, `NAME.runs`, a table of mistakes, `NAME.machines`, `NAME.events` or
//! `NAME.endings`, or an example, of which `NAME.toml`, `NAME.events` and `NAME.trace` are beside each other;
//! `sections` is what `execcheck --explain` prints.
//!
//! Where the first argument is `allocate`, it makes a part of a machine instead, or a machine, whose allocations are to
//! be refused. If it is `words`, it prints what a line may have beside each word that the other arguments name.
#![tactic(auto)]

mod advice;
mod allocations;
mod case;
mod explained;
mod outcome;
mod part;
mod run;
mod table;
mod tally;
mod unmade;
mod words;

use crate::advice::compare_answers;
use crate::case::{Case, compare_run};
use crate::explained::compare_sections;
use crate::table::compare_table;
use crate::tally::Tally;
use std::process::ExitCode;
use std::{env, fs, io};

/// The text of the file of an example that has this ending.
fn read(rt: &HostRuntime, name: &str, ending: &str) -> io::Result<String> {
    let path = format!(in rt.alloc(); "{name}.{ending}")?;
    fs::read_to_string(rt, path.as_str())
}

/// Compares the run of an example with its trace.
fn compare_example(rt: &HostRuntime, name: &str) -> io::Result<Tally> {
    let machine = read(rt, name, "toml")?;
    let events = read(rt, name, "events")?;
    let trace = read(rt, name, "trace")?;
    let case = Case {
        name: "its trace",
        machine: machine.as_str(),
        events: events.as_str(),
        // An alert is never the first line, and nothing comes after it.
        status: if trace.as_str().contains("\nalert ") {
            3
        } else {
            0
        },
        written: trace.as_str(),
    };
    compare_run(rt, name, &case)
}

/// Compares what an argument names.
fn compare(rt: &HostRuntime, name: &str) -> io::Result<Tally> {
    if name.ends_with(".runs") {
        let text = fs::read_to_string(rt, name)?;
        return compare_table(rt, name, text.as_str());
    }
    if name.ends_with(".machines") || name.ends_with(".events") || name.ends_with(".endings") {
        let text = fs::read_to_string(rt, name)?;
        return compare_answers(rt, name, text.as_str());
    }
    if name == "sections" {
        return compare_sections(rt);
    }
    compare_example(rt, name)
}

/// Prints a line for each argument, with how many it compares, and a last line with how many there are. The status is 1
/// if one differs.
fn main(rt: HostRuntime) -> io::Result<ExitCode> {
    if allocations::is_asked(&rt) {
        return Ok(allocations::allocate(&rt));
    }
    if words::is_requested(&rt)? {
        return words::print_rows(&rt);
    }
    let mut all = Tally::none();
    for name in env::args(&rt)?.skip(1) {
        let found = compare(&rt, name.as_str())?;
        let (differing, compared) = (found.differing, found.compared);
        println!(rt; "{name}: {differing} of {compared} differ")?;
        all = all.with(found);
    }
    let (differing, compared) = (all.differing, all.compared);
    println!(rt; "{differing} of {compared} differ")?;
    if differing == 0 {
        Ok(ExitCode::SUCCESS)
    } else {
        Ok(ExitCode::FAILURE)
    }
}
