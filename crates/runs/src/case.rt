//! One run, and what it has to come to.
ghost use Rattle.std.specs.Prelude.{◌≡◌, IfOk, true};
ghost use Rattle.taskscript.specs.{File.file_of, Events.script_of};
ghost use Rattle.runs.specs.Outcomes.{IsOutcome};

use crate::outcome::{Outcome, outcome_of};
use crate::tally::Tally;
use execlist::link::LinkSpace;
use execlist::plain::PlainSpace;
use execlist::space::ListSpace;
use std::io;
use std::str::from_utf8;

/// A machine file, an event text, and the status and the bytes that the program has to come to over them.
#[derive(Clone, Copy)]
pub struct Case<'a> {
    /// What the run shows.
    pub name: &'a str,
    pub machine: &'a str,
    pub events: &'a str,
    pub status: u8,
    pub written: &'a str,
}

/// Prints the first line in which two texts differ.
fn print_difference(
    rt: &HostRuntime,
    table: &str,
    case: &Case<'_>,
    outcome: &Outcome,
) -> io::Result<()> {
    let name = case.name;
    let (wanted, got) = (case.status, outcome.status);
    println!(rt; "{table}: {name}: status {got}, wanted {wanted}")?;
    let mut wanted = case.written.lines();
    let mut got = from_utf8(&outcome.written).unwrap_or("").lines();
    for number in 1..u32::MAX {
        let lines = (wanted.next(), got.next());
        if lines.0 != lines.1 || lines.0.is_none() {
            let wanted = lines.0.unwrap_or("the end");
            let got = lines.1.unwrap_or("the end");
            println!(rt; "  line {number}, wanted: {wanted}")?;
            println!(rt; "  line {number}, got:    {got}")?;
            break;
        }
    }
    Ok(())
}

/// Whether the program comes to what is wanted of it on list spaces of the type S. If it does not, the first difference
/// is printed.
fn is_met<S: ListSpace>(rt: &HostRuntime, table: &str, case: &Case<'_>) -> io::Result<bool>
    ensures { IfOk result (λ same. same ≡ true
        → IsOutcome (file_of case.now.machine.now) (script_of case.now.events.now) case.now.status case.now.written.now) }
{
    let outcome = outcome_of::<S>(rt.alloc(), case.machine.as_bytes(), case.events.as_bytes())?;
    if outcome.status == case.status && outcome.written.as_slice() == case.written.as_bytes() {
        return Ok(true);
    }
    print_difference(rt, table, case, &outcome)?;
    Ok(false)
}

/// Whether the program comes to what is wanted of it, on lists in vectors and on linked cells: then both write the same
/// bytes. If it does not, the first difference is printed.
///
/// # Errors
///
/// If memory is refused, or standard output does not take what is printed.
fn is_as_wanted(rt: &HostRuntime, table: &str, case: &Case<'_>) -> io::Result<bool>
    ensures { IfOk result (λ same. same ≡ true
        → IsOutcome (file_of case.now.machine.now) (script_of case.now.events.now) case.now.status case.now.written.now) }
{
    if !is_met::<PlainSpace>(rt, table, case)? {
        return Ok(false);
    }
    is_met::<LinkSpace>(rt, table, case)
}

/// Whether a machine file names the version of its rules, by a key before its first table of a line of its own.
fn names_version(machine: &str) -> bool {
    for line in machine.lines() {
        if line.starts_with("[") {
            return false;
        }
        if let Some((key, _)) = line.split_once("=")
            && key.contains("version")
        {
            return true;
        }
    }
    false
}

/// Compares a run, and once more with `version = 1` before the machine file if it names no version: that is the version
/// of such a file. The second time it is made on linked cells alone, as the program makes it.
///
/// # Errors
///
/// If no memory is left, or standard output does not take what is printed.
pub fn compare_run(rt: &HostRuntime, table: &str, case: &Case<'_>) -> io::Result<Tally> {
    let as_it_is = Tally::of_one(is_as_wanted(rt, table, case)?);
    if names_version(case.machine) {
        return Ok(as_it_is);
    }
    let machine = format!(in rt.alloc(); "version = 1\n{}", case.machine)?;
    let again = Case {
        name: case.name,
        machine: machine.as_str(),
        events: case.events,
        status: case.status,
        written: case.written,
    };
    let same = is_met::<LinkSpace>(rt, table, &again)?;
    if !same {
        println!(rt; "  with version = 1 before the machine file")?;
    }
    Ok(as_it_is.with(Tally::of_one(same)))
}
